// A check: two files, the six tables, a report.
ghost use Rattle.tables.specs.Lent.{tables_of, SameLent};
ghost use Rattle.ferat.specs.Check.{CheckedIn};

use crate::certificate::Ferat;
use rules::Report;
use tables::LentTables;

// THE CHECK of two files in six tables.
pub fn check(formula: &[u8], certificate: &[u8], tables: &mut LentTables) -> Report
    ensures checked { CheckedIn formula.now certificate.now (tables_of tables.old) result (tables_of tables.new) }
    ensures lent { SameLent tables.old tables.new }
{
    certificates::check::<Ferat>(formula, certificate, tables)
}
