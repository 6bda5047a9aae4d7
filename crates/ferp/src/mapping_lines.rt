// The mapping line.
ghost use Rattle.std.specs.Prelude.{◌≡◌};
ghost use Rattle.tables.specs.Tables.{Tables, lengths_of};
ghost use Rattle.tables.specs.Lent.{tables_of, SameLent};
ghost use Rattle.reading.specs.Lines.{with_map};
ghost use Rattle.derivations.specs.declared.Work.{Work};
ghost use Rattle.ferp.specs.Lines.{same_form, no_clause, Line, with_noted};

use derivations::{Progress, Work};
use rules::Rule;
use tables::LentTables;

// Whether no clause line came before.
#[tactic(auto, unfolding(crate::specs::Lines::no_clause))]
fn before_clauses(p: Progress) -> bool
    ensures { result ≡ no_clause p }
{
    p.store.places() == 0
}

// "the same mapping lines", from the place after the letter on.
pub fn mapping_line(
    line: &[u8],
    at: usize,
    p: Progress,
    tables: &mut LentTables,
    work: &mut Work,
) -> Result<Progress, Rule>
    ensures read { (t : Tables) (w : Work) → Line same_form line.now at p
        (with_map t (tables_of tables.old)) (with_noted w work.old) result (with_map t (tables_of tables.new)) (with_noted w work.new) }
    ensures rest { tables_of tables.new ≡ record (tables_of tables.old)
        { map = (tables_of tables.new).map; values = (tables_of tables.new).values } }
    ensures noted { work.new ≡ record work.old { noted = work.new.noted } }
    ensures lengths { lengths_of (tables_of tables.new) ≡ lengths_of (tables_of tables.old) }
    ensures lent { SameLent tables.old tables.new }
{
    let prefix = &mut *tables.prefix;
    let map = &mut *tables.map;
    let values = &mut *tables.values;
    Ok(Progress {
        mapped: mapping::mapping_line(
            line,
            at,
            before_clauses(p),
            p.formula.v,
            p.mapped,
            prefix,
            map,
            values,
            &mut work.noted,
        )?,
        ..p
    })
}
