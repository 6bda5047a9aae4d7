// The check of two files.
ghost use Rattle.std.specs.Prelude.{◌≡◌, ◌≤◌, List, ℕ, length};
ghost use Rattle.rules.specs.Limits.{Limits};
ghost use Rattle.rules.specs.Verdict.{Checked, Ranged};
ghost use Rattle.reading.specs.Lines.{FormulaChecked};
ghost use Rattle.tables.specs.Tables.{tables, lengths_of};
ghost use Rattle.tables.specs.Lent.{tables_of, SameLent};
ghost use Rattle.tables.specs.Checked.{CheckedBy};
ghost use Rattle.certificates.specs.Check.{BothFiles, InRange};

use crate::Kind;
use formula::Reading;
use reading::{Ended, refused_early, report_of};
use rules::{Report, Rule};
use tables::{BYTES, LentTables};

// A kind of certificate with a check of both files, which has working memory of its own.
pub trait Checker: Kind {
    // The rules over both files, and the numbers of their verdicts.
    ghost checked: { Limits → List ℕ → List ℕ → Checked };

    ghost Number: { ℕ → Type 0 };

    // The certificate of the formula that the tables show.
    fn certificate(certificate: &[u8], r: Reading, tables: &mut LentTables) -> Ended
        ensures read { length certificate.now ≤ 1048576 → FormulaChecked Self.rules certificate.now r
            (tables_of tables.old) result (tables_of tables.new) }
        ensures files { ((tables_of tables.new).prefix ≡ (tables_of tables.old).prefix)
            × ((tables_of tables.new).matrix ≡ (tables_of tables.old).matrix) }
        ensures lent { SameLent tables.old tables.new };

    // The same, in tables that are lent each as a slice, which keeps its length.
    fn certificate_in_slices(
        certificate: &[u8],
        r: Reading,
        prefix: &mut [i32],
        matrix: &mut [i32],
        map: &mut [i32],
        proof: &mut [i32],
        marks: &mut [i32],
        values: &mut [i32],
    ) -> Ended
        ensures read { length certificate.now ≤ 1048576 → FormulaChecked Self.rules certificate.now r
            (tables prefix.old matrix.old map.old proof.old marks.old values.old) result
            (tables prefix.new matrix.new map.new proof.new marks.new values.new) }
        ensures files { (prefix.new ≡ prefix.old) × (matrix.new ≡ matrix.old) }
    {
        let mut lent = LentTables {
            prefix,
            matrix,
            map,
            proof,
            marks,
            values,
        };
        Self::certificate(certificate, r, &mut lent)
    }

    // The same, and the tables keep their lengths, whatever the reading says. A kind that has only `certificate` is lent them anew for it.
    fn certificate_keeping_lengths(certificate: &[u8], r: Reading, tables: &mut LentTables) -> Ended
        ensures read { length certificate.now ≤ 1048576 → FormulaChecked Self.rules certificate.now r
            (tables_of tables.old) result (tables_of tables.new) }
        ensures files { ((tables_of tables.new).prefix ≡ (tables_of tables.old).prefix)
            × ((tables_of tables.new).matrix ≡ (tables_of tables.old).matrix) }
        ensures lengths { lengths_of (tables_of tables.new) ≡ lengths_of (tables_of tables.old) }
        ensures lent { SameLent tables.old tables.new }
    {
        Self::certificate_in_slices(
            certificate,
            r,
            tables.prefix,
            tables.matrix,
            tables.map,
            tables.proof,
            tables.marks,
            tables.values,
        )
    }

    // They judge the certificate's lines by the rules of the kind, and their verdicts are in its range.
    ghost of_both_files: { BothFiles Self.rules checked };

    ghost in_range: { InRange checked Number };
}

// THE CHECK of two files in six tables.
pub fn check<C: Checker>(formula: &[u8], certificate: &[u8], tables: &mut LentTables) -> Report
    ensures checked { CheckedBy (λ l. C.checked l formula.now certificate.now)
        (Ranged C.Number formula.now certificate.now) (tables_of tables.old) result (tables_of tables.new) }
    ensures lent { SameLent tables.old tables.new }
{
    if BYTES < formula.len() {
        return refused_early(Rule::Overlong.into(), 1);
    }
    if BYTES < certificate.len() {
        return refused_early(Rule::Overlong.into(), 2);
    }
    match formula::read_formula(formula, tables.prefix, tables.matrix) {
        Err(refusal) => refused_early(refusal, 1),
        Ok(r) => report_of(C::certificate_keeping_lengths(certificate, r, tables)),
    }
}
