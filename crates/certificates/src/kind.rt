// What a kind of certificate has of its own.
ghost use Rattle.std.specs.Prelude.{◌≡◌};
ghost use Rattle.reading.specs.Lines.{Rules, Code};
ghost use Rattle.reading.proofs.GoingLaws.{Apt};
ghost use Rattle.tables.specs.Tables.{tables, lengths_of};
ghost use Rattle.tables.specs.Lent.{tables_of, SameLent};
ghost use Rattle.certificates.specs.Kind.{LineRead, EndRead};

use reading::Counts;
use rules::Rule;
use tables::LentTables;

// A kind of certificate: what is carried from line to line, the working memory of a check, and the judging of one line and of the end.
pub trait Kind {
    type Progress: Copy;

    type Work;

    // The rules: their state between two lines, and how they judge.
    ghost State: { Type 0 };

    ghost rules: { Rules State };

    // What the progress, the tables and the working memory show of the rules' state.
    ghost code: { Code State Self.Progress Self.Work };

    // One line: the next progress, or a rule that it breaks.
    fn line(
        line: &[u8],
        p: Self::Progress,
        tables: &mut LentTables,
        work: &mut Self::Work,
    ) -> Result<Self::Progress, Rule>
        ensures read { LineRead rules code line.now p
            (tables_of tables.old) work.old result (tables_of tables.new) work.new }
        ensures files { ((tables_of tables.new).prefix ≡ (tables_of tables.old).prefix)
            × ((tables_of tables.new).matrix ≡ (tables_of tables.old).matrix) }
        ensures lent { SameLent tables.old tables.new };

    // The same, in tables that are lent each as a slice, which keeps its length.
    fn line_in_slices(
        line: &[u8],
        p: Self::Progress,
        prefix: &mut [i32],
        matrix: &mut [i32],
        map: &mut [i32],
        proof: &mut [i32],
        marks: &mut [i32],
        values: &mut [i32],
        work: &mut Self::Work,
    ) -> Result<Self::Progress, Rule>
        ensures read { LineRead rules code line.now p
            (tables prefix.old matrix.old map.old proof.old marks.old values.old) work.old result
            (tables prefix.new matrix.new map.new proof.new marks.new values.new) work.new }
        ensures files { (prefix.new ≡ prefix.old) × (matrix.new ≡ matrix.old) }
    {
        let mut lent = LentTables {
            prefix,
            matrix,
            map,
            proof,
            marks,
            values,
        };
        Self::line(line, p, &mut lent, work)
    }

    // The same, and the tables keep their lengths, whatever the progress shows. A kind that has only `line` is lent them anew for it.
    fn line_keeping_lengths(
        line: &[u8],
        p: Self::Progress,
        tables: &mut LentTables,
        work: &mut Self::Work,
    ) -> Result<Self::Progress, Rule>
        ensures read { LineRead rules code line.now p
            (tables_of tables.old) work.old result (tables_of tables.new) work.new }
        ensures files { ((tables_of tables.new).prefix ≡ (tables_of tables.old).prefix)
            × ((tables_of tables.new).matrix ≡ (tables_of tables.old).matrix) }
        ensures lengths { lengths_of (tables_of tables.new) ≡ lengths_of (tables_of tables.old) }
        ensures lent { SameLent tables.old tables.new }
    {
        Self::line_in_slices(
            line,
            p,
            tables.prefix,
            tables.matrix,
            tables.map,
            tables.proof,
            tables.marks,
            tables.values,
            work,
        )
    }

    // The end of the file.
    fn end(p: Self::Progress, tables: &LentTables) -> Result<(), Rule>
        ensures { EndRead rules code p (tables_of tables.now) result };

    // The lines accepted.
    fn counts(p: Self::Progress) -> Counts
        ensures { result ≡ code.counts p };

    // What is asked of the rules and of the code.
    ghost apt: { Apt rules code };
}
