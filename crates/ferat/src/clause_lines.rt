// `e` lines and additions: measured, stored where the proof table is free, then judged there.
ghost use Rattle.std.specs.Prelude.{◌≡◌};
ghost use Rattle.rules.specs.Forms.{clause_form, expansion, addition};
ghost use Rattle.tables.specs.Tables.{Tables, lengths_of};
ghost use Rattle.tables.specs.Lent.{tables_of, SameLent};
ghost use Rattle.progress.specs.declared.Work.{Work};
ghost use Rattle.steps.specs.Judges.{beside};
ghost use Rattle.ferat.specs.Lines.{Line, with_three};

use progress::{Progress, Work, limit_broken};
use rules::Rule;
use tables::{LentTables, ReadTables};

// `e` literals `0`, from the place after the letter on.
pub fn expansion_line(
    line: &[u8],
    at: usize,
    p: Progress,
    tables: &mut LentTables,
    work: &mut Work,
) -> Result<Progress, Rule>
    ensures read { Line (clause_form expansion) line.now at p
        (tables_of tables.old) work.old result (tables_of tables.new) work.new }
    ensures rest { tables_of tables.new ≡ record (tables_of tables.old)
        { proof = (tables_of tables.new).proof; marks = (tables_of tables.new).marks } }
    ensures work { work.new ≡ record work.old { propagation = work.new.propagation } }
    ensures lengths { lengths_of (tables_of tables.new) ≡ lengths_of (tables_of tables.old) }
    ensures lent { SameLent tables.old tables.new }
{
    let measure = lists::clause_at(line, at).ok_or(Rule::Malformed)?;
    if !progress::before_additions(p.counts) {
        return Err(Rule::Malformed);
    }
    limit_broken(
        p,
        measure,
        tables.proof.len(),
        tables.marks.len(),
        tables.values.len(),
    )?;
    p.store.store_line(line, at, tables.proof)?;
    let read = ReadTables {
        prefix: &mut *tables.prefix,
        matrix: &mut *tables.matrix,
        map: &mut *tables.map,
        proof: &mut *tables.proof,
        values: &mut *tables.values,
    };
    let marks = &mut *tables.marks;
    steps::expand(
        p,
        measure,
        read,
        marks,
        &work.starts,
        &work.noted,
        &mut work.propagation,
    )
}

// Literals and `0`.
pub fn addition_line(
    line: &[u8],
    p: Progress,
    tables: &mut LentTables,
    work: &mut Work,
) -> Result<Progress, Rule>
    ensures read { (t : Tables) (w : Work) → Line (clause_form addition) line.now 0 p
        (with_three t (tables_of tables.old)) (beside w work.old.propagation) result
        (with_three t (tables_of tables.new)) (beside w work.new.propagation) }
    ensures rest { tables_of tables.new ≡ record (tables_of tables.old)
        { proof = (tables_of tables.new).proof; marks = (tables_of tables.new).marks } }
    ensures work { work.new ≡ record work.old { propagation = work.new.propagation } }
    ensures lengths { lengths_of (tables_of tables.new) ≡ lengths_of (tables_of tables.old) }
    ensures lent { SameLent tables.old tables.new }
{
    let measure = lists::clause_at(line, 0).ok_or(Rule::Malformed)?;
    limit_broken(
        p,
        measure,
        tables.proof.len(),
        tables.marks.len(),
        tables.values.len(),
    )?;
    p.store.store_line(line, 0, tables.proof)?;
    let proof = &mut *tables.proof;
    let marks = &mut *tables.marks;
    steps::add(p, measure, proof, marks, &mut work.propagation)
}
