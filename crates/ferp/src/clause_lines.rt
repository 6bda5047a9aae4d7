// The clause line: measured, stored where the proof table is free, then judged there.
ghost use Rattle.std.specs.Prelude.{◌≡◌};
ghost use Rattle.ferp_rules.specs.Forms.{derivation_form};
ghost use Rattle.tables.specs.Tables.{lengths_of};
ghost use Rattle.tables.specs.Lent.{tables_of, SameLent};
ghost use Rattle.ferp.specs.Lines.{Line};

use derivations::{Progress, Work, limit_broken};
use rules::Rule;
use tables::{LentTables, ReadTables};

// A positive index, literals, `0`, one or two numbers, `0`.
pub fn clause_line(
    line: &[u8],
    p: Progress,
    tables: &mut LentTables,
    work: &mut Work,
) -> Result<Progress, Rule>
    ensures read { Line derivation_form line.now 0 p
        (tables_of tables.old) work.old result (tables_of tables.new) work.new }
    ensures rest { tables_of tables.new ≡ record (tables_of tables.old)
        { proof = (tables_of tables.new).proof; marks = (tables_of tables.new).marks } }
    ensures work { work.new ≡ record work.old
        { indexes = work.new.indexes; seen = work.new.seen; held = work.new.held; buffer = work.new.buffer } }
    ensures lengths { lengths_of (tables_of tables.new) ≡ lengths_of (tables_of tables.old) }
    ensures lent { SameLent tables.old tables.new }
{
    let (d, from) = ferp_forms::derivation_at(line, 0, &mut work.buffer).ok_or(Rule::Malformed)?;
    limit_broken(
        p,
        d,
        tables.proof.len(),
        tables.marks.len(),
        tables.values.len(),
    )?;
    buffers::store_line(line, from, d.size, &work.buffer, tables.proof, p.store)?;
    let read = ReadTables {
        prefix: &mut *tables.prefix,
        matrix: &mut *tables.matrix,
        map: &mut *tables.map,
        proof: &mut *tables.proof,
        values: &mut *tables.values,
    };
    let marks = &mut *tables.marks;
    derivations::derive(
        p,
        d,
        read,
        marks,
        &work.starts,
        &work.noted,
        &mut work.indexes,
        &mut work.seen,
        &mut work.held,
    )
}
