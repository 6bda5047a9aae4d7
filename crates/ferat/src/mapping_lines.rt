// The mapping line.
ghost use Rattle.std.specs.Prelude.{◌≡◌};
ghost use Rattle.rules.specs.Forms.{mapping_form};
ghost use Rattle.tables.specs.Tables.{Tables, lengths_of};
ghost use Rattle.tables.specs.Lent.{tables_of, SameLent};
ghost use Rattle.progress.specs.declared.Work.{Work};
ghost use Rattle.reading.specs.Lines.{with_map};
ghost use Rattle.ferat.specs.Lines.{Line, with_noted};

use progress::{Progress, Work};
use rules::Rule;
use tables::LentTables;

// `x P1..Pk 0 E1..Ek 0 L1..Lm 0`, from the place after its letter on.
pub fn mapping_line(
    line: &[u8],
    at: usize,
    p: Progress,
    tables: &mut LentTables,
    work: &mut Work,
) -> Result<Progress, Rule>
    ensures read { (t : Tables) (w : Work) → Line mapping_form line.now at p
        (with_map t (tables_of tables.old)) (with_noted w work.old) result (with_map t (tables_of tables.new)) (with_noted w work.new) }
    ensures rest { tables_of tables.new ≡ record (tables_of tables.old)
        { map = (tables_of tables.new).map; values = (tables_of tables.new).values } }
    ensures noted { work.new ≡ record work.old { noted = work.new.noted } }
    ensures lengths { lengths_of (tables_of tables.new) ≡ lengths_of (tables_of tables.old) }
    ensures lent { SameLent tables.old tables.new }
{
    let prefix = &mut *tables.prefix;
    let map = &mut *tables.map;
    let values = &mut *tables.values;
    Ok(Progress {
        mapped: mapping::mapping_line(
            line,
            at,
            progress::before_hints(p),
            p.formula.v,
            p.mapped,
            prefix,
            map,
            values,
            &mut work.noted,
        )?,
        ..p
    })
}
