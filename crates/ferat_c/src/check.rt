// The check of a FERAT certificate, with C's calling convention.
ghost use Rattle.tables.specs.Tables.{six};
ghost use Rattle.ferat.specs.Check.{CheckedIn};
ghost use Rattle.ferat_c.specs.Numbers.{CheckedNumbers};

use tables::LentTables;

// THE CHECK, its seven fields as numbers: the word as 1 (accepted) or 2 (refused), number, file, line, and the three counts.
#[unsafe(no_mangle)]
pub extern "C" fn hutsvida_check(
    formula: &[u8],
    certificate: &[u8],
    prefix: &mut [i32],
    matrix: &mut [i32],
    map: &mut [i32],
    proof: &mut [i32],
    marks: &mut [i32],
    values: &mut [i32],
    seven: &mut [u32; 7],
)
    ensures { CheckedNumbers (CheckedIn formula.now certificate.now)
        (six prefix.old matrix.old map.old proof.old marks.old values.old) seven.new
        (six prefix.new matrix.new map.new proof.new marks.new values.new) }
{
    let mut tables = LentTables {
        prefix,
        matrix,
        map,
        proof,
        marks,
        values,
    };
    *seven = report::numbers(ferat::check(formula, certificate, &mut tables));
}
