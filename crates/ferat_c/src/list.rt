// The list of checks, with C's calling convention.
ghost use Rattle.tables.specs.Tables.{six};
ghost use Rattle.checks.specs.All.{CheckedAll};

use tables::LentTables;

// THE LIST: files packed one after the other, two ends and a kind for each check (1 FERAT, 2 FERP); seven numbers for each, as those of the
// checks, or zeros where no kind is named.
#[unsafe(no_mangle)]
pub extern "C" fn hutsvida_check_all(
    bytes: &[u8],
    ends: &[usize],
    kinds: &[u32],
    prefix: &mut [i32],
    matrix: &mut [i32],
    map: &mut [i32],
    proof: &mut [i32],
    marks: &mut [i32],
    values: &mut [i32],
    out: &mut [u32],
)
    ensures { CheckedAll bytes.now ends.now kinds.now
        (six prefix.old matrix.old map.old proof.old marks.old values.old) out.old
        (six prefix.new matrix.new map.new proof.new marks.new values.new) out.new }
{
    let mut tables = LentTables {
        prefix,
        matrix,
        map,
        proof,
        marks,
        values,
    };
    checks::check_all(bytes, ends, kinds, &mut tables, out);
}
