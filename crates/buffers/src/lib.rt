// A list of a line that is read once: the pass that measures it keeps its codes in a buffer, and they are stored from there.
#![tactic(auto)]

ghost use Rattle.std.specs.Prelude.{◌≡◌, ◌+◌, ◌≤◌, length, map};
ghost use Rattle.std.proofs.lemmas.List.Edits.{sets};
ghost use Rattle.lists.specs.Lists.{listed_at};
ghost use Rattle.lists.specs.Stores.{codes_at, puts};
ghost use Rattle.buffers.specs.Buffers.{as_stored, StoresLine};

use clauses::{PLACES, Store};
use lines::Literals;
use lists::Measure;
use rules::Rule;

// As `lists::list_at`; and the codes of the list and of its zero are in the buffer, as far as it goes.
#[inline(always)]
pub fn list_at(line: &[u8], at: usize, buffer: &mut [u32]) -> Option<(Measure, usize)>
    ensures { (result ≡ listed_at line.now at)
        × (buffer.new ≡ sets buffer.old 0 (codes_at line.now at)) }
{
    let mut measure = Measure::none();
    for (x, e) in Literals::new(line, at) {
        cells::set_at(buffer, measure.count, x);
        if x == 0 {
            return Some((measure, e));
        }
        measure = measure.with(x);
    }
    None
}

// Codes in a table from a place on.
#[tactic(auto, using(crate::proofs::BufferLaws::copying_more, crate::proofs::BufferLaws::copying_end))]
fn copy(codes: &[u32], table: &mut [i32], from: usize)
    requires { (from ≤ 1073741824) × (length codes.now ≤ 1073741824) }
    ensures { table.new ≡ puts table.old from (map as_stored codes.now) }
{
    for (k, x) in codes.iter().enumerate() {
        cells::put(table, from + k, *x);
    }
}

// The list of n literals from place `at` of the line on, whose codes the buffer has if it can, becomes the pending clause.
pub fn store_line(
    line: &[u8],
    at: usize,
    n: usize,
    buffer: &[u32],
    table: &mut [i32],
    s: Store,
) -> Result<(), Rule>
    ensures { StoresLine line.now at n buffer.now table.old s result table.new }
{
    let from = s.written();
    if n < buffer.len() && buffer.len() <= PLACES && from <= PLACES {
        copy(&buffer[..=n], table, from);
        return Ok(());
    }
    s.store_line(line, at, table)
}
