// What the prefix table says of a variable: its quantifier, and which universals an existential depends on.
#![tactic(auto)]

ghost use Rattle.std.specs.Prelude.{◌≡◌, replicate};
ghost use Rattle.std.specs.List.{list_all as all};
ghost use Rattle.cells.specs.Cells.{list_at};
ghost use Rattle.lists.specs.Stores.{puts};
ghost use Rattle.prefix.specs.Prefix.{entry, is_universal, is_existential, dependency, narrower, is_bound};

use cells::Codes;

// The word of a variable or of a copy, in a table with a place for each; 0 for variable 0 and past the end.
#[tactic(auto, unfolding(crate::specs::Prefix::entry))]
pub fn word(table: &[i32], v: usize) -> u32
    ensures { result ≡ entry table.now v }
{
    if v == 0 {
        return 0;
    }
    cells::cell(table, v - 1)
}

#[tactic(auto, unfolding(crate::specs::Prefix::is_universal))]
pub fn universal(prefix: &[i32], v: usize) -> bool
    ensures { result ≡ is_universal (entry prefix.now) v }
{
    word(prefix, v) % 2 == 1
}

#[tactic(auto, unfolding(crate::specs::Prefix::is_existential))]
pub fn existential(prefix: &[i32], v: usize) -> bool
    ensures { result ≡ is_existential (entry prefix.now) v }
{
    let word = word(prefix, v);
    word != 0 && word % 2 == 0
}

// Whether existential e depends on u: u is a universal left of it.
#[tactic(auto, unfolding(crate::specs::Prefix::dependency))]
pub fn depends(prefix: &[i32], e: usize, u: usize) -> bool
    ensures { result ≡ dependency (entry prefix.now) e u }
{
    universal(prefix, u) && word(prefix, u) < word(prefix, e)
}

// Of two existentials the one whose dependency set lies within the other's; f where there is no first.
#[tactic(auto, unfolding(crate::specs::Prefix::narrower))]
pub fn narrower(prefix: &[i32], first: Option<usize>, f: usize) -> usize
    ensures { result ≡ narrower (entry prefix.now) first f }
{
    match first {
        Some(e) if word(prefix, e) < word(prefix, f) => e,
        _ => f,
    }
}

// Zeros in front, as far as the table goes.
pub fn clear(t: &mut [i32], n: usize)
    ensures { t.new ≡ puts t.old 0 (replicate n 0) }
{
    for i in 0..n {
        cells::put(t, i, 0);
    }
}

// Whether every variable of the clause that stands from a place on is bound.
pub fn all_bound(prefix: &[i32], matrix: &[i32], from: usize) -> bool
    ensures { result ≡ all (is_bound prefix.now) (list_at matrix.now from) }
{
    Codes::new(matrix, from).all(|x| word(prefix, (x / 2) as usize) != 0)
}
