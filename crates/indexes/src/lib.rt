// Which clause has which index: found in one step.
#![tactic(auto)]

ghost use Rattle.std.specs.Prelude.{◌≡◌};
ghost use Rattle.indexes.specs.Shown.{place_at, noted};

// The highest index.
pub const HIGHEST: usize = 65536;

// Place i holds the place of the clause with index i, counted from 1; 0 if no clause has it.
pub type Indexes = [u32; 65537];

// The place of the clause with an index, counted from 0.
#[tactic(auto, unfolding(crate::specs::Shown::place_at))]
pub fn place_of(indexes: &Indexes, index: u32) -> Option<usize>
    ensures { result ≡ place_at indexes.now index }
{
    let place = *indexes.get(index as usize)?;
    (place as usize).checked_sub(1)
}

// The clause at a place, counted from 0, has this index; nothing where the index is above the highest.
#[tactic(auto, unfolding(crate::specs::Shown::noted))]
pub fn note(indexes: &mut Indexes, index: u32, place: u32)
    ensures { indexes.new ≡ noted indexes.old index place }
{
    cells::set_at(indexes, index as usize, place.wrapping_add(1));
}
