// Membership in a list of codes, through marks in an array.
ghost use Rattle.std.specs.Prelude.{◌≡◌};
ghost use Rattle.rules.specs.Basics.{is_in};
ghost use Rattle.cells.specs.Codes.{codes_left};
ghost use Rattle.copies.specs.Marks.{marks};

use cells::Codes;

// A formula's literals have codes below this.
pub const CODES: usize = 8194;

// Marks the codes; one without a place is passed over.
#[tactic(auto, unfolding(crate::specs::Marks::marks, crate::specs::Marks::stamp))]
pub fn mark(seen: &mut [u8], codes: Codes)
    ensures { seen.new ≡ marks (codes_left codes.entry) seen.old }
{
    for y in codes {
        cells::set_at(seen, y as usize, 1);
    }
}

// Whether y is among the codes, without marks.
pub fn has(mut codes: Codes, y: usize) -> bool
    ensures { result ≡ is_in (codes_left codes.entry) y }
{
    codes.any(|x| y == x as usize)
}
