// Rule 9: whether the copies of a clause are mapped.
#![tactic(auto)]

ghost use Rattle.std.specs.Prelude.{◌≡◌};
ghost use Rattle.cells.specs.Codes.{codes_left};
ghost use Rattle.unmapped.specs.Copies.{all_mapped};

use cells::Codes;
use mapped::{Noted, is_mapped};

// Whether all copies of a clause are mapped.
#[tactic(auto, unfolding(crate::specs::Copies::all_mapped))]
pub fn all_mapped(mut clause: Codes, noted: &Noted) -> bool
    ensures { result ≡ all_mapped noted.now (codes_left clause.entry) }
{
    clause.all(|x| is_mapped(noted, x))
}
