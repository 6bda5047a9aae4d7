// The end of the certificate.
ghost use Rattle.std.specs.Prelude.{◌≡◌};
ghost use Rattle.rules.specs.Rule.{broken};
ghost use Rattle.progress.specs.Order.{end_broken};

use crate::Progress;
use crate::order::hint_left;
use rules::Rule;

// The first of the rules 10 and 14 that is broken at the end.
#[tactic(auto, unfolding(crate::specs::Order::end_broken))]
pub fn end_broken(p: Progress, proof: &[i32], marks: &[i32]) -> Result<(), Rule>
    ensures { broken result ≡ end_broken p proof.now marks.now }
{
    if hint_left(p) {
        return Err(Rule::HintCount);
    }
    p.store.standing(proof, marks).closed()
}
