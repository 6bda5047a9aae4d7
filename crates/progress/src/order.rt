// The order of the certificate's lines, its hints and its limits.
ghost use Rattle.std.specs.Prelude.{◌≡◌};
ghost use Rattle.rules.specs.Rule.{broken};
ghost use Rattle.progress.specs.Order.{no_additions, no_hints, hint_missing, hint_left, limit_broken};

use crate::Progress;
use lists::Measure;
use mapped::COPIES;
use reading::Counts;
use rules::Rule;

// No addition and no deletion was accepted.
#[tactic(auto, unfolding(crate::specs::Order::no_additions))]
pub fn before_additions(c: Counts) -> bool
    ensures { result ≡ no_additions c }
{
    c.additions == 0 && c.deletions == 0
}

// There was no `o` line, and none of the lines that come after it.
#[tactic(auto, unfolding(crate::specs::Order::no_hints))]
pub fn before_hints(p: Progress) -> bool
    ensures { result ≡ no_hints p }
{
    p.hinted.is_none() && p.counts.expansions == 0 && before_additions(p.counts)
}

// There was an `o` line, and its hints are used up.
#[tactic(auto, unfolding(crate::specs::Order::hint_missing))]
pub fn hint_missing(p: Progress) -> bool
    ensures { result ≡ hint_missing p }
{
    p.hinted
        .is_some_and(|count| count <= p.counts.expansions as usize)
}

// A hint is left that no `e` line took.
#[tactic(auto, unfolding(crate::specs::Order::hint_left))]
pub fn hint_left(p: Progress) -> bool
    ensures { result ≡ hint_left p }
{
    p.hinted
        .is_some_and(|count| (p.counts.expansions as usize) < count)
}

// The first of the rules 3 and 15 that a clause of this measure breaks, in tables of these lengths.
#[tactic(auto, unfolding(crate::specs::Order::limit_broken))]
pub fn limit_broken(
    p: Progress,
    measure: Measure,
    proof: usize,
    marks: usize,
    values: usize,
) -> Result<(), Rule>
    ensures { broken result ≡ limit_broken p measure.count measure.largest proof marks values }
{
    if COPIES < measure.largest as usize {
        return Err(Rule::OutOfRange);
    }
    if !p.store.fits(measure.count, proof, marks) {
        return Err(Rule::TableFull);
    }
    if values < p.mapped.largest.max(measure.largest) as usize {
        return Err(Rule::TableFull);
    }
    Ok(())
}
