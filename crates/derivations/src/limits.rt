// The limits of a clause line.
ghost use Rattle.std.specs.Prelude.{◌≡◌};
ghost use Rattle.rules.specs.Rule.{broken};
ghost use Rattle.derivations.specs.Limits.{reason_in_range, line_in_range, has_places, limit_broken};

use crate::{Derivation, Progress, Reason};
use indexes::HIGHEST;
use mapped::COPIES;
use rules::Rule;

// n is at most C; indexes are at most 65536.
fn reason_in_range(c: u32, reason: Reason) -> bool
    ensures { result ≡ reason_in_range c reason }
{
    match reason {
        Reason::Clause(n) => n <= c,
        Reason::Parents(a, b) => a as usize <= HIGHEST && b as usize <= HIGHEST,
    }
}

// Rule 3.
#[tactic(auto, unfolding(crate::specs::Limits::line_in_range))]
fn in_range(p: Progress, d: Derivation) -> bool
    ensures { result ≡ line_in_range p d }
{
    d.index as usize <= HIGHEST
        && d.largest as usize <= COPIES
        && reason_in_range(p.formula.c, d.reason)
}

// Rule 15: the places of the clause are there, in tables of these lengths.
fn has_places(p: Progress, d: Derivation, proof: usize, marks: usize, values: usize) -> bool
    ensures { result ≡ has_places p d proof marks values }
{
    let free = proof.saturating_sub(p.store.places()).saturating_sub(1);
    p.store.fits(d.size, free, marks) && p.mapped.largest.max(d.largest) as usize <= values
}

// The first of the rules 3 and 15 that a clause line breaks, in tables of these lengths.
#[tactic(auto, unfolding(crate::specs::Limits::limit_broken))]
pub fn limit_broken(
    p: Progress,
    d: Derivation,
    proof: usize,
    marks: usize,
    values: usize,
) -> Result<(), Rule>
    ensures { broken result ≡ limit_broken p d proof marks values }
{
    if !in_range(p, d) {
        return Err(Rule::OutOfRange);
    }
    if !has_places(p, d, proof, marks, values) {
        return Err(Rule::TableFull);
    }
    Ok(())
}
