// Additions: RUP, and RAT on the first written literal.
#![tactic(auto)]

ghost use Rattle.std.specs.Prelude.{◌≡◌};
ghost use Rattle.cells.specs.Codes.{codes_left};
ghost use Rattle.clauses.specs.Standing.{standing_of};
ghost use Rattle.trail.specs.Trail.{ReadyIn};
ghost use Rattle.propagation.specs.Answers.{HeldIn};
ghost use Rattle.redundancy.specs.Additions.{rup_of, rat_on, rat_of, first_of, less_in, joined_in};
ghost use Rattle.redundancy.specs.Additions.{DeniedIn, RefutedIn, FollowsIn, TriedIn, DecidedIn};

use cells::Codes;
use clauses::{Standing, holds};
use propagation::Propagation;
use rules::Outcome;
use trail::{Trail, flip};

// Clause c, joined with a clause less a literal if there is one.
#[derive(Clone, Copy)]
struct Joined<'a> {
    c: Codes<'a>,
    less: Option<(Codes<'a>, u32)>,
}

// Makes the literals of a clause but skip false, until one of them is true.
#[tactic(auto, using(crate::proofs::DenyLaws::denying_at))]
fn deny(clause: Codes, skip: Option<u32>, trail: &mut Trail) -> Outcome
    ensures { ReadyIn trail.old → DeniedIn (less_in clause.entry skip) trail.old trail.new result }
{
    for l in clause {
        if Some(l) != skip {
            if trail.is_true(l) {
                return Outcome::Conflict;
            }
            trail.assume(l);
        }
    }
    Outcome::Stable
}

// The same for a joined clause.
#[tactic(auto, using(crate::proofs::DenyLaws::joined_stop))]
fn deny_both(joined: Joined, trail: &mut Trail) -> Outcome
    ensures { ReadyIn trail.old → DeniedIn (joined_in joined.entry) trail.old trail.new result }
{
    let Outcome::Stable = deny(joined.c, None, trail) else {
        return Outcome::Conflict;
    };
    match joined.less {
        None => Outcome::Stable,
        Some((d, skip)) => deny(d, Some(skip), trail),
    }
}

// Propagation from the negations of a joined clause.
#[tactic(auto, using(crate::proofs::DenyLaws::refuted_deny, crate::proofs::DenyLaws::refuted_settle), unfolding(crate::specs::Additions::Denied))]
fn refute(standing: Standing, propagation: &mut Propagation, joined: Joined) -> Outcome
    ensures { ReadyIn propagation.old.trail
        → RefutedIn (standing_of standing.entry) (joined_in joined.entry) propagation.old.trail propagation.new.trail result }
{
    let from = propagation.trail.length;
    let Outcome::Stable = deny_both(joined, &mut propagation.trail) else {
        return Outcome::Conflict;
    };
    propagation.propagate(standing, from)
}

// Whether a joined clause is RUP; the trail is cut back, so that the next candidate starts anew.
fn candidate(standing: Standing, propagation: &mut Propagation, joined: Joined) -> bool
    ensures { ReadyIn propagation.old.trail
        → FollowsIn (standing_of standing.entry) (codes_left joined.entry.c) propagation.old.trail
        → TriedIn propagation.old.trail propagation.new.trail
        × (result ≡ rup_of (standing_of standing.entry) (joined_in joined.entry)) }
{
    let from = propagation.trail.length;
    match refute(standing, propagation, joined) {
        Outcome::Conflict => {
            propagation.trail.undo(from);
            true
        }
        Outcome::Stable => {
            propagation.trail.undo(from);
            false
        }
    }
}

// Every standing clause that holds the negation of l is a candidate.
#[tactic(auto, using(crate::proofs::AdditionLaws::walking_start))]
fn each(standing: Standing, propagation: &mut Propagation, c: Codes, l: u32) -> bool
    ensures { ReadyIn propagation.old.trail
        → FollowsIn (standing_of standing.entry) (codes_left c.entry) propagation.old.trail
        → TriedIn propagation.old.trail propagation.new.trail
        × (result ≡ rat_on (standing_of standing.entry) (codes_left c.entry) l) }
{
    let skip = flip(l);
    for k in 0..standing.count {
        if standing.stands(k) {
            let d = standing.clause(k);
            let less = Some((d, skip));
            if holds(d, skip) && !candidate(standing, propagation, Joined { c, less }) {
                return false;
            }
        }
    }
    true
}

// The literal on which an addition is tested for RAT: "its first written literal".
fn pivot(mut clause: Codes) -> Option<u32>
    ensures { result ≡ first_of (codes_left clause.entry) }
{
    clause.next()
}

// Whether clause c, whose negations are on the trail, is RAT.
#[tactic(auto, using(crate::proofs::AdditionLaws::tried_self, crate::proofs::AdditionLaws::rat_none, crate::proofs::AdditionLaws::rat_first))]
fn is_rat(standing: Standing, propagation: &mut Propagation, c: Codes) -> bool
    ensures { ReadyIn propagation.old.trail
        → FollowsIn (standing_of standing.entry) (codes_left c.entry) propagation.old.trail
        → TriedIn propagation.old.trail propagation.new.trail
        × (result ≡ rat_of (standing_of standing.entry) (codes_left c.entry)) }
{
    let Some(l) = pivot(c) else {
        return false;
    };
    each(standing, propagation, c, l)
}

// Whether the addition c is RUP or RAT: up to where the watches of the trail are followed then. None: it is neither.
#[tactic(auto, using(crate::proofs::AdditionLaws::added_closed))]
pub fn add(standing: Standing, propagation: &mut Propagation, q: usize, c: Codes) -> Option<usize>
    ensures { HeldIn (standing_of standing.entry) propagation.old.trail
        → DecidedIn (standing_of standing.entry) (codes_left c.entry) propagation.new.trail result }
{
    let Outcome::Stable = propagation.ground(standing, q) else {
        return Some(q);
    };
    let base = propagation.trail.length;
    let joined = Joined { c, less: None };
    if refute(standing, propagation, joined) == Outcome::Stable
        && !is_rat(standing, propagation, c)
    {
        return None;
    }
    propagation.trail.undo(base);
    Some(base)
}
