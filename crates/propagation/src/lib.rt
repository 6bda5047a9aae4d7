// Unit propagation over the standing clauses, in any order of units, and what follows from them alone.
#![tactic(auto)]

ghost use Rattle.std.specs.Prelude.{◌<◌};
ghost use Rattle.clauses.specs.Standing.{standing_of};
ghost use Rattle.trail.specs.Trail.{ReadyIn};
ghost use Rattle.propagation.specs.Answers.{ScannedIn, VisitedIn, TurnedIn, SettledIn, HeldIn};

use clauses::Standing;
use looks::{Look, another, read_clause, seek};
use rules::Outcome;
use trail::Trail;
use watching::{DELETED, DELETED_TOO, SHORT, seems_true};

mod looks;
mod watching;

// The codes of literals are below this.
pub const CODES: usize = 65536;

// The places of the clauses that are watched are below this.
pub const CLAUSES: usize = 131072;

// Two nodes for each clause.
pub const NODES: usize = 2 * CLAUSES;

// Watched literals: for each literal the first node that watches it, for each node the next of its list, and for each clause the exclusive or of
// the two literals that it watches.
#[derive(Clone, Copy)]
pub struct Watches {
    pub first: [u32; CODES],
    pub next: [u32; NODES],
    pub pair: [u32; CLAUSES],
}

// Ends each list of watches; at the start all of them are empty.
pub const END: u32 = u32::MAX;

// What propagation works on: which literals are false, and the watches.
#[derive(Clone, Copy)]
pub struct Propagation {
    pub trail: Trail,
    pub watches: Watches,
}

// A look at all standing clauses.
#[derive(Clone, Copy)]
pub enum Scan {
    Falsified,
    Unit(u32),
    Closed,
}

// A literal for the clause at place k to watch in place of one that became false, where o is the other that it watches. None: a conflict.
// Part of its callers: a call would copy `standing`.
#[inline(always)]
#[tactic(auto, using(crate::proofs::MoveLaws::moved_refl), unfolding(crate::specs::Answers::Turned))]
fn judge(standing: Standing, trail: &mut Trail, k: usize, o: u32) -> Option<u32>
    ensures { ReadyIn trail.old → (k < standing.entry.count)
        → TurnedIn (standing_of standing.entry) trail.old trail.new result }
{
    if !standing.stands(k) {
        return Some(if o == DELETED { DELETED_TOO } else { DELETED });
    }
    match seek(standing.clause(k), trail, o) {
        Look::Falsified => None,
        Look::Unit(u) => {
            trail.make_true(u);
            Some(u)
        }
        Look::Open(a, _) => Some(a),
    }
}

// What a look at every standing clause finds.
#[tactic(auto, using(crate::proofs::AnswerLaws::scanning_end, crate::proofs::ClauseLaws::scan_falsified, crate::proofs::ClauseLaws::scan_unit))]
fn scan_all(standing: Standing, trail: &Trail) -> Scan
    ensures { ScannedIn (standing_of standing.entry) trail.now result }
{
    for place in 0..standing.count {
        if standing.stands(place) {
            match read_clause(standing.clause(place), trail) {
                Look::Falsified => return Scan::Falsified,
                Look::Unit(u) if !trail.is_true(u) => return Scan::Unit(u),
                Look::Unit(_) => {}
                Look::Open(_, _) => {}
            }
        }
    }
    Scan::Closed
}

impl Propagation {
    // The clauses that watch l, which is false. The lists may be cyclic for all that is known of them: the walk ends after as many steps as
    // there are nodes. Part of its callers, which come to it for each literal.
    #[inline(always)]
    #[tactic(auto, using(crate::proofs::AnswerLaws::clash_on), unfolding(crate::specs::Answers::Visited, crate::specs::Answers::Turned))]
    fn walk(&mut self, standing: Standing, l: u32) -> Outcome
        ensures { ReadyIn self.old.trail → VisitedIn (standing_of standing.entry) self.old.trail self.new.trail result }
    {
        let mut before: u32 = END;
        let mut p = self.watches.first(l);
        for _ in 0..NODES {
            let k = (p / 2) as usize;
            if standing.count <= k {
                return Outcome::Stable;
            }
            let o = self.watches.partner(p, l);
            let after = self.watches.following(p);
            if seems_true(&self.trail, o) {
                before = p;
            } else {
                let Some(w) = judge(standing, &mut self.trail, k, o) else {
                    return Outcome::Conflict;
                };
                before = self.watches.watch_instead(l, before, p, after, w, o);
            }
            p = after;
        }
        Outcome::Stable
    }

    // The watches of what became false from place q of the trail on.
    #[tactic(auto, using(crate::proofs::AnswerLaws::moved_on, crate::proofs::AnswerLaws::clash_on), unfolding(crate::specs::Answers::Visited))]
    fn follow(&mut self, standing: Standing, q: usize) -> Outcome
        ensures { ReadyIn self.old.trail → VisitedIn (standing_of standing.entry) self.old.trail self.new.trail result }
    {
        for i in q..CODES {
            if self.trail.length <= i {
                return Outcome::Stable;
            }
            let l = self.trail.literal_at(i);
            let Outcome::Stable = self.walk(standing, l) else {
                return Outcome::Conflict;
            };
        }
        Outcome::Stable
    }

    // Propagation: what the watches find, until a scan finds nothing more. The watches of the trail are followed up to place q.
    pub fn propagate(&mut self, standing: Standing, q: usize) -> Outcome
        ensures { ReadyIn self.old.trail → SettledIn (standing_of standing.entry) self.old.trail self.new.trail result }
    {
        let mut followed = q;
        for _ in 0..CODES {
            let Outcome::Stable = self.follow(standing, followed) else {
                return Outcome::Conflict;
            };
            followed = self.trail.length;
            match scan_all(standing, &self.trail) {
                Scan::Falsified => return Outcome::Conflict,
                Scan::Closed => return Outcome::Stable,
                Scan::Unit(u) => self.trail.make_true(u),
            }
        }
        Outcome::Conflict
    }

    // What follows from the standing clauses alone; the watches of the trail are followed up to place q.
    pub fn ground(&mut self, standing: Standing, q: usize) -> Outcome
        ensures { ReadyIn self.old.trail → VisitedIn (standing_of standing.entry) self.old.trail self.new.trail result }
    {
        if q == 0 && self.walk(standing, SHORT) == Outcome::Conflict {
            return Outcome::Conflict;
        }
        self.follow(standing, q)
    }

    // The clause at place k is watched from now on; a literal that it makes true goes on the trail. None: a conflict.
    #[tactic(auto, using(crate::proofs::MoveLaws::moved_refl), unfolding(crate::specs::Answers::Turned))]
    fn watch_clause(&mut self, standing: Standing, k: usize) -> Option<u32>
        ensures { ReadyIn self.old.trail → (k < standing.entry.count)
            → TurnedIn (standing_of standing.entry) self.old.trail self.new.trail result }
    {
        let clause = standing.clause(k);
        match read_clause(clause, &self.trail) {
            Look::Open(a, b) => {
                self.watches.watch(k, a, Some(b));
                Some(a)
            }
            Look::Unit(a) => {
                self.watches.watch(k, a, another(clause, a));
                judge(standing, &mut self.trail, k, a)
            }
            Look::Falsified => {
                let a = another(clause, SHORT).unwrap_or(SHORT);
                self.watches.watch(k, a, another(clause, a));
                judge(standing, &mut self.trail, k, SHORT)
            }
        }
    }

    // The clause at place k, which is new, is watched from now on; up to where the watches of the trail are followed then.
    #[tactic(auto, using(crate::proofs::HeldLaws::held_turned))]
    pub fn attach(&mut self, standing: Standing, q: usize, k: usize) -> usize
        ensures { HeldIn (standing_of standing.entry) self.old.trail → (k < standing.entry.count)
            → HeldIn (standing_of standing.entry) self.new.trail }
    {
        match self.watch_clause(standing, k) {
            None => 0,
            Some(_) => q,
        }
    }
}
