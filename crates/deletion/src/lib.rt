// Deletions: the earliest standing clause of the same set. The deleted clause's literals are on the trail, which marks them as false: a deletion
// cuts the trail to 0 first, since what followed from the standing clauses may follow no more.
#![tactic(auto)]

ghost use Rattle.std.specs.Prelude.{◌≡◌, ◌+◌, ◌≤◌, ◌<◌, false};
ghost use Rattle.std.specs.List.{list_all as all};
ghost use Rattle.rules.specs.Basics.{is_in};
ghost use Rattle.cells.specs.Codes.{codes_left};
ghost use Rattle.trail.specs.Trail.{off, ReadyIn};
ghost use Rattle.deletion.specs.Deletions.{same_as, there_at, ListedIn, list_in, MoreBy, NoneOf, EarliestIn, DeletedIn};

use cells::Codes;
use clauses::{Standing, holds, remove};
use trail::Trail;

// One literal more of the deleted clause.
pub fn list_literal(trail: &mut Trail, l: u32)
    ensures { ListedIn trail.old → (l < 65536) → ListedIn trail.new × MoreBy l (list_in trail.old) (list_in trail.new) }
{
    trail.assume(l);
}

// Whether the trail marks every literal of a clause.
fn all_marked(mut clause: Codes, trail: &Trail) -> bool
    ensures { result ≡ all (off trail.now.falses) (codes_left clause.entry) }
{
    clause.all(|l| trail.is_off(l))
}

// Whether a clause holds each literal on the trail. A call, since the walk over all clauses seldom asks it.
#[inline(never)]
fn covers(clause: Codes, trail: &Trail) -> bool
    ensures { result ≡ all (is_in (codes_left clause.entry)) (list_in trail.now) }
{
    trail.as_slice().iter().all(|l| holds(clause, *l as u32))
}

// Whether a clause is of the same set.
fn is_same(clause: Codes, trail: &Trail) -> bool
    ensures { ListedIn trail.now → result ≡ same_as (list_in trail.now) (codes_left clause.entry) }
{
    all_marked(clause, trail) && covers(clause, trail)
}

// Whether a clause stands at one of the four places from k on; true where fewer are left. All four are tested, which is one step of the machine.
#[tactic(auto, using(clauses::proofs::StandingLaws::none_four))]
fn near(standing: Standing, k: usize) -> bool
    ensures { result ≡ false → NoneOf standing.entry k (k + 4) }
{
    if standing.marks.len() < 4 {
        return true;
    }
    if standing.marks.len() - 4 < k {
        return true;
    }
    let low = standing.stands(k) | standing.stands(k + 1);
    low | standing.stands(k + 2) | standing.stands(k + 3)
}

// Whether a clause of the same set stands at place k.
fn is_there(standing: Standing, k: usize, trail: &Trail) -> bool
    ensures { ListedIn trail.now → result ≡ there_at (list_in trail.now) standing.entry k }
{
    standing.stands(k) && is_same(standing.clause(k), trail)
}

// The earliest of the places from k on and below n at which a clause of the same set stands.
fn earliest_in(standing: Standing, k: usize, n: usize, trail: &Trail) -> Option<usize>
    ensures { ListedIn trail.now → EarliestIn (list_in trail.now) standing.entry k n result }
{
    (k..n).find(|j| is_there(standing, *j, trail))
}

// The same of the four places from k on, which are passed over at once where no clause stands. Where one stands at the first, the test of all four
// would say so too: it is left out for the time alone.
#[tactic(auto, using(crate::proofs::DeletionLaws::there_none))]
fn earliest_of_four(standing: Standing, k: usize, trail: &Trail) -> Option<usize>
    requires { k + 4 ≤ standing.count }
    ensures { ListedIn trail.now → EarliestIn (list_in trail.now) standing.entry k (k + 4) result }
{
    if standing.stands(k) || near(standing, k) {
        return earliest_in(standing, k, k + 4, trail);
    }
    None
}

// The same of all places. A function of its own: as part of the check's it has too few registers.
#[inline(never)]
#[tactic(auto, using(crate::proofs::DeletionLaws::there_start, crate::proofs::DeletionLaws::there_more, crate::proofs::DeletionLaws::earliest_after))]
fn earliest(standing: Standing, trail: &Trail) -> Option<usize>
    ensures { ListedIn trail.now → EarliestIn (list_in trail.now) standing.entry 0 standing.entry.count result }
{
    let blocks = standing.count / 4;
    for block in 0..blocks {
        if let Some(place) = earliest_of_four(standing, 4 * block, trail) {
            return Some(place);
        }
    }
    earliest_in(standing, 4 * blocks, standing.count, trail)
}

// The earliest standing clause of the same set stands no more; whether there is one.
#[tactic(auto, using(crate::proofs::DeletionLaws::none_deleted))]
fn take_earliest(proof: &[i32], marks: &mut [i32], count: usize, trail: &Trail) -> bool
    ensures { ListedIn trail.now → DeletedIn (list_in trail.now) proof.now marks.old marks.new count result }
{
    let standing = Standing {
        proof,
        marks,
        count,
    };
    let Some(place) = earliest(standing, trail) else {
        return false;
    };
    remove(marks, place);
    true
}

// The same, with an empty trail afterwards.
pub fn delete(proof: &[i32], marks: &mut [i32], count: usize, trail: &mut Trail) -> bool
    ensures answer { ListedIn trail.old
        → DeletedIn (list_in trail.old) proof.now marks.old marks.new count result
        × ReadyIn trail.new }
    ensures empty { trail.new.length ≡ 0 }
    ensures kept { trail.new.literals ≡ trail.old.literals }
{
    let found = take_earliest(proof, marks, count, trail);
    trail.undo(0);
    found
}
