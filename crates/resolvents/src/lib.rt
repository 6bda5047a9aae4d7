// Whether a clause is the resolvent of two others, in time linear in the three: by a walk over each parent and two or three over the clause.
// The clause's codes are marked in an array that is lent and left clear: with 1, and the signs of the parents that hold the code too.
#![tactic(auto)]

ghost use Rattle.std.specs.Prelude.{◌≡◌, ◌≤◌, eqb};
ghost use Rattle.std.specs.List.{list_any as any};
ghost use Rattle.cells.specs.Codes.{codes_left};
ghost use Rattle.resolvents.specs.declared.Strays.TheVariants.{None};
ghost use Rattle.resolvents.specs.Resolves.{resolves as resolvesCodes};
ghost use Rattle.resolvents.specs.Marks.{Clear, each, to, raise as raised, lacks, covered, in_all};
ghost use Rattle.resolvents.specs.Marks.{meet as met, stray as strayOf, may_leave, pivot, candidates};

use cells::Codes;
use trail::flip;

// The signs of the first and the second parent.
const IN_D: u8 = 2;

const IN_E: u8 = 4;

// The mark of a code that all three clauses hold.
const IN_ALL: u8 = 7;

// The codes of a parent that the clause does not hold.
#[derive(Clone, Copy)]
enum Strays {
    None,
    One(u32),
    Several,
}

pub type Seen = [u8; 65536];

// The codes of the clause are marked.
#[tactic(auto, using(crate::proofs::WalkLaws::walks))]
fn mark(clause: Codes, seen: &mut Seen)
    ensures { seen.new ≡ each (to 1) (codes_left clause.entry) seen.old }
{
    for y in clause {
        seen[y as usize] = 1;
    }
}

// They are marked no more. Whether each had a parent's sign.
#[tactic(auto, using(crate::proofs::WalkLaws::walks))]
fn unmark(clause: Codes, seen: &mut Seen) -> bool
    ensures { (result ≡ covered seen.old (codes_left clause.entry))
        × (seen.new ≡ each (to 0) (codes_left clause.entry) seen.old) }
{
    let mut all = true;
    for y in clause {
        let k = y as usize;
        all = all & (seen[k] != 1);
        seen[k] = 0;
    }
    all
}

// A mark with a parent's sign, the largest so far; no mark stays none.
#[tactic(auto, unfolding(crate::specs::Marks::raise))]
fn raise(m: u8, sign: u8) -> u8
    requires { sign ≤ 4 }
    ensures { result ≡ raised sign m }
{
    if (m == 0) | (sign <= m) {
        return m;
    }
    m + sign
}

// The stray codes after a code y with the mark m, where they were p so far.
#[tactic(auto, unfolding(crate::specs::Marks::meet))]
fn meet(m: u8, p: Strays, y: u32) -> Strays
    ensures { result ≡ met (eqb m 0) p y }
{
    if m != 0 {
        return p;
    }
    match p {
        Strays::None => Strays::One(y),
        Strays::One(x) if x == y => p,
        _ => Strays::Several,
    }
}

// The marks of a parent's codes get its sign. The codes of the parent that the clause does not hold.
#[tactic(auto, using(crate::proofs::WalkLaws::walks))]
fn stray(clause: Codes, sign: u8, seen: &mut Seen) -> Strays
    requires { sign ≤ 4 }
    ensures { (result ≡ strayOf (lacks seen.old) (codes_left clause.entry) None)
        × (seen.new ≡ each (raised sign) (codes_left clause.entry) seen.old) }
{
    let mut p = Strays::None;
    for y in clause {
        let k = y as usize;
        let m = seen[k];
        seen[k] = raise(m, sign);
        p = meet(m, p, y);
    }
    p
}

// Whether the code x may leave a parent with the stray codes p: it is the only one, or, where there is none, all three clauses hold it.
#[tactic(auto, unfolding(crate::specs::Marks::may_leave, crate::specs::Marks::in_all))]
fn may_leave(p: Strays, x: u32, seen: &Seen) -> bool
    ensures { result ≡ may_leave (in_all seen.now) p x }
{
    match p {
        Strays::None => seen.get(x as usize).is_some_and(|m| *m == IN_ALL),
        Strays::One(y) => y == x,
        Strays::Several => false,
    }
}

// Whether the code x may leave the first parent and its flip the second, where p and q are their stray codes.
#[tactic(auto, unfolding(crate::specs::Marks::pivot))]
fn is_pivot(x: u32, p: Strays, q: Strays, seen: &Seen) -> bool
    ensures { result ≡ pivot (in_all seen.now) p q x }
{
    may_leave(p, x, seen) & may_leave(q, flip(x), seen)
}

// Whether some code may. A stray code tells which; where there is none, the clause holds it.
#[tactic(auto, unfolding(crate::specs::Marks::candidates))]
fn has_pivot(mut clause: Codes, p: Strays, q: Strays, seen: &Seen) -> bool
    ensures { result ≡ any (pivot (in_all seen.now) p q) (candidates p q (codes_left clause.entry)) }
{
    match p {
        Strays::One(x) => is_pivot(x, p, q, seen),
        Strays::Several => false,
        Strays::None => match q {
            Strays::One(y) => is_pivot(flip(y), p, q, seen),
            Strays::Several => false,
            Strays::None => clause.any(|x| is_pivot(x, p, q, seen)),
        },
    }
}

// Whether c is the resolvent of d and e on some variable, whichever of them holds it positive.
pub fn resolves(c: Codes, d: Codes, e: Codes, seen: &mut Seen) -> bool
    ensures { Clear seen.old
        → (result ≡ resolvesCodes (codes_left c.entry) (codes_left d.entry) (codes_left e.entry))
        × Clear seen.new }
{
    mark(c, seen);
    let p = stray(d, IN_D, seen);
    let q = stray(e, IN_E, seen);
    let found = has_pivot(c, p, q, seen);
    unmark(c, seen) & found
}
