// Reading a clause under the values.
ghost use Rattle.cells.specs.Codes.{codes_left};
ghost use Rattle.propagation.specs.Answers.{Saw, Sought};

use cells::Codes;
use trail::Trail;

// The distinct literals of a clause that are not false: none, one, or two of more.
#[derive(Clone, Copy)]
pub enum Look {
    Falsified,
    Unit(u32),
    Open(u32, u32),
}

// A clause up to the second distinct literal that is not false.
pub fn read_clause(mut clause: Codes, trail: &Trail) -> Look
    ensures { Saw trail.now.falses (codes_left clause.entry) result }
{
    let Some(one) = clause.find(|l| !trail.is_off(*l)) else {
        return Look::Falsified;
    };
    match clause.find(|l| !trail.is_off(*l) && *l != one) {
        None => Look::Unit(one),
        Some(l) => Look::Open(one, l),
    }
}

// The same, up to the first literal that is not false and not o.
pub fn seek(mut clause: Codes, trail: &Trail, o: u32) -> Look
    ensures { Sought trail.now.falses (codes_left clause.entry) result }
{
    let Some(one) = clause.find(|l| !trail.is_off(*l)) else {
        return Look::Falsified;
    };
    if one != o {
        return Look::Open(one, one);
    }
    match clause.find(|l| !trail.is_off(*l) && *l != one) {
        None => Look::Unit(one),
        Some(l) => Look::Open(l, l),
    }
}

// A literal of a clause other than a.
pub fn another(mut clause: Codes, a: u32) -> Option<u32> {
    clause.find(|l| *l != a)
}
