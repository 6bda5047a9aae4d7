// The line's literals against the clause's, through marks in a lent array, which are taken back.
#![tactic(auto)]

ghost use Rattle.std.specs.Prelude.{◌≡◌, set};
ghost use Rattle.std.specs.List.{list_all as all};
ghost use Rattle.cells.specs.Codes.{codes_left};
ghost use Rattle.copies.specs.Marks.{Unmarked};
ghost use Rattle.copies.specs.Copies.{image_of, words, stands_in, line_in};
ghost use Rattle.literals.specs.Literals.{first_in, in_line, literals_fit};
ghost use Rattle.literals.specs.Marks.{is_marked, meets, stamped_by, stamped, answered, cleared};

use cells::Codes;
use copies::{View, marks};

// Without marks: most clauses that do not fit are told by the line's first literal.
#[tactic(auto, unfolding(crate::specs::Literals::first_in, crate::specs::Literals::in_clause))]
pub fn first_in_clause(view: View, clause: Codes) -> bool
    ensures { result ≡ first_in (words view.entry) (stands_in view.entry)
        (codes_left clause.entry) (line_in view.entry) }
{
    let Some(x) = view.codes().next() else {
        return true;
    };
    let x = x as usize;
    prefix::existential(view.prefix, view.stands(x / 2)) && marks::has(clause, view.image(x))
}

// Whether code y has a mark, which becomes 2; one without a place is looked for in the clause.
#[tactic(auto, unfolding(crate::specs::Marks::is_marked, crate::specs::Marks::stamped))]
fn stamp_code(seen: &mut [u8], clause: Codes, y: usize) -> bool
    ensures { (result ≡ is_marked (codes_left clause.entry) seen.old y)
        × (seen.new ≡ stamped result y seen.old) }
{
    if y >= seen.len() {
        return marks::has(clause, y);
    }
    let marked = seen[y] != 0;
    if marked {
        seen[y] = 2;
    }
    marked
}

// The literal x stands for an existential literal of the clause, whose mark becomes 2.
#[tactic(auto, unfolding(crate::specs::Marks::meets, crate::specs::Marks::stamped, copies::specs::Copies::image_of))]
fn stamp_literal(seen: &mut [u8], view: View, clause: Codes, x: usize) -> bool
    ensures { (result ≡ meets (words view.entry) (stands_in view.entry) (codes_left clause.entry)
        seen.old x)
        × (seen.new ≡ stamped result (image_of (stands_in view.entry) x) seen.old) }
{
    let e = view.stands(x / 2);
    prefix::existential(view.prefix, e) && stamp_code(seen, clause, 2 * e + x % 2)
}

// Each literal of the line does so; the walk stops at one that does not.
#[tactic(auto, using(crate::proofs::MarkLaws::meets_kept), unfolding(crate::specs::Marks::stamped_by, crate::specs::Marks::stamped))]
fn stamp_line(seen: &mut [u8], view: View, clause: Codes) -> bool
    ensures { (result ≡ all (meets (words view.entry) (stands_in view.entry) (codes_left clause.entry)
        seen.old) (line_in view.entry))
        × (seen.new ≡ stamped_by (words view.entry) (stands_in view.entry) (codes_left clause.entry)
        (line_in view.entry) seen.old) }
{
    for x in view.codes() {
        if !stamp_literal(seen, view, clause, x as usize) {
            return false;
        }
    }
    true
}

// If literal y is existential, one of the line stands for it. Without marks.
#[tactic(auto, unfolding(crate::specs::Literals::in_line))]
fn in_line(view: View, y: usize) -> bool
    ensures { result ≡ in_line (words view.entry) (stands_in view.entry) (line_in view.entry) y }
{
    !prefix::existential(view.prefix, y / 2) || view.has_image(y)
}

// Takes the mark of literal y back. If y is existential, it may not be 1 still; without a place, y is looked for in the line.
#[tactic(auto, unfolding(crate::specs::Marks::answered))]
fn clear_code(seen: &mut [u8], view: View, y: usize) -> bool
    ensures { (result ≡ answered (words view.entry) (stands_in view.entry) (line_in view.entry)
        seen.old y)
        × (seen.new ≡ set seen.old y 0) }
{
    if y >= seen.len() {
        return in_line(view, y);
    }
    let m = seen[y];
    seen[y] = 0;
    m != 1 || !prefix::existential(view.prefix, y / 2)
}

// The same for each literal of the clause; all marks are taken back, whatever the answer.
#[tactic(auto, using(crate::proofs::MarkLaws::answered_kept), unfolding(crate::specs::Marks::cleared))]
fn take_back(seen: &mut [u8], view: View, clause: Codes) -> bool
    ensures { (result ≡ all (answered (words view.entry) (stands_in view.entry) (line_in view.entry)
        seen.old) (codes_left clause.entry))
        × (seen.new ≡ cleared (codes_left clause.entry) seen.old) }
{
    let mut all = true;
    for y in clause {
        all &= clear_code(seen, view, y as usize);
    }
    all
}

// The line's literals stand for the clause's existential ones. The lent array has no marks, before and after.
pub fn literals_fit(view: View, clause: Codes, seen: &mut [u8]) -> bool
    ensures { Unmarked seen.old → (result ≡ literals_fit (words view.entry) (stands_in view.entry)
        (line_in view.entry) (codes_left clause.entry)) × Unmarked seen.new }
{
    marks::mark(seen, clause);
    let a = stamp_line(seen, view, clause);
    let b = take_back(seen, view, clause);
    a & b
}
