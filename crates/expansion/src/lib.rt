// Whether an `e` line is an expansion of a matrix clause, over the tables. The least t is built in `least`, which is empty before and after.
#![tactic(auto)]

ghost use Rattle.std.specs.Prelude.{◌≡◌};
ghost use Rattle.cells.specs.Codes.{codes_left};
ghost use Rattle.assignment.specs.Least.{IsEmpty, SameArrays};
ghost use Rattle.expansion.specs.Codes.{expands_in, expands_named_in, expands_any_in};

use assignment::least::Least;
use cells::Codes;
use copies::View;
use matrix::Starts;

// Whether the line is an expansion of the clause.
#[tactic(auto, unfolding(crate::specs::Codes::expands_codes))]
pub fn expands(view: View, clause: Codes, least: &mut Least) -> bool
    ensures lent { SameArrays least.old least.new }
    ensures answer { IsEmpty least.old → (result ≡ expands_in view.entry (codes_left clause.entry)) × IsEmpty least.new }
{
    literals::literals_fit(view, clause, least.seen)
        && assignment::annotations_fit(view, clause, least)
}

// The same of clause n, counted from 1.
#[tactic(auto, unfolding(crate::specs::Codes::expands_named, crate::specs::Codes::expands_at))]
pub fn expands_named(
    view: View,
    matrix: &[i32],
    starts: &Starts,
    n: usize,
    least: &mut Least,
) -> bool
    ensures lent { SameArrays least.old least.new }
    ensures answer { IsEmpty least.old → (result ≡ expands_named_in view.entry matrix.now starts.now n) × IsEmpty least.new }
{
    expands(view, Codes::new(matrix, matrix::named(starts, n)), least)
}

// The same of one of the first c clauses. Most of them are told by the line's first literal, without the marks of `expands`.
#[tactic(auto, using(matrix::proofs::IndexLaws::any_steps, literals::proofs::Arms::first_unfit), unfolding(crate::specs::Codes::expands_any, crate::specs::Codes::expands_at, crate::specs::Codes::expands_codes))]
pub fn expands_any(view: View, matrix: &[i32], starts: &Starts, c: usize, least: &mut Least) -> bool
    ensures lent { SameArrays least.old least.new }
    ensures answer { IsEmpty least.old → (result ≡ expands_any_in view.entry matrix.now starts.now c) × IsEmpty least.new }
{
    for i in 0..c {
        let clause = Codes::new(matrix, matrix::place(starts, i));
        if literals::first_in_clause(view, clause) && expands(view, clause, least) {
            return true;
        }
    }
    false
}
