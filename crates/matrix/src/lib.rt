// Where the clauses of the matrix start, so that each is reached without a walk.
#![tactic(auto)]

ghost use Rattle.std.specs.Prelude.{◌≡◌, ◌-◌};
ghost use Rattle.matrix.specs.Index.{place_at, index_of};

// One more than a formula has clauses.
pub const PLACES: usize = 8193;

// The place of each clause, and the one after the last.
pub type Starts = [usize; PLACES];

// The place where clause i starts, counted from 0.
#[tactic(auto, unfolding(crate::specs::Index::place_at))]
pub fn place(starts: &Starts, i: usize) -> usize
    ensures { result ≡ place_at starts.now i }
{
    starts.get(i).copied().unwrap_or(0)
}

// The place where clause n starts, counted from 1.
pub fn named(starts: &Starts, n: usize) -> usize
    ensures { result ≡ place_at starts.now (n - 1) }
{
    place(starts, n.saturating_sub(1))
}

// The matrix table is in use up to `used`; each clause ends with a 0, and the next one starts after it.
pub fn index_clauses(matrix: &[i32], used: usize, starts: &mut Starts)
    ensures { starts.new ≡ index_of matrix.now used starts.old }
{
    starts[0] = 0;
    let mut i: usize = 0;
    for k in 0..used {
        if cells::cell(matrix, k) == 0 {
            i += 1;
            cells::set_at(starts, i, k + 1);
        }
    }
}
