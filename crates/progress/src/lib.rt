// What is carried from line to line of a certificate: the order of its lines, its hints and limits, and its end.
#![tactic(auto)]

mod ending;
mod order;

use clauses::Store;
pub use ending::end_broken;
use formula::Reading;
use mapped::Noted;
use mapping::Mapped;
use matrix::Starts;
pub use order::{before_additions, before_hints, hint_left, hint_missing, limit_broken};
use propagation::Propagation;
use reading::Counts;

// What is carried from line to line, beside the tables and the working memory: what was read of the formula, the copies mapped, how
// many hints the `o` line has if there was one, the clauses stored, the place on the trail up to which watches are followed, and the lines accepted.
#[derive(Clone, Copy)]
pub struct Progress {
    pub formula: Reading,
    pub mapped: Mapped,
    pub hinted: Option<usize>,
    pub store: Store,
    pub followed: usize,
    pub counts: Counts,
}

// The working memory of a check: where the matrix clauses start, which copies are mapped, and, for propagation, the literals that are
// false since they follow from the standing clauses alone, and the watches.
#[derive(Drop)]
pub struct Work {
    pub starts: Starts,
    pub noted: Noted,
    pub propagation: Propagation,
}
