// What is carried from line to line of a FERP certificate, and the judging of its clause lines once they are stored.
#![tactic(auto)]

mod judging;
mod limits;

use clauses::Store;
use copies::marks::CODES;
use formula::Reading;
use indexes::Indexes;
pub use judging::derive;
pub use limits::limit_broken;
use mapped::Noted;
use mapping::Mapped;
use matrix::Starts;
use reading::Counts;
use resolvents::Seen;

// What is carried from line to line, beside the tables: what was read of the formula, the copies mapped, the clauses stored, and the lines
// accepted.
#[derive(Clone, Copy)]
pub struct Progress {
    pub formula: Reading,
    pub mapped: Mapped,
    pub store: Store,
    pub counts: Counts,
}

// What a clause is said to follow from: matrix clause n, of which it is an expansion, or the clauses with two indexes, its parents.
#[derive(Clone, Copy)]
pub enum Reason {
    Clause(u32),
    Parents(u32, u32),
}

// A clause line: its index, what the clause is said to follow from, how many literals it has, and the largest copy among them, 0 if none.
#[derive(Clone, Copy)]
pub struct Derivation {
    pub index: u32,
    pub reason: Reason,
    pub size: usize,
    pub largest: u32,
}

// The working memory of a check: where the matrix clauses start, which copies are mapped, which clause has which index, the marks that
// resolvents and expansions are tested by, the literals that the test of an expansion lists, and the codes of the line at hand.
#[derive(Drop)]
pub struct Work {
    pub starts: Starts,
    pub noted: Noted,
    pub indexes: Indexes,
    pub seen: Seen,
    pub held: [u16; CODES],
    pub buffer: [u32; 4096],
}
