// The clauses of a certificate in the proof and marks tables. This crate alone knows how they stand there; a clause is named by its place.
#![tactic(auto)]

ghost use Rattle.std.specs.Prelude.{◌≡◌, [], ◌+◌, ◌<◌, cond};
ghost use Rattle.rules.specs.Basics.{is_in};
ghost use Rattle.rules.specs.Rule.{broken};
ghost use Rattle.lists.specs.Stores.{ending_at};
ghost use Rattle.cells.specs.Codes.{codes_left, codes_table, codes_place};
ghost use Rattle.clauses.specs.Standing.{standing_of, stands_at, clause_of, empty_of, has_empty};
ghost use Rattle.clauses.specs.Standing.{places_of, empty_above, pending, written_at, room_for, stored, removed, StandsNow};

use cells::{Codes, cell, put};
use rules::Rule;

// The places of a table that are in use are fewer: two of them, or twice one, and 1 more are a sum without loss.
pub const PLACES: usize = 1073741824;

// The places of the proof table in use, and the number of clauses stored.
#[derive(Clone, Copy)]
pub struct Store {
    pub used: usize,
    pub count: usize,
}

// The tables in which the clauses stand, those at the places below count.
#[derive(Clone, Copy)]
pub struct Standing<'a> {
    pub proof: &'a [i32],
    pub marks: &'a [i32],
    pub count: usize,
}

impl Store {
    // An empty store above the first n places of the proof table.
    #[tactic(auto, unfolding(crate::specs::Standing::empty_above))]
    pub fn above(n: usize) -> Store
        ensures { result ≡ empty_above n }
    {
        Store { used: n, count: 0 }
    }

    // The clauses have the places below this.
    #[tactic(auto, unfolding(crate::specs::Standing::places_of))]
    pub fn places(self) -> usize
        ensures { result ≡ places_of self }
    {
        self.count
    }

    // The clauses as they stand in these tables.
    #[tactic(auto, unfolding(crate::specs::Standing::places_of))]
    pub fn standing<'a>(self, proof: &'a [i32], marks: &'a [i32]) -> Standing<'a>
        ensures proof { result.proof.now ≡ proof.now }
        ensures marks { result.marks.now ≡ marks.now }
        ensures count { result.count ≡ places_of self }
    {
        Standing {
            proof,
            marks,
            count: self.count,
        }
    }

    // Whether a clause of n literals more has its places in tables of these lengths.
    #[tactic(auto, using(crate::proofs::StoreLaws::fits_short, crate::proofs::StoreLaws::fits_marks))]
    pub fn fits(self, n: usize, proof: usize, marks: usize) -> bool
        ensures { result ≡ room_for self n proof marks }
    {
        n < proof.saturating_sub(self.used) && self.count < marks
    }

    // The literals of a line from place `at` of its text on become the pending clause, which is written where the proof table is free.
    #[tactic(auto, unfolding(crate::specs::Standing::stored))]
    pub fn store_line(self, line: &[u8], at: usize, table: &mut [i32]) -> Result<(), Rule>
        ensures { (table.new ≡ stored line.now at self table.old)
            × (result ≡ ending_at line.now at) }
    {
        lists::store_list(line, at, table, self.used)
    }

    // The pending clause.
    #[tactic(auto, unfolding(crate::specs::Standing::pending))]
    pub fn pending(self, table: &[i32]) -> Codes<'_>
        ensures left { codes_left result ≡ pending table.now self }
        ensures from { (codes_table result ≡ table.now) × (codes_place result ≡ self.used) }
    {
        Codes::new(table, self.used)
    }

    // Where the pending clause's codes stand in the proof table, one in a place, up to a 0.
    #[tactic(auto, unfolding(crate::specs::Standing::written_at))]
    pub fn written(self) -> usize
        ensures { result ≡ written_at self }
    {
        self.used
    }

    // The pending clause, of n literals, stands from now on.
    #[tactic(auto, unfolding(crate::specs::Standing::marks_need, crate::specs::Standing::grown))]
    pub fn stand(self, marks: &mut [i32], n: usize) -> Store
        ensures { StandsNow marks.old marks.new self n result }
    {
        let used = self.used % PLACES;
        if self.count < marks.len() {
            put(marks, self.count, (2 * used + 1) as u32);
            return Store {
                used: used + n % PLACES + 1,
                count: self.count + 1,
            };
        }
        self
    }
}

impl<'a> Standing<'a> {
    // Whether a clause stands at place k.
    #[tactic(auto, unfolding(crate::specs::Standing::stands))]
    pub fn stands(self, k: usize) -> bool
        ensures { result ≡ stands_at self.entry k }
    {
        cell(self.marks, k) % 2 != 0
    }

    // The clause at place k.
    #[tactic(auto, unfolding(crate::specs::Standing::clause_at))]
    pub fn clause(self, k: usize) -> Codes<'a>
        ensures { codes_left result ≡ clause_of self.entry k }
    {
        let place = (cell(self.marks, k) / 2) as usize;
        Codes::new(self.proof, place)
    }

    // Whether the clause at place k stands and is empty.
    fn empty_at(self, k: usize) -> bool
        ensures { result ≡ empty_of self.entry k }
    {
        self.stands(k) && self.clause(k).next().is_none()
    }

    // Whether an empty clause stands.
    pub fn empty_stands(self) -> bool
        ensures { result ≡ has_empty (standing_of self.entry) }
    {
        (0..self.count).any(|k| self.empty_at(k))
    }

    // The test at a certificate's end: an empty clause must stand.
    pub fn closed(self) -> Result<(), Rule>
        ensures { broken result ≡ cond (has_empty (standing_of self.entry)) 0 14 }
    {
        if self.empty_stands() {
            Ok(())
        } else {
            Err(Rule::NotClosed)
        }
    }
}

// A clause without literals.
#[tactic(auto, using(cells::proofs::Laws::list_past))]
pub fn none(table: &[i32]) -> Codes<'_>
    ensures { codes_left result ≡ [] }
{
    Codes::new(table, table.len())
}

// Whether a clause holds the literal l.
pub fn holds(mut clause: Codes, l: u32) -> bool
    ensures { result ≡ is_in (codes_left clause.entry) l }
{
    clause.any(|m| l == m)
}

// The clause at place k stands no more.
#[tactic(auto, unfolding(crate::specs::Standing::removed))]
pub fn remove(marks: &mut [i32], k: usize)
    ensures { marks.new ≡ removed k marks.old }
{
    let m = cell(marks, k);
    put(marks, k, m - m % 2);
}
