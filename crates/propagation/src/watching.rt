// Watched literals: where to look for units next. They are hints, and nothing is proved of what these lists hold.
// Nodes 2k and 2k + 1 are the two watches of the clause at place k; a number above every node, END, ends a list. `first` has for each literal
// the first node that watches it, `next` for each node the next of its list, `pair` for each clause the exclusive or of the two literals that
// it watches: who comes along the list of one of them has the other from it.
ghost use Rattle.std.specs.Prelude.{◌<◌};

use crate::{CLAUSES, CODES, END, NODES, Watches};
use trail::Trail;

// No literal's code: the list of the clauses with no two literals.
pub const SHORT: u32 = 0;

// No literals' codes: the two that a deleted clause watches.
pub const DELETED: u32 = 1;

pub const DELETED_TOO: u32 = 65535;

// Where the first node that watches l stands.
fn first_of(l: u32) -> usize
    ensures { result < 65536 }
{
    l as usize % CODES
}

// Where the node after p stands.
fn next_of(p: u32) -> usize
    ensures { result < 262144 }
{
    p as usize % NODES
}

// Where the two literals of p's clause stand.
fn pair_of(p: u32) -> usize
    ensures { result < 131072 }
{
    (p / 2) as usize % CLAUSES
}

// Whether the negation of o is false, so that nothing need be looked for in a clause that has o.
pub fn seems_true(trail: &Trail, o: u32) -> bool {
    trail.falses[(o ^ 1) as usize % CODES] != 0
}

impl Watches {
    pub fn first(&self, l: u32) -> u32 {
        self.first[first_of(l)]
    }

    pub fn following(&self, p: u32) -> u32 {
        self.next[next_of(p)]
    }

    // The literal that the clause of node p watches beside l.
    pub fn partner(&self, p: u32, l: u32) -> u32
        ensures { result < 65536 }
    {
        (self.pair[pair_of(p)] ^ l) % CODES as u32
    }

    // Node p is the first that watches l.
    fn link(&mut self, p: u32, l: u32) {
        let list = first_of(l);
        self.next[next_of(p)] = self.first[list];
        self.first[list] = p;
    }

    // Node p, which `before` and `after` stand around in the list of l, watches w from now on, unless that is o, which its clause watches
    // already. The node that stands before `after` then.
    pub fn watch_instead(
        &mut self,
        l: u32,
        before: u32,
        p: u32,
        after: u32,
        w: u32,
        o: u32,
    ) -> u32 {
        if w == o {
            return p;
        }
        if before == END {
            self.first[first_of(l)] = after;
        } else {
            self.next[next_of(before)] = after;
        }
        self.link(p, w);
        self.pair[pair_of(p)] = w ^ o;
        before
    }

    // The clause at place k watches a and b; one with no two literals is in the list of short ones. A clause beyond the last node is not linked.
    pub fn watch(&mut self, k: usize, a: u32, b: Option<u32>) {
        if CLAUSES <= k {
            return;
        }
        let p = (2 * k) as u32;
        let Some(b) = b else {
            self.pair[pair_of(p)] = a;
            self.link(p, SHORT);
            return;
        };
        self.pair[pair_of(p)] = a ^ b;
        self.link(p, a);
        self.link(p + 1, b);
    }
}
