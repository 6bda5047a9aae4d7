// The least t: the negations of the clause's universal literals and the annotations of the line's copies, each literal once.
ghost use Rattle.std.specs.Prelude.{◌≡◌, ◌<◌, ◌≤◌, length};
ghost use Rattle.rules.specs.Codes.{flip};

use cells::Codes;
use copies::View;
use copies::marks::CODES;

// Its codes are marked in `seen` and listed in the first `count` places of `held`; both arrays are lent.
#[derive(Drop)]
pub struct Least<'a> {
    pub seen: &'a mut [u8],
    pub held: &'a mut [u16],
    pub count: usize,
    pub ghost room: { (count ≤ 8194) × (count ≤ length held.now) },
}

// The code of the negation.
#[tactic(auto, unfolding(rules::specs::Codes::flip))]
fn negated(y: usize) -> usize
    ensures { result ≡ flip y }
{
    y ^ 1
}

impl<'a> Least<'a> {
    ghost use Rattle.std.specs.Prelude.{◌≡◌, [], ◌∷◌, ◌<◌, ◌≤◌, take};
    ghost use Rattle.rules.specs.Basics.{is_in};
    ghost use Rattle.cells.specs.Codes.{codes_left};
    ghost use Rattle.copies.specs.Copies.{words, annotation_in, line_in};
    ghost use Rattle.assignment.specs.Held.{is_new, adding, joined};
    ghost use Rattle.assignment.specs.Least.{items_of, HeldIn, HoldsIn, IsEmpty, SameArrays};
    ghost use Rattle.assignment.specs.Annotations.{apart, negations, annotations_of, part_size};

    // Without a literal, in two arrays that are lent.
    pub fn new(seen: &'a mut [u8], held: &'a mut [u16]) -> Least<'a>
        ensures lent { (result.seen.ghost_name ≡ seen.entry.ghost_name) × (result.held.ghost_name ≡ held.entry.ghost_name) }
        ensures now { (result.seen.now ≡ seen.old) × (result.held.now ≡ held.old) }
        ensures none { result.count ≡ 0 }
    {
        Least {
            seen,
            held,
            count: 0,
        }
    }

    // The codes of its literals, in the order in which they were added.
    fn codes(&self) -> &[u16]
        ensures { result.now ≡ take self.now.count self.now.held.now }
    {
        &self.held[..self.count]
    }

    // Whether literal y can be added: it is a formula's, and has a place without a mark.
    #[tactic(auto, unfolding(crate::specs::Held::is_new))]
    fn is_new(&self, y: usize) -> bool
        ensures { result ≡ is_new self.now.seen.now y }
    {
        y < CODES && self.seen.get(y) == Some(&0)
    }

    // Adds a literal, unless it is there.
    #[tactic(auto, unfolding(crate::specs::Held::is_new))]
    fn add(&mut self, y: usize)
        ensures lent { SameArrays self.old self.new }
        ensures held { HeldIn self.old → HoldsIn self.new (adding (items_of self.old) y) }
    {
        let n = self.count;
        if self.is_new(y) && n < CODES && n < self.held.len() {
            self.seen[y] = 1;
            self.held[n] = y as u16;
            self.count = n + 1;
        }
    }

    // Adds the literals of these codes.
    #[tactic(auto, unfolding(crate::specs::Held::joined))]
    fn join(&mut self, codes: Codes)
        ensures lent { SameArrays self.old self.new }
        ensures held { HeldIn self.old → HoldsIn self.new (joined (items_of self.old) (codes_left codes.entry)) }
    {
        for y in codes {
            self.add(y as usize);
        }
    }

    // Adds the annotations of the line's copies. Copies of one mapping line, which often follow each other, share the place of theirs.
    #[tactic(auto, using(crate::proofs::Arms::joins), unfolding(crate::specs::Held::joined, crate::specs::Annotations::annotations_of, copies::specs::Copies::annotation_of))]
    pub(crate) fn join_annotations(&mut self, view: View)
        ensures lent { SameArrays self.old self.new }
        ensures held { HeldIn self.old
            → HoldsIn self.new (joined (items_of self.old) (annotations_of (annotation_in view.entry) (line_in view.entry))) }
    {
        let mut last = view.map.len();
        for x in view.codes() {
            let a = view.annotation_at(x as usize / 2);
            if a != last {
                self.join(Codes::new(view.map, a));
                last = a;
            }
        }
    }

    // Adds the negation of y if it is universal.
    #[tactic(auto, unfolding(crate::specs::Held::joined, crate::specs::Annotations::negations))]
    fn join_negation(&mut self, view: View, y: usize)
        ensures lent { SameArrays self.old self.new }
        ensures held { HeldIn self.old → HoldsIn self.new (joined (items_of self.old) (negations (words view.entry) (y ∷ []))) }
    {
        if prefix::universal(view.prefix, y / 2) {
            self.add(negated(y));
        }
    }

    // Adds the negations of the clause's universal literals.
    #[tactic(auto, using(crate::proofs::Arms::joins), unfolding(crate::specs::Held::joined, crate::specs::Annotations::negations))]
    pub(crate) fn join_negations(&mut self, view: View, clause: Codes)
        ensures lent { SameArrays self.old self.new }
        ensures held { HeldIn self.old
            → HoldsIn self.new (joined (items_of self.old) (negations (words view.entry) (codes_left clause.entry))) }
    {
        for y in clause {
            self.join_negation(view, y as usize);
        }
    }

    // Whether literal y is there.
    fn holds(&self, y: usize) -> bool
        ensures { HeldIn self.now → result ≡ is_in (items_of self.now) y }
    {
        self.seen.get(y) == Some(&1)
    }

    // No literal is there together with its negation.
    pub(crate) fn one_signed(&self) -> bool
        ensures { HeldIn self.now → result ≡ apart (items_of self.now) }
    {
        self.codes()
            .iter()
            .all(|&y| !self.holds(negated(y as usize)))
    }

    // How many of the literals are of universals that e depends on.
    pub(crate) fn part_size(&self, view: View, e: usize) -> usize
        ensures { (result ≡ part_size (words view.entry) (items_of self.now) e) × (result ≤ 8194) }
    {
        self.codes()
            .iter()
            .filter(|&&y| prefix::depends(view.prefix, e, y as usize / 2))
            .count()
    }

    // Takes all literals out, and their marks back.
    pub(crate) fn take_back(&mut self)
        ensures lent { SameArrays self.old self.new }
        ensures empty { HeldIn self.old → IsEmpty self.new }
    {
        let seen = &mut *self.seen;
        for &y in &self.held[..self.count] {
            cells::set_at(seen, y as usize, 0);
        }
        self.count = 0;
    }
}
