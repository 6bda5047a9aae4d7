// Which literals are false, and since when. A literal is its code.
#![tactic(auto)]

ghost use Rattle.std.specs.Prelude.{◌≡◌, ◌≤◌, ◌<◌, take};
ghost use Rattle.rules.specs.Codes.{flip as negation};
ghost use Rattle.trail.specs.Trail.{off, truth, ShapeIn, TrailedIn, literal_in, AssumedIn, UndoneIn};

// Not 0 at l: the literal l is false.
pub type Falses = [u8; 65536];

// falses tells which literals are false; literals[0..length): the false literals, in the order in which they became false.
#[derive(Clone, Copy)]
pub struct Trail {
    pub falses: Falses,
    pub literals: [u16; 65536],
    pub length: usize,
}

// The code of the negation.
#[tactic(auto, unfolding(rules::specs::Codes::flip))]
pub fn flip(l: u32) -> u32
    ensures { result ≡ negation l }
{
    if l % 2 == 0 { l + 1 } else { l - 1 }
}

impl Trail {
    // The literal at place k below 65536.
    pub fn literal_at(&self, k: usize) -> u32
        ensures { (result < 65536) × ((k < 65536) → result ≡ literal_in self.now k) }
    {
        self.literals[k % 65536] as u32
    }

    // The literals on the trail.
    pub fn as_slice(&self) -> &[u16]
        ensures { result.now ≡ take self.now.length self.now.literals }
    {
        &self.literals[..self.length.min(65536)]
    }

    #[tactic(auto, unfolding(crate::specs::Trail::off))]
    pub fn is_off(&self, l: u32) -> bool
        ensures { (l < 65536) → result ≡ off self.now.falses l }
    {
        self.falses[(l % 65536) as usize] != 0
    }

    // A literal is true where its negation is false.
    #[tactic(auto, using(crate::proofs::TrailLaws::flip_small))]
    pub fn is_true(&self, l: u32) -> bool
        ensures { (l < 65536) → result ≡ truth self.now.falses l }
    {
        self.is_off(flip(l))
    }

    // The literal l is false from now on.
    pub fn assume(&mut self, l: u32)
        ensures { ShapeIn self.old → (l < 65536) → AssumedIn self.old l self.new }
    {
        let i = (l % 65536) as usize;
        if self.falses[i] == 0 && self.length < 65536 {
            self.falses[i] = 1;
            self.literals[self.length] = i as u16;
            self.length += 1;
        }
    }

    // The literal l is true from now on.
    #[tactic(auto, using(crate::proofs::TrailLaws::flip_small))]
    pub fn make_true(&mut self, l: u32)
        ensures { ShapeIn self.old → (l < 65536) → AssumedIn self.old (negation l) self.new }
    {
        self.assume(flip(l));
    }

    // Takes back what the trail has from place base on.
    pub fn undo(&mut self, base: usize)
        ensures undone { TrailedIn self.old → (base ≤ self.old.length) → UndoneIn self.old base self.new }
        ensures cut { self.new.length ≤ base }
        ensures kept { self.new.literals ≡ self.old.literals }
    {
        let n = self.length.min(65536);
        for k in (base..n).rev() {
            self.falses[self.literals[k] as usize] = 0;
        }
        self.length = n.min(base);
    }
}
