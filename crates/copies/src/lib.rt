// What the tables say of a line's copies.
#![tactic(auto)]

pub mod marks;

ghost use Rattle.std.specs.Prelude.{◌≡◌, ◌<◌};
ghost use Rattle.rules.specs.Basics.{is_in};
ghost use Rattle.cells.specs.Codes.{codes_left};
ghost use Rattle.prefix.specs.Prefix.{entry};
ghost use Rattle.copies.specs.Copies.{annotation_at, image_of, images_of, stands_in, line_in};

use cells::Codes;
use tables::ReadTables;

// A line's copies as the tables show them: the prefix, the values of the copies and the map, and the line's codes, which stand in `proof`
// from place `line` on, up to a 0. How many literals the line has, `size`, decides the way of a test and not its answer.
#[derive(Clone, Copy)]
pub struct View<'a> {
    pub prefix: &'a [i32],
    pub values: &'a [i32],
    pub map: &'a [i32],
    pub proof: &'a [i32],
    pub line: usize,
    pub size: usize,
}

impl<'a> View<'a> {
    // Of the line of `size` literals whose codes stand from place `line` on.
    pub fn of(tables: ReadTables<'a>, line: usize, size: usize) -> View<'a>
        ensures prefix { result.prefix.now ≡ tables.entry.prefix.now }
        ensures values { result.values.now ≡ tables.entry.values.now }
        ensures map { result.map.now ≡ tables.entry.map.now }
        ensures proof { result.proof.now ≡ tables.entry.proof.now }
        ensures line { result.line ≡ line }
        ensures size { result.size ≡ size }
    {
        View {
            prefix: tables.prefix,
            values: tables.values,
            map: tables.map,
            proof: tables.proof,
            line,
            size,
        }
    }

    // The line's codes, one after the other.
    pub fn codes(self) -> Codes<'a>
        ensures { codes_left result ≡ line_in self.entry }
    {
        Codes::new(self.proof, self.line)
    }

    // The place of the map where copy p's mapping stands.
    fn place(self, p: usize) -> usize
        ensures { (result ≡ entry self.entry.values.now p) × (result < 4294967296) }
    {
        prefix::word(self.values, p) as usize
    }

    // The existential that copy p stands for.
    #[tactic(auto, unfolding(crate::specs::Copies::stands_of))]
    pub fn stands(self, p: usize) -> usize
        ensures { (result ≡ stands_in self.entry p) × (result < 4294967296) }
    {
        cells::cell(self.map, self.place(p)) as usize
    }

    // The place of copy p's annotation.
    #[tactic(auto, unfolding(crate::specs::Copies::annotation_at))]
    pub fn annotation_at(self, p: usize) -> usize
        ensures { result ≡ annotation_at self.entry.values.now self.entry.map.now p }
    {
        cells::cell(self.map, self.place(p) + 1) as usize
    }

    // The literal x with its copy replaced by the copy's existential and its sign kept.
    #[tactic(auto, unfolding(crate::specs::Copies::image_of))]
    pub fn image(self, x: usize) -> usize
        ensures { result ≡ image_of (stands_in self.entry) x }
    {
        2 * self.stands(x / 2) + x % 2
    }

    // Whether a literal of the line stands for y, without marks.
    #[tactic(auto, unfolding(crate::specs::Copies::images_of))]
    pub fn has_image(self, y: usize) -> bool
        ensures { result ≡ is_in (images_of (stands_in self.entry) (line_in self.entry)) y }
    {
        self.codes().any(|x| y == self.image(x as usize))
    }
}
