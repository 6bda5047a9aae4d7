// The lines of a file one after the other.
ghost use Rattle.std.specs.Prelude.{◌≡◌};
ghost use Rattle.std.specs.Iterator.{YieldsFirstRef, item_count};
ghost use Rattle.lines.specs.Lines.{lines_of};
ghost use Rattle.lines.specs.Each.{lines_left};

use crate::line_end;

// The lines of a file from a place on; none past its end.
#[derive(Clone, Copy)]
pub struct Lines<'a> {
    bytes: &'a [u8],
    place: usize,
}

impl<'a> Lines<'a> {
    pub fn new(bytes: &'a [u8]) -> Lines<'a>
        ensures { lines_left result ≡ lines_of bytes.now }
    {
        Lines { bytes, place: 0 }
    }
}

impl<'a> Iterator for Lines<'a> {
    type Item = &'a [u8];

    ghost next_gives = { YieldsFirstRef lines_left };

    ghost remaining = { item_count lines_left };

    // part of each caller's loop, although `line_end` is part of it
    #[inline(always)]
    fn next(&mut self) -> Option<&'a [u8]> {
        let bytes = self.bytes;
        let start = self.place;
        if bytes.len() < start {
            return None;
        }
        let end = line_end(bytes, start);
        self.place = end + 1;
        Some(&bytes[start..end])
    }
}
