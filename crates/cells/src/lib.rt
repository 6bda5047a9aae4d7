// The places of a table of 32-bit signed numbers, read and written as natural numbers.
#![tactic(auto)]

ghost use Rattle.std.specs.Prelude.{◌≡◌, ◌%◌, ◌<◌, set, pos};
ghost use Rattle.std.specs.Iterator.{YieldsFirst, item_count};
ghost use Rattle.cells.specs.Cells.{cell_at, code_at, list_at};
ghost use Rattle.cells.specs.Codes.{codes_table, codes_place, codes_left};

// The number at a place: 0 for a negative one, and past the end.
pub fn cell(t: &[i32], i: usize) -> u32
    ensures { result ≡ cell_at t.now i }
{
    match t.get(i) {
        Some(x) if 0 <= *x => *x as u32,
        _ => 0,
    }
}

// Stores a number below 2^31 at a place, a larger one less its highest bit; nothing past the end.
pub fn put(t: &mut [i32], i: usize, v: u32)
    ensures { t.new ≡ set t.old i (pos (v % 2147483648)) }
{
    set_at(t, i, (v % 2147483648) as i32);
}

// The code of a literal at a place: the number there modulo 65536, above every code that is stored.
pub fn code(t: &[i32], i: usize) -> u32
    ensures { (result ≡ code_at t.now i) × (result < 65536) }
{
    cell(t, i) % 65536
}

// Stores a value at a place; nothing past the end.
pub fn set_at<T: Copy>(s: &mut [T], i: usize, x: T)
    ensures { s.new ≡ set s.old i x }
{
    if i < s.len() {
        s[i] = x;
    }
}

// The codes of a table from a place on, up to a 0 or the table's end.
#[derive(Clone, Copy)]
pub struct Codes<'a> {
    table: &'a [i32],
    place: usize,
}

impl<'a> Codes<'a> {
    pub fn new(table: &'a [i32], place: usize) -> Codes<'a>
        ensures left { codes_left result ≡ list_at table.now place }
        ensures from { (codes_table result ≡ table.now) × (codes_place result ≡ place) }
    {
        Codes { table, place }
    }
}

impl<'a> Iterator for Codes<'a> {
    type Item = u32;

    ghost next_gives = { YieldsFirst codes_left };

    ghost remaining = { item_count codes_left };

    fn next(&mut self) -> Option<u32> {
        let table = self.table;
        let x = code(table, self.place);
        if x == 0 {
            return None;
        }
        self.place += 1;
        Some(x)
    }
}
