// The numbers and the lists of a line, literals up to a zero: a first pass that writes nothing, and a second that stores a list in a table.
#![tactic(auto)]

ghost use Rattle.std.specs.Prelude.{◌≡◌, [], ◌+◌, ◌<◌, ◌^◌};
ghost use Rattle.lists.specs.Lists.{measure, natural_at, listed_at, clause_at, mapping_at};
ghost use Rattle.lists.specs.Measures.{with_code};
ghost use Rattle.lists.specs.Stores.{codes_at, ending_at, puts};

use lines::Literals;
use rules::Rule;

// The next word as a number without a sign, at most the cap, and the place after it.
#[inline(always)]
pub fn natural_at(line: &[u8], at: usize) -> Option<(u32, usize)>
    ensures { result ≡ natural_at line.now at }
{
    let (x, e) = lines::literal_at(line, at)?;
    (x % 2 == 0).then_some((x / 2, e))
}

// What the first pass says of literals: whether one is negative, how many there are, and the largest variable, at most the cap.
#[derive(Clone, Copy)]
pub struct Measure {
    pub negative: bool,
    pub count: usize,
    pub largest: u32,
}

impl Measure {
    // Of no literal.
    pub fn none() -> Measure
        ensures { result ≡ measure [] }
    {
        Measure {
            negative: false,
            count: 0,
            largest: 0,
        }
    }

    // With one literal more, by its code.
    pub fn with(self, x: u32) -> Measure
        ensures { self.count + 1 < 2 ^ 64 → result ≡ with_code self x }
    {
        Measure {
            negative: self.negative | (x % 2 == 1),
            count: self.count.wrapping_add(1),
            largest: self.largest.max(x / 2),
        }
    }
}

// Literals up to a zero, and the place after it.
#[inline(always)]
pub fn list_at(line: &[u8], at: usize) -> Option<(Measure, usize)>
    ensures { result ≡ listed_at line.now at }
{
    let mut measure = Measure::none();
    for (x, e) in Literals::new(line, at) {
        if x == 0 {
            return Some((measure, e));
        }
        measure = measure.with(x);
    }
    None
}

// Literals and a zero that ends the line. Part of each caller: a call would hand the measure over in memory, its padding too.
#[inline(always)]
pub fn clause_at(line: &[u8], at: usize) -> Option<Measure>
    ensures { result ≡ clause_at line.now at }
{
    let (measure, e) = list_at(line, at)?;
    lines::ended(line, e).then_some(measure)
}

// The three lists of a mapping line: their lengths, the first two equal, their largest variables, and where the second and the third start.
#[derive(Clone, Copy)]
pub struct MappingLists {
    pub copies: usize,
    pub literals: usize,
    pub highest_copy: u32,
    pub highest_existential: u32,
    pub highest_universal: u32,
    pub existentials_at: usize,
    pub literals_at: usize,
}

pub fn mapping_at(line: &[u8], at: usize) -> Option<MappingLists>
    ensures { result ≡ mapping_at line.now at }
{
    let (copies, i) = list_at(line, at)?;
    if copies.negative {
        return None;
    }
    let (existentials, h) = list_at(line, i)?;
    if existentials.negative {
        return None;
    }
    let literals = clause_at(line, h)?;
    if copies.count != existentials.count {
        return None;
    }
    Some(MappingLists {
        copies: copies.count,
        literals: literals.count,
        highest_copy: copies.largest,
        highest_existential: existentials.largest,
        highest_universal: literals.largest,
        existentials_at: i,
        literals_at: h,
    })
}

// The second pass: the codes of the literals and of the zero after them, from place `from` on, as far as the table goes.
#[inline(always)]
pub fn store_list(line: &[u8], at: usize, table: &mut [i32], from: usize) -> Result<(), Rule>
    ensures { (table.new ≡ puts table.old from (codes_at line.now at))
        × (result ≡ ending_at line.now at) }
{
    let mut k = from;
    for (x, _) in Literals::new(line, at) {
        cells::put(table, k, x);
        if x == 0 {
            return Ok(());
        }
        k = k.saturating_add(1);
    }
    Err(Rule::Malformed)
}
