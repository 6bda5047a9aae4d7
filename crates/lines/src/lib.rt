// Bytes, lines, tokens and numbers of a file; the call for a line's bytes.
#![tactic(auto)]

ghost use Rattle.std.specs.Prelude.{Some, ◌≡◌, true, false, cond, ℕ, ◌+◌, ◌*◌, ◌-◌, ◌<◌, ◌≤◌, min, eqb, length, take, drop, get_or};
ghost use Rattle.lines.specs.declared.Run.TheVariants.{Line, Blanks, Word};
ghost use Rattle.lines.specs.Bytes.{class_of, among_entries, is_blank, is_line_end, is_digit, is_minus, same_bytes};
ghost use Rattle.lines.specs.Scan.{passes, run, digits_in, number_in, word_at, end_at, literal_at, ended_at, word_is, head_of, cap};
ghost use Rattle.lines.specs.Literals.{literals_line, literals_at, GivesLiteral, bytes_left};
ghost use Rattle.lines.specs.Parts.{line_start, file_of, LinePart};

mod each;
mod table;

pub use each::Lines;

// The classes of bytes.
#[derive(Clone, Copy, PartialEq, Eq)]
pub enum Class {
    Blank,
    LineEnd,
    Digit,
    Minus,
    Letter,
    Other,
}

// The class of a byte, by the table.
pub fn class_of(b: u8) -> Class
    ensures { result ≡ class_of b }
{
    let classes = table::classes();
    classes[b as usize]
}

// Whether a byte is of this class, looked up among the entries from `low` to before `high`. In the four tests below these two are
// numbers: there the compiler reads the entries itself, and keeps a comparison with the bytes of this class.
fn among(class: Class, low: usize, high: usize, b: u8) -> bool
    requires { (low ≤ high) × (high ≤ 256) }
    ensures { result ≡ among_entries class low high b }
{
    let classes = table::classes();
    let mut found = false;
    for i in low..high {
        found = found | ((b as usize == i) & (classes[i] == class));
    }
    found
}

// The four tests that reading makes. Each asks the entries that can hold its class: no blank is above the space.
fn is_blank(b: u8) -> bool
    ensures { result ≡ is_blank b }
{
    among(Class::Blank, 0, 33, b)
}

fn is_line_end(b: u8) -> bool
    ensures { result ≡ is_line_end b }
{
    among(Class::LineEnd, 10, 11, b)
}

fn is_digit(b: u8) -> bool
    ensures { result ≡ is_digit b }
{
    among(Class::Digit, 48, 58, b)
}

fn is_minus(b: u8) -> bool
    ensures { result ≡ is_minus b }
{
    among(Class::Minus, 45, 46, b)
}

// What a run of bytes is made of: all but byte 10, blanks, all but blanks.
#[derive(Clone, Copy)]
pub enum Run {
    Line,
    Blanks,
    Word,
}

fn belongs(k: Run, b: u8) -> bool
    ensures { result ≡ passes k b }
{
    match k {
        Run::Line => !is_line_end(b),
        Run::Blanks => is_blank(b),
        Run::Word => !is_blank(b),
    }
}

// The place after the run of such bytes from a place on.
pub fn past(s: &[u8], at: usize, k: Run) -> usize
    ensures { result ≡ at + run (passes k) (drop at s.now) }
{
    for i in at..s.len() {
        if !belongs(k, s[i]) {
            return i;
        }
    }
    at.max(s.len())
}

// Whether all bytes are blanks; no branch depends on one that is not.
fn all_blank(block: &[u8]) -> bool
    ensures { result ≡ true → run (passes Blanks) block.now ≡ length block.now }
{
    block.iter().fold(true, |all, b| all & is_blank(*b))
}

// A place up to which there are blanks for sure, eight at a time.
fn past_eights(s: &[u8], at: usize) -> usize
    requires { at ≤ length s.now }
    ensures { at + run (passes Blanks) (drop at s.now) ≡ result + run (passes Blanks) (drop result s.now) }
{
    let mut i = at;
    for block in s[at..].chunks_exact(8) {
        if !all_blank(block) {
            return i;
        }
        i += 8;
    }
    i
}

// Whether blanks go on to the end, of which fewer than eight bytes are left: the last eight are looked at.
fn blank_to_end(s: &[u8], i: usize) -> bool
    ensures { result ≡ true → i + run (passes Blanks) (drop i s.now) ≡ length s.now }
{
    let n = s.len();
    if n < 8 || i < n - 8 || n <= i {
        return false;
    }
    all_blank(&s[n - 8..])
}

// The place after the blanks from a place on, as `past` has it.
fn past_blanks(s: &[u8], at: usize) -> usize
    ensures { result ≡ at + run (passes Blanks) (drop at s.now) }
{
    if s.len() <= at || !is_blank(s[at]) {
        return at;
    }
    let i = past_eights(s, at);
    if blank_to_end(s, i) {
        s.len()
    } else {
        past(s, i, Run::Blanks)
    }
}

// Whether one of the bytes ends a line; no branch depends on which.
fn ends_within(block: &[u8]) -> bool
    ensures { result ≡ false → run (passes Line) block.now ≡ length block.now }
{
    block.iter().fold(false, |found, b| found | is_line_end(*b))
}

fn unless_end(n: usize, b: u8) -> usize
    ensures { result ≡ cond (is_line_end b) 0 n }
{
    if is_line_end(b) { 0 } else { n }
}

// How many of a block's first seven bytes stand before the line's end; no branch depends on where it is.
fn before_end(block: &[u8]) -> usize
    requires { 7 ≤ length block.now }
    ensures { result ≤ run (passes Line) block.now }
{
    let mut n = 0;
    let mut more = 1;
    for b in &block[..7] {
        more = unless_end(more, *b);
        n += more;
    }
    n
}

// The place of the line's end, as `past` has it; eight bytes at a time.
#[inline(never)]
fn end_of_bytes(s: &[u8], at: usize) -> usize
    requires { at ≤ length s.now }
    ensures { result ≡ at + run (passes Line) (drop at s.now) }
{
    let mut i = at;
    for block in s[at..].chunks_exact(8) {
        if ends_within(block) {
            return past(s, i + before_end(block), Run::Line);
        }
        i += 8;
    }
    past(s, i, Run::Line)
}

// The same. The test for a line of no bytes is part of each caller, where a call costs more than that test.
#[inline(always)]
pub fn line_end(s: &[u8], at: usize) -> usize
    ensures { result ≡ at + run (passes Line) (drop at s.now) }
{
    if s.len() <= at || is_line_end(s[at]) {
        return at;
    }
    end_of_bytes(s, at)
}

// No number is read above this one: it is above every limit.
const CAP: u32 = 100000000;

// One digit more, at most the cap.
fn with_digit(v: u32, b: u8) -> u32
    requires { (v ≤ cap) × (48 ≤ b) }
    ensures { result ≡ min cap (v * 10 + (b - 48)) }
{
    (v * 10 + (b - b'0') as u32).min(CAP)
}

// The number that the bytes from a place on are.
fn digits_from(word: &[u8], from: usize) -> Option<u32>
    ensures { result ≡ digits_in (drop from word.now) }
{
    if word.len() <= from {
        return None;
    }
    let d = word[from];
    if d == b'0' {
        if from + 1 == word.len() {
            return Some(0);
        }
        return None;
    }
    let mut v: u32 = 0;
    for i in from..word.len() {
        let b = word[i];
        if !is_digit(b) {
            return None;
        }
        v = with_digit(v, b);
    }
    Some(v)
}

// The number reader: the code of a number of at most the cap, 2v for v and 2v + 1 for -v.
pub fn number_of(word: &[u8]) -> Option<u32>
    ensures { result ≡ number_in word.now }
{
    if let Some(v) = digits_from(word, 0) {
        return Some(2 * v);
    }
    if word.len() == 0 {
        return None;
    }
    if !is_minus(word[0]) {
        return None;
    }
    let v = digits_from(word, 1)?;
    if v == 0 {
        return None;
    }
    Some(2 * v + 1)
}

// Whether no word goes on at a place: a blank or the end is there.
fn word_ends(line: &[u8], at: usize) -> bool
    ensures { result ≡ eqb (run (passes Word) (drop at line.now)) 0 }
{
    line.get(at).is_none_or(|b| is_blank(*b))
}

// Whether another digit can follow: there is no leading zero, and the number stays below the cap.
fn grows(v: u32) -> bool
    ensures { result ≡ true → (0 < v) × (v < 10000000) }
{
    (0 < v) & (v < 10000000)
}

// The number without a sign that the word from a place on is, in one walk over its bytes, if it has at most eight digits.
fn unsigned_at(line: &[u8], from: usize) -> Option<(u32, usize)>
    ensures { (v e : ℕ) → result ≡ Some (v, e) → (e ≡ from + run (passes Word) (drop from line.now))
        × (digits_in (take (e - from) (drop from line.now)) ≡ Some v) }
{
    if line.len() <= from {
        return None;
    }
    let first = line[from];
    if !is_digit(first) {
        return None;
    }
    let mut v = (first - b'0') as u32;
    for i in from + 1..line.len() {
        let b = line[i];
        if !is_digit(b) {
            if is_blank(b) {
                return Some((v, i));
            }
            return None;
        }
        if !grows(v) {
            return None;
        }
        v = v * 10 + (b - b'0') as u32;
    }
    Some((v, line.len()))
}

// The sign of what is at the place, 1 for a minus, else 0: the last bit of a literal's code.
fn minus_at(line: &[u8], s: usize) -> u32
    ensures { result ≡ cond (is_minus (get_or line.now s 0)) 1 0 }
{
    line.get(s).is_some_and(|b| is_minus(*b)) as u32
}

// The next token as a literal, or as the zero that ends a list, in one walk, if it is well-formed and short.
#[inline(always)]
pub fn plain_at(line: &[u8], at: usize) -> Option<(u32, usize)>
    ensures { (x e : ℕ) → result ≡ Some (x, e) → literal_at line.now at ≡ Some (x, e) }
{
    let s = past(line, at, Run::Blanks);
    let sign = minus_at(line, s);
    let (v, e) = unsigned_at(line, s + sign as usize)?;
    (sign <= v).then_some((2 * v + sign, e))
}

// The code of the next token as a literal, or as the zero that ends a list, however it is written.
#[cold]
#[inline(never)]
fn code_at(line: &[u8], at: usize) -> Option<u32>
    ensures { result ≡ number_in (word_at line.now at) }
{
    let s = past(line, at, Run::Blanks);
    if line.len() <= s {
        return None;
    }
    number_of(&line[s..past(line, s, Run::Word)])
}

// The place after the next token.
#[cold]
#[inline(never)]
fn token_end(line: &[u8], at: usize) -> usize
    ensures { result ≡ end_at line.now at }
{
    past(line, past(line, at, Run::Blanks), Run::Word)
}

// The next token as a literal, or as the zero that ends a list. What `plain_at` does not read is read by `number_of`. The walk for plain tokens is
// part of each caller's loop: a call would hand each literal over in memory.
#[inline(always)]
pub fn literal_at(line: &[u8], at: usize) -> Option<(u32, usize)>
    ensures { result ≡ literal_at line.now at }
{
    if let Some((x, e)) = plain_at(line, at) {
        return Some((x, e));
    }
    let x = code_at(line, at)?;
    Some((x, token_end(line, at)))
}

// The literals of a line from a place on, each with the place after it, up to a token that is none; the zero that ends a list is among them.
#[derive(Clone, Copy)]
pub struct Literals<'a> {
    line: &'a [u8],
    at: usize,
}

impl<'a> Literals<'a> {
    pub fn new(line: &'a [u8], at: usize) -> Literals<'a>
        ensures { (literals_line result ≡ line.now) × (literals_at result ≡ at) }
    {
        Literals { line, at }
    }
}

impl<'a> Iterator for Literals<'a> {
    type Item = (u32, usize);

    ghost next_gives = { GivesLiteral };

    ghost remaining = { bytes_left };

    #[inline(always)]
    fn next(&mut self) -> Option<(u32, usize)> {
        let (x, e) = literal_at(self.line, self.at)?;
        self.at = e;
        Some((x, e))
    }
}

// Whether nothing more stands on the line.
pub fn ended(line: &[u8], at: usize) -> bool
    ensures { result ≡ ended_at line.now at }
{
    line.len() <= past_blanks(line, at)
}

// Whether the next token is this word, and the place after it.
pub fn word_is(line: &[u8], at: usize, word: &[u8]) -> Option<usize>
    ensures { result ≡ word_is line.now at word.now }
{
    let s = past_blanks(line, at);
    if line.len() <= s {
        return None;
    }
    let e = past(line, s, Run::Word);
    (&line[s..e] == word).then_some(e)
}

// How a line begins: it is skipped; with a word of one byte, and the place after it; with another word.
#[derive(Clone, Copy)]
pub enum Head {
    Skipped,
    Letter(u8, usize),
    Other,
}

pub fn line_head(line: &[u8]) -> Head
    ensures { result ≡ head_of line.now }
{
    let s = past_blanks(line, 0);
    if line.len() <= s {
        return Head::Skipped;
    }
    let b = line[s];
    if b == b'c' {
        return Head::Skipped;
    }
    if word_ends(line, s + 1) {
        Head::Letter(b, s + 1)
    } else {
        Head::Other
    }
}

// Where the line with this number starts; the end where there is no such line.
pub fn line_start(s: &[u8], line: usize) -> usize
    ensures { result ≡ line_start line s.now }
{
    if line == 0 {
        return s.len();
    }
    let mut at = 0;
    for _ in 1..line {
        let e = line_end(s, at);
        if s.len() <= e {
            return s.len();
        }
        at = e + 1;
    }
    at
}

// The line with this number, without byte 10; the empty part at the end where there is no such line.
fn line_part(s: &[u8], line: usize) -> &[u8]
    ensures { LinePart s.entry line result }
{
    let at = line_start(s, line);
    let e = line_end(s, at);
    &s[at..e]
}

// THE SECOND CALL: a line's bytes, as a part of the formula (file 1) or of the certificate (any other number).
pub fn line_bytes<'a>(formula: &'a [u8], certificate: &'a [u8], file: u32, line: usize) -> &'a [u8]
    ensures { LinePart (file_of file formula.entry certificate.entry) line result }
{
    if file == 1 {
        return line_part(formula, line);
    }
    line_part(certificate, line)
}
