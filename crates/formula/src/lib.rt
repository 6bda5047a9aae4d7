// The formula read into its two tables.
#![tactic(auto)]

ghost use Rattle.std.specs.Prelude.{◌≡◌, ◌+◌, ◌≤◌, length, Some, None};
ghost use Rattle.formula.specs.Quantifiers.{number_of};
ghost use Rattle.formula.specs.Tables.{Marks};
ghost use Rattle.formula.specs.Judged.{problem_judge, binding_judge, clause_judge, line_judge, going_on, Able, ReadInPrefix, ReadInBoth};
ghost use Rattle.formula.specs.Answers.{close_of, Whole, Answered};

use lines::{Head, Lines, Literals};
use rules::{Refusal, Rule};

// Document 01's limits of V and of C.
const HIGHEST: u32 = 4096;

const MOST: u32 = 8192;

// What is read so far: V, C, how many variables are bound, how many clauses there are and how many places of the matrix table they use.
#[derive(Clone, Copy, PartialEq, Eq)]
pub struct Reading {
    pub v: u32,
    pub c: u32,
    pub bound: u32,
    pub clauses: u32,
    pub used: usize,
}

// The quantifier of a prefix line, by its number in the prefix table.
#[derive(Clone, Copy, PartialEq, Eq)]
enum Quantifier {
    Universal = 1,
    Existential,
}

// A quantifier's number.
impl From<Quantifier> for u32 {
    ghost from_gives = { λ quantifier n. n ≡ number_of quantifier };

    fn from(quantifier: Quantifier) -> u32 {
        quantifier as u32
    }
}

// The second pass over a prefix line: each variable's place gets its position in the prefix and its quantifier. The answer is how many
// variables are bound then, or that one of them was bound before, or that a token is no literal.
fn put_binding(
    line: &[u8],
    at: usize,
    quantifier: Quantifier,
    prefix: &mut [i32],
    bound: u32,
) -> Result<u32, Rule>
    requires { bound + length line.now ≤ 1048576 }
    ensures { Marks (number_of quantifier) bound line.now at prefix.old result prefix.new }
{
    let q = u32::from(quantifier);
    let mut k = bound;
    for (x, _) in Literals::new(line, at) {
        if x == 0 {
            return Ok(k);
        }
        if prefix::word(prefix, (x / 2) as usize) != 0 {
            return Err(Rule::BoundTwice);
        }
        cells::put(prefix, (x / 2 - 1) as usize, 2 * k + q);
        k += 1;
    }
    Err(Rule::Malformed)
}

// A prefix line, from the place after its letter on. Part of its caller: a call would take what is read so far from memory, where each line
// would have to put it.
#[inline(always)]
fn binding_line(
    line: &[u8],
    at: usize,
    quantifier: Quantifier,
    r: Reading,
    prefix: &mut [i32],
) -> Result<Reading, Rule>
    requires { r.bound + length line.now ≤ 1048576 }
    ensures { ReadInPrefix (binding_judge line.now at (number_of quantifier)) (Some r) line.now prefix.old (going_on result) prefix.new }
{
    let list = lists::clause_at(line, at).ok_or(Rule::Malformed)?;
    if list.negative || list.count == 0 || r.clauses != 0 {
        return Err(Rule::Malformed);
    }
    if r.v < list.largest {
        return Err(Rule::OutOfRange);
    }
    let bound = put_binding(line, at, quantifier, prefix, r.bound)?;
    Ok(Reading { bound, ..r })
}

// A clause line.
fn clause_line(line: &[u8], r: Reading, prefix: &[i32], matrix: &mut [i32]) -> Result<Reading, Rule>
    requires { r.used ≤ length matrix.old }
    ensures { ReadInBoth (clause_judge line.now) (Some r) line.now
        prefix.now matrix.old (going_on result) prefix.now matrix.new }
{
    let list = lists::clause_at(line, 0).ok_or(Rule::Malformed)?;
    if r.v < list.largest {
        return Err(Rule::OutOfRange);
    }
    if matrix.len() - r.used <= list.count {
        return Err(Rule::TableFull);
    }
    lists::store_list(line, 0, matrix, r.used)?;
    if !prefix::all_bound(prefix, matrix, r.used) {
        return Err(Rule::Unbound);
    }
    if r.c <= r.clauses {
        return Err(Rule::WrongClauseCount);
    }
    Ok(Reading {
        clauses: r.clauses + 1,
        used: r.used + list.count + 1,
        ..r
    })
}

// The `p` line, from the place after its letter on.
fn problem_line(line: &[u8], at: usize, prefix: &mut [i32]) -> Result<Reading, Rule>
    ensures { ReadInPrefix (problem_judge line.now at) None line.now prefix.old (going_on result) prefix.new }
{
    let e = lines::word_is(line, at, b"cnf").ok_or(Rule::Malformed)?;
    let (v, i) = lists::natural_at(line, e).ok_or(Rule::Malformed)?;
    let (c, j) = lists::natural_at(line, i).ok_or(Rule::Malformed)?;
    if !lines::ended(line, j) {
        return Err(Rule::Malformed);
    }
    if HIGHEST < v || MOST < c {
        return Err(Rule::OutOfRange);
    }
    let n = v as usize;
    if prefix.len() < n {
        return Err(Rule::TableFull);
    }
    prefix::clear(prefix, n);
    Ok(Reading {
        v,
        c,
        bound: 0,
        clauses: 0,
        used: 0,
    })
}

// A line before the `p` line, or that line.
fn line_first(line: &[u8], prefix: &mut [i32]) -> Result<Option<Reading>, Rule>
    ensures { ReadInPrefix (line_judge line.now) None line.now prefix.old result prefix.new }
{
    match lines::line_head(line) {
        Head::Skipped => Ok(None),
        Head::Letter(b'p', e) => Ok(Some(problem_line(line, e, prefix)?)),
        _ => Err(Rule::Malformed),
    }
}

// A line after the `p` line.
fn line_within(
    line: &[u8],
    r: Reading,
    prefix: &mut [i32],
    matrix: &mut [i32],
) -> Result<Reading, Rule>
    requires { Able (length line.now) (Some r) matrix.old }
    ensures { ReadInBoth (line_judge line.now) (Some r) line.now
        prefix.old matrix.old (going_on result) prefix.new matrix.new }
{
    match lines::line_head(line) {
        Head::Skipped => Ok(r),
        Head::Letter(b'p', _) => Err(Rule::Malformed),
        Head::Letter(b'a', e) => binding_line(line, e, Quantifier::Universal, r, prefix),
        Head::Letter(b'e', e) => binding_line(line, e, Quantifier::Existential, r, prefix),
        _ => clause_line(line, r, prefix, matrix),
    }
}

// Any line; before the `p` line nothing is read.
fn read_line(
    line: &[u8],
    so_far: Option<Reading>,
    prefix: &mut [i32],
    matrix: &mut [i32],
) -> Result<Option<Reading>, Rule>
    requires { Able (length line.now) so_far matrix.old }
    ensures { ReadInBoth (line_judge line.now) so_far line.now
        prefix.old matrix.old result prefix.new matrix.new }
{
    let Some(r) = so_far else {
        return line_first(line, prefix);
    };
    Ok(Some(line_within(line, r, prefix, matrix)?))
}

// The end of the file: a formula, if there was a `p` line and as many clauses as it says.
fn close(so_far: Option<Reading>) -> Result<Reading, Refusal>
    ensures { result ≡ close_of so_far }
{
    let r = so_far.ok_or(Rule::Malformed)?;
    if r.clauses != r.c {
        return Err(Rule::WrongClauseCount.into());
    }
    Ok(r)
}

// The formula's lines one after the other.
fn read_lines(formula: &[u8], prefix: &mut [i32], matrix: &mut [i32]) -> Result<Reading, Refusal>
    requires { length formula.now ≤ 1048576 }
    ensures { Whole formula.now
        prefix.old matrix.old result prefix.new matrix.new }
{
    let mut so_far = None;
    for (bytes, line) in Lines::new(formula).zip(1..) {
        so_far = read_line(bytes, so_far, prefix, matrix).map_err(|rule| Refusal { rule, line })?;
    }
    close(so_far)
}

// THE FORMULA READ INTO ITS TABLES.
pub fn read_formula(
    formula: &[u8],
    prefix: &mut [i32],
    matrix: &mut [i32],
) -> Result<Reading, Refusal>
    ensures { Answered formula.now
        prefix.old matrix.old result prefix.new matrix.new }
{
    if tables::BYTES < formula.len() {
        return Err(Rule::Overlong.into());
    }
    read_lines(formula, prefix, matrix)
}
