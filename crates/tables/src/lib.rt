// The six tables: what they are called together, and what they keep, stands in specs/. Here are document 01's limits, and the six as a
// call lends them: each for writing, or all but the marks for reading alone.
#![tactic(auto)]

// Each file has at most so many bytes.
pub const BYTES: usize = 1048576;

// The six tables, each lent by the caller.
#[derive(Drop)]
pub struct LentTables<'a> {
    pub prefix: &'a mut [i32],
    pub matrix: &'a mut [i32],
    pub map: &'a mut [i32],
    pub proof: &'a mut [i32],
    pub marks: &'a mut [i32],
    pub values: &'a mut [i32],
}

// The tables but the marks, lent for reading.
#[derive(Clone, Copy)]
pub struct ReadTables<'a> {
    pub prefix: &'a [i32],
    pub matrix: &'a [i32],
    pub map: &'a [i32],
    pub proof: &'a [i32],
    pub values: &'a [i32],
}
