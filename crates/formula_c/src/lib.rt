// Reading a formula, with C's calling convention.
#![tactic(auto)]

ghost use Rattle.std.specs.Prelude.{◌≡◌};
ghost use Rattle.formula_c.specs.Packed.{packed, Read};

use formula::Reading;
use rules::Refusal;

// A refusal's number and line as one number; 0 for a formula that was read.
fn pack(answer: Result<Reading, Refusal>) -> u64
    ensures { result ≡ packed answer }
{
    match answer {
        Ok(_) => 0,
        Err(refusal) => u32::from(refusal.rule) as u64 * 4294967296 + refusal.line as u64,
    }
}

#[unsafe(no_mangle)]
pub extern "C" fn hutsvida_read_formula(
    formula: &[u8],
    prefix: &mut [i32],
    matrix: &mut [i32],
) -> u64
    ensures { Read formula.now
        prefix.old matrix.old result prefix.new matrix.new }
{
    pack(formula::read_formula(formula, prefix, matrix))
}
