// Rule 7: which copies are mapped.
#![tactic(auto)]

pub mod numbers;

ghost use Rattle.std.specs.Prelude.{◌≡◌, ◌/◌};
ghost use Rattle.rules.specs.Rule.{number, broken};
ghost use Rattle.mapped.specs.Numbers.{numbers_at, end_of};
ghost use Rattle.mapped.specs.Marks.{is_noted, Notes};

use crate::numbers::Numbers;
use rules::Rule;

// The highest copy.
pub const COPIES: usize = 16384;

// Which copies are mapped: place p holds 1 if copy p is, else 0.
pub type Noted = [u8; 16385];

// Whether the copy of a literal's code is mapped.
#[tactic(auto, unfolding(crate::specs::Marks::is_noted))]
pub fn is_mapped(noted: &Noted, x: u32) -> bool
    ensures { result ≡ is_noted noted.now (x / 2) }
{
    noted.get((x / 2) as usize).is_some_and(|note| *note != 0)
}

// Notes the variables of the list at `at`. The rule is broken by one that is noted already or above 16384.
pub fn note(line: &[u8], at: usize, noted: &mut Noted, rule: Rule) -> Result<(), Rule>
    ensures { Notes (numbers_at line.now at) noted.old (number rule) (end_of line.now at)
        (broken result) noted.new }
{
    for copy in Numbers::new(line, at) {
        let p = copy?;
        if COPIES < p || noted[p] != 0 {
            return Err(rule);
        }
        noted[p] = 1;
    }
    Ok(())
}

// Rule 7: the copies of the list at `at` are noted.
pub fn fresh(line: &[u8], at: usize, noted: &mut Noted) -> Result<(), Rule>
    ensures { Notes (numbers_at line.now at) noted.old 7 (end_of line.now at) (broken result)
        noted.new }
{
    note(line, at, noted, Rule::MappedTwice)
}
