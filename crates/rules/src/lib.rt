// What answers are made of. The rules themselves, document 01 as definitions, stand in specs/, and their theorems in proofs/.
#![tactic(auto)]

ghost use Rattle.std.specs.Prelude.{◌≡◌};
ghost use Rattle.rules.specs.Rule.{number, of_file, refused_with};

// "Propagation answers conflict or stable, whatever the order of units."
#[derive(Clone, Copy, PartialEq, Eq)]
pub enum Outcome {
    Conflict,
    Stable,
}

// Accepted, or refused with number, file (1 formula, 2 certificate) and line.
#[derive(Clone, Copy, PartialEq, Eq)]
pub enum Verdict {
    Accepted,
    Refused { number: u32, file: u32, line: u32 },
}

// A verdict with the `e`, addition and deletion lines accepted.
#[derive(Clone, Copy, PartialEq, Eq)]
pub struct Report {
    pub verdict: Verdict,
    pub expansions: u32,
    pub additions: u32,
    pub deletions: u32,
}

// The rules that a line or a file can break, by document 01's words, in the order of its numbers.
#[derive(Clone, Copy, PartialEq, Eq)]
pub enum Rule {
    Overlong = 1,
    Malformed,
    OutOfRange,
    BoundTwice,
    Unbound,
    WrongClauseCount,
    MappedTwice,
    BadAnnotation,
    Unmapped,
    HintCount,
    NoExpansion,
    NotImplied,
    NothingToDelete,
    NotClosed,
    TableFull,
    BadParent,
    IndexUsed,
}

// A rule's number.
impl From<Rule> for u32 {
    ghost from_gives = { λ rule n. n ≡ number rule };

    fn from(rule: Rule) -> u32 {
        rule as u32
    }
}

// The rule that a file breaks first, and the line; 0 where the rule is one of the whole file.
#[derive(Clone, Copy, PartialEq, Eq)]
pub struct Refusal {
    pub rule: Rule,
    pub line: u32,
}

// A rule broken by the whole file.
impl From<Rule> for Refusal {
    ghost from_gives = { λ rule r. r ≡ of_file rule };

    fn from(rule: Rule) -> Refusal {
        Refusal { rule, line: 0 }
    }
}

impl Refusal {
    // The verdict on two files of which this one, 1 for the formula and 2 for the certificate, is refused.
    pub fn verdict(self, file: u32) -> Verdict
        ensures { result ≡ refused_with self file }
    {
        Verdict::Refused {
            number: self.rule.into(),
            file,
            line: self.line,
        }
    }
}
