// How the reading of a certificate ends, whatever its kind, and the report of it.
#![tactic(auto)]

ghost use Rattle.std.specs.Prelude.{◌≡◌};
ghost use Rattle.reading.specs.Counting.{more, one_addition, one_deletion, one_expansion};
ghost use Rattle.reading.specs.Ends.{ended_by, report_of, refused_early};

use rules::{Refusal, Report, Rule, Verdict};

// A counter is taken modulo this, so that a step fits whatever the counter was; no certificate has so many lines.
const STEPS: u32 = 1073741824;

// The lines accepted: expansions, additions or resolutions, deletions.
#[derive(Clone, Copy, PartialEq, Eq, Default)]
pub struct Counts {
    pub expansions: u32,
    pub additions: u32,
    pub deletions: u32,
}

// One line more.
fn one_more(n: u32) -> u32
    ensures { result ≡ more n }
{
    n % STEPS + 1
}

impl Counts {
    // One expansion more.
    pub fn with_expansion(self) -> Counts
        ensures { result ≡ one_expansion self }
    {
        Counts {
            expansions: one_more(self.expansions),
            ..self
        }
    }

    // One addition or resolution more.
    pub fn with_addition(self) -> Counts
        ensures { result ≡ one_addition self }
    {
        Counts {
            additions: one_more(self.additions),
            ..self
        }
    }

    // One deletion more.
    pub fn with_deletion(self) -> Counts
        ensures { result ≡ one_deletion self }
    {
        Counts {
            deletions: one_more(self.deletions),
            ..self
        }
    }
}

// The reading ends, with a refusal or without; and the lines accepted until then.
#[derive(Clone, Copy, PartialEq, Eq)]
pub struct Ended {
    pub outcome: Result<(), Refusal>,
    pub counts: Counts,
}

// The end of the file, by the rule that is broken there.
pub fn at_end(outcome: Result<(), Rule>, counts: Counts) -> Ended
    ensures { result ≡ ended_by outcome counts }
{
    Ended {
        outcome: outcome.map_err(Refusal::from),
        counts,
    }
}

// A report of this verdict and these counts.
fn reported(verdict: Verdict, counts: Counts) -> Report
    ensures { result ≡ record { verdict = verdict; expansions = counts.expansions; additions = counts.additions; deletions = counts.deletions } }
{
    Report {
        verdict,
        expansions: counts.expansions,
        additions: counts.additions,
        deletions: counts.deletions,
    }
}

// The report of a certificate that is read.
pub fn report_of(ended: Ended) -> Report
    ensures { result ≡ report_of ended }
{
    let verdict = match ended.outcome {
        Ok(()) => Verdict::Accepted,
        Err(refusal) => refusal.verdict(2),
    };
    reported(verdict, ended.counts)
}

// A refusal before any line of the certificate; file 1 is the formula, file 2 the certificate.
pub fn refused_early(refusal: Refusal, file: u32) -> Report
    ensures { result ≡ refused_early refusal file }
{
    reported(refusal.verdict(file), Counts::default())
}
