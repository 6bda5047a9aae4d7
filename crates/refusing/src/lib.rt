// A kind of certificate of which empty lines alone are accepted. It has the members that every kind has to write, and no other: a test calls what
// crate `certificates` gives such a kind.
#![tactic(auto)]

ghost use Rattle.rules.specs.CertificateLines.{State};
ghost use Rattle.rules.specs.Verdict.{FeratNumber};
ghost use Rattle.certificates.specs.Check.{by_rules};
ghost use Rattle.refusing.specs.Refusing.{refusing_rules, refusing_code};
ghost use Rattle.refusing.specs.Laws.{refusing_apt, refusing_files, refusing_ranged};

use certificates::{Checker, Kind};
use formula::Reading;
use reading::{Counts, Ended};
use rules::Rule;
use tables::LentTables;

// A line that is not empty is refused, and the end too.
pub struct Refusing;

impl Kind for Refusing {
    type Progress = Counts;

    type Work = u32;

    ghost State = { State };

    ghost rules = { refusing_rules };

    ghost code = { refusing_code };

    ghost apt = { refusing_apt };

    fn line(
        line: &[u8],
        p: Counts,
        _tables: &mut LentTables,
        _work: &mut u32,
    ) -> Result<Counts, Rule> {
        if line.is_empty() {
            return Ok(p);
        }
        Err(Rule::Malformed)
    }

    fn end(_p: Counts, _tables: &LentTables) -> Result<(), Rule> {
        Err(Rule::NotClosed)
    }

    fn counts(p: Counts) -> Counts {
        p
    }
}

impl Checker for Refusing {
    ghost checked = { by_rules refusing_rules };

    ghost Number = { FeratNumber };

    ghost of_both_files = { refusing_files };

    ghost in_range = { refusing_ranged };

    fn certificate(certificate: &[u8], _r: Reading, tables: &mut LentTables) -> Ended {
        let mut work = 0;
        certificates::read_certificate::<Refusing>(
            certificate,
            Counts::default(),
            tables,
            &mut work,
        )
    }
}

#[cfg(test)]
mod tests {
    use super::*;
    use rules::{Report, Verdict};

    fn refused(number: u32, line: u32) -> Report {
        Report {
            verdict: Verdict::Refused {
                number,
                file: 2,
                line,
            },
            expansions: 0,
            additions: 0,
            deletions: 0,
        }
    }

    #[test]
    fn empty_lines_alone_are_accepted(rt: HostRuntime) {
        let mut prefix = [1; 1];
        let mut matrix = [2; 2];
        let mut map = [3; 3];
        let mut proof = [4; 4];
        let mut marks = [5; 5];
        let mut values = [6; 6];
        let mut tables = LentTables {
            prefix: &mut prefix,
            matrix: &mut matrix,
            map: &mut map,
            proof: &mut proof,
            marks: &mut marks,
            values: &mut values,
        };
        let report = certificates::check::<Refusing>(b"p cnf 0 0", b"\n\n0", &mut tables);
        assert!(rt; report == refused(2, 3));
        let report = certificates::check::<Refusing>(b"p cnf 0 0", b"\n", &mut tables);
        assert!(rt; report == refused(14, 0));
        let mut work = 0;
        let line = Refusing::line_keeping_lengths(b"", Counts::default(), &mut tables, &mut work);
        assert!(rt; line.is_ok());
        let line = Refusing::line(b"0", Counts::default(), &mut tables, &mut work);
        assert!(rt; line == Err(Rule::Malformed));
        assert!(rt; map == [3; 3]);
        assert!(rt; proof == [4; 4]);
    }
}
