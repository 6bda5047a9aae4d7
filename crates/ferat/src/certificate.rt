// What a FERAT certificate has of its own: its lines, its end, and the working memory of its check.
ghost use Rattle.std.specs.Prelude.{◌≡◌};
ghost use Rattle.rules.specs.CertificateLines.{State};
ghost use Rattle.rules.specs.Verdict.{check, FeratNumber};
ghost use Rattle.rules.proofs.Ranges.{check_ranged};
ghost use Rattle.progress.specs.Shown.{ferat_rules, ferat_code};
ghost use Rattle.progress.proofs.AptLaws.{ferat_apt};
ghost use Rattle.ferat.specs.Check.{ferat_by_rules, begun};

use crate::clause_lines::{addition_line, expansion_line};
use crate::deletion_lines::deletion_line;
use crate::hint_lines::hints_line;
use crate::mapping_lines::mapping_line;
use certificates::{Checker, Kind};
use clauses::Store;
use formula::Reading;
use lines::Head;
use mapping::Mapped;
use progress::{Progress, Work};
use propagation::{END, Propagation, Watches};
use reading::{Counts, Ended};
use rules::Rule;
use tables::LentTables;
use trail::Trail;

// FERAT.
pub struct Ferat;

impl Kind for Ferat {
    type Progress = Progress;

    type Work = Work;

    ghost State = { State };

    ghost rules = { ferat_rules };

    ghost code = { ferat_code };

    ghost apt = { ferat_apt };

    // By the call that the loop over the lines makes, which stands below: the given one would lend the tables anew for each line.
    fn line(
        line: &[u8],
        p: Progress,
        tables: &mut LentTables,
        work: &mut Work,
    ) -> Result<Progress, Rule> {
        Self::line_keeping_lengths(line, p, tables, work)
    }

    // What a line is, its first word says; one of no other form is read as an addition.
    fn line_keeping_lengths(
        line: &[u8],
        p: Progress,
        tables: &mut LentTables,
        work: &mut Work,
    ) -> Result<Progress, Rule> {
        match lines::line_head(line) {
            Head::Skipped => Ok(p),
            Head::Letter(b'x', at) => mapping_line(line, at, p, tables, work),
            Head::Letter(b'o', at) => hints_line(line, at, p, tables),
            Head::Letter(b'e', at) => expansion_line(line, at, p, tables, work),
            Head::Letter(b'd', at) => deletion_line(line, at, p, tables, work),
            _ => addition_line(line, p, tables, work),
        }
    }

    fn end(p: Progress, tables: &LentTables) -> Result<(), Rule> {
        progress::end_broken(p, tables.proof, tables.marks)
    }

    fn counts(p: Progress) -> Counts {
        p.counts
    }
}

// Nothing of the certificate is read yet.
fn begin(r: Reading) -> Progress
    ensures { result ≡ begun r }
{
    Progress {
        formula: r,
        mapped: Mapped {
            used: 0,
            largest: 0,
        },
        hinted: None,
        store: Store::above(0),
        followed: 0,
        counts: Counts::default(),
    }
}

impl Checker for Ferat {
    ghost checked = { check };

    ghost Number = { FeratNumber };

    ghost of_both_files = { ferat_by_rules };

    ghost in_range = { check_ranged };

    // By the call that the check makes, which stands below, as with a line.
    fn certificate(certificate: &[u8], r: Reading, tables: &mut LentTables) -> Ended {
        Self::certificate_keeping_lengths(certificate, r, tables)
    }

    fn certificate_keeping_lengths(
        certificate: &[u8],
        r: Reading,
        tables: &mut LentTables,
    ) -> Ended {
        let mut work = Work {
            starts: [0; 8193],
            noted: [0; 16385],
            propagation: Propagation {
                trail: Trail {
                    falses: [0; 65536],
                    literals: [0; 65536],
                    length: 0,
                },
                watches: Watches {
                    first: [END; 65536],
                    next: [END; 262144],
                    pair: [END; 131072],
                },
            },
        };
        let clauses = &mut *tables.matrix;
        matrix::index_clauses(clauses, r.used, &mut work.starts);
        certificates::read_certificate::<Ferat>(certificate, begin(r), tables, &mut work)
    }
}
