// What a FERP certificate has of its own: its lines, its end, and the working memory of its check.
ghost use Rattle.std.specs.Prelude.{◌≡◌};
ghost use Rattle.ferp_rules.specs.Lines.{Derived};
ghost use Rattle.ferp_rules.specs.Verdict.{ferp_check, FerpNumber};
ghost use Rattle.ferp_rules.proofs.Ranges.{ferp_ranged};
ghost use Rattle.derivations.specs.Shown.{ferp_rules, ferp_code};
ghost use Rattle.derivations.proofs.AptLaws.{ferp_apt};
ghost use Rattle.ferp.specs.Check.{ferp_by_rules, begun};

use crate::clause_lines::clause_line;
use crate::mapping_lines::mapping_line;
use certificates::{Checker, Kind};
use clauses::Store;
use copies::marks::CODES;
use derivations::{Progress, Work};
use formula::Reading;
use lines::Head;
use mapping::Mapped;
use reading::{Counts, Ended};
use rules::Rule;
use tables::LentTables;

// FERP.
pub struct Ferp;

impl Kind for Ferp {
    type Progress = Progress;

    type Work = Work;

    ghost State = { Derived };

    ghost rules = { ferp_rules };

    ghost code = { ferp_code };

    ghost apt = { ferp_apt };

    // By the call that the loop over the lines makes, which stands below: the given one would lend the tables anew for each line.
    fn line(
        line: &[u8],
        p: Progress,
        tables: &mut LentTables,
        work: &mut Work,
    ) -> Result<Progress, Rule> {
        Self::line_keeping_lengths(line, p, tables, work)
    }

    // What a line is, its first word says; one of no other form is read as a clause line.
    fn line_keeping_lengths(
        line: &[u8],
        p: Progress,
        tables: &mut LentTables,
        work: &mut Work,
    ) -> Result<Progress, Rule> {
        match lines::line_head(line) {
            Head::Skipped => Ok(p),
            Head::Letter(b'x', at) => mapping_line(line, at, p, tables, work),
            _ => clause_line(line, p, tables, work),
        }
    }

    // Whether an empty clause was derived.
    fn end(p: Progress, tables: &LentTables) -> Result<(), Rule> {
        p.store.standing(tables.proof, tables.marks).closed()
    }

    fn counts(p: Progress) -> Counts {
        p.counts
    }
}

// Nothing of the certificate is read yet.
fn begin(r: Reading) -> Progress
    ensures { result ≡ begun r }
{
    Progress {
        formula: r,
        mapped: Mapped {
            used: 0,
            largest: 0,
        },
        store: Store::above(0),
        counts: Counts::default(),
    }
}

impl Checker for Ferp {
    ghost checked = { ferp_check };

    ghost Number = { FerpNumber };

    ghost of_both_files = { ferp_by_rules };

    ghost in_range = { ferp_ranged };

    // By the call that the check makes, which stands below, as with a line.
    fn certificate(certificate: &[u8], r: Reading, tables: &mut LentTables) -> Ended {
        Self::certificate_keeping_lengths(certificate, r, tables)
    }

    fn certificate_keeping_lengths(
        certificate: &[u8],
        r: Reading,
        tables: &mut LentTables,
    ) -> Ended {
        let mut work = Work {
            starts: [0; 8193],
            noted: [0; 16385],
            indexes: [0; 65537],
            seen: [0; 65536],
            held: [0; CODES],
            buffer: [0; 4096],
        };
        let clauses = &mut *tables.matrix;
        matrix::index_clauses(clauses, r.used, &mut work.starts);
        certificates::read_certificate::<Ferp>(certificate, begin(r), tables, &mut work)
    }
}
