// The judge of a clause line that is stored: rules 17, 16, 9 and 11.
ghost use Rattle.std.specs.Prelude.{◌≡◌, List, ℤ, ◌≤◌, length};
ghost use Rattle.rules.specs.Rule.{broken};
ghost use Rattle.tables.specs.Lent.{read_of};
ghost use Rattle.derivations.specs.declared.Work.{Work};
ghost use Rattle.derivations.specs.Shown.{beside};
ghost use Rattle.derivations.specs.Rules.{ExpansionJudged, ParentsJudged, RuleJudged};
ghost use Rattle.derivations.specs.Judges.{counted_by, Judges, StandsAs};

use crate::{Derivation, Progress, Reason};
use assignment::least::Least;
use clauses::PLACES;
use copies::View;
use indexes::Indexes;
use mapped::Noted;
use mapping::Mapped;
use matrix::Starts;
use reading::Counts;
use resolvents::Seen;
use rules::Rule;
use tables::ReadTables;

// "judged as an `e` line with hint n": the first of the rules 9 and 11 that the pending clause, of `size` literals, breaks.
fn expansion_broken(
    p: Progress,
    n: u32,
    size: usize,
    tables: ReadTables,
    starts: &Starts,
    noted: &Noted,
    seen: &mut Seen,
    held: &mut [u16],
) -> Result<(), Rule>
    ensures { (marks : List ℤ) (w : Work) → 8194 ≤ length held.old → ExpansionJudged p n
        (read_of tables.entry marks) (beside w starts.now noted.now w.indexes seen.old) (broken result) seen.new }
{
    if !unmapped::all_mapped(p.store.pending(tables.proof), noted) {
        return Err(Rule::Unmapped);
    }
    let view = View::of(tables, p.store.written(), size);
    let mut least = Least::new(seen, held);
    if !expansion::expands_named(view, tables.matrix, starts, n as usize, &mut least) {
        return Err(Rule::NoExpansion);
    }
    Ok(())
}

// Rule 16 of a resolution of the clauses with indexes a and b.
fn parents_broken(
    p: Progress,
    a: u32,
    b: u32,
    tables: ReadTables,
    marks: &[i32],
    indexes: &Indexes,
    seen: &mut Seen,
) -> Result<(), Rule>
    ensures { (w : Work) → ParentsJudged p a b
        (read_of tables.entry marks.now) (beside w w.starts w.noted indexes.now seen.old) (broken result) seen.new }
{
    let i = indexes::place_of(indexes, a).ok_or(Rule::BadParent)?;
    let j = indexes::place_of(indexes, b).ok_or(Rule::BadParent)?;
    let standing = p.store.standing(tables.proof, marks);
    let d = standing.clause(i);
    let e = standing.clause(j);
    if !resolvents::resolves(p.store.pending(tables.proof), d, e, seen) {
        return Err(Rule::BadParent);
    }
    Ok(())
}

// The first of the rules 16, 9 and 11 that the pending clause breaks.
fn rule_broken(
    p: Progress,
    d: Derivation,
    tables: ReadTables,
    marks: &[i32],
    starts: &Starts,
    noted: &Noted,
    indexes: &Indexes,
    seen: &mut Seen,
    held: &mut [u16],
) -> Result<(), Rule>
    ensures { (w : Work) → 8194 ≤ length held.old → RuleJudged p d.reason
        (read_of tables.entry marks.now) (beside w starts.now noted.now indexes.now seen.old) (broken result) seen.new }
{
    match d.reason {
        Reason::Clause(n) => expansion_broken(p, n, d.size, tables, starts, noted, seen, held),
        Reason::Parents(a, b) => parents_broken(p, a, b, tables, marks, indexes, seen),
    }
}

// One line more: an expansion or a resolution.
fn with_line(c: Counts, reason: Reason) -> Counts
    ensures { result ≡ counted_by reason c }
{
    match reason {
        Reason::Clause(_) => c.with_expansion(),
        Reason::Parents(_, _) => c.with_addition(),
    }
}

// The pending clause stands from now on, and has its index.
fn stand(p: Progress, d: Derivation, marks: &mut [i32], indexes: &mut Indexes) -> Progress
    ensures { StandsAs p d marks.old indexes.old result marks.new indexes.new }
{
    let place = (p.store.places() % PLACES) as u32;
    let store = p.store.stand(marks, d.size);
    indexes::note(indexes, d.index, place);
    Progress {
        mapped: Mapped {
            largest: p.mapped.largest.max(d.largest),
            ..p.mapped
        },
        store,
        counts: with_line(p.counts, d.reason),
        ..p
    }
}

// Rules 17, 16, 9 and 11 of the pending clause, which is as the line says: it stands, or is refused. In `held`, which has room for every
// literal of the formula, the test of an expansion lists literals.
pub fn derive(
    p: Progress,
    d: Derivation,
    tables: ReadTables,
    marks: &mut [i32],
    starts: &Starts,
    noted: &Noted,
    indexes: &mut Indexes,
    seen: &mut Seen,
    held: &mut [u16],
) -> Result<Progress, Rule>
    ensures { (w v : Work) → 8194 ≤ length held.old → Judges d p
        (read_of tables.entry marks.old) (beside w starts.now noted.now indexes.old seen.old) result
        (read_of tables.entry marks.new) (beside v starts.now noted.now indexes.new seen.new) }
{
    if indexes::place_of(indexes, d.index).is_some() {
        return Err(Rule::IndexUsed);
    }
    rule_broken(p, d, tables, marks, starts, noted, indexes, seen, held)?;
    Ok(stand(p, d, marks, indexes))
}
