// The judge of an `e` line.
ghost use Rattle.std.specs.Prelude.{◌≡◌, List, ℤ};
ghost use Rattle.rules.specs.Rule.{broken};
ghost use Rattle.rules.specs.Forms.{expansion};
ghost use Rattle.tables.specs.Lent.{read_of};
ghost use Rattle.propagation.specs.declared.Propagation.{Propagation};
ghost use Rattle.steps.specs.Judges.{work_of, Judges};
ghost use Rattle.steps.specs.Expands.{hint_at, fits_at, rule_broken};

use crate::additions::stand;
use assignment::least::Least;
use copies::View;
use copies::marks::CODES;
use lists::Measure;
use mapped::Noted;
use matrix::Starts;
use progress::{Progress, hint_missing};
use propagation::Propagation;
use rules::Rule;
use tables::ReadTables;

// What hint number e says, counted from 0.
#[tactic(auto, unfolding(crate::specs::Expands::hint_at))]
fn hint_at(proof: &[i32], e: u32) -> usize
    ensures { result ≡ hint_at proof.now e }
{
    (cells::code(proof, e as usize) / 2) as usize
}

// Whether the pending clause, of `size` literals, is an expansion of the clause that its hint names; without hints, of any clause.
#[tactic(auto, using(copies::proofs::MarkLaws::zeros_unmarked, copies::proofs::MarkLaws::zeros_long), unfolding(crate::specs::Expands::fits_at))]
fn fits(p: Progress, size: usize, tables: ReadTables, starts: &Starts) -> bool
    ensures { (marks : List ℤ) → result ≡ fits_at p (read_of tables.entry marks) starts.now }
{
    let mut seen = [0u8; CODES];
    let mut held = [0u16; CODES];
    let mut least = Least::new(&mut seen, &mut held);
    let view = View::of(tables, p.store.written(), size);
    if p.hinted.is_some() {
        let n = hint_at(tables.proof, p.counts.expansions);
        return expansion::expands_named(view, tables.matrix, starts, n, &mut least);
    }
    let c = p.formula.c as usize;
    expansion::expands_any(view, tables.matrix, starts, c, &mut least)
}

// The first of the rules 9, 10 and 11 that the pending clause, of `size` literals, breaks.
#[tactic(auto, unfolding(crate::specs::Expands::rule_broken))]
fn rule_broken(
    p: Progress,
    size: usize,
    tables: ReadTables,
    starts: &Starts,
    noted: &Noted,
) -> Result<(), Rule>
    ensures { (marks : List ℤ) (propagation : Propagation)
        → broken result ≡ rule_broken p (read_of tables.entry marks) (work_of starts.now noted.now propagation) }
{
    if !unmapped::all_mapped(p.store.pending(tables.proof), noted) {
        return Err(Rule::Unmapped);
    }
    if hint_missing(p) {
        return Err(Rule::HintCount);
    }
    if !fits(p, size, tables, starts) {
        return Err(Rule::NoExpansion);
    }
    Ok(())
}

// Rules 9, 10 and 11 of the pending clause, of this measure: it stands, or is refused.
pub fn expand(
    p: Progress,
    measure: Measure,
    tables: ReadTables,
    marks: &mut [i32],
    starts: &Starts,
    noted: &Noted,
    propagation: &mut Propagation,
) -> Result<Progress, Rule>
    ensures { Judges expansion p measure.count measure.largest
        (read_of tables.entry marks.old) (work_of starts.now noted.now propagation.old) result
        (read_of tables.entry marks.new) (work_of starts.now noted.now propagation.new) }
{
    rule_broken(p, measure.count, tables, starts, noted)?;
    Ok(stand(
        p,
        p.counts.with_expansion(),
        p.followed,
        measure,
        tables.proof,
        marks,
        propagation,
    ))
}
