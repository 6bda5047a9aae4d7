// Rule 8: existentials, and an annotation for them.
#![tactic(auto)]

ghost use Rattle.std.specs.Prelude.{◌≡◌, true};
ghost use Rattle.std.specs.List.{list_all as all};
ghost use Rattle.rules.specs.Rule.{broken};
ghost use Rattle.prefix.specs.Prefix.{entry};
ghost use Rattle.lists.specs.Lists.{is_list};
ghost use Rattle.mapped.specs.Numbers.{numbers_at, end_of, ruled};
ghost use Rattle.annotation.specs.Annotation.{under_one, once, annotates, Walked};

use mapped::numbers::Numbers;
use mapped::{COPIES, Noted, note};
use rules::Rule;

// All variables of a list are existential. The narrowest of them, if there is any: its dependency set lies within that of each.
fn existentials(line: &[u8], at: usize, prefix: &[i32]) -> Result<Option<usize>, Rule>
    ensures { Walked (entry prefix.now) (numbers_at line.now at) (end_of line.now at) result }
{
    let mut narrowest = None;
    for e in Numbers::new(line, at) {
        let e = e?;
        if !prefix::existential(prefix, e) {
            return Err(Rule::BadAnnotation);
        }
        narrowest = Some(prefix::narrower(prefix, narrowest, e));
    }
    Ok(narrowest)
}

// u is a universal in the dependency set of e; any universal where there is no e.
#[tactic(auto, unfolding(crate::specs::Annotation::under_one))]
fn under(prefix: &[i32], e: Option<usize>, u: usize) -> bool
    ensures { result ≡ under_one (entry prefix.now) e u }
{
    match e {
        Some(e) => prefix::depends(prefix, e, u),
        None => prefix::universal(prefix, u),
    }
}

// Every variable of a list is such a universal.
fn all_under(line: &[u8], at: usize, prefix: &[i32], e: Option<usize>) -> Result<(), Rule>
    ensures { broken result ≡ ruled 8 (all (under_one (entry prefix.now) e) (numbers_at line.now at))
        (end_of line.now at) }
{
    for u in Numbers::new(line, at) {
        if !under(prefix, e, u?) {
            return Err(Rule::BadAnnotation);
        }
    }
    Ok(())
}

// Whether the variables of a list rise, none above 16384, up to its zero: then none comes twice.
fn rises(line: &[u8], at: usize) -> bool
    ensures { result ≡ true → (once (numbers_at line.now at) ≡ true) × (end_of line.now at ≡ 0) }
{
    let mut last = 0;
    for u in Numbers::new(line, at) {
        match u {
            Ok(u) if last < u && u <= COPIES => last = u,
            _ => return false,
        }
    }
    true
}

// No variable comes twice in a list, and none is above 16384. Most annotations are written with rising variables, and need no marks.
#[inline(always)]
fn once(line: &[u8], at: usize) -> Result<(), Rule>
    ensures { broken result ≡ ruled 8 (once (numbers_at line.now at)) (end_of line.now at) }
{
    if rises(line, at) {
        return Ok(());
    }
    let mut seen: Noted = [0; 16385];
    note(line, at, &mut seen, Rule::BadAnnotation)
}

// Rule 8: existentials at `from`, and at `notes` an annotation for them.
#[inline(always)]
pub fn annotates(line: &[u8], from: usize, notes: usize, prefix: &[i32]) -> Result<(), Rule>
    ensures { is_list line.now from ≡ true → is_list line.now notes ≡ true
        → broken result ≡ ruled 8 (annotates (entry prefix.now) (numbers_at line.now from)
        (numbers_at line.now notes)) 0 }
{
    let narrowest = existentials(line, from, prefix)?;
    once(line, notes)?;
    all_under(line, notes, prefix, narrowest)
}
