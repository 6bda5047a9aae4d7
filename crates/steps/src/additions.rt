// The judge of an addition; and a pending clause that stands from now on.
ghost use Rattle.std.specs.Prelude.{◌≡◌};
ghost use Rattle.rules.specs.Forms.{addition};
ghost use Rattle.tables.specs.Tables.{Tables};
ghost use Rattle.progress.specs.declared.Work.{Work};
ghost use Rattle.steps.specs.Judges.{among, beside, Judges};
ghost use Rattle.steps.specs.Stands.{Standable, Stands};

use lists::Measure;
use mapping::Mapped;
use progress::{Progress, hint_left};
use propagation::Propagation;
use reading::Counts;
use rules::Rule;

// The pending clause, of this measure, stands from now on and is watched.
pub fn stand(
    p: Progress,
    counts: Counts,
    followed: usize,
    measure: Measure,
    proof: &[i32],
    marks: &mut [i32],
    propagation: &mut Propagation,
) -> Progress
    ensures { (t : Tables) (w : Work) → Standable p measure.count (among t proof.now marks.old) (beside w propagation.old)
        → Stands p counts measure.count measure.largest (among t proof.now marks.old) result
        (among t proof.now marks.new) (beside w propagation.new) }
{
    let mapped = Mapped {
        used: p.mapped.used,
        largest: p.mapped.largest.max(measure.largest),
    };
    let place = p.store.places();
    let store = p.store.stand(marks, measure.count);
    let standing = store.standing(proof, marks);
    let followed = propagation.attach(standing, followed, place);
    Progress {
        mapped,
        store,
        followed,
        counts,
        ..p
    }
}

// Rules 10 and 12 of the pending clause, of this measure: it stands, or is refused.
pub fn add(
    p: Progress,
    measure: Measure,
    proof: &[i32],
    marks: &mut [i32],
    propagation: &mut Propagation,
) -> Result<Progress, Rule>
    ensures { (t : Tables) (w : Work) → Judges addition p measure.count measure.largest
        (among t proof.now marks.old) (beside w propagation.old) result
        (among t proof.now marks.new) (beside w propagation.new) }
{
    if hint_left(p) {
        return Err(Rule::HintCount);
    }
    let standing = p.store.standing(proof, marks);
    let clause = p.store.pending(proof);
    let followed = redundancy::add(standing, propagation, p.followed, clause).ok_or(
        Rule::NotImplied,
    )?;
    Ok(stand(
        p,
        p.counts.with_addition(),
        followed,
        measure,
        proof,
        marks,
        propagation,
    ))
}
