// The judge of a deletion.
ghost use Rattle.std.specs.Prelude.{◌≡◌};
ghost use Rattle.tables.specs.Tables.{Tables};
ghost use Rattle.progress.specs.declared.Work.{Work};
ghost use Rattle.steps.specs.Judges.{among, with_trail, Deletes};
ghost use Rattle.steps.specs.Stands.{deleted_in};

use progress::{Progress, hint_left};
use rules::Rule;
use trail::Trail;

// The progress after a deletion: nothing is known to follow from the standing clauses.
fn with_deletion(p: Progress) -> Progress
    ensures { result ≡ deleted_in p }
{
    Progress {
        followed: 0,
        counts: p.counts.with_deletion(),
        ..p
    }
}

// Rules 10 and 13 of the deletion whose distinct literals are on the trail, which was emptied before: the earliest standing clause of
// the same set stands no more.
pub fn delete(
    p: Progress,
    proof: &[i32],
    marks: &mut [i32],
    trail: &mut Trail,
) -> Result<Progress, Rule>
    ensures answer { (t : Tables) (w : Work) → Deletes p (among t proof.now marks.old) (with_trail w trail.old)
        result (among t proof.now marks.new) (with_trail w trail.new) }
    ensures kept { trail.new.literals ≡ trail.old.literals }
{
    if hint_left(p) {
        return Err(Rule::HintCount);
    }
    let count = p.store.places();
    if deletion::delete(proof, marks, count, trail) {
        return Ok(with_deletion(p));
    }
    Err(Rule::NothingToDelete)
}
