// The deletion line.
ghost use Rattle.std.specs.Prelude.{◌≡◌, Ok};
ghost use Rattle.lists.specs.Stores.{ending_at};
ghost use Rattle.rules.specs.Forms.{clause_form, deletion};
ghost use Rattle.tables.specs.Tables.{Tables, lengths_of};
ghost use Rattle.tables.specs.Lent.{tables_of, SameLent};
ghost use Rattle.progress.specs.declared.Work.{Work};
ghost use Rattle.steps.specs.Judges.{among, beside};
ghost use Rattle.deletion.specs.Deletions.{ListedIn};
ghost use Rattle.ferat.specs.Lines.{Line, LineListed};

use lines::Literals;
use mapped::COPIES;
use progress::{Progress, Work};
use rules::Rule;
use tables::LentTables;
use trail::Trail;

// Puts the line's literals from a place on onto the empty trail, each once, up to the zero after them.
fn list_line(line: &[u8], at: usize, trail: &mut Trail) -> Result<(), Rule>
    ensures listed { ListedIn trail.old → trail.old.length ≡ 0 → result ≡ Ok tt → LineListed line.now at trail.new }
    ensures ended { result ≡ ending_at line.now at }
{
    for (x, _) in Literals::new(line, at) {
        if x == 0 {
            return Ok(());
        }
        deletion::list_literal(trail, x % 65536);
    }
    Err(Rule::Malformed)
}

// `d` literals `0`. Its literals are written into no table: they are listed on the trail, which is emptied first.
pub fn deletion_line(
    line: &[u8],
    at: usize,
    p: Progress,
    tables: &mut LentTables,
    work: &mut Work,
) -> Result<Progress, Rule>
    ensures read { (t : Tables) (w : Work) → Line (clause_form deletion) line.now at p
        (among t tables.old.proof.now tables.old.marks.now) (beside w work.old.propagation) result
        (among t tables.new.proof.now tables.new.marks.now) (beside w work.new.propagation) }
    ensures marks { tables_of tables.new ≡ record (tables_of tables.old) { marks = (tables_of tables.new).marks } }
    ensures trail { work.new ≡ record work.old {
      propagation = record work.old.propagation
          { trail = work.new.propagation.trail };
    } }
    ensures lengths { lengths_of (tables_of tables.new) ≡ lengths_of (tables_of tables.old) }
    ensures lent { SameLent tables.old tables.new }
{
    let measure = lists::clause_at(line, at).ok_or(Rule::Malformed)?;
    if COPIES < measure.largest as usize {
        return Err(Rule::OutOfRange);
    }
    work.propagation.trail.undo(0);
    list_line(line, at, &mut work.propagation.trail)?;
    let proof = &mut *tables.proof;
    let marks = &mut *tables.marks;
    steps::delete(p, proof, marks, &mut work.propagation.trail)
}
