// The `o` line.
ghost use Rattle.std.specs.Prelude.{◌≡◌};
ghost use Rattle.rules.specs.Forms.{hints_form};
ghost use Rattle.tables.specs.Tables.{Tables, lengths_of};
ghost use Rattle.tables.specs.Lent.{tables_of, SameLent};
ghost use Rattle.progress.specs.declared.Work.{Work};
ghost use Rattle.ferat.specs.Lines.{Line, hinted_in, with_proof};

use clauses::{PLACES, Store};
use progress::Progress;
use rules::Rule;
use tables::LentTables;

// The progress after n hints, which the store stands above.
fn with_hints(p: Progress, n: usize) -> Progress
    ensures { result ≡ hinted_in p n }
{
    Progress {
        hinted: Some(n),
        store: Store::above(n % PLACES + 1),
        ..p
    }
}

// `o n1..nj 0`: the hints are stored at the start of the proof table.
pub fn hints_line(
    line: &[u8],
    at: usize,
    p: Progress,
    tables: &mut LentTables,
) -> Result<Progress, Rule>
    ensures read { (t : Tables) (w : Work) → Line hints_form line.now at p
        (with_proof t (tables_of tables.old)) w result (with_proof t (tables_of tables.new)) w }
    ensures rest { tables_of tables.new ≡ record (tables_of tables.old) { proof = (tables_of tables.new).proof } }
    ensures lengths { lengths_of (tables_of tables.new) ≡ lengths_of (tables_of tables.old) }
    ensures lent { SameLent tables.old tables.new }
{
    let measure = lists::clause_at(line, at).ok_or(Rule::Malformed)?;
    if measure.negative {
        return Err(Rule::Malformed);
    }
    if !progress::before_hints(p) {
        return Err(Rule::Malformed);
    }
    if p.formula.c < measure.largest {
        return Err(Rule::OutOfRange);
    }
    if tables.proof.len() <= measure.count {
        return Err(Rule::TableFull);
    }
    lists::store_list(line, at, tables.proof, 0)?;
    Ok(with_hints(p, measure.count))
}
