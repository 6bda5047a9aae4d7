// A list of checks of any kinds, one after the other in the same six tables.
#![tactic(auto)]

ghost use Rattle.std.specs.Prelude.{◌≡◌, ◌+◌, ◌≤◌, ◌<◌, ◌^◌, length, get_or};
ghost use Rattle.std.proofs.lemmas.List.Edits.{sets};
ghost use Rattle.tables.specs.Lent.{tables_of, SameLent};
ghost use Rattle.checks.specs.All.{clamped, CheckedAll};
ghost use Rattle.checks.specs.One.{RanAs, One};

use rules::Report;
use tables::LentTables;

// The numbers that name a kind of check. 0 names none.
pub const FERAT: u32 = 1;

pub const FERP: u32 = 2;

// The number of a check's kind; 0 where it is missing.
fn kind_at(kinds: &[u32], k: usize) -> u32
    ensures { result ≡ get_or kinds.now k 0 }
{
    kinds.get(k).copied().unwrap_or(0)
}

// Some numbers, from a place on; those beyond the slice are dropped.
fn put_numbers(out: &mut [u32], at: usize, numbers: &[u32])
    requires { at + length numbers.now < 2 ^ 64 }
    ensures { out.new ≡ sets out.old at numbers.now }
{
    for (i, &n) in numbers.iter().enumerate() {
        cells::set_at(out, at + i, n);
    }
}

// The check of two files by the number of its kind; none where that names no kind.
fn check_kind(
    kind: u32,
    formula: &[u8],
    certificate: &[u8],
    tables: &mut LentTables,
) -> Option<Report>
    ensures ran { RanAs kind formula.now certificate.now (tables_of tables.old) result (tables_of tables.new) }
    ensures lent { SameLent tables.old tables.new }
{
    match kind {
        FERAT => Some(ferat::check(formula, certificate, tables)),
        FERP => Some(ferp::check(formula, certificate, tables)),
        _ => None,
    }
}

// One check, its numbers written from a place on, or zeros where it was passed over.
fn check_one(
    kind: u32,
    formula: &[u8],
    certificate: &[u8],
    tables: &mut LentTables,
    out: &mut [u32],
    at: usize,
)
    requires { at + 7 < 2 ^ 64 }
    ensures checked { One kind formula.now certificate.now
        (tables_of tables.old) out.old at (tables_of tables.new) out.new }
    ensures lent { SameLent tables.old tables.new }
{
    let checked = check_kind(kind, formula, certificate, tables);
    let numbers = checked.map_or([0; 7], report::numbers);
    put_numbers(out, at, &numbers);
}

// THE LIST: files packed one after the other, two ends and a kind for each check; seven numbers for each. An end counts as the one before it
// if it lies below, as the bytes' length if it lies above.
pub fn check_all(
    bytes: &[u8],
    ends: &[usize],
    kinds: &[u32],
    tables: &mut LentTables,
    out: &mut [u32],
)
    ensures checked { CheckedAll bytes.now ends.now kinds.now
        (tables_of tables.old) out.old (tables_of tables.new) out.new }
    ensures lent { SameLent tables.old tables.new }
{
    let mut from = 0;
    for (k, pair) in ends.chunks_exact(2).enumerate() {
        let middle = pair[0].clamp(from, bytes.len());
        let to = pair[1].clamp(middle, bytes.len());
        check_one(
            kind_at(kinds, k),
            &bytes[from..middle],
            &bytes[middle..to],
            tables,
            out,
            7 * k,
        );
        from = to;
    }
}
