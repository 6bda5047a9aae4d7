// The text of a FERP clause line, `index literals 0 n 0` or `index literals 0 a b 0`: a first pass that writes nothing.
#![tactic(auto)]

ghost use Rattle.std.specs.Prelude.{◌≡◌};
ghost use Rattle.ferp_forms.specs.Forms.{closed_at, reason_at, Derives};

use derivations::{Derivation, Reason};

// The line ends after these numbers.
#[tactic(auto, unfolding(crate::specs::Forms::closed_at))]
fn closed(line: &[u8], at: usize, reason: Reason) -> Option<Reason>
    ensures { result ≡ closed_at line.now at reason }
{
    lines::ended(line, at).then_some(reason)
}

// What the numbers after a clause say that it follows from: one or two numbers and a zero that ends the line, and nothing else.
pub fn reason_at(line: &[u8], at: usize) -> Option<Reason>
    ensures { result ≡ reason_at line.now at }
{
    let (a, e) = lists::natural_at(line, at)?;
    if a == 0 {
        return None;
    }
    let (b, h) = lists::natural_at(line, e)?;
    if b == 0 {
        return closed(line, h, Reason::Clause(a));
    }
    let (z, g) = lists::natural_at(line, h)?;
    if z == 0 {
        return closed(line, g, Reason::Parents(a, b));
    }
    None
}

// A clause line, its numbers at most the cap, and where its literals start. Their codes are in the buffer, as far as it goes.
pub fn derivation_at(line: &[u8], at: usize, buffer: &mut [u32]) -> Option<(Derivation, usize)>
    ensures { Derives line.now at buffer.old result buffer.new }
{
    let (index, from) = lists::natural_at(line, at)?;
    if index == 0 {
        return None;
    }
    let (literals, end) = buffers::list_at(line, from, buffer)?;
    let reason = reason_at(line, end)?;
    let derivation = Derivation {
        index,
        reason,
        size: literals.count,
        largest: literals.largest,
    };
    Some((derivation, from))
}
