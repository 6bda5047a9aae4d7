// Mapping lines, `x P1..Pk 0 E1..Ek 0 L1..Lm 0`: storing, and the whole line.
#![tactic(auto)]

mod stores;

ghost use Rattle.std.specs.Prelude.{◌≡◌};
ghost use Rattle.mapping.specs.MappingLine.{ranged, lent, MappingLine};

use annotation::annotates;
use lists::MappingLists;
use mapped::{COPIES, Noted, fresh};
use rules::Rule;
pub use stores::store;

// Places of the map table below 2^31 are stored as they are.
pub const PLACES: usize = 2147483648;

// The places of the map table in use, and the largest copy so far.
#[derive(Clone, Copy)]
pub struct Mapped {
    pub used: usize,
    pub largest: u32,
}

// Rule 3: the largest copy is at most 16384, the largest existential and universal at most V.
#[tactic(auto, unfolding(crate::specs::MappingLine::ranged))]
fn ranged(v: u32, lists: MappingLists) -> bool
    ensures { result
        ≡ ranged v lists.highest_copy lists.highest_existential lists.highest_universal }
{
    lists.highest_copy as usize <= COPIES
        && lists.highest_existential <= v
        && lists.highest_universal <= v
}

// A mapping line, from the place after its letter on; `in_turn` if no line of a later kind came before.
pub fn mapping_line(
    line: &[u8],
    at: usize,
    in_turn: bool,
    v: u32,
    state: Mapped,
    prefix: &[i32],
    map: &mut [i32],
    values: &mut [i32],
    noted: &mut Noted,
) -> Result<Mapped, Rule>
    ensures { MappingLine line.now at in_turn v state prefix.now
        (lent map.old values.old noted.old) result (lent map.new values.new noted.new) }
{
    let lists = lists::mapping_at(line, at).ok_or(Rule::Malformed)?;
    if !in_turn {
        return Err(Rule::Malformed);
    }
    if !ranged(v, lists) {
        return Err(Rule::OutOfRange);
    }
    let used = state.used % PLACES + (2 * lists.copies + lists.literals + 3);
    let largest = state.largest.max(lists.highest_copy);
    if map.len() < used || values.len() < largest as usize {
        return Err(Rule::TableFull);
    }
    fresh(line, at, noted)?;
    annotates(line, lists.existentials_at, lists.literals_at, prefix)?;
    store(line, at, lists, state.used, map, values)?;
    Ok(Mapped { used, largest })
}
