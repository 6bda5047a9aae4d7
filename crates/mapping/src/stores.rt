// A mapping line in the tables: in the map its annotation's codes and a 0, then for each copy its existential and the annotation's place;
// in the values, at the copy's place, the place of its existential.
ghost use Rattle.std.specs.Prelude.{◌≡◌, ◌+◌, ◌*◌, ◌<◌, length, true};
ghost use Rattle.rules.specs.Rule.{broken};
ghost use Rattle.lists.specs.Lists.{is_list};
ghost use Rattle.lists.specs.Stores.{codes_at, puts};
ghost use Rattle.mapped.specs.Numbers.{numbers_at};
ghost use Rattle.mapping.specs.Stores.{stored_end, copying, written};

use crate::PLACES;
use lists::MappingLists;
use mapped::numbers::Numbers;
use rules::Rule;

// The literals of the annotation, from place `used` of the map on, and after them the copies, which stand at `at`, up to the end of the
// shorter list. A token that is no literal, met in a list before that, is refused.
pub fn store(
    line: &[u8],
    at: usize,
    lists: MappingLists,
    used: usize,
    map: &mut [i32],
    values: &mut [i32],
) -> Result<(), Rule>
    ensures ends { broken result ≡ stored_end line.now at lists.existentials_at lists.literals_at }
    ensures stores { is_list line.now lists.literals_at ≡ true
        → (is_list line.now at ≡ true → is_list line.now lists.existentials_at ≡ true → broken result ≡ 0)
        × (used + lists.literals + 1 + 2 * length line.now < 2147483648
        → written map.new values.new
        ≡ copying used (numbers_at line.now at) (numbers_at line.now lists.existentials_at) (used + lists.literals + 1)
        (puts map.old used (codes_at line.now lists.literals_at)) values.old) }
{
    let note = used % PLACES;
    lists::store_list(line, lists.literals_at, map, note)?;
    let mut place = note + lists.literals % PLACES + 1;
    let mut existentials = Numbers::new(line, lists.existentials_at);
    for copy in Numbers::new(line, at) {
        let p = copy?;
        let Some(existential) = existentials.next() else {
            return Ok(());
        };
        let e = existential?;
        let k = place % PLACES;
        cells::put(map, k, e as u32);
        cells::put(map, k + 1, note as u32);
        cells::put(values, p - 1, k as u32);
        place = k + 2;
    }
    Ok(())
}
