// The annotations of the line's copies against the least t: each as long as the part of t that the copy's existential depends on.
#![tactic(auto)]

pub mod least;

ghost use Rattle.std.specs.Prelude.{◌≡◌, cond, false, length};
ghost use Rattle.std.specs.List.{list_all as all};
ghost use Rattle.cells.specs.Codes.{codes_left};
ghost use Rattle.copies.specs.Copies.{words, stands_in, annotation_in, list_in, line_in};
ghost use Rattle.assignment.specs.Held.{Noted};
ghost use Rattle.assignment.specs.Least.{items_of, HeldIn, IsEmpty, SameArrays};
ghost use Rattle.assignment.specs.Annotations.{apart, part_size, is_part, copy_fits, annotations_fit};

use cells::Codes;
use copies::View;
use least::Least;

// A formula's variables lie below this.
const VARIABLES: usize = 4097;

// In a line of so many literals the sizes of the parts are noted.
const LONG: usize = 64;

// How many literals of t are of universals that e depends on. One more than that is noted for each existential that has a place in `sizes`;
// 0 is noted where it was not counted yet.
#[tactic(auto, using(crate::proofs::HeldLaws::noted_read, crate::proofs::HeldLaws::noted_more))]
fn size_of(sizes: &mut [u16], view: View, least: &Least, e: usize) -> usize
    requires { Noted (part_size (words view) (items_of least.now)) sizes.old }
    ensures { (result ≡ part_size (words view.entry) (items_of least.now) e)
        × Noted (part_size (words view.entry) (items_of least.now)) sizes.new }
{
    let noted = sizes.get(e).copied().unwrap_or(0) as usize;
    if noted != 0 {
        return noted - 1;
    }
    let size = least.part_size(view, e);
    cells::set_at(sizes, e, (size + 1) as u16);
    size
}

// Whether `long` literals within e's part of t are all of it.
#[tactic(auto, using(crate::proofs::HeldLaws::listed_length), unfolding(crate::specs::Annotations::is_part))]
fn is_part(sizes: &mut [u16], view: View, least: &Least, e: usize, long: usize) -> bool
    requires { Noted (part_size (words view) (items_of least.now)) sizes.old }
    ensures { (result ≡ is_part (words view.entry) (items_of least.now) e long)
        × Noted (part_size (words view.entry) (items_of least.now)) sizes.new }
{
    long == least.count || size_of(sizes, view, least, e) == long
}

// How many literals there are from place a of the map on, where there are `long` from place `last` on: copies of one mapping line share the
// place of their annotation.
#[tactic(auto, using(crate::proofs::Arms::codes_bound))]
fn length_next(map: &[i32], last: usize, long: usize, a: usize) -> usize
    requires { long ≡ length (list_in map.now last) }
    ensures { result ≡ length (list_in map.now a) }
{
    if a == last {
        long
    } else {
        Codes::new(map, a).count()
    }
}

// Each copy's annotation is as long as its part of t.
#[tactic(auto, using(crate::proofs::Arms::long_past), unfolding(crate::specs::Annotations::copy_fits, copies::specs::Copies::annotation_of))]
fn copies_fit(sizes: &mut [u16], view: View, least: &Least) -> bool
    requires { Noted (part_size (words view) (items_of least.now)) sizes.old }
    ensures { result ≡ all (copy_fits (words view.entry) (stands_in view.entry)
        (annotation_in view.entry) (items_of least.now)) (line_in view.entry) }
{
    let mut last = view.map.len();
    let mut long: usize = 0;
    for x in view.codes() {
        let p = x as usize / 2;
        let a = view.annotation_at(p);
        long = length_next(view.map, last, long, a);
        last = a;
        if !is_part(sizes, view, least, view.stands(p), long) {
            return false;
        }
    }
    true
}

// The same, and t has no literal together with its negation. In a line of few literals nothing is noted, since a small array is soon cleared.
fn fit_least(view: View, least: &Least) -> bool
    ensures { HeldIn least.now → result ≡ cond (apart (items_of least.now))
        (all (copy_fits (words view.entry) (stands_in view.entry) (annotation_in view.entry) (items_of least.now)) (line_in view.entry)) false }
{
    if !least.one_signed() {
        return false;
    }
    if view.size < LONG {
        return copies_fit(&mut [], view, least);
    }
    copies_fit(&mut [0; VARIABLES], view, least)
}

// The line's copies are annotated by one assignment that makes the clause's universal literals false. Nothing is held in `least`, before and
// after.
#[tactic(auto, using(crate::proofs::Arms::joins, crate::proofs::HeldLaws::holds_none), unfolding(crate::specs::Annotations::annotations_fit, crate::specs::Annotations::least_of))]
pub fn annotations_fit(view: View, clause: Codes, least: &mut Least) -> bool
    ensures lent { SameArrays least.old least.new }
    ensures answer { IsEmpty least.old
        → (result ≡ annotations_fit (words view.entry) (stands_in view.entry)
        (annotation_in view.entry) (line_in view.entry) (codes_left clause.entry))
        × IsEmpty least.new }
{
    least.join_negations(view, clause);
    least.join_annotations(view);
    let fits = fit_least(view, least);
    least.take_back();
    fits
}
