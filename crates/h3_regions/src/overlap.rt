//! Which cells of a list overlap first.

ghost use Rattle.std.specs.Prelude.{◌≡◌, ◌+◌, ◌<◌, ◌≤◌, ◌↔◌, length, take, true, All, IfNone, IfSome, IsTrue, None};
ghost use Rattle.h3_set.specs.Coverage.{IsApart, Overlap};
ghost use Rattle.h3_set.specs.Refusals.{has_overlap};
ghost use Rattle.h3_regions.specs.Overlap.{IsFirstOverlap, IsFirstToOverlap};

use crate::order::{are_cells, is_below};
use h3_index::Cell;
use h3_set::laws::coverages_decide_lists;
use h3_set::{has_overlap, put_in_order};
use h3_tree::laws::cells_form_intervals;
use h3_tree::post_order_key;

/// Whether one of two cells is the other, or an ancestor of it.
fn do_overlap(one: Cell, other: Cell) -> bool
    ensures { IsTrue result ↔ Overlap one other }
{
    cells_form_intervals();
    if post_order_key(one) <= post_order_key(other) {
        is_below(one, other)
    } else {
        is_below(other, one)
    }
}

/// The first place whose cell overlaps another cell.
fn first_to_overlap(cells: &[Cell], cell: Cell) -> Option<usize>
    ensures found { IfSome result (IsFirstToOverlap cells.now cell) }
    ensures none { IfNone result (All (λ c. ¬ Overlap c cell) cells.now) }
{
    for i in 0..cells.len() {
        if do_overlap(cells[i], cell) {
            return Some(i);
        }
    }
    None
}

/// Whether cells at two places of a list overlap, in whatever order they are. The slots, as many as
/// the cells, are overwritten.
fn have_overlap(cells: &[Cell], slots: &mut [Cell]) -> bool
    requires { length slots.old ≡ length cells.now }
    ensures { result ≡ has_overlap cells.now }
{
    coverages_decide_lists();
    are_cells(cells);
    slots.copy_from_slice(cells);
    put_in_order(slots);
    has_overlap(slots)
}

/// How many of the first cells of a list can be taken with no two of them that overlap, where two
/// of the list do. The more are taken, the more overlap, so it is searched for by halves.
fn apart_length(cells: &[Cell], slots: &mut [Cell]) -> usize
    requires room { length cells.now ≤ length slots.old }
    requires some { has_overlap cells.now ≡ true }
    ensures within { result < length cells.now }
    ensures apart { IsApart (take result cells.now) }
    ensures next { has_overlap (take (result + 1) cells.now) ≡ true }
{
    coverages_decide_lists();
    let mut apart = 0;
    let mut too_many = cells.len();
    while too_many - apart > 1 {
        let middle = apart + (too_many - apart) / 2;
        if have_overlap(&cells[..middle], &mut slots[..middle]) {
            too_many = middle;
        } else {
            apart = middle;
        }
    }
    apart
}

/// The place of the first cell of a list that overlaps an earlier one, and the place of the first cell
/// that it overlaps: that is it, an ancestor of it or one below it. `None` where no two overlap. So a
/// list that is refused as zones, or by a compaction, can be put right.
///
/// There must be at least as many slots as cells; what they hold then is not said. It sorts the list,
/// and then beginnings of it: in all as many times as the number of cells has bits, or once more.
pub fn find_overlap(cells: &[Cell], slots: &mut [Cell]) -> Option<(usize, usize)>
    requires { length cells.now ≤ length slots.old }
    ensures found { IfSome result (λ places. IsFirstOverlap cells.now places.0 places.1) }
    ensures none { (result ≡ None) ↔ IsApart cells.now }
{
    coverages_decide_lists();
    if !have_overlap(cells, &mut slots[..cells.len()]) {
        return None;
    }
    let place = apart_length(cells, slots);
    match first_to_overlap(&cells[..place], cells[place]) {
        Some(earlier) => Some((place, earlier)),
        None => unreachable!(),
    }
}
