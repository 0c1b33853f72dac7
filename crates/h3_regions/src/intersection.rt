//! Intersections: the region of what two regions both cover.

ghost use Rattle.std.specs.Prelude.{◌≡◌, ◌+◌, ◌<◌, ◌≤◌, ◌↔◌, ℕ, List, get_or, length, take, Contains, IsPermutation};
ghost use Rattle.h3_index.specs.Cell.{Address};
ghost use Rattle.h3_set.specs.Coverage.{IsCovered};
ghost use Rattle.h3_regions.specs.Algebra.{intersection};
ghost use Rattle.h3_tree.specs.PostOrder.{post_order_key};
ghost use Rattle.h3_regions.specs.Difference.{lowest_key};
ghost use Rattle.h3_regions.specs.Intersection.{HoldsShared, IsSeen, IsShared};
ghost use Rattle.h3_regions.specs.Laws.{RegionsAreUnique};
ghost use Rattle.h3_regions.specs.Region.{IsRegion};

use crate::difference::lowest_key;
use crate::laws::coverages_decide_regions;
use crate::order::is_below;
use crate::region::Region;
use crate::zones::first_near;
use h3_index::Cell;
use h3_set::laws::coverages_decide_lists;
use h3_tree::laws::{cells_form_intervals, cells_form_trees};
use h3_tree::post_order_key;

/// How many cells of each list are merged at first before some are skipped, and after some were.
const FEW: usize = 16;

/// How many at most.
const MANY: usize = 4096;

/// The first place from a given one on at which a cell of a list may be below another, where those of
/// the other list that come after that one matter alone.
fn skip_to(cells: &[Cell], place: usize, other: Cell) -> usize
    requires list { IsRegion cells.now }
    requires within { place < length cells.now }
    ensures within { result ≤ length cells.now }
    ensures on { place ≤ result }
    ensures far { (k : ℕ) (d : Address) → place ≤ k → k < result
        → post_order_key (get_or cells.now k d) < lowest_key other }
{
    let low = lowest_key(other);
    if post_order_key(cells[place]) < low {
        first_near(cells, low, place)
    } else {
        place
    }
}

/// The places at which a pass that has come to these two goes on: cells of either list that the other
/// can't share are skipped.
fn skip_unshared(first: &[Cell], second: &[Cell], i: usize, j: usize) -> (usize, usize)
    requires first_list { IsRegion first.now }
    requires second_list { IsRegion second.now }
    requires within_first { i < length first.now }
    requires within_second { j < length second.now }
    ensures on_first { i ≤ result.0 }
    ensures on_second { j ≤ result.1 }
    ensures seen { (slots : List Address) (w : ℕ) → IsSeen first.now second.now slots i j w
        → IsSeen first.now second.now slots result.0 result.1 w }
{
    cells_form_intervals();
    cells_form_trees();
    let p = skip_to(first, i, second[j]);
    if p == first.len() {
        return (p, j);
    }
    (p, skip_to(second, j, first[p]))
}

/// Writes the cells of either list that the other covers behind those that are written, up to a place
/// of either list, and returns how far the pass came in each, and how many cells are written then.
fn merge_to(
    first: &[Cell],
    second: &[Cell],
    slots: &mut [Cell],
    from: (usize, usize, usize),
    to: (usize, usize),
) -> (usize, usize, usize)
    requires first_list { IsRegion first.now }
    requires second_list { IsRegion second.now }
    requires within_first { to.0 ≤ length first.now }
    requires within_second { to.1 ≤ length second.now }
    requires seen { IsSeen first.now second.now slots.old from.0 from.1 from.2 }
    ensures on { from.0 < to.0 → from.1 < to.1 → from.0 + from.1 < result.0 + result.1 }
    ensures on_first { from.0 ≤ result.0 }
    ensures on_second { from.1 ≤ result.1 }
    ensures seen { IsSeen first.now second.now slots.new result.0 result.1 result.2 }
{
    cells_form_intervals();
    cells_form_trees();
    let (mut i, mut j, mut written) = from;
    while i < to.0 && j < to.1 {
        let x = first[i];
        let y = second[j];
        if post_order_key(x) <= post_order_key(y) {
            if is_below(x, y) {
                slots[written] = x;
                written += 1;
            }
            i += 1;
        } else {
            if is_below(y, x) {
                slots[written] = y;
                written += 1;
            }
            j += 1;
        }
    }
    (i, j, written)
}

/// How many cells of each list are merged next, after as many as `few` and this number skipped: few
/// after many skipped, so that a short list takes no time for what is far from its cells, and else
/// ever more, so that two lists of cells that alternate take none for skipping.
fn next_stride(stride: usize, skipped: usize) -> usize
    requires within { stride ≤ 4096 }
    requires some { 1 ≤ stride }
    ensures within { result ≤ 4096 }
    ensures some { 1 ≤ result }
{
    if skipped > stride {
        FEW
    } else {
        (2 * stride).min(MANY)
    }
}

/// Writes the cells of either list that the other covers into the first slots, in order, and returns
/// how many they are. Where cells of one list are far from those of the other they are skipped.
pub(crate) fn write_shared(first: &[Cell], second: &[Cell], slots: &mut [Cell]) -> usize
    requires first_list { IsRegion first.now }
    requires second_list { IsRegion second.now }
    requires room { length first.now + length second.now ≤ length slots.old }
    ensures fewer { result ≤ length slots.old }
    ensures shared { HoldsShared first.now second.now (take result slots.new) }
{
    cells_form_intervals();
    cells_form_trees();
    let mut i: usize = 0;
    let mut j: usize = 0;
    let mut written: usize = 0;
    let mut stride = FEW;
    while i < first.len() && j < second.len() {
        let (p, q) = skip_unshared(first, second, i, j);
        stride = next_stride(stride, (p - i).saturating_add(q - j));
        let to = (
            p.saturating_add(stride).min(first.len()),
            q.saturating_add(stride).min(second.len()),
        );
        let (next, other, count) = merge_to(first, second, slots, (p, q, written), to);
        i = next;
        j = other;
        written = count;
    }
    written
}

/// The region of what two regions both cover: the cells of each list that the other covers, the
/// finer of each two that overlap. They are written into the first slots, of which there must be at
/// least as many as the two have cells; what the others hold then is not said.
pub fn intersect<'s>(first: &Region, second: &Region, slots: &'s mut [Cell]) -> Region<'s>
    requires { length first.now + length second.now ≤ length slots.old }
    ensures list { IsPermutation (intersection first.now second.now) result }
    ensures cells { (x : Address) → Contains result x ↔ IsShared first.now second.now x }
    ensures covers { (r : ℕ) (x : Address)
        → IsCovered result r x ↔ (IsCovered first.now r x × IsCovered second.now r x) }
    ensures region { IsRegion result }
    ensures fewer { length result ≤ length slots.old }

    // A law, whatever the regions.
    ensures unique { RegionsAreUnique }
{
    coverages_decide_regions();
    cells_form_trees();
    coverages_decide_lists();
    let count = write_shared(first.cells(), second.cells(), slots);
    Region::over(&slots[..count])
}
