//! Differences: the region of what one region covers and another does not.

ghost use Rattle.std.specs.Prelude.{◌≡◌, ◌+◌, ◌-◌, ◌*◌, ◌<◌, ◌≤◌, ◌↔◌, ◌++◌, ℕ, length, take, IfSome, IsPermutation, None};
ghost use Rattle.h3_index.specs.Cell.{Address, IsCell, resolution};
ghost use Rattle.h3_set.specs.Coverage.{finest, is_covered, IsCovered};
ghost use Rattle.h3_regions.specs.Algebra.{difference};
ghost use Rattle.h3_regions.specs.Laws.{RegionsAreUnique};
ghost use Rattle.h3_regions.specs.Region.{IsRegion};
ghost use Rattle.h3_regions.specs.Difference.{has_below, left_of, left_of_all, lowest_key};
ghost use Rattle.h3_regions.specs.Zones.{IsFirstPlace};

use crate::laws::coverages_decide_regions;
use crate::order::is_below;
use crate::region::Region;
use crate::zones::first_near;
use h3_index::Cell;
use h3_index::laws::descendants_are_listed;
use h3_set::laws::coverages_decide_lists;
use h3_tree::laws::{cells_form_intervals, cells_form_trees};
use h3_tree::{children_at, post_order_key};

/// The lowest key that a cell below another may have.
pub(crate) fn lowest_key(cell: Cell) -> u64
    ensures { result ≡ lowest_key cell }
{
    post_order_key(cell).saturating_sub(cell.last_digit_step() - 1)
}

/// Whether a region covers a cell, where the first place whose cell's key is not below the lowest one
/// below the cell is given: what covers the cell stands there, since no other cell of the region is
/// below the one that covers it.
fn is_covered(cells: &[Cell], cell: Cell, first: usize) -> bool
    requires region { IsRegion cells.now }
    requires first { IsFirstPlace cells.now (lowest_key cell) first }
    ensures is { result ≡ is_covered cells.now cell }
    ensures valid { IsCell cell }
{
    coverages_decide_lists();
    cells_form_trees();
    cells_form_intervals();
    let key = post_order_key(cell);
    if first == cells.len() {
        return false;
    }
    let member = cells[first];
    if post_order_key(member) < key {
        return false;
    }
    is_below(cell, member)
}

/// Whether a cell or one below it is in the list of a region, where the same place is given: the
/// first of these stands there.
fn has_below(cells: &[Cell], cell: Cell, first: usize) -> bool
    requires region { IsRegion cells.now }
    requires first { IsFirstPlace cells.now (lowest_key cell) first }
    ensures { result ≡ has_below cells.now cell }
{
    coverages_decide_lists();
    cells_form_trees();
    cells_form_intervals();
    let key = post_order_key(cell);
    if first == cells.len() {
        return false;
    }
    post_order_key(cells[first]) <= key
}

/// Writes what is left of a cell where those of a region are taken away behind the cells that are
/// written, and returns how many are written then; `None` where the slots do not suffice. Those of the
/// region are looked for from a place on, which may be any, and which is then where those of the next
/// cell may be looked for.
fn subtract_cell(
    cell: Cell,
    others: &[Cell],
    slots: &mut [Cell],
    written: usize,
    place: &mut usize,
) -> Option<usize>
    requires others { IsRegion others.now }
    requires room { written ≤ length slots.old }
    ensures within { IfSome result (λ m. m ≤ length slots.old) }
    ensures left { IfSome result (λ m. take m slots.new
        ≡ take written slots.old ++ left_of others.now (15 - resolution cell) cell) }
    ensures none { result ≡ None
        → length slots.old < written + length (left_of others.now (15 - resolution cell) cell) }
{
    cells_form_trees();
    coverages_decide_lists();
    let first = first_near(others, lowest_key(cell), *place);
    *place = first;
    if is_covered(others, cell, first) {
        return Some(written);
    }
    if !has_below(others, cell, first) {
        if written == slots.len() {
            return None;
        }
        slots[written] = cell;
        return Some(written + 1);
    }
    let mut count = written;
    for child in children_at(cell, cell.resolution() + 1) {
        match subtract_cell(child, others, slots, count, place) {
            Some(more) => count = more,
            None => return None,
        }
    }
    Some(count)
}

/// Writes what is left of the cells of a list where those of a region are taken away into the first
/// slots, and returns how many these are; `None` where the slots do not suffice.
fn leave_all(cells: &[Cell], others: &[Cell], slots: &mut [Cell]) -> Option<usize>
    requires { IsRegion others.now }
    ensures within { IfSome result (λ m. m ≤ length slots.old) }
    ensures left { IfSome result (λ m. take m slots.new ≡ left_of_all cells.now others.now) }
    ensures none { result ≡ None → length slots.old < length (left_of_all cells.now others.now) }
{
    let mut count = 0;
    let mut place: usize = 0;
    for cell in cells {
        match subtract_cell(*cell, others, slots, count, &mut place) {
            Some(more) => count = more,
            None => return None,
        }
    }
    Some(count)
}

/// The region of what one region covers and another does not: each cell of the first list that no
/// cell of the second overlaps, and else what is left of it, down to the coarsest cells that are
/// clear of the second. They are written into the first slots; `None` exactly where these do not
/// suffice. What the slots that are not of the result hold then is not said, after `None` all.
/// There are at most 90 cells more than the first has for each cell of the second: that divides at
/// most 15 cells, each into 7, of which one is divided in its turn or taken away.
pub fn subtract<'s>(first: &Region, second: &Region, slots: &'s mut [Cell]) -> Option<Region<'s>>
    ensures list { IfSome result (IsPermutation (difference first.now second.now)) }
    ensures covers { IfSome result (λ left. (r : ℕ) → finest second.now ≤ r → (x : Address)
        → IsCovered left r x ↔ (IsCovered first.now r x × (¬ IsCovered second.now r x))) }
    ensures none { (result ≡ None) ↔ (length slots.old < length (difference first.now second.now)) }
    ensures few { length (difference first.now second.now)
        ≤ length first.now + 90 * length second.now }
    ensures region { IfSome result IsRegion }

    // A law, whatever the regions.
    ensures unique { RegionsAreUnique }
{
    coverages_decide_regions();
    cells_form_trees();
    cells_form_intervals();
    coverages_decide_lists();
    descendants_are_listed();
    match leave_all(first.cells(), second.cells(), slots) {
        Some(count) => Some(Region::over(&slots[..count])),
        None => None,
    }
}
