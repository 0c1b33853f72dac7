//! One round of a compaction, over cells in order.

ghost use Rattle.std.specs.Prelude.{◌≡◌, ◌≢◌, ◌-◌, ◌<◌, ◌≤◌, ◌↔◌, length, take, slice_index_or, All, AllPairs, Contains, IsTrue, not};
ghost use Rattle.h3_index.specs.Cell.{Address, IsCell, resolution};
ghost use Rattle.h3_index.specs.Descendants.{descendants};
ghost use Rattle.h3_set.specs.Compacted.{parent_of};
ghost use Rattle.h3_set.specs.Coverage.{IsApart};
ghost use Rattle.h3_set.specs.Order.{IsInOrder};
ghost use Rattle.h3_set.specs.Rounds.{InRound};

use crate::order::put_in_order;
use h3_index::Cell;
use h3_index::laws::numbers_are_unique;
use h3_tree::laws::{cells_form_intervals, cells_form_trees};

/// The number of siblings that a list begins with, where it begins with a complete set of siblings
/// of a resolution in ascending order; else 0. The first cell of the list is given.
pub(crate) fn siblings_at_front(cells: &[Cell], first: Cell, level: u8) -> usize
    requires some_level { 0 < level }
    requires some { 0 < length cells.now }
    requires first { slice_index_or cells.now 0 first ≡ first }
    ensures level { 0 < result → resolution first ≡ level }
    ensures count { 0 < result → result ≡ length (descendants (parent_of first) level) }
    ensures siblings { 0 < result → take result cells.now ≡ descendants (parent_of first) level }
    ensures none { result ≡ 0 → resolution first ≡ level
        → take (length (descendants (parent_of first) level)) cells.now
        ≢ descendants (parent_of first) level }
{
    cells_form_trees();
    numbers_are_unique();
    let own = first.resolution();
    // first the digit: of cells of several resolutions few have a 0 there, so a processor guesses it
    if first.digit(level.min(15)) != 0 {
        return 0;
    }
    if own != level {
        return 0;
    }
    let above = first.ancestor_at(level - 1);
    let skipped = u8::from(above.is_pentagon());
    let count = usize::from(7 - skipped);
    if cells.len() < count {
        return 0;
    }
    for digit in 1 + skipped..7 {
        if cells[usize::from(digit - skipped)].raw() != above.child(digit).raw() {
            return 0;
        }
    }
    count
}

/// Replaces each complete set of siblings of a resolution by the parent, in one pass over cells in
/// order, which writes behind itself. All other cells are kept. Returns how many cells there are
/// then: the first ones, in order again.
pub(crate) fn merge_runs(cells: &mut [Cell], level: u8) -> usize
    requires some_level { 0 < level }
    requires apart { IsApart cells.old }
    requires in_order { IsInOrder cells.old }
    requires valid { All IsCell cells.old }
    ensures fewer { result ≤ length cells.old }
    ensures members { (x : Address)
        → Contains (take result cells.new) x ↔ InRound (Contains cells.old) level x }
    ensures once { AllPairs (λ a b. a ≢ b) (take result cells.new) }
    ensures in_order { IsInOrder (take result cells.new) }
{
    cells_form_trees();
    cells_form_intervals();
    let mut written: usize = 0;
    let mut i: usize = 0;
    while i < cells.len() {
        let cell = cells[i];
        let count = siblings_at_front(&cells[i..], cell, level);
        if count > 0 {
            cells[written] = cell.ancestor_at(level - 1);
            i += count;
        } else {
            cells[written] = cell;
            i += 1;
        }
        written += 1;
    }
    written
}

/// Whether a list has a cell that is the first of its siblings of a resolution.
fn has_first_sibling(cells: &[Cell], level: u8) -> bool
    requires { 0 < level }
    ensures valid { All IsCell cells.now }
    ensures none { IsTrue (not result)
        → All (λ c. resolution c ≡ level → slice_index_or c.digits (level - 1) 7 ≢ 0) cells.now }
{
    let mut found = false;
    for cell in cells {
        if cell.resolution() == level && cell.digit(level) == 0 {
            found = true;
        }
    }
    found
}

/// Replaces each complete set of siblings of a resolution by the parent, and keeps all other cells.
/// Returns how many cells there are then: the first ones.
pub(crate) fn merge(cells: &mut [Cell], level: u8) -> usize
    requires some_level { 0 < level }
    requires apart { IsApart cells.old }
    ensures fewer { result ≤ length cells.old }
    ensures valid { All IsCell cells.old }
    ensures members { (x : Address)
        → Contains (take result cells.new) x ↔ InRound (Contains cells.old) level x }
    ensures once { AllPairs (λ a b. a ≢ b) (take result cells.new) }
{
    cells_form_trees();
    // each complete set of siblings has a first one
    if !has_first_sibling(cells, level) {
        return cells.len();
    }
    put_in_order(cells);
    merge_runs(cells, level)
}
