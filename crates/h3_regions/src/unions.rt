//! Unions: the compacted list of what any cells cover.

ghost use Rattle.std.specs.Prelude.{◌≡◌, ◌≤◌, ◌↔◌, ℕ, length, take, drop, All, IsPermutation};
ghost use Rattle.h3_index.specs.Cell.{Address, IsCell};
ghost use Rattle.h3_index.specs.Descendants.{IsAncestor};
ghost use Rattle.h3_tree.specs.PostOrder.{post_order_key};
ghost use Rattle.h3_set.specs.Compacted.{compacted, IsCompacted};
ghost use Rattle.h3_set.specs.Coverage.{finest, IsApart, IsCovered};
ghost use Rattle.h3_set.specs.Order.{IsInOrder};
ghost use Rattle.h3_regions.specs.Unions.{IsCoarsest};
ghost use Rattle.h3_regions.specs.Region.{IsRegion};

use crate::order::are_cells;
use crate::zones::order_by_number;
use h3_index::Cell;
use h3_index::laws::cells_are_listed;
use h3_set::laws::coverages_decide_lists;
use h3_set::{compact_apart, put_in_order};
use h3_tree::laws::{cells_form_intervals, cells_form_trees};
use h3_tree::post_order_key;

/// How many of some cells in order, the first ones, stay where a cell comes after them: all but
/// those below it.
fn kept_len(kept: &[Cell], cell: Cell) -> usize
    requires valid { All IsCell kept.now }
    requires in_order { IsInOrder kept.now }
    requires last { All (λ a. post_order_key a ≤ post_order_key cell) kept.now }
    ensures fewer { result ≤ length kept.now }
    ensures stay { All (λ a. ¬ IsAncestor cell a) (take result kept.now) }
    ensures below { All (IsAncestor cell) (drop result kept.now) }
    ensures valid { IsCell cell }
{
    cells_form_intervals();
    let key = post_order_key(cell);
    let last_digit_step = cell.last_digit_step();
    let mut n = kept.len();
    while n > 0 {
        if key - post_order_key(kept[n - 1]) >= last_digit_step {
            return n;
        }
        n -= 1;
    }
    0
}

/// Keeps the coarsest of cells in order, those that stand below no other, each once: the first ones
/// then, in order again. Returns how many they are.
fn keep_coarsest(cells: &mut [Cell]) -> usize
    requires valid { All IsCell cells.old }
    requires in_order { IsInOrder cells.old }
    ensures fewer { result ≤ length cells.old }
    ensures kept { IsCoarsest (take result cells.new) cells.old }
    ensures in_order { IsInOrder (take result cells.new) }
{
    cells_form_intervals();
    cells_form_trees();
    let mut written: usize = 0;
    for i in 0..cells.len() {
        let cell = cells[i];
        let stay = kept_len(&cells[..written], cell);
        cells[stay] = cell;
        written = stay + 1;
    }
    written
}

/// As `unite`, without its last sort: the list stands in post order, as that of a region.
pub(crate) fn unite_in_order(cells: &mut [Cell]) -> usize
    ensures list { IsPermutation (compacted cells.old) (take result cells.new) }
    ensures region { IsRegion (take result cells.new) }
    ensures fewer { result ≤ length cells.old }
    ensures valid { All IsCell cells.old }
{
    coverages_decide_lists();
    cells_form_trees();
    cells_form_intervals();
    are_cells(cells);
    put_in_order(cells);
    let count = keep_coarsest(cells);
    compact_apart(&mut cells[..count])
}

/// Puts the compacted list of what any cells cover into the first of them, and returns how many
/// cells it has; those after the list may be any cells. The cells may repeat and overlap one
/// another: where `compact_in_place` refuses, this does not. It allocates nothing.
///
/// The union of two lists is that of their cells, one list after the other.
pub fn unite(cells: &mut [Cell]) -> usize
    ensures compacted { IsCompacted
        (IsCovered cells.old (finest cells.old)) (finest cells.old) (take result cells.new) }
    ensures is { take result cells.new ≡ compacted cells.old }
    ensures fewer { result ≤ length cells.old }

    // At each resolution that is not coarser than any of the cells it covers what they do.
    ensures covers { (r : ℕ) → finest cells.old ≤ r → (x : Address)
        → IsCovered (take result cells.new) r x ↔ IsCovered cells.old r x }
{
    coverages_decide_lists();
    cells_form_trees();
    cells_form_intervals();
    cells_are_listed();
    let count = unite_in_order(cells);
    order_by_number(&mut cells[..count]);
    count
}
