//! Cells in post order, in which each comes right after those below it, and pairs of a cell and a
//! number in the order of their cells.

ghost use Rattle.std.specs.Prelude.{ℕ, ◌≤◌, ◌↔◌, All, AllPairs, IsPermutation, IsTrue};
ghost use Rattle.h3_index.specs.Cell.{Address, IsCell};
ghost use Rattle.h3_index.specs.Descendants.{IsAncestor};
ghost use Rattle.h3_tree.specs.PostOrder.{post_order_key};

use h3_index::Cell;
use h3_tree::laws::cells_form_intervals;
use h3_tree::post_order_key;

/// Shows that all cells of a list are valid, for proofs. It has no effect.
pub(crate) fn are_cells(cells: &[Cell])
    ensures { All IsCell cells.now }
{
    for cell in cells {
        let _raw = cell.raw();
    }
}

/// Shows that the cells of all pairs are valid, for proofs. It has no effect.
pub(crate) fn have_cells(pairs: &[(Cell, u32)])
    ensures { All (λ p. IsCell p.0) pairs.now }
{
    for pair in pairs {
        let _raw = pair.0.raw();
    }
}

/// Puts pairs in the post order of their cells.
pub(crate) fn put_pairs_in_order(pairs: &mut [(Cell, u32)])
    ensures same { IsPermutation pairs.old pairs.new }
    ensures in_order { AllPairs (λ p q. post_order_key p.0 ≤ post_order_key q.0) pairs.new }
{
    pairs.sort_unstable_by_key(|p: &(Cell, u32)| post_order_key(p.0));
}

/// Whether the first cell is the second or below it, where it does not come after it in post order.
pub(crate) fn is_below(cell: Cell, later: Cell) -> bool
    requires { post_order_key cell ≤ post_order_key later }
    ensures { IsTrue result ↔ IsAncestor later cell }
{
    cells_form_intervals();
    post_order_key(later) - post_order_key(cell) < later.last_digit_step()
}
