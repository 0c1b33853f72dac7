//! The order of the slots between rounds: each cell right after its descendants, so that one sort
//! serves all rounds. In order of their numbers, each merge would move a cell to the front.

ghost use Rattle.std.specs.Prelude.{◌≡◌, ◌≤◌, true, All, AllPairs, IsPermutation};
ghost use Rattle.h3_index.specs.Cell.{IsCell, number_of};
ghost use Rattle.h3_set.specs.Order.{IsInOrder, IsBeforeBlock};
ghost use Rattle.h3_set.specs.Refusals.{has_overlap};

use h3_index::Cell;
use h3_tree::laws::cells_form_intervals;
use h3_tree::post_order_key;

/// Puts cells in post order: by `post_order_key`, so that each comes right after those below it.
/// Where they are in order already, that takes one pass.
pub fn put_in_order(cells: &mut [Cell])
    ensures same { IsPermutation cells.old cells.new }
    ensures in_order { IsInOrder cells.new }
{
    cells.sort_unstable_by_key(|c: &Cell| post_order_key(*c));
}

/// Puts cells in ascending order of their numbers.
pub(crate) fn put_by_number(cells: &mut [Cell])
    ensures same { IsPermutation cells.old cells.new }
    ensures ascending { AllPairs (λ a b. number_of a ≤ number_of b) cells.new }
{
    cells.sort_unstable();
}

/// Whether cells at two places of a list overlap: one is the other, or stands above it. The list
/// must be in post order, as `put_in_order` leaves it: then two neighboring ones do.
pub fn has_overlap(cells: &[Cell]) -> bool
    requires valid { All IsCell cells.now }
    requires in_order { IsInOrder cells.now }
    ensures { result ≡ has_overlap cells.now }
{
    cells_form_intervals();
    for i in 1..cells.len() {
        let before = cells[i - 1];
        let cell = cells[i];
        // `before` comes before `cell`; where it does not come before all cells below `cell`, whose
        // keys with its own are as many as its unit, it is one of them.
        if post_order_key(cell) < post_order_key(before) + cell.last_digit_step() {
            return true;
        }
    }
    false
}

/// Puts cells in order, and returns whether cells at two places overlap. Where they are known to be
/// in order with no two that overlap, nothing is to be done.
pub(crate) fn sort_and_find_overlap(cells: &mut [Cell], rises: bool) -> bool
    requires valid { All IsCell cells.old }
    requires rises { rises ≡ true → AllPairs IsBeforeBlock cells.old }
    ensures same { IsPermutation cells.old cells.new }
    ensures in_order { IsInOrder cells.new }
    ensures overlap { result ≡ has_overlap cells.old }
{
    if rises {
        cells_form_intervals();
        return false;
    }
    put_in_order(cells);
    has_overlap(cells)
}
