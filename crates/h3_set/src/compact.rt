//! Compaction: the one list of cells that covers those of a list, with no overlap and no complete
//! set of siblings.

ghost use Rattle.std.specs.Prelude.{◌≡◌, ◌≤◌, length, take, drop, All, IfOk, IsPermutation};
ghost use Rattle.std.specs.Result.{result_err};
ghost use Rattle.h3_index.specs.Cell.{IsCell};
ghost use Rattle.h3_set.specs.Compacted.{compacted, IsCompacted};
ghost use Rattle.h3_set.specs.Coverage.{finest, IsApart, IsCovered};
ghost use Rattle.h3_set.specs.Laws.{CompactedListsAreUnique};
ghost use Rattle.h3_set.specs.Order.{IsInOrder};
ghost use Rattle.h3_set.specs.Refusals.{compaction_refusal};

use crate::closing::compact_apart;
use crate::laws::compacted_lists_are_unique;
use crate::order::{put_by_number, sort_and_find_overlap};
use crate::survey::survey;
use h3_index::laws::cells_are_listed;
use h3_index::{Cell, H3Error};
use h3_tree::laws::cells_form_trees;

/// Puts the compacted list of the cells into the first slots and returns how many cells it has: the
/// one ascending list of cells, of which no two overlap, that covers exactly the cells given and
/// holds no complete set of siblings. It allocates nothing.
///
/// H3's `compactCells` takes cells of one resolution. Here they may have any, so lists that were
/// compacted before can be compacted together. A list may be divided into parts in any way:
/// compacting each part, and then what this gives, one list after the other, gives the compacted
/// list of the whole.
///
/// There must be at least as many slots as cells, n. The slots after the first n stay as they are;
/// those of the first n that are after the list may hold any cells.
///
/// The further laws of compacted lists are those of [`compacted_lists_are_unique`] and
/// [`coverages_decide_lists`](crate::laws::coverages_decide_lists).
///
/// # Errors
///
/// `DuplicateInput` if cells at two places overlap: a cell is listed twice, or together with an
/// ancestor of it. The first n slots then hold the cells in some order.
pub fn compact_cells(cells: &[Cell], slots: &mut [Cell]) -> Result<usize, H3Error>
    requires { length cells.now ≤ length slots.old }
    ensures compacted { IfOk result (λ m. IsCompacted
        (IsCovered cells.now (finest cells.now)) (finest cells.now) (take m slots.new)) }
    ensures is { IfOk result (λ m. take m slots.new ≡ compacted cells.now) }
    ensures fewer { IfOk result (λ m. m ≤ length cells.now) }
    ensures refused { result_err result ≡ compaction_refusal cells.now }
    ensures overlapping { result ≡ Err H3Error.DuplicateInput
        → IsPermutation cells.now (take (length cells.now) slots.new) }
    ensures others { drop (length cells.now) slots.new ≡ drop (length cells.now) slots.old }
    ensures unique { CompactedListsAreUnique }
{
    compacted_lists_are_unique();
    let count = cells.len();
    slots[..count].copy_from_slice(cells);
    compact_in_place(&mut slots[..count])
}

/// Puts cells in order. `DuplicateInput` where cells at two places overlap.
fn order_apart(cells: &mut [Cell]) -> Result<(), H3Error>
    ensures same { IsPermutation cells.old cells.new }
    ensures valid { All IsCell cells.old }
    ensures in_order { IsInOrder cells.new }
    ensures apart { IfOk result (λ _. IsApart cells.new) }
    ensures refused { result_err result ≡ compaction_refusal cells.old }
{
    let (_, rises) = survey(cells);
    if sort_and_find_overlap(cells, rises) {
        return Err(H3Error::DuplicateInput);
    }
    Ok(())
}

/// As `compact_in_place`, without its last sort: the cells of the compacted list stand in post
/// order, as `put_in_order` leaves them, and not in ascending order. If the cells are in post order
/// already, nothing is sorted.
///
/// # Errors
///
/// `DuplicateInput` if cells at two places overlap. The cells are then the same, in some order.
pub fn compact_in_order(cells: &mut [Cell]) -> Result<usize, H3Error>
    ensures list { IfOk result (λ m. IsPermutation (compacted cells.old) (take m cells.new)) }
    ensures in_order { IfOk result (λ m. IsInOrder (take m cells.new)) }
    ensures fewer { IfOk result (λ m. m ≤ length cells.old) }
    ensures refused { result_err result ≡ compaction_refusal cells.old }
    ensures overlapping { result ≡ Err H3Error.DuplicateInput
        → IsPermutation cells.old cells.new }
{
    cells_form_trees();
    cells_are_listed();
    order_apart(cells)?;
    Ok(compact_apart(cells))
}

/// As `compact_cells`, in the memory of the cells themselves: puts the compacted list of the cells
/// into the first of them and returns how many cells it has. Those after the list may be any cells.
/// It allocates nothing.
///
/// # Errors
///
/// `DuplicateInput` if cells at two places overlap. The cells are then the same, in some order.
pub fn compact_in_place(cells: &mut [Cell]) -> Result<usize, H3Error>
    ensures compacted { IfOk result (λ m. IsCompacted
        (IsCovered cells.old (finest cells.old)) (finest cells.old) (take m cells.new)) }
    ensures is { IfOk result (λ m. take m cells.new ≡ compacted cells.old) }
    ensures fewer { IfOk result (λ m. m ≤ length cells.old) }
    ensures refused { result_err result ≡ compaction_refusal cells.old }
    ensures overlapping { result ≡ Err H3Error.DuplicateInput
        → IsPermutation cells.old cells.new }
{
    cells_form_trees();
    cells_are_listed();
    order_apart(cells)?;
    let count = compact_apart(cells);
    put_by_number(&mut cells[..count]);
    Ok(count)
}
