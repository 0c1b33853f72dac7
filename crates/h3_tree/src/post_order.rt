//! An order of cells in which each cell comes right after its descendants.

ghost use Rattle.std.specs.Prelude.{◌≡◌};
ghost use Rattle.h3_index.specs.Cell.{IsCell};
ghost use Rattle.h3_tree.specs.PostOrder.{post_order_key};

use h3_index::Cell;

/// A key to sort cells by, so that each cell comes right after its descendants and siblings stand
/// side by side: the cell's number without its mode and resolution.
pub fn post_order_key(cell: Cell) -> u64
    ensures is { result ≡ post_order_key cell }
    ensures valid { IsCell cell }
{
    cell.raw() & 0xf_ffff_ffff_ffff
}
