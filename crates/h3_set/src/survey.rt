//! The resolutions of the cells of a list.

ghost use Rattle.std.specs.Prelude.{◌≡◌, ◌≤◌, true, All, AllPairs};
ghost use Rattle.h3_index.specs.Cell.{IsCell};
ghost use Rattle.h3_set.specs.Coverage.{finest};
ghost use Rattle.h3_set.specs.Order.{IsBeforeBlock};

use h3_index::Cell;
use h3_tree::post_order_key;

/// The finest resolution of the cells of a list, 0 where there are none, and whether they are known
/// to be in order with no two of them that overlap.
pub(crate) fn survey(cells: &[Cell]) -> (u8, bool)
    ensures finest { result.0 ≡ finest cells.now }
    ensures at_most_fifteen { result.0 ≤ 15 }
    ensures valid { All IsCell cells.now }
    ensures rises { result.1 ≡ true → AllPairs IsBeforeBlock cells.now }
{
    let mut finest: u8 = 0;
    let mut rises = true;
    let mut end: u64 = 0;
    for cell in cells {
        finest = finest.max(cell.resolution());
        let next = post_order_key(*cell) + 1;
        // without a branch: the last cell comes before this one and all cells below it, whose keys
        // are as many as the cell's unit
        rises = rises & (end + cell.last_digit_step() <= next);
        end = next;
    }
    (finest, rises)
}
