//! Lists of cells into C's memory.

ghost use Rattle.std.specs.Prelude.{◌≡◌, nat_le, length, List, Result, IfOk};
ghost use Rattle.std.specs.Iterator.{AlwaysYields, IsFinite};
ghost use Rattle.h3_index.specs.Cell.{Address};
ghost use Rattle.h3_index.specs.declared.error.H3Error.{H3Error};
ghost use Rattle.h3_functions.specs.Items.{Lists};
ghost use Rattle.h3_c.specs.Lists.{indexes, laid_over, list_code, list_over};

use crate::column::MEMORY_BOUNDS;
use h3_index::{Cell, H3Error};

/// Puts the indexes of the cells of an iterator into the first slots, as far as they go, and
/// returns whether all had room.
#[inline(always)]
pub(crate) fn put_cells<I: Iterator<Item = Cell> + Drop>(out: &mut [u64], cells: I) -> bool
    requires can { I.can_next cells }
    requires ends { IsFinite (I.remaining cells) }
    ensures fits { (all : List Address) → AlwaysYields I.next_gives (λ x. x) cells all →
        result ≡ nat_le (length all) (length out.old) }
    ensures put { (all : List Address) → AlwaysYields I.next_gives (λ x. x) cells all →
        out.new ≡ laid_over (indexes all) out.old }
{
    let mut i: usize = 0;
    for cell in cells {
        if i >= out.len() {
            return false;
        }
        out[i] = cell.raw();
        i += 1;
    }
    true
}

/// Puts the indexes of the cells into the first slots, as far as they go. Returns 0, or
/// `MEMORY_BOUNDS` where there is too little room, or the number of the error.
#[inline(always)]
pub(crate) fn put_list<I: Iterator<Item = Cell> + Drop>(
    out: &mut [u64],
    cells: Result<I, H3Error>,
) -> u32
    requires can { IfOk cells (λ items. I.can_next items) }
    requires ends { IfOk cells (λ items. IsFinite (I.remaining items)) }
    ensures code { (all : Result (List Address) H3Error) → Lists I.next_gives cells all →
        result ≡ list_code all (length out.old) }
    ensures list { (all : Result (List Address) H3Error) → Lists I.next_gives cells all →
        out.new ≡ list_over all out.old }
{
    match cells {
        Ok(items) => {
            if put_cells(out, items) {
                0
            } else {
                MEMORY_BOUNDS
            }
        }
        Err(error) => u32::from(error.number()),
    }
}
