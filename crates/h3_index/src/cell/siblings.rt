//! The children of one cell: all of them, and the step from one to the next, which is one addition.

ghost use Rattle.std.specs.Prelude.{◌≡◌, ◌<◌, ◌-◌, ◌^◌, IfSome, is_some};
ghost use Rattle.h3_index.specs.Cell.{IsCell, resolution};
ghost use Rattle.h3_index.specs.Siblings.{has_raised, raised};

use super::Cell;
use std::marker::Model;

/// All children of a cell, one level below it: six below a pentagon, and seven below any other
/// cell. Contracts see their parent.
#[derive(Debug, Drop)]
pub struct Siblings {
    parent: Cell,
}

impl Model for Siblings {
    ghost use Rattle.std.specs.Prelude.{◌<◌};
    ghost use Rattle.h3_index.specs.Cell.{Address, resolution};

    ghost Value = { Address };

    ghost view = { λ s. s.parent };

    ghost invariant = { λ s. resolution s.parent < 15 };
}

impl Siblings {
    /// The children of a cell coarser than resolution 15.
    pub fn below(parent: Cell) -> Siblings
        requires { resolution parent < 15 }
        ensures { result ≡ parent }
    {
        Siblings { parent }
    }

    /// The cell that they are the children of.
    pub fn parent(&self) -> Cell
        ensures is { result ≡ self.now }
        ensures coarse { resolution result < 15 }
    {
        self.parent
    }
}

impl Cell {
    /// How much one more in its last digit adds to the cell's number. It is the same for all cells
    /// of a resolution, so a walk over them need not find the bits of that digit for each.
    #[inline(always)]
    pub fn last_digit_step(self) -> u64
        ensures is { result ≡ 8 ^ (15 - resolution self) }
        ensures valid { IsCell self }
    {
        1 << (3 * (15 - self.resolution()))
    }

    /// The cell under the same parent whose last digit is one more; `None` where there is none,
    /// which is so at resolution 0, after the digit 6, and at a pentagon. The cell's `last_digit_step` must be
    /// given.
    #[inline(always)]
    pub fn raised(self, last_digit_step: u64) -> Option<Cell>
        requires { last_digit_step ≡ 8 ^ (15 - resolution self) }
        ensures is { IfSome result (λ next. next ≡ raised self) }
        ensures some { is_some result ≡ has_raised self }
    {
        let last = self.raw & 7 * last_digit_step;
        if last_digit_step == 1 << 45
            || last == 6 * last_digit_step
            || last == 0 && self.is_pentagon()
        {
            return None;
        }
        Some(Cell {
            raw: self.raw + last_digit_step,
        })
    }
}
