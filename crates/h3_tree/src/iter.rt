//! The iterator over the descendants of a cell.

ghost use Rattle.std.specs.Prelude.{◌≡◌, ◌≤◌, ◌-◌, ◌^◌};
ghost use Rattle.std.specs.Iterator.{YieldsFirst, item_count};
ghost use Rattle.h3_index.specs.Cell.{IsCell, resolution};
ghost use Rattle.h3_index.specs.Descendants.{descendants};
ghost use Rattle.h3_tree.specs.Iter.{following};

use crate::descendants::size_at;
use h3_index::Cell;
use h3_index::laws::{descendants_are_listed, paths_are_chains};

/// The next cell of the same base cell and resolution; after the last one, the last one itself.
// It is called once in seven cells, and inlined it would take registers from the others.
#[inline(never)]
fn following(cell: Cell) -> Cell
    ensures { result ≡ following cell }
{
    let resolution = cell.resolution();
    let mut r = resolution;
    while r > 0 {
        let digit = cell.digit(r);
        if digit != 6 {
            let above = cell.ancestor_at(r - 1);
            let step = if digit == 0 && above.is_pentagon() {
                2
            } else {
                digit + 1
            };
            return above.child(step).center_descendant(resolution);
        }
        r -= 1;
    }
    cell
}

/// The next cell, which six times in seven has the same parent. The cell's unit is given.
#[inline(always)]
fn next_cell(cell: Cell, last_digit_step: u64) -> Cell
    requires { last_digit_step ≡ 8 ^ (15 - resolution cell) }
    ensures { result ≡ following cell }
{
    match cell.raised(last_digit_step) {
        Some(next) => next,
        None => following(cell),
    }
}

/// The descendants of a cell at one resolution, in ascending order. It holds the next of them, how
/// much one more in its last digit adds to its number, and how many are left.
#[derive(Clone, Copy, Debug)]
pub struct Children {
    next: Cell,
    last_digit_step: u64,
    left: u64,
    ghost unit_is: { last_digit_step ≡ 8 ^ (15 - resolution next) },
}

impl Children {
    ghost use Rattle.h3_tree.specs.Children.{children_left};

    /// All descendants of a cell at a resolution.
    pub(crate) fn below(cell: Cell, r: u8) -> Children
        requires not_coarser { resolution cell ≤ r }
        requires at_most_fifteen { r ≤ 15 }
        ensures list { children_left result ≡ descendants cell r }
        ensures valid { IsCell cell }
    {
        paths_are_chains();
        let next = cell.center_descendant(r);
        Children {
            next,
            last_digit_step: next.last_digit_step(),
            left: size_at(cell, r),
        }
    }
}

impl Iterator for Children {
    ghost use Rattle.h3_tree.specs.Children.{children_left};

    type Item = Cell;

    ghost next_gives = { YieldsFirst children_left };

    ghost remaining = { item_count children_left };

    #[inline(always)]
    fn next(&mut self) -> Option<Cell> {
        if self.left == 0 {
            return None;
        }
        let cell = self.next;
        self.left -= 1;
        // After the last cell none is asked for: a list of one cell is common.
        if self.left > 0 {
            self.next = next_cell(self.next, self.last_digit_step);
        }
        Some(cell)
    }
}
