//! Sums of a cell and a direction.

ghost use Rattle.std.specs.Prelude.{◌≡◌, false};
ghost use Rattle.h3_index.specs.Cell.{is_pentagon_base, resolution, IsCell};
ghost use Rattle.h3_lattice.specs.Expansion.{ExpansionsAreUnique, PlacesAreSums};
ghost use Rattle.h3_lattice.specs.Moved.{IsMoved, IsSum};

use crate::class::{Class, direction_in, row_of, sum_in};
use crate::digits::Digits;
use h3_directions::Direction;
use h3_index::Cell;

/// Where the sum of a cell and a direction lies.
#[derive(Clone, Copy, Debug, PartialEq, Eq)]
pub enum Moved {
    /// In the cell's own base cell.
    Inside(Cell),

    /// Across the border of the base cell in this direction. The digits are those that the sum has
    /// in the frame of the base cell that was left.
    Across(Direction, Digits),
}

/// The sum of a cell and a direction, for a cell that is in no pentagon base cell: the direction's
/// unit is added to the cell's place. It is the part of H3's `h3NeighborRotations` before the
/// crossing into another base cell.
pub fn add(cell: Cell, direction: Direction) -> Moved
    requires { is_pentagon_base cell.base ≡ false }
    ensures is { IsMoved cell direction result }

    // Laws of expansions: there is always one, and no other; the place is the sum of the digits'
    // own places.
    ensures unique { ExpansionsAreUnique }
    ensures places { PlacesAreSums }
{
    add_at(cell, cell.resolution(), direction)
}

/// As [`add`], where the resolution of the cell is given: a walk stays at one.
#[inline(always)]
pub fn add_at(cell: Cell, res: u8, direction: Direction) -> Moved
    requires hexagon { is_pentagon_base cell.base ≡ false }
    requires res { res ≡ resolution cell }
    ensures { IsMoved cell direction result }
{
    // The proof takes from this that the cell is a valid cell.
    let _resolution = cell.resolution();
    let mut moved = cell;
    let mut row = row_of(Class::at(res), direction);
    // from the finest digit on towards that of resolution 1, while something is carried
    for done in 0..res {
        let r = res - done;
        let (digit, carried) = sum_in(row, moved.digit(r));
        moved = moved.with_digit(r, digit);
        if carried == 0 {
            return Moved::Inside(moved);
        }
        row = carried;
    }
    Moved::Across(direction_in(row), Digits::of(moved))
}
