//! The classes of resolutions, and carries.

ghost use Rattle.std.specs.Prelude.{◌≡◌, ◌≤◌, ◌<◌};
ghost use Rattle.h3_directions.specs.Direction.{value_of};
ghost use Rattle.h3_lattice.specs.Class.{class_at, row_of, IsCarry, IsOnlyCarry, IsSumIn};
ghost use Rattle.h3_lattice.specs.declared.class.Class.{Class};
ghost use Rattle.h3_directions.specs.declared.direction.Direction.{Direction};

use crate::carries::CARRIES;
use h3_directions::{DIRECTIONS, Direction};

/// The class of a resolution. It has the multiplier by which the grid of that resolution is finer
/// than the one before.
#[derive(Clone, Copy, Debug, PartialEq, Eq)]
pub enum Class {
    /// Class II, the even resolutions. Their multiplier is 3 + w.
    Two,

    /// Class III, the odd resolutions, those of which H3's `isResClassIII` is true. Their
    /// multiplier is 2 - w.
    Three,
}

impl Class {
    /// The class of a resolution.
    pub fn at(res: u8) -> Class
        ensures { result ≡ class_at res }
    {
        if res % 2 == 1 {
            Class::Three
        } else {
            Class::Two
        }
    }
}

/// The row of the carry tables for a direction at a resolution of a class.
#[inline(always)]
pub(crate) fn row_of(class: Class, direction: Direction) -> usize
    ensures { result ≡ row_of class direction }
{
    let digit = direction.digit() as usize;
    match class {
        Class::Two => digit,
        Class::Three => digit + 6,
    }
}

/// The direction of a row of the carry tables.
pub(crate) fn direction_in(row: usize) -> Direction
    requires some { 1 ≤ row }
    requires below { row < 13 }
    ensures { (class : Class) → (d : Direction) → row ≡ row_of class d → result ≡ d }
{
    DIRECTIONS[(row - 1) % 6]
}

/// What a digit of 0 to 6 and the direction of a row add up to: the digit that is left, and the row
/// of the direction that is carried, which is 0 where none is.
#[inline(always)]
pub(crate) fn sum_in(row: usize, digit: u8) -> (u8, usize)
    requires below { row < 13 }
    requires digit { digit ≤ 6 }
    ensures sum { (class : Class) → (d : Direction) → row ≡ row_of class d →
        IsSumIn class digit d result.0 result.1 }
    ensures below { result.1 < 13 }
{
    let column = digit as usize;
    (
        CARRIES.left[row][column],
        CARRIES.carried[row][column] as usize,
    )
}

/// What a digit and a direction add up to at a resolution of a class: the digit that is left, and
/// the direction that is carried to the next coarser resolution, where there is one. Digits are 0
/// to 6.
pub fn carry(class: Class, digit: u8, direction: Direction) -> (u8, Option<Direction>)
    requires { digit ≤ 6 }
    ensures digit { result.0 ≤ 6 }
    ensures sum { IsCarry class digit direction (value_of result.1) result.0 }
    ensures only { IsOnlyCarry class digit direction (value_of result.1) result.0 }
{
    let (left, row) = sum_in(row_of(class, direction), digit);
    if row == 0 {
        return (left, None);
    }
    (left, Some(direction_in(row)))
}
