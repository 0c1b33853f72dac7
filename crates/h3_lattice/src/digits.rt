//! Digit lists.

ghost use Rattle.std.specs.Prelude.{◌≡◌, ◌-◌, ◌<◌, ◌≤◌, [], ◌∷◌, ◌++◌, length, map, slice_index_or, false};
ghost use Rattle.h3_index.specs.Cell.{is_pentagon_base, IsCell};
ghost use Rattle.h3_directions.specs.Eisenstein.{product_of};
ghost use Rattle.h3_directions.specs.Direction.{digit_turned, turning, AreTurned};
ghost use Rattle.h3_lattice.specs.Digits.{cell_of, IsDigits};
ghost use Rattle.h3_lattice.specs.Expansion.{place};

use h3_index::Cell;
use std::marker::Model;

/// The digits of a cell without its base cell: a digit of 0 to 6 for each resolution from 1 up to
/// its own.
///
/// They are held in one `u64`, the number of the cell of base cell 0 that has them. Base cell 0 is
/// no pentagon, so each list of at most 15 digits of 0 to 6 is that of a cell there.
#[derive(Clone, Copy, Debug, PartialEq, Eq)]
pub struct Digits {
    cell: Cell,
}

impl Model for Digits {
    ghost use Rattle.std.specs.Prelude.{◌≡◌, ℕ, List};
    ghost use Rattle.h3_lattice.specs.Digits.{cell_of};

    ghost Value = { List ℕ };

    ghost view = { λ d. d.cell.digits };

    ghost invariant = { λ d. 0 ≡ d.cell.base };

    ghost inverse = { λ ds. record { cell = cell_of 0 ds } };

    ghost inverse_ok = { λ d h i. record { cell = record { base = h i; digits = d.cell.digits } } };
}

/// A row for each number of turns from 0 on: each digit turned that many times.
static TURNED: [[u8; 7]; 6] = [
    [0, 1, 2, 3, 4, 5, 6],
    [0, 5, 3, 1, 6, 4, 2],
    [0, 4, 1, 5, 2, 6, 3],
    [0, 6, 5, 4, 3, 2, 1],
    [0, 2, 4, 6, 1, 3, 5],
    [0, 3, 6, 2, 5, 1, 4],
];

/// A digit of 0 to 6 turned n times.
fn turned_digit(digit: u8, n: u8) -> u8
    requires { digit < 7 }
    ensures { result ≡ digit_turned n digit }
{
    TURNED[n as usize % 6][digit as usize]
}

impl Digits {
    /// The digits of a cell.
    pub(crate) fn of(cell: Cell) -> Digits
        ensures is { result ≡ cell.digits }
        ensures valid { IsDigits result }
    {
        Digits {
            cell: cell.with_base(0),
        }
    }

    /// How many digits there are, 0 to 15.
    pub fn resolution(self) -> u8
        ensures number { result ≡ length self }
        ensures valid { IsDigits self }
    {
        self.cell.resolution()
    }

    /// The digit of a resolution from 1 to 15: 0 to 6, or 7 above the list's own resolution.
    pub fn digit(self, r: u8) -> u8
        requires some { 1 ≤ r }
        requires at_most { r ≤ 15 }
        ensures { result ≡ slice_index_or self (r - 1) 7 }
    {
        self.cell.digit(r)
    }

    /// Each digit turned n times, each turn 60 degrees counter-clockwise. The digit 0 stays. So the
    /// place is multiplied by the n-th power of 1 + w.
    // Few steps need it. Inlined, its loop would take registers from all of them.
    #[inline(never)]
    pub fn turned(self, n: u8) -> Digits
        ensures digits { result ≡ map (digit_turned n) self }
        ensures products { AreTurned n self result }
        ensures place { place result ≡ product_of (turning n) (place self) }
        ensures valid { IsDigits result }
    {
        let mut turned = self.cell;
        for r in 1..self.resolution() + 1 {
            turned = turned.with_digit(r, turned_digit(self.digit(r), n));
        }
        Digits { cell: turned }
    }

    /// The cell of a base cell that has these digits. The base cell is 0 to 121 and no pentagon, so
    /// that no digits are deleted there.
    pub fn at(self, base: u8) -> Cell
        requires some { base < 122 }
        requires hexagon { is_pentagon_base base ≡ false }
        ensures is { result ≡ cell_of base self }
        ensures valid { IsCell result }
    {
        self.cell.with_base(base)
    }
}
