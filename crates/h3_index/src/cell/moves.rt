//! Moves from one cell to another: up and down the hierarchy, and at its own resolution.

ghost use Rattle.std.specs.Prelude.{◌≡◌, ◌≢◌, ◌<◌, ◌≤◌, true, false};
ghost use Rattle.h3_index.specs.Cell.{IsCell, is_pentagon, is_pentagon_base, resolution};
ghost use Rattle.h3_index.specs.Count.{base_cell};
ghost use Rattle.h3_index.specs.Descendants.{center_descendant, child, ancestor_at};
ghost use Rattle.h3_index.specs.Moves.{with_base, with_digit};

use super::Cell;

impl Cell {
    /// The cell of resolution 0 in a base cell, 0 to 121.
    pub fn in_base(base: u8) -> Cell
        requires { base < 122 }
        ensures is { result ≡ base_cell base }
        ensures valid { IsCell result }
    {
        Cell {
            raw: 0x0800_1fff_ffff_ffff + (u64::from(base) << 45),
        }
    }

    /// The ancestor at a resolution that is not finer than the cell's:
    /// the digits above it are dropped.
    pub fn ancestor_at(self, r: u8) -> Cell
        requires { r ≤ resolution self }
        ensures is { result ≡ ancestor_at self r }
        ensures valid { IsCell result }
    {
        let own = u64::from(self.resolution()) << 52;
        // (what does not hang on the cell is one number, which a loop over cells makes once)
        let unused: u64 = (1 << (3 * (15 - r))) - 1;
        Cell {
            raw: self.raw - own | (u64::from(r) << 52) + unused,
        }
    }

    /// The cell of a digit, 0 to 6, one level below a cell coarser than resolution 15.
    /// A pentagon has none of digit 1.
    pub fn child(self, digit: u8) -> Cell
        requires coarse { resolution self < 15 }
        requires at_most_six { digit < 7 }
        requires not_deleted { is_pentagon self ≡ true → digit ≢ 1 }
        ensures is { result ≡ child self digit }
        ensures valid { IsCell result }
    {
        let places = 3 * (14 - self.resolution());
        Cell {
            raw: self.raw + (1 << 52) - (u64::from(7 - digit) << places),
        }
    }

    /// The descendant at a resolution that is not coarser than the cell's
    /// whose further digits are 0.
    pub fn center_descendant(self, r: u8) -> Cell
        requires not_coarser { resolution self ≤ r }
        requires at_most_fifteen { r ≤ 15 }
        ensures is { result ≡ center_descendant self r }
        ensures valid { IsCell result }
    {
        let places = 3 * (15 - self.resolution());
        let finer = u64::from(r - self.resolution()) << 52;
        let ones: u64 = 1 << (3 * (15 - r));
        Cell {
            raw: self.raw + finer + ones - (1 << places),
        }
    }

    /// The cell with this digit, 0 to 6, at a resolution from 1 up to its own, and all else as it
    /// is, as H3's `H3_SET_INDEX_DIGIT` sets it. The cell's base cell must be no pentagon, so that
    /// no digits are deleted there.
    pub fn with_digit(self, r: u8, digit: u8) -> Cell
        requires some { 1 ≤ r }
        requires at_most { r ≤ resolution self }
        requires at_most_six { digit < 7 }
        requires hexagon { is_pentagon_base self.base ≡ false }
        ensures is { result ≡ with_digit self r digit }
        ensures valid { IsCell result }
    {
        let places = 45 - 3 * r;
        let old = u64::from(self.digit(r)) << places;
        Cell {
            raw: self.raw - old + (u64::from(digit) << places),
        }
    }

    /// The cell with this base cell, 0 to 121, and the same digits, as H3's `H3_SET_BASE_CELL` sets
    /// it. The new base cell must be no pentagon.
    pub fn with_base(self, base: u8) -> Cell
        requires small { base < 122 }
        requires hexagon { is_pentagon_base base ≡ false }
        ensures is { result ≡ with_base self base }
        ensures valid { IsCell result }
    {
        let old = u64::from(self.base_cell()) << 45;
        Cell {
            raw: self.raw - old + (u64::from(base) << 45),
        }
    }
}
