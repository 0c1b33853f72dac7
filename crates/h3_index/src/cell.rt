//! Cells, each a base cell and a digit for each resolution up to its own.

ghost use Rattle.std.specs.Prelude.{◌≡◌, ◌≢◌, ◌-◌, ◌^◌, ◌<◌, ◌≤◌, ◌==◌, ◌&&◌, nat_lt, IfOk, IfErr, take, drop, slice_index_or};
ghost use Rattle.std.specs.Int.Digits.{number_from_digits};
ghost use Rattle.std.specs.List.{list_all};
ghost use Rattle.std.specs.Result.{result_ok};
ghost use Rattle.h3_index.specs.Cell.{Address, IsCell, is_class_iii, is_pentagon, is_pentagon_base, leading, number_of, resolution};
ghost use Rattle.h3_index.specs.CellNumber.{address_in, cell_in, digits_in, IsCellNumber};
ghost use Rattle.h3_index.specs.Digits.{last_digits};
ghost use Rattle.h3_index.specs.DigitTest.{are_digits};

mod moves;
mod siblings;

use crate::error::H3Error;
pub use siblings::Siblings;
use std::marker::Model;

/// A bit for each base cell below 64 that is a pentagon.
const LOW_PENTAGON_BASES: u64 = 1 << 4 | 1 << 14 | 1 << 24 | 1 << 38 | 1 << 49 | 1 << 58 | 1 << 63;

/// A bit for each of the other base cells that is one: for base cell 64 the lowest.
const HIGH_PENTAGON_BASES: u64 = 1 << 8 | 1 << 19 | 1 << 33 | 1 << 43 | 1 << 53;

/// Whether a base cell is one of the twelve pentagons.
#[inline(always)]
pub fn is_pentagon_base(b: u8) -> bool
    ensures { result ≡ is_pentagon_base b }
{
    let bases = if b < 64 {
        LOW_PENTAGON_BASES
    } else {
        HIGH_PENTAGON_BASES
    };
    // (as in a cell, no number of a base cell has more than seven bits)
    (b < 128) & (bases >> (b & 63) & 1 == 1)
}

/// Whether of the last fifteen octal digits of a number those after a place are 7, and no others.
#[inline(always)]
fn is_seven_after(raw: u64, place: u64) -> bool
    requires { place < 16 }
    ensures { result ≡ list_all (λ d. nat_lt d 7) (take place (digits_in raw))
        && list_all (λ d. d == 7) (drop place (digits_in raw)) }
{
    // A digit is 7 where its three bits are all set. A bit is left for each such digit, its lowest.
    raw & raw >> 1 & raw >> 2 & 0o111_111_111_111_111 == 0o111_111_111_111_111 >> (3 * place)
}

/// Whether the first octal digit that is not 0 of the last fifteen of a number is 1.
#[inline(always)]
fn leads_with_one(digits: u64) -> bool
    ensures { result ≡ (leading (last_digits 8 15 digits) == 1) }
{
    // It is 1 exactly where the highest bit of all is the lowest of its digit: then these bits make
    // a larger number than the others.
    digits & 0o111_111_111_111_111 > digits & 0o666_666_666_666_666
}

/// Whether the fifteen digits of a number are those of a cell in a base cell: 0 to 6 up to the
/// resolution, and 7 above. In a pentagon base cell the first that is not 0 is not 1.
#[inline(always)]
fn has_valid_digits(raw: u64, resolution: u64, base: u8) -> bool
    requires { resolution < 16 }
    ensures { result ≡ are_digits (is_pentagon_base base) resolution (digits_in raw) }
{
    // (no operand is skipped, so that there is no branch; a digit that is 7 leads with no 1)
    is_seven_after(raw, resolution) & !(leads_with_one(raw) & is_pentagon_base(base))
}

/// A valid H3 cell. Cells are ordered by their numbers: by resolution, then base cell, then digits.
/// In memory a cell is its number, also for C.
#[repr(C)]
#[derive(Clone, Copy, Debug, PartialEq, Eq, PartialOrd, Ord, Hash)]
pub struct Cell {
    raw: u64,
}

impl Model for Cell {
    ghost use Rattle.h3_index.specs.Cell.{Address, number_of};
    ghost use Rattle.h3_index.specs.CellNumber.{address_in, IsCellNumber};

    ghost Value = { Address };

    ghost view = { λ c. address_in c.raw };

    ghost invariant = { λ c. IsCellNumber c.raw };

    ghost inverse = { λ c. record { raw = number_of c } };

    ghost inverse_ok = { λ c h i. record { raw = h.is i } };
}

impl Cell {
    /// Returns the cell with this number, as H3's `isValidCell` tests it.
    ///
    /// # Errors
    ///
    /// `CellInvalid` if the number is not a valid cell.
    #[inline(always)]
    pub fn new(raw: u64) -> Result<Cell, H3Error>
        ensures read { result_ok result ≡ cell_in raw }
        ensures accepted { IfOk result (λ cell. IsCell cell × (number_of cell ≡ raw)) }
        ensures refused { IfErr result (λ e. (e ≡ H3Error.CellInvalid)
            × ((cell : Address) → IsCell cell → number_of cell ≢ raw)) }
    {
        let resolution = raw >> 52 & 15;
        let base = raw >> 45 & 127;
        let is_cell = (raw >> 56 == 8)
            & (base < 122)
            & has_valid_digits(raw, resolution, base as u8);
        if is_cell {
            Ok(Cell { raw })
        } else {
            Err(H3Error::CellInvalid)
        }
    }

    /// The cell with a number that is known to be a cell's.
    pub(crate) fn from_number(raw: u64) -> Cell
        requires { IsCellNumber raw }
        ensures { result ≡ address_in raw }
    {
        Cell { raw }
    }

    /// The number of the cell.
    pub fn raw(self) -> u64
        ensures number { result ≡ number_of self }
        ensures valid { IsCell self }
    {
        self.raw
    }

    /// The resolution, 0 to 15, as H3's `getResolution` gives it.
    pub fn resolution(self) -> u8
        ensures number { result ≡ resolution self }
        ensures valid { IsCell self }
    {
        (self.raw >> 52 & 15) as u8
    }

    /// The base cell, 0 to 121, as H3's `getBaseCellNumber` gives it.
    pub fn base_cell(self) -> u8
        ensures number { result ≡ self.base }
        ensures valid { IsCell self }
    {
        (self.raw >> 45 & 127) as u8
    }

    /// The digit of a resolution from 1 to 15: 0 to 6, or 7 above the cell's own resolution.
    pub fn digit(self, r: u8) -> u8
        requires some { 1 ≤ r }
        requires at_most { r ≤ 15 }
        ensures { result ≡ slice_index_or self.digits (r - 1) 7 }
    {
        (self.raw >> (45 - 3 * r) & 7) as u8
    }

    /// The digits below a resolution that is not finer than the cell's own, as an octal number.
    pub fn digits_below(self, r: u8) -> u64
        requires { r ≤ resolution self }
        ensures number { result ≡ number_from_digits 8 (drop r self.digits) }
        ensures valid { IsCell self }
    {
        let places = 3 * (15 - self.resolution());
        let finer: u64 = (1 << (3 * (15 - r))) - 1;
        (self.raw & finer) >> places
    }

    /// Whether the cell is one of the twelve pentagons of its resolution, as H3's `isPentagon`
    /// returns it: its base cell is a pentagon, and its digits are all 0.
    #[inline(always)]
    pub fn is_pentagon(self) -> bool
        ensures { result ≡ is_pentagon self }
    {
        // The digits alone decide for most cells.
        (self.raw & 0x1fff_ffff_ffff) >> (3 * (15 - self.resolution())) == 0
            && self.in_pentagon_base()
    }

    /// Whether the cell lies in one of the twelve pentagon base cells.
    pub fn in_pentagon_base(self) -> bool
        ensures { result ≡ is_pentagon_base self.base }
    {
        is_pentagon_base(self.base_cell())
    }

    /// Whether the cell's resolution is odd, which is Class III,
    /// as H3's `isResClassIII` returns it.
    pub fn is_class_iii(self) -> bool
        ensures { result ≡ is_class_iii self }
    {
        self.resolution() % 2 == 1
    }
}
