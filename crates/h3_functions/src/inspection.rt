//! H3's index inspection functions.
//!
//! Each but `is_valid_cell` returns `CellInvalid` where no cell has the index.

ghost use Rattle.std.specs.Prelude.{◌≡◌};
ghost use Rattle.h3_functions.specs.Inspection as inspection;

use h3_index::{Cell, H3Error};

/// The cell with an index.
///
/// # Errors
///
/// `CellInvalid` if no cell has the index.
#[inline(always)]
pub fn cell_from(index: u64) -> Result<Cell, H3Error>
    ensures { result ≡ inspection.cell_from index }
{
    Cell::new(index)
}

/// Whether an index is a valid cell, as H3's `isValidCell` returns it.
#[inline(always)]
pub(crate) fn is_valid_cell(index: u64) -> bool
    ensures { result ≡ inspection.is_valid_cell index }
{
    cell_from(index).is_ok()
}

/// The resolution of a cell, 0 to 15, as H3's `getResolution` returns it.
///
/// # Errors
///
/// `CellInvalid` if no cell has the index.
#[inline(always)]
pub(crate) fn get_resolution(index: u64) -> Result<u8, H3Error>
    ensures { result ≡ inspection.get_resolution index }
{
    let cell = cell_from(index)?;
    Ok(cell.resolution())
}

/// The base cell of a cell, 0 to 121, as H3's `getBaseCellNumber` returns it.
///
/// # Errors
///
/// `CellInvalid` if no cell has the index.
#[inline(always)]
pub(crate) fn get_base_cell_number(index: u64) -> Result<u8, H3Error>
    ensures { result ≡ inspection.get_base_cell_number index }
{
    let cell = cell_from(index)?;
    Ok(cell.base_cell())
}

/// Whether a cell is a pentagon, as H3's `isPentagon` returns it.
///
/// # Errors
///
/// `CellInvalid` if no cell has the index.
pub(crate) fn is_pentagon(index: u64) -> Result<bool, H3Error>
    ensures { result ≡ inspection.is_pentagon index }
{
    let cell = cell_from(index)?;
    Ok(cell.is_pentagon())
}

/// Whether the resolution of a cell is Class III, as H3's `isResClassIII` returns it.
///
/// # Errors
///
/// `CellInvalid` if no cell has the index.
pub(crate) fn is_res_class_iii(index: u64) -> Result<bool, H3Error>
    ensures { result ≡ inspection.is_res_class_iii index }
{
    let cell = cell_from(index)?;
    Ok(cell.is_class_iii())
}
