//! What an index says of its cell.

ghost use Rattle.std.specs.Prelude.{◌≡◌, pos, negsuc, Ok, map, length};
ghost use Rattle.std.specs.Result.{result_unwrap_or};
ghost use Rattle.h3_functions.specs.Inspection.{get_base_cell_number, get_resolution, is_pentagon, is_res_class_iii, is_valid_cell};
ghost use Rattle.h3_c.specs.Column.{column_code, column_over, place_over};
ghost use Rattle.h3_c.specs.Outcome.{int_of, truth, truth_of};

use crate::column::{NO_NUMBER, fill};
use crate::functions::int;
use h3_requests::IndexFunction::*;

/// H3's `isValidCell`.
#[unsafe(no_mangle)]
pub extern "C" fn h3w_isValidCell(h: u64) -> i32
    ensures { result ≡ truth (is_valid_cell h) }
{
    int(IsValidCell, h).unwrap_or(0)
}

/// [`h3w_isValidCell`] of each index, with its errors.
#[unsafe(no_mangle)]
pub extern "C" fn h3w_areValidCells(cells: &[u64], out: &mut [i32], at: &mut usize) -> u32
    ensures code { result ≡ column_code (map (λ h. truth_of (Ok (is_valid_cell h))) cells.now)
        (length out.old) }
    ensures values { out.new
        ≡ column_over (negsuc 0) (map (λ h. truth_of (Ok (is_valid_cell h))) cells.now) out.old }
    ensures place { at.new
        ≡ place_over (map (λ h. truth_of (Ok (is_valid_cell h))) cells.now)
        (length out.old) at.old }
{
    fill(&IsValidCell, cells, NO_NUMBER, out, at)
}

/// H3's `getResolution`; -1 where no cell has the index.
#[unsafe(no_mangle)]
pub extern "C" fn h3w_getResolution(h: u64) -> i32
    ensures { result ≡ result_unwrap_or (int_of (get_resolution h)) (negsuc 0) }
{
    int(GetResolution, h).unwrap_or(NO_NUMBER)
}

/// [`h3w_getResolution`] of each index, with its errors.
#[unsafe(no_mangle)]
pub extern "C" fn h3w_getResolutions(cells: &[u64], out: &mut [i32], at: &mut usize) -> u32
    ensures code { result ≡ column_code (map (λ h. int_of (get_resolution h)) cells.now)
        (length out.old) }
    ensures values { out.new
        ≡ column_over (negsuc 0) (map (λ h. int_of (get_resolution h)) cells.now) out.old }
    ensures place { at.new
        ≡ place_over (map (λ h. int_of (get_resolution h)) cells.now)
        (length out.old) at.old }
{
    fill(&GetResolution, cells, NO_NUMBER, out, at)
}

/// H3's `getBaseCellNumber`; -1 where no cell has the index.
#[unsafe(no_mangle)]
pub extern "C" fn h3w_getBaseCellNumber(h: u64) -> i32
    ensures { result ≡ result_unwrap_or (int_of (get_base_cell_number h)) (negsuc 0) }
{
    int(GetBaseCellNumber, h).unwrap_or(NO_NUMBER)
}

/// [`h3w_getBaseCellNumber`] of each index, with its errors.
#[unsafe(no_mangle)]
pub extern "C" fn h3w_getBaseCellNumbers(cells: &[u64], out: &mut [i32], at: &mut usize) -> u32
    ensures code { result
        ≡ column_code (map (λ h. int_of (get_base_cell_number h)) cells.now)
        (length out.old) }
    ensures values { out.new
        ≡ column_over (negsuc 0) (map (λ h. int_of (get_base_cell_number h)) cells.now)
        out.old }
    ensures place { at.new
        ≡ place_over (map (λ h. int_of (get_base_cell_number h)) cells.now)
        (length out.old) at.old }
{
    fill(&GetBaseCellNumber, cells, NO_NUMBER, out, at)
}

/// H3's `isPentagon`; 0 where no cell has the index.
#[unsafe(no_mangle)]
pub extern "C" fn h3w_isPentagon(h: u64) -> i32
    ensures { result ≡ result_unwrap_or (truth_of (is_pentagon h)) (pos 0) }
{
    int(IsPentagon, h).unwrap_or(0)
}

/// [`h3w_isPentagon`] of each index, with its errors.
#[unsafe(no_mangle)]
pub extern "C" fn h3w_arePentagons(cells: &[u64], out: &mut [i32], at: &mut usize) -> u32
    ensures code { result ≡ column_code (map (λ h. truth_of (is_pentagon h)) cells.now)
        (length out.old) }
    ensures values { out.new
        ≡ column_over (negsuc 0) (map (λ h. truth_of (is_pentagon h)) cells.now) out.old }
    ensures place { at.new
        ≡ place_over (map (λ h. truth_of (is_pentagon h)) cells.now)
        (length out.old) at.old }
{
    fill(&IsPentagon, cells, NO_NUMBER, out, at)
}

/// H3's `isResClassIII`; 0 where no cell has the index.
#[unsafe(no_mangle)]
pub extern "C" fn h3w_isResClassIII(h: u64) -> i32
    ensures { result ≡ result_unwrap_or (truth_of (is_res_class_iii h)) (pos 0) }
{
    int(IsResClassIII, h).unwrap_or(0)
}

/// [`h3w_isResClassIII`] of each index, with its errors.
#[unsafe(no_mangle)]
pub extern "C" fn h3w_areResClassIII(cells: &[u64], out: &mut [i32], at: &mut usize) -> u32
    ensures code { result ≡ column_code (map (λ h. truth_of (is_res_class_iii h)) cells.now)
        (length out.old) }
    ensures values { out.new
        ≡ column_over (negsuc 0) (map (λ h. truth_of (is_res_class_iii h)) cells.now)
        out.old }
    ensures place { at.new
        ≡ place_over (map (λ h. truth_of (is_res_class_iii h)) cells.now)
        (length out.old) at.old }
{
    fill(&IsResClassIII, cells, NO_NUMBER, out, at)
}
