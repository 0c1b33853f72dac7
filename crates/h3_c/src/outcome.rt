//! How an outcome reaches C: a code, and a value at a place.

ghost use Rattle.std.specs.Prelude.{◌≡◌};
ghost use Rattle.std.specs.Result.{result_unwrap_or};
ghost use Rattle.h3_c.specs.Outcome.{code_of, index_of, truth};

use h3_index::{Cell, H3Error};

/// Puts the value at the place and returns 0, or returns the number of the error.
#[inline(always)]
pub(crate) fn put<T: Copy>(out: &mut T, outcome: Result<T, H3Error>) -> u32
    ensures code { result ≡ code_of outcome }
    ensures value { out.new ≡ result_unwrap_or outcome out.old }
{
    match outcome {
        Ok(value) => {
            *out = value;
            0
        }
        Err(error) => u32::from(error.number()),
    }
}

/// The index of the cell, or the error.
#[inline(always)]
pub(crate) fn index_of(outcome: Result<Cell, H3Error>) -> Result<u64, H3Error>
    ensures { result ≡ index_of outcome }
{
    match outcome {
        Ok(cell) => Ok(cell.raw()),
        Err(error) => Err(error),
    }
}

/// C's truth values.
#[inline(always)]
pub(crate) fn truth(is: bool) -> i32
    ensures { result ≡ truth is }
{
    if is { 1 } else { 0 }
}
