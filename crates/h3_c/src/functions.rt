//! H3's functions of one index, of one index or of each of a column.

ghost use Rattle.std.specs.Prelude.{◌≡◌};
ghost use Rattle.h3_functions.specs.Outcome.{outcome_of};
ghost use Rattle.h3_c.specs.Functions.{int_in, word_in};

use crate::column::ColumnFunction;
use crate::outcome::truth;
use h3_functions::{Outcome, outcome_of};
use h3_index::H3Error;
use h3_requests::IndexFunction;

/// What a function returns for an index, as an `int`; `Failed` where that is none.
#[inline(always)]
pub(crate) fn int(function: IndexFunction, index: u64) -> Result<i32, H3Error>
    ensures { result ≡ int_in (outcome_of function index) }
{
    match outcome_of(function, index) {
        Outcome::Truth(is) => Ok(truth(is?)),
        Outcome::Number(number) => Ok(i32::from(number?)),
        _ => Err(H3Error::Failed),
    }
}

/// What a function returns for an index, as an index or a count; `Failed` where that is neither.
// A result that is taken apart takes up to seven instructions less than one that is handed on.
#[inline(always)]
pub(crate) fn word(function: IndexFunction, index: u64) -> Result<u64, H3Error>
    ensures { result ≡ word_in (outcome_of function index) }
{
    match outcome_of(function, index) {
        Outcome::Count(Ok(count)) => Ok(count),
        Outcome::Count(Err(error)) => Err(error),
        Outcome::Cell(Ok(cell)) => Ok(cell.raw()),
        Outcome::Cell(Err(error)) => Err(error),
        _ => Err(H3Error::Failed),
    }
}

impl ColumnFunction<i32> for IndexFunction {
    ghost outcome = { λ f h. int_in (outcome_of f h) };

    #[inline(always)]
    fn ask(&self, index: u64, _place: &mut usize) -> Result<i32, H3Error> {
        int(*self, index)
    }
}

impl ColumnFunction<u64> for IndexFunction {
    ghost outcome = { λ f h. word_in (outcome_of f h) };

    #[inline(always)]
    fn ask(&self, index: u64, _place: &mut usize) -> Result<u64, H3Error> {
        word(*self, index)
    }
}
