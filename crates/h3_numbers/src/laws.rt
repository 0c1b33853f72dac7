//! Laws of numbers and sums. Each function does nothing; what it ensures is a law that holds
//! always, for the proofs of crates that call it.

ghost use Rattle.std.specs.Prelude.{◌≡◌};
ghost use Rattle.h3_numbers.specs.Laws.{SumsAreShortest, SumsReadBack, TotalsInAnyOrder, TotalsInParts};
ghost use Rattle.h3_numbers.specs.declared.number.Number.{Number};
ghost use Rattle.h3_numbers.specs.declared.sum.Sum.{Sum};

use crate::number::Number;
use crate::sum::Sum;

/// The text of a sum, read as a number with any number of digits before the point, is the sum, and no such
/// text is shorter.
pub fn sums_read_back()
    ensures same { SumsReadBack }
    ensures shortest { SumsAreShortest }
{}

/// Numbers have one total in any order, and the totals of parts add up to that of the whole.
pub fn totals_are_lawful()
    ensures order { TotalsInAnyOrder }
    ensures parts { TotalsInParts }
{}

/// A clone is made, and is equal to its original.
pub fn clones_are_equal()
    ensures numbers { (a b : Number) → ⟦<Number as Clone>⟧.is_clone a b → b ≡ a }
    ensures numbers_made { (a : Number) → ⟦<Number as Clone>⟧.is_infallible a }
    ensures sums { (a b : Sum) → ⟦<Sum as Clone>⟧.is_clone a b → b ≡ a }
    ensures sums_made { (a : Sum) → ⟦<Sum as Clone>⟧.is_infallible a }
{}
