//! Laws of the definitions that contracts here cite. Each function does nothing; what it ensures is
//! a law that holds always, for the proofs of crates that call it.

ghost use Rattle.std.specs.Prelude.{◌≡◌, ℕ, List};
ghost use Rattle.h3_lattice.specs.declared.class.Class.{Class};
ghost use Rattle.h3_lattice.specs.declared.moved.Moved.{Moved};
ghost use Rattle.h3_lattice.specs.Laws.{TurnsAdd, SixTurnsAreNone, OppositesAreThreeTurns, DigitTurnsAdd, SixDigitTurnsAreNone, NoTurnsKeepDigits, SumsExist, SumsAreUnique, SumsReverse, SumsTurn, SumsCloseTriangles};

use crate::class::Class;
use crate::digits::Digits;
use crate::moved::Moved;

/// Turns of a direction and of a digit list add up, and six of them are none.
pub fn turns_add_up()
    ensures directions { TurnsAdd }
    ensures six { SixTurnsAreNone }
    ensures opposite { OppositesAreThreeTurns }
    ensures digits { DigitTurnsAdd }
    ensures six_of_digits { SixDigitTurnsAreNone }
    ensures none_of_digits { NoTurnsKeepDigits }
{}

/// A digit list and a direction have one sum. The opposite direction leads back, the sum of turned
/// ones is the turned sum, and the sums with a direction and with the next one are a step apart.
pub fn sums_are_lawful()
    ensures exist { SumsExist }
    ensures unique { SumsAreUnique }
    ensures reverse { SumsReverse }
    ensures turn { SumsTurn }
    ensures triangles { SumsCloseTriangles }
{}

/// A clone is made, and is equal to its original.
pub fn clones_are_equal()
    ensures classes { (a b : Class) → ⟦<Class as Clone>⟧.is_clone a b → b ≡ a }
    ensures classes_made { (a : Class) → ⟦<Class as Clone>⟧.is_infallible a }
    ensures digits { (a b : List ℕ) → ⟦<Digits as Clone>⟧.is_clone a b → b ≡ a }
    ensures digits_made { (a : List ℕ) → ⟦<Digits as Clone>⟧.is_infallible a }
    ensures sums { (a b : Moved) → ⟦<Moved as Clone>⟧.is_clone a b → b ≡ a }
    ensures sums_made { (a : Moved) → ⟦<Moved as Clone>⟧.is_infallible a }
{}
