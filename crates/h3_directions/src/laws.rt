//! A law of the definitions here. The function does nothing; what it ensures is a law that holds
//! always, for the proofs of crates that call it.

ghost use Rattle.std.specs.Prelude.{◌≡◌};
ghost use Rattle.h3_directions.specs.declared.direction.Direction.{Direction};
ghost use Rattle.h3_directions.specs.declared.error.TableError.{TableError};

use crate::direction::Direction;
use crate::error::TableError;

/// A clone is made, and is equal to its original.
pub fn clones_are_equal()
    ensures directions { (a b : Direction) → ⟦<Direction as Clone>⟧.is_clone a b → b ≡ a }
    ensures directions_made { (a : Direction) → ⟦<Direction as Clone>⟧.is_infallible a }
    ensures errors { (a b : TableError) → ⟦<TableError as Clone>⟧.is_clone a b → b ≡ a }
    ensures errors_made { (a : TableError) → ⟦<TableError as Clone>⟧.is_infallible a }
{}
