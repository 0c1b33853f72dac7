//! A law of the errors that end a run. The function does nothing; what it ensures is a law that
//! holds always.

ghost use Rattle.std.specs.Prelude.{◌≡◌};

use crate::run_error::RunError;

/// A clone is made, and is equal to what it was made of.
pub fn clones_are_equal()
    ensures refusals { (a b : RunError) → ⟦<RunError as Clone>⟧.is_clone a b → b ≡ a }
    ensures refusals_made { (a : RunError) → ⟦<RunError as Clone>⟧.is_infallible a }
{}
