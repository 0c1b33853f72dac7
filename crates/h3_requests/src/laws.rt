//! A law of the commands. The function does nothing; what it ensures is a law that holds always.

ghost use Rattle.std.specs.Prelude.{◌≡◌};

use crate::command::{Command, IndexFunction};

/// A clone is made, and is equal to what it was made of.
pub fn clones_are_equal()
    ensures commands { (a b : Command) → ⟦<Command as Clone>⟧.is_clone a b → b ≡ a }
    ensures commands_made { (a : Command) → ⟦<Command as Clone>⟧.is_infallible a }
    ensures functions { (a b : IndexFunction) → ⟦<IndexFunction as Clone>⟧.is_clone a b → b ≡ a }
    ensures functions_made { (a : IndexFunction) → ⟦<IndexFunction as Clone>⟧.is_infallible a }
{}
