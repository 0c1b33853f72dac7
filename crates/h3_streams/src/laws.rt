//! A law of the fault of a stream. Its function does nothing; what it ensures holds always.

ghost use Rattle.std.specs.Prelude.{◌≡◌};
ghost use Rattle.h3_streams.specs.declared.stream.StreamFault.{StreamFault};

use crate::stream::StreamFault;

/// A clone of a stream's fault is made, and is equal to it.
pub fn clones_are_equal()
    ensures faults { (a b : StreamFault) → ⟦<StreamFault as Clone>⟧.is_clone a b → b ≡ a }
    ensures faults_made { (a : StreamFault) → ⟦<StreamFault as Clone>⟧.is_infallible a }
{}
