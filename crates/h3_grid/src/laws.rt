//! A law of the iterators. Its function does nothing; what it ensures holds always.

ghost use Rattle.std.specs.Prelude.{◌≡◌};
ghost use Rattle.h3_grid.specs.declared.disks.Disk.{Disk};
ghost use Rattle.h3_grid.specs.declared.iter.Edges.{Edges};
ghost use Rattle.h3_grid.specs.declared.rings.Ring.{Ring};

use crate::disks::Disk;
use crate::iter::Edges;
use crate::rings::Ring;

/// A clone of a `Disk`, a `Ring` or an `Edges` is made, and is equal to it.
pub fn clones_are_equal<'a>()
    ensures disks { (a b : Disk) → ⟦<Disk<'a> as Clone>⟧.is_clone a b → b ≡ a }
    ensures disks_made { (a : Disk) → ⟦<Disk<'a> as Clone>⟧.is_infallible a }
    ensures rings { (a b : Ring) → ⟦<Ring<'a> as Clone>⟧.is_clone a b → b ≡ a }
    ensures rings_made { (a : Ring) → ⟦<Ring<'a> as Clone>⟧.is_infallible a }
    ensures edges { (a b : Edges) → ⟦<Edges as Clone>⟧.is_clone a b → b ≡ a }
    ensures edges_made { (a : Edges) → ⟦<Edges as Clone>⟧.is_infallible a }
{}
