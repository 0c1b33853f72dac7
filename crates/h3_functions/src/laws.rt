//! Laws of this crate's iterators. Each function does nothing; what it ensures is a law that holds
//! always.

ghost use Rattle.std.specs.Prelude.{◌≡◌};

use crate::bases::{BaseCells, Pentagons};
use crate::disk_cells::DiskCells;

/// A clone is made, and is equal to what it was made of: it has the same cells left.
pub fn clones_are_equal()
    ensures base_cells { (a b : BaseCells) → ⟦<BaseCells as Clone>⟧.is_clone a b → b ≡ a }
    ensures base_cells_made { (a : BaseCells) → ⟦<BaseCells as Clone>⟧.is_infallible a }
    ensures disk_cells { (a b : DiskCells) → ⟦<DiskCells<'static> as Clone>⟧.is_clone a b → b ≡ a }
    ensures disk_cells_made { (a : DiskCells) → ⟦<DiskCells<'static> as Clone>⟧.is_infallible a }
    ensures pentagons { (a b : Pentagons) → ⟦<Pentagons as Clone>⟧.is_clone a b → b ≡ a }
    ensures pentagons_made { (a : Pentagons) → ⟦<Pentagons as Clone>⟧.is_infallible a }
{}
