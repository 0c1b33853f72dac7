//! Laws of the definitions that contracts here cite. Each function does nothing; what it ensures is
//! a law that holds always, for the proofs of crates that call it.

ghost use Rattle.std.specs.Prelude.{◌≡◌};
ghost use Rattle.h3_table.specs.declared.vectors.TestTable.{TestTable};
ghost use Rattle.h3_table.specs.Lifted.{CornersLift, ReversalsLift};

use crate::vectors::TestTable;
use h3_lattice::laws::{sums_are_lawful, turns_add_up};

/// The checks of a table hold of steps too, at every resolution: over sound links, a step back
/// undoes a step, and the steps in a direction and in the next one are a step apart.
pub fn checks_lift_to_steps()
    ensures reversals { ReversalsLift }
    ensures corners { CornersLift }
{
    sums_are_lawful();
    turns_add_up();
}

/// A clone of a test table is made, and is equal to it.
pub fn clones_are_equal()
    ensures tables { (a b : TestTable) → ⟦<TestTable as Clone>⟧.is_clone a b → b ≡ a }
    ensures tables_made { (a : TestTable) → ⟦<TestTable as Clone>⟧.is_infallible a }
{}
