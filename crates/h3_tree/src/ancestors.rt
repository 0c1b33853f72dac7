//! The way up: the ancestors of a cell. In contracts `unsigned_abs res` is the resolution as a
//! natural number.

ghost use Rattle.std.specs.Prelude.{◌≡◌, pos, IfOk, unsigned_abs};
ghost use Rattle.std.specs.Result.{result_err};
ghost use Rattle.h3_index.specs.Cell.{Address, IsCell, resolution};
ghost use Rattle.h3_index.specs.Descendants.{ancestor_at, IsAncestor};
ghost use Rattle.h3_tree.specs.Refusals.{parent_refusal};

use h3_index::{Cell, H3Error, resolution_from};

/// Returns the one ancestor of a cell at a resolution, at its own the cell: H3's `cellToParent`.
///
/// # Errors
///
/// - `ResDomain` if the number is not a resolution.
/// - `ResMismatch` if it is finer than the cell's.
pub fn parent(cell: Cell, res: i32) -> Result<Cell, H3Error>
    ensures refused { result_err result ≡ parent_refusal (resolution cell) res }
    ensures is { IfOk result (λ ancestor. ancestor ≡ ancestor_at cell (unsigned_abs res)) }
    ensures ancestor { IfOk result (λ ancestor. IsCell ancestor × IsAncestor ancestor cell
        × (pos (resolution ancestor) ≡ res)) }

    // any ancestor at the resolution is the one returned
    ensures one { (other : Address) → IsAncestor other cell → pos (resolution other) ≡ res
        → result ≡ Ok other }
{
    let own = cell.resolution();
    let r = resolution_from(res)?;
    // (numbers as wide as a cell's, since a loop over cells compares several at once)
    if u64::from(r) > u64::from(own) {
        return Err(H3Error::ResMismatch);
    }
    Ok(cell.ancestor_at(r))
}
