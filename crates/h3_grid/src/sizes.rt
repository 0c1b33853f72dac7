//! The size of a disk.

ghost use Rattle.std.specs.Prelude.{◌≡◌, ◌+◌, ◌*◌, length, map, IfOk, unsigned_abs};
ghost use Rattle.std.specs.Result.{result_err};
ghost use Rattle.h3_grid.specs.Laws.{DisksHaveSizes};
ghost use Rattle.h3_grid.specs.Moves.{spiral};
ghost use Rattle.h3_grid.specs.Refusals.{radius_refusal};

use crate::disks::disks_are_spirals;
use h3_index::H3Error;

/// Returns the number of cells of a disk of radius k of which no step is refused: 3k(k + 1) + 1.
///
/// # Errors
///
/// `Domain` for a negative radius.
pub fn disk_len(k: i32) -> Result<u64, H3Error>
    ensures refused { result_err result ≡ radius_refusal k }
    ensures count { IfOk result (λ n. n ≡ 3 * unsigned_abs k * (unsigned_abs k + 1) + 1) }
    ensures places { IfOk result (λ n. n ≡ length (spiral (unsigned_abs k))) }

    // A disk of which no step is refused has this many cells.
    ensures disks { DisksHaveSizes }
{
    disks_are_spirals();
    if k < 0 {
        return Err(H3Error::Domain);
    }
    let radius = k as u64;
    Ok(3 * radius * (radius + 1) + 1)
}
