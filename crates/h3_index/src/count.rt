//! Cells by their numbers: base cells, pentagons, and how many cells a resolution has.

ghost use Rattle.std.specs.Prelude.{◌≡◌, ◌+◌, ◌*◌, ◌^◌, ℕ, length, Some, None, IfOk, IfErr, MatchOption, IfSome, slice_get, pos, ◌<◌, ◌≤◌};
ghost use Rattle.std.specs.Result.{result_ok};
ghost use Rattle.h3_index.specs.Cell.{pentagon_bases};
ghost use Rattle.h3_index.specs.Count.{CellsAreListed, PentagonsAreListed, base_cell, cells_of, number_below, pentagons, resolution_of};

use crate::cell::{Cell, is_pentagon_base};
use crate::error::H3Error;

/// The whole number, where it is from 0 up to below a limit.
#[tactic(auto, unfolding(crate::specs::Count::number_below))]
fn below(limit: u8, n: i32) -> Option<u8>
    ensures is { result ≡ number_below limit n }
    ensures same { IfSome result (λ k. (pos k ≡ n) × (k < limit)) }
{
    if n < 0 || n >= i32::from(limit) {
        None
    } else {
        Some(n as u8)
    }
}

/// Returns the resolution that a whole number is.
///
/// # Errors
///
/// `ResDomain` outside 0 to 15.
pub fn resolution_from(res: i32) -> Result<u8, H3Error>
    ensures ok { IfOk result (λ r. (resolution_of res ≡ Some r) × (pos r ≡ res) × (r ≤ 15)) }
    ensures err { IfErr result (λ e. (resolution_of res ≡ None) × (e ≡ H3Error.ResDomain)) }
{
    match below(16, res) {
        Some(res) => Ok(res),
        None => Err(H3Error::ResDomain),
    }
}

/// Returns the number of cells of a resolution: H3's `getNumCells`.
///
/// # Errors
///
/// `ResDomain` if the number is not a resolution.
pub fn num_cells(res: i32) -> Result<u64, H3Error>
    ensures formula { MatchOption (resolution_of res) (result ≡ Err H3Error.ResDomain)
        (λ r. result ≡ Ok (2 + 120 * 7 ^ r)) }
    ensures counted { IfOk result (λ count.
        IfSome (resolution_of res) (λ r. length (cells_of r) ≡ count)) }
    ensures listed { CellsAreListed }
{
    let res = resolution_from(res)?;
    Ok(2 + 120 * 7u64.pow(u32::from(res)))
}

/// Returns the cell of resolution 0 in a base cell. H3's `getRes0Cells` gives all.
///
/// # Errors
///
/// `Domain` outside 0 to 121.
pub fn res0_cell(b: i32) -> Result<Cell, H3Error>
    ensures { MatchOption (number_below 122 b) (result ≡ Err H3Error.Domain)
        (λ b. result ≡ Ok (base_cell b)) }
{
    match below(122, b) {
        Some(base) => Ok(Cell::in_base(base)),
        None => Err(H3Error::Domain),
    }
}

/// The n-th of the twelve base cells that are pentagons, from 0, in ascending order.
fn pentagon_base(n: i32) -> Option<u8>
    ensures nth { MatchOption (number_below 12 n) (result ≡ None)
        (λ k. slice_get pentagon_bases k ≡ result) }
    ensures small { IfSome result (λ b. b < 122) }
{
    let n = below(12, n)?;
    (0..122)
        .filter(|b| is_pentagon_base(*b))
        .nth(usize::from(n))
}

/// Returns the n-th pentagon of a resolution, from 0, in ascending order. H3's `getPentagons` gives
/// all.
///
/// # Errors
///
/// - `ResDomain` if the number is not a resolution.
/// - `Domain` if n is outside 0 to 11.
pub fn pentagon(res: i32, n: i32) -> Result<Cell, H3Error>
    ensures nth { MatchOption (resolution_of res) (result ≡ Err H3Error.ResDomain)
        (λ r. MatchOption (number_below 12 n) (result ≡ Err H3Error.Domain)
        (λ k. slice_get (pentagons r) k ≡ result_ok result)) }
    ensures listed { PentagonsAreListed }
{
    let res = resolution_from(res)?;
    match pentagon_base(n) {
        Some(base) => Ok(Cell::in_base(base).center_descendant(res)),
        None => Err(H3Error::Domain),
    }
}
