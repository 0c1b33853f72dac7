//! Positions: where a cell stands among the descendants of a cell above it, in ascending order,
//! from 0 on.

ghost use Rattle.std.specs.Prelude.{◌≡◌, ◌+◌, ◌-◌, ◌/◌, ◌^◌, ◌<◌, ◌≤◌, ℕ, true, false, length, IfOk, Some, slice_get, unsigned_abs};
ghost use Rattle.std.specs.Result.{result_err};
ghost use Rattle.h3_index.specs.Cell.{Address, IsCell, is_pentagon, resolution};
ghost use Rattle.h3_index.specs.Descendants.{ancestor_at, descendants, IsDescendant};
ghost use Rattle.h3_tree.specs.Known.{DescendantsAreKnown};
ghost use Rattle.h3_tree.specs.Positions.{position_under, HasPosition, MembersHavePositions, PositionsHaveMembers};
ghost use Rattle.h3_tree.specs.Refusals.{parent_refusal, position_refusal};

use crate::ancestors::parent;
use crate::base_seven::in_base_seven;
use crate::descendants::size_at;
use crate::powers::power_of_seven;
use h3_index::laws::{cuts_are_cells, descendants_are_listed};
use h3_index::{Cell, H3Error, resolution_from};

/// The laws of the list of the descendants, as one fact; it does nothing.
fn descendants_are_known()
    ensures { DescendantsAreKnown }
{
    descendants_are_listed();
}

/// The child of a cell, whose resolution is given, that has the descendant at a position, and the
/// descendant's position under that child.
fn child_below(position: u64, cell: Cell, level: u8, r: u8) -> (Cell, u64)
    requires valid { IsCell cell }
    requires own { level ≡ resolution cell }
    requires finer { level < r }
    requires at_most_fifteen { r ≤ 15 }
    requires within { position < length (descendants cell r) }
    ensures valid { IsCell result.0 }
    ensures level { resolution result.0 ≡ resolution cell + 1 }
    ensures below { (x : Address)
        → HasPosition cell r x position → HasPosition result.0 r x result.1 }
{
    descendants_are_known();
    let outer = power_of_seven(r - level - 1);
    if !cell.is_pentagon() {
        return (cell.child((position / outer) as u8), position % outer);
    }
    let center = cell.child(0);
    let size = size_at(center, r);
    if position < size {
        return (center, position);
    }
    let beyond = position - size;
    (cell.child(2 + (beyond / outer) as u8), beyond % outer)
}

/// Laws of positions, proved from those of the list of the descendants; it does nothing.
fn positions_are_lawful()
    ensures members { MembersHavePositions }
    ensures positions { PositionsHaveMembers }
{
    descendants_are_known();
}

/// The descendant of a cell at a position.
fn member_at(position: u64, cell: Cell, r: u8) -> Cell
    requires not_coarser { resolution cell ≤ r }
    requires at_most_fifteen { r ≤ 15 }
    requires within { position < length (descendants cell r) }
    ensures is { slice_get (descendants cell r) position ≡ Some result }
    ensures position_is { HasPosition cell r result position }
{
    descendants_are_known();
    let mut member = cell;
    let mut left = position;
    for level in cell.resolution()..r {
        (member, left) = child_below(left, member, level, r);
    }
    member
}

/// The position of a cell among the descendants of its ancestor at a resolution, which is a
/// hexagon: the digits below it, as a number in base 7.
#[inline(always)]
fn position_below_hexagon(cell: Cell, ancestor_res: u8) -> u64
    requires not_finer { ancestor_res ≤ resolution cell }
    requires hexagon { is_pentagon (ancestor_at cell ancestor_res) ≡ false }
    ensures { result ≡ position_under (ancestor_at cell ancestor_res) cell }
{
    descendants_are_known();
    cuts_are_cells();
    in_base_seven(cell.digits_below(ancestor_res))
}

/// How many cells are deleted below a pentagon, as many levels down as a number has octal digits
/// without zeros in front.
#[inline(always)]
fn deleted_below(digits: u64) -> u64
    requires { digits < 2 ^ 45 }
    ensures { (n : ℕ) → digits < 8 ^ n → (0 < n → 8 ^ (n - 1) ≤ digits)
        → result ≡ (7 ^ n - 1) / 6 }
{
    let places = (66 - digits.leading_zeros()) / 3;
    (power_of_seven(places as u8) - 1) / 6
}

/// The position of a cell among the descendants of its ancestor at a resolution, which is a
/// pentagon: the digits below it, as a number in base 7, less the deleted cells that come before.
/// These are all below the last pentagon on the way down, since the digit there is above 1.
#[inline(always)]
fn position_below_pentagon(cell: Cell, ancestor_res: u8) -> u64
    requires not_finer { ancestor_res ≤ resolution cell }
    requires pentagon { is_pentagon (ancestor_at cell ancestor_res) ≡ true }
    ensures { result ≡ position_under (ancestor_at cell ancestor_res) cell }
{
    descendants_are_known();
    cuts_are_cells();
    let digits = cell.digits_below(ancestor_res);
    in_base_seven(digits) - deleted_below(digits)
}

/// Returns the position of a cell among the descendants of its ancestor at a resolution: H3's
/// `cellToChildPos`.
///
/// It is how many of the descendants at the cell's resolution have a smaller number than the cell.
/// At the cell's own resolution it is 0.
///
/// # Errors
///
/// - `ResDomain` if the number is not a resolution.
/// - `ResMismatch` if it is finer than the cell's.
#[inline(always)]
pub fn child_pos(cell: Cell, parent_res: i32) -> Result<u64, H3Error>
    ensures refused { result_err result ≡ parent_refusal (resolution cell) parent_res }
    ensures is { IfOk result (λ position.
        position ≡ position_under (ancestor_at cell (unsigned_abs parent_res)) cell) }
{
    let ancestor = parent(cell, parent_res)?;
    if ancestor.is_pentagon() {
        Ok(position_below_pentagon(cell, ancestor.resolution()))
    } else {
        Ok(position_below_hexagon(cell, ancestor.resolution()))
    }
}

/// Returns the descendant of a cell at a position, from 0, among all at a resolution, in ascending
/// order: H3's `childPosToCell`.
///
/// At the cell's own resolution, at position 0, it is the cell.
///
/// # Errors
///
/// - `ResDomain` if the number is not a resolution.
/// - `ResMismatch` if it is coarser than the cell's.
/// - `Domain` if the position is not below the number of descendants, which `children_size` gives.
pub fn child_at(position: u64, cell: Cell, res: i32) -> Result<Cell, H3Error>
    ensures refused { result_err result ≡ position_refusal cell res position }
    ensures is { IfOk result (λ member.
        slice_get (descendants cell (unsigned_abs res)) position ≡ Some member) }
    ensures position_is { IfOk result (λ member. HasPosition cell (unsigned_abs res) member position) }

    // Laws of positions: the descendant at a position has it, and at a descendant's position
    // stands that descendant.
    ensures members { MembersHavePositions }
    ensures positions { PositionsHaveMembers }
{
    positions_are_lawful();
    let r = resolution_from(res)?;
    if r < cell.resolution() {
        return Err(H3Error::ResMismatch);
    }
    if position >= size_at(cell, r) {
        return Err(H3Error::Domain);
    }
    Ok(member_at(position, cell, r))
}
