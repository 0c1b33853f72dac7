//! The way down: the descendants of a cell. In contracts `unsigned_abs res` is the resolution as a
//! natural number.

ghost use Rattle.std.specs.Prelude.{◌≡◌, ◌+◌, ◌-◌, ◌*◌, ◌/◌, ◌^◌, ◌<◌, ◌≤◌, ◌↔◌, length, pos, false, true, IfOk, unsigned_abs, AllPairs, Contains};
ghost use Rattle.std.specs.List.{flat_map};
ghost use Rattle.std.specs.Result.{result_err};
ghost use Rattle.h3_index.specs.Cell.{Address, is_pentagon, IsCell, number_of, resolution};
ghost use Rattle.h3_index.specs.Descendants.{center_descendant, children, descendants, IsDescendant};
ghost use Rattle.h3_tree.specs.Children.{children_left};
ghost use Rattle.h3_tree.specs.LastChild.{last_at};
ghost use Rattle.h3_tree.specs.SiblingGroups.{parents_left};
ghost use Rattle.h3_tree.specs.Refusals.{descent_refusal};

use crate::iter::Children;
use crate::powers::power_of_seven;
use crate::sibling_groups::SiblingGroups;
use h3_index::laws::descendants_are_listed;
use h3_index::{Cell, H3Error, resolution_from};

/// Returns the resolution that a whole number is, if a cell has descendants at it: from the cell's
/// own to 15.
///
/// # Errors
///
/// `ResDomain` elsewhere.
pub fn resolution_below(cell: Cell, res: i32) -> Result<u8, H3Error>
    ensures refused { result_err result ≡ descent_refusal (resolution cell) res }
    ensures is { IfOk result (λ r. (pos r ≡ res) × (resolution cell ≤ r) × (r ≤ 15)) }
{
    let r = resolution_from(res)?;
    if r < cell.resolution() {
        return Err(H3Error::ResDomain);
    }
    Ok(r)
}

/// Returns the descendant of a cell at a resolution whose further digits are 0, at its own the
/// cell: H3's `cellToCenterChild`.
///
/// # Errors
///
/// `ResDomain` if the number is not a resolution from the cell's own to 15.
pub fn center_child(cell: Cell, res: i32) -> Result<Cell, H3Error>
    ensures refused { result_err result ≡ descent_refusal (resolution cell) res }
    ensures zeros { IfOk result (λ child. child ≡ center_descendant cell (unsigned_abs res)) }
    ensures descendant { IfOk result (λ child. IsDescendant cell (unsigned_abs res) child) }
{
    let r = resolution_below(cell, res)?;
    Ok(cell.center_descendant(r))
}

/// Returns the last descendant of a cell at a resolution, which has the greatest number: its
/// further digits are 6. At the cell's own resolution it is the cell.
///
/// # Errors
///
/// `ResDomain` if the number is not a resolution from the cell's own to 15.
pub fn last_child(cell: Cell, res: i32) -> Result<Cell, H3Error>
    ensures refused { result_err result ≡ descent_refusal (resolution cell) res }
    ensures sixes { IfOk result (λ child. child ≡ last_at cell (unsigned_abs res)) }
    ensures descendant { IfOk result (λ child. IsDescendant cell (unsigned_abs res) child) }
    ensures greatest { IfOk result (λ child. (x : Address)
        → IsDescendant cell (unsigned_abs res) x → number_of x ≤ number_of child) }
{
    let r = resolution_below(cell, res)?;
    let mut last = cell;
    while last.resolution() < r {
        last = last.child(6);
    }
    Ok(last)
}

/// The number of descendants of a cell at a resolution from its own to 15.
pub(crate) fn size_at(cell: Cell, r: u8) -> u64
    requires not_coarser { resolution cell ≤ r }
    requires at_most_fifteen { r ≤ 15 }
    ensures valid { IsCell cell }
    ensures count { result ≡ length (descendants cell r) }
    ensures hexagon { is_pentagon cell ≡ false → result ≡ 7 ^ (r - resolution cell) }
    ensures pentagon { is_pentagon cell ≡ true
        → result ≡ 1 + 5 * ((7 ^ (r - resolution cell) - 1) / 6) }
{
    descendants_are_listed();
    let sevens = power_of_seven(r - cell.resolution());
    if cell.is_pentagon() {
        1 + 5 * ((sevens - 1) / 6)
    } else {
        sevens
    }
}

/// Returns how many descendants a cell has at a resolution: H3's `cellToChildrenSize`.
///
/// n levels down there are 7^n below a hexagon and 1 + 5 * ((7^n - 1) / 6) below a pentagon. At its
/// own resolution a cell has one, itself.
///
/// # Errors
///
/// `ResDomain` if the number is not a resolution from the cell's own to 15.
pub fn children_size(cell: Cell, res: i32) -> Result<u64, H3Error>
    ensures refused { result_err result ≡ descent_refusal (resolution cell) res }
    ensures count { IfOk result (λ size. size ≡ length (descendants cell (unsigned_abs res))) }
    ensures hexagon { is_pentagon cell ≡ false
        → IfOk result (λ size. size ≡ 7 ^ (unsigned_abs res - resolution cell)) }
    ensures pentagon { is_pentagon cell ≡ true
        → IfOk result (λ size.
        size ≡ 1 + 5 * ((7 ^ (unsigned_abs res - resolution cell) - 1) / 6)) }
{
    let r = resolution_below(cell, res)?;
    Ok(size_at(cell, r))
}

/// The descendants of a cell at a resolution from its own to 15, in ascending order and each once:
/// at the cell's own resolution the cell alone. `children` tests its resolution.
pub fn children_at(cell: Cell, r: u8) -> Children
    requires not_coarser { resolution cell ≤ r }
    requires at_most_fifteen { r ≤ 15 }
    ensures list { children_left result ≡ descendants cell r }
    ensures members { (x : Address) → Contains (children_left result) x ↔ IsDescendant cell r x }
    ensures ascending { AllPairs (λ a b. number_of a < number_of b) (children_left result) }
{
    descendants_are_listed();
    Children::below(cell, r)
}

/// The descendants of a cell at a resolution finer than its own, up to 15, in ascending order and
/// each once, those of one parent at a time: the children of each descendant one level above.
pub fn sibling_groups_at(cell: Cell, r: u8) -> SiblingGroups
    requires finer { resolution cell < r }
    requires at_most_fifteen { r ≤ 15 }
    ensures parents { parents_left result ≡ descendants cell (r - 1) }
    ensures list { flat_map children (parents_left result) ≡ descendants cell r }
{
    SiblingGroups::below(cell, r)
}

/// Returns the descendants of a cell at a resolution, ascending and each once: H3's
/// `cellToChildren`. At the cell's own resolution it is the cell alone.
///
/// # Errors
///
/// `ResDomain` if the number is not a resolution from the cell's own to 15.
pub fn children(cell: Cell, res: i32) -> Result<Children, H3Error>
    ensures refused { result_err result ≡ descent_refusal (resolution cell) res }
    ensures list { IfOk result (λ items.
        children_left items ≡ descendants cell (unsigned_abs res)) }
    ensures members { IfOk result (λ items. (x : Address)
        → Contains (children_left items) x ↔ IsDescendant cell (unsigned_abs res) x) }
    ensures ascending { IfOk result (λ items.
        AllPairs (λ a b. number_of a < number_of b) (children_left items)) }
{
    let r = resolution_below(cell, res)?;
    Ok(children_at(cell, r))
}
