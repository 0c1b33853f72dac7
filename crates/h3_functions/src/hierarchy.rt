//! H3's hierarchy functions.
//!
//! Each returns `CellInvalid` where no cell has the index, and then the error of the function for
//! that cell.

ghost use Rattle.std.specs.Prelude.{◌≡◌};
ghost use Rattle.std.specs.Iterator.{YieldsFirst};
ghost use Rattle.h3_tree.specs.Children.{children_left};
ghost use Rattle.h3_functions.specs.Hierarchy as hierarchy;
ghost use Rattle.h3_functions.specs.Items.{Lists};

use crate::inspection::cell_from;
use h3_index::{Cell, H3Error};
use h3_tree::{
    Children, center_child, child_at, child_pos, children, children_size, last_child, parent,
};

/// The ancestor of a cell at a resolution, as H3's `cellToParent` returns it.
///
/// # Errors
///
/// - `CellInvalid` if no cell has the index.
/// - `ResDomain` if the number is not a resolution.
/// - `ResMismatch` if it is finer than the cell's.
#[inline(always)]
pub fn cell_to_parent(index: u64, res: i32) -> Result<Cell, H3Error>
    ensures { result ≡ hierarchy.cell_to_parent index res }
{
    let cell = cell_from(index)?;
    parent(cell, res)
}

/// The descendant of a cell at a resolution whose further digits are 0, as H3's `cellToCenterChild`
/// returns it.
///
/// # Errors
///
/// - `CellInvalid` if no cell has the index.
/// - `ResDomain` if the number is not a resolution from the cell's own to 15.
pub(crate) fn cell_to_center_child(index: u64, res: i32) -> Result<Cell, H3Error>
    ensures { result ≡ hierarchy.cell_to_center_child index res }
{
    let cell = cell_from(index)?;
    center_child(cell, res)
}

/// The last descendant of a cell at a resolution, which is the one with the greatest number.
///
/// # Errors
///
/// - `CellInvalid` if no cell has the index.
/// - `ResDomain` if the number is not a resolution from the cell's own to 15.
pub(crate) fn cell_to_last_child(index: u64, res: i32) -> Result<Cell, H3Error>
    ensures { result ≡ hierarchy.cell_to_last_child index res }
{
    let cell = cell_from(index)?;
    last_child(cell, res)
}

/// The descendants of a cell at a resolution, in ascending order, as H3's `cellToChildren` lists
/// them.
///
/// # Errors
///
/// - `CellInvalid` if no cell has the index.
/// - `ResDomain` if the number is not a resolution from the cell's own to 15.
pub fn cell_to_children(index: u64, res: i32) -> Result<Children, H3Error>
    ensures { Lists (YieldsFirst children_left) result (hierarchy.cell_to_children index res) }
{
    let cell = cell_from(index)?;
    children(cell, res)
}

/// The number of descendants that a cell has at a resolution, as H3's `cellToChildrenSize` returns
/// it.
///
/// # Errors
///
/// - `CellInvalid` if no cell has the index.
/// - `ResDomain` if the number is not a resolution from the cell's own to 15.
pub(crate) fn cell_to_children_size(index: u64, res: i32) -> Result<u64, H3Error>
    ensures { result ≡ hierarchy.cell_to_children_size index res }
{
    let cell = cell_from(index)?;
    children_size(cell, res)
}

/// The position of a cell among the descendants of its ancestor at a resolution, as H3's
/// `cellToChildPos` returns it.
///
/// # Errors
///
/// - `CellInvalid` if no cell has the index.
/// - `ResDomain` if the number is not a resolution.
/// - `ResMismatch` if it is finer than the cell's.
#[inline(always)]
pub(crate) fn cell_to_child_pos(index: u64, res: i32) -> Result<u64, H3Error>
    ensures { result ≡ hierarchy.cell_to_child_pos index res }
{
    let cell = cell_from(index)?;
    child_pos(cell, res)
}

/// The descendant of a cell at a resolution that stands at a position, as H3's `childPosToCell`
/// returns it.
///
/// # Errors
///
/// - `CellInvalid` if no cell has the index.
/// - `ResDomain` if the number is not a resolution.
/// - `ResMismatch` if it is coarser than the cell's.
/// - `Domain` if the position is not below the number of descendants.
pub fn child_pos_to_cell(position: u64, index: u64, res: i32) -> Result<Cell, H3Error>
    ensures { result ≡ hierarchy.child_pos_to_cell position index res }
{
    let cell = cell_from(index)?;
    child_at(position, cell, res)
}
