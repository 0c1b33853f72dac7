//! Parents, children and positions.

ghost use Rattle.std.specs.Prelude.{◌≡◌, ◌-◌, ◌^◌, map, length};
ghost use Rattle.std.specs.Result.{result_unwrap_or};
ghost use Rattle.h3_functions.specs.Hierarchy.{cell_to_center_child, cell_to_child_pos, cell_to_children, cell_to_children_size, cell_to_last_child, cell_to_parent, child_pos_to_cell};
ghost use Rattle.h3_c.specs.Column.{column_code_at, column_over_at, place_over_at};
ghost use Rattle.h3_c.specs.Lists.{list_code, list_over};
ghost use Rattle.h3_c.specs.Outcome.{code_of, index_of};
ghost use Rattle.h3_c.specs.Starts.{StandAtStarts, children_code, children_over, children_place, children_starts_code, children_starts_over, children_starts_place};

use crate::column::{MEMORY_BOUNDS, NO_COUNT, NULL, fill_at};
use crate::descendants::put_children_of;
use crate::functions::word;
use crate::outcome::{index_of, put};
use crate::starts::{fill_children, fill_starts};
use h3_functions::child_pos_to_cell;
use h3_index::resolution_from;
use h3_requests::IndexFunction::*;

/// H3's `cellToParent`.
#[unsafe(no_mangle)]
pub extern "C" fn h3w_cellToParent(h: u64, res: i32, out: &mut u64) -> u32
    ensures code { result ≡ code_of (index_of (cell_to_parent h res)) }
    ensures value { out.new ≡ result_unwrap_or (index_of (cell_to_parent h res)) out.old }
{
    put(out, word(CellToParent { res }, h))
}

/// [`h3w_cellToParent`] of each index, once the resolution is judged.
#[unsafe(no_mangle)]
pub extern "C" fn h3w_cellsToParents(
    cells: &[u64],
    res: i32,
    out: &mut [u64],
    at: &mut usize,
) -> u32
    ensures code { result
        ≡ column_code_at res (map (λ h. index_of (cell_to_parent h res)) cells.now)
        (length out.old) }
    ensures values { out.new
        ≡ column_over_at res 0 (map (λ h. index_of (cell_to_parent h res)) cells.now) out.old }
    ensures place { at.new
        ≡ place_over_at res (map (λ h. index_of (cell_to_parent h res)) cells.now)
        (length out.old) at.old }
{
    fill_at(res, &CellToParent { res }, cells, NULL, out, at)
}

/// H3's `cellToCenterChild`.
#[unsafe(no_mangle)]
pub extern "C" fn h3w_cellToCenterChild(h: u64, res: i32, out: &mut u64) -> u32
    ensures code { result ≡ code_of (index_of (cell_to_center_child h res)) }
    ensures value { out.new ≡ result_unwrap_or (index_of (cell_to_center_child h res)) out.old }
{
    put(out, word(CellToCenterChild { res }, h))
}

/// [`h3w_cellToCenterChild`] of each index, once the resolution is judged.
#[unsafe(no_mangle)]
pub extern "C" fn h3w_cellsToCenterChildren(
    cells: &[u64],
    res: i32,
    out: &mut [u64],
    at: &mut usize,
) -> u32
    ensures code { result
        ≡ column_code_at res (map (λ h. index_of (cell_to_center_child h res)) cells.now)
        (length out.old) }
    ensures values { out.new
        ≡ column_over_at res 0 (map (λ h. index_of (cell_to_center_child h res)) cells.now)
        out.old }
    ensures place { at.new
        ≡ place_over_at res (map (λ h. index_of (cell_to_center_child h res)) cells.now)
        (length out.old) at.old }
{
    fill_at(res, &CellToCenterChild { res }, cells, NULL, out, at)
}

/// The last child, as [`h3w_cellToCenterChild`] gives the first.
#[unsafe(no_mangle)]
pub extern "C" fn h3w_cellToLastChild(h: u64, res: i32, out: &mut u64) -> u32
    ensures code { result ≡ code_of (index_of (cell_to_last_child h res)) }
    ensures value { out.new ≡ result_unwrap_or (index_of (cell_to_last_child h res)) out.old }
{
    put(out, word(CellToLastChild { res }, h))
}

/// [`h3w_cellToLastChild`] of each index, once the resolution is judged.
#[unsafe(no_mangle)]
pub extern "C" fn h3w_cellsToLastChildren(
    cells: &[u64],
    res: i32,
    out: &mut [u64],
    at: &mut usize,
) -> u32
    ensures code { result
        ≡ column_code_at res (map (λ h. index_of (cell_to_last_child h res)) cells.now)
        (length out.old) }
    ensures values { out.new
        ≡ column_over_at res 0 (map (λ h. index_of (cell_to_last_child h res)) cells.now)
        out.old }
    ensures place { at.new
        ≡ place_over_at res (map (λ h. index_of (cell_to_last_child h res)) cells.now)
        (length out.old) at.old }
{
    fill_at(res, &CellToLastChild { res }, cells, NULL, out, at)
}

/// H3's `cellToChildrenSize`.
#[unsafe(no_mangle)]
pub extern "C" fn h3w_cellToChildrenSize(h: u64, res: i32, out: &mut u64) -> u32
    ensures code { result ≡ code_of (cell_to_children_size h res) }
    ensures value { out.new ≡ result_unwrap_or (cell_to_children_size h res) out.old }
{
    put(out, word(CellToChildrenSize { res }, h))
}

/// [`h3w_cellToChildrenSize`] of each index, once the resolution is judged.
#[unsafe(no_mangle)]
pub extern "C" fn h3w_cellsToChildrenSizes(
    cells: &[u64],
    res: i32,
    out: &mut [u64],
    at: &mut usize,
) -> u32
    ensures code { result ≡ column_code_at res (map (λ h. cell_to_children_size h res) cells.now)
        (length out.old) }
    ensures values { out.new
        ≡ column_over_at res (2 ^ 64 - 1) (map (λ h. cell_to_children_size h res) cells.now)
        out.old }
    ensures place { at.new
        ≡ place_over_at res (map (λ h. cell_to_children_size h res) cells.now)
        (length out.old) at.old }
{
    fill_at(res, &CellToChildrenSize { res }, cells, NO_COUNT, out, at)
}

/// H3's `cellToChildPos`.
#[unsafe(no_mangle)]
pub extern "C" fn h3w_cellToChildPos(h: u64, res: i32, out: &mut u64) -> u32
    ensures code { result ≡ code_of (cell_to_child_pos h res) }
    ensures value { out.new ≡ result_unwrap_or (cell_to_child_pos h res) out.old }
{
    put(out, word(CellToChildPos { res }, h))
}

/// [`h3w_cellToChildPos`] of each index, once the resolution is judged.
#[unsafe(no_mangle)]
pub extern "C" fn h3w_cellsToChildPositions(
    cells: &[u64],
    res: i32,
    out: &mut [u64],
    at: &mut usize,
) -> u32
    ensures code { result ≡ column_code_at res (map (λ h. cell_to_child_pos h res) cells.now)
        (length out.old) }
    ensures values { out.new
        ≡ column_over_at res (2 ^ 64 - 1) (map (λ h. cell_to_child_pos h res) cells.now) out.old }
    ensures place { at.new
        ≡ place_over_at res (map (λ h. cell_to_child_pos h res) cells.now) (length out.old) at.old }
{
    fill_at(res, &CellToChildPos { res }, cells, NO_COUNT, out, at)
}

/// H3's `childPosToCell`. A position below 0 is one of 2^63 or more here, which no descendant has.
#[unsafe(no_mangle)]
pub extern "C" fn h3w_childPosToCell(position: u64, h: u64, res: i32, out: &mut u64) -> u32
    ensures code { result ≡ code_of (index_of (child_pos_to_cell position h res)) }
    ensures value { out.new
        ≡ result_unwrap_or (index_of (child_pos_to_cell position h res)) out.old }
{
    put(out, index_of(child_pos_to_cell(position, h, res)))
}

/// H3's `cellToChildren`, with the room for them.
#[unsafe(no_mangle)]
pub extern "C" fn h3w_cellToChildren(h: u64, res: i32, out: &mut [u64]) -> u32
    ensures code { result ≡ list_code (cell_to_children h res) (length out.old) }
    ensures list { out.new ≡ list_over (cell_to_children h res) out.old }
{
    match put_children_of(out, 0, h, res) {
        Ok(Some(_)) => 0,
        Ok(None) => MEMORY_BOUNDS,
        Err(error) => u32::from(error.number()),
    }
}

/// Where the children of each index begin among those of all, and where the last one's end, once the
/// resolution is judged.
#[unsafe(no_mangle)]
pub extern "C" fn h3w_cellsToChildrenStarts(
    cells: &[u64],
    res: i32,
    starts: &mut [u64],
    at: &mut usize,
) -> u32
    ensures code { result ≡ children_starts_code res cells.now (length starts.old) }
    ensures starts { starts.new ≡ children_starts_over res cells.now starts.old }
    ensures place { at.new ≡ children_starts_place res cells.now (length starts.old) at.old }
    ensures law { StandAtStarts res cells.now }
{
    match resolution_from(res) {
        Ok(_) => fill_starts(&CellToChildrenSize { res }, cells, starts, at),
        Err(error) => u32::from(error.number()),
    }
}

/// The children of each index, one index's after another's, once the resolution is judged.
#[unsafe(no_mangle)]
pub extern "C" fn h3w_cellsToChildren(
    cells: &[u64],
    res: i32,
    out: &mut [u64],
    at: &mut usize,
) -> u32
    ensures code { result ≡ children_code res cells.now (length out.old) }
    ensures children { out.new ≡ children_over res cells.now out.old }
    ensures place { at.new ≡ children_place res cells.now (length out.old) at.old }
{
    match resolution_from(res) {
        Ok(_) => fill_children(cells, res, out, at),
        Err(error) => u32::from(error.number()),
    }
}
