//! Compaction.

ghost use Rattle.std.specs.Prelude.{◌≡◌, ◌≢◌, ◌≤◌, ◌⊎◌, length, nat_le, All, Some, None, Ok, IfOk, IfErr};
ghost use Rattle.std.specs.Result.{result_unwrap_or};
ghost use Rattle.h3_index.specs.Cell.{resolution};
ghost use Rattle.h3_index.specs.declared.error.H3Error.TheVariants.{CellInvalid, MemoryAlloc};
ghost use Rattle.h3_set.specs.Uncompaction.{uncompacted};
ghost use Rattle.h3_functions.specs.Sets.{uncompact_cells as uncompact};
ghost use Rattle.h3_c.specs.Lists.{count_of, indexes, laid_over, list_code, list_over};
ghost use Rattle.h3_c.specs.Sets.{cells_in, compact_cells, uncompact_cells};

use crate::column::MEMORY_BOUNDS;
use crate::descendants::put_descendants;
use crate::lists::put_cells;
use h3_index::{Cell, H3Error, resolution_from};
use h3_set::{compact_in_place, uncompact};
use std::alloc::Global;

/// The cells with these indexes. `CellInvalid` where one is no cell's, `MemoryAlloc` where there is
/// no memory.
pub(crate) fn cells_in(alloc: Global, indexes: &[u64]) -> Result<Vec<Cell>, H3Error>
    ensures read { IfOk result (λ cells. cells_in indexes.now ≡ Some cells.items) }
    ensures long { IfOk result (λ cells. length cells.items ≡ length indexes.now) }
    ensures refused { IfErr result (λ e. (e ≡ MemoryAlloc)
        ⊎ ((e ≡ CellInvalid) × (cells_in indexes.now ≡ None))) }
{
    let mut cells = match Vec::with_capacity(alloc, indexes.len()) {
        Ok(cells) => cells,
        Err(_) => return Err(H3Error::MemoryAlloc),
    };
    for index in indexes {
        let cell = Cell::new(*index)?;
        if cells.push(cell).is_err() {
            return Err(H3Error::MemoryAlloc);
        }
    }
    Ok(cells)
}

/// Puts the indexes of cells into the first slots.
pub(crate) fn put_slice(out: &mut [u64], cells: &[Cell]) -> u32
    ensures code { result ≡ list_code (Ok cells.now) (length out.old) }
    ensures list { out.new ≡ list_over (Ok cells.now) out.old }
{
    if put_cells(out, cells.iter().copied()) {
        0
    } else {
        MEMORY_BOUNDS
    }
}

/// Puts the indexes of the cells of a resolution below those of a list, none of which is finer, into
/// the first slots, as far as they go, and returns whether all had room.
fn put_below_each(out: &mut [u64], cells: &[Cell], r: u8) -> bool
    requires at_most_fifteen { r ≤ 15 }
    requires none_finer { All (λ c. resolution c ≤ r) cells.now }
    ensures fits { result ≡ nat_le (length (uncompacted cells.now r)) (length out.old) }
    ensures put { out.new ≡ laid_over (indexes (uncompacted cells.now r)) out.old }
{
    let mut place: usize = 0;
    for i in 0..cells.len() {
        match put_descendants(out, place, cells[i], r) {
            Some(end) => place = end,
            None => return false,
        }
    }
    true
}

/// Puts the indexes of the cells of a resolution below those of a list into the first slots.
fn put_uncompacted(out: &mut [u64], cells: &[Cell], res: i32) -> u32
    ensures code { result ≡ list_code (uncompact res cells.now) (length out.old) }
    ensures list { out.new ≡ list_over (uncompact res cells.now) out.old }
{
    let r = match resolution_from(res) {
        Ok(r) => r,
        Err(error) => return u32::from(error.number()),
    };
    if let Err(error) = uncompact(cells, res) {
        return u32::from(error.number());
    }
    if put_below_each(out, cells, r) {
        0
    } else {
        MEMORY_BOUNDS
    }
}

/// H3's `compactCells`, with the room and the number of the compacted cells.
#[unsafe(no_mangle)]
pub extern "C" fn h3w_compactCells(
    alloc: Global,
    set: &[u64],
    out: &mut [u64],
    count: &mut usize,
) -> u32
    ensures code { (result ≡ 13) ⊎ (result ≡ list_code (compact_cells set.now) (length out.old)) }
    ensures list { result ≢ 13 → out.new ≡ list_over (compact_cells set.now) out.old }
    ensures count { result ≢ 13 →
        count.new ≡ result_unwrap_or (count_of (compact_cells set.now)) count.old }
    ensures kept { result ≡ 13 → (out.new ≡ out.old) × (count.new ≡ count.old) }
{
    let mut cells = match cells_in(alloc, set) {
        Ok(cells) => cells,
        Err(error) => return u32::from(error.number()),
    };
    match compact_in_place(&mut cells) {
        Ok(n) => {
            *count = n;
            put_slice(out, &cells[..n])
        }
        Err(error) => u32::from(error.number()),
    }
}

/// H3's `uncompactCells`.
#[unsafe(no_mangle)]
pub extern "C" fn h3w_uncompactCells(alloc: Global, set: &[u64], out: &mut [u64], res: i32) -> u32
    ensures code { (result ≡ 13)
        ⊎ (result ≡ list_code (uncompact_cells set.now res) (length out.old)) }
    ensures list { result ≢ 13 → out.new ≡ list_over (uncompact_cells set.now res) out.old }
    ensures kept { result ≡ 13 → out.new ≡ out.old }
{
    let cells = match cells_in(alloc, set) {
        Ok(cells) => cells,
        Err(error) => return u32::from(error.number()),
    };
    put_uncompacted(out, &cells, res)
}
