//! Disks and rings over a table, into C's memory.

ghost use Rattle.std.specs.Prelude.{◌≡◌, ℕ, List, Result, Ok, length, min};
ghost use Rattle.std.specs.Iterator.{AlwaysYields, IsFinite};
ghost use Rattle.h3_index.specs.Cell.{Address};
ghost use Rattle.h3_index.specs.declared.error.H3Error.{H3Error};
ghost use Rattle.h3_table.specs.BaseTable.{link_of};
ghost use Rattle.h3_functions.specs.Walks.{grid_disk_distances_unsafe as disk_distances, grid_disk_unsafe as disk, grid_ring_unsafe as ring};
ghost use Rattle.h3_c.specs.Lists.{indexes, laid_over};
ghost use Rattle.h3_c.specs.Tables.{grid_disk_distances_unsafe, grid_disk_unsafe, grid_ring_unsafe};
ghost use Rattle.h3_c.specs.Walks.{cells_over, given, items_code, rings_over, walk_code, walk_over};

use crate::column::MEMORY_BOUNDS;
use crate::tables::Table;
use h3_functions::{DiskCells, cell_from};
use h3_grid::{Disk, Ring};
use h3_index::{Cell, H3Error};
use h3_table::BaseTable;

/// H3's number for a table whose file was refused.
pub(crate) const FAILED: u32 = 1;

/// Puts the indexes of the cells of a walk into the first slots, up to its error, as far as there
/// is room.
#[inline(always)]
fn put_walk<I: Iterator<Item = Result<Cell, H3Error>> + Drop>(out: &mut [u64], walk: I) -> u32
    requires can { I.can_next walk }
    requires ends { IsFinite (I.remaining walk) }
    ensures code { (all : List (Result Address H3Error)) → AlwaysYields I.next_gives (λ x. x) walk all →
        result ≡ items_code all (length out.old) }
    ensures put { (all : List (Result Address H3Error)) → AlwaysYields I.next_gives (λ x. x) walk all →
        out.new ≡ laid_over (indexes (given all)) out.old }
{
    let mut i: usize = 0;
    for item in walk {
        match item {
            Ok(cell) => {
                if i >= out.len() {
                    return MEMORY_BOUNDS;
                }
                out[i] = cell.raw();
                i += 1;
            }
            Err(error) => return u32::from(error.number()),
        }
    }
    0
}

/// Puts the indexes of the cells of a walk, and their rings, into the first slots, up to its error,
/// as far as there is room for both.
#[inline(always)]
fn put_rings<I: Iterator<Item = Result<(Cell, u32), H3Error>> + Drop>(
    out: &mut [u64],
    rings: &mut [u32],
    walk: I,
) -> u32
    requires can { I.can_next walk }
    requires ends { IsFinite (I.remaining walk) }
    ensures code { (all : List (Result (Address × ℕ) H3Error)) →
        AlwaysYields I.next_gives (λ x. x) walk all →
        result ≡ items_code all (min (length out.old) (length rings.old)) }
    ensures cells { (all : List (Result (Address × ℕ) H3Error)) →
        AlwaysYields I.next_gives (λ x. x) walk all →
        out.new ≡ cells_over (Ok all) (min (length out.old) (length rings.old)) out.old }
    ensures rings { (all : List (Result (Address × ℕ) H3Error)) →
        AlwaysYields I.next_gives (λ x. x) walk all →
        rings.new ≡ rings_over (Ok all) (min (length out.old) (length rings.old)) rings.old }
{
    let mut i: usize = 0;
    for item in walk {
        match item {
            Ok(found) => {
                if i >= out.len() {
                    return MEMORY_BOUNDS;
                }
                if i >= rings.len() {
                    return MEMORY_BOUNDS;
                }
                out[i] = found.0.raw();
                rings[i] = found.1;
                i += 1;
            }
            Err(error) => return u32::from(error.number()),
        }
    }
    0
}

/// Puts the cells of a disk.
fn put_disk(table: &BaseTable, cell: Cell, k: i32, out: &mut [u64]) -> u32
    ensures code { result ≡ walk_code (disk (link_of table.now) cell k) (length out.old) }
    ensures put { out.new ≡ walk_over (disk (link_of table.now) cell k) out.old }
{
    match Disk::new(table, cell, k) {
        Ok(disk) => put_walk(out, DiskCells { disk }),
        Err(error) => u32::from(error.number()),
    }
}

/// Puts the cells of a disk and their rings.
fn put_distances(table: &BaseTable, cell: Cell, k: i32, out: &mut [u64], rings: &mut [u32]) -> u32
    ensures code { result ≡ walk_code (disk_distances (link_of table.now) cell k)
        (min (length out.old) (length rings.old)) }
    ensures cells { out.new ≡ cells_over (disk_distances (link_of table.now) cell k)
        (min (length out.old) (length rings.old)) out.old }
    ensures rings { rings.new ≡ rings_over (disk_distances (link_of table.now) cell k)
        (min (length out.old) (length rings.old)) rings.old }
{
    match Disk::new(table, cell, k) {
        Ok(disk) => put_rings(out, rings, disk),
        Err(error) => u32::from(error.number()),
    }
}

/// Puts the cells of a ring.
fn put_ring(table: &BaseTable, cell: Cell, k: i32, out: &mut [u64]) -> u32
    ensures code { result ≡ walk_code (ring (link_of table.now) cell k) (length out.old) }
    ensures put { out.new ≡ walk_over (ring (link_of table.now) cell k) out.old }
{
    match Ring::new(table, cell, k) {
        Ok(walk) => put_walk(out, walk),
        Err(error) => u32::from(error.number()),
    }
}

/// H3's `gridDiskUnsafe`, over a table, with the room for the cells.
#[unsafe(no_mangle)]
pub extern "C" fn h3w_gridDiskUnsafe(table: &Table, origin: u64, k: i32, out: &mut [u64]) -> u32
    ensures code { result ≡ walk_code (grid_disk_unsafe table.now origin k) (length out.old) }
    ensures list { out.new ≡ walk_over (grid_disk_unsafe table.now origin k) out.old }
{
    if table.is_refused() {
        return FAILED;
    }
    match cell_from(origin) {
        Ok(cell) => put_disk(&table.links, cell, k, out),
        Err(error) => u32::from(error.number()),
    }
}

/// H3's `gridDiskDistancesUnsafe`, over a table, with the room for the cells and for their rings.
#[unsafe(no_mangle)]
pub extern "C" fn h3w_gridDiskDistancesUnsafe(
    table: &Table,
    origin: u64,
    k: i32,
    out: &mut [u64],
    distances: &mut [u32],
) -> u32
    ensures code { result ≡ walk_code (grid_disk_distances_unsafe table.now origin k)
        (min (length out.old) (length distances.old)) }
    ensures list { out.new ≡ cells_over (grid_disk_distances_unsafe table.now origin k)
        (min (length out.old) (length distances.old)) out.old }
    ensures distances { distances.new
        ≡ rings_over (grid_disk_distances_unsafe table.now origin k)
        (min (length out.old) (length distances.old)) distances.old }
{
    if table.is_refused() {
        return FAILED;
    }
    match cell_from(origin) {
        Ok(cell) => put_distances(&table.links, cell, k, out, distances),
        Err(error) => u32::from(error.number()),
    }
}

/// H3's `gridRingUnsafe`, over a table, with the room for the cells.
#[unsafe(no_mangle)]
pub extern "C" fn h3w_gridRingUnsafe(table: &Table, origin: u64, k: i32, out: &mut [u64]) -> u32
    ensures code { result ≡ walk_code (grid_ring_unsafe table.now origin k) (length out.old) }
    ensures list { out.new ≡ walk_over (grid_ring_unsafe table.now origin k) out.old }
{
    if table.is_refused() {
        return FAILED;
    }
    match cell_from(origin) {
        Ok(cell) => put_ring(&table.links, cell, k, out),
        Err(error) => u32::from(error.number()),
    }
}
