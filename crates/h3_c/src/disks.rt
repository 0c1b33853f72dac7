//! Disks of a column of cells, one after another, into C's memory.

ghost use Rattle.std.specs.Prelude.{◌≡◌, ◌≤◌, ◌+◌, ◌-◌, ◌++◌, ℕ, List, Result, length};
ghost use Rattle.std.specs.Iterator.{AlwaysYields, IsFinite};
ghost use Rattle.h3_index.specs.Cell.{Address};
ghost use Rattle.h3_index.specs.declared.error.H3Error.{H3Error};
ghost use Rattle.h3_table.specs.BaseTable.{link_of};
ghost use Rattle.h3_functions.specs.Walks.{grid_disk_unsafe as disk};
ghost use Rattle.h3_c.specs.Disks.{all_disks, disks, walk_items, whole_walks};
ghost use Rattle.h3_c.specs.Lists.{indexes, laid_over};
ghost use Rattle.h3_c.specs.Tables.{grid_disk_unsafe};
ghost use Rattle.h3_c.specs.Walks.{given, items_code};

use crate::column::MEMORY_BOUNDS;
use crate::tables::Table;
use crate::walks::FAILED;
use h3_functions::{DiskCells, cell_from};
use h3_grid::Disk;
use h3_index::{Cell, H3Error};
use h3_table::BaseTable;

/// Puts the indexes of the cells of a walk into the slots from a place on, up to its error, as far
/// as there is room. Returns 0 and the place after them; or the number of the error, or
/// `MEMORY_BOUNDS`.
#[inline(always)]
fn put_walk_from<I: Iterator<Item = Result<Cell, H3Error>> + Drop>(
    out: &mut [u64],
    place: usize,
    walk: I,
) -> (u32, usize)
    requires can { I.can_next walk }
    requires ends { IsFinite (I.remaining walk) }
    requires within { place ≤ length out.old }
    ensures code { (all : List (Result Address H3Error)) → AlwaysYields I.next_gives (λ x. x) walk all →
        result.0 ≡ items_code all (length out.old - place) }
    ensures end { (all : List (Result Address H3Error)) → AlwaysYields I.next_gives (λ x. x) walk all →
        result.0 ≡ 0 → result.1 ≡ place + length all }
    ensures within { result.1 ≤ length out.old }
    ensures put { (all : List (Result Address H3Error)) → AlwaysYields I.next_gives (λ x. x) walk all →
        (before : List Address) → (first : List ℕ) → length before ≡ place →
        out.old ≡ laid_over (indexes before) first →
        out.new ≡ laid_over (indexes (before ++ given all)) first }
{
    let mut i: usize = place;
    for item in walk {
        match item {
            Ok(cell) => {
                if i >= out.len() {
                    return (MEMORY_BOUNDS, place);
                }
                out[i] = cell.raw();
                i += 1;
            }
            Err(error) => return (u32::from(error.number()), place),
        }
    }
    (0, i)
}

/// Puts the cells of a disk from a place on, as [`put_walk_from`] does.
fn put_disk_from(
    table: &BaseTable,
    cell: Cell,
    k: i32,
    out: &mut [u64],
    place: usize,
) -> (u32, usize)
    requires within { place ≤ length out.old }
    ensures code { result.0
        ≡ items_code (walk_items (disk (link_of table.now) cell k)) (length out.old - place) }
    ensures end { result.0 ≡ 0 →
        result.1 ≡ place + length (walk_items (disk (link_of table.now) cell k)) }
    ensures within { result.1 ≤ length out.old }
    ensures put { (before : List Address) → (first : List ℕ) → length before ≡ place →
        out.old ≡ laid_over (indexes before) first → out.new
        ≡ laid_over (indexes (before ++ given (walk_items (disk (link_of table.now) cell k)))) first }
{
    match Disk::new(table, cell, k) {
        Ok(disk) => put_walk_from(out, place, DiskCells { disk }),
        Err(error) => (u32::from(error.number()), place),
    }
}

/// Puts the cells of the disk of an index over a table, as [`put_walk_from`] does.
fn put_disk_of(table: &Table, origin: u64, k: i32, out: &mut [u64], place: usize) -> (u32, usize)
    requires within { place ≤ length out.old }
    ensures code { result.0
        ≡ items_code (walk_items (grid_disk_unsafe table.now origin k)) (length out.old - place) }
    ensures end { result.0 ≡ 0 →
        result.1 ≡ place + length (walk_items (grid_disk_unsafe table.now origin k)) }
    ensures within { result.1 ≤ length out.old }
    ensures put { (before : List Address) → (first : List ℕ) → length before ≡ place →
        out.old ≡ laid_over (indexes before) first → out.new
        ≡ laid_over (indexes (before ++ given (walk_items (grid_disk_unsafe table.now origin k)))) first }
{
    if table.is_refused() {
        return (FAILED, place);
    }
    match cell_from(origin) {
        Ok(cell) => put_disk_from(&table.links, cell, k, out, place),
        Err(error) => (u32::from(error.number()), place),
    }
}

/// H3's `gridDisksUnsafe`, over a table, with the room for the cells: the disks of the cells, one
/// after another. The first error ends them.
#[unsafe(no_mangle)]
pub extern "C" fn h3w_gridDisksUnsafe(
    table: &Table,
    cells: &[u64],
    k: i32,
    out: &mut [u64],
    at: &mut usize,
) -> u32
    ensures code { result ≡ items_code (all_disks table.now cells.now k) (length out.old) }
    ensures list { out.new ≡ laid_over (indexes (given (all_disks table.now cells.now k))) out.old }
    ensures place { at.new ≡ whole_walks (length out.old) (disks table.now cells.now k) }
{
    let mut place: usize = 0;
    for i in 0..cells.len() {
        let (code, end) = put_disk_of(table, cells[i], k, out, place);
        if code != 0 {
            *at = i;
            return code;
        }
        place = end;
    }
    *at = cells.len();
    0
}
