//! Base cell tables, and what is returned for one pair of cells or one edge over them.

ghost use Rattle.std.specs.Prelude.{◌≡◌, ◌≢◌, ◌⊎◌, ◌==◌, Some};
ghost use Rattle.std.specs.Result.{result_unwrap_or};
ghost use Rattle.h3_table.specs.BaseTable.{link_of};
ghost use Rattle.h3_table.specs.Fields.{records_of};
ghost use Rattle.h3_table.specs.Table.{links_of, table_fault};
ghost use Rattle.h3_directions.specs.declared.error.TableError.{TableError};
ghost use Rattle.h3_c.specs.Outcome.{code_of, index_of, truth_of};
ghost use Rattle.h3_c.specs.Tables.{are_neighbor_cells, cells_to_directed_edge, edge_index_of, get_directed_edge_destination, fault_code, error_code};

use crate::outcome::{index_of, put, truth};
use h3_directions::TableError;
use h3_functions::{cell_from, edge_from};
use h3_grid::{are_neighbors, edge_between, edge_destination};
use h3_index::{Cell, H3Error};
use h3_table::BaseTable;
use std::alloc::Global;

/// A base cell table in C's memory. It has a fixed size, and nothing in it is to be freed.
#[repr(C)]
#[derive(Drop)]
pub struct Table {
    pub(crate) links: BaseTable,
    accepted: u8,
}

impl Table {
    /// Whether the file was refused, so that there is no table.
    #[inline(always)]
    pub(crate) fn is_refused(&self) -> bool
        ensures { result ≡ (self.now.accepted == 0) }
    {
        self.accepted == 0
    }
}

/// Why a table file was refused: the number of the error, or 0; the number of the record or of the
/// base cell, and the direction, where the error has one.
#[repr(C)]
#[derive(Clone, Copy)]
pub struct TableFault {
    code: u32,
    direction: u32,
    at: u64,
}

/// An error in numbers.
fn error_code(error: TableError) -> TableFault
    ensures { result ≡ error_code error }
{
    let (code, at, direction) = match error {
        TableError::Read => (1, 0, 0),
        TableError::Memory => (2, 0, 0),
        TableError::Form(record) => (3, record, 0),
        TableError::Range(record) => (4, record, 0),
        TableError::Repeated(record) => (5, record, 0),
        TableError::Missing => (6, 0, 0),
        TableError::Neighbours(base) => (7, u64::from(base), 0),
        TableError::Reversal(base, direction) => (8, u64::from(base), direction.digit()),
        TableError::Corner(base, direction) => (9, u64::from(base), direction.digit()),
    };
    TableFault {
        code,
        direction: u32::from(direction),
        at,
    }
}

/// The table in the bytes of a file. Where these are refused, `fault` says why, and every function
/// over the table returns `Failed`.
#[unsafe(no_mangle)]
pub extern "C" fn h3w_readTable(alloc: Global, file: &[u8], fault: &mut TableFault) -> Table
    ensures fault { (fault.new ≡ fault_code (Some TableError.Memory))
        ⊎ (fault.new ≡ fault_code (table_fault (records_of file.now))) }
    ensures accepted { fault.new.code ≡ 0 → (result.accepted ≡ 1)
        × (link_of result.links ≡ links_of (records_of file.now)) }
    ensures refused { fault.new.code ≢ 0 → result.accepted ≡ 0 }
{
    match BaseTable::from_csv(alloc, file) {
        Ok(links) => {
            *fault = TableFault {
                code: 0,
                direction: 0,
                at: 0,
            };
            Table { links, accepted: 1 }
        }
        Err(error) => {
            *fault = error_code(error);
            Table {
                links: BaseTable::closed(),
                accepted: 0,
            }
        }
    }
}

/// Whether two cells are neighbors.
fn neighbors(table: &Table, a: u64, b: u64) -> Result<i32, H3Error>
    ensures { result ≡ truth_of (are_neighbor_cells table.now a b) }
{
    if table.is_refused() {
        return Err(H3Error::Failed);
    }
    let a = cell_from(a)?;
    let b = cell_from(b)?;
    let are = are_neighbors(&table.links, a, b)?;
    Ok(truth(are))
}

/// H3's `areNeighborCells`, over a table.
#[unsafe(no_mangle)]
pub extern "C" fn h3w_areNeighborCells(
    table: &Table,
    origin: u64,
    destination: u64,
    out: &mut i32,
) -> u32
    ensures code { result ≡ code_of (truth_of (are_neighbor_cells table.now origin destination)) }
    ensures value { out.new
        ≡ result_unwrap_or (truth_of (are_neighbor_cells table.now origin destination)) out.old }
{
    put(out, neighbors(table, origin, destination))
}

/// The edge that leaves a cell and leads to another.
fn edge_to(table: &Table, a: u64, b: u64) -> Result<u64, H3Error>
    ensures { result ≡ edge_index_of (cells_to_directed_edge table.now a b) }
{
    if table.is_refused() {
        return Err(H3Error::Failed);
    }
    let origin = cell_from(a)?;
    let destination = cell_from(b)?;
    let edge = edge_between(&table.links, origin, destination)?;
    Ok(edge.raw())
}

/// H3's `cellsToDirectedEdge`, over a table.
#[unsafe(no_mangle)]
pub extern "C" fn h3w_cellsToDirectedEdge(
    table: &Table,
    origin: u64,
    destination: u64,
    out: &mut u64,
) -> u32
    ensures code { result
        ≡ code_of (edge_index_of (cells_to_directed_edge table.now origin destination)) }
    ensures value { out.new
        ≡ result_unwrap_or (edge_index_of (cells_to_directed_edge table.now origin destination)) out.old }
{
    put(out, edge_to(table, origin, destination))
}

/// The cell that an edge leads to.
fn destination(table: &Table, index: u64) -> Result<Cell, H3Error>
    ensures { result ≡ get_directed_edge_destination table.now index }
{
    if table.is_refused() {
        return Err(H3Error::Failed);
    }
    let edge = edge_from(index)?;
    edge_destination(&table.links, edge)
}

/// H3's `getDirectedEdgeDestination`, over a table.
#[unsafe(no_mangle)]
pub extern "C" fn h3w_getDirectedEdgeDestination(table: &Table, edge: u64, out: &mut u64) -> u32
    ensures code { result ≡ code_of (index_of (get_directed_edge_destination table.now edge)) }
    ensures value { out.new
        ≡ result_unwrap_or (index_of (get_directed_edge_destination table.now edge)) out.old }
{
    put(out, index_of(destination(table, edge)))
}
