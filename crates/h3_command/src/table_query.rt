//! What the commands over a base cell table ask of it, and how the answer is written.
//!
//! The words come first: where one has no index, or no cell or edge has it, the table is not read.
//! The cells before a step that is refused are written, and then its error is returned.
//!
//! The error of the words comes first; then `Fault::Read`, `Fault::Memory` and `AnswerError::Table`
//! as `BaseTable::read` finds them; then that of what is asked; and `Fault::Write` where a push or
//! the flush fails.

ghost use Rattle.std.specs.Prelude.{◌≡◌, false};
ghost use Rattle.h3_table.specs.BaseTable.{link_of};
ghost use Rattle.h3_lines.specs.Reads.{SourceUse, source_use};
ghost use Rattle.h3_lines.specs.Write.{Writes, sink_use};
ghost use Rattle.h3_command.specs.Answer.{reads_table, with_table};
ghost use Rattle.h3_command.specs.Run.{Ends};
ghost use Rattle.h3_command.specs.TableQuery.{table_answer};
ghost use Rattle.h3_command.specs.declared.table_query.TableQuery.TheVariants.{GridDisk, GridDiskDistances, GridRing};

use h3_functions::DiskCells;
use h3_grid::{Disk, Ring, are_neighbors, edge_between, edge_destination};
use h3_index::{Cell, Edge, H3Error};
use h3_lines::{AnswerError, RunError, write_result, write_walk};
use h3_streams::{Sink, Source};
use h3_table::BaseTable;
use std::alloc::Global;

/// What is asked of a base cell table.
#[derive(Clone, Copy)]
pub(crate) enum TableQuery {
    /// The cells within a radius of a cell. `Domain` for a negative radius, and `Pentagon` where
    /// the walk is refused, before it begins or on its way.
    GridDisk { cell: Cell, k: i32 },

    /// The same, each cell with its ring.
    GridDiskDistances { cell: Cell, k: i32 },

    /// The cells of the ring of a radius around a cell. Errors as of a disk.
    GridRing { cell: Cell, k: i32 },

    /// Whether two cells are neighbors. `ResMismatch` where their resolutions differ; then, for
    /// different cells, `Pentagon` where either is in a pentagon base cell.
    Neighbors { cell: Cell, to: Cell },

    /// The edge that leaves a cell and leads to another. `ResMismatch` where their resolutions
    /// differ; then `NotNeighbors` for one cell given twice; then `Pentagon` where either is in a
    /// pentagon base cell; then `NotNeighbors` where no step leads from the first to the second.
    EdgeBetween { origin: Cell, destination: Cell },

    /// The cell that an edge leads to. `Pentagon` where the edge's origin or that cell is in a
    /// pentagon base cell.
    EdgeDestination { edge: Edge },
}

/// Writes the cells of a disk.
fn write_disk<W: Sink>(table: &BaseTable, cell: Cell, k: i32, out: &mut W) -> Result<(), RunError>
    ensures { Writes (table_answer (GridDisk cell k) (link_of table.now)) result
        (sink_use W.taken W.has_failed out.old out.new) }
{
    match Disk::new(table, cell, k) {
        Ok(disk) => write_walk(out, DiskCells { disk }),
        Err(error) => Err(RunError::Error(AnswerError::Call(error))),
    }
}

/// Writes the cells of a disk, each with its ring.
fn write_disk_distances<W: Sink>(
    table: &BaseTable,
    cell: Cell,
    k: i32,
    out: &mut W,
) -> Result<(), RunError>
    ensures { Writes (table_answer (GridDiskDistances cell k) (link_of table.now)) result
        (sink_use W.taken W.has_failed out.old out.new) }
{
    match Disk::new(table, cell, k) {
        Ok(walk) => write_walk(out, walk),
        Err(error) => Err(RunError::Error(AnswerError::Call(error))),
    }
}

/// Writes the cells of a ring.
fn write_ring<W: Sink>(table: &BaseTable, cell: Cell, k: i32, out: &mut W) -> Result<(), RunError>
    ensures { Writes (table_answer (GridRing cell k) (link_of table.now)) result
        (sink_use W.taken W.has_failed out.old out.new) }
{
    match Ring::new(table, cell, k) {
        Ok(walk) => write_walk(out, walk),
        Err(error) => Err(RunError::Error(AnswerError::Call(error))),
    }
}

/// Writes what is asked of a table.
fn write_query<W: Sink>(table: &BaseTable, query: TableQuery, out: &mut W) -> Result<(), RunError>
    ensures { Writes (table_answer query (link_of table.now)) result
        (sink_use W.taken W.has_failed out.old out.new) }
{
    match query {
        TableQuery::GridDisk { cell, k } => write_disk(table, cell, k, out),
        TableQuery::GridDiskDistances { cell, k } => write_disk_distances(table, cell, k, out),
        TableQuery::GridRing { cell, k } => write_ring(table, cell, k, out),
        TableQuery::Neighbors { cell, to } => write_result(out, are_neighbors(table, cell, to)),
        TableQuery::EdgeBetween {
            origin,
            destination,
        } => write_result(out, edge_between(table, origin, destination)),
        TableQuery::EdgeDestination { edge } => write_result(out, edge_destination(table, edge)),
    }
}

/// Reads the table and writes what the words ask of it, or returns their error.
// Inlined, its blocks would take their place on the stack while `perform` runs another command.
#[inline(never)]
pub(crate) fn over_table<T: Source, W: Sink>(
    alloc: Global,
    query: Result<TableQuery, H3Error>,
    table: &mut T,
    out: &mut W,
) -> Result<(), RunError>
    ensures ends { (input : SourceUse) → Ends (with_table table_answer query) input
        (source_use T.left T.has_failed table.old table.new) result
        (sink_use W.taken W.has_failed out.old out.new) }
    ensures table_kept { reads_table (with_table table_answer query) ≡ false
        → table.new ≡ table.old }
{
    let query = query?;
    let table = BaseTable::read(alloc, table)?;
    write_query(&table, query, out)
}
