//! Lists of which each line is answered over the links of a base cell table. The table is read and
//! judged as a whole before standard input is read.
//!
//! `AnswerError::Table`, `Fault::Read` and `Fault::Memory` are as of `BaseTable::read`. Then come the
//! errors of standard input.

ghost use Rattle.std.specs.Prelude.{◌≡◌, ℕ, List, Err, IfOk, IfErr, codes};
ghost use Rattle.h3_streams.specs.Stream.{HasLeft};
ghost use Rattle.h3_table.specs.BaseTable.{link_of};
ghost use Rattle.h3_lines.specs.Reads.{source_use};
ghost use Rattle.h3_lines.specs.Write.{sink_use};
ghost use Rattle.h3_command.specs.TableLists.{destination_answer, destination_of};
ghost use Rattle.h3_command.specs.Answer.ListRequest.{of_lines};
ghost use Rattle.h3_command.specs.Answer.Request.{after_table};
ghost use Rattle.h3_command.specs.LongAnswers.{between_parts, disk_distances_for, disk_for, ring_for};
ghost use Rattle.h3_command.specs.Rows.{pair_form, rows_form};
ghost use Rattle.h3_command.specs.Run.{Ends, GivesTable, RefusesTableFile};

use crate::long::{DiskDistancesOf, DiskOf, RingOf};
use crate::required::edge_given;
use crate::rows::{answer_listed, answer_listed_lines, answer_listed_pairs, between_parts};
use h3_grid::edge_destination;
use h3_index::{Cell, H3Error};
use h3_lines::{AnswerLine, BLOCK, RunError, put_result};
use h3_requests::RowOptions;
use h3_streams::{Sink, Source};
use h3_table::BaseTable;
use std::alloc::Global;

/// Reads a table.
fn read_table<T: Source>(alloc: Global, file: &mut T) -> Result<BaseTable, RunError>
    ensures table { IfOk result (λ table. (bytes : List ℕ) × HasLeft (T.left file.old) bytes ×
        GivesTable bytes (source_use T.left T.has_failed file.old file.new) (link_of table)) }
    ensures refused { IfErr result (λ e. (bytes : List ℕ) × HasLeft (T.left file.old) bytes ×
        RefusesTableFile bytes (source_use T.left T.has_failed file.old file.new) (Err e)) }
{
    let table = BaseTable::read(alloc, file)?;
    Ok(table)
}

/// The cell that the edge with an index leads to. `Failed` where there is no index, `DirEdgeInvalid`
/// where no edge has it, and `Pentagon` where the edge's origin or that cell is in a pentagon base
/// cell.
fn destination_of(table: &BaseTable, index: Option<u64>) -> Result<Cell, H3Error>
    ensures { result ≡ destination_of (link_of table.now) index }
{
    let edge = edge_given(index)?;
    edge_destination(table, edge)
}

/// The cell that an edge leads to, of which `answer_each` writes the answers.
#[derive(Drop)]
struct DestinationOf<'t> {
    table: &'t BaseTable,
}

impl<'t> AnswerLine for DestinationOf<'t> {
    ghost answer_of = { λ f. destination_answer (link_of f.table.now) };

    #[inline(always)]
    fn put(
        &self,
        index: Option<u64>,
        _place: &mut usize,
        block: &mut [u8; BLOCK],
        at: usize,
    ) -> Result<usize, H3Error> {
        put_result(destination_of(self.table, index), block, at)
    }
}

/// Reads a table, and then writes the cell that each edge of a list leads to.
// Inlined, its blocks would take their place on the stack while the caller runs another command.
#[inline(never)]
pub(crate) fn get_directed_edge_destinations<R: Source, T: Source, W: Sink>(
    alloc: Global,
    rows: &Option<RowOptions>,
    input: &mut R,
    table: &mut T,
    out: &mut W,
) -> Result<(), RunError>
    ensures { Ends (after_table
        (λ link. of_lines (rows_form rows.now (codes "getDirectedEdgeDestination")) (destination_answer link)))
        (source_use R.left R.has_failed input.old input.new)
        (source_use T.left T.has_failed table.old table.new) result
        (sink_use W.taken W.has_failed out.old out.new) }
{
    let links = read_table(alloc, table)?;
    let function = DestinationOf { table: &links };
    let name = "getDirectedEdgeDestination";
    answer_listed(alloc, rows, name, &function, input, out)
}

/// Reads a table, and then writes the cells of the disk around each cell of a list.
// Inlined, its blocks would take their place on the stack while the caller runs another command.
#[inline(never)]
pub(crate) fn grid_disks_unsafe<R: Source, T: Source, W: Sink>(
    alloc: Global,
    k: i32,
    rows: &Option<RowOptions>,
    input: &mut R,
    table: &mut T,
    out: &mut W,
) -> Result<(), RunError>
    ensures { Ends (after_table (λ link. of_lines (rows_form rows.now (codes "gridDiskUnsafe")) (disk_for link k)))
        (source_use R.left R.has_failed input.old input.new)
        (source_use T.left T.has_failed table.old table.new) result
        (sink_use W.taken W.has_failed out.old out.new) }
{
    let table = read_table(alloc, table)?;
    let function = DiskOf { table: &table, k };
    answer_listed_lines(alloc, rows, "gridDiskUnsafe", &function, input, out)
}

/// The same, each cell with its ring.
// Inlined, its blocks would take their place on the stack while the caller runs another command.
#[inline(never)]
pub(crate) fn grid_disks_distances_unsafe<R: Source, T: Source, W: Sink>(
    alloc: Global,
    k: i32,
    rows: &Option<RowOptions>,
    input: &mut R,
    table: &mut T,
    out: &mut W,
) -> Result<(), RunError>
    ensures { Ends (after_table
        (λ link. of_lines (pair_form rows.now) (disk_distances_for (between_parts rows.now) link k)))
        (source_use R.left R.has_failed input.old input.new)
        (source_use T.left T.has_failed table.old table.new) result
        (sink_use W.taken W.has_failed out.old out.new) }
{
    let table = read_table(alloc, table)?;
    let between = between_parts(rows);
    let function = DiskDistancesOf {
        table: &table,
        k,
        between,
    };
    answer_listed_pairs(alloc, rows, &function, input, out)
}

/// Reads a table, and then writes the cells of the ring around each cell of a list.
// Inlined, its blocks would take their place on the stack while the caller runs another command.
#[inline(never)]
pub(crate) fn grid_rings_unsafe<R: Source, T: Source, W: Sink>(
    alloc: Global,
    k: i32,
    rows: &Option<RowOptions>,
    input: &mut R,
    table: &mut T,
    out: &mut W,
) -> Result<(), RunError>
    ensures { Ends (after_table (λ link. of_lines (rows_form rows.now (codes "gridRingUnsafe")) (ring_for link k)))
        (source_use R.left R.has_failed input.old input.new)
        (source_use T.left T.has_failed table.old table.new) result
        (sink_use W.taken W.has_failed out.old out.new) }
{
    let table = read_table(alloc, table)?;
    let function = RingOf { table: &table, k };
    answer_listed_lines(alloc, rows, "gridRingUnsafe", &function, input, out)
}
