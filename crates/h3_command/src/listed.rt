//! Lists of cells that are answered as a whole: bare, or as the cells of rows.

ghost use Rattle.std.specs.Prelude.{◌≡◌, List, IfOk, IfErr};
ghost use Rattle.h3_index.specs.Cell.{Address};
ghost use Rattle.h3_lines.specs.Answer.{Answer};
ghost use Rattle.h3_command.specs.Listed.{GivesCells, RefusesCells, RefusesNumbered};
ghost use Rattle.h3_command.specs.Rows.{list_form, list_form_as};
ghost use Rattle.h3_command.specs.Run.{EndsList, EndsNumberedList, WritesUnlessMemory};
ghost use Rattle.h3_lines.specs.List.{itself};
ghost use Rattle.h3_lines.specs.Reads.{source_use};
ghost use Rattle.h3_lines.specs.Write.{sink_use};

use h3_index::Cell;
use h3_lines::{CellJob, CellOf, Itself, RunError, read_cells, take_cells_as};
use h3_requests::RowOptions;
use h3_rows::{take_row_cells, take_row_cells_as};
use h3_streams::{Sink, Source};
use std::alloc::Global;

/// Has a job take what a function says for the cells of a list: those on its lines, or those of its rows. An
/// error of either is reported with its line.
pub(crate) fn take_listed_as<F: CellOf + Drop, V: CellJob + Drop, R: Source>(
    alloc: Global,
    function: F,
    job: V,
    rows: &Option<RowOptions>,
    input: &mut R,
) -> Result<V, RunError>
    requires { V.count job ≡ 0 }
    ensures taken { IfOk result (λ after. (cells : List Address)
        × GivesCells (F.says function) (list_form_as (F.says function) rows.now)
        (source_use R.left R.has_failed input.old input.new) cells
        × V.taken job cells after) }
    ensures refused { IfErr result (RefusesNumbered (F.says function)
        (list_form_as (F.says function) rows.now)
        (source_use R.left R.has_failed input.old input.new)) }
{
    match rows {
        None => take_cells_as(alloc, function, job, input),
        Some(options) => take_row_cells_as(alloc, function, job, options, input),
    }
}

/// Has the cells of a list taken: those on its lines, or those of its rows. An error of either is
/// reported with its line.
pub(crate) fn take_listed<V: CellJob + Drop, R: Source>(
    alloc: Global,
    job: V,
    rows: &Option<RowOptions>,
    input: &mut R,
) -> Result<V, RunError>
    requires { V.count job ≡ 0 }
    ensures taken { IfOk result (λ after. (cells : List Address)
        × GivesCells itself (list_form rows.now) (source_use R.left R.has_failed input.old input.new) cells
        × V.taken job cells after) }
    ensures refused { IfErr result (RefusesNumbered itself (list_form rows.now)
        (source_use R.left R.has_failed input.old input.new)) }
{
    take_listed_as(alloc, Itself, job, rows, input)
}

/// Reads the cells of a list: those on its lines, or those of its rows. An error of either is
/// reported with its line.
pub(crate) fn read_numbered<R: Source>(
    alloc: Global,
    rows: &Option<RowOptions>,
    input: &mut R,
) -> Result<Vec<Cell>, RunError>
    ensures cells { IfOk result (λ cells. GivesCells itself (list_form rows.now)
        (source_use R.left R.has_failed input.old input.new) cells.items) }
    ensures refused { IfErr result (RefusesNumbered itself (list_form rows.now)
        (source_use R.left R.has_failed input.old input.new)) }
{
    take_listed(alloc, Vec::new(alloc), rows, input)
}

/// As `read_numbered`, but an error of a bare list is reported without its line.
fn read_listed<R: Source>(
    alloc: Global,
    rows: &Option<RowOptions>,
    input: &mut R,
) -> Result<Vec<Cell>, RunError>
    ensures cells { IfOk result (λ cells. GivesCells itself (list_form rows.now)
        (source_use R.left R.has_failed input.old input.new) cells.items) }
    ensures refused { IfErr result (RefusesCells (list_form rows.now)
        (source_use R.left R.has_failed input.old input.new)) }
{
    match rows {
        None => read_cells(alloc, input),
        Some(options) => take_row_cells(alloc, Vec::new(alloc), options, input),
    }
}

/// What is answered about the cells of a list as a whole.
pub(crate) trait ListFunction {
    /// The answer about the cells.
    ghost answer_of: { Self → List Address → Answer };

    /// Writes the answer. It may be made in the memory of the cells.
    ///
    /// `Fault::Memory` where there is none for it, with nothing written.
    fn write<W: Sink>(self, cells: &mut [Cell], out: &mut W) -> Result<(), RunError>
        ensures { WritesUnlessMemory (answer_of self cells.old) result
            (sink_use W.taken W.has_failed out.old out.new) };
}

/// Writes what a function answers about the cells of a list, or about those of its rows. An error of
/// either is reported with its line.
// Inlined, its blocks would take their place on the stack while `perform_over_list` runs another command.
#[inline(never)]
pub(crate) fn answer_whole_numbered<R: Source, W: Sink, F: ListFunction + Drop>(
    alloc: Global,
    function: F,
    rows: &Option<RowOptions>,
    input: &mut R,
    out: &mut W,
) -> Result<(), RunError>
    ensures { EndsNumberedList itself (list_form rows.now) (F.answer_of function)
        (source_use R.left R.has_failed input.old input.new) result
        (sink_use W.taken W.has_failed out.old out.new) }
{
    let mut cells = read_numbered(alloc, rows, input)?;
    function.write(&mut cells, out)
}

/// As `answer_whole_numbered`, but an error of a bare list is reported without its line.
// Inlined, as the one above.
#[inline(never)]
pub(crate) fn answer_whole<R: Source, W: Sink, F: ListFunction + Drop>(
    alloc: Global,
    function: F,
    rows: &Option<RowOptions>,
    input: &mut R,
    out: &mut W,
) -> Result<(), RunError>
    ensures { EndsList (list_form rows.now) (F.answer_of function)
        (source_use R.left R.has_failed input.old input.new) result
        (sink_use W.taken W.has_failed out.old out.new) }
{
    let mut cells = read_listed(alloc, rows, input)?;
    function.write(&mut cells, out)
}
