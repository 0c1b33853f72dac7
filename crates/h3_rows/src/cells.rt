//! The cells of the rows of a list.

ghost use Rattle.std.specs.Prelude.{◌≡◌, ◌+◌, ◌*◌, ◌<◌, ◌≤◌, ◌++◌, ◌^◌, ⊤, List, [], length, Ok, Err, IfOk, IfErr, OnOk, vec_capacity};
ghost use Rattle.h3_index.specs.Cell.{Address};
ghost use Rattle.h3_lines.specs.Taking.{HaveCells, RefusesCells, cell_list};
ghost use Rattle.h3_lines.specs.TakingLaws.{have_none, have_then, refuses_after};
ghost use Rattle.h3_rows.specs.Row.{next_number};
ghost use Rattle.h3_rows.specs.Cells.{AllRowsRead, RefusesRows, cell_read, cells_end, row_found};
ghost use Rattle.h3_rows.specs.CellsIn.{cells_in};
ghost use Rattle.h3_rows.specs.Line.{line_of};
ghost use Rattle.h3_rows.specs.RowForm.{form_as, form_of};
ghost use Rattle.h3_rows.specs.RowsAnswer.{choice_of, row_cell};
ghost use Rattle.h3_rows.specs.declared.reading.TheConstants.{LONGEST};

use crate::fields::read_of;
use crate::header::columns_in;
use crate::line::row_of;
use crate::plain::find_plain_cell;
use crate::reading::{LONGEST, malformed, read_row};
use crate::row::Row;
use crate::row_cell::RowCell;
use crate::state::{Columns, RowState, first_state};
use h3_index::Cell;
use h3_lines::{
    AnswerError, CellJob, CellOf, ColumnError, Itself, Job, JobContract, MAX_READS, PAGE, RowError,
    RowFault, RunError, drive, row_page,
};
use h3_requests::{CellField, RowOptions};
use h3_streams::{CountedReader, Source};
use std::alloc::Global;

/// What is taken for the cell of a row, `None` if it is missing.
pub(crate) fn read_cell<F: CellOf>(
    function: &F,
    options: &RowOptions,
    number: u64,
    columns: Columns,
    row: &[u8],
) -> Result<Option<Cell>, RowError>
    ensures { result ≡ cell_read (F.says function.now) (row_cell (form_of options.now []) number columns row.now) }
{
    match read_row(options, b"", number, columns, row) {
        Ok(RowCell::Missing) => Ok(None),
        Ok(RowCell::Index(index)) => match function.cell_of(index) {
            Ok(cell) => Ok(cell),
            Err(error) => Err(RowError::Call(error)),
        },
        Err(fault) => Err(RowError::Bad(fault)),
    }
}

/// What is taken for the cell of a row, if it has one, and the state after it; or the error that ends the list.
fn find_cell<F: CellOf>(
    function: &F,
    options: &RowOptions,
    state: RowState,
    row: Row<'_>,
    inside: bool,
) -> Result<(Option<Cell>, RowState), AnswerError>
    requires few { state.number + length row.body.now < 2 ^ 63 }
    ensures few { IfOk result (λ r. r.1.number ≤ state.number + length row.entry.body.now + 1) }
    ensures more { IfOk result (λ r. state.number + 1 ≤ r.1.number) }
    ensures number { IfOk result (λ r. r.1.number ≡ next_number state.number (line_of row.entry)) }
    ensures ok { IfOk result (λ r.
        row_found (form_as (F.says function.now) options.now) state.number state.columns (line_of row.entry, inside)
        ≡ record { cells = Ok (cell_list r.0); columns = r.1.columns }) }
    ensures err { IfErr result (λ e.
        (row_found (form_as (F.says function.now) options.now) state.number state.columns
        (line_of row.entry, inside)).cells
        ≡ Err e) }
{
    if let Some(fault) = malformed(options, b"", state.number, row, inside) {
        return Err(AnswerError::AtRow(state.number, RowError::Bad(fault)));
    }
    let read = read_of(state.number, row.body);
    if read.is_empty() {
        return Ok((None, state.passed(row)));
    }
    match state.columns {
        None => match columns_in(options, read) {
            Ok(columns) => Ok((None, state.headed(row, columns))),
            Err(error) => Err(AnswerError::Column(error)),
        },
        Some(columns) => match read_cell(function, options, state.number, columns, row.body) {
            Ok(cell) => Ok((cell, state.passed(row))),
            Err(error) => Err(AnswerError::AtRow(state.number, error)),
        },
    }
}

/// A job over rows that gives their cells to a job over cells. It knows the state before the next row.
#[derive(Drop)]
struct RowCells<'f, F: CellOf, V: CellJob> {
    function: F,
    job: V,
    options: &'f RowOptions,
    state: RowState,
    ghost few: { V.count job ≤ state.number },
}

impl<'f, F: CellOf, V: CellJob> JobContract for RowCells<'f, F, V> {
    ghost longest = { LONGEST };

    ghost count = { λ v. v.state.number };

    ghost settled = { λ v. ⊤ };

    ghost taken = { λ v rows w. (cells : List Address)
        × HaveCells cells_in (form_as (F.says v.function) v.options.now, v.state) rows cells
        (form_as (F.says w.function) w.options.now, w.state)
        × V.taken v.job cells w.job };

    ghost refused = { λ v rows w e. RefusesCells cells_in
        (form_as (F.says v.function) v.options.now, v.state) rows e };

    fn refuse_long(&mut self) -> RunError {
        let error = RowError::Bad(RowFault::TooLong);
        RunError::Error(AnswerError::AtRow(self.state.number, error))
    }

    fn settle(&mut self) -> Result<(), RunError> {
        Ok(())
    }

    ghost none_taken = { λ v. (
      [],
      have_none cells_in (form_as (F.says v.function) v.options.now, v.state),
      V.none_taken v.job,
    ) };

    ghost taken_then = { λ u v w xs ys p q. (
      p.0 ++ q.0,
      have_then cells_in (form_as (F.says u.function) u.options.now, u.state)
          (form_as (F.says v.function) v.options.now, v.state)
          (form_as (F.says w.function) w.options.now, w.state) xs ys p.0 q.0 p.1 q.1,
      V.taken_then _ _ _ _ _ p.2 q.2,
    ) };

    ghost refused_then = { λ u v w xs ys e p q.
        refuses_after cells_in (form_as (F.says u.function) u.options.now, u.state)
        (form_as (F.says v.function) v.options.now, v.state) xs ys p.0 e p.1 q };
}

impl<'f, F: CellOf, V: CellJob> Job for RowCells<'f, F, V> {
    fn take(&mut self, row: &[u8], inside: bool) -> Result<(), RunError> {
        match find_cell(
            &self.function,
            self.options,
            self.state,
            row_of(row),
            inside,
        ) {
            Ok((None, state)) => {
                self.state = state;
                Ok(())
            }
            Ok((Some(cell), state)) => {
                self.state = state;
                Ok(self.job.take(cell, None)?)
            }
            Err(error) => Err(RunError::Error(error)),
        }
    }

    #[inline(always)]
    fn take_first<'b>(
        &mut self,
        quotes: bool,
        bytes: &'b [u8],
    ) -> Result<Option<&'b [u8]>, RunError> {
        if quotes != self.options.quotes {
            return Ok(None);
        }
        let Some(columns) = self.state.columns else {
            return Ok(None);
        };
        match find_plain_cell(
            &self.function,
            self.options,
            self.state.number,
            columns,
            bytes,
        ) {
            Some(found) => {
                let size = found.row.body.len() + found.row.returns;
                self.state.count();
                let place = self.job.look_for(found.cell);
                self.job.take(found.cell, place)?;
                Ok(Some(&bytes[size + 1..]))
            }
            None => Ok(None),
        }
    }
}

/// Ends the rows of a list, all of which are read.
fn end_rows(options: &RowOptions, state: RowState) -> Result<(), AnswerError>
    ensures ok { OnOk result (cells_end (choice_of options.now.field) state.columns ≡ Ok []) }
    ensures err { IfErr result (λ e.
        cells_end (choice_of options.now.field) state.columns ≡ Err e) }
{
    match (state.columns, &options.field) {
        (None, CellField::Column(_)) => Err(AnswerError::Column(ColumnError::NotFound)),
        _ => Ok(()),
    }
}

/// Has the cells of rows taken, read in pages.
fn take_pages<F: CellOf + Drop, V: CellJob + Drop, R: Source>(
    function: F,
    job: V,
    options: &RowOptions,
    input: &mut R,
    page: &mut Vec<u8>,
) -> Result<V, RunError>
    requires first { V.count job ≡ 0 }
    requires page { LONGEST + PAGE ≤ vec_capacity page.old }
    ensures taken { IfOk result (λ after. (cells : List Address)
        × AllRowsRead (form_as (F.says function) options.now) (Ok cells) (R.left input.old) (R.left input.new)
        × V.taken job cells after) }
    ensures sound { IfOk result (λ after. R.has_failed input.new ≡ R.has_failed input.old) }
    ensures refused { IfErr result (λ e. RefusesRows (form_as (F.says function) options.now)
        (R.left input.old) (R.left input.new) (R.has_failed input.old) (R.has_failed input.new) e) }
{
    let mut rows = RowCells {
        function,
        job,
        options,
        state: first_state(options),
    };
    let mut reader = CountedReader::new(&mut *input, MAX_READS);
    let reading = drive(&mut rows, &mut reader, options.quotes, LONGEST, PAGE, page);
    // The proof reads what the source is after the reads from this use of it.
    let _ = &*input;
    reading?;
    match end_rows(options, rows.state) {
        Ok(()) => {
            let RowCells {
                function: _,
                job,
                options: _,
                state: _,
            } = rows;
            Ok(job)
        }
        Err(error) => Err(RunError::Error(error)),
    }
}

/// As `take_row_cells`, but for the index of a cell it takes what the function says: a cell; nothing, and the row is
/// passed over; or an error, which is that of the row.
///
/// # Errors
///
/// As of `take_row_cells`; the error of a row that has an index is what the function says.
pub fn take_row_cells_as<F: CellOf + Drop, V: CellJob + Drop, R: Source>(
    alloc: Global,
    function: F,
    job: V,
    options: &RowOptions,
    input: &mut R,
) -> Result<V, RunError>
    requires { V.count job ≡ 0 }
    ensures taken { IfOk result (λ after. (cells : List Address)
        × AllRowsRead (form_as (F.says function) options.now) (Ok cells)
        (R.left input.old) (R.left input.new)
        × V.taken job cells after) }
    ensures sound { IfOk result (λ after. R.has_failed input.new ≡ R.has_failed input.old) }
    ensures refused { IfErr result (λ e. RefusesRows (form_as (F.says function) options.now)
        (R.left input.old) (R.left input.new) (R.has_failed input.old) (R.has_failed input.new) e) }
{
    let mut page = row_page(alloc, LONGEST, PAGE)?;
    take_pages(function, job, options, input, &mut page)
}

/// Has a job take the cells of the rows of a list, one after another, in their order, and returns it.
/// Empty rows, those whose cell is missing, and a header have none.
///
/// # Errors
///
/// The first one that is met, of:
///
/// - `AnswerError::Column` if a column that the options name is not one field of the header.
/// - `AnswerError::AtRow` with the number of the first row that is malformed or faulty, or whose index
///   is not a valid cell.
/// - `Fault::Read` if a read fails, or the end is not found in 2^40 reads.
/// - `Fault::Memory` if there is no memory for the page, or the job has none for a cell.
pub fn take_row_cells<V: CellJob + Drop, R: Source>(
    alloc: Global,
    job: V,
    options: &RowOptions,
    input: &mut R,
) -> Result<V, RunError>
    requires { V.count job ≡ 0 }
    ensures taken { IfOk result (λ after. (cells : List Address)
        × AllRowsRead (form_of options.now []) (Ok cells) (R.left input.old) (R.left input.new)
        × V.taken job cells after) }
    ensures sound { IfOk result (λ after. R.has_failed input.new ≡ R.has_failed input.old) }
    ensures refused { IfErr result (λ e. RefusesRows (form_of options.now [])
        (R.left input.old) (R.left input.new) (R.has_failed input.old) (R.has_failed input.new) e) }
{
    take_row_cells_as(alloc, Itself, job, options, input)
}
