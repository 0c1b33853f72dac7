//! The rows of a table in which one field has a cell, and a second one a text or a number.

ghost use Rattle.std.specs.Prelude.{◌≡◌, ◌+◌, ◌<◌, ◌≤◌, ◌++◌, ◌∷◌, ◌^◌, ⊤, ℕ, true, List, [], length, option_map, Some, Ok, Err, IfOk, IfErr, IfSome, OnOk, vec_capacity};
ghost use Rattle.h3_index.specs.Cell.{Address};
ghost use Rattle.h3_index.specs.Text.{trimmed};
ghost use Rattle.h3_lines.specs.List.{itself};
ghost use Rattle.h3_lines.specs.Taking.{HaveCells, RefusesCells};
ghost use Rattle.h3_lines.specs.TakingLaws.{have_none, have_then, refuses_after};
ghost use Rattle.h3_lines.specs.declared.run_error.Fault.TheVariants.{Memory};
ghost use Rattle.h3_lines.specs.declared.run_error.RunError.TheVariants as refusal;
ghost use Rattle.h3_requests.specs.Rows.{is_counted};
ghost use Rattle.h3_rows.specs.Line.{line_of};
ghost use Rattle.h3_rows.specs.Named.{AllNamedRead, Entry, IsNumberOf, RefusesNamed, entry_list, name_at, named_end, named_found, named_row, table_as, table_columns, table_first, table_of, title_list, with_field, with_number, with_text, without_name};
ghost use Rattle.h3_rows.specs.NamedIn.{IsPlainEntry, named_in, table_in};
ghost use Rattle.h3_rows.specs.Row.{next_number};
ghost use Rattle.h3_rows.specs.RowForm.{form_of};
ghost use Rattle.h3_rows.specs.declared.reading.TheConstants.{LONGEST};

use crate::cells::read_cell;
use crate::fields::{find_field, read_of, trimmed};
use crate::header::{chosen_field, columns_in};
use crate::line::row_of;
use crate::numbers::{field_number, plain_number};
use crate::plain::{find_plain_cell, find_second_field};
use crate::reading::{LONGEST, malformed};
use crate::row::{EntryRow, Row};
use crate::state::first_state;
use crate::table::{FieldContent, TableColumns, TableForm, TableState};
use h3_index::Cell;
use h3_lines::{
    AnswerError, CellOf, ColumnError, Itself, Job, JobContract, MAX_READS, PAGE, RowError,
    RowFault, RunError, drive, row_page,
};
use h3_numbers::Number;
use h3_requests::{CellField, RowOptions};
use h3_streams::{CountedReader, Source};
use std::alloc::Global;

/// What is read of a row: its cell and its second field. A header has no cell of the list.
type RowEntry<'r> = (Option<Cell>, &'r [u8]);

/// The columns, by a header.
fn find_columns(table: &TableForm<'_>, row: &[u8]) -> Result<TableColumns, ColumnError>
    ensures { result ≡ table_columns (table_in itself table.now) row.now }
{
    let cell = columns_in(table.rows, row)?;
    let name = chosen_field(table.rows, table.field, row)?;
    Ok(TableColumns { cell, name })
}

/// The second field of a row, which is after `before` others, without the blanks at both ends.
fn find_name<'r>(table: &TableForm<'_>, before: usize, row: &'r [u8]) -> Option<&'r [u8]>
    ensures { option_map (λ f. f.now) result ≡ name_at (form_of table.now.rows.now []) before row.now }
{
    match find_field(table.rows.separator, table.rows.quotes, before, row) {
        Some(field) => Some(trimmed(field)),
        None => None,
    }
}

/// The second field of a header, if it has that.
fn find_title<'r>(table: &TableForm<'_>, before: usize, row: &'r [u8]) -> Option<RowEntry<'r>>
    ensures { (n : ℕ) → entry_list n (option_map (λ p. (p.0, p.1.now)) result)
        ≡ title_list n (name_at (form_of table.now.rows.now []) before row.now) }
{
    match find_name(table, before, row) {
        Some(name) => Some((None, name)),
        None => None,
    }
}

/// The error of a row that has no field for the name, and this error of its cell.
fn without_name(error: RowError) -> RowError
    ensures { result ≡ without_name error }
{
    match error {
        RowError::Bad(RowFault::FieldCount(_, _)) => error,
        _ => RowError::Bad(RowFault::NoSuchField),
    }
}

/// What is read of a row by its cell and its second field, if that has a text.
fn with_text(
    cell: Result<Option<Cell>, RowError>,
    field: Option<&[u8]>,
) -> Result<Option<RowEntry<'_>>, RowError>
    ensures ok { IfOk result (λ r. with_text cell (option_map (λ f. f.now) field.entry)
        ≡ Ok (option_map (λ p. (p.0, p.1.now)) r)) }
    ensures err { IfErr result (λ e. with_text cell (option_map (λ f. f.now) field.entry) ≡ Err e) }
{
    match (cell, field) {
        (Ok(None), _) => Ok(None),
        (Ok(Some(cell)), Some(field)) => Ok(Some((Some(cell), field))),
        (Ok(Some(_)), None) => Err(RowError::Bad(RowFault::NoSuchField)),
        (Err(error), Some(_)) => Err(error),
        (Err(error), None) => Err(without_name(error)),
    }
}

/// What is read of a row by its cell and its second field, if that has a number.
fn with_number(
    quotes: bool,
    cell: Result<Option<Cell>, RowError>,
    field: Option<&[u8]>,
) -> Result<Option<RowEntry<'_>>, RowError>
    ensures ok { IfOk result (λ r. with_number quotes cell (option_map (λ f. f.now) field.entry)
        ≡ Ok (option_map (λ p. (p.0, p.1.now)) r)) }
    ensures err { IfErr result (λ e. with_number quotes cell (option_map (λ f. f.now) field.entry) ≡ Err e) }
{
    match cell {
        Err(error) => Err(error),
        Ok(None) => Ok(None),
        Ok(Some(cell)) => {
            let Some(field) = field else {
                return Err(RowError::NotANumber);
            };
            match field_number(quotes, field) {
                Some(_) => Ok(Some((Some(cell), field))),
                None => Err(RowError::NotANumber),
            }
        }
    }
}

/// What is read of a row: its cell and its second field, or `None` if the cell is missing.
fn read_named<'r, F: CellOf>(
    function: &F,
    table: &TableForm<'_>,
    number: u64,
    columns: TableColumns,
    row: &'r [u8],
) -> Result<Option<RowEntry<'r>>, RowError>
    ensures ok { IfOk result (λ r. named_row (table_in (F.says function.now) table.now) number columns row.now
        ≡ Ok (option_map (λ p. (p.0, p.1.now)) r)) }
    ensures err { IfErr result (λ e. named_row (table_in (F.says function.now) table.now) number columns row.now
        ≡ Err e) }
{
    let cell = read_cell(function, table.rows, number, columns.cell, row);
    let field = find_name(table, columns.name, read_of(number, row));
    match table.content {
        FieldContent::Text => with_text(cell, field),
        FieldContent::Number => with_number(table.rows.quotes, cell, field),
    }
}

/// What is read of a row, if anything, and the state after it; or the error that ends the table.
fn find_named<'r, F: CellOf>(
    function: &F,
    table: &TableForm<'_>,
    state: TableState,
    row: Row<'r>,
    inside: bool,
) -> Result<(Option<RowEntry<'r>>, TableState), AnswerError>
    requires few { state.number + length row.body.now < 2 ^ 63 }
    ensures few { IfOk result (λ r. r.1.number ≤ state.number + length row.entry.body.now + 1) }
    ensures more { IfOk result (λ r. state.number + 1 ≤ r.1.number) }
    ensures number { IfOk result (λ r. r.1.number ≡ next_number state.number (line_of row.entry)) }
    ensures ok { IfOk result (λ r.
        named_found (table_in (F.says function.now) table.now) state.number state.columns (line_of row.entry, inside)
        ≡ record {
          cells = Ok (entry_list state.number (option_map (λ p. (p.0, p.1.now)) r.0));
          columns = r.1.columns;
        }) }
    ensures err { IfErr result (λ e.
        (named_found (table_in (F.says function.now) table.now) state.number state.columns
        (line_of row.entry, inside)).cells
        ≡ Err e) }
{
    let number = state.number;
    if let Some(fault) = malformed(table.rows, b"", number, row, inside) {
        return Err(AnswerError::AtRow(number, RowError::Bad(fault)));
    }
    let read = read_of(number, row.body);
    if read.is_empty() {
        return Ok((None, state.after(row, state.columns)));
    }
    match state.columns {
        None => match find_columns(table, read) {
            Ok(columns) => {
                let title = find_title(table, columns.name, read);
                Ok((title, state.after(row, Some(columns))))
            }
            Err(error) => Err(AnswerError::Column(error)),
        },
        Some(columns) => match read_named(function, table, number, columns, row.body) {
            Ok(entry) => Ok((entry, state.after(row, state.columns))),
            Err(error) => Err(AnswerError::AtRow(number, error)),
        },
    }
}

/// What is known of a second field that has what it should: its number, if that is to be seen at once.
/// `None` if it has not.
#[inline(always)]
fn find_content(table: &TableForm<'_>, field: &[u8]) -> Option<Option<Number>>
    requires { trimmed field.now ≡ field.now }
    ensures has { IfSome result (λ known. (cell : Address) →
        with_field table.now.content table.now.rows.now.quotes (Ok (Some cell)) (Some field.now)
        ≡ Ok (Some (Some cell, field.now))) }
    ensures known { IfSome result (λ known. IfSome known (IsNumberOf field.now)) }
{
    match table.content {
        FieldContent::Text => Some(None),
        FieldContent::Number => match plain_number(field) {
            Some(number) => Some(Some(number)),
            None => match field_number(table.rows.quotes, field) {
                Some(_) => Some(None),
                None => None,
            },
        },
    }
}

/// The cell and the second field of the row that bytes begin with, and how many bytes this has, if the row is
/// plain and not the first one, its cell a plain text and valid, and its second field whole, with what it should
/// have. `None` may be answered to any other bytes, and if a stop is near to their end.
#[inline(always)]
fn find_plain_entry<'b, F: CellOf>(
    function: &F,
    table: &TableForm<'_>,
    number: u64,
    columns: TableColumns,
    bytes: &'b [u8],
) -> Option<EntryRow<'b>>
    ensures is { IfSome result (λ r.
        IsPlainEntry (table_in (F.says function.now) table.now) number columns bytes.now r.cell r.field.now r.size) }
    ensures known { IfSome result (λ r. IfSome r.number (IsNumberOf r.field.now)) }
{
    let Some(found) = find_plain_cell(function, table.rows, number, columns.cell, bytes) else {
        return None;
    };
    let separator = table.rows.separator;
    let quotes = table.rows.quotes;
    let size = found.row.body.len();
    let field = find_second_field(separator, quotes, columns, found.end, size, bytes)?;
    let field = trimmed(field);
    let known = find_content(table, field)?;
    Some(EntryRow {
        cell: found.cell,
        field,
        number: known,
        size: size + found.row.returns,
    })
}

/// A job over the cells of a table with the second fields of their rows.
pub trait NamedJob {
    /// A number that grows by one at most for each cell.
    ghost count: { Self → ℕ };

    /// From the one to the other these entries were taken, in this order.
    ghost taken: { Self → List Entry → Self → Type 0 };

    /// Takes a cell, the second field of its row, without the blanks at both ends, the number in this, if
    /// that is known already, and the row's number; or, if `cell` is `None`, the same of a header.
    /// `Fault::Memory` if there is no memory for them.
    fn take(
        &mut self,
        cell: Option<Cell>,
        field: &[u8],
        known: Option<Number>,
        row: u64,
    ) -> Result<(), RunError>
        requires few { count self.old < 2 ^ 63 }
        requires known { IfSome known (IsNumberOf field.now) }
        ensures ok { OnOk result
            (taken self.old (record { cell = cell; field = field.now; row = row } ∷ []) self.new) }
        ensures counted { count self.new ≤ count self.old + 1 }
        ensures err { IfErr result (λ e. e ≡ refusal.Fault Memory) };

    ghost none_taken: { (v : Self) → taken v [] v };

    ghost taken_then: { (u v w : Self) (xs ys : List Entry) → taken u xs v → taken v ys w →
        taken u (xs ++ ys) w };
}

/// A job over rows that gives their cells and second fields to a job over these. It knows the state
/// before the next row.
#[derive(Drop)]
struct NamedRows<'f, F: CellOf, V: NamedJob> {
    function: F,
    job: V,
    table: &'f TableForm<'f>,
    state: TableState,
    ghost few: { V.count job ≤ state.number },
}

impl<'f, F: CellOf, V: NamedJob> JobContract for NamedRows<'f, F, V> {
    ghost longest = { LONGEST };

    ghost count = { λ v. v.state.number };

    ghost settled = { λ v. ⊤ };

    ghost taken = { λ v rows w. (entries : List Entry)
        × HaveCells named_in (table_in (F.says v.function) v.table.now, v.state) rows entries
        (table_in (F.says w.function) w.table.now, w.state)
        × V.taken v.job entries w.job };

    ghost refused = { λ v rows w e. RefusesCells named_in
        (table_in (F.says v.function) v.table.now, v.state) rows e };

    fn refuse_long(&mut self) -> RunError {
        let error = RowError::Bad(RowFault::TooLong);
        RunError::Error(AnswerError::AtRow(self.state.number, error))
    }

    fn settle(&mut self) -> Result<(), RunError> {
        Ok(())
    }

    ghost none_taken = { λ v. (
      [],
      have_none named_in (table_in (F.says v.function) v.table.now, v.state),
      V.none_taken v.job,
    ) };

    ghost taken_then = { λ u v w xs ys p q. (
      p.0 ++ q.0,
      have_then named_in (table_in (F.says u.function) u.table.now, u.state)
          (table_in (F.says v.function) v.table.now, v.state)
          (table_in (F.says w.function) w.table.now, w.state) xs ys p.0 q.0 p.1 q.1,
      V.taken_then _ _ _ _ _ p.2 q.2,
    ) };

    ghost refused_then = { λ u v w xs ys e p q.
        refuses_after named_in (table_in (F.says u.function) u.table.now, u.state)
        (table_in (F.says v.function) v.table.now, v.state) xs ys p.0 e p.1 q };
}

impl<'f, F: CellOf, V: NamedJob> Job for NamedRows<'f, F, V> {
    fn take(&mut self, row: &[u8], inside: bool) -> Result<(), RunError> {
        let number = self.state.number;
        match find_named(&self.function, self.table, self.state, row_of(row), inside) {
            Ok((None, state)) => {
                self.state = state;
                Ok(())
            }
            Ok((Some((cell, field)), state)) => {
                self.state = state;
                self.job.take(cell, field, None, number)
            }
            Err(error) => Err(RunError::Error(error)),
        }
    }

    #[inline(always)]
    fn take_first<'b>(
        &mut self,
        quotes: bool,
        bytes: &'b [u8],
    ) -> Result<Option<&'b [u8]>, RunError> {
        if quotes != self.table.rows.quotes {
            return Ok(None);
        }
        let Some(columns) = self.state.columns else {
            return Ok(None);
        };
        let number = self.state.number;
        match find_plain_entry(&self.function, self.table, number, columns, bytes) {
            Some(found) => {
                self.state.count();
                self.job
                    .take(Some(found.cell), found.field, found.number, number)?;
                Ok(Some(&bytes[found.size + 1..]))
            }
            None => Ok(None),
        }
    }
}

/// The state at the beginning of a table.
fn first_table_state(table: &TableForm<'_>) -> TableState
    ensures number { result.number ≡ 1 }
    ensures columns { result.columns ≡ table_first (table_in itself table.now) }
{
    let columns = match (first_state(table.rows).columns, table.field) {
        (Some(cell), CellField::Number(number)) => Some(TableColumns {
            cell,
            name: *number as usize - 1,
        }),
        _ => None,
    };
    TableState { number: 1, columns }
}

/// Ends a table, all of whose rows are read.
fn end_table(table: &TableForm<'_>, state: TableState) -> Result<(), AnswerError>
    ensures ok { OnOk result (named_end (table_in itself table.now) state.columns ≡ Ok []) }
    ensures err { IfErr result (λ e. named_end (table_in itself table.now) state.columns ≡ Err e) }
{
    match (state.columns, &table.rows.field, table.field) {
        (Some(_), _, _) => Ok(()),
        (None, CellField::Number(_), CellField::Number(_)) => Ok(()),
        _ => Err(AnswerError::Column(ColumnError::NotFound)),
    }
}

/// Has the cells and second fields of a table taken, read in pages.
fn take_named_pages<F: CellOf + Drop, V: NamedJob + Drop, R: Source>(
    function: F,
    job: V,
    table: &TableForm<'_>,
    input: &mut R,
    page: &mut Vec<u8>,
) -> Result<V, RunError>
    requires first { V.count job ≡ 0 }
    requires page { LONGEST + PAGE ≤ vec_capacity page.old }
    ensures taken { IfOk result (λ after. (entries : List Entry)
        × AllNamedRead (table_in (F.says function) table.now) (Ok entries) (R.left input.old) (R.left input.new)
        × V.taken job entries after) }
    ensures sound { IfOk result (λ after. R.has_failed input.new ≡ R.has_failed input.old) }
    ensures refused { IfErr result (λ e. RefusesNamed (table_in (F.says function) table.now)
        (R.left input.old) (R.left input.new) (R.has_failed input.old) (R.has_failed input.new) e) }
{
    let mut rows = NamedRows {
        function,
        job,
        table,
        state: first_table_state(table),
    };
    let mut reader = CountedReader::new(&mut *input, MAX_READS);
    let reading = drive(
        &mut rows,
        &mut reader,
        table.rows.quotes,
        LONGEST,
        PAGE,
        page,
    );
    // The proof reads what the source is after the reads from this use of it.
    let _ = &*input;
    reading?;
    match end_table(table, rows.state) {
        Ok(()) => {
            let NamedRows {
                function: _,
                job,
                table: _,
                state: _,
            } = rows;
            Ok(job)
        }
        Err(error) => Err(RunError::Error(error)),
    }
}

/// As `take_named_cells`, but for the index of a cell it takes what the function says: a cell; nothing, and the row is
/// passed over; or an error, which is that of the row.
///
/// # Errors
///
/// As of `take_named_cells`; the error of a row that has an index is what the function says.
pub fn take_named_cells_as<F: CellOf + Drop, V: NamedJob + Drop, R: Source>(
    alloc: Global,
    function: F,
    job: V,
    rows: &RowOptions,
    field: &CellField,
    content: FieldContent,
    input: &mut R,
) -> Result<V, RunError>
    requires none { V.count job ≡ 0 }
    requires counted { is_counted field.now ≡ true }
    ensures taken { IfOk result (λ after. (entries : List Entry)
        × AllNamedRead (table_as (F.says function) rows.now field.now content) (Ok entries)
        (R.left input.old) (R.left input.new)
        × V.taken job entries after) }
    ensures sound { IfOk result (λ after. R.has_failed input.new ≡ R.has_failed input.old) }
    ensures refused { IfErr result (λ e.
        RefusesNamed (table_as (F.says function) rows.now field.now content)
        (R.left input.old) (R.left input.new) (R.has_failed input.old) (R.has_failed input.new) e) }
{
    let mut page = row_page(alloc, LONGEST, PAGE)?;
    let table = TableForm {
        rows,
        field,
        content,
    };
    take_named_pages(function, job, &table, input, &mut page)
}

/// Has a job take the cells of a table with the second fields of their rows, one after another, in their
/// order, and returns it. A header is taken by its own second field, without a cell. Empty rows, and rows
/// whose cell is missing, are passed over.
///
/// # Errors
///
/// The first one that is met, of:
///
/// - `AnswerError::Column` if a column that the options name is not one field of the header; the
///   cell's is looked for first.
/// - `AnswerError::AtRow` with the number of the first row that is malformed or faulty, or whose index
///   is not a valid cell, or that has a cell and no second field, or none with a number if `content` is
///   `FieldContent::Number`.
/// - `Fault::Read` if a read fails, or the end is not found in 2^40 reads.
/// - `Fault::Memory` if there is no memory for the page, or the job has none for a cell.
pub fn take_named_cells<V: NamedJob + Drop, R: Source>(
    alloc: Global,
    job: V,
    rows: &RowOptions,
    field: &CellField,
    content: FieldContent,
    input: &mut R,
) -> Result<V, RunError>
    requires none { V.count job ≡ 0 }
    requires counted { is_counted field.now ≡ true }
    ensures taken { IfOk result (λ after. (entries : List Entry)
        × AllNamedRead (table_of rows.now field.now content) (Ok entries)
        (R.left input.old) (R.left input.new)
        × V.taken job entries after) }
    ensures sound { IfOk result (λ after. R.has_failed input.new ≡ R.has_failed input.old) }
    ensures refused { IfErr result (λ e. RefusesNamed (table_of rows.now field.now content)
        (R.left input.old) (R.left input.new) (R.has_failed input.old) (R.has_failed input.new) e) }
{
    take_named_cells_as(alloc, Itself, job, rows, field, content, input)
}
