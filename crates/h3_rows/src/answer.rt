//! The answer to a row.

ghost use Rattle.std.specs.Prelude.{◌≡◌, ◌+◌, ◌<◌, ◌≤◌, ◌∷◌, ◌^◌, [], ℕ, Bool, List, Err, length, Some, take, IfOk, IfErr, IfNone, IfSome};
ghost use Rattle.h3_lines.specs.RunError.{row_error_name};
ghost use Rattle.h3_lines.specs.Write.{sink_use};
ghost use Rattle.h3_lines.specs.declared.line.TheConstants.{BLOCK};
ghost use Rattle.h3_lines.specs.declared.run_error.AnswerError.TheVariants.{AtRow};
ghost use Rattle.h3_lines.specs.Answering.{EndsBy};
ghost use Rattle.h3_rows.specs.Answering.{BreaksCell, PutsCell, PutsPlain, StepEnds, StepsTo, form_of_job, held_of, mark_in, state_of};
ghost use Rattle.h3_rows.specs.Line.{line_of};
ghost use Rattle.h3_rows.specs.RowForm.{columns_form};
ghost use Rattle.h3_rows.specs.RowsAnswer.{State, answer_to_cell, error_field, faulty, filled_step, marked, row_step};

use crate::fields::{mark_of, read_of};
use crate::function::{RowFunction, Workspace};
use crate::job::RowJob;
use crate::lanes::is_one_line;
use crate::line::without_mark;
use crate::plain::{find_plain, read_plain_field};
use crate::put::{
    hold_ending, hold_mark, hold_row, make_room, put_empty, put_header, put_unanswered,
};
use crate::reading::{malformed, read_row};
use crate::row::Row;
use crate::row_cell::RowCell;
use crate::state::{Columns, RowState};
use h3_lines::{ANSWER, AnswerError, BLOCK, RowError, RowFault, RunError, write_held};
use h3_requests::RowOptions;
use h3_streams::Sink;

/// The bytes after each answer: the separator of an empty field, if there is a column of errors.
fn after_size(options: &RowOptions) -> usize
    ensures within { result ≤ 1 }
    ensures after { (name : List ℕ) (is_pair : Bool) →
        take result (options.now.separator ∷ [])
        ≡ error_field (columns_form options.now name is_pair) [] }
{
    if options.shows_errors { 1 } else { 0 }
}

/// Puts a row with the answers to its cell, by what it says of this, or returns the row's error.
fn answer_cell<'f, W: Sink, F: RowFunction>(
    out: &mut W,
    block: &mut [u8; BLOCK],
    end: usize,
    job: &RowJob<'f, F>,
    work: &mut Workspace,
    numbers: &mut [u32],
    row: Row<'_>,
    said: Result<RowCell, RowFault>,
) -> Result<Result<usize, RowError>, RunError>
    requires within { end ≤ BLOCK }
    requires room { F.needs job.now.function.now ≤ length numbers.old }
    ensures within { IfOk result (λ o. IfOk o (λ last. last ≤ BLOCK)) }
    ensures ok { IfOk result (λ o. IfOk o (λ last. PutsCell W.taken W.has_failed
        (λ s. answer_to_cell (form_of_job F.counts_quotes job.now) (F.answer_of job.now.function.now)
        s (line_of row.entry) said)
        (line_of row.entry) (take end block.old) (take last block.new) out.old out.new)) }
    ensures faulty { IfOk result (λ o. IfErr o (λ e. (s : State) →
        answer_to_cell (form_of_job F.counts_quotes job.now) (F.answer_of job.now.function.now)
        s (line_of row.entry) said
        ≡ faulty (form_of_job F.counts_quotes job.now) s (line_of row.entry) e)) }
    ensures kept { IfOk result (λ o. IfErr o (λ e. take end block.new ≡ take end block.old)) }
    ensures left { IfOk result (λ o. IfErr o (λ e. out.new ≡ out.old)) }
    ensures err { IfErr result (λ e. BreaksCell
        (λ s. answer_to_cell (form_of_job F.counts_quotes job.now) (F.answer_of job.now.function.now)
        s (line_of row.entry) said)
        (line_of row.entry) (take end block.old) (sink_use W.taken W.has_failed out.old out.new) e) }
{
    match said {
        Ok(RowCell::Index(index)) => {
            let separator = job.options.separator;
            let between = [separator];
            let after = &between[..after_size(job.options)];
            let put = job.function.put_beside(
                index, out, work, numbers, block, end, separator, row, after,
            )?;
            match put {
                Ok(last) => Ok(Ok(last)),
                Err(error) => Ok(Err(RowError::Call(error))),
            }
        }
        Ok(RowCell::Missing) => {
            let last = put_unanswered(out, block, end, job, row, b"missing")?;
            Ok(Ok(last))
        }
        Err(fault) => Ok(Err(RowError::Bad(fault))),
    }
}

/// Writes what is held back, and returns the error of the row with this number, or the fault of the
/// write.
#[cold]
pub(crate) fn refuse_row<W: Sink>(
    out: &mut W,
    held: &[u8],
    number: u64,
    error: RowError,
) -> RunError
    ensures { EndsBy (record { output = held.now; ending = Err (AtRow number error) })
        result (sink_use W.taken W.has_failed out.old out.new) }
{
    match write_held(out, held) {
        Ok(()) => RunError::Error(AnswerError::AtRow(number, error)),
        Err(fault) => fault,
    }
}

/// The name of an error.
fn error_text(error: RowError) -> &'static [u8]
    ensures { result.now ≡ row_error_name error }
{
    error.name().as_bytes()
}

/// Puts a row with the answers to its cell, by what it says of this, after the mark that a block has from the
/// byte `end` on. If the row ends the answer the mark is not written.
fn put_cell<'f, W: Sink, F: RowFunction>(
    out: &mut W,
    block: &mut [u8; BLOCK],
    end: usize,
    mark: usize,
    job: &RowJob<'f, F>,
    work: &mut Workspace,
    numbers: &mut [u32],
    state: RowState,
    row: Row<'_>,
    said: Result<RowCell, RowFault>,
) -> Result<(usize, RowState), RunError>
    requires within { end + mark ≤ BLOCK }
    requires known { (k : Columns) × (state.columns ≡ Some k) }
    requires few { state.number + length row.body.now < 2 ^ 63 }
    requires room { F.needs job.now.function.now ≤ length numbers.old }
    ensures within { IfOk result (λ r. r.0 ≤ BLOCK) }
    ensures few { IfOk result (λ r. r.1.number ≤ state.number + length row.entry.body.now + 1) }
    ensures ok { IfOk result (λ r. StepsTo W.taken W.has_failed
        (marked (mark_in end mark block.old) (answer_to_cell (form_of_job F.counts_quotes job.now)
        (F.answer_of job.now.function.now) (state_of state (take end block.old)) (line_of row.entry) said))
        (state_of r.1 (take r.0 block.new)) (held_of state.columns (take end block.old))
        (held_of r.1.columns (take r.0 block.new)) out.old out.new) }
    ensures err { IfErr result (λ e. StepEnds
        (marked (mark_in end mark block.old) (answer_to_cell (form_of_job F.counts_quotes job.now)
        (F.answer_of job.now.function.now) (state_of state (take end block.old)) (line_of row.entry) said))
        (held_of state.columns (take end block.old)) e
        (sink_use W.taken W.has_failed out.old out.new)) }
{
    let start = end + mark;
    match answer_cell(out, block, start, job, work, numbers, row, said)? {
        Ok(last) => {
            let room = make_room(out, block, last)?;
            Ok((room, state.passed(row)))
        }
        Err(error) if job.options.keeps_going => {
            let last = put_unanswered(out, block, start, job, row, error_text(error))?;
            Ok((last, state.with_error(row, error)))
        }
        Err(error) => Err(refuse_row(out, &block[..end], state.number, error)),
    }
}

/// Puts a row with the answers to its cell, after the byte order mark before it, if it has one.
fn put_filled<'f, W: Sink, F: RowFunction>(
    out: &mut W,
    block: &mut [u8; BLOCK],
    end: usize,
    job: &RowJob<'f, F>,
    work: &mut Workspace,
    numbers: &mut [u32],
    state: RowState,
    columns: Columns,
    row: Row<'_>,
) -> Result<(usize, RowState), RunError>
    requires within { end ≤ BLOCK }
    requires known { state.columns ≡ Some columns }
    requires few { state.number + length row.body.now < 2 ^ 63 }
    requires room { F.needs job.now.function.now ≤ length numbers.old }
    ensures within { IfOk result (λ r. r.0 ≤ BLOCK) }
    ensures few { IfOk result (λ r. r.1.number ≤ state.number + length row.entry.body.now + 1) }
    ensures ok { IfOk result (λ r. StepsTo W.taken W.has_failed
        (filled_step (form_of_job F.counts_quotes job.now) (F.answer_of job.now.function.now)
        (state_of state (take end block.old)) (line_of row.entry) (Some columns))
        (state_of r.1 (take r.0 block.new)) (held_of state.columns (take end block.old))
        (held_of r.1.columns (take r.0 block.new)) out.old out.new) }
    ensures err { IfErr result (λ e. StepEnds
        (filled_step (form_of_job F.counts_quotes job.now) (F.answer_of job.now.function.now)
        (state_of state (take end block.old)) (line_of row.entry) (Some columns))
        (held_of state.columns (take end block.old)) e
        (sink_use W.taken W.has_failed out.old out.new)) }
{
    let said = read_row(job.options, job.name, state.number, columns, row.body);
    let mark = mark_of(state.number, row.body);
    let start = hold_mark(out, block, end, mark)?;
    let row = without_mark(state.number, row);
    let size = mark.len();
    put_cell(
        out, block, start, size, job, work, numbers, state, row, said,
    )
}

/// Puts the answer to a row.
pub(crate) fn put_answer<'f, W: Sink, F: RowFunction>(
    out: &mut W,
    block: &mut [u8; BLOCK],
    end: usize,
    job: &RowJob<'f, F>,
    work: &mut Workspace,
    numbers: &mut [u32],
    state: RowState,
    row: Row<'_>,
    inside: bool,
) -> Result<(usize, RowState), RunError>
    requires within { end ≤ BLOCK }
    requires few { state.number + length row.body.now < 2 ^ 63 }
    requires room { F.needs job.now.function.now ≤ length numbers.old }
    ensures within { IfOk result (λ r. r.0 ≤ BLOCK) }
    ensures few { IfOk result (λ r. r.1.number ≤ state.number + length row.entry.body.now + 1) }
    ensures ok { IfOk result (λ r. StepsTo W.taken W.has_failed
        (row_step (form_of_job F.counts_quotes job.now) (F.answer_of job.now.function.now)
        (state_of state (take end block.old)) (line_of row.entry, inside))
        (state_of r.1 (take r.0 block.new)) (held_of state.columns (take end block.old))
        (held_of r.1.columns (take r.0 block.new)) out.old out.new) }
    ensures err { IfErr result (λ e. StepEnds
        (row_step (form_of_job F.counts_quotes job.now) (F.answer_of job.now.function.now)
        (state_of state (take end block.old)) (line_of row.entry, inside))
        (held_of state.columns (take end block.old)) e
        (sink_use W.taken W.has_failed out.old out.new)) }
{
    if let Some(fault) = malformed(job.options, job.name, state.number, row, inside) {
        return Err(refuse_row(out, &block[..end], state.number, RowError::Bad(fault)));
    }
    if read_of(state.number, row.body).is_empty() {
        return put_empty(out, block, end, state, row);
    }
    match state.columns {
        None => put_header(out, block, end, job, state, row),
        Some(columns) => put_filled(out, block, end, job, work, numbers, state, columns, row),
    }
}

/// Puts the row that bytes begin with and the answer to its cell, if it is plain and has room, and
/// its cell a plain text and one answer. Returns the length of the row with its carriage return, how
/// many these are, none or one, and where its answer ends.
#[inline(always)]
pub(crate) fn put_plain<'f, F: RowFunction>(
    block: &mut [u8; BLOCK],
    end: usize,
    job: &RowJob<'f, F>,
    work: &mut Workspace,
    numbers: &mut [u32],
    state: RowState,
    columns: Columns,
    bytes: &[u8],
) -> Option<(usize, usize, usize)>
    requires within { end ≤ BLOCK }
    requires known { state.columns ≡ Some columns }
    requires room { F.needs job.now.function.now ≤ length numbers.old }
    ensures within { IfSome result (λ r. r.2 ≤ BLOCK) }
    ensures some { IfSome result (λ r. PutsPlain
        (form_of_job F.counts_quotes job.now) (F.answer_of job.now.function.now) state bytes.now
        (take end block.old) (take r.2 block.new) r.0 r.1) }
    ensures none { IfNone result (take end block.new ≡ take end block.old) }
{
    let separator = job.options.separator;
    let quotes = job.options.quotes;
    let (row, field, _) = find_plain(separator, quotes, columns, bytes)?;
    let index = read_plain_field(quotes, field)?;
    // A byte order mark is before the first row alone.
    if state.number == 1 || row.body.is_empty() || job.options.shows_errors {
        return None;
    }
    let size = row.body.len() + row.returns;
    if end + size + ANSWER >= BLOCK {
        return None;
    }
    let at = hold_row(block, end, row.body, separator);
    match job.function.put_short(index, work, numbers, block, at) {
        Some(last) if is_one_line(block, at, last) => {
            if row.returns == 0 {
                return Some((size, row.returns, last));
            }
            let last = hold_ending(block, last - 1, row.returns);
            Some((size, row.returns, last))
        }
        _ => None,
    }
}
