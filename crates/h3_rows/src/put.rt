//! What is written of a row: a header, an empty answer, an error.

ghost use Rattle.std.specs.Prelude.{◌≡◌, ◌+◌, ◌<◌, ◌≤◌, ◌++◌, ◌∷◌, ◌^◌, [], ℕ, Bool, List, length, None, option_map, replicate, take, IfOk, IfErr, OnOk};
ghost use Rattle.std.specs.List.{flat_map};
ghost use Rattle.h3_lines.specs.Write.{sink_use};
ghost use Rattle.h3_lines.specs.declared.line.TheConstants.{BLOCK};
ghost use Rattle.h3_lines.specs.Answering.{Breaks, Moves};
ghost use Rattle.h3_rows.specs.Answering.{StepEnds, StepsTo, form_of_job, held_of, listed, mark_in, state_of};
ghost use Rattle.h3_rows.specs.Line.{line_of};
ghost use Rattle.h3_rows.specs.Row.{read_of, row_body};
ghost use Rattle.h3_rows.specs.RowForm.{columns_form};
ghost use Rattle.h3_rows.specs.RowsAnswer.{columns_in, empty_answer, empty_step, error_field, free_columns, header_step, header_with, unanswered};

use crate::fields::read_of;
use crate::function::RowFunction;
use crate::header::{Name, answer_names, error_name, free_columns};
use crate::job::RowJob;
use crate::row::Row;
use crate::state::RowState;
use crate::write::{put_bytes, put_ending, put_field};
use h3_lines::{ANSWER, AnswerError, BLOCK, RunError, write_all};
use h3_requests::RowOptions;
use h3_streams::Sink;

/// Puts bytes, as those of a row, and one more into a block from the byte `at` on, and returns where
/// they end.
#[inline(always)]
pub(crate) fn hold_row(block: &mut [u8; BLOCK], at: usize, row: &[u8], last: u8) -> usize
    requires { at + length row.now + 1 ≤ BLOCK }
    ensures end { result ≡ at + length row.now + 1 }
    ensures held { take result block.new ≡ take at block.old ++ (row.now ++ last ∷ []) }
{
    let end = at + row.len();
    block[at..end].copy_from_slice(row);
    block[end] = last;
    end + 1
}

/// Puts the ending of a row into a block from the byte `at` on, and returns where it ends.
pub(crate) fn hold_ending(block: &mut [u8; BLOCK], at: usize, returns: usize) -> usize
    requires { at + returns + 1 ≤ BLOCK }
    ensures end { result ≡ at + returns + 1 }
    ensures held { take result block.new
        ≡ take at block.old ++ (replicate returns 13 ++ 10 ∷ []) }
{
    let end = at + returns;
    block[at..end].fill(b'\r');
    block[end] = b'\n';
    end + 1
}

/// Puts a row as it is into a block from the byte `at` on, and returns where it ends.
fn hold_line(block: &mut [u8; BLOCK], at: usize, row: Row<'_>) -> usize
    requires { at + length row.body.now + row.returns + 1 ≤ BLOCK }
    ensures end { result ≡ at + length row.entry.body.now + row.entry.returns + 1 }
    ensures held { take result block.new ≡ take at block.old ++ (line_of row.entry ++ 10 ∷ []) }
{
    let end = at + row.body.len();
    block[at..end].copy_from_slice(row.body);
    hold_ending(block, end, row.returns)
}

/// Puts a row as it is.
fn put_line<W: Sink>(
    out: &mut W,
    block: &mut [u8; BLOCK],
    end: usize,
    row: Row<'_>,
) -> Result<usize, RunError>
    requires { end ≤ BLOCK }
    ensures within { IfOk result (λ last. last ≤ BLOCK) }
    ensures ok { IfOk result (λ last. Moves W.taken W.has_failed
        (take end block.old ++ (line_of row.entry ++ 10 ∷ [])) (take last block.new) out.old out.new) }
    ensures err { IfErr result (λ e. Breaks (take end block.old ++ (line_of row.entry ++ 10 ∷ []))
        (sink_use W.taken W.has_failed out.old out.new) e) }
{
    let after_row = put_bytes(out, block, end, row.body)?;
    put_ending(out, block, after_row, row)
}

/// Writes what is held back, and an empty row.
fn write_empty<W: Sink>(
    out: &mut W,
    block: &mut [u8; BLOCK],
    end: usize,
    row: Row<'_>,
) -> Result<(), RunError>
    requires within { end ≤ BLOCK }
    ensures ok { OnOk result (Moves W.taken W.has_failed
        (take end block.old ++ (line_of row.entry ++ 10 ∷ [])) [] out.old out.new) }
    ensures err { IfErr result (λ e. Breaks (take end block.old ++ (line_of row.entry ++ 10 ∷ []))
        (sink_use W.taken W.has_failed out.old out.new) e) }
{
    let last = put_line(out, block, end, row)?;
    write_all(out, &block[..last])?;
    Ok(())
}

/// Puts an empty row, or holds it back while a header is awaited. Returns where the bytes in the block
/// end, and the state after the row.
pub(crate) fn put_empty<W: Sink>(
    out: &mut W,
    block: &mut [u8; BLOCK],
    end: usize,
    state: RowState,
    row: Row<'_>,
) -> Result<(usize, RowState), RunError>
    requires within { end ≤ BLOCK }
    requires few { state.number + length row.body.now < 2 ^ 63 }
    ensures within { IfOk result (λ r. r.0 ≤ BLOCK) }
    ensures few { IfOk result (λ r. r.1.number ≤ state.number + length row.entry.body.now + 1) }
    ensures ok { IfOk result (λ r. StepsTo W.taken W.has_failed
        (empty_step (state_of state (take end block.old)) (line_of row.entry) state.columns)
        (state_of r.1 (take r.0 block.new)) (held_of state.columns (take end block.old))
        (held_of r.1.columns (take r.0 block.new)) out.old out.new) }
    ensures err { IfErr result (λ e. StepEnds
        (empty_step (state_of state (take end block.old)) (line_of row.entry) state.columns)
        (held_of state.columns (take end block.old)) e
        (sink_use W.taken W.has_failed out.old out.new)) }
{
    if let None = state.columns {
        let size = row.body.len() + row.returns;
        if size < BLOCK - end {
            let last = hold_line(block, end, row);
            return Ok((last, state.passed(row)));
        }
        write_empty(out, block, end, row)?;
        return Ok((0, state.passed(row)));
    }
    let last = put_line(out, block, end, row)?;
    Ok((last, state.passed(row)))
}

/// Puts a separator and the name of a new column, if there is one.
fn put_name<W: Sink>(
    out: &mut W,
    block: &mut [u8; BLOCK],
    end: usize,
    separator: u8,
    name: Option<Name<'_>>,
) -> Result<usize, RunError>
    requires { end ≤ BLOCK }
    ensures within { IfOk result (λ last. last ≤ BLOCK) }
    ensures ok { IfOk result (λ last. Moves W.taken W.has_failed (take end block.old
        ++ flat_map (λ n. separator ∷ n) (listed (option_map (λ n. n.0.now ++ n.1.now) name.entry)))
        (take last block.new) out.old out.new) }
    ensures err { IfErr result (λ e. Breaks (take end block.old
        ++ flat_map (λ n. separator ∷ n) (listed (option_map (λ n. n.0.now ++ n.1.now) name.entry)))
        (sink_use W.taken W.has_failed out.old out.new) e) }
{
    match name {
        Some((first, more)) => put_field(out, block, end, separator, first, more),
        None => Ok(end),
    }
}

/// Puts the names of the new columns, each after a separator.
fn put_names<'f, W: Sink, F: RowFunction>(
    out: &mut W,
    block: &mut [u8; BLOCK],
    end: usize,
    job: &RowJob<'f, F>,
) -> Result<usize, RunError>
    requires { end ≤ BLOCK }
    ensures within { IfOk result (λ last. last ≤ BLOCK) }
    ensures ok { IfOk result (λ last. Moves W.taken W.has_failed (take end block.old
        ++ flat_map (λ n. job.now.options.now.separator ∷ n) (form_of_job F.counts_quotes job.now).names)
        (take last block.new) out.old out.new) }
    ensures err { IfErr result (λ e. Breaks (take end block.old
        ++ flat_map (λ n. job.now.options.now.separator ∷ n) (form_of_job F.counts_quotes job.now).names)
        (sink_use W.taken W.has_failed out.old out.new) e) }
{
    let separator = job.options.separator;
    let (first, second) = answer_names(job.options, job.name, job.is_pair);
    let error = error_name(job.options);
    let after_first = put_name(out, block, end, separator, Some(first))?;
    let after_second = put_name(out, block, after_first, separator, second)?;
    put_name(out, block, after_second, separator, error)
}

/// Puts a header with the names of the new columns.
fn put_named<'f, W: Sink, F: RowFunction>(
    out: &mut W,
    block: &mut [u8; BLOCK],
    end: usize,
    job: &RowJob<'f, F>,
    row: Row<'_>,
) -> Result<usize, RunError>
    requires { end ≤ BLOCK }
    ensures within { IfOk result (λ last. last ≤ BLOCK) }
    ensures ok { IfOk result (λ last. Moves W.taken W.has_failed (take end block.old
        ++ header_with job.now.options.now.separator (line_of row.entry) (form_of_job F.counts_quotes job.now).names)
        (take last block.new) out.old out.new) }
    ensures err { IfErr result (λ e. Breaks (take end block.old
        ++ header_with job.now.options.now.separator (line_of row.entry) (form_of_job F.counts_quotes job.now).names)
        (sink_use W.taken W.has_failed out.old out.new) e) }
{
    let after_row = put_bytes(out, block, end, row.body)?;
    let after_names = put_names(out, block, after_row, job)?;
    put_ending(out, block, after_names, row)
}

/// How many bytes an empty answer has, which are separators.
fn empty_size(is_pair: bool) -> usize
    ensures within { result ≤ 1 }
    ensures empty { (separator : ℕ) →
        take result (separator ∷ []) ≡ empty_answer is_pair separator }
{
    if is_pair { 1 } else { 0 }
}

/// Puts a row and an empty answer.
fn put_empty_answer<'f, W: Sink, F: RowFunction>(
    out: &mut W,
    block: &mut [u8; BLOCK],
    end: usize,
    job: &RowJob<'f, F>,
    row: Row<'_>,
) -> Result<usize, RunError>
    requires { end ≤ BLOCK }
    ensures within { IfOk result (λ last. last ≤ BLOCK) }
    ensures ok { IfOk result (λ last. Moves W.taken W.has_failed (take end block.old
        ++ (row.entry.body.now ++ (job.now.options.now.separator ∷ (form_of_job F.counts_quotes job.now).empty)))
        (take last block.new) out.old out.new) }
    ensures err { IfErr result (λ e. Breaks (take end block.old
        ++ (row.entry.body.now ++ (job.now.options.now.separator ∷ (form_of_job F.counts_quotes job.now).empty)))
        (sink_use W.taken W.has_failed out.old out.new) e) }
{
    let separator = job.options.separator;
    let between = [separator];
    let empty = &between[..empty_size(job.is_pair)];
    let after_row = put_bytes(out, block, end, row.body)?;
    put_field(out, block, after_row, separator, empty, b"")
}

/// Puts a separator and the name of an error, if there is a column for it.
fn put_error<W: Sink>(
    out: &mut W,
    block: &mut [u8; BLOCK],
    end: usize,
    options: &RowOptions,
    error: &[u8],
) -> Result<usize, RunError>
    requires { end ≤ BLOCK }
    ensures within { IfOk result (λ last. last ≤ BLOCK) }
    ensures ok { IfOk result (λ last. (name : List ℕ) (is_pair : Bool) →
        Moves W.taken W.has_failed (take end block.old
        ++ error_field (columns_form options.now name is_pair) error.now)
        (take last block.new) out.old out.new) }
    ensures err { IfErr result (λ e. (name : List ℕ) (is_pair : Bool) → Breaks (take end block.old
        ++ error_field (columns_form options.now name is_pair) error.now)
        (sink_use W.taken W.has_failed out.old out.new) e) }
{
    if options.shows_errors {
        return put_field(out, block, end, options.separator, error, b"");
    }
    Ok(end)
}

/// Puts a row with an empty answer, and the name of an error, if there is a column for it.
pub(crate) fn put_unanswered<'f, W: Sink, F: RowFunction>(
    out: &mut W,
    block: &mut [u8; BLOCK],
    end: usize,
    job: &RowJob<'f, F>,
    row: Row<'_>,
    error: &[u8],
) -> Result<usize, RunError>
    requires { end ≤ BLOCK }
    ensures within { IfOk result (λ last. last ≤ BLOCK) }
    ensures ok { IfOk result (λ last. Moves W.taken W.has_failed
        (take end block.old ++ unanswered (form_of_job F.counts_quotes job.now) (line_of row.entry) error.now)
        (take last block.new) out.old out.new) }
    ensures err { IfErr result (λ e. Breaks
        (take end block.old ++ unanswered (form_of_job F.counts_quotes job.now) (line_of row.entry) error.now)
        (sink_use W.taken W.has_failed out.old out.new) e) }
{
    let after_answer = put_empty_answer(out, block, end, job, row)?;
    let after_error = put_error(out, block, after_answer, job.options, error)?;
    put_ending(out, block, after_error, row)
}

/// Puts a header with the names of the new columns, after the empty rows before it.
pub(crate) fn put_header<'f, W: Sink, F: RowFunction>(
    out: &mut W,
    block: &mut [u8; BLOCK],
    end: usize,
    job: &RowJob<'f, F>,
    state: RowState,
    row: Row<'_>,
) -> Result<(usize, RowState), RunError>
    requires within { end ≤ BLOCK }
    requires awaited { state.columns ≡ None }
    requires few { state.number + length row.body.now < 2 ^ 63 }
    ensures within { IfOk result (λ r. r.0 ≤ BLOCK) }
    ensures few { IfOk result (λ r. r.1.number ≤ state.number + length row.entry.body.now + 1) }
    ensures ok { IfOk result (λ r. StepsTo W.taken W.has_failed
        (header_step (form_of_job F.counts_quotes job.now) (state_of state (take end block.old)) (line_of row.entry)
        (free_columns (form_of_job F.counts_quotes job.now) (read_of state.number (row_body (line_of row.entry)))
        (columns_in (form_of_job F.counts_quotes job.now) (read_of state.number (row_body (line_of row.entry))))))
        (state_of r.1 (take r.0 block.new)) (held_of state.columns (take end block.old))
        (held_of r.1.columns (take r.0 block.new)) out.old out.new) }
    ensures err { IfErr result (λ e. StepEnds
        (header_step (form_of_job F.counts_quotes job.now) (state_of state (take end block.old)) (line_of row.entry)
        (free_columns (form_of_job F.counts_quotes job.now) (read_of state.number (row_body (line_of row.entry)))
        (columns_in (form_of_job F.counts_quotes job.now) (read_of state.number (row_body (line_of row.entry))))))
        (held_of state.columns (take end block.old)) e
        (sink_use W.taken W.has_failed out.old out.new)) }
{
    let read = read_of(state.number, row.body);
    let columns = match free_columns(job.options, job.name, job.is_pair, read) {
        Ok(columns) => columns,
        Err(error) => return Err(RunError::Error(AnswerError::Column(error))),
    };
    let last = put_named(out, block, end, job, row)?;
    Ok((last, state.headed(row, columns)))
}

/// Puts a mark into a block, after what is held back up to `end`, or at its front, once that is written.
/// Returns where the mark begins.
pub(crate) fn hold_mark<W: Sink>(
    out: &mut W,
    block: &mut [u8; BLOCK],
    end: usize,
    mark: &[u8],
) -> Result<usize, RunError>
    requires within { end ≤ BLOCK }
    requires short { length mark.now ≤ 3 }
    ensures within { IfOk result (λ start. start + length mark.now ≤ BLOCK) }
    ensures ok { IfOk result (λ start. Moves W.taken W.has_failed (take end block.old)
        (take start block.new) out.old out.new) }
    ensures mark { IfOk result (λ start. mark_in start (length mark.now) block.new ≡ mark.now) }
    ensures err { IfErr result (λ e. Breaks (take end block.old)
        (sink_use W.taken W.has_failed out.old out.new) e) }
{
    if mark.is_empty() {
        return Ok(end);
    }
    let start = make_room(out, block, end)?;
    block[start..start + mark.len()].copy_from_slice(mark);
    Ok(start)
}

/// Writes what is held back if a plain row may have no room after it, and returns where the bytes in
/// the block end then.
// Else each plain row near the block's end would go byte by byte: one in fifty.
pub(crate) fn make_room<W: Sink>(
    out: &mut W,
    block: &[u8; BLOCK],
    end: usize,
) -> Result<usize, RunError>
    requires { end ≤ BLOCK }
    ensures within { IfOk result (λ last. last + 3 ≤ BLOCK) }
    ensures ok { IfOk result (λ last. Moves W.taken W.has_failed (take end block.now)
        (take last block.now) out.old out.new) }
    ensures err { IfErr result (λ e. Breaks (take end block.now)
        (sink_use W.taken W.has_failed out.old out.new) e) }
{
    if end + 2 * ANSWER < BLOCK {
        return Ok(end);
    }
    write_all(out, &block[..end])?;
    Ok(0)
}
