//! Rows of which each is written with the answer to its cell beside it.

ghost use Rattle.std.proofs.Common.{◌∙◌, refl};
ghost use Rattle.std.specs.Prelude.{◌≡◌, ◌+◌, ◌≤◌, [], length, replicate, take, vec_capacity};
ghost use Rattle.h3_lines.specs.Write.{Writes, sink_use};
ghost use Rattle.h3_lines.specs.declared.line.TheConstants.{BLOCK};
ghost use Rattle.h3_lines.specs.Answering.{Answered, RefusesEach};
ghost use Rattle.h3_rows.specs.Answering.{form_of_job, held_of, state_of};
ghost use Rattle.h3_lines.specs.EachLaws.{answered_none, answered_then, refuses_then};
ghost use Rattle.h3_rows.specs.Each.{EndsRows};
ghost use Rattle.h3_rows.specs.LastRow.{returns_after, returns_then};
ghost use Rattle.h3_rows.specs.RowForm.{form_of, form_with};
ghost use Rattle.h3_rows.specs.RowsAnswer.{begun_answer, choice_of, end_of, rows_answer, rows_then, start};
ghost use Rattle.h3_rows.specs.declared.reading.TheConstants.{LONGEST};

use crate::answer::{put_answer, put_plain, refuse_row};
use crate::function::{RowFunction, Short, Workspace};
use crate::job::RowJob;
use crate::line::{end_row, row_of};
use crate::reading::LONGEST;
use crate::state::{RowState, first_state};
use h3_lines::{
    AnswerError, AnswerLine, BLOCK, ColumnError, Job, JobContract, MAX_READS, PAGE, RowError,
    RowFault, RunError, drive_to_end, row_page, take_last, write_held,
};
use h3_requests::{CellField, RowOptions};
use h3_streams::{CountedReader, Sink, Source};
use std::alloc::Global;

/// Ends the answer to a list, all of whose rows are answered.
fn end_answer<W: Sink>(
    out: &mut W,
    held: &[u8],
    options: &RowOptions,
    state: RowState,
) -> Result<(), RunError>
    ensures { Writes (end_of (choice_of options.now.field) (state_of state held.now) state.columns)
        result (sink_use W.taken W.has_failed out.old out.new) }
{
    match (state.columns, &options.field) {
        (Some(_), _) => match state.kept {
            None => Ok(()),
            Some(kept) => {
                let error = AnswerError::AtRowAndMore(kept.number, kept.error, kept.more);
                Err(RunError::Error(error))
            }
        },
        (None, CellField::Number(_)) => write_held(out, held),
        (None, CellField::Column(_)) => {
            Err(RunError::Error(AnswerError::Column(ColumnError::NotFound)))
        }
    }
}

/// The rows of an input with their answers, in a block that is written when it is full; and how many
/// carriage returns the last row taken ended in.
#[derive(Drop)]
struct RowAnswers<'a, 'f, W, F: RowFunction> {
    out: &'a mut W,
    job: &'f RowJob<'f, F>,
    work: Workspace,
    numbers: &'a mut [u32],
    state: RowState,
    block: [u8; BLOCK],
    end: usize,
    returns: usize,
    ghost within: { end ≤ BLOCK },
    ghost room: { F.needs job.now.function.now ≤ length numbers.now },
}

impl<'a, 'f, W: Sink, F: RowFunction> JobContract for RowAnswers<'a, 'f, W, F> {
    ghost longest = { LONGEST };

    ghost count = { λ v. v.state.number };

    ghost settled = { λ v. held_of v.state.columns (take v.end v.block) ≡ [] };

    ghost taken = { λ v rows w.
        Answered W.taken W.has_failed
        (λ last. rows_then last
        (form_of_job F.counts_quotes v.job.now)
        (F.answer_of v.job.now.function.now))
        (state_of v.state (take v.end v.block)) (state_of w.state (take w.end w.block))
        (held_of v.state.columns (take v.end v.block))
        (held_of w.state.columns (take w.end w.block)) v.out.now w.out.now rows
        × (w.job ≡ v.job) × (w.out.ghost_name ≡ v.out.ghost_name)
        × (replicate w.returns 13 ≡ returns_after (replicate v.returns 13) rows) };

    ghost refused = { λ v rows w e.
        RefusesEach
        (λ last. rows_then last
        (form_of_job F.counts_quotes v.job.now)
        (F.answer_of v.job.now.function.now))
        (state_of v.state (take v.end v.block)) (held_of v.state.columns (take v.end v.block))
        rows e (sink_use W.taken W.has_failed v.out.now w.out.now)
        × (w.out.ghost_name ≡ v.out.ghost_name) };

    fn refuse_long(&mut self) -> RunError {
        let held = &self.block[..self.end];
        let error = RowError::Bad(RowFault::TooLong);
        refuse_row(self.out, held, self.state.number, error)
    }

    fn settle(&mut self) -> Result<(), RunError> {
        if let None = self.state.columns {
            return Ok(());
        }
        let held = &self.block[..self.end];
        write_held(self.out, held)?;
        self.end = 0;
        Ok(())
    }

    ghost none_taken = { λ v. (answered_none _ _ _ _ _ _, refl, refl, refl) };

    ghost taken_then = { λ u v w xs ys p q. (
      answered_then _ _ (λ j last. rows_then last
          (form_of_job F.counts_quotes j.now)
          (F.answer_of j.now.function.now)) xs ys p.1 p.0 q.0,
      q.1 ∙ p.1,
      q.2 ∙ p.2,
      returns_then _ _ _ xs ys p.3 q.3,
    ) };

    ghost refused_then = { λ u v w xs ys e p q. (
      refuses_then _ _ (λ j last. rows_then last
          (form_of_job F.counts_quotes j.now)
          (F.answer_of j.now.function.now)) _ xs ys e p.1 p.0 q.0,
      q.1 ∙ p.2,
    ) };
}

impl<'a, 'f, W: Sink, F: RowFunction> Job for RowAnswers<'a, 'f, W, F> {
    fn take(&mut self, row: &[u8], inside: bool) -> Result<(), RunError> {
        let row = row_of(row);
        let (end, state) = put_answer(
            self.out,
            &mut self.block,
            self.end,
            self.job,
            &mut self.work,
            self.numbers,
            self.state,
            row,
            inside,
        )?;
        self.end = end;
        self.state = state;
        self.returns = row.returns;
        Ok(())
    }

    #[inline(always)]
    fn take_first<'b>(
        &mut self,
        quotes: bool,
        bytes: &'b [u8],
    ) -> Result<Option<&'b [u8]>, RunError> {
        if quotes != self.job.options.quotes {
            return Ok(None);
        }
        let Some(columns) = self.state.columns else {
            return Ok(None);
        };
        match put_plain(
            &mut self.block,
            self.end,
            self.job,
            &mut self.work,
            self.numbers,
            self.state,
            columns,
            bytes,
        ) {
            Some((size, returns, end)) => {
                self.end = end;
                self.returns = returns;
                self.state.count();
                Ok(Some(&bytes[size + 1..]))
            }
            None => Ok(None),
        }
    }
}

/// Answers the rows of an input, read in pages, and ends the answer.
fn answer_input<'a, 'f, R: Source, W: Sink, F: RowFunction>(
    answers: &mut RowAnswers<'a, 'f, W, F>,
    input: &mut R,
    page: &mut Vec<u8>,
) -> Result<(), RunError>
    requires first { state_of answers.old.state (take answers.old.end answers.old.block)
        ≡ start
        (form_of_job F.counts_quotes answers.old.job.now) }
    requires empty { answers.old.end ≡ 0 }
    requires none { answers.old.returns ≡ 0 }
    requires few { answers.old.state.number ≡ 1 }
    requires page { LONGEST + PAGE ≤ vec_capacity page.old }
    ensures ends { EndsRows answers.old.job.now.options.now.quotes
        (rows_answer
        (form_of_job F.counts_quotes answers.old.job.now)
        (F.answer_of answers.old.job.now.function.now))
        (begun_answer
        (form_of_job F.counts_quotes answers.old.job.now)
        (F.answer_of answers.old.job.now.function.now))
        (R.left input.old) (R.left input.new)
        (R.has_failed input.old) (R.has_failed input.new) result
        (sink_use W.taken W.has_failed answers.old.out.now answers.new.out.now) }
    ensures same { answers.new.out.ghost_name ≡ answers.old.out.ghost_name }
{
    let mut reader = CountedReader::new(&mut *input, MAX_READS);
    let quotes = answers.job.options.quotes;
    let reading = drive_to_end(answers, &mut reader, quotes, LONGEST, PAGE, page);
    // The proof reads what the source is after the reads from this use of it.
    let _ = &*input;
    let (begun, inside) = reading?;
    let Some(last) = end_row(page, begun, answers.returns) else {
        return Err(answers.refuse_long());
    };
    take_last(answers, &page[..last], inside)?;
    let held = &answers.block[..answers.end];
    end_answer(answers.out, held, answers.job.options, answers.state)
}

/// The same to a sink.
// Inlined, its blocks would take their place on the stack while the caller runs a writer.
#[inline(never)]
fn answer_pages<'f, R: Source, W: Sink, F: RowFunction>(
    job: &'f RowJob<'f, F>,
    numbers: &mut [u32],
    input: &mut R,
    out: &mut W,
    page: &mut Vec<u8>,
) -> Result<(), RunError>
    requires page { LONGEST + PAGE ≤ vec_capacity page.old }
    requires room { F.needs job.now.function.now ≤ length numbers.old }
    ensures { EndsRows job.now.options.now.quotes
        (rows_answer (form_of_job F.counts_quotes job.now)
        (F.answer_of job.now.function.now))
        (begun_answer (form_of_job F.counts_quotes job.now)
        (F.answer_of job.now.function.now))
        (R.left input.old) (R.left input.new)
        (R.has_failed input.old) (R.has_failed input.new) result
        (sink_use W.taken W.has_failed out.old out.new) }
{
    let mut answers = RowAnswers {
        out: &mut *out,
        job,
        work: Workspace {
            place: 0,
            text: [0; BLOCK],
        },
        numbers,
        state: first_state(job.options),
        block: [0; BLOCK],
        end: 0,
        returns: 0,
    };
    let ending = answer_input(&mut answers, input, page);
    // The proof reads what the sink is after the writes from this use of it.
    let _ = &*out;
    ending
}

/// Writes each row of an input with what answers its cell beside it.
pub(crate) fn answer_input_by<R: Source, W: Sink, F: RowFunction>(
    alloc: Global,
    options: &RowOptions,
    name: &[u8],
    is_pair: bool,
    function: &F,
    numbers: &mut [u32],
    input: &mut R,
    out: &mut W,
) -> Result<(), RunError>
    requires { F.needs function.now ≤ length numbers.old }
    ensures { EndsRows options.now.quotes
        (rows_answer (form_with (F.counts_quotes function.now) options.now name.now is_pair)
        (F.answer_of function.now))
        (begun_answer (form_with (F.counts_quotes function.now) options.now name.now is_pair)
        (F.answer_of function.now))
        (R.left input.old) (R.left input.new)
        (R.has_failed input.old) (R.has_failed input.new) result
        (sink_use W.taken W.has_failed out.old out.new) }
{
    let mut page = row_page(alloc, LONGEST, PAGE)?;
    let job = RowJob {
        options,
        name,
        is_pair,
        function,
    };
    answer_pages(&job, numbers, input, out, &mut page)
}

/// Writes each row of an input with the answer to its own cell beside it, in order, up to the end or
/// the first error that ends the run.
///
/// A row is written as it is, then the separator, the answer, and the row's ending; once for each of
/// the answers that the function has. Where its cell is missing the answer is empty. An empty row is
/// written as it is. A last row without a line feed gets the ending of the row before it, or a line feed,
/// if it is the only row or ends in a carriage return. A header is written with the name of the new
/// column: `name`, unless the options have another. Answers are written page by page; a row that a read
/// fault cuts is not answered.
///
/// # Errors
///
/// The first one that is met, of:
///
/// - `AnswerError::Column` if a column that the options name is not one field of the header, or the
///   header has the name of a new column already. Nothing is then written, but for empty rows before the
///   header if they have more than 32,768 bytes.
/// - `AnswerError::AtRow` with the number of the first row that is malformed, or faulty, unless the run
///   goes on; `AnswerError::AtRowAndMore` at the end of a run that went on after an error.
/// - `Fault::Read` if a read fails, or the end is not found in 2^40 reads.
/// - `Fault::Write` if a push or a flush fails.
/// - `Fault::Memory` if there is no memory for the page.
pub fn answer_rows<R: Source, W: Sink, F: AnswerLine>(
    alloc: Global,
    options: &RowOptions,
    name: &[u8],
    function: &F,
    input: &mut R,
    out: &mut W,
) -> Result<(), RunError>
    ensures { EndsRows options.now.quotes
        (rows_answer (form_of options.now name.now) (F.answer_of function.now))
        (begun_answer (form_of options.now name.now) (F.answer_of function.now))
        (R.left input.old) (R.left input.new)
        (R.has_failed input.old) (R.has_failed input.new) result
        (sink_use W.taken W.has_failed out.old out.new) }
{
    answer_input_by(
        alloc,
        options,
        name,
        false,
        &Short { function },
        &mut [],
        input,
        out,
    )
}
