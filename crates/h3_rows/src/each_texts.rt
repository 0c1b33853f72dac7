//! Rows of which each is written once for each of one or more texts of any length, with that text beside
//! it.

ghost use Rattle.std.specs.Prelude.{◌≡◌, ◌≤◌, ◌++◌, ◌∷◌, [], ℕ, Bool, Option, IfOk, IfErr, IfSome, length, take, false};
ghost use Rattle.h3_lines.specs.Answering.{Breaks, Moves};
ghost use Rattle.h3_lines.specs.EachTexts.{lines_or, numbered_lines};
ghost use Rattle.h3_lines.specs.Pieces.{Uncut};
ghost use Rattle.h3_lines.specs.Write.{sink_use};
ghost use Rattle.h3_rows.specs.Each.{EndsRows};
ghost use Rattle.h3_rows.specs.Line.{line_of};
ghost use Rattle.h3_rows.specs.RowForm.{text_form_of};
ghost use Rattle.h3_rows.specs.RowsAnswer.{begun_answer, rows_answer, rows_with};

use crate::each::answer_input_by;
use crate::function::{RowFunction, Workspace};
use crate::put::hold_row;
use crate::row::Row;
use crate::write::put_row;
use h3_index::H3Error;
use h3_lines::{ANSWER, BLOCK, RunError, TextsFunction};
use h3_requests::RowOptions;
use h3_streams::{Sink, Source};
use std::alloc::Global;

/// Puts a row once for each number, with its text and the bytes `after` it, after the bytes held back in a
/// block, which end at `end`. Returns where they end then.
fn put_numbered<W: Sink, F: TextsFunction>(
    function: &F,
    numbers: &[u32],
    out: &mut W,
    block: &mut [u8; BLOCK],
    end: usize,
    separator: u8,
    row: Row<'_>,
    after: &[u8],
) -> Result<usize, RunError>
    requires { end ≤ BLOCK }
    ensures within { IfOk result (λ last. last ≤ BLOCK) }
    ensures ok { IfOk result (λ last. Moves W.taken W.has_failed (take end block.old
        ++ rows_with separator (F.counts_quotes function.now) after.now (line_of row.entry)
        (numbered_lines (F.text_of function.now) numbers.now))
        (take last block.new) out.old out.new) }
    ensures err { IfErr result (λ e. Breaks (take end block.old
        ++ rows_with separator (F.counts_quotes function.now) after.now (line_of row.entry)
        (numbered_lines (F.text_of function.now) numbers.now))
        (sink_use W.taken W.has_failed out.old out.new) e) }
{
    let mut last = end;
    let mut rest = numbers;
    while let Some((number, more)) = rest.split_first() {
        let text = function.text(*number);
        last = put_row(out, block, last, separator, row, text, after)?;
        rest = more;
    }
    Ok(last)
}

/// The same, or the row once if there is no number.
fn put_texts<W: Sink, F: TextsFunction>(
    function: &F,
    numbers: &[u32],
    out: &mut W,
    block: &mut [u8; BLOCK],
    end: usize,
    separator: u8,
    row: Row<'_>,
    after: &[u8],
) -> Result<usize, RunError>
    requires { end ≤ BLOCK }
    ensures within { IfOk result (λ last. last ≤ BLOCK) }
    ensures ok { IfOk result (λ last. Moves W.taken W.has_failed (take end block.old
        ++ rows_with separator (F.counts_quotes function.now) after.now (line_of row.entry)
        (lines_or (F.none_of function.now) (F.text_of function.now) numbers.now))
        (take last block.new) out.old out.new) }
    ensures err { IfErr result (λ e. Breaks (take end block.old
        ++ rows_with separator (F.counts_quotes function.now) after.now (line_of row.entry)
        (lines_or (F.none_of function.now) (F.text_of function.now) numbers.now))
        (sink_use W.taken W.has_failed out.old out.new) e) }
{
    match numbers {
        [] => put_row(out, block, end, separator, row, function.none(), after),
        _ => put_numbered(function, numbers, out, block, end, separator, row, after),
    }
}

/// The text of an answer that is one text, with this number, or none.
#[inline(always)]
fn only_text<'f, F: TextsFunction>(function: &'f F, numbers: &[u32]) -> Option<&'f [u8]>
    ensures only { IfSome result (λ text.
        lines_or (F.none_of function.now) (F.text_of function.now) numbers.now
        ≡ text.now ++ 10 ∷ []) }
    ensures line { IfSome result (λ text.
        Uncut 10 (F.counts_quotes function.now) false text.now false) }
{
    match numbers {
        [] => Some(function.none()),
        [number] => Some(function.text(*number)),
        _ => None,
    }
}

/// A function whose answer to an index is one or more texts of any length.
#[derive(Drop)]
struct Several<'f, F> {
    function: &'f F,
}

impl<'f, F: TextsFunction> RowFunction for Several<'f, F> {
    ghost answer_of = { λ f. F.answer_of f.function.now };

    ghost counts_quotes = { λ f. F.counts_quotes f.function.now };

    ghost needs = { λ f. F.needs f.function.now };

    fn put_beside<W: Sink>(
        &self,
        index: u64,
        out: &mut W,
        _work: &mut Workspace,
        numbers: &mut [u32],
        block: &mut [u8; BLOCK],
        end: usize,
        separator: u8,
        row: Row<'_>,
        after: &[u8],
    ) -> Result<Result<usize, H3Error>, RunError> {
        match self.function.find(Some(index), numbers) {
            Ok(count) => {
                let found = &numbers[..count];
                let last = put_texts(self.function, found, out, block, end, separator, row, after)?;
                Ok(Ok(last))
            }
            Err(error) => Ok(Err(error)),
        }
    }

    #[inline(always)]
    fn put_short(
        &self,
        index: u64,
        _work: &mut Workspace,
        numbers: &mut [u32],
        block: &mut [u8; BLOCK],
        at: usize,
    ) -> Option<usize> {
        match self.function.find(Some(index), numbers) {
            Ok(count) => match only_text(self.function, &numbers[..count]) {
                Some(text) if text.len() < ANSWER => Some(hold_row(block, at, text, b'\n')),
                _ => None,
            },
            Err(_) => None,
        }
    }
}

/// Writes each row of an input with the answers to its own cell beside it, as
/// [`answer_rows_text`](crate::answer_rows_text) does: once for each of the texts by which the function
/// answers.
///
/// There must be as many numbers as the function needs; they are unspecified afterwards.
///
/// # Errors
///
/// As of `answer_rows`.
pub fn answer_rows_texts<R: Source, W: Sink, F: TextsFunction>(
    alloc: Global,
    options: &RowOptions,
    name: &[u8],
    function: &F,
    numbers: &mut [u32],
    input: &mut R,
    out: &mut W,
) -> Result<(), RunError>
    requires { F.needs function.now ≤ length numbers.old }
    ensures { EndsRows options.now.quotes
        (rows_answer (text_form_of (F.counts_quotes function.now) options.now name.now)
        (F.answer_of function.now))
        (begun_answer (text_form_of (F.counts_quotes function.now) options.now name.now)
        (F.answer_of function.now))
        (R.left input.old) (R.left input.new)
        (R.has_failed input.old) (R.has_failed input.new) result
        (sink_use W.taken W.has_failed out.old out.new) }
{
    answer_input_by(
        alloc,
        options,
        name,
        false,
        &Several { function },
        numbers,
        input,
        out,
    )
}
