//! Rows of which each is written with a text of any length beside it.

ghost use Rattle.std.specs.Prelude.{◌≡◌, ℕ, Bool, Option};
ghost use Rattle.h3_lines.specs.Write.{sink_use};
ghost use Rattle.h3_rows.specs.Each.{EndsRows};
ghost use Rattle.h3_rows.specs.RowForm.{text_form_of};
ghost use Rattle.h3_rows.specs.RowsAnswer.{begun_answer, rows_answer};

use crate::each::answer_input_by;
use crate::function::{RowFunction, Workspace};
use crate::row::Row;
use crate::write::put_row;
use h3_index::H3Error;
use h3_lines::{ANSWER, BLOCK, RunError, SHORT, TextFunction};
use h3_requests::RowOptions;
use h3_streams::{Sink, Source};
use std::alloc::Global;

/// A function whose answer to an index is a text of any length.
#[derive(Drop)]
struct Texts<'f, F> {
    function: &'f F,
}

impl<'f, F: TextFunction> RowFunction for Texts<'f, F> {
    ghost answer_of = { λ f. F.answer_of f.function.now };

    ghost counts_quotes = { λ f. F.counts_quotes f.function.now };

    ghost needs = { λ f. 0 };

    fn put_beside<W: Sink>(
        &self,
        index: u64,
        out: &mut W,
        work: &mut Workspace,
        _numbers: &mut [u32],
        block: &mut [u8; BLOCK],
        end: usize,
        separator: u8,
        row: Row<'_>,
        after: &[u8],
    ) -> Result<Result<usize, H3Error>, RunError> {
        match self.function.text(Some(index), &mut work.place) {
            Ok(text) => {
                let own = text.own_bytes();
                let last = put_row(out, block, end, separator, row, own, after)?;
                Ok(Ok(last))
            }
            Err(error) => Ok(Err(error)),
        }
    }

    #[inline(always)]
    fn put_short(
        &self,
        index: u64,
        work: &mut Workspace,
        _numbers: &mut [u32],
        block: &mut [u8; BLOCK],
        at: usize,
    ) -> Option<usize> {
        work.place = self.function.look_for(index, work.place);
        match self.function.text(Some(index), &mut work.place) {
            Ok(text) if text.count < ANSWER - SHORT => Some(text.put(block, at, b'\n')),
            _ => None,
        }
    }
}

/// Writes each row of an input with the answer to its own cell beside it, as
/// [`answer_rows`](crate::answer_rows) does, where an answer is a text of any length.
///
/// Each text, and `name`, should be one field of the rows' form. A text may have separators and line
/// feeds between quotes that count. A text that ends in a carriage return would lose it to the row's
/// ending. `name` is the new column's name, unless the options have one.
///
/// # Errors
///
/// As of `answer_rows`.
pub fn answer_rows_text<R: Source, W: Sink, F: TextFunction>(
    alloc: Global,
    options: &RowOptions,
    name: &[u8],
    function: &F,
    input: &mut R,
    out: &mut W,
) -> Result<(), RunError>
    ensures { EndsRows options.now.quotes
        (rows_answer (text_form_of (F.counts_quotes function.now) options.now name.now)
        (F.answer_of function.now))
        (begun_answer (text_form_of (F.counts_quotes function.now) options.now name.now)
        (F.answer_of function.now))
        (R.left input.old) (R.left input.new)
        (R.has_failed input.old) (R.has_failed input.new) result
        (sink_use W.taken W.has_failed out.old out.new) }
{
    answer_input_by(
        alloc,
        options,
        name,
        false,
        &Texts { function },
        &mut [],
        input,
        out,
    )
}
