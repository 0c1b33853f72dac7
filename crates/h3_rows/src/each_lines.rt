//! Rows of which each is written once for each of any number of answers to its cell.

ghost use Rattle.std.specs.Prelude.{◌≡◌, ◌≤◌, ◌++◌, ℕ, Bool, false, List, length, take, Option, IfOk, IfErr};
ghost use Rattle.std.specs.Iterator.{AlwaysYields, IsFinite};
ghost use Rattle.std.specs.List.{flat_map};
ghost use Rattle.h3_lines.specs.Answering.{Breaks, Moves};
ghost use Rattle.h3_lines.specs.Write.{sink_use};
ghost use Rattle.h3_rows.specs.Each.{EndsRows};
ghost use Rattle.h3_rows.specs.Line.{line_of};
ghost use Rattle.h3_rows.specs.RowForm.{columns_form};
ghost use Rattle.h3_rows.specs.RowsAnswer.{begun_answer, rows_answer, rows_with};

use crate::each::answer_input_by;
use crate::function::{RowFunction, Workspace};
use crate::row::Row;
use crate::write::put_rows;
use h3_index::H3Error;
use h3_lines::{BLOCK, Line, LinesFunction, RunError};
use h3_requests::RowOptions;
use h3_streams::{Sink, Source};
use std::alloc::Global;

/// Puts a row once for each line of the items of an iterator, with that line and the bytes `after` it,
/// after the bytes held back in a block, which end at `end`. Returns where they end then.
fn put_lines_beside<W: Sink, L: Line + Drop, I: Iterator<Item = L> + Drop>(
    items: I,
    out: &mut W,
    work: &mut Workspace,
    block: &mut [u8; BLOCK],
    end: usize,
    separator: u8,
    row: Row<'_>,
    after: &[u8],
) -> Result<usize, RunError>
    requires can { I.can_next items }
    requires ends { IsFinite (I.remaining items) }
    requires within { end ≤ BLOCK }
    ensures within { IfOk result (λ last. last ≤ BLOCK) }
    ensures ok { IfOk result (λ last. (all : List _) → AlwaysYields I.next_gives (λ x. x) items all →
        Moves W.taken W.has_failed
        (take end block.old ++ rows_with separator false after.now (line_of row.entry)
        (flat_map L.line_of all)) (take last block.new) out.old out.new) }
    ensures err { IfErr result (λ e. (all : List _) → AlwaysYields I.next_gives (λ x. x) items all →
        Breaks (take end block.old ++ rows_with separator false after.now (line_of row.entry)
        (flat_map L.line_of all))
        (sink_use W.taken W.has_failed out.old out.new) e) }
{
    let mut last = end;
    for item in items {
        let size = item.put(&mut work.text, 0);
        let text = &work.text[..size];
        last = put_rows(out, block, last, separator, row, after, text)?;
    }
    Ok(last)
}

/// A function whose answer to an index is put beside its row as it is made.
#[derive(Drop)]
struct Long<'f, F> {
    function: &'f F,
}

impl<'f, F: LinesFunction> RowFunction for Long<'f, F> {
    ghost answer_of = { λ f. F.answer_of f.function.now };

    ghost counts_quotes = { λ f. false };

    ghost needs = { λ f. 0 };

    fn put_beside<W: Sink>(
        &self,
        index: u64,
        out: &mut W,
        work: &mut Workspace,
        _numbers: &mut [u32],
        block: &mut [u8; BLOCK],
        end: usize,
        separator: u8,
        row: Row<'_>,
        after: &[u8],
    ) -> Result<Result<usize, H3Error>, RunError> {
        match self.function.lines(Some(index)) {
            Ok(items) => {
                let last = put_lines_beside(items, out, work, block, end, separator, row, after)?;
                Ok(Ok(last))
            }
            Err(error) => Ok(Err(error)),
        }
    }

    #[inline(always)]
    fn put_short(
        &self,
        _index: u64,
        _work: &mut Workspace,
        _numbers: &mut [u32],
        _block: &mut [u8; BLOCK],
        _at: usize,
    ) -> Option<usize> {
        None
    }
}

/// Writes each row of an input with the answers to its own cell beside it, as
/// [`answer_rows`](crate::answer_rows) does: once for each line that the function answers by. No
/// answer is kept, and no more of its lines than an item has.
///
/// Where an answer is a pair (`is_pair`), a cell and its distance, the header gets two names: `near`
/// and `distance`, or the name that the options have, and the same with `Distance` after it; and an
/// empty answer is the separator between its two empty parts. The function puts the separator between
/// the parts of its answers. Otherwise the new column has this name, unless the options have another.
///
/// # Errors
///
/// As of `answer_rows`.
pub fn answer_rows_lines<R: Source, W: Sink, F: LinesFunction>(
    alloc: Global,
    options: &RowOptions,
    name: &[u8],
    is_pair: bool,
    function: &F,
    input: &mut R,
    out: &mut W,
) -> Result<(), RunError>
    ensures { EndsRows options.now.quotes
        (rows_answer (columns_form options.now name.now is_pair) (F.answer_of function.now))
        (begun_answer (columns_form options.now name.now is_pair) (F.answer_of function.now))
        (R.left input.old) (R.left input.new)
        (R.has_failed input.old) (R.has_failed input.new) result
        (sink_use W.taken W.has_failed out.old out.new) }
{
    answer_input_by(
        alloc,
        options,
        name,
        is_pair,
        &Long { function },
        &mut [],
        input,
        out,
    )
}
