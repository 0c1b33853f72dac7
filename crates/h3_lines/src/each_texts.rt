//! Lists of which each line is answered on its own, by one or more texts of any length.

ghost use Rattle.std.specs.Prelude.{◌≡◌, ◌≤◌, ◌++◌, ℕ, Bool, false, List, Option, IfOk, IfErr, OnErr, length, take};
ghost use Rattle.h3_lines.specs.Answer.{Answer, refused, written};
ghost use Rattle.h3_lines.specs.Answering.{FailsPush, Moves};
ghost use Rattle.h3_lines.specs.EachLine.{EndsEach};
ghost use Rattle.h3_lines.specs.EachTexts.{lines_or, numbered_lines};
ghost use Rattle.h3_lines.specs.Pieces.{Uncut};
ghost use Rattle.h3_lines.specs.Write.{sink_use};

use crate::each::{Answering, Output, answer_pages, stop};
use crate::line::BLOCK;
use crate::run_error::RunError;
use crate::splitting::{LONGEST_LINE, PAGE, row_page};
use crate::stop::Stop;
use crate::write::put_text;
use h3_index::H3Error;
use h3_streams::{Sink, Source, StreamFault};
use std::alloc::Global;

/// A function that answers an index by one or more texts of any length, each on a line of its own. Each
/// text has a number; one more is the answer if there is no number.
pub trait TextsFunction {
    /// The answer to an index, or to a line that is not an index: texts with a line feed each, or an error.
    ghost answer_of: { Self → Option ℕ → Answer };

    /// Whether quotes count in its texts.
    ghost counts_quotes: { Self → Bool };

    /// How many places `find` needs.
    ghost needs: { Self → ℕ };

    /// The text with a number.
    ghost text_of: { Self → ℕ → List ℕ };

    /// The text if there is no number.
    ghost none_of: { Self → List ℕ };

    /// Writes the numbers of the texts of the answer to the first places, in order, and returns how many
    /// there are. The other places are unspecified afterwards.
    ///
    /// # Errors
    ///
    /// The answer's error.
    fn find(&self, index: Option<u64>, numbers: &mut [u32]) -> Result<usize, H3Error>
        requires room { needs self.now ≤ length numbers.old }
        ensures within { IfOk result (λ count. count ≤ length numbers.new) }
        ensures ok { IfOk result (λ count. answer_of self.now index
            ≡ written (lines_or (none_of self.now) (text_of self.now) (take count numbers.new))) }
        ensures err { IfErr result (λ e. answer_of self.now index ≡ refused e) };

    /// Returns the text with a number, without a line feed at its end. A line feed in the text is inside
    /// quotes that count.
    fn text(&self, number: u32) -> &[u8]
        ensures text { result.now ≡ text_of self.now number }
        ensures line { Uncut 10 (counts_quotes self.now) false result.now false };

    /// Returns the text if there is no number, as `text` does.
    fn none(&self) -> &[u8]
        ensures text { result.now ≡ none_of self.now }
        ensures line { Uncut 10 (counts_quotes self.now) false result.now false };
}

/// Puts a line with the text of each number after the bytes held back in a block, which end at `end`, and
/// returns where they end then, as `put_text` does.
fn put_numbered<W: Sink, F: TextsFunction>(
    out: &mut W,
    block: &mut [u8; BLOCK],
    end: usize,
    function: &F,
    numbers: &[u32],
) -> Result<usize, StreamFault>
    requires { end ≤ BLOCK }
    ensures within { IfOk result (λ last. last ≤ BLOCK) }
    ensures ok { IfOk result (λ last. Moves W.taken W.has_failed
        (take end block.old ++ numbered_lines (F.text_of function.now) numbers.now)
        (take last block.new) out.old out.new) }
    ensures err { OnErr result (FailsPush
        (take end block.old ++ numbered_lines (F.text_of function.now) numbers.now)
        (sink_use W.taken W.has_failed out.old out.new)) }
{
    let mut last = end;
    let mut rest = numbers;
    while let Some((number, more)) = rest.split_first() {
        last = put_text(out, block, last, function.text(*number))?;
        rest = more;
    }
    Ok(last)
}

/// The same, or one line if there is no number.
fn put_texts<W: Sink, F: TextsFunction>(
    out: &mut W,
    block: &mut [u8; BLOCK],
    end: usize,
    function: &F,
    numbers: &[u32],
) -> Result<usize, StreamFault>
    requires { end ≤ BLOCK }
    ensures within { IfOk result (λ last. last ≤ BLOCK) }
    ensures ok { IfOk result (λ last. Moves W.taken W.has_failed
        (take end block.old ++ lines_or (F.none_of function.now) (F.text_of function.now) numbers.now)
        (take last block.new) out.old out.new) }
    ensures err { OnErr result (FailsPush
        (take end block.old ++ lines_or (F.none_of function.now) (F.text_of function.now) numbers.now)
        (sink_use W.taken W.has_failed out.old out.new)) }
{
    match numbers {
        [] => put_text(out, block, end, function.none()),
        _ => put_numbered(out, block, end, function, numbers),
    }
}

/// A function whose answer to an index is one or more texts of any length.
#[derive(Drop)]
struct Several<'f, F> {
    function: &'f F,
}

impl<'f, F: TextsFunction> Answering for Several<'f, F> {
    ghost answer_of = { λ f. F.answer_of f.function.now };

    ghost needs = { λ f. F.needs f.function.now };

    fn answer<'a, W: Sink>(
        &self,
        index: Option<u64>,
        held: &mut Output<'a, W>,
        numbers: &mut [u32],
    ) -> Result<(), Stop> {
        match self.function.find(index, numbers) {
            Ok(count) => {
                let found = &numbers[..count];
                held.end = put_texts(held.out, &mut held.block, held.end, self.function, found)?;
                held.number += 1;
                Ok(())
            }
            Err(error) => {
                let bytes = &held.block[..held.end];
                Err(stop(held.out, bytes, error))
            }
        }
    }
}

/// Answers each line of a list that is not blank, in order, up to its end or its first error, as
/// [`answer_each`](crate::answer_each) does, by one or more texts of any length, each on a line of its own.
/// A text that does not fit into the block of answers is written directly.
///
/// There must be as many numbers as the function needs; they are unspecified afterwards.
///
/// # Errors
///
/// As of `answer_each`.
pub fn answer_each_texts<R: Source, W: Sink, F: TextsFunction>(
    alloc: Global,
    function: &F,
    numbers: &mut [u32],
    input: &mut R,
    out: &mut W,
) -> Result<(), RunError>
    requires { F.needs function.now ≤ length numbers.old }
    ensures { EndsEach (F.answer_of function.now) (R.left input.old) (R.left input.new)
        (R.has_failed input.old) (R.has_failed input.new) result
        (sink_use W.taken W.has_failed out.old out.new) }
{
    let mut page = row_page(alloc, LONGEST_LINE, PAGE)?;
    answer_pages(&Several { function }, numbers, input, out, &mut page)
}
