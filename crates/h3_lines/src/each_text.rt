//! Lists of which each line is answered on its own, by a text of any length.

ghost use Rattle.std.specs.Prelude.{◌≡◌, ◌++◌, ◌∷◌, [], ℕ, Bool, false, Option, IfOk, IfErr};
ghost use Rattle.h3_lines.specs.Answer.{Answer, refused, written};
ghost use Rattle.h3_lines.specs.EachLine.{EndsEach};
ghost use Rattle.h3_lines.specs.Pieces.{Uncut};
ghost use Rattle.h3_lines.specs.Text.{text_in};
ghost use Rattle.h3_lines.specs.Write.{sink_use};

use crate::each::{Answering, Output, answer_pages, stop};
use crate::plain::LINES;
use crate::run_error::RunError;
use crate::splitting::{LONGEST_LINE, PAGE, row_page};
use crate::stop::Stop;
use crate::text::Text;
use crate::write::put_answer_text;
use h3_index::H3Error;
use h3_streams::{Sink, Source};
use std::alloc::Global;

/// A function that answers an index by a text of any length, on a line of its own.
pub trait TextFunction {
    /// The answer to an index, or to a line that is not an index: a text and a line feed, or an error.
    ghost answer_of: { Self → Option ℕ → Answer };

    /// Whether quotes count in its texts.
    ghost counts_quotes: { Self → Bool };

    /// Returns the text of the answer, without its line feed. A line feed in the text is inside quotes
    /// that count. A function that searches starts at `place`, and stores there where it found the
    /// index; any `place` is valid. Others ignore it.
    ///
    /// # Errors
    ///
    /// The answer's error.
    fn text(&self, index: Option<u64>, place: &mut usize) -> Result<Text<'_>, H3Error>
        ensures ok { IfOk result (λ text.
            answer_of self.now index ≡ written (text_in text ++ 10 ∷ [])) }
        ensures line { IfOk result (λ text.
            Uncut 10 (counts_quotes self.now) false (text_in text) false) }
        ensures err { IfErr result (λ e. answer_of self.now index ≡ refused e) };

    /// Whether it looks for the indexes of plain lines together: `look_ahead` is then asked for their
    /// places.
    #[inline(always)]
    fn looks_ahead(&self) -> bool {
        false
    }

    /// Where `text` is to look for an index that is on no line that was looked up ahead: at `place`, where the
    /// one before it was found, or elsewhere. It may be any.
    #[inline(always)]
    fn look_for(&self, _index: u64, place: usize) -> usize {
        place
    }

    /// The places at which `text` looks for the indexes of the next lines, at most 16, one for each;
    /// `None` if each is looked for at the place that the one before it left. They may be any.
    #[inline(always)]
    fn look_ahead(&self, _indexes: &[u64], _place: usize) -> Option<[usize; LINES]> {
        None
    }
}

/// A function whose answer to an index is a text of any length.
#[derive(Drop)]
struct Texts<'f, F> {
    function: &'f F,
}

impl<'f, F: TextFunction> Answering for Texts<'f, F> {
    ghost answer_of = { λ f. F.answer_of f.function.now };

    ghost needs = { λ f. 0 };

    #[inline(always)]
    fn answer<'a, W: Sink>(
        &self,
        index: Option<u64>,
        held: &mut Output<'a, W>,
        _numbers: &mut [u32],
    ) -> Result<(), Stop> {
        match self.function.text(index, &mut held.place) {
            Ok(text) => {
                held.end = put_answer_text(held.out, &mut held.block, held.end, text)?;
                held.number += 1;
                Ok(())
            }
            Err(error) => {
                let bytes = &held.block[..held.end];
                Err(stop(held.out, bytes, error))
            }
        }
    }

    #[inline(always)]
    fn looks_ahead(&self) -> bool {
        self.function.looks_ahead()
    }

    #[inline(always)]
    fn look_ahead(&self, indexes: &[u64], place: usize) -> Option<[usize; LINES]> {
        self.function.look_ahead(indexes, place)
    }
}

/// Answers each line of a list that is not blank, in order, up to its end or its first error, as
/// [`answer_each`](crate::answer_each) does, by a text of any length. A text that does not fit into the
/// block of answers is written directly.
///
/// # Errors
///
/// As of `answer_each`.
pub fn answer_each_text<R: Source, W: Sink, F: TextFunction>(
    alloc: Global,
    function: &F,
    input: &mut R,
    out: &mut W,
) -> Result<(), RunError>
    ensures { EndsEach (F.answer_of function.now) (R.left input.old) (R.left input.new)
        (R.has_failed input.old) (R.has_failed input.new) result
        (sink_use W.taken W.has_failed out.old out.new) }
{
    let mut page = row_page(alloc, LONGEST_LINE, PAGE)?;
    answer_pages(&Texts { function }, &mut [], input, out, &mut page)
}
