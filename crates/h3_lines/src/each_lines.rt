//! Lists of which each line is answered on its own, by any number of lines.

ghost use Rattle.std.specs.Prelude.{◌≡◌, ℕ, List, length, Option, Result, Err, IsOk, IfOk, IfErr, OnOk};
ghost use Rattle.std.specs.Iterator.{AlwaysYields, IsFinite};
ghost use Rattle.h3_index.specs.declared.error.H3Error.{H3Error};
ghost use Rattle.h3_lines.specs.Answer.{Answer, refused, whole_items};
ghost use Rattle.h3_lines.specs.EachLine.{EndsEach};
ghost use Rattle.h3_lines.specs.EachLines.{GivesLines};
ghost use Rattle.h3_lines.specs.Write.{sink_use};

use crate::each::{Answering, Output, answer_pages, stop};
use crate::line::Line;
use crate::run_error::RunError;
use crate::splitting::{LONGEST_LINE, PAGE, row_page};
use crate::stop::Stop;
use crate::write::put_lines;
use h3_index::H3Error;
use h3_streams::{Sink, Source};
use std::alloc::Global;

/// A function of one index that answers by any number of lines.
pub trait LinesFunction {
    /// What is written as a line of the answer, or as several.
    type Item: Line + Drop;

    /// The lines of an answer.
    type Lines: Iterator<Item = Self::Item> + Drop;

    /// What its own command answers to an index, or to a word that parses as none: lines, or an error
    /// and none of them.
    ghost answer_of: { Self → Option ℕ → Answer };

    /// The lines of the answer, or its error.
    fn lines(&self, index: Option<u64>) -> Result<Self::Lines, H3Error>
        ensures can { IfOk result (λ items. Self.Lines.can_next items) }
        ensures ends { IfOk result (λ items. IsFinite (Self.Lines.remaining items)) }
        ensures ok { IfOk result (λ items.
            GivesLines Self.Lines.next_gives Self.Item.line_of (answer_of self.now index) items) }
        ensures err { IfErr result (λ e. answer_of self.now index ≡ refused e) };
}

/// Walks to the end, or to the first error. The walk is an iterator that ends. So the error of a walk
/// is known before any of its lines is written.
///
/// # Errors
///
/// The first one of the walk.
pub fn walk_through<T: Drop, I: Iterator<Item = Result<T, H3Error>> + Drop>(
    walk: I,
) -> Result<(), H3Error>
    requires can { I.can_next walk }
    requires ends { IsFinite (I.remaining walk) }
    ensures ok { OnOk result ((all : List (Result _ H3Error)) →
        AlwaysYields I.next_gives (λ x. x) walk all → IsOk (whole_items all)) }
    ensures err { IfErr result (λ e. (all : List (Result _ H3Error)) →
        AlwaysYields I.next_gives (λ x. x) walk all → whole_items all ≡ Err e) }
{
    for item in walk {
        item?;
    }
    Ok(())
}

/// A function whose answer to an index is written as it is made.
#[derive(Drop)]
struct Long<'f, F> {
    function: &'f F,
}

impl<'f, F: LinesFunction> Answering for Long<'f, F> {
    ghost answer_of = { λ f. F.answer_of f.function.now };

    ghost needs = { λ f. 0 };

    fn answer<'a, W: Sink>(
        &self,
        index: Option<u64>,
        held: &mut Output<'a, W>,
        _numbers: &mut [u32],
    ) -> Result<(), Stop> {
        match self.function.lines(index) {
            Ok(items) => {
                held.end = put_lines(held.out, &mut held.block, held.end, items)?;
                held.number += 1;
                Ok(())
            }
            Err(error) => {
                let bytes = &held.block[..held.end];
                Err(stop(held.out, bytes, error))
            }
        }
    }
}

/// Answers each line of a list that is not blank, in order, up to its end or its first error, as
/// [`answer_each`](crate::answer_each) does, by as many lines as the function has. No answer is kept,
/// and no more of its lines than a block has.
///
/// # Errors
///
/// As of `answer_each`.
pub fn answer_each_lines<R: Source, W: Sink, F: LinesFunction>(
    alloc: Global,
    function: &F,
    input: &mut R,
    out: &mut W,
) -> Result<(), RunError>
    ensures { EndsEach (F.answer_of function.now) (R.left input.old) (R.left input.new)
        (R.has_failed input.old) (R.has_failed input.new) result
        (sink_use W.taken W.has_failed out.old out.new) }
{
    let mut page = row_page(alloc, LONGEST_LINE, PAGE)?;
    answer_pages(&Long { function }, &mut [], input, out, &mut page)
}
