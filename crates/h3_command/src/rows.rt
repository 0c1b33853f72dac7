//! Lists that are answered line by line: bare, or as rows, each of which is written with the answer to
//! its own cell beside it.

ghost use Rattle.std.specs.Prelude.{◌≡◌, ◌≤◌, length};
ghost use Rattle.h3_functions.specs.Outcome.{function_name};
ghost use Rattle.h3_lines.specs.Reads.{source_use};
ghost use Rattle.h3_lines.specs.Write.{sink_use};
ghost use Rattle.h3_command.specs.Answer.{answer_for};
ghost use Rattle.h3_command.specs.LongAnswers.{between_parts};
ghost use Rattle.h3_command.specs.Rows.{pair_form, rows_form, text_form};
ghost use Rattle.h3_command.specs.Run.{EndsLines};

use crate::per_index::AnswerOf;
use h3_functions::function_name;
use h3_lines::{
    AnswerLine, LinesFunction, RunError, TextFunction, TextsFunction, answer_each,
    answer_each_lines, answer_each_text, answer_each_texts,
};
use h3_requests::{IndexFunction, RowOptions};
use h3_rows::{answer_rows, answer_rows_lines, answer_rows_text, answer_rows_texts};
use h3_streams::{Sink, Source};
use std::alloc::Global;

/// Writes what a function answers to each line of a list, or each row with what it answers to its
/// cell, if the list has rows. The new column has this name, unless another is given.
pub(crate) fn answer_listed<R: Source, W: Sink, F: AnswerLine>(
    alloc: Global,
    rows: &Option<RowOptions>,
    name: &str,
    function: &F,
    input: &mut R,
    out: &mut W,
) -> Result<(), RunError>
    ensures { EndsLines (rows_form rows.now name.now)
        (F.answer_of function.now) (source_use R.left R.has_failed input.old input.new) result
        (sink_use W.taken W.has_failed out.old out.new) }
{
    match rows {
        None => answer_each(alloc, function, input, out),
        Some(options) => answer_rows(alloc, options, name.as_bytes(), function, input, out),
    }
}

/// The same with a function whose answers are texts of any length.
pub(crate) fn answer_listed_texts<R: Source, W: Sink, F: TextFunction>(
    alloc: Global,
    rows: &Option<RowOptions>,
    name: &[u8],
    function: &F,
    input: &mut R,
    out: &mut W,
) -> Result<(), RunError>
    ensures { EndsLines (text_form rows.now (F.counts_quotes function.now) name.now)
        (F.answer_of function.now) (source_use R.left R.has_failed input.old input.new) result
        (sink_use W.taken W.has_failed out.old out.new) }
{
    match rows {
        None => answer_each_text(alloc, function, input, out),
        Some(options) => answer_rows_text(alloc, options, name, function, input, out),
    }
}

/// The same with a function that answers by one or more texts of any length, each on a line of its own. There
/// must be as many numbers as it needs.
pub(crate) fn answer_listed_several<R: Source, W: Sink, F: TextsFunction>(
    alloc: Global,
    rows: &Option<RowOptions>,
    name: &[u8],
    function: &F,
    numbers: &mut [u32],
    input: &mut R,
    out: &mut W,
) -> Result<(), RunError>
    requires { F.needs function.now ≤ length numbers.old }
    ensures { EndsLines (text_form rows.now (F.counts_quotes function.now) name.now)
        (F.answer_of function.now) (source_use R.left R.has_failed input.old input.new) result
        (sink_use W.taken W.has_failed out.old out.new) }
{
    match rows {
        None => answer_each_texts(alloc, function, numbers, input, out),
        Some(options) => answer_rows_texts(alloc, options, name, function, numbers, input, out),
    }
}

/// The same of a function of one index.
pub(crate) fn answer_function<R: Source, W: Sink>(
    alloc: Global,
    rows: &Option<RowOptions>,
    function: IndexFunction,
    input: &mut R,
    out: &mut W,
) -> Result<(), RunError>
    ensures { EndsLines (rows_form rows.now (function_name function))
        (answer_for function) (source_use R.left R.has_failed input.old input.new) result
        (sink_use W.taken W.has_failed out.old out.new) }
{
    answer_listed(
        alloc,
        rows,
        function_name(function),
        &AnswerOf(function),
        input,
        out,
    )
}

/// Writes the lines that a function answers to each line of a list, or each row once for each line that
/// it answers to its cell, as `answer_listed` does.
pub(crate) fn answer_listed_lines<R: Source, W: Sink, F: LinesFunction>(
    alloc: Global,
    rows: &Option<RowOptions>,
    name: &str,
    function: &F,
    input: &mut R,
    out: &mut W,
) -> Result<(), RunError>
    ensures { EndsLines (rows_form rows.now name.now)
        (F.answer_of function.now) (source_use R.left R.has_failed input.old input.new) result
        (sink_use W.taken W.has_failed out.old out.new) }
{
    match rows {
        None => answer_each_lines(alloc, function, input, out),
        Some(options) => {
            answer_rows_lines(alloc, options, name.as_bytes(), false, function, input, out)
        }
    }
}

/// The same of a function that answers by a cell and its distance on each line, with the byte of
/// `between_parts` between them. Both have a new column.
pub(crate) fn answer_listed_pairs<R: Source, W: Sink, F: LinesFunction>(
    alloc: Global,
    rows: &Option<RowOptions>,
    function: &F,
    input: &mut R,
    out: &mut W,
) -> Result<(), RunError>
    ensures { EndsLines (pair_form rows.now)
        (F.answer_of function.now) (source_use R.left R.has_failed input.old input.new) result
        (sink_use W.taken W.has_failed out.old out.new) }
{
    match rows {
        None => answer_each_lines(alloc, function, input, out),
        Some(options) => answer_rows_lines(alloc, options, b"", true, function, input, out),
    }
}

/// The byte between the parts of an answer: a space on a line, and beside a row its separator.
pub(crate) fn between_parts(rows: &Option<RowOptions>) -> u8
    ensures { result ≡ between_parts rows.now }
{
    match rows {
        None => b' ',
        Some(options) => options.separator,
    }
}
