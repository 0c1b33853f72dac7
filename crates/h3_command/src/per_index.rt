//! H3's functions of one index, for the index of a word or of each line of a list.

ghost use Rattle.std.specs.Prelude.{◌≡◌, ◌+◌, ◌≤◌, ◌*◌, length, take, IfOk, IfErr};
ghost use Rattle.h3_functions.specs.Edges.{origin_to_directed_edges};
ghost use Rattle.h3_lines.specs.Answer.{edge_lines, printed, refused};
ghost use Rattle.h3_lines.specs.Answering.{Puts};
ghost use Rattle.h3_lines.specs.Write.{Writes, sink_use};
ghost use Rattle.h3_command.specs.Answer.{answer_for};

use crate::required::index_given;
use h3_functions::{Outcome, origin_to_directed_edges, outcome_of};
use h3_index::H3Error;
use h3_lines::{ANSWER, AnswerLine, BLOCK, Line, RunError, put_result, write_answer};
use h3_requests::IndexFunction;
use h3_streams::Sink;

/// The same number in more bits.
#[inline(always)]
fn widened(number: Result<u8, H3Error>) -> Result<u64, H3Error>
    ensures { result ≡ number }
{
    let number = number?;
    Ok(u64::from(number))
}

/// Puts a line for each edge that leaves a cell, at most six, into a block from the byte `at` on.
// Inlined, the place of its iterator would be cleared for each line, whatever the function.
#[inline(never)]
fn put_edges(index: u64, block: &mut [u8; BLOCK], at: usize) -> Result<usize, H3Error>
    requires room { at + ANSWER ≤ BLOCK }
    ensures end { IfOk result (λ end. end ≤ at + ANSWER) }
    ensures ok { IfOk result (λ end.
        Puts (printed edge_lines (origin_to_directed_edges index)) block.old block.new at end) }
    ensures err { IfErr result (λ e.
        printed edge_lines (origin_to_directed_edges index) ≡ refused e) }
    ensures kept { IfErr result (λ e. take at block.new ≡ take at block.old) }
{
    let mut end = at;
    for edge in origin_to_directed_edges(index)? {
        end = edge.put(block, end);
    }
    Ok(end)
}

/// A function of one index, of which `answer_each` writes the answers.
#[derive(Drop)]
pub struct AnswerOf(pub IndexFunction);

impl AnswerLine for AnswerOf {
    ghost answer_of = { λ f. answer_for f.0 };

    #[inline(always)]
    fn put(
        &self,
        index: Option<u64>,
        _place: &mut usize,
        block: &mut [u8; BLOCK],
        at: usize,
    ) -> Result<usize, H3Error> {
        let index = index_given(index)?;
        match outcome_of(self.0, index) {
            Outcome::Truth(is) => put_result(is, block, at),
            Outcome::Number(number) => put_result(widened(number), block, at),
            Outcome::Count(count) => put_result(count, block, at),
            Outcome::Cell(cell) => put_result(cell, block, at),
            Outcome::Edges(index) => put_edges(index, block, at),
        }
    }
}

/// Writes what a function answers to the index of a word and flushes, or returns its error.
///
/// `Fault::Write` where a push or the flush fails.
// Inlined, its block would take its place on the stack while the caller runs another writer.
#[inline(never)]
pub(crate) fn write_answer_for<W: Sink>(
    function: IndexFunction,
    index: Option<u64>,
    out: &mut W,
) -> Result<(), RunError>
    ensures { Writes (answer_for function index) result
        (sink_use W.taken W.has_failed out.old out.new) }
{
    let mut block = [0; BLOCK];
    let end = AnswerOf(function).put(index, &mut 0, &mut block, 0)?;
    write_answer(out, &block[..end])
}
