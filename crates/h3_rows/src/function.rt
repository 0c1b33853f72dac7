//! What answers the cells of rows, each with its row beside it.

ghost use Rattle.std.specs.Prelude.{◌≡◌, ◌+◌, ◌≤◌, ℕ, Bool, false, Option, Some, length, take, IfOk, IfErr, IfNone, IfSome};
ghost use Rattle.h3_lines.specs.Answer.{Answer, refused};
ghost use Rattle.h3_lines.specs.Write.{sink_use};
ghost use Rattle.h3_rows.specs.Answering.{BreaksBeside, PutsBeside, PutsShort};
ghost use Rattle.h3_rows.specs.Line.{line_of};

use crate::row::Row;
use crate::write::put_rows;
use h3_index::H3Error;
use h3_lines::{ANSWER, AnswerLine, BLOCK, RunError};
use h3_streams::Sink;

/// What a function of one index works with.
#[derive(Drop)]
pub(crate) struct Workspace {
    pub(crate) place: usize,
    pub(crate) text: [u8; BLOCK],
}

/// What answers the cell of a row.
pub(crate) trait RowFunction {
    /// The answer to an index. That to none is not asked for.
    ghost answer_of: { Self → Option ℕ → Answer };

    /// Whether quotes count in an answer, as it is cut into lines.
    ghost counts_quotes: { Self → Bool };

    /// How many numbers it needs. They are unspecified afterwards.
    ghost needs: { Self → ℕ };

    /// Puts a row once for each line of the answer to its cell, with the bytes `after` it, after the
    /// bytes held back in a block, which end at `end`, and returns where they end then; or returns the answer's error,
    /// and changes nothing of them.
    fn put_beside<W: Sink>(
        &self,
        index: u64,
        out: &mut W,
        work: &mut Workspace,
        numbers: &mut [u32],
        block: &mut [u8; BLOCK],
        end: usize,
        separator: u8,
        row: Row<'_>,
        after: &[u8],
    ) -> Result<Result<usize, H3Error>, RunError>
        requires within { end ≤ BLOCK }
        requires room { needs self.now ≤ length numbers.old }
        ensures within { IfOk result (λ o. IfOk o (λ last. last ≤ BLOCK)) }
        ensures ok { IfOk result (λ o. IfOk o (λ last.
            PutsBeside W.taken W.has_failed (answer_of self.now (Some index)) separator
            (counts_quotes self.now) after.now (line_of row.entry)
            (take end block.old) (take last block.new) out.old out.new)) }
        ensures refused { IfOk result (λ o. IfErr o (λ e. answer_of self.now (Some index) ≡ refused e)) }
        ensures kept { IfOk result (λ o. IfErr o (λ e. take end block.new ≡ take end block.old)) }
        ensures left { IfOk result (λ o. IfErr o (λ e. out.new ≡ out.old)) }
        ensures err { IfErr result (λ e.
            BreaksBeside (answer_of self.now (Some index)) separator (counts_quotes self.now)
            after.now (line_of row.entry) (take end block.old)
            (sink_use W.taken W.has_failed out.old out.new) e) };

    /// Puts the answer to an index into a block from the byte `at` on, if it is put so at once, and
    /// returns where it ends. The bytes after it may change too.
    fn put_short(
        &self,
        index: u64,
        work: &mut Workspace,
        numbers: &mut [u32],
        block: &mut [u8; BLOCK],
        at: usize,
    ) -> Option<usize>
        requires within { at + ANSWER ≤ BLOCK }
        requires room { needs self.now ≤ length numbers.old }
        ensures end { IfSome result (λ last. last ≤ at + ANSWER) }
        ensures some { IfSome result (λ last.
            PutsShort (counts_quotes self.now) (answer_of self.now (Some index))
            block.old block.new at last) }
        ensures none { IfNone result (take at block.new ≡ take at block.old) };
}

/// A function whose answer to an index fits into a block.
#[derive(Drop)]
pub(crate) struct Short<'f, F> {
    pub(crate) function: &'f F,
}

impl<'f, F: AnswerLine> RowFunction for Short<'f, F> {
    ghost answer_of = { λ f. F.answer_of f.function.now };

    ghost counts_quotes = { λ f. false };

    ghost needs = { λ f. 0 };

    #[inline(always)]
    fn put_beside<W: Sink>(
        &self,
        index: u64,
        out: &mut W,
        work: &mut Workspace,
        _numbers: &mut [u32],
        block: &mut [u8; BLOCK],
        end: usize,
        separator: u8,
        row: Row<'_>,
        after: &[u8],
    ) -> Result<Result<usize, H3Error>, RunError> {
        let text = &mut work.text;
        match self.function.put(Some(index), &mut work.place, text, 0) {
            Ok(last) => {
                let lines = &work.text[..last];
                let end = put_rows(out, block, end, separator, row, after, lines)?;
                Ok(Ok(end))
            }
            Err(error) => Ok(Err(error)),
        }
    }

    #[inline(always)]
    fn put_short(
        &self,
        index: u64,
        work: &mut Workspace,
        _numbers: &mut [u32],
        block: &mut [u8; BLOCK],
        at: usize,
    ) -> Option<usize> {
        work.place = self.function.look_for(index, work.place);
        match self.function.put(Some(index), &mut work.place, block, at) {
            Ok(last) => Some(last),
            Err(_) => None,
        }
    }
}
