//! Writing to a sink.

ghost use Rattle.std.specs.Prelude.{◌≡◌, ◌+◌, ◌<◌, ◌≤◌, ◌++◌, ◌∷◌, [], ℕ, List, length, take, true, All, IfErr, IfOk, OnOk, OnErr, Result};
ghost use Rattle.std.specs.Io.KnownBytes.{Appends};
ghost use Rattle.std.specs.Iterator.{AlwaysYields, IsFinite};
ghost use Rattle.std.specs.List.{flat_map};
ghost use Rattle.h3_index.specs.Cell.{Address};
ghost use Rattle.h3_index.specs.declared.error.H3Error.{H3Error};
ghost use Rattle.h3_lines.specs.Answer.{before, printed, refused, walked, written};
ghost use Rattle.h3_lines.specs.Answering.{Breaks, FailsPush, Moves};
ghost use Rattle.h3_lines.specs.EachLines.{GivesLines};
ghost use Rattle.h3_lines.specs.Text.{text_in};
ghost use Rattle.h3_lines.specs.Write.{AppendsPart, Takes, Writes, sink_use};

use crate::line::{ANSWER, BLOCK, Line, put_ended};
use crate::run_error::{AnswerError, RunError};
use crate::text::{SHORT, Text};
use h3_index::{Cell, H3Error};
use h3_streams::{Sink, StreamFault};

/// Writes all of the bytes, in as many pushes as it takes.
///
/// # Errors
///
/// `StreamFault` if a push fails: then a beginning of the bytes has been written, and no push is made
/// after it.
#[inline]
pub fn write_all<W: Sink>(out: &mut W, bytes: &[u8]) -> Result<(), StreamFault>
    ensures written { OnOk result (Appends (W.taken out.old) (W.taken out.new) bytes.now) }
    ensures ok { OnOk result (W.has_failed out.new ≡ W.has_failed out.old) }
    ensures part { OnErr result (AppendsPart (W.taken out.old) (W.taken out.new) bytes.now) }
    ensures err { OnErr result (W.has_failed out.new ≡ true) }
{
    let mut rest = bytes;
    while !rest.is_empty() {
        let count = out.push(rest)?;
        rest = &rest[count..];
    }
    Ok(())
}

/// Writes all of the bytes, and flushes.
///
/// # Errors
///
/// `Fault::Write` if a push or the flush fails.
pub fn write_answer<W: Sink>(out: &mut W, answer: &[u8]) -> Result<(), RunError>
    ensures { Writes (written answer.now) result (sink_use W.taken W.has_failed out.old out.new) }
{
    write_all(out, answer)?;
    out.flush()?;
    Ok(())
}

/// Writes the bytes and flushes, if there are any.
///
/// # Errors
///
/// `Fault::Write` if a push or the flush fails.
pub fn write_held<W: Sink>(out: &mut W, bytes: &[u8]) -> Result<(), RunError>
    ensures whole { Writes (written bytes.now) result
        (sink_use W.taken W.has_failed out.old out.new) }
    ensures ok { OnOk result (Takes (sink_use W.taken W.has_failed out.old out.new) bytes.now) }
    ensures err { IfErr result (λ e.
        Breaks bytes.now (sink_use W.taken W.has_failed out.old out.new) e) }
{
    if bytes.is_empty() {
        return Ok(());
    }
    write_answer(out, bytes)
}

/// Writes the line of a result's value and flushes, or returns the result's error.
///
/// `Fault::Write` where a push or the flush fails.
// Inlined, its block would take its place on the stack while the caller runs another writer.
#[inline(never)]
pub fn write_result<W: Sink, L: Line + Drop>(
    out: &mut W,
    value: Result<L, H3Error>,
) -> Result<(), RunError>
    ensures { Writes (printed L.line_of value) result
        (sink_use W.taken W.has_failed out.old out.new) }
{
    let mut block = [0; BLOCK];
    let end = value?.put(&mut block, 0);
    write_answer(out, &block[..end])
}

/// Makes room for an answer in a block of answers that ends at `end`: where too little is left, the
/// block is written, but for its last byte, so that it is empty only after a flush. Returns where
/// it ends.
#[inline(always)]
pub(crate) fn make_room<W: Sink>(
    out: &mut W,
    block: &mut [u8; BLOCK],
    end: usize,
) -> Result<usize, StreamFault>
    requires { end ≤ BLOCK }
    ensures room { IfOk result (λ at. at + ANSWER ≤ BLOCK) }
    ensures ok { IfOk result (λ at.
        Moves W.taken W.has_failed (take end block.old) (take at block.new) out.old out.new) }
    ensures err { OnErr result (FailsPush (take end block.old)
        (sink_use W.taken W.has_failed out.old out.new)) }
{
    if end <= BLOCK - ANSWER {
        return Ok(end);
    }
    let last = end - 1;
    write_all(out, &block[..last])?;
    block[0] = block[last];
    Ok(1)
}

/// Puts the lines of each item of an iterator that ends after the bytes held back in a block, which
/// end at `end`, and returns where they end then. A block that is full is written, but for its last
/// byte.
#[inline(always)]
pub(crate) fn put_lines<W: Sink, L: Line + Drop, I: Iterator<Item = L> + Drop>(
    out: &mut W,
    block: &mut [u8; BLOCK],
    end: usize,
    items: I,
) -> Result<usize, StreamFault>
    requires can { I.can_next items }
    requires ends { IsFinite (I.remaining items) }
    requires within { end ≤ BLOCK }
    ensures within { IfOk result (λ last. last ≤ BLOCK) }
    ensures ok { IfOk result (λ last. (all : List _) → AlwaysYields I.next_gives (λ x. x) items all →
        Moves W.taken W.has_failed (take end block.old ++ flat_map L.line_of all)
        (take last block.new) out.old out.new) }
    ensures err { OnErr result ((all : List _) → AlwaysYields I.next_gives (λ x. x) items all →
        FailsPush (take end block.old ++ flat_map L.line_of all)
        (sink_use W.taken W.has_failed out.old out.new)) }
{
    let mut last = end;
    for item in items {
        last = make_room(out, block, last)?;
        last = item.put(block, last);
    }
    Ok(last)
}

/// Puts a text and a line feed after the bytes held back in a block, which end at `end`, and returns
/// where they end then. If they do not fit, what is held back is written first, and a text that is
/// longer than a block is written through, so that its line feed alone is held back.
pub(crate) fn put_text<W: Sink>(
    out: &mut W,
    block: &mut [u8; BLOCK],
    end: usize,
    text: &[u8],
) -> Result<usize, StreamFault>
    requires { end ≤ BLOCK }
    ensures within { IfOk result (λ last. last ≤ BLOCK) }
    ensures ok { IfOk result (λ last.
        Moves W.taken W.has_failed (take end block.old ++ (text.now ++ 10 ∷ []))
        (take last block.new) out.old out.new) }
    ensures err { OnErr result (FailsPush (take end block.old ++ (text.now ++ 10 ∷ []))
        (sink_use W.taken W.has_failed out.old out.new)) }
{
    if text.len() < BLOCK - end {
        return Ok(put_ended(block, end, text, text.len(), b'\n'));
    }
    write_all(out, &block[..end])?;
    if text.len() < BLOCK {
        return Ok(put_ended(block, 0, text, text.len(), b'\n'));
    }
    write_all(out, text)?;
    Ok(put_ended(block, 0, b"", 0, b'\n'))
}

/// As `put_text`. A short text is copied faster if more bytes are behind it.
#[inline(always)]
pub(crate) fn put_answer_text<W: Sink>(
    out: &mut W,
    block: &mut [u8; BLOCK],
    end: usize,
    text: Text<'_>,
) -> Result<usize, StreamFault>
    requires { end ≤ BLOCK }
    ensures within { IfOk result (λ last. last ≤ BLOCK) }
    ensures ok { IfOk result (λ last.
        Moves W.taken W.has_failed (take end block.old ++ (text_in text.entry ++ 10 ∷ []))
        (take last block.new) out.old out.new) }
    ensures err { OnErr result (FailsPush (take end block.old ++ (text_in text.entry ++ 10 ∷ []))
        (sink_use W.taken W.has_failed out.old out.new)) }
{
    if text.count < (BLOCK - end).saturating_sub(SHORT) {
        return Ok(text.put(block, end, b'\n'));
    }
    put_text(out, block, end, text.own_bytes())
}

/// Writes a line for each item of an iterator that ends, and flushes. No item is kept, and no more
/// lines than a block has.
///
/// `Fault::Write` where a push or the flush fails.
// Inlined, its block would take its place on the stack while the caller runs another writer.
#[inline(never)]
pub fn write_lines<W: Sink, L: Line + Drop, I: Iterator<Item = L> + Drop>(
    out: &mut W,
    items: I,
) -> Result<(), RunError>
    requires can { I.can_next items }
    requires ends { IsFinite (I.remaining items) }
    ensures { (all : List _) → AlwaysYields I.next_gives (λ x. x) items all →
        Writes (written (flat_map L.line_of all)) result
        (sink_use W.taken W.has_failed out.old out.new) }
{
    let mut block = [0; BLOCK];
    let end = put_lines(out, &mut block, 0, items)?;
    write_answer(out, &block[..end])
}

/// What is written of each cell of a list: any number of lines.
pub trait CellLines {
    /// What is written as a line, or as several.
    type Item: Line + Drop;

    /// The lines of a cell.
    type Lines: Iterator<Item = Self::Item> + Drop;

    /// The cells that `lines_of` may be called with.
    ghost takes: { Self → Address → Type 0 };

    /// What is written of a cell.
    ghost text_of: { Self → Address → List ℕ };

    /// The lines of a cell.
    fn lines_of(&self, cell: Cell) -> Self::Lines
        requires { takes self.now cell }
        ensures can { Self.Lines.can_next result }
        ensures ends { IsFinite (Self.Lines.remaining result) }
        ensures gives { GivesLines Self.Lines.next_gives Self.Item.line_of
            (written (text_of self.now cell)) result };
}

/// Writes the lines of each cell of a list, in order, and flushes. No item is kept, and no more
/// lines than a block has.
///
/// `Fault::Write` where a push or the flush fails.
// Inlined, its block would take its place on the stack while the caller runs another writer.
#[inline(never)]
pub fn write_cells_lines<W: Sink, F: CellLines>(
    out: &mut W,
    function: &F,
    cells: &[Cell],
) -> Result<(), RunError>
    requires { All (F.takes function.now) cells.now }
    ensures { Writes (written (flat_map (F.text_of function.now) cells.now)) result
        (sink_use W.taken W.has_failed out.old out.new) }
{
    let mut block = [0; BLOCK];
    let mut end = 0;
    for cell in cells {
        end = put_lines(out, &mut block, end, function.lines_of(*cell))?;
    }
    write_answer(out, &block[..end])
}

/// Writes the bytes and flushes, if there are any, and then returns the error.
fn write_refused<W: Sink>(out: &mut W, bytes: &[u8], error: H3Error) -> Result<(), RunError>
    ensures { Writes (before bytes.now (refused error)) result
        (sink_use W.taken W.has_failed out.old out.new) }
{
    if !bytes.is_empty() {
        write_answer(out, bytes)?;
    }
    Err(RunError::Error(AnswerError::Call(error)))
}

/// Writes a line for each item of a walk up to its first error, which it then returns. The walk is
/// an iterator that ends. No item is kept, and no more lines than a block has. It flushes at the
/// end, and before an error only where a line was written.
///
/// `Fault::Write` where a push or the flush fails.
// (may be inlined: a step takes fewer instructions so, and no caller runs another writer meanwhile)
pub fn write_walk<W: Sink, L: Line + Drop, I: Iterator<Item = Result<L, H3Error>> + Drop>(
    out: &mut W,
    walk: I,
) -> Result<(), RunError>
    requires can { I.can_next walk }
    requires ends { IsFinite (I.remaining walk) }
    ensures { (all : List (Result _ H3Error)) → AlwaysYields I.next_gives (λ x. x) walk all →
        Writes (walked L.line_of all) result (sink_use W.taken W.has_failed out.old out.new) }
{
    let mut block = [0; BLOCK];
    let mut end = 0;
    for item in walk {
        match item {
            Ok(value) => {
                end = make_room(out, &mut block, end)?;
                end = value.put(&mut block, end);
            }
            Err(error) => return write_refused(out, &block[..end], error),
        }
    }
    write_answer(out, &block[..end])
}
