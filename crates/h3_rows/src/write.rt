//! Rows that are written to a sink, with bytes held back in a block.

ghost use Rattle.std.specs.Prelude.{◌≡◌, ◌≤◌, ◌<◌, ◌+◌, ◌++◌, ◌∷◌, false, length, replicate, take, IfOk, IfErr};
ghost use Rattle.h3_lines.specs.Write.{sink_use};
ghost use Rattle.h3_lines.specs.Answering.{Breaks, Moves};
ghost use Rattle.h3_rows.specs.Line.{line_of};
ghost use Rattle.h3_rows.specs.Row.{row_ending};
ghost use Rattle.h3_rows.specs.RowsAnswer.{row_with, rows_with};

use crate::row::Row;
use h3_lines::{BLOCK, RunError, split, write_all};
use h3_streams::Sink;

/// Puts bytes after those that are held back in a block up to `end`, and returns where they end now.
/// If they do not fit, what is held back is written first, and what is longer than a block is
/// written through.
pub(crate) fn put_bytes<W: Sink>(
    out: &mut W,
    block: &mut [u8; BLOCK],
    end: usize,
    bytes: &[u8],
) -> Result<usize, RunError>
    requires { end ≤ BLOCK }
    ensures within { IfOk result (λ last. last ≤ BLOCK) }
    ensures ok { IfOk result (λ last. Moves W.taken W.has_failed
        (take end block.old ++ bytes.now) (take last block.new) out.old out.new) }
    ensures err { IfErr result (λ e. Breaks (take end block.old ++ bytes.now)
        (sink_use W.taken W.has_failed out.old out.new) e) }
{
    if bytes.len() <= BLOCK - end {
        block[end..end + bytes.len()].copy_from_slice(bytes);
        return Ok(end + bytes.len());
    }
    write_all(out, &block[..end])?;
    if bytes.len() <= BLOCK {
        block[..bytes.len()].copy_from_slice(bytes);
        return Ok(bytes.len());
    }
    write_all(out, bytes)?;
    Ok(0)
}

/// Puts a separator and a field, which is in two parts.
pub(crate) fn put_field<W: Sink>(
    out: &mut W,
    block: &mut [u8; BLOCK],
    end: usize,
    separator: u8,
    first: &[u8],
    more: &[u8],
) -> Result<usize, RunError>
    requires { end ≤ BLOCK }
    ensures within { IfOk result (λ last. last ≤ BLOCK) }
    ensures ok { IfOk result (λ last. Moves W.taken W.has_failed
        (take end block.old ++ (separator ∷ (first.now ++ more.now)))
        (take last block.new) out.old out.new) }
    ensures err { IfErr result (λ e. Breaks
        (take end block.old ++ (separator ∷ (first.now ++ more.now)))
        (sink_use W.taken W.has_failed out.old out.new) e) }
{
    let after_separator = put_bytes(out, block, end, &[separator])?;
    let after_first = put_bytes(out, block, after_separator, first)?;
    put_bytes(out, block, after_first, more)
}

/// Puts so many carriage returns.
fn put_returns<W: Sink>(
    out: &mut W,
    block: &mut [u8; BLOCK],
    end: usize,
    count: usize,
) -> Result<usize, RunError>
    requires { end ≤ BLOCK }
    ensures within { IfOk result (λ last. last ≤ BLOCK) }
    ensures ok { IfOk result (λ last. Moves W.taken W.has_failed
        (take end block.old ++ replicate count 13) (take last block.new) out.old out.new) }
    ensures err { IfErr result (λ e. Breaks (take end block.old ++ replicate count 13)
        (sink_use W.taken W.has_failed out.old out.new) e) }
{
    let mut last = end;
    let mut left = count;
    while left > 0 {
        last = put_bytes(out, block, last, b"\r")?;
        left -= 1;
    }
    Ok(last)
}

/// Puts a row's ending.
pub(crate) fn put_ending<W: Sink>(
    out: &mut W,
    block: &mut [u8; BLOCK],
    end: usize,
    row: Row<'_>,
) -> Result<usize, RunError>
    requires { end ≤ BLOCK }
    ensures within { IfOk result (λ last. last ≤ BLOCK) }
    ensures ok { IfOk result (λ last. Moves W.taken W.has_failed
        (take end block.old ++ row_ending (line_of row.entry)) (take last block.new) out.old out.new) }
    ensures err { IfErr result (λ e. Breaks (take end block.old ++ row_ending (line_of row.entry))
        (sink_use W.taken W.has_failed out.old out.new) e) }
{
    let after_returns = put_returns(out, block, end, row.returns)?;
    put_bytes(out, block, after_returns, b"\n")
}

/// Puts a row, the separator, an answer, the bytes after it, and the row's ending.
pub(crate) fn put_row<W: Sink>(
    out: &mut W,
    block: &mut [u8; BLOCK],
    end: usize,
    separator: u8,
    row: Row<'_>,
    answer: &[u8],
    after: &[u8],
) -> Result<usize, RunError>
    requires { end ≤ BLOCK }
    ensures within { IfOk result (λ last. last ≤ BLOCK) }
    ensures ok { IfOk result (λ last. Moves W.taken W.has_failed
        (take end block.old ++ row_with separator (line_of row.entry) (answer.now ++ after.now))
        (take last block.new) out.old out.new) }
    ensures err { IfErr result (λ e. Breaks
        (take end block.old ++ row_with separator (line_of row.entry) (answer.now ++ after.now))
        (sink_use W.taken W.has_failed out.old out.new) e) }
{
    let after_row = put_bytes(out, block, end, row.body)?;
    let after_answer = put_field(out, block, after_row, separator, answer, after)?;
    put_ending(out, block, after_answer, row)
}

/// Puts a row once for each line of an answer's text, with that line and the bytes after it.
pub(crate) fn put_rows<W: Sink>(
    out: &mut W,
    block: &mut [u8; BLOCK],
    end: usize,
    separator: u8,
    row: Row<'_>,
    after: &[u8],
    text: &[u8],
) -> Result<usize, RunError>
    requires { end ≤ BLOCK }
    ensures within { IfOk result (λ last. last ≤ BLOCK) }
    ensures ok { IfOk result (λ last. Moves W.taken W.has_failed
        (take end block.old ++ rows_with separator false after.now (line_of row.entry) text.now)
        (take last block.new) out.old out.new) }
    ensures err { IfErr result (λ e. Breaks
        (take end block.old ++ rows_with separator false after.now (line_of row.entry) text.now)
        (sink_use W.taken W.has_failed out.old out.new) e) }
{
    let mut last = end;
    let mut rest = text;
    while let Ok((answer, more)) = split(b'\n', false, false, rest) {
        last = put_row(out, block, last, separator, row, answer, after)?;
        rest = more;
    }
    Ok(last)
}
