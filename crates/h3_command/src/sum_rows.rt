//! Tables of counts and sums, row by row.

ghost use Rattle.std.specs.Prelude.{◌≡◌, ◌+◌, ◌<◌, ◌≤◌, ◌++◌, ◌∷◌, [], ℕ, List, IfOk, OnErr, get_or, length, option_map, take, codes};
ghost use Rattle.std.specs.List.{flat_map};
ghost use Rattle.h3_lines.specs.Answer.{written};
ghost use Rattle.h3_lines.specs.Answering.{FailsPush, Moves};
ghost use Rattle.h3_lines.specs.Write.{Writes, sink_use};
ghost use Rattle.h3_numbers.specs.Sum.{sum_count, sum_units};
ghost use Rattle.h3_command.specs.SumRows.{named_rows, row_of, values_of};
ghost use Rattle.h3_command.specs.SumTables.{row_end, sum_row, sums_table, titles_row};

use crate::area_counts::{hold, put_name};
use h3_lines::{BLOCK, RunError, write_answer};
use h3_numbers::{MAX_SUM_LEN, Sum, write_sum};
use h3_streams::{Sink, StreamFault};
use itoa::Buffer;

/// Names of rows, by number.
pub(crate) trait RowNames {
    /// The names.
    ghost names: { Self → List (List ℕ) };

    /// How many there are.
    fn count(&self) -> usize
        ensures { result ≡ length (names self.now) };

    /// The name with a number.
    fn name(&self, number: usize) -> &[u8]
        requires { number < length (names self.now) }
        ensures { result.now ≡ get_or (names self.now) number [] };
}

/// How a table of counts and sums is written.
#[derive(Drop)]
pub(crate) struct SumForm<'a> {
    /// The byte between two fields.
    pub(crate) separator: u8,

    /// Whether there is a header.
    pub(crate) has_header: bool,

    /// The title of the column of names.
    pub(crate) title: &'a [u8],

    /// What stands in place of a name in the row of none.
    pub(crate) none: &'a [u8],
}

/// Puts a count, the separator, a sum and a line feed into a block from the byte `at` on, and returns where
/// they end.
fn put_end(block: &mut [u8; BLOCK], at: usize, separator: u8, sum: Sum) -> usize
    requires { at + 112 ≤ BLOCK }
    ensures within { result ≤ BLOCK }
    ensures put { take result block.new
        ≡ take at block.old ++ row_end separator (sum_count sum) (sum_units sum) }
{
    let mut buffer = Buffer::new();
    let after_count = hold(block, at, buffer.format(sum.count()).as_bytes(), separator);
    let mut text = [0; MAX_SUM_LEN];
    let end = write_sum(sum, &mut text);
    hold(block, after_count, &text[..end], b'\n')
}

/// Puts the row of a name and a sum after the bytes held back in a block, which end at `end`, and returns
/// where they end then.
pub(crate) fn put_row<W: Sink>(
    out: &mut W,
    block: &mut [u8; BLOCK],
    end: usize,
    separator: u8,
    name: &[u8],
    sum: Sum,
) -> Result<usize, StreamFault>
    requires { end ≤ BLOCK }
    ensures within { IfOk result (λ at. at ≤ BLOCK) }
    ensures ok { IfOk result (λ at.
        Moves W.taken W.has_failed (take end block.old ++ sum_row separator (row_of name.now sum))
        (take at block.new) out.old out.new) }
    ensures err { OnErr result (FailsPush (take end block.old ++ sum_row separator (row_of name.now sum))
        (sink_use W.taken W.has_failed out.old out.new)) }
{
    let at = put_name(out, block, end, name, separator)?;
    Ok(put_end(block, at, separator, sum))
}

/// Puts the row of the titles, if there are any, into an empty block, and returns where it ends.
pub(crate) fn put_titles<W: Sink>(
    out: &mut W,
    block: &mut [u8; BLOCK],
    separator: u8,
    titles: Option<(&[u8], &[u8])>,
) -> Result<usize, StreamFault>
    ensures within { IfOk result (λ at. at ≤ BLOCK) }
    ensures ok { IfOk result (λ at. Moves W.taken W.has_failed
        (titles_row separator (option_map (λ t. (t.0.now, t.1.now)) titles.entry))
        (take at block.new) out.old out.new) }
    ensures err { OnErr result (FailsPush
        (titles_row separator (option_map (λ t. (t.0.now, t.1.now)) titles.entry))
        (sink_use W.taken W.has_failed out.old out.new)) }
{
    let Some((names, sums)) = titles else {
        return Ok(0);
    };
    let at = put_name(out, block, 0, names, separator)?;
    let end = hold(block, at, b"count", separator);
    put_name(out, block, end, sums, b'\n')
}

/// Puts the row of each name with its sum after the bytes held back in a block, which end at `end`, and
/// returns where they end then.
fn put_rows<W: Sink, N: RowNames>(
    out: &mut W,
    block: &mut [u8; BLOCK],
    end: usize,
    separator: u8,
    names: &N,
    sums: &[Sum],
) -> Result<usize, StreamFault>
    requires within { end ≤ BLOCK }
    requires size { length sums.now ≡ length (N.names names.now) }
    ensures within { IfOk result (λ last. last ≤ BLOCK) }
    ensures ok { IfOk result (λ last. Moves W.taken W.has_failed
        (take end block.old ++ flat_map (sum_row separator)
        (named_rows (N.names names.now) (values_of sums.now) (length sums.now)))
        (take last block.new) out.old out.new) }
    ensures err { OnErr result (FailsPush
        (take end block.old ++ flat_map (sum_row separator)
        (named_rows (N.names names.now) (values_of sums.now) (length sums.now)))
        (sink_use W.taken W.has_failed out.old out.new)) }
{
    let mut last = end;
    for number in 0..sums.len() {
        last = put_row(
            out,
            block,
            last,
            separator,
            names.name(number),
            sums[number],
        )?;
    }
    Ok(last)
}

/// Writes a table of counts and sums: the titles, if there are any, each name with its own, and then a text
/// for none with its own.
// Inlined, its block would take its place on the stack while the caller runs another writer.
#[inline(never)]
pub(crate) fn write_sums<W: Sink, N: RowNames>(
    separator: u8,
    titles: Option<(&[u8], &[u8])>,
    names: &N,
    sums: &[Sum],
    none: (&[u8], Sum),
    out: &mut W,
) -> Result<(), RunError>
    requires { length sums.now ≡ length (N.names names.now) }
    ensures { Writes (written (sums_table separator (option_map (λ t. (t.0.now, t.1.now)) titles.entry)
        (named_rows (N.names names.now) (values_of sums.now) (length sums.now)
        ++ row_of none.entry.0.now none.entry.1 ∷ []))) result
        (sink_use W.taken W.has_failed out.old out.new) }
{
    let mut block = [0; BLOCK];
    let mut end = put_titles(out, &mut block, separator, titles)?;
    end = put_rows(out, &mut block, end, separator, names, sums)?;
    end = put_row(out, &mut block, end, separator, none.0, none.1)?;
    write_answer(out, &block[..end])
}
