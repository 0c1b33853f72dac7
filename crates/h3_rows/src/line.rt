//! Lines, each of which is a row and its ending.

ghost use Rattle.std.specs.Prelude.{◌≡◌, ◌≤◌, ◌<◌, ◌+◌, ◌++◌, length, replicate, take, vec_capacity, IfNone, IfSome};
ghost use Rattle.h3_rows.specs.Line.{line_of};
ghost use Rattle.h3_rows.specs.Row.{lacking, row_body, unmarked};
ghost use Rattle.h3_rows.specs.declared.reading.TheConstants.{LONGEST};

use crate::fields::read_of;
use crate::reading::LONGEST;
use crate::row::Row;
use h3_lines::lengthen;

/// A row without the carriage returns at its end.
fn row_body(line: &[u8]) -> &[u8]
    ensures { result.now ≡ row_body line.now }
{
    let mut rest = line;
    while let [before @ .., last] = rest {
        if *last != b'\r' {
            break;
        }
        rest = before;
    }
    rest
}

/// The row that is a line, which is cut off at its line feed.
pub(crate) fn row_of(line: &[u8]) -> Row<'_>
    ensures { line_of result ≡ line.now }
{
    let body = row_body(line);
    Row {
        body,
        returns: line.len() - body.len(),
    }
}

/// The row with this number without the byte order mark before it.
pub(crate) fn without_mark(number: u64, row: Row<'_>) -> Row<'_>
    ensures line { line_of result ≡ unmarked number (line_of row.entry) }
    ensures short { length result.body.now ≤ length row.entry.body.now }
    ensures returns { result.returns ≡ row.entry.returns }
{
    Row {
        body: read_of(number, row.body),
        returns: row.returns,
    }
}

/// How many carriage returns are put behind a last row without a line feed, where the row before it ended
/// in `returns`.
fn lacking(row: &[u8], returns: usize) -> usize
    ensures { replicate result 13 ≡ lacking (replicate returns 13) row.now }
{
    if row.is_empty() {
        return 0;
    }
    let own = row_of(row).returns;
    if own == 0 { returns } else { 0 }
}

/// Puts the carriage returns that a last row lacks behind it, where the row before it ended in `returns`.
/// The row is the page's first `end` bytes. Returns where it ends then; `None` if it is too long.
pub(crate) fn end_row(page: &mut Vec<u8>, end: usize, returns: usize) -> Option<usize>
    requires within { end ≤ length page.old.items }
    requires room { LONGEST ≤ vec_capacity page.old }
    ensures within { IfSome result (λ last. last ≤ length page.new.items) }
    ensures short { IfSome result (λ last. last ≤ LONGEST) }
    ensures some { IfSome result (λ last. take last page.new.items
        ≡ take end page.old.items ++ lacking (replicate returns 13) (take end page.old.items)) }
    ensures none { IfNone result (LONGEST < length
        (take end page.old.items ++ lacking (replicate returns 13) (take end page.old.items))) }
{
    let count = lacking(&page[..end], returns);
    let last = end.checked_add(count)?;
    if last > LONGEST {
        return None;
    }
    lengthen(page, last);
    page[end..last].fill(b'\r');
    Some(last)
}
