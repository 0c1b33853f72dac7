//! Rows of whole fields, each without quotes, or between two quotes that count, that are found by a look
//! at sixteen bytes at once. They have no carriage returns but for one at their end.

ghost use Rattle.std.specs.Prelude.{◌≡◌, ◌==◌, ◌+◌, ◌++◌, ◌∷◌, ◌<◌, ◌≤◌, [], Some, false, drop, get_or, not, true, length, replicate, take, IfSome};
ghost use Rattle.std.specs.Char.{is_digit};
ghost use Rattle.std.specs.List.{list_all};
ghost use Rattle.h3_lines.specs.Pieces.{cut};
ghost use Rattle.h3_rows.specs.Plain.{EndsField, EndsPlain, IsPlainCell, IsPlainField, IsPlainRow, IsWhole, IsWholeRow, PassesFields, is_byte4, quote_or_feed};
ghost use Rattle.h3_rows.specs.Row.{field_text, piece_at};
ghost use Rattle.h3_rows.specs.RowForm.{form_as};

use crate::lanes::find_stop;
use crate::reading::LONGEST_ROW;
use crate::row::{CellRow, Row};
use crate::state::Columns;
use crate::table::TableColumns;
use h3_index::read_plain;
use h3_lines::CellOf;
use h3_requests::RowOptions;

/// The quote if quotes count, and else a line feed: what a field without quotes does not have.
#[inline(always)]
fn quote_or_feed(quotes: bool) -> u8
    ensures { result ≡ quote_or_feed quotes }
{
    if quotes { b'"' } else { b'\n' }
}

/// The place of the first mark, line feed, carriage return or, if quotes count, quote. `None` may be
/// answered near to the end of the bytes.
#[inline(always)]
fn find_end(mark: u8, quotes: bool, bytes: &[u8]) -> Option<usize>
    ensures within { IfSome result (λ at. at < length bytes.now) }
    ensures passed { IfSome result (λ at.
        list_all (λ b. not (is_byte4 mark 10 13 (quote_or_feed quotes) b)) (take at bytes.now) ≡ true) }
    ensures stops { IfSome result (λ at.
        is_byte4 mark 10 13 (quote_or_feed quotes) (get_or bytes.now at 0) ≡ true) }
{
    find_stop(mark, b'\n', b'\r', quote_or_feed(quotes), bytes)
}

/// Where the field ends that bytes begin with, if it is between two quotes that count, on one line.
/// `None` may be answered to any other, and if a stop is near to the end of the bytes.
// A call, so that fields without quotes find all they need in registers.
#[inline(never)]
fn find_quoted_end(separator: u8, quotes: bool, bytes: &[u8]) -> Option<usize>
    requires quote { (34 == separator) ≡ false }
    ensures within { IfSome result (λ end. end < length bytes.now) }
    ensures whole { IfSome result (λ end. IsWhole separator quotes (take end bytes.now)) }
{
    if !quotes || bytes.is_empty() || bytes[0] != b'"' {
        return None;
    }
    let inner = find_end(b'"', quotes, &bytes[1..])?;
    if bytes[inner + 1] != b'"' || bytes.len() <= inner + 2 {
        return None;
    }
    Some(inner + 2)
}

/// Where the field ends that bytes begin with, if the separator or a line end is there, and if it is
/// whole: without quotes, or between two quotes that count, on one line. `None` may be answered to any
/// other, and if a stop is near to the end of the bytes.
#[inline(always)]
fn find_field_end(separator: u8, quotes: bool, bytes: &[u8]) -> Option<usize>
    requires quote { (34 == separator) ≡ false }
    ensures within { IfSome result (λ end. end < length bytes.now) }
    ensures whole { IfSome result (λ end. IsWhole separator quotes (take end bytes.now)) }
{
    let end = find_end(separator, quotes, bytes)?;
    if bytes[end] == b'"' {
        return find_quoted_end(separator, quotes, bytes);
    }
    Some(end)
}

/// The bytes after so many whole fields and their separators, and where the field that they begin
/// with ends, if it is whole too.
#[inline(always)]
fn pass_fields(separator: u8, quotes: bool, before: usize, bytes: &[u8]) -> Option<(&[u8], usize)>
    requires quote { (34 == separator) ≡ false }
    requires feed { (10 == separator) ≡ false }
    requires carriage { (13 == separator) ≡ false }
    ensures passes { IfSome result (λ p.
        PassesFields separator quotes before 0 bytes.now p.0.now) }
    ensures within { IfSome result (λ p. p.1 < length p.0.now) }
    ensures whole { IfSome result (λ p. IsWhole separator quotes (take p.1 p.0.now)) }
{
    let mut rest = bytes;
    let mut left = before;
    loop {
        let end = find_field_end(separator, quotes, rest)?;
        if left == 0 {
            return Some((rest, end));
        }
        if rest[end] != separator {
            return None;
        }
        rest = &rest[end + 1..];
        left -= 1;
    }
}

/// Where the whole fields that bytes begin with end, up to a line end. `None` may be answered if a stop
/// is near to the end of the bytes.
// A call, so that rows without quotes find all they need in registers.
#[inline(never)]
fn pass_row(separator: u8, quotes: bool, bytes: &[u8]) -> Option<usize>
    requires quote { (34 == separator) ≡ false }
    requires feed { (10 == separator) ≡ false }
    requires carriage { (13 == separator) ≡ false }
    ensures within { IfSome result (λ end. end < length bytes.now) }
    ensures whole { IfSome result (λ end. IsWholeRow separator quotes (take end bytes.now)) }
{
    let mut rest = bytes;
    loop {
        let end = find_field_end(separator, quotes, rest)?;
        if rest[end] != separator {
            return Some(bytes.len() - rest.len() + end);
        }
        rest = &rest[end + 1..];
    }
}

/// Where the row of whole fields ends that bytes begin with. `None` may be answered to any other bytes,
/// and if a stop is near to their end.
#[inline(always)]
fn find_row_end(separator: u8, quotes: bool, bytes: &[u8]) -> Option<usize>
    requires quote { (34 == separator) ≡ false }
    requires feed { (10 == separator) ≡ false }
    requires carriage { (13 == separator) ≡ false }
    ensures within { IfSome result (λ end. end < length bytes.now) }
    ensures whole { IfSome result (λ end. IsWholeRow separator quotes (take end bytes.now)) }
{
    let end = find_end(b'\n', quotes, bytes)?;
    if bytes[end] == b'"' {
        return pass_row(separator, quotes, bytes);
    }
    Some(end)
}

/// Where a plain row without its ending ends, if it has as many fields as it should. These bytes
/// begin with its cell's field, which ends at the place `end`.
#[inline(always)]
fn find_last(
    separator: u8,
    quotes: bool,
    columns: Columns,
    rest: &[u8],
    end: usize,
) -> Option<usize>
    requires quote { (34 == separator) ≡ false }
    requires feed { (10 == separator) ≡ false }
    requires carriage { (13 == separator) ≡ false }
    requires within { end < length rest.now }
    requires whole { IsWhole separator quotes (take end rest.now) }
    ensures { IfSome result (λ last. EndsPlain separator quotes columns rest.now end last) }
{
    let Some(width) = columns.width else {
        if rest[end] != separator {
            return Some(end);
        }
        let more = find_row_end(separator, quotes, &rest[end + 1..])?;
        return Some(end + 1 + more);
    };
    let more = width.checked_sub(columns.before)?.checked_sub(1)?;
    if more == 0 {
        return Some(end);
    }
    if rest[end] != separator {
        return None;
    }
    let (tail, last) = pass_fields(separator, quotes, more - 1, &rest[end + 1..])?;
    Some(rest.len() - tail.len() + last)
}

/// How many carriage returns, none or one, are at a place, before a line feed.
#[inline(always)]
fn count_returns(bytes: &[u8], at: usize) -> Option<usize>
    requires { at < length bytes.now }
    ensures few { IfSome result (λ n. n ≤ 1) }
    ensures within { IfSome result (λ n. at + n < length bytes.now) }
    ensures ends { IfSome result (λ n.
        drop at bytes.now ≡ replicate n 13 ++ 10 ∷ drop (at + n + 1) bytes.now) }
{
    if bytes[at] == b'\n' {
        return Some(0);
    }
    if bytes[at] == b'\r' && bytes.len() - at > 1 && bytes[at + 1] == b'\n' {
        return Some(1);
    }
    None
}

/// The text of a whole field, if it is one of digits: what is between its quotes.
fn text_between(quotes: bool, field: &[u8]) -> &[u8]
    ensures { list_all (λ b. is_digit b 16) result.now ≡ true
        → field_text quotes field.now ≡ result.now }
{
    if quotes && field.len() >= 2 && field[0] == b'"' && field[field.len() - 1] == b'"' {
        return &field[1..field.len() - 1];
    }
    field
}

/// The index of a field that has a plain text between its quotes.
// A call: inlined, it would make its callers too long to be inlined themselves.
#[inline(never)]
fn read_quoted_field(quotes: bool, field: &[u8]) -> Option<u64>
    ensures { IfSome result (λ index. IsPlainField quotes field.now index) }
{
    let index = read_plain(text_between(quotes, field))?;
    Some(index)
}

/// The index of a field that is a plain text, or has one between its quotes.
#[inline(always)]
pub(crate) fn read_plain_field(quotes: bool, field: &[u8]) -> Option<u64>
    ensures { IfSome result (λ index. IsPlainField quotes field.now index) }
{
    if let Some(index) = read_plain(field) {
        return Some(index);
    }
    read_quoted_field(quotes, field)
}

/// The row that bytes begin with, its cell's field, and where that ends, if the row ends in them with at
/// most one carriage return, has as many fields as it should, and all of them whole. `None` may be
/// answered to any other bytes, and if a stop is near to their end.
#[inline(always)]
pub(crate) fn find_plain(
    separator: u8,
    quotes: bool,
    columns: Columns,
    bytes: &[u8],
) -> Option<(Row<'_>, &[u8], usize)>
    requires quote { (34 == separator) ≡ false }
    requires feed { (10 == separator) ≡ false }
    requires carriage { (13 == separator) ≡ false }
    ensures is { IfSome result (λ p. IsPlainRow separator quotes columns bytes.now p.0.body.now
        p.0.returns p.1.now) }
    ensures field { IfSome result (λ p. EndsField separator quotes columns.before bytes.now p.2) }
{
    let (rest, end) = pass_fields(separator, quotes, columns.before, bytes)?;
    let last = find_last(separator, quotes, columns, rest, end)?;
    let returns = count_returns(rest, last)?;
    let start = bytes.len() - rest.len();
    let body = &bytes[..start + last];
    Some((Row { body, returns }, &rest[..end], start + end))
}

/// What is taken for the cell of the row that bytes begin with, and that row, if it is plain and not the first one,
/// and its cell a plain text for which a cell is taken. `None` may be answered to any other bytes, and if a stop is
/// near to their end.
#[inline(always)]
pub(crate) fn find_plain_cell<'b, F: CellOf>(
    function: &F,
    options: &RowOptions,
    number: u64,
    columns: Columns,
    bytes: &'b [u8],
) -> Option<CellRow<'b>>
    ensures is { IfSome result (λ r. IsPlainCell (form_as (F.says function.now) options.now) number columns bytes.now
        r.row.body.now r.row.returns r.cell) }
    ensures field { IfSome result (λ r.
        EndsField options.now.separator options.now.quotes columns.before bytes.now r.end) }
{
    let (row, field, end) = find_plain(options.separator, options.quotes, columns, bytes)?;
    let index = read_plain_field(options.quotes, field)?;
    // A byte order mark is before the first row alone.
    if number == 1 || row.body.is_empty() || row.body.len() > LONGEST_ROW {
        return None;
    }
    match function.cell_of(index) {
        Ok(Some(cell)) => Some(CellRow { row, cell, end }),
        _ => None,
    }
}

/// The field after `before` others of the row that is the first `size` of these bytes, if all these fields are
/// whole. `None` may be answered to any other, and if a stop is near to the end of the bytes.
#[inline(always)]
pub(crate) fn find_whole_field(
    separator: u8,
    quotes: bool,
    before: usize,
    size: usize,
    bytes: &[u8],
) -> Option<&[u8]>
    requires quote { (34 == separator) ≡ false }
    requires feed { (10 == separator) ≡ false }
    requires carriage { (13 == separator) ≡ false }
    requires within { size ≤ length bytes.now }
    ensures { IfSome result (λ field.
        piece_at before (cut separator quotes false (take size bytes.now)) ≡ Some field.now) }
{
    let (rest, end) = pass_fields(separator, quotes, before, bytes)?;
    let at = bytes.len() - rest.len() + end;
    if at == size {
        return Some(&rest[..end]);
    }
    if at < size && rest[end] == separator {
        return Some(&rest[..end]);
    }
    None
}

/// The second field of the row that is the first `size` of these bytes, if all fields up to it are whole. Its
/// cell's field ends at the place `end`, so a field after it is looked for from there on. `None` may be answered
/// to any other bytes, and if a stop is near to their end.
#[inline(always)]
pub(crate) fn find_second_field(
    separator: u8,
    quotes: bool,
    columns: TableColumns,
    end: usize,
    size: usize,
    bytes: &[u8],
) -> Option<&[u8]>
    requires quote { (34 == separator) ≡ false }
    requires feed { (10 == separator) ≡ false }
    requires carriage { (13 == separator) ≡ false }
    requires within { size ≤ length bytes.now }
    requires field { EndsField separator quotes columns.cell.before bytes.now end }
    ensures { IfSome result (λ field.
        piece_at columns.name (cut separator quotes false (take size bytes.now)) ≡ Some field.now) }
{
    let passed = columns.cell.before;
    if columns.name > passed && end < size && bytes[end] == separator {
        let after = end + 1;
        let before = columns.name - passed - 1;
        let field = find_whole_field(separator, quotes, before, size - after, &bytes[after..])?;
        return Some(field);
    }
    find_whole_field(separator, quotes, columns.name, size, bytes)
}
