//! The fields of a row.

ghost use Rattle.std.specs.Prelude.{true, not, ◌≡◌, ◌==◌, ◌+◌, ◌-◌, ◌<◌, ◌≤◌, ℕ, Bool, false, length, Some, None, MatchOption};
ghost use Rattle.std.specs.List.{list_all};
ghost use Rattle.h3_index.specs.Text.{is_blank, trimmed, without_leading_blanks, without_trailing_blanks};
ghost use Rattle.h3_lines.specs.Pieces.{cut, is_uncut};
ghost use Rattle.h3_rows.specs.Row.{field_text, has_order_mark, is_padded, is_read_alike, mark_of, opens_well, piece_at, quotes_are_sound, read_of, unquoted};

use h3_lines::split;
use memchr::{memchr, memchr2};

/// The field of a row after `before` others, cut at the separators outside quotes; `None` if the row
/// has fewer.
pub(crate) fn find_field(separator: u8, quotes: bool, before: usize, row: &[u8]) -> Option<&[u8]>
    requires { (34 == separator) ≡ false }
    ensures { MatchOption result
        (piece_at before (cut separator quotes false row.now) ≡ None)
        (λ f. piece_at before (cut separator quotes false row.now) ≡ Some f.now) }
{
    let mut rest = row;
    let mut left = before;
    while left > 0 {
        match split(separator, quotes, false, rest) {
            Ok((_, after)) => rest = after,
            Err(_) => return None,
        }
        left -= 1;
    }
    match split(separator, quotes, false, rest) {
        Ok((field, _)) => Some(field),
        Err(_) => Some(rest),
    }
}

/// Whether a byte is a space, a tab or a carriage return.
fn is_blank(byte: u8) -> bool
    ensures { result ≡ is_blank byte }
{
    byte == b' ' || byte == b'\t' || byte == b'\r'
}

/// How many fields a row has.
pub(crate) fn count_fields(separator: u8, quotes: bool, row: &[u8]) -> usize
    requires { (34 == separator) ≡ false }
    ensures { result ≡ length (cut separator quotes false row.now) }
{
    let mut rest = row;
    let mut count = 1;
    while let Ok((_, after)) = split(separator, quotes, false, rest) {
        rest = after;
        count += 1;
    }
    count
}

/// How many fields a row has, and its field after `before` others; `None` if it has fewer.
pub(crate) fn count_and_find(
    separator: u8,
    quotes: bool,
    before: usize,
    row: &[u8],
) -> (usize, Option<&[u8]>)
    requires { (34 == separator) ≡ false }
    ensures count { result.0 ≡ length (cut separator quotes false row.now) }
    ensures field { MatchOption result.1
        (piece_at before (cut separator quotes false row.now) ≡ None)
        (λ f. piece_at before (cut separator quotes false row.now) ≡ Some f.now) }
{
    let mut rest = row;
    let mut passed = 0;
    let mut found = None;
    while let Ok((field, after)) = split(separator, quotes, false, rest) {
        if passed == before {
            found = Some(field);
        }
        rest = after;
        passed += 1;
    }
    if passed == before {
        return (passed + 1, Some(rest));
    }
    (passed + 1, found)
}

/// Whether each quote that opens in a row has only blanks before it in its field, or a quote right
/// before it.
fn opens_well(separator: u8, row: &[u8]) -> bool
    ensures { result ≡ opens_well separator true false false row.now }
{
    let mut rest = row;
    let mut start = true;
    let mut after = false;
    let mut inside = false;
    while let [first, more @ ..] = rest {
        if *first == b'"' {
            if !(inside || start || after) {
                return false;
            }
            start = false;
            after = true;
            inside = !inside;
        } else {
            start = !inside && (*first == separator || (start && is_blank(*first)));
            after = false;
        }
        rest = more;
    }
    true
}

/// Whether a field begins with blanks, and then has a quote.
fn is_padded(field: &[u8]) -> bool
    ensures { result ≡ is_padded field.now }
{
    if field.is_empty() || !is_blank(field[0]) {
        return false;
    }
    let text = without_leading_blanks(field);
    !text.is_empty() && text[0] == b'"'
}

/// Whether a field is not cut by programs that take a quote after blanks for text.
fn is_read_alike(separator: u8, field: &[u8]) -> bool
    ensures { result ≡ is_read_alike separator field.now }
{
    if !is_padded(field) {
        return true;
    }
    match memchr2(separator, b'\n', field) {
        None => true,
        Some(_) => false,
    }
}

/// Whether each field of a row is not cut by programs that take a quote after blanks for text.
fn are_read_alike(separator: u8, row: &[u8]) -> bool
    requires { (34 == separator) ≡ false }
    ensures { result
        ≡ list_all (λ p. is_read_alike separator p.0) (cut separator true false row.now) }
{
    let mut rest = row;
    while let Ok((field, after)) = split(separator, true, false, rest) {
        if !is_read_alike(separator, field) {
            return false;
        }
        rest = after;
    }
    is_read_alike(separator, rest)
}

/// Whether each quote that opens in a row is at the beginning of its field, or after a quote, and each
/// field of the row is cut as other programs cut it.
pub(crate) fn quotes_are_sound(separator: u8, row: &[u8]) -> bool
    requires { (34 == separator) ≡ false }
    ensures { result ≡ quotes_are_sound separator row.now }
{
    if let None = memchr(b'"', row) {
        return true;
    }
    opens_well(separator, row) && are_read_alike(separator, row)
}

/// Whether a carriage return is outside quotes.
pub(crate) fn has_return(row: &[u8]) -> bool
    ensures { result ≡ not (is_uncut 13 true false row.now) }
{
    if let None = memchr(b'\r', row) {
        return false;
    }
    match split(b'\r', true, false, row) {
        Ok(_) => true,
        Err(_) => false,
    }
}

/// The bytes from the first one on that is not a blank.
pub(crate) fn without_leading_blanks(bytes: &[u8]) -> &[u8]
    ensures { result.now ≡ without_leading_blanks bytes.now }
{
    let mut rest = bytes;
    while let [first, after @ ..] = rest {
        if !is_blank(*first) {
            break;
        }
        rest = after;
    }
    rest
}

/// The bytes up to the last one that is not a blank.
fn without_trailing_blanks(bytes: &[u8]) -> &[u8]
    ensures { result.now ≡ without_trailing_blanks bytes.now }
{
    let mut rest = bytes;
    while let [before @ .., last] = rest {
        if !is_blank(*last) {
            break;
        }
        rest = before;
    }
    rest
}

/// The bytes without the blanks at both ends.
pub(crate) fn trimmed(bytes: &[u8]) -> &[u8]
    ensures { result.now ≡ trimmed bytes.now }
{
    without_trailing_blanks(without_leading_blanks(bytes))
}

/// The bytes without a quote at the beginning and one at the end, if both are there and are two.
pub(crate) fn unquoted(bytes: &[u8]) -> &[u8]
    ensures { result.now ≡ unquoted bytes.now }
{
    if bytes.len() >= 2 && bytes[0] == b'"' && bytes[bytes.len() - 1] == b'"' {
        return &bytes[1..bytes.len() - 1];
    }
    bytes
}

/// The text of a field.
pub(crate) fn field_text(quotes: bool, field: &[u8]) -> &[u8]
    ensures { result.now ≡ field_text quotes field.now }
{
    let text = without_trailing_blanks(without_leading_blanks(field));
    if quotes {
        return unquoted(text);
    }
    text
}

/// Whether a byte order mark is at the beginning of bytes.
fn has_order_mark(bytes: &[u8]) -> bool
    ensures { result ≡ has_order_mark bytes.now }
{
    bytes.len() >= 3 && bytes[0] == 0xEF && bytes[1] == 0xBB && bytes[2] == 0xBF
}

/// The byte order mark of a list, if this is its first row and begins with one.
pub(crate) fn mark_of(number: u64, row: &[u8]) -> &[u8]
    ensures is { result.now ≡ mark_of number row.now }
    ensures short { length result.now ≤ 3 }
{
    let size = if number == 1 && has_order_mark(row) {
        3
    } else {
        0
    };
    &row[..size]
}

/// What is read of the row with this number: the first row of a list without its byte order mark.
pub(crate) fn read_of(number: u64, row: &[u8]) -> &[u8]
    ensures { result.now ≡ read_of number row.now }
{
    if number == 1 && has_order_mark(row) {
        return &row[3..];
    }
    row
}
