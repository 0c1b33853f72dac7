//! What a row says of its cell.

ghost use Rattle.std.specs.Prelude.{◌≡◌, ◌==◌, ◌+◌, ◌≤◌, ◌&&◌, ◌||◌, false, length, nat_lt, not, option_map, true};
ghost use Rattle.std.specs.List.{count_by};
ghost use Rattle.h3_lines.specs.Pieces.{is_uncut};
ghost use Rattle.h3_rows.specs.Line.{line_of};
ghost use Rattle.h3_rows.specs.Row.{quotes_are_sound, read_of, row_body};
ghost use Rattle.h3_rows.specs.RowForm.{form_of};
ghost use Rattle.h3_rows.specs.RowsAnswer.{field_cell, malformed, row_cell, text_cell};

use crate::fields::{
    count_and_find, field_text, find_field, has_return, quotes_are_sound, read_of,
};
use crate::row::Row;
use crate::row_cell::RowCell;
use crate::state::Columns;
use h3_index::{is_blank_text, read_index};
use h3_lines::RowFault;
use h3_requests::RowOptions;
use memchr::memchr;

/// The bytes that a row may have before its line feed, with a byte order mark and the carriage returns
/// at its end.
pub(crate) const LONGEST: usize = 1_114_111;

/// The bytes that a row may have without its ending and a byte order mark.
pub(crate) const LONGEST_ROW: usize = 1_048_575;

/// What the text of a field says.
fn text_cell(text: &[u8]) -> Result<RowCell, RowFault>
    ensures { result ≡ text_cell text.now }
{
    match read_index(text) {
        Ok(index) => Ok(RowCell::Index(index)),
        Err(_) if is_blank_text(text) => Ok(RowCell::Missing),
        Err(_) => Err(RowFault::NotAnIndex),
    }
}

/// Whether the row with this number is too long.
fn is_too_long(number: u64, row: Row<'_>) -> bool
    ensures { result ≡ (nat_lt 1048575 (length (read_of number (row_body (line_of row.entry))))
        || nat_lt 1114111 (length (line_of row.entry))) }
{
    read_of(number, row.body).len() > LONGEST_ROW || row.body.len() + row.returns > LONGEST
}

/// Whether quotes count, and a carriage return in a row is outside of them.
fn has_stray_return(options: &RowOptions, row: Row<'_>) -> bool
    ensures { result ≡ (options.now.quotes
        && not (is_uncut 13 true false (row_body (line_of row.entry)))) }
{
    options.quotes && has_return(row.body)
}

/// Whether quotes count, and one in a row is stray.
fn has_stray_quote(options: &RowOptions, number: u64, row: Row<'_>) -> bool
    ensures { result ≡ (options.now.quotes && not (quotes_are_sound options.now.separator
        (read_of number (row_body (line_of row.entry))))) }
{
    options.quotes && !quotes_are_sound(options.separator, read_of(number, row.body))
}

/// Why a row is malformed, if it is.
pub(crate) fn malformed(
    options: &RowOptions,
    name: &[u8],
    number: u64,
    row: Row<'_>,
    inside: bool,
) -> Option<RowFault>
    ensures { result
        ≡ malformed (form_of options.now name.now) number (line_of row.entry, inside) }
{
    if is_too_long(number, row) {
        return Some(RowFault::TooLong);
    }
    if has_stray_return(options, row) {
        return Some(RowFault::CarriageReturn);
    }
    if inside {
        return Some(RowFault::OpenQuote);
    }
    if has_stray_quote(options, number, row) {
        return Some(RowFault::StrayQuote);
    }
    None
}

/// What a field says, if there is one.
#[inline(always)]
fn field_cell(quotes: bool, field: Option<&[u8]>) -> Result<RowCell, RowFault>
    ensures { result ≡ field_cell quotes (option_map (λ f. f.now) field.entry) }
{
    match field {
        Some(field) => text_cell(field_text(quotes, field)),
        None => Err(RowFault::NoSuchField),
    }
}

/// What a row says of its cell.
pub(crate) fn read_row(
    options: &RowOptions,
    name: &[u8],
    number: u64,
    columns: Columns,
    row: &[u8],
) -> Result<RowCell, RowFault>
    ensures { result ≡ row_cell (form_of options.now name.now) number columns row.now }
{
    let read = read_of(number, row);
    let Columns { before, width } = columns;
    if let Some(width) = width {
        let (count, field) = count_and_find(options.separator, options.quotes, before, read);
        if count != width {
            return Err(RowFault::FieldCount(count as u64, width as u64));
        }
        return field_cell(options.quotes, field);
    }
    let field = find_field(options.separator, options.quotes, before, read);
    field_cell(options.quotes, field)
}

/// How many line feeds are in a row.
pub(crate) fn feeds(row: &[u8]) -> usize
    ensures value { result ≡ count_by (λ b. b == 10) row.now }
    ensures few { result ≤ length row.now }
{
    match memchr(b'\n', row) {
        None => 0,
        Some(_) => row.iter().filter(|byte| **byte == b'\n').count(),
    }
}
