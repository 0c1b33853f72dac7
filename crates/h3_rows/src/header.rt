//! Headers, and columns by their name.

ghost use Rattle.std.specs.Prelude.{◌≡◌, ◌==◌, ◌≤◌, ◌+◌, ℕ, List, [], ◌∷◌, ◌++◌, false, not, length, option_map, string_bytes, bytes_eq, true, IfSome};
ghost use Rattle.std.specs.List.{list_all};
ghost use Rattle.h3_requests.specs.Rows.{is_counted};
ghost use Rattle.h3_rows.specs.Answering.{fields_left, is_tail, listed};
ghost use Rattle.h3_lines.specs.Pieces.{cut};
ghost use Rattle.h3_rows.specs.Row.{field_text};
ghost use Rattle.h3_rows.specs.RowForm.{columns_form, form_of};
ghost use Rattle.h3_rows.specs.RowsAnswer.{answer_names, are_apart, choice_of, chosen_in, column_of, columns_in, error_names, free_columns, have_one_text, is_free, places_of};

use crate::fields::{count_fields, field_text, without_leading_blanks};
use crate::state::Columns;
use h3_lines::{ColumnError, split};
use h3_requests::{CellField, RowOptions};

/// The name of a new column, in two parts.
pub(crate) type Name<'n> = (&'n [u8], &'n [u8]);

/// The first of the fields that bytes are cut into, and the bytes after its separator, if it has one.
fn first_field(separator: u8, quotes: bool, bytes: &[u8]) -> (&[u8], Option<&[u8]>)
    requires { (34 == separator) ≡ false }
    ensures places { (wanted : List ℕ) (place : ℕ) →
        places_of quotes wanted place (cut separator quotes false bytes.now)
        ≡ places_of quotes wanted place ((result.0.now, false)
        ∷ fields_left separator quotes (option_map (λ l. l.now) result.1)) }
    ensures shorter { IfSome result.1 (λ after. length after.now + 1 ≤ length bytes.now) }
{
    match split(separator, quotes, false, bytes) {
        Ok((field, after)) => (field, Some(after)),
        Err(_) => (bytes, None),
    }
}

/// Whether a text is a name, which is in two parts.
fn is_name(text: &[u8], name: Name<'_>) -> bool
    ensures { result ≡ bytes_eq text.now (name.entry.0.now ++ name.entry.1.now) }
{
    let (first, more) = name;
    if text.len() < first.len() {
        return false;
    }
    &text[..first.len()] == first && &text[first.len()..] == more
}

/// How many fields are before the only one of a row whose text is a name.
pub(crate) fn find_column(
    separator: u8,
    quotes: bool,
    name: Name<'_>,
    row: &[u8],
) -> Result<usize, ColumnError>
    requires { (34 == separator) ≡ false }
    ensures { result ≡ column_of separator quotes (name.entry.0.now ++ name.entry.1.now) row.now }
{
    let mut found = None;
    let mut place = 0;
    let mut rest = Some(row);
    while let Some(bytes) = rest {
        let (field, after) = first_field(separator, quotes, bytes);
        if is_name(field_text(quotes, field), name) {
            if found.is_some() {
                return Err(ColumnError::NotUnique);
            }
            found = Some(place);
        }
        place += 1;
        rest = after;
    }
    found.ok_or(ColumnError::NotFound)
}

/// How many fields are before this one, by a header.
pub(crate) fn chosen_field(
    options: &RowOptions,
    field: &CellField,
    row: &[u8],
) -> Result<usize, ColumnError>
    requires { is_counted field.now ≡ true }
    ensures { result ≡ chosen_in (form_of options.now []) (choice_of field.now) row.now }
{
    match field {
        CellField::Number(number) => Ok(*number as usize - 1),
        CellField::Column(column) => {
            let name = (column.as_bytes(), b"".as_slice());
            find_column(options.separator, options.quotes, name, row)
        }
    }
}

/// The columns, by a header.
pub(crate) fn columns_in(options: &RowOptions, row: &[u8]) -> Result<Columns, ColumnError>
    ensures { result ≡ columns_in (form_of options.now []) row.now }
{
    let before = chosen_field(options, &options.field, row)?;
    let width = if options.is_ragged {
        None
    } else {
        Some(count_fields(options.separator, options.quotes, row))
    };
    Ok(Columns { before, width })
}

/// The name of the new column, and that of a second one where an answer is a pair.
pub(crate) fn answer_names<'n>(
    options: &'n RowOptions,
    name: &'n [u8],
    is_pair: bool,
) -> (Name<'n>, Option<Name<'n>>)
    ensures names { answer_names is_pair (option_map string_bytes options.now.name) name.now
        ≡ (result.0.0.now ++ result.0.1.now)
        ∷ listed (option_map (λ n. n.0.now ++ n.1.now) result.1) }
    ensures first { is_tail result.0.1.now ≡ true }
    ensures second { IfSome result.1 (λ n. is_tail n.1.now ≡ true) }
{
    match (&options.name, is_pair) {
        (None, false) => ((name, b""), None),
        (Some(given), false) => ((given.as_bytes(), b""), None),
        (None, true) => ((b"near", b""), Some((b"distance", b""))),
        (Some(given), true) => {
            let given = given.as_bytes();
            ((given, b""), Some((given, b"Distance")))
        }
    }
}

/// The name of the column of errors, if there is one.
pub(crate) fn error_name(options: &RowOptions) -> Option<Name<'_>>
    ensures names { error_names options.now.shows_errors (option_map string_bytes options.now.name)
        ≡ listed (option_map (λ n. n.0.now ++ n.1.now) result) }
    ensures tail { IfSome result (λ n. is_tail n.1.now ≡ true) }
{
    if !options.shows_errors {
        return None;
    }
    match &options.name {
        None => Some((b"error", b"")),
        Some(given) => Some((given.as_bytes(), b"Error")),
    }
}

/// The text that a name has as a field, in two parts like the name.
fn name_text<'n>(quotes: bool, name: Name<'n>) -> Name<'n>
    requires { is_tail name.1.now ≡ true }
    ensures { result.0.now ++ result.1.now
        ≡ field_text quotes (name.entry.0.now ++ name.entry.1.now) }
{
    let (first, more) = name;
    if more.is_empty() {
        return (field_text(quotes, first), more);
    }
    (without_leading_blanks(first), more)
}

/// Whether no field of a header has the text of a name.
fn is_free(options: &RowOptions, name: Name<'_>, row: &[u8]) -> bool
    requires { is_tail name.1.now ≡ true }
    ensures { result ≡ is_free (form_of options.now []) row.now (name.entry.0.now ++ name.entry.1.now) }
{
    let text = name_text(options.quotes, name);
    let found = find_column(options.separator, options.quotes, text, row);
    matches!(found, Err(ColumnError::NotFound))
}

/// Whether no field of a header has the text of the name of a new column.
fn are_free(options: &RowOptions, name: &[u8], is_pair: bool, row: &[u8]) -> bool
    ensures { result ≡ list_all (is_free (columns_form options.now name.now is_pair) row.now)
        (columns_form options.now name.now is_pair).names }
{
    let (first, second) = answer_names(options, name, is_pair);
    is_free(options, first, row)
        && second.is_none_or(|second| is_free(options, second, row))
        && error_name(options).is_none_or(|error| is_free(options, error, row))
}

/// Whether two names are the same, if the first part of the one is no longer than that of the other.
fn is_same(one: Name<'_>, other: Name<'_>) -> bool
    requires { length one.0.now ≤ length other.0.now }
    ensures { result ≡ bytes_eq (one.entry.0.now ++ one.entry.1.now)
        (other.entry.0.now ++ other.entry.1.now) }
{
    let (first, more) = one;
    let (whole, end) = other;
    let is_begun = first == &whole[..first.len()];
    is_begun && is_name(more, (&whole[first.len()..], end))
}

/// Whether two names have the same text as fields.
fn have_one_text(quotes: bool, one: Name<'_>, other: Name<'_>) -> bool
    requires one { is_tail one.1.now ≡ true }
    requires other { is_tail other.1.now ≡ true }
    ensures { result ≡ have_one_text quotes (one.entry.0.now ++ one.entry.1.now)
        (other.entry.0.now ++ other.entry.1.now) }
{
    let one = name_text(quotes, one);
    let other = name_text(quotes, other);
    if one.0.len() <= other.0.len() {
        return is_same(one, other);
    }
    is_same(other, one)
}

/// Whether a name has another text as a field than a second one, if there is that.
fn is_apart(quotes: bool, one: Name<'_>, other: Option<Name<'_>>) -> bool
    requires one { is_tail one.1.now ≡ true }
    requires other { IfSome other (λ n. is_tail n.1.now ≡ true) }
    ensures { result ≡ list_all (λ n. not (have_one_text quotes (one.entry.0.now ++ one.entry.1.now) n))
        (listed (option_map (λ n. n.0.now ++ n.1.now) other.entry)) }
{
    match other {
        Some(other) => !have_one_text(quotes, one, other),
        None => true,
    }
}

/// Whether no two names of new columns have the same text as fields.
fn are_apart(options: &RowOptions, name: &[u8], is_pair: bool) -> bool
    ensures { result ≡ are_apart options.now.quotes (columns_form options.now name.now is_pair).names }
{
    let (first, second) = answer_names(options, name, is_pair);
    let error = error_name(options);
    let quotes = options.quotes;
    let are_first_apart = is_apart(quotes, first, second) && is_apart(quotes, first, error);
    match second {
        Some(second) => are_first_apart && is_apart(quotes, second, error),
        None => are_first_apart,
    }
}

/// The columns, by a header to which the names of new ones are added.
pub(crate) fn free_columns(
    options: &RowOptions,
    name: &[u8],
    is_pair: bool,
    row: &[u8],
) -> Result<Columns, ColumnError>
    ensures { result ≡ free_columns (columns_form options.now name.now is_pair) row.now
        (columns_in (columns_form options.now name.now is_pair) row.now) }
{
    let columns = columns_in(options, row)?;
    if !are_free(options, name, is_pair, row) {
        return Err(ColumnError::InUse);
    }
    if !are_apart(options, name, is_pair) {
        return Err(ColumnError::InUse);
    }
    Ok(columns)
}
