//! The numbers in fields.

ghost use Rattle.std.specs.Prelude.{◌≡◌, option_map, IfSome};
ghost use Rattle.h3_index.specs.Text.{trimmed};
ghost use Rattle.h3_numbers.specs.Number.{number_units};
ghost use Rattle.h3_rows.specs.Named.{IsNumberOf, number_in, number_of_text};

use crate::fields::{field_text, trimmed};
use h3_numbers::{Number, read_number};

/// The number that a text is; 0 if it is blank.
fn number_of_text(text: &[u8]) -> Option<Number>
    ensures { option_map number_units result ≡ number_of_text text.now }
{
    if trimmed(text).is_empty() {
        return Some(Number::zero());
    }
    read_number(text)
}

/// The number that a field is as it stands, without blanks at its ends: with no quotes around it, and not
/// blank.
#[inline(always)]
pub(crate) fn plain_number(field: &[u8]) -> Option<Number>
    requires { trimmed field.now ≡ field.now }
    ensures { IfSome result (IsNumberOf field.now) }
{
    if field.is_empty() || field[0] == b'"' {
        return None;
    }
    read_number(field)
}

/// Returns the number in a field, which is 0 if its text is blank; `None` if the text is not a number.
///
/// The text of a field is without the blanks at both ends, and then, if quotes count, without a pair of
/// quotes around it.
pub fn field_number(quotes: bool, field: &[u8]) -> Option<Number>
    ensures { option_map number_units result ≡ number_in quotes field.now }
{
    number_of_text(field_text(quotes, field))
}
