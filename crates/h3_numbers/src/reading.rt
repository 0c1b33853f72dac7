//! Texts of numbers.

ghost use Rattle.std.specs.Prelude.{◌≡◌, ◌+◌, ◌-◌, ◌*◌, ◌^◌, ◌<◌, ◌≤◌, true, false, length, option_map, IfSome, IfNone};
ghost use Rattle.std.specs.Str.Parse.{digits_value};
ghost use Rattle.h3_numbers.specs.Number.{number_units};
ghost use Rattle.h3_numbers.specs.Reading.{after_point, are_few_digits, before_point, fraction_units, is_negative, parsed_number, signed, without_sign};

use crate::number::Number;
use crate::powers::power_of_ten;

/// The most digits that a number has before its point, and after it.
const MAX_DIGITS: usize = 18;

/// The value of one to eighteen digits; `None` for any other bytes.
fn read_digits(digits: &[u8]) -> Option<u64>
    ensures some { IfSome result (λ n. are_few_digits digits.now ≡ true) }
    ensures value { IfSome result (λ n. n ≡ digits_value 10 digits.now) }
    ensures bound { IfSome result (λ n. n < 10 ^ length digits.now) }
    ensures short { IfSome result (λ n. length digits.now ≤ 18) }
    ensures none { IfNone result (are_few_digits digits.now ≡ false) }
{
    if digits.is_empty() || digits.len() > MAX_DIGITS {
        return None;
    }
    let mut value: u64 = 0;
    for byte in digits {
        if !byte.is_ascii_digit() {
            return None;
        }
        value = value * 10 + (*byte - b'0') as u64;
    }
    Some(value)
}

/// The value of one to eighteen digits after a point, in units of 10^-18; `None` for any other
/// bytes.
fn read_fraction(digits: &[u8]) -> Option<u64>
    ensures some { IfSome result (λ n. are_few_digits digits.now ≡ true) }
    ensures value { IfSome result (λ n. n ≡ fraction_units digits.now) }
    ensures bound { IfSome result (λ n. n < 10 ^ 18) }
    ensures none { IfNone result (are_few_digits digits.now ≡ false) }
{
    let value = read_digits(digits)?;
    Some(value * power_of_ten(MAX_DIGITS - digits.len()))
}

/// Whether a text begins with a `-`, and the text without a sign in front.
fn split_sign(text: &[u8]) -> (bool, &[u8])
    ensures negative { result.0 ≡ is_negative text.now }
    ensures rest { result.1.now ≡ without_sign text.now }
{
    match text {
        [b'-', rest @ ..] => (true, rest),
        [b'+', rest @ ..] => (false, rest),
        _ => (false, text),
    }
}

/// The bytes before the first point, and those after it, if there is one.
fn split_point(bytes: &[u8]) -> (&[u8], Option<&[u8]>)
    ensures before { result.0.now ≡ before_point bytes.now }
    ensures after { option_map (λ r. r.now) result.1 ≡ after_point bytes.now }
{
    for (at, byte) in bytes.iter().enumerate() {
        if *byte == b'.' {
            return (&bytes[..at], Some(&bytes[at + 1..]));
        }
    }
    (bytes, None)
}

/// The number of a sign, the digits before the point, and those after it in units of 10^-18.
fn number_from(negative: bool, whole: u64, fraction: u64) -> Number
    requires whole { whole < 10 ^ 18 }
    requires fraction { fraction < 10 ^ 18 }
    ensures { number_units result ≡ signed negative (whole * 10 ^ 18 + fraction) }
{
    if negative {
        return Number {
            whole: -(whole as i64),
            fraction: -(fraction as i64),
        };
    }
    Number {
        whole: whole as i64,
        fraction: fraction as i64,
    }
}

/// Reads a number: an optional `-` or `+`, one to eighteen digits, and optionally a `.` and one to
/// eighteen digits more. Returns `None` for any other text.
pub fn read_number(text: &[u8]) -> Option<Number>
    ensures { option_map number_units result ≡ parsed_number text.now }
{
    let (negative, unsigned) = split_sign(text);
    let (before, after) = split_point(unsigned);
    let whole = read_digits(before)?;
    let fraction = match after {
        None => 0,
        Some(digits) => read_fraction(digits)?,
    };
    Some(number_from(negative, whole, fraction))
}
