//! The texts of indexes.

ghost use Rattle.std.specs.Prelude.{◌≡◌, ◌==◌, ◌-◌, ◌^◌, ◌<◌, ◌≤◌, ℕ, List, length, map, replicate, take, drop, IfErr, IsAscii};
ghost use Rattle.std.specs.Char.{digit_char};
ghost use Rattle.std.specs.Result.{result_ok};
ghost use Rattle.h3_index.specs.Digits.{last_digits};
ghost use Rattle.h3_index.specs.Text.{without_leading_zeros, is_blank, without_leading_blanks, without_trailing_blanks, without_prefix, parsed_number, parsed_index, text_of, trimmed};

mod lanes;
mod lines;
mod long;
mod pairs;
mod plain;

use crate::error::H3Error;
use arrayvec::ArrayString;
use lanes::write_sixteen;
pub use lines::{put_cell_line, put_children_lines};
use long::read_long;
pub use long::read_trimmed;
pub use plain::read_plain;
use std::str;

/// Whether a byte is a space, a tab or a carriage return.
fn is_blank(byte: u8) -> bool
    ensures { result ≡ is_blank byte }
{
    byte == b' ' || byte == b'\t' || byte == b'\r'
}

/// The bytes from the first one on that is not a blank.
fn without_leading_blanks(bytes: &[u8]) -> &[u8]
    ensures { result.now ≡ without_leading_blanks bytes.now }
{
    let mut rest = bytes;
    while let [first, after @ ..] = rest {
        if !is_blank(*first) {
            break;
        }
        rest = after;
    }
    rest
}

/// The bytes up to the last one that is not a blank.
fn without_trailing_blanks(bytes: &[u8]) -> &[u8]
    ensures { result.now ≡ without_trailing_blanks bytes.now }
{
    let mut rest = bytes;
    while let [before @ .., last] = rest {
        if !is_blank(*last) {
            break;
        }
        rest = before;
    }
    rest
}

/// Whether nothing is left of a text without the spaces, tabs and carriage returns at both ends.
pub fn is_blank_text(bytes: &[u8]) -> bool
    ensures { result ≡ (length (trimmed bytes.now) == 0) }
{
    without_trailing_blanks(without_leading_blanks(bytes)).is_empty()
}

/// The bytes without a `0x` or `0X` in front.
fn without_prefix(bytes: &[u8]) -> &[u8]
    ensures { result.now ≡ without_prefix bytes.now }
{
    if bytes.starts_with(b"0x") || bytes.starts_with(b"0X") {
        &bytes[2..]
    } else {
        bytes
    }
}

/// The number that bytes parse as, where they are 1 to 16 hexadecimal digits.
fn read_digits(digits: &[u8]) -> Option<u64>
    ensures { result ≡ parsed_number digits.now }
{
    if digits.len() >= 8 {
        return read_long(digits);
    }
    if digits.is_empty() {
        return None;
    }
    let mut number = 0;
    for digit in digits {
        let value = char::from(*digit).to_digit(16)?;
        number = number * 16 + u64::from(value);
    }
    Some(number)
}

/// Returns the index that a text parses as. H3's `stringToH3` also accepts text after the digits.
///
/// Spaces, tabs and carriage returns at both ends are dropped, then an optional `0x` or `0X`. What
/// is left must be 1 to 16 hexadecimal digits of either case. The index need not be valid.
///
/// # Errors
///
/// `Failed` for any other text.
pub fn read_index(bytes: &[u8]) -> Result<u64, H3Error>
    ensures parsed { result_ok result ≡ parsed_index bytes.now }
    ensures refused { IfErr result (λ e. e ≡ H3Error.Failed) }
{
    if let Some(index) = read_trimmed(bytes) {
        return Ok(index);
    }
    let text = without_trailing_blanks(without_leading_blanks(bytes));
    read_digits(without_prefix(text)).ok_or(H3Error::Failed)
}

/// How many of the sixteen digits of an index are zeros in front of another digit.
#[inline(always)]
fn zeros_in_front(index: u64) -> u32
    ensures few { result ≤ 15 }
    ensures small { index < 16 ^ (16 - result) }
    ensures rest { without_leading_zeros (last_digits 16 16 index)
        ≡ last_digits 16 (16 - result) index }
{
    if index < 16 {
        15
    } else {
        index.leading_zeros() / 4
    }
}

/// The bytes as a text.
fn text_from(bytes: &[u8; 16]) -> ArrayString<16>
    requires { IsAscii bytes.now }
    ensures { result.bytes ≡ bytes.now }
{
    let mut text = ArrayString::new();
    // A test of the bytes would take longer than all else that `write_index` does.
    text.push_str(unsafe { str::from_utf8_unchecked(bytes) });
    text
}

/// Sixteen bytes, the text of an index and then zeros (`0`), and the length of the text, 1 to 16.
#[inline(always)]
pub fn index_bytes(index: u64) -> ([u8; 16], usize)
    ensures some { 0 < result.1 }
    ensures within { result.1 ≤ 16 }
    ensures text { take result.1 result.0 ≡ text_of index }
    ensures rest { drop result.1 result.0 ≡ replicate (16 - result.1) 48 }
    ensures ascii { IsAscii result.0 }
{
    let zeros = zeros_in_front(index);
    // The zeros are shifted out and all sixteen digits put at once, which
    // is faster than a copy of some.
    (write_sixteen(index << (4 * zeros)), 16 - zeros as usize)
}

/// The text of an index, as H3's `h3ToString` writes it: lower-case hexadecimal
/// without leading zeros, `0` for 0.
pub fn write_index(index: u64) -> ArrayString<16>
    ensures text { result.bytes ≡ text_of index }
    ensures parses { parsed_index (text_of index) ≡ Some index }
{
    let (bytes, count) = index_bytes(index);
    let mut text = text_from(&bytes);
    text.truncate(count);
    text
}
