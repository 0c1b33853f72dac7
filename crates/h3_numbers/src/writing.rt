//! Texts of sums.

ghost use Rattle.std.specs.Prelude.{◌≡◌, ◌+◌, ◌*◌, ◌^◌, ◌<◌, ◌≤◌, ◌++◌, [], true, Some, if◌then◌else◌, codes, length, take, pos, ◌+ℤ◌, ◌*ℤ◌, unsigned_abs};
ghost use Rattle.h3_numbers.specs.Reading.{parsed_decimal, signed};
ghost use Rattle.h3_numbers.specs.Sum.{sum_units};
ghost use Rattle.h3_numbers.specs.Writing.{fraction_text, last_digits, size_text, sum_text, without_last_zeros};

use crate::laws::sums_read_back;
use crate::sum::Sum;
use itoa::Buffer;

/// The units of 10^-18 in 1.
const UNITS: i128 = 1_000_000_000_000_000_000;

/// Room for the text of any sum, in bytes.
pub const MAX_SUM_LEN: usize = 64;

/// A sum by its sign, its digits before the point, and those after it in units of 10^-18.
#[derive(Clone, Copy)]
struct Size {
    negative: bool,
    whole: u128,
    fraction: u64,
}

/// The whole part and the rest of a sum of fractions, both with its sign.
fn divided(fraction: i128) -> (i128, i128)
    requires { unsigned_abs fraction < 10 ^ 37 }
    ensures units { (result.0 *ℤ pos (10 ^ 18)) +ℤ result.1 ≡ fraction }
    ensures carry { unsigned_abs result.0 < 10 ^ 19 }
    ensures rest { unsigned_abs result.1 < 10 ^ 18 }
{
    (fraction / UNITS, fraction % UNITS)
}

/// The whole part of a sum, with what its fraction carries, and the rest of the fraction.
fn carried(sum: Sum) -> (i128, i128)
    ensures units { (result.0 *ℤ pos (10 ^ 18)) +ℤ result.1 ≡ sum_units sum }
    ensures whole { unsigned_abs result.0 < 10 ^ 38 }
    ensures rest { unsigned_abs result.1 < 10 ^ 18 }
{
    let (carry, rest) = divided(sum.fraction);
    (sum.whole + carry, rest)
}

/// The sign and the size of a whole part and a fraction, whose signs may differ.
fn size_of(whole: i128, rest: i128) -> Size
    requires whole { unsigned_abs whole < 10 ^ 38 }
    requires rest { unsigned_abs rest < 10 ^ 18 }
    ensures units { signed result.negative (result.whole * 10 ^ 18 + result.fraction)
        ≡ (whole *ℤ pos (10 ^ 18)) +ℤ rest }
    ensures fraction { result.fraction < 10 ^ 18 }
    ensures some { result.negative ≡ true → 0 < result.whole * 10 ^ 18 + result.fraction }
    ensures whole { result.whole < 10 ^ 39 }
{
    if whole > 0 && rest < 0 {
        return Size {
            negative: false,
            whole: (whole - 1).unsigned_abs(),
            fraction: (rest + UNITS) as u64,
        };
    }
    if whole < 0 && rest > 0 {
        return Size {
            negative: true,
            whole: (whole + 1).unsigned_abs(),
            fraction: (UNITS - rest) as u64,
        };
    }
    Size {
        negative: whole < 0 || rest < 0,
        whole: whole.unsigned_abs(),
        fraction: rest.unsigned_abs() as u64,
    }
}

/// Puts bytes after the first `end`, and returns where they end.
fn put(text: &mut [u8; MAX_SUM_LEN], end: usize, bytes: &[u8]) -> usize
    requires { end + length bytes.now ≤ 64 }
    ensures end { result ≡ end + length bytes.now }
    ensures put { take result text.new ≡ take end text.old ++ bytes.now }
{
    let last = end + bytes.len();
    text[end..last].copy_from_slice(bytes);
    last
}

/// The last eighteen digits of a number.
fn last_digits(number: u64) -> [u8; 18]
    ensures { result ≡ last_digits 18 number }
{
    let mut digits = [b'0'; 18];
    let mut left = number;
    let mut place = 18;
    while place > 0 {
        place -= 1;
        digits[place] = b'0' + (left % 10) as u8;
        left /= 10;
    }
    digits
}

/// The bytes without the zeros at their end.
fn without_last_zeros(bytes: &[u8]) -> &[u8]
    ensures { result.now ≡ without_last_zeros bytes.now }
{
    let mut rest = bytes;
    while let [before @ .., last] = rest {
        if *last != b'0' {
            break;
        }
        rest = before;
    }
    rest
}

/// Puts a point and the digits that a fraction needs; nothing for 0.
fn put_fraction(text: &mut [u8; MAX_SUM_LEN], end: usize, fraction: u64) -> usize
    requires { end + 19 ≤ 64 }
    ensures end { result ≤ end + 19 }
    ensures put { take result text.new ≡ take end text.old ++ fraction_text fraction }
{
    if fraction == 0 {
        return end;
    }
    let after_point = put(text, end, b".");
    let digits = last_digits(fraction);
    put(text, after_point, without_last_zeros(&digits))
}

/// Puts the digits of a size, and after a point those that its fraction needs.
fn put_size(text: &mut [u8; MAX_SUM_LEN], end: usize, size: Size) -> usize
    requires room { end + 59 ≤ 64 }
    requires fraction { size.fraction < 10 ^ 18 }
    ensures end { result ≤ 64 }
    ensures put { take result text.new
        ≡ take end text.old ++ size_text (size.whole * 10 ^ 18 + size.fraction) }
{
    let mut buffer = Buffer::new();
    let after_whole = put(text, end, buffer.format(size.whole).as_bytes());
    put_fraction(text, after_whole, size.fraction)
}

/// Puts a `-` in front if a sum is below 0, and returns where it ends.
fn put_sign(text: &mut [u8; MAX_SUM_LEN], negative: bool) -> usize
    ensures end { result ≤ 1 }
    ensures put { take result text.new ≡ (if negative then codes "-" else []) }
{
    if negative {
        return put(text, 0, b"-");
    }
    0
}

/// Writes a sum at the beginning of `text`, and returns where it ends.
///
/// It is written with a `-` if it is below 0, without a `.` if it is whole, and else with as many
/// digits after the `.` as it needs and no more.
pub fn write_sum(sum: Sum, text: &mut [u8; MAX_SUM_LEN]) -> usize
    ensures within { result ≤ 64 }
    ensures text { take result text.new ≡ sum_text (sum_units sum) }
    ensures reads_back { parsed_decimal (take result text.new) ≡ Some (sum_units sum) }
{
    sums_read_back();
    let (whole, rest) = carried(sum);
    let size = size_of(whole, rest);
    let after_sign = put_sign(text, size.negative);
    put_size(text, after_sign, size)
}
