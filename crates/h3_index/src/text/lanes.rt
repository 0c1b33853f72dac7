//! Sixteen hexadecimal digits at once, each in a lane of a vector.

ghost use Rattle.std.specs.Prelude.{◌≡◌, ◌++◌, ◌∷◌, [], length, map, true};
ghost use Rattle.std.specs.Char.{digit_char, digit_value, to_ascii_lowercase};
ghost use Rattle.std.specs.Int.Digits.{number_from_digits, AllBelowBase};
ghost use Rattle.std.specs.List.{list_all};
ghost use Rattle.h3_index.specs.Digits.{last_digits};
ghost use Rattle.h3_index.specs.Text.{is_lower_digit, plain_index};

use std::simd::prelude::*;
use std::simd::{u8x8, u8x16, u64x2};

/// The values of sixteen hexadecimal digits in lower case; the lane of any other byte is 16 or more.
#[inline(always)]
fn values(bytes: u8x16) -> u8x16
    requires { length bytes ≡ 16 }
    ensures lanes { length result ≡ 16 }
    ensures digits { list_all is_lower_digit bytes ≡ true → result ≡ map digit_value bytes }
    ensures others { AllBelowBase 16 result → list_all is_lower_digit bytes ≡ true }
{
    // Counted from the byte after `9`, the figures are the last ten bytes, 246 and up. So with 6 less
    // all others are below 240, and with 16 more, which wraps, the figures are 0 to 9 and all others
    // 16 or more.
    let figures = bytes - u8x16::splat(b'9' + 1);
    let figures = figures.saturating_sub(u8x16::splat(6)) + u8x16::splat(16);
    // Counted from `a`, the letters are the first six bytes. With 10 more all others are 16 or more,
    // as none is left so large that it wraps.
    let letters = bytes - u8x16::splat(b'a');
    let letters = letters.simd_min(u8x16::splat(128)) + u8x16::splat(10);
    figures.simd_min(letters)
}

/// Whether each lane is below 16.
#[inline(always)]
fn are_below_sixteen(lanes: u8x16) -> bool
    requires { length lanes ≡ 16 }
    ensures below { result ≡ true → AllBelowBase 16 lanes }
    ensures back { AllBelowBase 16 lanes → result ≡ true }
{
    (lanes & u8x16::splat(0xf0)).reduce_or() == 0
}

/// The number of sixteen hexadecimal digits, the highest first.
#[inline(always)]
fn joined(digits: u8x16) -> u64
    requires lanes { length digits ≡ 16 }
    requires digits { AllBelowBase 16 digits }
    ensures { result ≡ number_from_digits 16 digits }
{
    // The even digits are gathered in one word and the odd ones in another, each in a byte.
    let apart = digits.swizzle([14, 12, 10, 8, 6, 4, 2, 0, 15, 13, 11, 9, 7, 5, 3, 1]);
    let halves = u64x2::from_le_bytes(apart).to_array();
    halves[0] * 16 + halves[1]
}

/// The number that sixteen hexadecimal digits in lower case stand for; none for other bytes.
#[inline(always)]
pub(crate) fn read_sixteen(bytes: u8x16) -> Option<u64>
    requires { length bytes ≡ 16 }
    ensures { result ≡ plain_index bytes }
{
    let digits = values(bytes);
    if are_below_sixteen(digits) {
        Some(joined(digits))
    } else {
        None
    }
}

/// Eight bytes and eight others, each in a lane.
#[inline(always)]
pub(crate) fn sixteen_lanes(first: &[u8], last: &[u8]) -> u8x16
    requires first { length first.now ≡ 8 }
    requires last { length last.now ≡ 8 }
    ensures { result ≡ first.now ++ last.now }
{
    let (first, last) = (u8x8::from_slice(first), u8x8::from_slice(last));
    first.shuffle(last, [0, 1, 2, 3, 4, 5, 6, 7, 8, 9, 10, 11, 12, 13, 14, 15])
}

/// The bytes with the letters `A` to `Z` in lower case.
#[inline(always)]
pub(crate) fn lowered(bytes: u8x16) -> u8x16
    requires { length bytes ≡ 16 }
    ensures { result ≡ map to_ascii_lowercase bytes }
{
    // Counted from `A`, the capitals are the first 26 bytes.
    let capitals = (bytes - u8x16::splat(b'A')).simd_lt(u8x16::splat(26));
    bytes + capitals.select(u8x16::splat(32), u8x16::splat(0))
}

/// The sixteen hexadecimal digits of a number, the highest first, each in a lane.
#[inline(always)]
fn apart(number: u64) -> u8x16
    ensures { result ≡ last_digits 16 16 number }
{
    let low = number & 0x0f0f_0f0f_0f0f_0f0f;
    let high = number >> 4 & 0x0f0f_0f0f_0f0f_0f0f;
    let bytes = u64x2::from_array([high, low]).to_le_bytes();
    bytes.swizzle([7, 15, 6, 14, 5, 13, 4, 12, 3, 11, 2, 10, 1, 9, 0, 8])
}

/// Sixteen hexadecimal digits as characters in lower case.
#[inline(always)]
fn lettered(digits: u8x16) -> u8x16
    requires lanes { length digits ≡ 16 }
    requires digits { AllBelowBase 16 digits }
    ensures { result ≡ map digit_char digits }
{
    u8x16::from_array(*b"0123456789abcdef").swizzle_dyn(digits)
}

/// The sixteen hexadecimal digits of a number, in lower case.
#[inline(always)]
pub(crate) fn write_sixteen(number: u64) -> [u8; 16]
    ensures { result ≡ map digit_char (last_digits 16 16 number) }
{
    lettered(apart(number)).to_array()
}

/// The last fifteen hexadecimal digits of a number, in lower case, and a line feed, each in a lane.
#[inline(always)]
pub(crate) fn line_lanes(number: u64) -> u8x16
    ensures { result ≡ map digit_char (last_digits 16 15 number) ++ 10 ∷ [] }
{
    let digits = lettered(apart(number << 4));
    digits.shuffle(
        u8x16::splat(b'\n'),
        [0, 1, 2, 3, 4, 5, 6, 7, 8, 9, 10, 11, 12, 13, 14, 31],
    )
}
