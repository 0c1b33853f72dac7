//! Indexes in the plain form, read at once.

ghost use Rattle.std.specs.Prelude.{◌≡◌, ◌+◌, ◌-◌, ◌≤◌, ◌++◌, ℕ, List, length, take, drop, true, Some, IfSome};
ghost use Rattle.std.specs.Char.{is_digit};
ghost use Rattle.std.specs.List.{list_all};
ghost use Rattle.h3_index.specs.Text.{plain_index, parsed_index};

use super::lanes::{read_sixteen, sixteen_lanes};
use std::simd::u8x16;

/// The first and the last eight bytes; of fewer than 16, those in the middle twice.
#[inline(always)]
pub(crate) fn ends(bytes: &[u8]) -> u8x16
    requires { 8 ≤ length bytes.now }
    ensures { result ≡ take 8 bytes.now ++ drop (length bytes.now - 8) bytes.now }
{
    sixteen_lanes(&bytes[..8], &bytes[bytes.len() - 8..])
}

/// The number that 8 and some more hexadecimal digits in lower case stand for, up to 16, by the first and
/// the last eight of them; none for other bytes.
#[inline(always)]
pub(crate) fn read_ends(ends: u8x16, more: usize) -> Option<u64>
    requires lanes { length ends ≡ 16 }
    requires few { more ≤ 8 }
    ensures { (bytes : List ℕ) → length bytes ≡ 8 + more →
        ends ≡ take 8 bytes ++ drop more bytes → result ≡ plain_index bytes }
{
    let both = read_sixteen(ends)?;
    Some(both >> 32 << (4 * more) | both & 0xffff_ffff)
}

/// The number that 8 to 16 hexadecimal digits in lower case stand for; none for all other bytes,
/// which may be the text of an index in another form.
#[inline(always)]
pub fn read_plain(bytes: &[u8]) -> Option<u64>
    ensures is { result ≡ plain_index bytes.now }
    ensures parsed { IfSome result (λ index. parsed_index bytes.now ≡ Some index) }
    ensures digits { IfSome result (λ _. list_all (λ b. is_digit b 16) bytes.now ≡ true) }
{
    if bytes.len() < 8 || bytes.len() > 16 {
        return None;
    }
    read_ends(ends(bytes), bytes.len() - 8)
}
