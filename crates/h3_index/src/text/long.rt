//! Digits of either case, read at once.

ghost use Rattle.std.specs.Prelude.{◌≡◌, ◌≤◌, ◌++◌, ◌∷◌, [], length, true, Some, IfSome};
ghost use Rattle.std.specs.Char.{is_digit};
ghost use Rattle.std.specs.List.{list_all};
ghost use Rattle.h3_index.specs.Text.{parsed_index, parsed_number, without_prefix};

use super::lanes::lowered;
use super::plain::{ends, read_ends};
use super::without_prefix;

/// The number that 8 to 16 hexadecimal digits of either case stand for; none for all other bytes, also
/// for fewer digits.
#[inline(always)]
pub(crate) fn read_long(bytes: &[u8]) -> Option<u64>
    ensures long { 8 ≤ length bytes.now → result ≡ parsed_number bytes.now }
    ensures parsed { IfSome result (λ number. parsed_number bytes.now ≡ Some number) }
{
    if bytes.len() < 8 || bytes.len() > 16 {
        return None;
    }
    read_ends(lowered(ends(bytes)), bytes.len() - 8)
}

/// The index that a text without blanks stands for, 8 to 16 hexadecimal digits of either case, with or
/// without `0x` or `0X` in front; none for all other bytes, which may be the text of an index in another
/// form. A carriage return after it makes no difference.
#[inline(always)]
pub fn read_trimmed(bytes: &[u8]) -> Option<u64>
    ensures long { 8 ≤ length (without_prefix bytes.now) →
        result ≡ parsed_number (without_prefix bytes.now) }
    ensures parsed { IfSome result (λ index. parsed_index bytes.now ≡ Some index) }
    ensures letters { IfSome result (λ _. list_all (λ b. is_digit b 36) bytes.now ≡ true) }
    ensures returned { IfSome result (λ index. parsed_index (bytes.now ++ 13 ∷ []) ≡ Some index) }
{
    read_long(without_prefix(bytes))
}
