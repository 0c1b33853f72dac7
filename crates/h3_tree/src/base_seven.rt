//! Octal digits read in base 7.

ghost use Rattle.std.specs.Prelude.{◌≡◌, ◌^◌, ◌<◌, ◌≤◌, ℕ, List, length};
ghost use Rattle.std.specs.Int.Digits.{AllBelowBase, number_from_digits};

/// The octal digits of a number, at most sixteen, read in base 7.
#[inline(always)]
pub(crate) fn in_base_seven(digits: u64) -> u64
    requires { digits < 2 ^ 48 }
    ensures { (ds : List ℕ) → AllBelowBase 8 ds → length ds ≤ 16
        → number_from_digits 8 ds ≡ digits → result ≡ number_from_digits 7 ds }
{
    // Two digits are read at a time, in all places at once, then four, eight, and all: each number
    // is too large by its upper part for each 1 by which the base is smaller.
    let pairs = digits - (digits >> 3 & 0o07_07_07_07_07_07_07_07);
    let fours = pairs - (64 - 49) * (pairs >> 6 & 0o0077_0077_0077_0077);
    let eights = fours - (4096 - 2401) * (fours >> 12 & 0o0000_7777_0000_7777);
    eights - (16_777_216 - 5_764_801) * (eights >> 24)
}
