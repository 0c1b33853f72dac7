//! The powers of 10: what a digit after the point is worth in units of 10^-18.

ghost use Rattle.std.specs.Prelude.{◌≡◌, ◌^◌, ◌≤◌};

/// The powers of 10 up to that of the most digits.
const TENS: [u64; 19] = [
    1,
    10,
    100,
    1_000,
    10_000,
    100_000,
    1_000_000,
    10_000_000,
    100_000_000,
    1_000_000_000,
    10_000_000_000,
    100_000_000_000,
    1_000_000_000_000,
    10_000_000_000_000,
    100_000_000_000_000,
    1_000_000_000_000_000,
    10_000_000_000_000_000,
    100_000_000_000_000_000,
    1_000_000_000_000_000_000,
];

/// 10 to the power of a number of digits.
#[inline]
pub(crate) fn power_of_ten(digits: usize) -> u64
    requires { digits ≤ 18 }
    ensures { result ≡ 10 ^ digits }
{
    TENS[digits]
}
