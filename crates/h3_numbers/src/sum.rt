//! Sums of numbers.

ghost use Rattle.std.specs.Prelude.{◌*◌, ◌^◌, ◌≤◌, unsigned_abs};

use crate::number::Number;

/// How many numbers were added up, and their exact sum.
///
/// The parts before and after the points are added up apart, so nothing is carried before the sum
/// is written. With at most 2^63 numbers neither leaves 128 bits.
#[derive(Clone, Copy, Debug)]
pub struct Sum {
    /// How many numbers were added.
    count: u64,

    /// The sum of the digits before the points.
    pub(crate) whole: i128,

    /// The sum of the digits after them, in units of 10^-18.
    pub(crate) fraction: i128,

    ghost count_fits: { count ≤ 2 ^ 63 },
    ghost whole_fits: { unsigned_abs whole ≤ 10 ^ 18 * count },
    ghost fraction_fits: { unsigned_abs fraction ≤ 10 ^ 18 * count },
}

impl Sum {
    ghost use Rattle.std.specs.Prelude.{◌≡◌, ◌+◌, ◌<◌, pos, ◌+ℤ◌};
    ghost use Rattle.h3_numbers.specs.Number.{number_units};
    ghost use Rattle.h3_numbers.specs.Sum.{sum_count, sum_units};

    /// The sum of no numbers.
    pub fn new() -> Sum
        ensures count { sum_count result ≡ 0 }
        ensures units { sum_units result ≡ pos 0 }
    {
        Sum {
            count: 0,
            whole: 0,
            fraction: 0,
        }
    }

    /// How many numbers were added.
    pub fn count(self) -> u64
        ensures is { result ≡ sum_count self }
        ensures fits { result ≤ 2 ^ 63 }
    {
        self.count
    }

    /// The sum with one number more.
    pub fn plus(self, number: Number) -> Sum
        requires { sum_count self < 2 ^ 63 }
        ensures count { sum_count result ≡ sum_count self + 1 }
        ensures units { sum_units result ≡ sum_units self +ℤ number_units number }
    {
        Sum {
            count: self.count + 1,
            whole: self.whole + number.whole as i128,
            fraction: self.fraction + number.fraction as i128,
        }
    }

    /// The sum of the numbers of two sums.
    pub fn merge(self, other: Sum) -> Sum
        requires { sum_count self + sum_count other ≤ 2 ^ 63 }
        ensures count { sum_count result ≡ sum_count self + sum_count other }
        ensures units { sum_units result ≡ sum_units self +ℤ sum_units other }
    {
        Sum {
            count: self.count + other.count,
            whole: self.whole + other.whole,
            fraction: self.fraction + other.fraction,
        }
    }
}
