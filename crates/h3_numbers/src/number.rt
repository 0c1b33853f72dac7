//! Decimal numbers.

ghost use Rattle.std.specs.Prelude.{◌^◌, ◌<◌, unsigned_abs};

/// A decimal number of up to eighteen digits before the point and up to eighteen after it, exactly.
#[derive(Clone, Copy, Debug)]
pub struct Number {
    /// The digits before the point.
    pub(crate) whole: i64,

    /// The digits after it, in units of 10^-18.
    pub(crate) fraction: i64,

    ghost whole_is_short: { unsigned_abs whole < 10 ^ 18 },
    ghost fraction_is_short: { unsigned_abs fraction < 10 ^ 18 },
}

impl Number {
    ghost use Rattle.std.specs.Prelude.{◌≡◌, pos};
    ghost use Rattle.h3_numbers.specs.Number.{number_units};

    /// The number 0.
    pub fn zero() -> Number
        ensures { number_units result ≡ pos 0 }
    {
        Number {
            whole: 0,
            fraction: 0,
        }
    }
}
