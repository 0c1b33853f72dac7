//! Random numbers, whose sums are compared with integers of 128 bits in units of 10^-18.

use crate::expected::{expect_row, is_written, with_text};
use h3_numbers::Sum;

/// A source of random numbers: Marsaglia's xorshift.
#[derive(Drop)]
struct Random {
    state: u64,
}

impl Random {
    /// A number below a bound that is not 0.
    fn below(&mut self, bound: u64) -> u64 {
        self.state ^= self.state << 13;
        self.state ^= self.state >> 7;
        self.state ^= self.state << 17;
        self.state % bound.max(1)
    }
}

/// A number as a text, and in units of 10^-18.
#[derive(Drop)]
struct Drawn {
    text: [u8; 40],
    len: usize,
    units: i128,
}

impl Drawn {
    fn push(&mut self, byte: u8) {
        if self.len < 40 {
            self.text[self.len] = byte;
            self.len += 1;
        }
    }

    /// Appends so many random digits.
    fn push_digits(&mut self, random: &mut Random, count: u64) {
        for _ in 0..count {
            let digit = random.below(10).min(9) as u8;
            self.push(b'0' + digit);
            self.units = self.units.wrapping_mul(10).wrapping_add(digit as i128);
        }
    }
}

/// Draws a number: a sign or none, one to eighteen digits, and as many or none after a point.
fn draw(random: &mut Random) -> Drawn {
    let mut drawn = Drawn {
        text: [0; 40],
        len: 0,
        units: 0,
    };
    let sign = random.below(3);
    if sign > 0 {
        drawn.push(if sign == 1 { b'+' } else { b'-' });
    }
    let before = random.below(18).min(17) + 1;
    drawn.push_digits(random, before);
    let after = random.below(19);
    if after > 0 {
        drawn.push(b'.');
        drawn.push_digits(random, after);
    }
    for _ in after..18 {
        drawn.units = drawn.units.wrapping_mul(10);
    }
    if sign == 2 {
        drawn.units = drawn.units.wrapping_neg();
    }
    drawn
}

/// Puts a byte before a place, and returns where it is.
fn put_before(text: &mut [u8; 64], place: usize, byte: u8) -> usize {
    if place == 0 || place > 64 {
        return 0;
    }
    text[place - 1] = byte;
    place - 1
}

/// Puts units at the end of the bytes, from the last digit on, and returns where they begin.
fn put_units(text: &mut [u8; 64], units: i128) -> usize {
    let mut left = units.unsigned_abs();
    let mut place = 64;
    for digits in 0..40usize {
        let digit = (left % 10) as u8;
        if digits == 18 && place < 64 {
            place = put_before(text, place, b'.');
        }
        let is_put = if digits < 18 {
            digit > 0 || place < 64
        } else {
            digits == 18 || left > 0
        };
        if is_put {
            place = put_before(text, place, b'0' + digit);
        }
        left /= 10;
    }
    if units < 0 {
        place = put_before(text, place, b'-');
    }
    place
}

/// Whether the sum of so many random numbers is that of their units.
fn is_sum_of_units(random: &mut Random, count: u64) -> bool {
    let mut sum = Sum::new();
    let mut units: i128 = 0;
    for _ in 0..count {
        let drawn = draw(random);
        units = units.wrapping_add(drawn.units);
        match with_text(sum, &drawn.text[..drawn.len.min(40)]) {
            Some(more) => sum = more,
            None => return false,
        }
    }
    let mut text = [0; 64];
    let start = put_units(&mut text, units).min(64);
    is_written(sum, &text[start..])
}

#[test]
fn sums_of_random_numbers_are_those_of_integers(rt: HostRuntime) {
    let mut random = Random {
        state: 88172645463325252,
    };
    for row in 0..400usize {
        expect_row(
            &rt,
            row,
            is_sum_of_units(&mut random, (row % 40) as u64 + 1),
        );
    }
}
