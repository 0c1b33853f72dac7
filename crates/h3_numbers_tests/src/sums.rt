//! Sums in any order and in parts, and how they are written.

use crate::expected::{expect, expect_row, is_written, merged, sum_of, with_text};
use h3_numbers::{Number, Sum, read_number};
use std::alloc::AllocError;

/// Lists of numbers, and the text of the sum of each.
static SUMS: [(&[&[u8]], &[u8]); 23] = [
    (&[], b"0"),
    (&[b"0.1", b"0.2", b"-0.3"], b"0"),
    (&[b"1.50", b"2"], b"3.5"),
    (&[b"1.50", b"2", b"-0.5"], b"3"),
    (&[b"1", b"2"], b"3"),
    (&[b"5", b"-5"], b"0"),
    (&[b"-1", b"-2", b"4"], b"1"),
    (&[b"1", b"-0.25"], b"0.75"),
    (&[b"-1", b"0.25"], b"-0.75"),
    (&[b"3", b"-0.5"], b"2.5"),
    (&[b"-3", b"0.5"], b"-2.5"),
    (&[b"-0.5", b"-0.75"], b"-1.25"),
    (&[b"0.5", b"0.75"], b"1.25"),
    (&[b"0.5", b"0.5"], b"1"),
    (&[b"-0.5", b"-0.5"], b"-1"),
    (&[b"0.25", b"-0.5"], b"-0.25"),
    (&[b"0.999999999999999999", b"0.000000000000000001"], b"1"),
    (&[b"5", b"-0.000000000000000001"], b"4.999999999999999999"),
    (&[b"-5", b"0.000000000000000001"], b"-4.999999999999999999"),
    (
        &[b"999999999999999999.5", b"999999999999999999.5"],
        b"1999999999999999999",
    ),
    (
        &[b"-999999999999999999.75", b"-999999999999999999.75"],
        b"-1999999999999999999.5",
    ),
    (
        &[b"0.3", b"0.3", b"0.3", b"0.3", b"0.3", b"0.3", b"0.3"],
        b"2.1",
    ),
    (
        &[b"19.99", b"-4.5", b"0.01", b"-15.50", b"100", b"-100.0"],
        b"0",
    ),
];

/// Whether the numbers in some texts, from the last to the first, are written so.
fn is_sum_backwards(texts: &[&[u8]], expected: &[u8]) -> bool {
    let mut sum = Some(Sum::new());
    for text in texts.iter().rev() {
        sum = match sum {
            Some(so_far) => with_text(so_far, text),
            None => None,
        };
    }
    match sum {
        Some(all) => is_written(all, expected),
        None => false,
    }
}

/// Whether the sums of the texts before a place, and of those from there on, add up to one that is
/// written so.
fn is_sum_of_parts(texts: &[&[u8]], place: usize, expected: &[u8]) -> bool {
    let (first, second) = texts.split_at(place.min(texts.len()));
    match (sum_of(first), sum_of(second)) {
        (Some(a), Some(b)) => match (merged(a, b), merged(b, a)) {
            (Some(ab), Some(ba)) => {
                ab.count() == texts.len() as u64
                    && is_written(ab, expected)
                    && is_written(ba, expected)
            }
            _ => false,
        },
        _ => false,
    }
}

#[test]
fn sums_are_exact(rt: HostRuntime) {
    for row in 0..SUMS.len() {
        let (texts, expected) = SUMS[row];
        let holds = match sum_of(texts) {
            Some(sum) => sum.count() == texts.len() as u64 && is_written(sum, expected),
            None => false,
        };
        expect_row(&rt, row, holds);
    }
}

#[test]
fn sums_are_the_same_in_another_order(rt: HostRuntime) {
    for row in 0..SUMS.len() {
        let (texts, expected) = SUMS[row];
        expect_row(&rt, row, is_sum_backwards(texts, expected));
    }
}

#[test]
fn sums_are_the_same_in_parts(rt: HostRuntime) {
    for row in 0..SUMS.len() {
        let (texts, expected) = SUMS[row];
        for place in 0..8usize {
            expect_row(&rt, row, is_sum_of_parts(texts, place, expected));
        }
    }
}

/// The sum of 2^63 numbers, each that in the text.
fn doubled(text: &[u8]) -> Option<Sum> {
    let mut sum = sum_of(&[text])?;
    for _ in 0..63 {
        sum = merged(sum, sum)?;
    }
    Some(sum)
}

/// Whether 2^63 numbers, each that in the text, have a sum that is written so.
fn doubles_to(text: &[u8], expected: &[u8]) -> bool {
    match doubled(text) {
        Some(sum) => sum.count() == 1 << 63 && is_written(sum, expected),
        None => false,
    }
}

#[test]
fn as_many_numbers_as_may_be_are_added(rt: HostRuntime) {
    expect(&rt, "halves", doubles_to(b"0.5", b"4611686018427387904"));
    expect(
        &rt,
        "the least",
        doubles_to(b"-0.000000000000000001", b"-9.223372036854775808"),
    );
    expect(
        &rt,
        "the largest",
        doubles_to(
            b"999999999999999999.999999999999999999",
            b"9223372036854775807999999999999999990.776627963145224192",
        ),
    );
    expect(
        &rt,
        "the lowest",
        doubles_to(
            b"-999999999999999999.999999999999999999",
            b"-9223372036854775807999999999999999990.776627963145224192",
        ),
    );
}

#[test]
fn no_numbers_are_0(rt: HostRuntime) {
    expect(
        &rt,
        "no numbers",
        Sum::new().count() == 0 && is_written(Sum::new(), b"0"),
    );
    let sum = Sum::new().plus(Number::zero());
    expect(&rt, "0", sum.count() == 1 && is_written(sum, b"0"));
}

/// A clone.
fn clone_of<T: Clone>(value: &T) -> Result<T, AllocError> {
    Ok(value.clone()?)
}

/// Whether the clones of a number, and of its sum, are written as the number is.
fn clones_are(text: &[u8]) -> bool {
    let Some(number) = read_number(text) else {
        return false;
    };
    match (clone_of(&number), clone_of(&Sum::new().plus(number))) {
        (Ok(one), Ok(sum)) => is_written(Sum::new().plus(one), text) && is_written(sum, text),
        _ => false,
    }
}

#[test]
fn clones_are_the_same(rt: HostRuntime) {
    expect(&rt, "clones", clones_are(b"-1.5"));
}
