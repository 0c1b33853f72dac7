//! How a test fails, and the rows that it reads.

use h3_numbers::{MAX_SUM_LEN, Sum, read_number, write_sum};
use std::process::Abort;

/// Fails, and says of what, unless it holds.
pub fn expect(rt: &impl Abort, what: &str, holds: bool) {
    assert!(rt; holds, "{what}");
}

/// Fails, and tells the row, unless it holds.
pub fn expect_row(rt: &impl Abort, row: usize, holds: bool) {
    assert!(rt; holds, "row {row}");
}

/// Whether a sum is written so.
pub fn is_written(sum: Sum, expected: &[u8]) -> bool {
    let mut text = [b'#'; MAX_SUM_LEN];
    let end = write_sum(sum, &mut text);
    &text[..end] == expected
}

/// The sum with the number in a text more; `None` if the text is no number.
pub fn with_text(sum: Sum, text: &[u8]) -> Option<Sum> {
    let number = read_number(text)?;
    if sum.count() < 1 << 63 {
        Some(sum.plus(number))
    } else {
        None
    }
}

/// The sum of the numbers in some texts; `None` if one is no number.
pub fn sum_of(texts: &[&[u8]]) -> Option<Sum> {
    let mut sum = Sum::new();
    for text in texts {
        sum = with_text(sum, text)?;
    }
    Some(sum)
}

/// The sum of two sums, if they have not too many numbers.
pub fn merged(first: Sum, second: Sum) -> Option<Sum> {
    if first.count() <= 1 << 62 && second.count() <= 1 << 62 {
        Some(first.merge(second))
    } else {
        None
    }
}
