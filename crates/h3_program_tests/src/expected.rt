//! How a test fails. A call of these is proved sooner than an assertion in the test itself.

use std::process::Abort;

/// Fails, and says of what, unless it holds.
pub fn expect(rt: &impl Abort, what: &str, holds: bool) {
    assert!(rt; holds, "{what}");
}

/// Fails, and tells the row, unless it holds.
pub fn expect_row(rt: &impl Abort, row: usize, holds: bool) {
    assert!(rt; holds, "row {row}");
}

/// Fails, and says of how many interruptions, unless it holds.
pub fn expect_times(rt: &impl Abort, times: u8, holds: bool) {
    assert!(rt; holds, "{times} times");
}
