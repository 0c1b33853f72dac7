//! How a test fails. A test that calls these is proved sooner than one with assertions of its own.

use std::process::Abort;

/// Fails, and says of what, unless it holds.
pub fn expect(rt: &impl Abort, what: &str, holds: bool) {
    assert!(rt; holds, "{what}");
}

/// Fails, and tells the row, unless it holds.
pub fn expect_row(rt: &impl Abort, row: usize, holds: bool) {
    assert!(rt; holds, "row {row}");
}
