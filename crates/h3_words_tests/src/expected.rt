//! How a test fails. A call of these is proved sooner than an assertion in the test itself.

use std::process::Abort;

/// Fails, and says of what, unless it holds.
pub fn expect(rt: &impl Abort, what: &str, holds: bool) {
    assert!(rt; holds, "{what}");
}

/// The same of what is said by two texts.
pub fn expect_of(rt: &impl Abort, what: &str, which: &str, holds: bool) {
    assert!(rt; holds, "{what} {which}");
}

/// Fails unless of these rows none was wrong: the first wrong one is told.
pub fn expect_all(rt: &impl Abort, first_wrong: usize, rows: usize) {
    assert!(rt; first_wrong == rows, "row {first_wrong}");
}
