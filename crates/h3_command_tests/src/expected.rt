//! How a test fails. A test that calls these is proved sooner than one with assertions of its own.

use std::process::Abort;

/// Fails, and says of what, unless it holds.
pub fn expect(rt: &impl Abort, what: &str, holds: bool) {
    assert!(rt; holds, "{what}");
}

/// Fails, and says of what and at which number, unless it holds.
pub fn expect_at(rt: &impl Abort, what: &str, number: u64, holds: bool) {
    assert!(rt; holds, "{what} {number}");
}

/// Fails, and tells the row, unless it holds.
pub fn expect_row(rt: &impl Abort, row: usize, holds: bool) {
    assert!(rt; holds, "row {row}");
}

/// Fails, and tells the rows of the function and of the list, unless it holds.
pub fn expect_pair(rt: &impl Abort, row: usize, place: usize, holds: bool) {
    assert!(rt; holds, "function {row}, list {place}");
}

/// Fails, and tells the resolution, unless it holds.
pub fn expect_res(rt: &impl Abort, res: i32, holds: bool) {
    assert!(rt; holds, "{res}");
}

/// Fails unless of these rows none was wrong: the first wrong one is told.
pub fn expect_all(rt: &impl Abort, first_wrong: usize, rows: usize) {
    assert!(rt; first_wrong == rows, "row {first_wrong}");
}
