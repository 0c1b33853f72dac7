//! The carry tables: what each digit and each direction add up to.
//!
//! A row stands for a direction at a resolution of a class: rows 1 to 6 for the directions in the
//! order of their digits at the even resolutions, rows 7 to 12 for them at the odd ones, and row 0
//! for nothing that is added. A column stands for a digit, 0 to 6; column 7 makes each row eight
//! numbers long, so that a number's place is found without a product.

/// What is left and what is carried, by the row and the digit.
pub(crate) struct Carries {
    /// The digit that is left.
    pub(crate) left: [[u8; 8]; 13],

    /// The row of what is carried, at the next coarser resolution.
    pub(crate) carried: [[u8; 8]; 13],
}

/// The sums of all rows and digits.
pub(crate) static CARRIES: Carries = Carries {
    left: [
        [0, 1, 2, 3, 4, 5, 6, 7],
        [1, 2, 3, 4, 5, 6, 0, 7],
        [2, 3, 4, 5, 6, 0, 1, 7],
        [3, 4, 5, 6, 0, 1, 2, 7],
        [4, 5, 6, 0, 1, 2, 3, 7],
        [5, 6, 0, 1, 2, 3, 4, 7],
        [6, 0, 1, 2, 3, 4, 5, 7],
        [1, 4, 3, 6, 5, 2, 0, 7],
        [2, 3, 1, 4, 6, 0, 5, 7],
        [3, 6, 4, 5, 0, 1, 2, 7],
        [4, 5, 6, 0, 2, 3, 1, 7],
        [5, 2, 0, 1, 3, 6, 4, 7],
        [6, 0, 5, 2, 1, 4, 3, 7],
    ],
    carried: [
        [0, 0, 0, 0, 0, 0, 0, 0],
        [0, 7, 0, 9, 0, 7, 0, 0],
        [0, 0, 8, 8, 0, 0, 12, 0],
        [0, 9, 8, 9, 0, 0, 0, 0],
        [0, 0, 0, 0, 10, 11, 10, 0],
        [0, 7, 0, 0, 11, 11, 0, 0],
        [0, 0, 12, 0, 10, 0, 12, 0],
        [0, 1, 0, 1, 0, 5, 0, 0],
        [0, 0, 2, 3, 0, 0, 2, 0],
        [0, 1, 3, 3, 0, 0, 0, 0],
        [0, 0, 0, 0, 4, 4, 6, 0],
        [0, 5, 0, 0, 4, 5, 0, 0],
        [0, 0, 2, 0, 6, 0, 6, 0],
    ],
};
