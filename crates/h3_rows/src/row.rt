//! A row and its ending.

ghost use Rattle.std.specs.Prelude.{◌≡◌, ◌<◌, ◌^◌};
ghost use Rattle.h3_rows.specs.Row.{row_body};

use h3_index::Cell;
use h3_numbers::Number;

/// A row: its bytes without its ending, and how many carriage returns are before the line feed.
#[derive(Clone, Copy, Drop)]
pub struct Row<'r> {
    /// The row itself, which does not end in a carriage return.
    pub body: &'r [u8],

    /// The carriage returns of its ending.
    pub returns: usize,

    ghost bare: { row_body body.now ≡ body.now },
    ghost few: { returns < 2 ^ 63 },
}

/// A row, and its cell.
#[derive(Clone, Copy, Drop)]
pub struct CellRow<'r> {
    /// The row.
    pub row: Row<'r>,

    /// Its cell.
    pub cell: Cell,

    /// Where its cell's field ends.
    pub end: usize,
}

/// A row's cell, its second field, and its size.
#[derive(Clone, Copy, Drop)]
pub struct EntryRow<'r> {
    /// The cell.
    pub cell: Cell,

    /// The second field, without the blanks at both ends.
    pub field: &'r [u8],

    /// The number in it, if that is known.
    pub number: Option<Number>,

    /// How many bytes the row has, with its carriage returns.
    pub size: usize,
}
