//! How a table is read in which one field has a cell, and a second one a text or a number; and how far.

ghost use Rattle.std.specs.Prelude.{◌≡◌, ◌≤◌, ◌<◌, ◌+◌, ◌^◌, true, length};
ghost use Rattle.h3_requests.specs.Rows.{is_counted};
ghost use Rattle.h3_rows.specs.Line.{line_of};
ghost use Rattle.h3_rows.specs.Row.{next_number};

use crate::reading::feeds;
use crate::row::Row;
use crate::state::Columns;
use h3_requests::{CellField, RowOptions};

/// What the second field of a row has.
#[derive(Clone, Copy, Debug, Drop, Eq, PartialEq)]
pub enum FieldContent {
    /// A text, such as a name. A row that has a cell has to have the field.
    Text,

    /// A number. A row that has a cell has to have the field, with a number in it; if it is blank, that is 0.
    Number,
}

/// How a table is read.
#[derive(Clone, Copy, Drop)]
pub struct TableForm<'f> {
    /// How its rows are read, and which field has the cells.
    pub rows: &'f RowOptions,

    /// Which field is the second one.
    pub field: &'f CellField,

    /// What that has.
    pub content: FieldContent,

    ghost counted: { is_counted field.now ≡ true },
}

/// Where a row's cell is, and its second field.
#[derive(Clone, Copy, Drop)]
pub struct TableColumns {
    /// Where the cell is, and how many fields a row has.
    pub cell: Columns,

    /// How many fields are before the second one.
    pub name: usize,
}

/// How far a table is read.
#[derive(Clone, Copy, Drop)]
pub struct TableState {
    /// The number of the next row.
    pub number: u64,

    /// The columns: `None` while a header is awaited.
    pub columns: Option<TableColumns>,
}

impl TableState {
    /// The state after a row, with these columns.
    pub(crate) fn after(self, row: Row<'_>, columns: Option<TableColumns>) -> TableState
        requires { self.number + length row.body.now < 2 ^ 63 }
        ensures number { result.number ≡ next_number self.number (line_of row.entry) }
        ensures few { result.number ≤ self.number + length row.entry.body.now + 1 }
        ensures columns { result.columns ≡ columns }
    {
        TableState {
            number: self.number + 1 + feeds(row.body) as u64,
            columns,
        }
    }

    /// Passes a row without line feeds that changes nothing but the number.
    #[inline(always)]
    pub(crate) fn count(&mut self)
        requires { self.old.number < 2 ^ 63 }
        ensures number { self.new.number ≡ self.old.number + 1 }
        ensures columns { self.new.columns ≡ self.old.columns }
    {
        self.number += 1;
    }
}
