//! How far the answer to rows has come.

ghost use Rattle.std.specs.Prelude.{◌≡◌, ◌≤◌, ◌<◌, ◌+◌, ◌^◌, None, Some, length};
ghost use Rattle.h3_rows.specs.Row.{next_number};
ghost use Rattle.h3_rows.specs.Line.{line_of};
ghost use Rattle.h3_rows.specs.RowsAnswer.{choice_of, columns_first, more_kept, one_more};

use crate::reading::feeds;
use crate::row::Row;
use h3_lines::RowError;
use h3_requests::{CellField, RowOptions};

/// Where a row's cell is, and how many fields a row has.
#[derive(Clone, Copy, Drop)]
pub struct Columns {
    /// How many fields are before the cell's.
    pub before: usize,

    /// The fields that a row has to have: as many as the header. `None` if there is no header, or rows
    /// may have any number of fields.
    pub width: Option<usize>,
}

/// The first error after which a run went on.
#[derive(Clone, Copy, Drop)]
pub struct FirstError {
    /// The number of the row.
    pub number: u64,

    /// The row's error.
    pub error: RowError,

    /// How many rows more had an error.
    pub more: u64,
}

/// How far the answer to rows has come.
#[derive(Clone, Copy, Drop)]
pub struct RowState {
    /// The number of the next row.
    pub number: u64,

    /// The columns: `None` while a header is awaited.
    pub columns: Option<Columns>,

    /// The first error after which the run went on.
    pub kept: Option<FirstError>,

    ghost few: { more_kept kept ≤ number },
}

impl RowState {
    /// The state after a row that changes nothing but the number.
    pub(crate) fn passed(self, row: Row<'_>) -> RowState
        requires { self.number + length row.body.now < 2 ^ 63 }
        ensures number { result.number ≡ next_number self.number (line_of row.entry) }
        ensures few { result.number ≤ self.number + length row.entry.body.now + 1 }
        ensures columns { result.columns ≡ self.columns }
        ensures kept { result.kept ≡ self.kept }
    {
        RowState {
            number: self.number + 1 + feeds(row.body) as u64,
            columns: self.columns,
            kept: self.kept,
        }
    }

    /// Passes a row without line feeds that changes nothing but the number.
    // In place: a new state would cost four more instructions a row.
    #[inline(always)]
    pub(crate) fn count(&mut self)
        requires { self.old.number < 2 ^ 63 }
        ensures number { self.new.number ≡ self.old.number + 1 }
        ensures columns { self.new.columns ≡ self.old.columns }
        ensures kept { self.new.kept ≡ self.old.kept }
    {
        self.number += 1;
    }

    /// The state with an error more.
    pub(crate) fn with_error(self, row: Row<'_>, error: RowError) -> RowState
        requires { self.number + length row.body.now < 2 ^ 63 }
        ensures number { result.number ≡ next_number self.number (line_of row.entry) }
        ensures few { result.number ≤ self.number + length row.entry.body.now + 1 }
        ensures columns { result.columns ≡ self.columns }
        ensures kept { result.kept ≡ Some (one_more self.number error self.kept) }
    {
        let kept = match self.kept {
            None => FirstError {
                number: self.number,
                error,
                more: 0,
            },
            Some(kept) => FirstError {
                number: kept.number,
                error: kept.error,
                more: kept.more + 1,
            },
        };
        RowState {
            number: self.number + 1 + feeds(row.body) as u64,
            columns: self.columns,
            kept: Some(kept),
        }
    }

    /// The state after a header, which tells the columns.
    pub(crate) fn headed(self, row: Row<'_>, columns: Columns) -> RowState
        requires { self.number + length row.body.now < 2 ^ 63 }
        ensures number { result.number ≡ next_number self.number (line_of row.entry) }
        ensures few { result.number ≤ self.number + length row.entry.body.now + 1 }
        ensures columns { result.columns ≡ Some columns }
        ensures kept { result.kept ≡ self.kept }
    {
        RowState {
            number: self.number + 1 + feeds(row.body) as u64,
            columns: Some(columns),
            kept: self.kept,
        }
    }
}

/// The state at the beginning of a list.
pub(crate) fn first_state(options: &RowOptions) -> RowState
    ensures number { result.number ≡ 1 }
    ensures columns { result.columns
        ≡ columns_first options.now.has_header (choice_of options.now.field) }
    ensures kept { result.kept ≡ None }
{
    let columns = match &options.field {
        CellField::Number(number) if !options.has_header => Some(Columns {
            before: *number as usize - 1,
            width: None,
        }),
        _ => None,
    };
    RowState {
        number: 1,
        columns,
        kept: None,
    }
}
