//! The words of the options of a list's rows, and what they parse as.

use crate::expected::{expect, expect_all};
use h3_parses::read;
use h3_requests::{CellField, RowOptions};
use std::alloc::Global;

/// The field that has the cell.
#[derive(Clone, Copy, Drop)]
pub enum Field {
    Number(u16),
    Column(&'static str),
}

/// What options of rows parse as: the field, whether there is a header, the separator, whether
/// quotes count, the name of the new column, and whether a run goes on after a row with an error.
pub type Expected = (Field, bool, u8, bool, Option<&'static str>, bool);

/// Whether the cell is in this field.
pub fn is_field(field: &CellField, expected: Field) -> bool {
    match (field, expected) {
        (CellField::Number(number), Field::Number(wanted)) => *number == wanted,
        (CellField::Column(name), Field::Column(wanted)) => name.as_str() == wanted,
        _ => false,
    }
}

/// Whether this is the name of the new column.
fn is_name(name: &Option<String>, expected: Option<&str>) -> bool {
    match (name, expected) {
        (Some(name), Some(wanted)) => name.as_str() == wanted,
        (None, None) => true,
        _ => false,
    }
}

/// Whether options are those.
pub fn are_those(rows: &RowOptions, expected: &Expected) -> bool {
    is_field(&rows.field, expected.0)
        && rows.has_header == expected.1
        && rows.separator == expected.2
        && rows.quotes == expected.3
        && is_name(&rows.name, expected.4)
        && rows.keeps_going == expected.5
}

/// Whether a line asks for a command on rows, with these options.
fn asks_for_rows(alloc: Global, line: &str, expected: &Expected) -> bool {
    match read(alloc, line) {
        Ok(words) => match &words.tables.list {
            Some(rows) => are_those(rows, expected),
            None => false,
        },
        Err(_) => false,
    }
}

/// The first of these lines that does not ask for the rows beside it, or how many they are.
fn first_other(alloc: Global, rows: &[(&str, Expected)]) -> usize {
    for (row, (line, expected)) in rows.iter().enumerate() {
        if !asks_for_rows(alloc, line, expected) {
            return row;
        }
    }
    rows.len()
}

/// Lines with the field by its number or its name.
static FIELDS: [(&str, Expected); 12] = [
    (
        "h3 cellsToParents -r 4 --field 2",
        (Field::Number(2), false, b'\t', false, None, false),
    ),
    (
        "h3 cellsToParents --field=2 -r 4",
        (Field::Number(2), false, b'\t', false, None, false),
    ),
    (
        "h3 getResolutions --field 1",
        (Field::Number(1), false, b'\t', false, None, false),
    ),
    (
        "h3 getResolutions --field 65535",
        (Field::Number(65535), false, b'\t', false, None, false),
    ),
    (
        "h3 getResolutions --field +3",
        (Field::Number(3), false, b'\t', false, None, false),
    ),
    (
        "h3 getResolutions --field 007",
        (Field::Number(7), false, b'\t', false, None, false),
    ),
    (
        "h3 getResolutions --column cell",
        (Field::Column("cell"), true, b'\t', false, None, false),
    ),
    (
        "h3 getResolutions --column=cell",
        (Field::Column("cell"), true, b'\t', false, None, false),
    ),
    (
        "h3 getResolutions --column=",
        (Field::Column(""), true, b'\t', false, None, false),
    ),
    (
        "h3 getResolutions --column -",
        (Field::Column("-"), true, b'\t', false, None, false),
    ),
    (
        "h3 getResolutions --field 1 --header",
        (Field::Number(1), true, b'\t', false, None, false),
    ),
    (
        "h3 getResolutions --header --field 1",
        (Field::Number(1), true, b'\t', false, None, false),
    ),
];

#[test]
fn reads_fields(rt: HostRuntime) {
    let row = first_other(rt.alloc(), &FIELDS);
    expect_all(&rt, row, FIELDS.len());
}

/// Lines with a separator, and with quotes that count.
static SEPARATORS: [(&str, Expected); 10] = [
    (
        "h3 areValidCells --field 1 --separator ,",
        (Field::Number(1), false, b',', false, None, false),
    ),
    (
        "h3 areValidCells --field 1 --separator=;",
        (Field::Number(1), false, b';', false, None, false),
    ),
    (
        "h3 areValidCells --column c --separator |",
        (Field::Column("c"), true, b'|', false, None, false),
    ),
    (
        "h3 areValidCells --field 1 --separator \\t",
        (Field::Number(1), false, b'\t', false, None, false),
    ),
    (
        "h3 areValidCells --csv --field 1 --separator \\t",
        (Field::Number(1), false, b'\t', true, None, false),
    ),
    (
        "h3 areValidCells --field 1 --separator \\",
        (Field::Number(1), false, b'\\', false, None, false),
    ),
    (
        "h3 areValidCells --field 1 --separator==",
        (Field::Number(1), false, b'=', false, None, false),
    ),
    (
        "h3 cellsToParents -r 4 --csv --column cell",
        (Field::Column("cell"), true, b',', true, None, false),
    ),
    (
        "h3 cellsToParents --csv --field 2 -r 4",
        (Field::Number(2), false, b',', true, None, false),
    ),
    (
        "h3 arePentagons --separator ; --csv --field 2",
        (Field::Number(2), false, b';', true, None, false),
    ),
];

#[test]
fn reads_separators(rt: HostRuntime) {
    let row = first_other(rt.alloc(), &SEPARATORS);
    expect_all(&rt, row, SEPARATORS.len());
}

/// Lines with the name of the new column, that go on, and of the other commands.
static NAMES: [(&str, Expected); 9] = [
    (
        "h3 getResolutions --column cell --as res",
        (
            Field::Column("cell"),
            true,
            b'\t',
            false,
            Some("res"),
            false,
        ),
    ),
    (
        "h3 getResolutions --as=a-b.1 --header --field 3",
        (Field::Number(3), true, b'\t', false, Some("a-b.1"), false),
    ),
    (
        "h3 getResolutions --column cell --as=",
        (Field::Column("cell"), true, b'\t', false, Some(""), false),
    ),
    (
        "h3 getResolutions --column c --as a,b",
        (Field::Column("c"), true, b'\t', false, Some("a,b"), false),
    ),
    (
        "h3 getResolutions --field 1 --keep-going",
        (Field::Number(1), false, b'\t', false, None, true),
    ),
    (
        "h3 getResolutions --keep-going --column cell",
        (Field::Column("cell"), true, b'\t', false, None, true),
    ),
    (
        "h3 cellsToZones --zones z --csv --column cell --as zone --keep-going",
        (Field::Column("cell"), true, b',', true, Some("zone"), true),
    ),
    (
        "h3 areCoveredCells --region r --field 2 --header --as in --keep-going",
        (Field::Number(2), true, b'\t', false, Some("in"), true),
    ),
    (
        "h3 originsToDirectedEdges --field 1",
        (Field::Number(1), false, b'\t', false, None, false),
    ),
];

#[test]
fn reads_names_of_columns(rt: HostRuntime) {
    let row = first_other(rt.alloc(), &NAMES);
    expect_all(&rt, row, NAMES.len());
}

/// Lines with the columns of errors and the rows of any number of fields: whether each is asked for.
static FLAGS: [(&str, bool, bool); 15] = [
    ("h3 getResolutions --field 1", false, false),
    ("h3 getResolutions --column a --keep-going", false, false),
    ("h3 getResolutions --column a --csv --as b", false, false),
    (
        "h3 getResolutions --field 1 --keep-going --errors",
        true,
        false,
    ),
    (
        "h3 getResolutions --errors --keep-going --column a",
        true,
        false,
    ),
    (
        "h3 cellsToZones --zones z --csv --column a --as b --errors --keep-going",
        true,
        false,
    ),
    ("h3 getResolutions --ragged --column a", false, true),
    (
        "h3 cellsToChildren -r 5 --field 2 --header --ragged",
        false,
        true,
    ),
    (
        "h3 getResolutions --column a --keep-going --errors --ragged",
        true,
        true,
    ),
    (
        "h3 getResolutions --field 1 --separator _ --keep-going",
        false,
        false,
    ),
    (
        "h3 getResolutions --csv --separator ; --field 1 --keep-going --errors",
        true,
        false,
    ),
    ("h3 compactCells --csv --column a", false, false),
    ("h3 compactCells --csv --column a --ragged", false, true),
    (
        "h3 countCellsInZones --ragged --zones z --header --field 3",
        false,
        true,
    ),
    (
        "h3 countCellsInParents --ragged -r 4 --column a",
        false,
        true,
    ),
];

/// Whether a line asks for rows with, or without, a column of errors and any number of fields.
fn has_flags(alloc: Global, line: &str, shows_errors: bool, is_ragged: bool) -> bool {
    match read(alloc, line) {
        Ok(words) => match &words.tables.list {
            Some(rows) => rows.shows_errors == shows_errors && rows.is_ragged == is_ragged,
            None => false,
        },
        Err(_) => false,
    }
}

#[test]
fn reads_flags(rt: HostRuntime) {
    for (line, errors, ragged) in &FLAGS {
        expect(&rt, line, has_flags(rt.alloc(), line, *errors, *ragged));
    }
}

/// Lines of commands that answer about their list as a whole.
static LISTS: [(&str, Expected); 11] = [
    (
        "h3 compactCells --field 2 --header",
        (Field::Number(2), true, b'\t', false, None, false),
    ),
    (
        "h3 compactCells --column cell",
        (Field::Column("cell"), true, b'\t', false, None, false),
    ),
    (
        "h3 uncompactCells --csv -r 6 --column a",
        (Field::Column("a"), true, b',', true, None, false),
    ),
    (
        "h3 uncompactCells -r 6 --header --field 1",
        (Field::Number(1), true, b'\t', false, None, false),
    ),
    (
        "h3 uncompactCellsSize -r 6 --field 1 --separator ;",
        (Field::Number(1), false, b';', false, None, false),
    ),
    (
        "h3 uniteCells --field 65535 --csv",
        (Field::Number(65535), false, b',', true, None, false),
    ),
    (
        "h3 intersectCells --region r --field 3",
        (Field::Number(3), false, b'\t', false, None, false),
    ),
    (
        "h3 subtractCells --column=cell --region r",
        (Field::Column("cell"), true, b'\t', false, None, false),
    ),
    (
        "h3 countCellsInZones --zones z --csv --column cell",
        (Field::Column("cell"), true, b',', true, None, false),
    ),
    (
        "h3 countCellsInParents --csv -r 4 --column cell",
        (Field::Column("cell"), true, b',', true, None, false),
    ),
    (
        "h3 countCellsInParents -r 4 --field 2 --separator ;",
        (Field::Number(2), false, b';', false, None, false),
    ),
];

#[test]
fn reads_rows_of_lists(rt: HostRuntime) {
    let row = first_other(rt.alloc(), &LISTS);
    expect_all(&rt, row, LISTS.len());
}

/// Lines of commands on a bare list, or on none.
static BARE: [&str; 14] = [
    "h3 compactCells",
    "h3 uncompactCells -r 6",
    "h3 uncompactCellsSize -r 6",
    "h3 uniteCells",
    "h3 intersectCells --region r",
    "h3 subtractCells --region r",
    "h3 areCoveredCells --region r",
    "h3 cellsToZones --zones z",
    "h3 countCellsInZones --zones z",
    "h3 countCellsInParents -r 4",
    "h3 cellsToParents -r 4",
    "h3 getResolutions",
    "h3 isValidCell -c 0",
    "h3 getRes0Cells",
];

/// Whether a line asks for a command without rows.
fn asks_for_no_rows(alloc: Global, line: &str) -> bool {
    match read(alloc, line) {
        Ok(words) => {
            words.tables.list.is_none()
                && words.tables.file.is_none()
                && words.tables.areas.is_none()
                && words.tables.sum.is_none()
                && words.tables.by.is_none()
        }
        Err(_) => false,
    }
}

#[test]
fn reads_no_rows(rt: HostRuntime) {
    for line in &BARE {
        expect(&rt, line, asks_for_no_rows(rt.alloc(), line));
    }
}
