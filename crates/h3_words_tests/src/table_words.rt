//! The words of the options of a table that is a region or zones, and what they parse as.

use crate::expected::expect;
use crate::rows_words::{Expected, Field, are_those, is_field};
use h3_parses::read;
use h3_requests::AreaOptions;
use std::alloc::Global;

/// Whether a line asks for a command over a file with rows, read by these options, and over a bare list.
fn asks_for_a_file_table(alloc: Global, line: &str, expected: &Expected) -> bool {
    match read(alloc, line) {
        Ok(words) => match (&words.tables.file, &words.tables.list, &words.tables.areas) {
            (Some(rows), None, None) => {
                are_those(rows, expected) && !rows.shows_errors && !rows.is_ragged
            }
            _ => false,
        },
        Err(_) => false,
    }
}

/// Lines of commands over a file that has rows, and a bare list.
static FILES: [(&str, Expected); 6] = [
    (
        "h3 cellsToZones --zones z --zone-column cell",
        (Field::Column("cell"), true, b'\t', false, None, false),
    ),
    (
        "h3 countCellsInZones --csv --zone-field 2 --zones z",
        (Field::Number(2), false, b',', true, None, false),
    ),
    (
        "h3 areCoveredCells --region r --region-column=cell --separator ;",
        (Field::Column("cell"), true, b';', false, None, false),
    ),
    (
        "h3 intersectCells --region-field 65535 --region r",
        (Field::Number(65535), false, b'\t', false, None, false),
    ),
    (
        "h3 subtractCells --region r --region-column a --csv --separator \\t",
        (Field::Column("a"), true, b'\t', true, None, false),
    ),
    (
        "h3 cellsToZones --zones z --zone-field 1",
        (Field::Number(1), false, b'\t', false, None, false),
    ),
];

#[test]
fn reads_files_with_rows(rt: HostRuntime) {
    for (line, expected) in &FILES {
        expect(&rt, line, asks_for_a_file_table(rt.alloc(), line, expected));
    }
}

/// Whether a line asks for a command over a list and a file that both have rows, of which the options of the
/// one alone are not those of the other.
fn asks_for_two_tables(alloc: Global, line: &str, list: &Expected, file: &Expected) -> bool {
    match read(alloc, line) {
        Ok(words) => match (&words.tables.list, &words.tables.file) {
            (Some(rows), Some(cells)) => {
                are_those(rows, list)
                    && are_those(cells, file)
                    && !cells.shows_errors
                    && !cells.is_ragged
            }
            _ => false,
        },
        Err(_) => false,
    }
}

#[test]
fn reads_two_tables(rt: HostRuntime) {
    let line =
        "h3 cellsToZones --zones z --zone-column cell --csv --field 3 --header --as z --keep-going --errors --ragged";
    let list = (Field::Number(3), true, b',', true, Some("z"), true);
    let file = (Field::Column("cell"), true, b',', true, None, false);
    expect(
        &rt,
        line,
        asks_for_two_tables(rt.alloc(), line, &list, &file),
    );
}

/// What a table of zones with names parses as: how its rows are read, the field of the names, and the text
/// for a cell in no zone.
type Named = (Expected, Field, &'static str);

/// Whether a table of zones is read by these options.
fn are_those_areas(areas: &AreaOptions, expected: &Named) -> bool {
    are_those(&areas.table.rows, &expected.0)
        && !areas.table.rows.shows_errors
        && !areas.table.rows.is_ragged
        && is_field(&areas.table.name, expected.1)
        && areas.none.as_str() == expected.2
        && !areas.overlapping
}

/// Whether a line asks for a command over a table of zones with names, read by these options, and over a list
/// with rows or a bare one.
fn asks_for_names(alloc: Global, line: &str, has_rows: bool, expected: &Named) -> bool {
    match read(alloc, line) {
        Ok(words) => match (&words.tables.areas, &words.tables.file) {
            (Some(areas), None) => {
                are_those_areas(areas, expected) && words.tables.list.is_some() == has_rows
            }
            _ => false,
        },
        Err(_) => false,
    }
}

/// Lines over a table of zones with names, and whether the list has rows.
static NAMED: [(&str, bool, Named); 8] = [
    (
        "h3 countCellsInZones --zones z --zone-column cell --zone-name zone --csv --column cell",
        true,
        (
            (Field::Column("cell"), true, b',', true, None, false),
            Field::Column("zone"),
            "",
        ),
    ),
    (
        "h3 countCellsInZones --zones z --zone-field 2 --zone-name-field 1 --none 0",
        false,
        (
            (Field::Number(2), false, b'\t', false, None, false),
            Field::Number(1),
            "0",
        ),
    ),
    (
        "h3 cellsToZones --zones z --zone-column cell --zone-name zone --csv --column cell",
        true,
        (
            (Field::Column("cell"), true, b',', true, None, false),
            Field::Column("zone"),
            "",
        ),
    ),
    (
        "h3 cellsToZones --zones z --zone-column cell --zone-name zone --none -",
        false,
        (
            (Field::Column("cell"), true, b'\t', false, None, false),
            Field::Column("zone"),
            "-",
        ),
    ),
    (
        "h3 cellsToZones --zone-name-field 1 --none=none --zone-field=2 --csv --zones z",
        false,
        (
            (Field::Number(2), false, b',', true, None, false),
            Field::Number(1),
            "none",
        ),
    ),
    (
        "h3 cellsToZones --zones z --zone-field 1 --zone-name-field 65535 --separator ; --none=",
        false,
        (
            (Field::Number(1), false, b';', false, None, false),
            Field::Number(65535),
            "",
        ),
    ),
    (
        "h3 cellsToZones --zones z --zone-column a --zone-name=a,b\"c --csv --field 3 --header --as d \
        --keep-going --ragged",
        true,
        (
            (Field::Column("a"), true, b',', true, None, false),
            Field::Column("a,b\"c"),
            "",
        ),
    ),
    (
        "h3 cellsToZones --zones z --zone-column a --zone-name= --none a,b",
        false,
        (
            (Field::Column("a"), true, b'\t', false, None, false),
            Field::Column(""),
            "a,b",
        ),
    ),
];

#[test]
fn reads_zones_with_names(rt: HostRuntime) {
    for (line, has_rows, expected) in &NAMED {
        expect(
            &rt,
            line,
            asks_for_names(rt.alloc(), line, *has_rows, expected),
        );
    }
}

/// Lines over a table of zones with names, and whether these may overlap.
static OVERLAPPING: [(&str, bool); 9] = [
    (
        "h3 cellsToZones --zones z --zone-column a --zone-name b --overlapping",
        true,
    ),
    (
        "h3 cellsToZones --overlapping --zones z --zone-field 1 --zone-name-field 2 --none -",
        true,
    ),
    (
        "h3 cellsToZones --zones z --zone-column a --zone-name b --csv --column c --overlapping --errors --keep-going",
        true,
    ),
    (
        "h3 cellsToZones --zones z --zone-field 1 --overlapping --zone-name-field 2 --field 3 --header --ragged",
        true,
    ),
    (
        "h3 cellsToZones --zones z --zone-column a --zone-name b --overlapping --as d --column c",
        true,
    ),
    (
        "h3 cellsToZones --zones z --zone-column a --zone-name b --csv --column c --errors --keep-going",
        false,
    ),
    (
        "h3 countCellsInZones --zones z --zone-column a --zone-name b --overlapping",
        true,
    ),
    (
        "h3 countCellsInZones --overlapping --zones z --zone-field 1 --zone-name-field 2 --csv --column c --sum d",
        true,
    ),
    (
        "h3 countCellsInZones --zones z --zone-column a --zone-name overlapping",
        false,
    ),
];

/// Whether a line asks for a command over zones with names, which may overlap or may not.
fn asks_for_overlaps(alloc: Global, line: &str, overlapping: bool) -> bool {
    match read(alloc, line) {
        Ok(words) => match &words.tables.areas {
            Some(areas) => areas.overlapping == overlapping,
            None => false,
        },
        Err(_) => false,
    }
}

#[test]
fn reads_whether_zones_may_overlap(rt: HostRuntime) {
    for (line, overlapping) in &OVERLAPPING {
        expect(&rt, line, asks_for_overlaps(rt.alloc(), line, *overlapping));
    }
}
