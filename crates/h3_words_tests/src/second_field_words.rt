//! The words of a second field of a list's rows, which is added up or divides them, and what they parse as.

use crate::expected::expect;
use crate::rows_words::{Field, is_field};
use h3_parses::read;
use h3_requests::CellField;
use std::alloc::Global;

/// Lines over rows of which a field is added up, or none, and that field.
static SUMS: [(&str, Option<Field>); 18] = [
    (
        "h3 countCellsInZones --zones z --zone-column a --zone-name b --csv --column cell --sum amount",
        Some(Field::Column("amount")),
    ),
    (
        "h3 countCellsInZones --sum=a,b\"c --zones z --column cell --zone-field 1 --zone-name-field 2",
        Some(Field::Column("a,b\"c")),
    ),
    (
        "h3 countCellsInZones --zones z --zone-field 1 --zone-name-field 2 --field 1 --header --sum amount",
        Some(Field::Column("amount")),
    ),
    (
        "h3 countCellsInZones --zones z --zone-column a --zone-name b --column cell --sum=",
        Some(Field::Column("")),
    ),
    (
        "h3 countCellsInZones --zones z --zone-field 1 --zone-name-field 2 --field 1 --sum-field 2",
        Some(Field::Number(2)),
    ),
    (
        "h3 countCellsInZones --sum-field 65535 --header --field 1 --ragged --zones z --zone-field 1 --zone-name-field 2",
        Some(Field::Number(65535)),
    ),
    (
        "h3 countCellsInZones --zones z --zone-column a --zone-name b --column cell --sum cell --none 0",
        Some(Field::Column("cell")),
    ),
    (
        "h3 countCellsInZones --zones z --csv --column cell --sum amount",
        Some(Field::Column("amount")),
    ),
    (
        "h3 countCellsInZones --zones z --zone-column a --field 1 --sum-field 2",
        Some(Field::Number(2)),
    ),
    (
        "h3 countCellsInZones --zones z --zone-field 1 --zone-name-field 2 --overlapping --column cell --sum c",
        Some(Field::Column("c")),
    ),
    ("h3 countCellsInZones --zones z --csv --column sum", None),
    (
        "h3 countCellsInParents -r 4 --csv --column cell --sum amount",
        Some(Field::Column("amount")),
    ),
    (
        "h3 countCellsInParents --sum=-r -r 4 --header --field 1",
        Some(Field::Column("-r")),
    ),
    (
        "h3 countCellsInParents --sum-field 2 --field 1 -r 4",
        Some(Field::Number(2)),
    ),
    ("h3 countCellsInParents -r 4 --field 1", None),
    ("h3 countCellsInParents -r 4 --column sum --csv", None),
    (
        "h3 countCellsInZones --zones z --zone-field 1 --zone-name-field 2 --field 3",
        None,
    ),
    ("h3 cellsToZones --zones z --column cell", None),
];

/// Whether a second field of rows is this one, if there is one.
fn is_second(field: &Option<CellField>, expected: Option<Field>) -> bool {
    match (field, expected) {
        (Some(field), Some(wanted)) => is_field(field, wanted),
        (None, None) => true,
        _ => false,
    }
}

/// Whether a line asks for a command over rows of which this field is added up, if any.
fn asks_for_a_sum(alloc: Global, line: &str, expected: Option<Field>) -> bool {
    match read(alloc, line) {
        Ok(words) => {
            words.tables.list.is_some()
                && is_second(&words.tables.sum, expected)
                && words.tables.by.is_none()
        }
        Err(_) => false,
    }
}

#[test]
fn reads_sums(rt: HostRuntime) {
    for (line, expected) in &SUMS {
        expect(&rt, line, asks_for_a_sum(rt.alloc(), line, *expected));
    }
}

/// Lines over rows that a field divides, or none, and that field.
static BY: [(&str, Option<Field>); 15] = [
    (
        "h3 compactCells --csv --column cell --by zone",
        Some(Field::Column("zone")),
    ),
    (
        "h3 uniteCells --by=a,b\"c --column cell",
        Some(Field::Column("a,b\"c")),
    ),
    (
        "h3 uncompactCells -r 6 --field 1 --header --by zone",
        Some(Field::Column("zone")),
    ),
    ("h3 uniteCells --column cell --by=", Some(Field::Column(""))),
    (
        "h3 uniteCells --field 1 --by-field 2",
        Some(Field::Number(2)),
    ),
    (
        "h3 compactCells --by-field 65535 --header --field 1 --ragged",
        Some(Field::Number(65535)),
    ),
    (
        "h3 uniteCells --column cell --by cell",
        Some(Field::Column("cell")),
    ),
    (
        "h3 uncompactCells --by-field 1 -r 6 --separator . --field 2",
        Some(Field::Number(1)),
    ),
    (
        "h3 intersectCells --region r --csv --column cell --by zone",
        Some(Field::Column("zone")),
    ),
    (
        "h3 subtractCells --by-field 2 --region-column a --field 1 --region r",
        Some(Field::Number(2)),
    ),
    (
        "h3 subtractCells --region r --field 1 --header --by=region",
        Some(Field::Column("region")),
    ),
    ("h3 compactCells --csv --column by", None),
    ("h3 uniteCells --field 1 --header", None),
    ("h3 intersectCells --region r --field 1", None),
    ("h3 uncompactCellsSize -r 6 --column cell", None),
];

/// Whether a line asks for a command over rows that this field divides, if any.
fn asks_for_lists(alloc: Global, line: &str, expected: Option<Field>) -> bool {
    match read(alloc, line) {
        Ok(words) => {
            words.tables.list.is_some()
                && is_second(&words.tables.by, expected)
                && words.tables.sum.is_none()
        }
        Err(_) => false,
    }
}

#[test]
fn reads_what_divides_rows(rt: HostRuntime) {
    for (line, expected) in &BY {
        expect(&rt, line, asks_for_lists(rt.alloc(), line, *expected));
    }
}
