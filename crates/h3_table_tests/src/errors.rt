//! The errors of the library: their numbers, their names, their texts, and which are equal.

use crate::expected::{expect, expect_row};
use crate::table::made;
use h3_directions::{Direction, TableError};
use h3_fakes::differ;
use h3_index::H3Error;
use h3_streams::StreamFault;

/// An error, its number, its name and its text.
static ERRORS: [(H3Error, u8, &str, &str); 10] = [
    (H3Error::Failed, 1, "E_FAILED", "the operation failed"),
    (
        H3Error::Domain,
        2,
        "E_DOMAIN",
        "an argument is outside its range",
    ),
    (
        H3Error::ResDomain,
        4,
        "E_RES_DOMAIN",
        "a resolution is outside its range",
    ),
    (
        H3Error::CellInvalid,
        5,
        "E_CELL_INVALID",
        "the index is no valid cell",
    ),
    (
        H3Error::DirEdgeInvalid,
        6,
        "E_DIR_EDGE_INVALID",
        "the index is no valid directed edge",
    ),
    (H3Error::Pentagon, 9, "E_PENTAGON", "a pentagon was met"),
    (
        H3Error::DuplicateInput,
        10,
        "E_DUPLICATE_INPUT",
        "cells of the list overlap",
    ),
    (
        H3Error::NotNeighbors,
        11,
        "E_NOT_NEIGHBORS",
        "the cells are no neighbors",
    ),
    (
        H3Error::ResMismatch,
        12,
        "E_RES_MISMATCH",
        "the resolutions do not go together",
    ),
    (H3Error::MemoryAlloc, 13, "E_MEMORY_ALLOC", "out of memory"),
];

#[test]
fn errors_have_their_numbers_and_names(rt: HostRuntime) {
    for (row, (error, number, name, _)) in ERRORS.iter().enumerate() {
        expect_row(&rt, row, error.number() == *number && error.name() == *name);
    }
}

#[test]
fn errors_have_texts(rt: HostRuntime) {
    for (row, (error, _, _, text)) in ERRORS.iter().enumerate() {
        let shown = made(&rt, format!(in rt.alloc(); "{error}"));
        expect_row(&rt, row, shown.as_str() == *text);
    }
    let shown = made(&rt, format!(in rt.alloc(); "{}", StreamFault));
    expect(&rt, "StreamFault", shown.as_str() == "the stream failed");
}

#[test]
fn only_the_same_errors_are_equal(rt: HostRuntime) {
    static VALUES: [H3Error; 10] = [
        H3Error::Failed,
        H3Error::Domain,
        H3Error::ResDomain,
        H3Error::CellInvalid,
        H3Error::DirEdgeInvalid,
        H3Error::Pentagon,
        H3Error::DuplicateInput,
        H3Error::NotNeighbors,
        H3Error::ResMismatch,
        H3Error::MemoryAlloc,
    ];
    expect(&rt, "errors of the library", differ(&rt, &VALUES));
}

#[test]
fn table_errors_have_texts(rt: HostRuntime) {
    static ROWS: [(TableError, &str); 9] = [
        (TableError::Read, "the table could not be read"),
        (TableError::Memory, "out of memory"),
        (TableError::Form(5), "record 5 is malformed"),
        (
            TableError::Range(661),
            "record 661 has a number out of range",
        ),
        (TableError::Repeated(3), "record 3 repeats an earlier one"),
        (
            TableError::Missing,
            "a base cell and direction have no link",
        ),
        (
            TableError::Neighbours(121),
            "base cell 121 and its neighbours are not seven different base cells",
        ),
        (
            TableError::Reversal(30, Direction::I),
            "the link of base cell 30 in direction 4 is not undone by the link back",
        ),
        (
            TableError::Corner(0, Direction::K),
            "the links around the corner of base cell 0 after direction 1 do not agree",
        ),
    ];
    for (row, (error, text)) in ROWS.iter().enumerate() {
        let shown = made(&rt, format!(in rt.alloc(); "{error}"));
        expect_row(&rt, row, shown.as_str() == *text);
    }
}

#[test]
fn only_the_same_table_errors_are_equal(rt: HostRuntime) {
    static VALUES: [TableError; 17] = [
        TableError::Read,
        TableError::Memory,
        TableError::Form(1),
        TableError::Form(2),
        TableError::Range(1),
        TableError::Range(2),
        TableError::Repeated(1),
        TableError::Repeated(2),
        TableError::Missing,
        TableError::Neighbours(1),
        TableError::Neighbours(2),
        TableError::Reversal(1, Direction::K),
        TableError::Reversal(1, Direction::J),
        TableError::Reversal(2, Direction::K),
        TableError::Corner(1, Direction::K),
        TableError::Corner(1, Direction::J),
        TableError::Corner(2, Direction::K),
    ];
    expect(&rt, "errors of tables", differ(&rt, &VALUES));
}
