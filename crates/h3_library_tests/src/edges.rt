//! Directed edges, by their numbers and by the cells that they leave.

use crate::expected::{expect, expect_row};
use crate::rows::{Expected, cell, same_edge};
use h3_index::{Edge, H3Error, write_index};
use std::cmp::Ordering;
use std::process::Abort;

/// A hexagon, and its edge in the direction 1.
const HEXAGON: u64 = 0x85283473fffffff;

const EDGE: u64 = 0x115283473fffffff;

/// The edge with a number that is one's.
fn edge(rt: &impl Abort, raw: u64) -> Edge {
    match Edge::new(raw) {
        Ok(edge) => edge,
        Err(_) => panic!(rt; "{raw:x} is no edge"),
    }
}

#[test]
fn an_edge_has_the_fields_of_its_number(rt: HostRuntime) {
    let found = edge(&rt, EDGE);
    expect(&rt, "number", found.raw() == EDGE);
    expect(&rt, "origin", found.origin().raw() == HEXAGON);
    expect(&rt, "direction", found.direction() == 1);
    expect(
        &rt,
        "text",
        write_index(found.raw()).as_str() == "115283473fffffff",
    );
}

#[test]
fn other_numbers_are_no_edges(rt: HostRuntime) {
    static NUMBERS: [u64; 10] = [
        // direction 1 at a pentagon
        0x11009fffffffffff,
        // the directions 0 and 7
        0x105283473fffffff,
        0x175283473fffffff,
        // the reserved bit
        0x915283473fffffff,
        // mode 1, with a direction and without, and mode 3
        0x95283473fffffff,
        0x85283473fffffff,
        0x195283473fffffff,
        // an origin in a deleted subsequence, and one in base cell 122
        0x121087ffffffffff,
        0x120f5fffffffffff,
        0,
    ];
    for (row, raw) in NUMBERS.iter().enumerate() {
        expect_row(
            &rt,
            row,
            same_edge(Edge::new(*raw), Err(H3Error::DirEdgeInvalid)),
        );
    }
}

#[test]
fn edges_are_made_of_a_cell_and_a_direction(rt: HostRuntime) {
    static ROWS: [(u64, u8, Expected); 11] = [
        (HEXAGON, 1, Ok(EDGE)),
        (HEXAGON, 2, Ok(0x125283473fffffff)),
        (HEXAGON, 3, Ok(0x135283473fffffff)),
        (HEXAGON, 4, Ok(0x145283473fffffff)),
        (HEXAGON, 5, Ok(0x155283473fffffff)),
        (HEXAGON, 6, Ok(0x165283473fffffff)),
        (0x8009fffffffffff, 2, Ok(0x12009fffffffffff)),
        (0x8009fffffffffff, 1, Err(H3Error::DirEdgeInvalid)),
        (HEXAGON, 0, Err(H3Error::DirEdgeInvalid)),
        (HEXAGON, 7, Err(H3Error::DirEdgeInvalid)),
        // a hexagon in a pentagon base cell has an edge in each direction
        (0x8108bffffffffff, 1, Ok(0x11108bffffffffff)),
    ];
    for (row, (origin, direction, expected)) in ROWS.iter().enumerate() {
        let found = Edge::from_parts(cell(&rt, *origin), *direction);
        expect_row(&rt, row, same_edge(found, *expected));
    }
}

/// The edge of a cell in a direction is that with its number.
#[test]
fn edges_are_those_with_their_numbers(rt: HostRuntime) {
    let origin = cell(&rt, HEXAGON);
    for direction in 1..7u8 {
        let raw = 0x105283473fffffff + (u64::from(direction) << 56);
        let is_same = match Edge::from_parts(origin, direction) {
            Ok(made) => made == edge(&rt, raw),
            Err(_) => false,
        };
        expect_row(&rt, usize::from(direction), is_same);
    }
}

#[test]
fn edges_are_ordered_by_number(rt: HostRuntime) {
    // the direction decides before the origin's resolution
    let first = edge(&rt, EDGE);
    let last = edge(&rt, 0x12009fffffffffff);
    expect(&rt, "in order", first < last && first != last);
    expect(&rt, "equal", first == edge(&rt, EDGE));
    expect(&rt, "less", matches!(first.cmp(&last), Ordering::Less));
    expect(
        &rt,
        "greater",
        matches!(last.cmp(&first), Ordering::Greater),
    );
}
