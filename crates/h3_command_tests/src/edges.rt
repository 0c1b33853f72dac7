//! Commands on neighbors and directed edges.

use crate::cases::{answers_over, index_of, refuses, refuses_table, writes};
use crate::expected::{expect, expect_all, expect_row};
use arrayvec::ArrayString;
use h3_fakes::table_file;
use h3_requests::{Command, IndexFunction};
use h3_table::vectors::TestTable;
use std::alloc::Global;
use std::process::Abort;

fn neighbors(cell: &str, to: &str) -> Command {
    Command::AreNeighborCells {
        cell: index_of(cell),
        to: index_of(to),
    }
}

fn edge_between(cell: &str, to: &str) -> Command {
    Command::CellsToDirectedEdge {
        cell: index_of(cell),
        to: index_of(to),
    }
}

fn is_edge(edge: &str) -> Command {
    Command::ForOne(IndexFunction::IsValidDirectedEdge, index_of(edge))
}

fn origin(edge: &str) -> Command {
    Command::ForOne(IndexFunction::GetDirectedEdgeOrigin, index_of(edge))
}

fn destination(edge: &str) -> Command {
    Command::GetDirectedEdgeDestination {
        edge: index_of(edge),
    }
}

fn edges(cell: &str) -> Command {
    Command::ForOne(IndexFunction::OriginToDirectedEdges, index_of(cell))
}

const FAILED: &str = "error 1: E_FAILED\n";

const CELL_INVALID: &str = "error 5: E_CELL_INVALID\n";

const DIR_EDGE_INVALID: &str = "error 6: E_DIR_EDGE_INVALID\n";

const PENTAGON: &str = "error 9: E_PENTAGON\n";

const NOT_NEIGHBORS: &str = "error 11: E_NOT_NEIGHBORS\n";

const RES_MISMATCH: &str = "error 12: E_RES_MISMATCH\n";

/// Two cells, and whether they are neighbors by the plain table.
static PLAIN_PAIRS: [(&str, &str, &str); 8] = [
    ("8528340ffffffff", "85283473fffffff", "true\n"),
    ("85283473fffffff", "8528340ffffffff", "true\n"),
    ("8528340ffffffff", "8528347bfffffff", "false\n"),
    ("8528340ffffffff", "8528340ffffffff", "false\n"),
    ("8009fffffffffff", "8009fffffffffff", "false\n"),
    ("813d3ffffffffff", "813ebffffffffff", "true\n"),
    ("813ebffffffffff", "813d3ffffffffff", "true\n"),
    ("813d3ffffffffff", "813e7ffffffffff", "false\n"),
];

/// The same by the twisted table.
static TWISTED_PAIRS: [(&str, &str, &str); 3] = [
    ("813d3ffffffffff", "813efffffffffff", "true\n"),
    ("813efffffffffff", "813d3ffffffffff", "true\n"),
    ("813d3ffffffffff", "813ebffffffffff", "false\n"),
];

/// The first of these pairs that are or are not neighbors unlike that, or how many they are.
fn first_wrong_pair(alloc: Global, file: &str, pairs: &[(&str, &str, &str)]) -> usize {
    for (row, (cell, to, text)) in pairs.iter().enumerate() {
        if !answers_over(alloc, file, neighbors(cell, to), text, "") {
            return row;
        }
    }
    pairs.len()
}

#[test]
fn neighbors_are_found(rt: HostRuntime) {
    let plain = table_file(TestTable::Plain);
    let row = first_wrong_pair(rt.alloc(), &plain, &PLAIN_PAIRS);
    expect_all(&rt, row, PLAIN_PAIRS.len());
    let twisted = table_file(TestTable::Twisted);
    let row = first_wrong_pair(rt.alloc(), &twisted, &TWISTED_PAIRS);
    expect_all(&rt, row, TWISTED_PAIRS.len());
}

/// Two cells, and the error of both commands.
static REFUSED_PAIRS: [(&str, &str, &str); 4] = [
    ("85283473fffffff", "8428347ffffffff", RES_MISMATCH),
    ("8009fffffffffff", "8428347ffffffff", RES_MISMATCH),
    ("8009fffffffffff", "8011fffffffffff", PENTAGON),
    ("8011fffffffffff", "8009fffffffffff", PENTAGON),
];

/// Two cells that are no neighbors.
static NO_NEIGHBORS: [(&str, &str); 3] = [
    ("85283473fffffff", "85283473fffffff"),
    ("8528340ffffffff", "8528347bfffffff"),
    ("8009fffffffffff", "8009fffffffffff"),
];

/// The first of these pairs that one of both commands does not refuse so, or how many they are.
fn first_answered(alloc: Global, file: &str, pairs: &[(&str, &str, &str)]) -> usize {
    for (row, (cell, to, line)) in pairs.iter().enumerate() {
        let refused = answers_over(alloc, file, neighbors(cell, to), "", line)
            && answers_over(alloc, file, edge_between(cell, to), "", line);
        if !refused {
            return row;
        }
    }
    pairs.len()
}

/// The first of these pairs with an edge between them, or how many they are.
fn first_edge(alloc: Global, file: &str, pairs: &[(&str, &str)]) -> usize {
    for (row, (cell, to)) in pairs.iter().enumerate() {
        if !answers_over(alloc, file, edge_between(cell, to), "", NOT_NEIGHBORS) {
            return row;
        }
    }
    pairs.len()
}

#[test]
fn pairs_of_cells_are_refused(rt: HostRuntime) {
    let plain = table_file(TestTable::Plain);
    let row = first_answered(rt.alloc(), &plain, &REFUSED_PAIRS);
    expect_all(&rt, row, REFUSED_PAIRS.len());
    let row = first_edge(rt.alloc(), &plain, &NO_NEIGHBORS);
    expect_all(&rt, row, NO_NEIGHBORS.len());
}

/// A word as a line.
fn line_of(word: &str) -> ArrayString<32> {
    let mut line = ArrayString::new();
    let _ = line.try_push_str(word);
    let _ = line.try_push('\n');
    line
}

/// Whether over a table an edge leaves a cell and leads to another.
fn leads(alloc: Global, file: &str, cell: &str, edge: &str, to: &str) -> bool {
    answers_over(alloc, file, edge_between(cell, to), &line_of(edge), "")
        && answers_over(alloc, file, destination(edge), &line_of(to), "")
        && writes(alloc, origin(edge), &line_of(cell))
}

/// A cell, an edge and the cell to which it leads by the plain table.
static PLAIN_EDGES: [(&str, &str, &str); 3] = [
    ("85283473fffffff", "115283473fffffff", "85283477fffffff"),
    ("813d3ffffffffff", "1413d3ffffffffff", "813ebffffffffff"),
    ("813ebffffffffff", "1313ebffffffffff", "813d3ffffffffff"),
];

/// The same by the twisted table: the way back is not in the opposite direction.
static TWISTED_EDGES: [(&str, &str, &str); 2] = [
    ("813d3ffffffffff", "1413d3ffffffffff", "813efffffffffff"),
    ("813efffffffffff", "1113efffffffffff", "813d3ffffffffff"),
];

/// Fails unless over a table each edge leaves its cell and leads to the other.
fn expect_edges(rt: &impl Abort, alloc: Global, file: &str, edges: &[(&str, &str, &str)]) {
    for (cell, edge, to) in edges {
        expect(rt, edge, leads(alloc, file, cell, edge, to));
    }
}

#[test]
fn edges_lead_from_a_cell_to_another(rt: HostRuntime) {
    let plain = table_file(TestTable::Plain);
    expect_edges(&rt, rt.alloc(), &plain, &PLAIN_EDGES);
    let twisted = table_file(TestTable::Twisted);
    expect_edges(&rt, rt.alloc(), &twisted, &TWISTED_EDGES);
}

/// Edges into a pentagon base cell.
static INTO_PENTAGON_BASES: [&str; 2] = ["11021fffffffffff", "12009fffffffffff"];

#[test]
fn an_edge_into_a_pentagon_base_cell_has_no_destination(rt: HostRuntime) {
    let plain = table_file(TestTable::Plain);
    for edge in &INTO_PENTAGON_BASES {
        let refused = answers_over(rt.alloc(), &plain, destination(edge), "", PENTAGON);
        expect(&rt, edge, refused);
    }
}

/// Words, and whether they are edges.
static TESTED: [(&str, &str); 9] = [
    ("115283473fffffff", "true\n"),
    ("0x165283473FFFFFFF", "true\n"),
    ("12009fffffffffff", "true\n"),
    ("11108bffffffffff", "true\n"),
    ("11009fffffffffff", "false\n"),
    ("85283473fffffff", "false\n"),
    ("105283473fffffff", "false\n"),
    ("175283473fffffff", "false\n"),
    ("0", "false\n"),
];

#[test]
fn edges_are_tested(rt: HostRuntime) {
    for (edge, text) in &TESTED {
        expect(&rt, edge, writes(rt.alloc(), is_edge(edge), text));
    }
    expect(&rt, "xyz", refuses(rt.alloc(), is_edge("xyz"), FAILED));
}

/// Cells, and the edges that leave them.
static LEAVING: [(&str, &str); 3] = [
    (
        "85283473fffffff",
        "115283473fffffff\n125283473fffffff\n135283473fffffff\n\
         145283473fffffff\n155283473fffffff\n165283473fffffff\n",
    ),
    (
        "8009fffffffffff",
        "12009fffffffffff\n13009fffffffffff\n14009fffffffffff\n\
         15009fffffffffff\n16009fffffffffff\n",
    ),
    // a hexagon in a pentagon base cell
    (
        "8108bffffffffff",
        "11108bffffffffff\n12108bffffffffff\n13108bffffffffff\n\
         14108bffffffffff\n15108bffffffffff\n16108bffffffffff\n",
    ),
];

#[test]
fn the_edges_of_a_cell_are_listed(rt: HostRuntime) {
    for (cell, lines) in &LEAVING {
        expect(&rt, cell, writes(rt.alloc(), edges(cell), lines));
    }
}

/// Words that are no edge.
static NO_EDGES: [(&str, &str); 3] = [
    ("xyz", FAILED),
    ("11009fffffffffff", DIR_EDGE_INVALID),
    ("85283473fffffff", DIR_EDGE_INVALID),
];

/// Words that are no cell.
static NO_CELLS: [(&str, &str); 3] = [
    ("xyz", FAILED),
    ("81087ffffffffff", CELL_INVALID),
    ("115283473fffffff", CELL_INVALID),
];

#[test]
fn words_that_are_no_edge_are_refused(rt: HostRuntime) {
    for (edge, line) in &NO_EDGES {
        let refused = refuses(rt.alloc(), origin(edge), line)
            && refuses(rt.alloc(), destination(edge), line);
        expect(&rt, edge, refused);
    }
    for (cell, line) in &NO_CELLS {
        expect(&rt, cell, refuses(rt.alloc(), edges(cell), line));
    }
}

/// Two words, and the error of both commands.
static JUDGED_IN_ORDER: [(&str, &str, &str); 6] = [
    ("xyz", "85283473fffffff", FAILED),
    ("81087ffffffffff", "85283473fffffff", CELL_INVALID),
    ("85283473fffffff", "xyz", FAILED),
    ("85283473fffffff", "81087ffffffffff", CELL_INVALID),
    ("xyz", "81087ffffffffff", FAILED),
    ("81087ffffffffff", "xyz", CELL_INVALID),
];

#[test]
fn the_cell_is_judged_before_the_second_cell(rt: HostRuntime) {
    for (row, (cell, to, line)) in JUDGED_IN_ORDER.iter().enumerate() {
        let refused = refuses(rt.alloc(), neighbors(cell, to), line)
            && refuses(rt.alloc(), edge_between(cell, to), line);
        expect_row(&rt, row, refused);
    }
}

/// Commands that are refused, if their table is not.
static TO_REFUSE: [Command; 3] = [
    Command::AreNeighborCells {
        cell: Some(0x85283473fffffff),
        to: Some(0x8428347ffffffff),
    },
    Command::CellsToDirectedEdge {
        cell: Some(0x85283473fffffff),
        to: Some(0x85283473fffffff),
    },
    Command::GetDirectedEdgeDestination {
        edge: Some(0x11021fffffffffff),
    },
];

#[test]
fn the_table_is_judged_before_the_cells_and_the_edge(rt: HostRuntime) {
    for (row, command) in TO_REFUSE.iter().enumerate() {
        let refused = refuses_table(rt.alloc(), "", *command, "table: form 1\n");
        expect_row(&rt, row, refused);
    }
}
