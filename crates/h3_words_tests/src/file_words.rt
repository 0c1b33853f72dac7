//! The words of commands over a file: a table, a region or zones.

use crate::expected::{expect, expect_all};
use crate::words::{CELL, EDGE};
use h3_parses::{read, read_apart};
use h3_requests::Command;
use h3_words::{CommandFile, Words};
use std::alloc::Global;

/// The kind of a file.
#[derive(Clone, Copy, Drop)]
enum Kind {
    Table,
    Region,
    Zones,
}

/// Whether a file is of this kind, and at this path.
fn is_at(file: &CommandFile, kind: Kind, wanted: &str) -> bool {
    match (file, kind) {
        (CommandFile::Table(path), Kind::Table) => path.as_str() == wanted,
        (CommandFile::Region(path), Kind::Region) => path.as_str() == wanted,
        (CommandFile::Zones(path), Kind::Zones) => path.as_str() == wanted,
        _ => false,
    }
}

/// Whether words parse as a command over a file of this kind, at a path.
fn are_over(words: &Words, kind: Kind, command: Command, path: &str) -> bool {
    match &words.file {
        Some(file) => is_at(file, kind, path) && words.command == command,
        None => false,
    }
}

/// Whether a line asks for a command over a file of this kind, at a path.
fn asks_over(alloc: Global, line: &str, kind: Kind, command: Command, path: &str) -> bool {
    match read(alloc, line) {
        Ok(words) => are_over(&words, kind, command, path),
        Err(_) => false,
    }
}

/// The first of these lines that does not ask for the command beside it over a file of this kind at
/// the path, or how many they are.
fn first_other(alloc: Global, kind: Kind, rows: &[(&str, Command, &str)]) -> usize {
    for (row, (line, command, path)) in rows.iter().enumerate() {
        if !asks_over(alloc, line, kind, *command, path) {
            return row;
        }
    }
    rows.len()
}

/// The same of commands over a table at the path `t`.
fn first_other_table(alloc: Global, rows: &[(&str, Command)]) -> usize {
    for (row, (line, command)) in rows.iter().enumerate() {
        if !asks_over(alloc, line, Kind::Table, *command, "t") {
            return row;
        }
    }
    rows.len()
}

/// Another cell.
const TO: Option<u64> = Some(0x85283477fffffff);

/// Lines of disks, and the path of the table.
static DISKS: [(&str, Command, &str); 4] = [
    (
        "h3 gridDiskUnsafe -c 85283473fffffff -k 1 --table plain.csv",
        Command::GridDiskUnsafe { cell: CELL, k: 1 },
        "plain.csv",
    ),
    (
        "h3 gridDiskUnsafe --table plain.csv -k 0 --cell 85283473fffffff",
        Command::GridDiskUnsafe { cell: CELL, k: 0 },
        "plain.csv",
    ),
    (
        "h3 gridDiskUnsafe -k=+4 -c85283473fffffff --table=/tmp/a=b",
        Command::GridDiskUnsafe { cell: CELL, k: 4 },
        "/tmp/a=b",
    ),
    (
        "h3 gridDiskUnsafe --table= -k 2147483647 -c xyz",
        Command::GridDiskUnsafe {
            cell: None,
            k: 2147483647,
        },
        "",
    ),
];

#[test]
fn reads_disks(rt: HostRuntime) {
    let row = first_other(rt.alloc(), Kind::Table, &DISKS);
    expect_all(&rt, row, DISKS.len());
}

/// Lines of distances and rings, and the path of the table.
static DISTANCES_AND_RINGS: [(&str, Command, &str); 3] = [
    (
        "h3 gridDiskDistancesUnsafe -c 85283473fffffff -k3 --table Tabelle-\u{e4}.csv",
        Command::GridDiskDistancesUnsafe { cell: CELL, k: 3 },
        "Tabelle-\u{e4}.csv",
    ),
    (
        "h3 gridRingUnsafe -k 7 --table=--table -c=85283473fffffff",
        Command::GridRingUnsafe { cell: CELL, k: 7 },
        "--table",
    ),
    (
        "h3 gridRingUnsafe --table - -c 0 -k 0",
        Command::GridRingUnsafe {
            cell: Some(0),
            k: 0,
        },
        "-",
    ),
];

#[test]
fn reads_distances_and_rings(rt: HostRuntime) {
    let row = first_other(rt.alloc(), Kind::Table, &DISTANCES_AND_RINGS);
    expect_all(&rt, row, DISTANCES_AND_RINGS.len());
}

/// Lines of commands on two cells over a table.
static OF_TWO_CELLS: [(&str, Command); 5] = [
    (
        "h3 areNeighborCells -c 85283473fffffff --to 85283477fffffff --table t",
        Command::AreNeighborCells { cell: CELL, to: TO },
    ),
    (
        "h3 areNeighborCells --table t --to=85283477fffffff -c85283473fffffff",
        Command::AreNeighborCells { cell: CELL, to: TO },
    ),
    (
        "h3 areNeighborCells --to 85283473fffffff --table t -c 85283477fffffff",
        Command::AreNeighborCells { cell: TO, to: CELL },
    ),
    (
        "h3 cellsToDirectedEdge --to 85283477fffffff -c 85283473fffffff --table=t",
        Command::CellsToDirectedEdge { cell: CELL, to: TO },
    ),
    (
        "h3 cellsToDirectedEdge --to xyz --table t -c 85283473fffffff",
        Command::CellsToDirectedEdge {
            cell: CELL,
            to: None,
        },
    ),
];

#[test]
fn reads_two_cells(rt: HostRuntime) {
    let row = first_other_table(rt.alloc(), &OF_TWO_CELLS);
    expect_all(&rt, row, OF_TWO_CELLS.len());
}

/// Lines of a command on an edge over a table.
static OF_AN_EDGE_OVER_A_TABLE: [(&str, Command); 2] = [
    (
        "h3 getDirectedEdgeDestination --edge 115283473fffffff --table t",
        Command::GetDirectedEdgeDestination { edge: EDGE },
    ),
    (
        "h3 getDirectedEdgeDestination --table t --edge=",
        Command::GetDirectedEdgeDestination { edge: None },
    ),
];

#[test]
fn reads_an_edge_over_a_table(rt: HostRuntime) {
    let row = first_other_table(rt.alloc(), &OF_AN_EDGE_OVER_A_TABLE);
    expect_all(&rt, row, OF_AN_EDGE_OVER_A_TABLE.len());
}

/// Lines of commands that answer a list over a table.
static OF_A_LIST_OVER_A_TABLE: [(&str, Command); 6] = [
    (
        "h3 gridDisksUnsafe -k 2 --table t",
        Command::GridDisksUnsafe { k: 2 },
    ),
    (
        "h3 gridDisksUnsafe --table=t --csv -k2147483647 --column cell --keep-going",
        Command::GridDisksUnsafe { k: 2147483647 },
    ),
    (
        "h3 gridDisksDistancesUnsafe --table t -k=0 --field 2",
        Command::GridDisksDistancesUnsafe { k: 0 },
    ),
    (
        "h3 gridRingsUnsafe -k 1 --table t",
        Command::GridRingsUnsafe { k: 1 },
    ),
    (
        "h3 getDirectedEdgeDestinations --table t",
        Command::GetDirectedEdgeDestinations,
    ),
    (
        "h3 getDirectedEdgeDestinations --column edge --as to --table=t",
        Command::GetDirectedEdgeDestinations,
    ),
];

#[test]
fn reads_lists_over_a_table(rt: HostRuntime) {
    let row = first_other_table(rt.alloc(), &OF_A_LIST_OVER_A_TABLE);
    expect_all(&rt, row, OF_A_LIST_OVER_A_TABLE.len());
}

/// Lines of commands over a region, and its path.
static OVER_A_REGION: [(&str, Command, &str); 5] = [
    (
        "h3 intersectCells --region region",
        Command::IntersectCells,
        "region",
    ),
    (
        "h3 intersectCells --region=/tmp/a=b",
        Command::IntersectCells,
        "/tmp/a=b",
    ),
    ("h3 subtractCells --region -", Command::SubtractCells, "-"),
    (
        "h3 subtractCells --region=--zones",
        Command::SubtractCells,
        "--zones",
    ),
    (
        "h3 areCoveredCells --region Gebiet-\u{e4}",
        Command::AreCoveredCells,
        "Gebiet-\u{e4}",
    ),
];

#[test]
fn reads_the_path_of_a_region(rt: HostRuntime) {
    let row = first_other(rt.alloc(), Kind::Region, &OVER_A_REGION);
    expect_all(&rt, row, OVER_A_REGION.len());
}

/// Lines of commands over zones, and their path.
static OVER_ZONES: [(&str, Command, &str); 4] = [
    (
        "h3 cellsToZones --zones zones",
        Command::CellsToZones,
        "zones",
    ),
    ("h3 cellsToZones --zones=", Command::CellsToZones, ""),
    (
        "h3 countCellsInZones --zones ../zones",
        Command::CountCellsInZones,
        "../zones",
    ),
    (
        "h3 countCellsInZones --zones=--region",
        Command::CountCellsInZones,
        "--region",
    ),
];

#[test]
fn reads_the_path_of_zones(rt: HostRuntime) {
    let row = first_other(rt.alloc(), Kind::Zones, &OVER_ZONES);
    expect_all(&rt, row, OVER_ZONES.len());
}

/// Words with a path that has blanks.
static WITH_BLANKS: [&str; 8] = [
    "h3",
    "gridDiskUnsafe",
    "-k",
    "1",
    "--table",
    " ../two words/\t\u{1f5fa}/ ",
    "-c",
    "85283473fffffff",
];

#[test]
fn keeps_a_path_as_it_is(rt: HostRuntime) {
    let disk = Command::GridDiskUnsafe { cell: CELL, k: 1 };
    let path = " ../two words/\t\u{1f5fa}/ ";
    let kept = match read_apart(rt.alloc(), &WITH_BLANKS) {
        Ok(words) => are_over(&words, Kind::Table, disk, path),
        Err(_) => false,
    };
    expect(&rt, "blanks are kept", kept);
}
