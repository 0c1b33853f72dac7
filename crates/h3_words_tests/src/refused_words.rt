//! Invalid command lines, and what is said of them.

use crate::expected::expect_all;
use h3_parses::read;
use h3_words::ArgsError;
use std::alloc::Global;

/// What is said of an invalid command line; nothing of a line that is none.
fn said_of(alloc: Global, line: &str) -> String {
    match read(alloc, line) {
        Err(ArgsError::Usage(text)) => text,
        _ => String::new(alloc),
    }
}

/// Whether a line is an invalid command line, of which something is said.
pub fn is_invalid(alloc: Global, line: &str) -> bool {
    !said_of(alloc, line).is_empty()
}

/// The first of these lines that is no invalid command line, or how many they are.
pub fn first_valid(alloc: Global, lines: &[&str]) -> usize {
    for (row, line) in lines.iter().enumerate() {
        if !is_invalid(alloc, line) {
            return row;
        }
    }
    lines.len()
}

/// Invalid lines of commands without a file.
static OTHER_WORDS: [&str; 29] = [
    "h3",
    "h3 nothing",
    "h3 isValidCell",
    "h3 isValidCell -c",
    "h3 isValidCell -c 0 -c 0",
    "h3 isValidCell -c 0 -r 3",
    "h3 getResolution",
    "h3 getRes0Cells -c 0",
    "h3 cellToParent -c 85283473fffffff",
    "h3 cellToParent -c 85283473fffffff -r five",
    "h3 cellToParent -c 85283473fffffff -r -1",
    "h3 cellToParent -c 85283473fffffff -r 2147483648",
    "h3 childPosToCell --position 9223372036854775808 -c 85283473fffffff -r 5",
    "h3 childPosToCell -c 85283473fffffff -r 5",
    "h3 uncompactCells",
    "h3 isValidCell -c 0 0",
    "h3 getRes0Cells -r 0",
    "h3 getNumCells -r 0 -r 0",
    "h3 getNumCells -r 0 -c 0",
    "h3 cellToParent -c 0 -r 0 --position 0",
    "h3 childPosToCell --position 0 -c 0 -r 0 junk",
    "h3 compactCells -r 6",
    "h3 compactCells junk",
    "h3 uncompactCells -r 6 junk",
    "h3 getResolution -c 0 --table t",
    "h3 uncompactCells -r 6 --table t",
    "h3 uncompactCellsSize",
    "h3 uncompactCellsSize -r 6 cells",
    "h3 --versions",
];

#[test]
fn refuses_other_words(rt: HostRuntime) {
    let row = first_valid(rt.alloc(), &OTHER_WORDS);
    expect_all(&rt, row, OTHER_WORDS.len());
}

/// Invalid lines of commands over a region or zones, and of options that other commands have.
static OTHER_WORDS_OF_REGIONS_AND_ZONES: [&str; 38] = [
    "h3 intersectCells",
    "h3 intersectCells --region",
    "h3 intersectCells region",
    "h3 intersectCells --zones z",
    "h3 intersectCells --table t",
    "h3 intersectCells --region r --region r",
    "h3 intersectCells --region r r",
    "h3 intersectCells -r r",
    "h3 subtractCells",
    "h3 subtractCells --region r --zones z",
    "h3 subtractCells --region r -c 0",
    "h3 areCoveredCells",
    "h3 areCoveredCells --zones z",
    "h3 areCoveredCells --region r --table t",
    "h3 areCoveredCell --region r",
    "h3 cellsToZones",
    "h3 cellsToZones --region r",
    "h3 cellsToZones --zone z",
    "h3 cellsToZones --zones z z",
    "h3 cellToZone --zones z",
    "h3 countCellsInZones",
    "h3 countCellsInZones --region r",
    "h3 countCellsInZones --zones z --zones=z",
    "h3 countCellsInZones --zones z -r 4",
    "h3 countCellsInParents",
    "h3 countCellsInParents -r",
    "h3 countCellsInParents -r four",
    "h3 countCellsInParents -r -1",
    "h3 countCellsInParents -r 2147483648",
    "h3 countCellsInParents -r 4 -r 4",
    "h3 countCellsInParents -r 4 --zones z",
    "h3 countCellsInParents -r 4 --region r",
    "h3 countCellsInParents -r 4 -c 0",
    "h3 countCellsInParents -r 4 cells",
    "h3 countCellsInParent -r 4",
    "h3 uniteCells --region r",
    "h3 compactCells --zones z",
    "h3 gridDiskUnsafe -c 0 -k 1 --region r",
];

#[test]
fn refuses_other_words_of_regions_and_zones(rt: HostRuntime) {
    let row = first_valid(rt.alloc(), &OTHER_WORDS_OF_REGIONS_AND_ZONES);
    expect_all(&rt, row, OTHER_WORDS_OF_REGIONS_AND_ZONES.len());
}

/// Invalid lines of disks and rings.
static OTHER_WORDS_OF_DISKS_AND_RINGS: [&str; 22] = [
    "h3 gridDiskUnsafe -c 0 -k 1",
    "h3 gridDiskUnsafe -c 0 --table t",
    "h3 gridDiskUnsafe -k 1 --table t",
    "h3 gridDiskUnsafe -c 0 -k 1 --table",
    "h3 gridDiskUnsafe -c 0 -k 1 --table t --table t",
    "h3 gridDiskUnsafe -c 0 -k 1 -k 1 --table t",
    "h3 gridDiskUnsafe -c 0 -c 0 -k 1 --table t",
    "h3 gridDiskUnsafe -c 0 -k -1 --table t",
    "h3 gridDiskUnsafe -c 0 -k=-1 --table t",
    "h3 gridDiskUnsafe -c 0 -k 2147483648 --table t",
    "h3 gridDiskUnsafe -c 0 -k one --table t",
    "h3 gridDiskUnsafe -c 0 -k 1 -r 1 --table t",
    "h3 gridDiskUnsafe -c 0 -k 1 --table t t",
    "h3 gridDiskUnsafe -c 0 --k 1 --table t",
    "h3 gridDiskUnsafe -c 0 -k 1 -t t",
    "h3 gridDiskDistancesUnsafe -c 0 -k 1",
    "h3 gridDiskDistancesUnsafe -c 0 -k 2147483648 --table t",
    "h3 gridDiskDistancesUnsafe -c 0 -k 1 --table t --position 0",
    "h3 gridRingUnsafe -k 1 --table t",
    "h3 gridRingUnsafe -c 0 --table t",
    "h3 gridRingUnsafe -c 0 -k -1 --table t",
    "h3 gridRingUnsafe -c 0 -k 1 --table t --table=t",
];

#[test]
fn refuses_other_words_of_disks_and_rings(rt: HostRuntime) {
    let row = first_valid(rt.alloc(), &OTHER_WORDS_OF_DISKS_AND_RINGS);
    expect_all(&rt, row, OTHER_WORDS_OF_DISKS_AND_RINGS.len());
}

/// Invalid lines of commands on two cells and edges.
static OTHER_WORDS_OF_EDGES: [&str; 24] = [
    "h3 areNeighborCells -c 0 --to 0",
    "h3 areNeighborCells -c 0 --table t",
    "h3 areNeighborCells --to 0 --table t",
    "h3 areNeighborCells -c 0 --to 0 --to 0 --table t",
    "h3 areNeighborCells -c 0 --to --table t",
    "h3 areNeighborCells -c 0 --to 0 -k 1 --table t",
    "h3 cellsToDirectedEdge -c 0 --to 0",
    "h3 cellsToDirectedEdge -c 0 --edge 0 --table t",
    "h3 cellsToDirectedEdge -c 0 -t 0 --table t",
    "h3 isValidDirectedEdge",
    "h3 isValidDirectedEdge -c 0",
    "h3 isValidDirectedEdge -e 0",
    "h3 isValidDirectedEdge --edge",
    "h3 isValidDirectedEdge --edge 0 --edge 0",
    "h3 isValidDirectedEdge --edge 0 --table t",
    "h3 getDirectedEdgeOrigin",
    "h3 getDirectedEdgeOrigin --edge 0 --table t",
    "h3 getDirectedEdgeDestination --edge 0",
    "h3 getDirectedEdgeDestination --table t",
    "h3 getDirectedEdgeDestination --edge 0 --table t --table t",
    "h3 originToDirectedEdges",
    "h3 originToDirectedEdges --edge 0",
    "h3 originToDirectedEdges -c 0 --to 0",
    "h3 originToDirectedEdges -c 0 --table t",
];

#[test]
fn refuses_other_words_of_edges(rt: HostRuntime) {
    let row = first_valid(rt.alloc(), &OTHER_WORDS_OF_EDGES);
    expect_all(&rt, row, OTHER_WORDS_OF_EDGES.len());
}

/// Invalid lines of functions of each index of a list.
static OTHER_WORDS_OF_FUNCTIONS: [&str; 30] = [
    "h3 areValidCells -c 85283473fffffff",
    "h3 areValidCells -r 4",
    "h3 areValidCells 85283473fffffff",
    "h3 areValidCell",
    "h3 arevalidcells",
    "h3 isValidCells",
    "h3 areValidDirectedEdges --edge 115283473fffffff",
    "h3 getResolutions -r 4",
    "h3 getBaseCellNumbers -c 0",
    "h3 arePentagons --table t",
    "h3 areResClassIII -k 1",
    "h3 getDirectedEdgeOrigins --edge 0",
    "h3 originsToDirectedEdges -c 0",
    "h3 originsToDirectedEdges --to 0",
    "h3 cellsToParents",
    "h3 cellsToParents -r",
    "h3 cellsToParents -r five",
    "h3 cellsToParents -r -1",
    "h3 cellsToParents -r 2147483648",
    "h3 cellsToParents -r 4 -r 4",
    "h3 cellsToParents -r 4 -c 0",
    "h3 cellsToParents -r 4 list",
    "h3 cellsToCenterChildren",
    "h3 cellsToCenterChildren -r=-1",
    "h3 cellsToLastChildren",
    "h3 cellsToLastChildren -r 4 -c 0",
    "h3 cellsToChildrenSizes",
    "h3 cellsToChildrenSizes -r 4 --table t",
    "h3 cellsToChildPositions",
    "h3 cellsToChildPositions -r 0 --position 0",
];

#[test]
fn refuses_other_words_of_functions_of_each_index(rt: HostRuntime) {
    let row = first_valid(rt.alloc(), &OTHER_WORDS_OF_FUNCTIONS);
    expect_all(&rt, row, OTHER_WORDS_OF_FUNCTIONS.len());
}

/// Invalid lines of commands that answer each line of a list over a table, and of children.
static OTHER_WORDS_OF_LISTS_OVER_TABLES: [&str; 22] = [
    "h3 gridDisksUnsafe -k 1",
    "h3 gridDisksUnsafe --table t",
    "h3 gridDisksUnsafe -c 0 -k 1 --table t",
    "h3 gridDisksUnsafe -k -1 --table t",
    "h3 gridDisksUnsafe -k 2147483648 --table t",
    "h3 gridDisksUnsafe -k 1 -k 1 --table t",
    "h3 gridDisksUnsafe -k 1 --table t cells",
    "h3 gridDisksUnsafe -k 1 --table t --keep-going",
    "h3 gridDisksDistancesUnsafe -k 1",
    "h3 gridDisksDistancesUnsafe -k 1 --table t -r 4",
    "h3 gridDisksDistancesUnsafe -k 1 --table t --field 1 --as distance",
    "h3 gridRingsUnsafe --table t",
    "h3 gridRingsUnsafe -k 1 --table t --table t",
    "h3 gridRingsUnsafe -k 1 --region r",
    "h3 getDirectedEdgeDestinations",
    "h3 getDirectedEdgeDestinations --table",
    "h3 getDirectedEdgeDestinations --table t --edge 0",
    "h3 getDirectedEdgeDestinations --table t -k 1",
    "h3 cellsToChildren",
    "h3 cellsToChildren -r 6 -c 0",
    "h3 cellsToChildren -k 1",
    "h3 cellsToChildren -r 6 --table t",
];

#[test]
fn refuses_other_words_of_lists_over_tables(rt: HostRuntime) {
    let row = first_valid(rt.alloc(), &OTHER_WORDS_OF_LISTS_OVER_TABLES);
    expect_all(&rt, row, OTHER_WORDS_OF_LISTS_OVER_TABLES.len());
}

/// Invalid lines, and what is said of each.
static SAID: [(&str, &str); 16] = [
    (
        "h3 getNumCells -r -1",
        "invalid value '-1' for '--resolution <resolution>': -1 is not in 0..=2147483647",
    ),
    (
        "h3 cellsToParents --resolution -70",
        "invalid value '-70' for '--resolution <resolution>'",
    ),
    (
        "h3 cellToParent -r -1 -c 0",
        "invalid value '-1' for '--resolution <resolution>'",
    ),
    (
        "h3 gridDiskUnsafe -c 0 -k -12 --table t",
        "invalid value '-12' for '-k <k>'",
    ),
    (
        "h3 childPosToCell --position -1 -c 0 -r 4",
        "invalid value '-1' for '--position <position>'",
    ),
    (
        "h3 cellToParent -c -1 -r 4",
        "unexpected argument '-1' found",
    ),
    ("h3 getNumCells -r -x", "unexpected argument '-x' found"),
    ("h3 getNumCells -1 -r 4", "unexpected argument '-1' found"),
    ("h3 getNumCells -r", "a value is required for '--resolution"),
    ("h3 compactCells cells", "Usage: h3 compactCells < cells\n"),
    (
        "h3 uncompactCells cells -r 6",
        "Usage: h3 uncompactCells --resolution <resolution> < cells\n",
    ),
    (
        "h3 getDirectedEdgeOrigins edges",
        "Usage: h3 getDirectedEdgeOrigins < edges\n",
    ),
    (
        "h3 subtractCells region",
        "Usage: h3 subtractCells --region <region> < cells\n",
    ),
    ("h3 cellsToZones", "--zones <zones>"),
    (
        "h3 gridDisksUnsafe -k 1 --table t cells",
        "Usage: h3 gridDisksUnsafe -k <k> --table <table> < cells\n",
    ),
    (
        "h3 gridRingsUnsafe -k -1 --table t",
        "invalid value '-1' for '-k <k>'",
    ),
];

/// Whether a line is invalid, and a text is said of it.
fn is_said(alloc: Global, line: &str, said: &str) -> bool {
    said_of(alloc, line).contains(said)
}

/// The first of these lines of which the text beside it is not said, or how many they are.
pub fn first_unsaid(alloc: Global, rows: &[(&str, &str)]) -> usize {
    for (row, (line, said)) in rows.iter().enumerate() {
        if !is_said(alloc, line, said) {
            return row;
        }
    }
    rows.len()
}

#[test]
fn says_what_is_invalid(rt: HostRuntime) {
    let row = first_unsaid(rt.alloc(), &SAID);
    expect_all(&rt, row, SAID.len());
}
