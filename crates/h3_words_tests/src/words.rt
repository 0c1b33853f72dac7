//! The words of a command line: those of commands without a file.

use crate::expected::{expect, expect_all};
use h3_parses::read;
use h3_requests::{Command, IndexFunction};
use h3_words::{ListKind, list_of};
use std::alloc::Global;

/// Whether a line asks for a command without a file.
fn asks_for(alloc: Global, line: &str, command: Command) -> bool {
    match read(alloc, line) {
        Ok(words) => words.command == command && words.file.is_none(),
        Err(_) => false,
    }
}

/// The first of these lines that does not ask for the command beside it, or how many they are.
fn first_other(alloc: Global, rows: &[(&str, Command)]) -> usize {
    for (row, (line, command)) in rows.iter().enumerate() {
        if !asks_for(alloc, line, *command) {
            return row;
        }
    }
    rows.len()
}

/// The same of functions of each index of a list.
fn first_other_function(alloc: Global, rows: &[(&str, IndexFunction)]) -> usize {
    for (row, (line, function)) in rows.iter().enumerate() {
        if !asks_for(alloc, line, Command::ForEach(*function)) {
            return row;
        }
    }
    rows.len()
}

/// The cell of many lines.
pub const CELL: Option<u64> = Some(0x85283473fffffff);

/// An edge.
pub const EDGE: Option<u64> = Some(0x115283473fffffff);

/// Lines of `isValidCell`, and the index of the cell.
static VALID_CELL: [(&str, Option<u64>); 6] = [
    ("h3 isValidCell -c 85283473fffffff", CELL),
    ("h3 isValidCell --cell 85283473fffffff", CELL),
    ("h3 isValidCell --cell=85283473fffffff", CELL),
    ("h3 isValidCell -c85283473fffffff", CELL),
    ("h3 isValidCell -c=0x85283473FFFFFFF", CELL),
    ("h3 isValidCell -c xyz", None),
];

#[test]
fn reads_commands(rt: HostRuntime) {
    for (line, cell) in &VALID_CELL {
        let command = Command::ForOne(IndexFunction::IsValidCell, *cell);
        expect(&rt, line, asks_for(rt.alloc(), line, command));
    }
}

/// Lines of commands, and what these read on standard input.
static LISTS: [(&str, Option<ListKind>); 10] = [
    ("h3 getRes0Cells", None),
    ("h3 isValidCell -c 85283473fffffff", None),
    (
        "h3 getDirectedEdgeDestination --edge=115283473fffffff --table=t",
        None,
    ),
    ("h3 compactCells", Some(ListKind::Cells)),
    ("h3 cellsToZones --zones zones", Some(ListKind::Cells)),
    ("h3 areValidDirectedEdges", Some(ListKind::Edges)),
    ("h3 getDirectedEdgeOrigins", Some(ListKind::Edges)),
    (
        "h3 getDirectedEdgeDestinations --table=t",
        Some(ListKind::Edges),
    ),
    (
        "h3 getDirectedEdgeOrigins --csv --column=edge",
        Some(ListKind::Rows),
    ),
    ("h3 uniteCells --field 2", Some(ListKind::Rows)),
];

/// Whether the command of a line reads this on standard input.
fn reads_list(alloc: Global, line: &str, list: Option<ListKind>) -> bool {
    match read(alloc, line) {
        Ok(words) => list_of(&words) == list,
        Err(_) => false,
    }
}

#[test]
fn some_commands_read_a_list(rt: HostRuntime) {
    for (line, list) in &LISTS {
        expect(&rt, line, reads_list(rt.alloc(), line, *list));
    }
}

/// Lines of commands on a cell, or on nothing.
static OF_A_CELL: [(&str, Command); 6] = [
    ("h3 getRes0Cells", Command::GetRes0Cells),
    (
        "h3 getResolution -c 85283473fffffff",
        Command::ForOne(IndexFunction::GetResolution, CELL),
    ),
    (
        "h3 getBaseCellNumber -c 85283473fffffff",
        Command::ForOne(IndexFunction::GetBaseCellNumber, CELL),
    ),
    (
        "h3 isPentagon -c 85283473fffffff",
        Command::ForOne(IndexFunction::IsPentagon, CELL),
    ),
    (
        "h3 isResClassIII -c 85283473fffffff",
        Command::ForOne(IndexFunction::IsResClassIII, CELL),
    ),
    (
        "h3 originToDirectedEdges --cell=85283473fffffff",
        Command::ForOne(IndexFunction::OriginToDirectedEdges, CELL),
    ),
];

#[test]
fn reads_a_cell(rt: HostRuntime) {
    let row = first_other(rt.alloc(), &OF_A_CELL);
    expect_all(&rt, row, OF_A_CELL.len());
}

/// Lines of commands with a resolution, and on a list.
static OF_A_RESOLUTION: [(&str, Command); 10] = [
    ("h3 getNumCells -r 15", Command::GetNumCells { res: 15 }),
    (
        "h3 getPentagons --resolution=2147483647",
        Command::GetPentagons { res: 2147483647 },
    ),
    ("h3 compactCells", Command::CompactCells),
    ("h3 uncompactCells -r 6", Command::UncompactCells { res: 6 }),
    (
        "h3 uncompactCellsSize --resolution 16",
        Command::UncompactCellsSize { res: 16 },
    ),
    ("h3 uniteCells", Command::UniteCells),
    (
        "h3 countCellsInParents -r 4",
        Command::CountCellsInParents { res: 4 },
    ),
    (
        "h3 countCellsInParents --field=1 --resolution 2147483647",
        Command::CountCellsInParents { res: 2147483647 },
    ),
    (
        "h3 cellsToChildren -r 6",
        Command::CellsToChildren { res: 6 },
    ),
    (
        "h3 cellsToChildren --field=1 --resolution 2147483647",
        Command::CellsToChildren { res: 2147483647 },
    ),
];

#[test]
fn reads_resolutions(rt: HostRuntime) {
    let row = first_other(rt.alloc(), &OF_A_RESOLUTION);
    expect_all(&rt, row, OF_A_RESOLUTION.len());
}

/// Lines of commands on a cell with a resolution.
static OF_A_CELL_AND_A_RESOLUTION: [(&str, Command); 7] = [
    (
        "h3 cellToParent -r 4 -c 85283473fffffff",
        Command::ForOne(IndexFunction::CellToParent { res: 4 }, CELL),
    ),
    (
        "h3 cellToCenterChild -c 85283473fffffff -r +6",
        Command::ForOne(IndexFunction::CellToCenterChild { res: 6 }, CELL),
    ),
    (
        "h3 cellToLastChild -r 7 -c 85283473fffffff",
        Command::ForOne(IndexFunction::CellToLastChild { res: 7 }, CELL),
    ),
    (
        "h3 cellToChildren --cell 85283473fffffff -r6",
        Command::CellToChildren { cell: CELL, res: 6 },
    ),
    (
        "h3 cellToChildrenSize -c 85283473fffffff -r=0",
        Command::ForOne(IndexFunction::CellToChildrenSize { res: 0 }, CELL),
    ),
    (
        "h3 cellToChildPos -c 85283473fffffff -r 0",
        Command::ForOne(IndexFunction::CellToChildPos { res: 0 }, CELL),
    ),
    (
        "h3 childPosToCell --position 9223372036854775807 -c 85283473fffffff -r 5",
        Command::ChildPosToCell {
            position: 9223372036854775807,
            cell: CELL,
            res: 5,
        },
    ),
];

#[test]
fn reads_a_cell_and_a_resolution(rt: HostRuntime) {
    let row = first_other(rt.alloc(), &OF_A_CELL_AND_A_RESOLUTION);
    expect_all(&rt, row, OF_A_CELL_AND_A_RESOLUTION.len());
}

/// Lines of functions of each index of a list.
static FUNCTIONS: [(&str, IndexFunction); 8] = [
    ("h3 areValidCells", IndexFunction::IsValidCell),
    (
        "h3 areValidDirectedEdges",
        IndexFunction::IsValidDirectedEdge,
    ),
    ("h3 getResolutions", IndexFunction::GetResolution),
    ("h3 getBaseCellNumbers", IndexFunction::GetBaseCellNumber),
    ("h3 arePentagons", IndexFunction::IsPentagon),
    ("h3 areResClassIII", IndexFunction::IsResClassIII),
    (
        "h3 getDirectedEdgeOrigins",
        IndexFunction::GetDirectedEdgeOrigin,
    ),
    (
        "h3 originsToDirectedEdges",
        IndexFunction::OriginToDirectedEdges,
    ),
];

#[test]
fn reads_functions_of_each_index_of_a_list(rt: HostRuntime) {
    let row = first_other_function(rt.alloc(), &FUNCTIONS);
    expect_all(&rt, row, FUNCTIONS.len());
}

/// Lines of functions of each cell of a list with a resolution.
static FUNCTIONS_WITH_A_RESOLUTION: [(&str, IndexFunction); 6] = [
    (
        "h3 cellsToParents -r 4",
        IndexFunction::CellToParent { res: 4 },
    ),
    (
        "h3 cellsToParents --resolution=2147483647",
        IndexFunction::CellToParent { res: 2147483647 },
    ),
    (
        "h3 cellsToCenterChildren -r +6",
        IndexFunction::CellToCenterChild { res: 6 },
    ),
    (
        "h3 cellsToLastChildren --resolution 6",
        IndexFunction::CellToLastChild { res: 6 },
    ),
    (
        "h3 cellsToChildrenSizes -r16",
        IndexFunction::CellToChildrenSize { res: 16 },
    ),
    (
        "h3 cellsToChildPositions -r=0",
        IndexFunction::CellToChildPos { res: 0 },
    ),
];

#[test]
fn reads_functions_of_each_cell_of_a_list_and_a_resolution(rt: HostRuntime) {
    let row = first_other_function(rt.alloc(), &FUNCTIONS_WITH_A_RESOLUTION);
    expect_all(&rt, row, FUNCTIONS_WITH_A_RESOLUTION.len());
}

/// Lines of commands on an edge.
static OF_AN_EDGE: [(&str, Command); 3] = [
    (
        "h3 isValidDirectedEdge --edge 115283473fffffff",
        Command::ForOne(IndexFunction::IsValidDirectedEdge, EDGE),
    ),
    (
        "h3 isValidDirectedEdge --edge=xyz",
        Command::ForOne(IndexFunction::IsValidDirectedEdge, None),
    ),
    (
        "h3 getDirectedEdgeOrigin --edge 0X115283473FFFFFFF",
        Command::ForOne(IndexFunction::GetDirectedEdgeOrigin, EDGE),
    ),
];

#[test]
fn reads_edges(rt: HostRuntime) {
    let row = first_other(rt.alloc(), &OF_AN_EDGE);
    expect_all(&rt, row, OF_AN_EDGE.len());
}
