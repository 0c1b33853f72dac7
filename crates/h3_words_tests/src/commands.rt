//! Which commands are equal.

use h3_requests::{Command, IndexFunction};

// A command of each variant, of these words, with each function of one index; and of which words it is: c a cell or an
// edge, t another cell, p a position, r a resolution or a radius.
macro_rules! commands {
    ($cell:expr, $to:expr, $position:expr, $res:expr) => {
        [
            (Command::ForOne(IndexFunction::IsValidCell, $cell), "c"),
            (Command::ForOne(IndexFunction::GetResolution, $cell), "c"),
            (Command::ForOne(IndexFunction::GetBaseCellNumber, $cell), "c"),
            (Command::ForOne(IndexFunction::IsPentagon, $cell), "c"),
            (Command::ForOne(IndexFunction::IsResClassIII, $cell), "c"),
            (Command::GetNumCells { res: $res }, "r"),
            (Command::GetRes0Cells, ""),
            (Command::GetPentagons { res: $res }, "r"),
            (Command::ForOne(IndexFunction::CellToParent { res: $res }, $cell), "cr"),
            (Command::ForOne(IndexFunction::CellToCenterChild { res: $res }, $cell), "cr"),
            (Command::ForOne(IndexFunction::CellToLastChild { res: $res }, $cell), "cr"),
            (Command::CellToChildren { cell: $cell, res: $res }, "cr"),
            (Command::ForOne(IndexFunction::CellToChildrenSize { res: $res }, $cell), "cr"),
            (Command::ForOne(IndexFunction::CellToChildPos { res: $res }, $cell), "cr"),
            (Command::ChildPosToCell { position: $position, cell: $cell, res: $res }, "pcr"),
            (Command::CompactCells, ""),
            (Command::UncompactCells { res: $res }, "r"),
            (Command::UncompactCellsSize { res: $res }, "r"),
            (Command::UniteCells, ""),
            (Command::IntersectCells, ""),
            (Command::SubtractCells, ""),
            (Command::AreCoveredCells, ""),
            (Command::CellsToZones, ""),
            (Command::CountCellsInZones, ""),
            (Command::CountCellsInParents { res: $res }, "r"),
            (Command::GridDiskUnsafe { cell: $cell, k: $res }, "cr"),
            (Command::GridDiskDistancesUnsafe { cell: $cell, k: $res }, "cr"),
            (Command::GridRingUnsafe { cell: $cell, k: $res }, "cr"),
            (Command::AreNeighborCells { cell: $cell, to: $to }, "ct"),
            (Command::CellsToDirectedEdge { cell: $cell, to: $to }, "ct"),
            (Command::ForOne(IndexFunction::IsValidDirectedEdge, $cell), "c"),
            (Command::ForOne(IndexFunction::GetDirectedEdgeOrigin, $cell), "c"),
            (Command::GetDirectedEdgeDestination { edge: $cell }, "c"),
            (Command::ForOne(IndexFunction::OriginToDirectedEdges, $cell), "c"),
            (Command::ForEach(IndexFunction::IsValidCell), ""),
            (Command::ForEach(IndexFunction::IsValidDirectedEdge), ""),
            (Command::ForEach(IndexFunction::GetResolution), ""),
            (Command::ForEach(IndexFunction::GetBaseCellNumber), ""),
            (Command::ForEach(IndexFunction::IsPentagon), ""),
            (Command::ForEach(IndexFunction::IsResClassIII), ""),
            (Command::ForEach(IndexFunction::CellToParent { res: $res }), "r"),
            (Command::ForEach(IndexFunction::CellToCenterChild { res: $res }), "r"),
            (Command::ForEach(IndexFunction::CellToLastChild { res: $res }), "r"),
            (Command::ForEach(IndexFunction::CellToChildrenSize { res: $res }), "r"),
            (Command::ForEach(IndexFunction::CellToChildPos { res: $res }), "r"),
            (Command::ForEach(IndexFunction::GetDirectedEdgeOrigin), ""),
            (Command::ForEach(IndexFunction::OriginToDirectedEdges), ""),
            (Command::CellsToChildren { res: $res }, "r"),
            (Command::GridDisksUnsafe { k: $res }, "r"),
            (Command::GridDisksDistancesUnsafe { k: $res }, "r"),
            (Command::GridRingsUnsafe { k: $res }, "r"),
            (Command::GetDirectedEdgeDestinations, ""),
        ]
    };
}

/// The commands of these words.
static COMMANDS: [(Command, &str); 52] = commands!(Some(1), Some(2), 3, 4);

#[test]
fn only_the_same_commands_are_equal(rt: HostRuntime) {
    for (i, (one, _)) in COMMANDS.iter().enumerate() {
        for (j, (other, _)) in COMMANDS.iter().enumerate() {
            let right = (one == other) == (i == j) && (one != other) == (i != j);
            assert!(&rt; right, "{i} and {j}");
        }
    }
}

/// The commands of other words, and in which of them they differ from 1, 2, 3 and 4.
static OTHER_COMMANDS: [(&str, &[(Command, &str)]); 7] = [
    ("none", &commands!(Some(1), Some(2), 3, 4)),
    ("c", &commands!(None, Some(2), 3, 4)),
    ("c", &commands!(Some(5), Some(2), 3, 4)),
    ("t", &commands!(Some(1), None, 3, 4)),
    ("t", &commands!(Some(1), Some(5), 3, 4)),
    ("p", &commands!(Some(1), Some(2), 5, 4)),
    ("r", &commands!(Some(1), Some(2), 3, 5)),
];

#[test]
fn commands_of_other_words_differ(rt: HostRuntime) {
    for (row, (differing, others)) in OTHER_COMMANDS.iter().enumerate() {
        for (i, ((one, words), (other, _))) in COMMANDS.iter().zip(others.iter()).enumerate() {
            let right = (one != other) == words.contains(*differing);
            assert!(&rt; right, "row {row}, command {i}");
        }
    }
}
