//! The commands.

/// A function of one index: a command in the singular answers it for a word, one in the plural for
/// each line of a list, and the library for C for an index or each of a column.
#[derive(Clone, Copy, Eq, PartialEq)]
pub enum IndexFunction {
    /// `isValidCell`
    IsValidCell,

    /// `isValidDirectedEdge`
    IsValidDirectedEdge,

    /// `getResolution`
    GetResolution,

    /// `getBaseCellNumber`
    GetBaseCellNumber,

    /// `isPentagon`
    IsPentagon,

    /// `isResClassIII`
    IsResClassIII,

    /// `cellToParent`
    CellToParent { res: i32 },

    /// `cellToCenterChild`
    CellToCenterChild { res: i32 },

    /// `cellToLastChild`
    CellToLastChild { res: i32 },

    /// `cellToChildrenSize`
    CellToChildrenSize { res: i32 },

    /// `cellToChildPos`
    CellToChildPos { res: i32 },

    /// `getDirectedEdgeOrigin`
    GetDirectedEdgeOrigin,

    /// `originToDirectedEdges`
    OriginToDirectedEdges,
}

/// A command with what its words parse as: one variant a command, named as H3's functions are; those of the
/// functions of one index share one in the singular, and one in the plural.
///
/// An index is `None` where its word parses as none.
#[derive(Clone, Copy, PartialEq, Eq)]
pub enum Command {
    /// What a function of one index returns for the index of a word.
    ForOne(IndexFunction, Option<u64>),

    /// How many cells a resolution has.
    GetNumCells {
        res: i32,
    },

    /// The cells of resolution 0.
    GetRes0Cells,

    /// The pentagons of a resolution.
    GetPentagons {
        res: i32,
    },

    /// The descendants of a cell at a resolution.
    CellToChildren {
        cell: Option<u64>,
        res: i32,
    },

    /// The descendant of a cell at a resolution that stands at a position.
    ChildPosToCell {
        position: u64,
        cell: Option<u64>,
        res: i32,
    },

    /// The cells that cover those of a list with no overlap and no complete set of siblings.
    CompactCells,

    /// The cells of a resolution below the cells of a list.
    UncompactCells {
        res: i32,
    },

    /// How many cells of a resolution `UncompactCells` gives for a list.
    UncompactCellsSize {
        res: i32,
    },

    /// The cells that cover what those of a list cover, which may overlap one another, with no
    /// overlap and no complete set of siblings.
    UniteCells,

    /// The cells that cover what both a list and a file of cells cover, with no overlap and no
    /// complete set of siblings.
    IntersectCells,

    /// The cells that cover what a list covers and a file of cells does not, with no overlap and no
    /// complete set of siblings.
    SubtractCells,

    /// Whether a file of cells covers each cell of a list.
    AreCoveredCells,

    /// The zone of each cell of a list: the one cell of a file, in which no two overlap, that is the
    /// cell or an ancestor of it.
    CellsToZones,

    /// How many cells of a list lie in each zone of a file, and how many in none.
    CountCellsInZones,

    /// How many cells of a list each ancestor at a resolution has.
    CountCellsInParents {
        res: i32,
    },

    /// The cells within a radius of a cell, over a base cell table.
    GridDiskUnsafe {
        cell: Option<u64>,
        k: i32,
    },

    /// The cells within a radius of a cell, each with the number of its ring, over a base cell
    /// table.
    GridDiskDistancesUnsafe {
        cell: Option<u64>,
        k: i32,
    },

    /// The cells of the ring of a radius around a cell, over a base cell table.
    GridRingUnsafe {
        cell: Option<u64>,
        k: i32,
    },

    /// Whether two cells are neighbors, over a base cell table.
    AreNeighborCells {
        cell: Option<u64>,
        to: Option<u64>,
    },

    /// The edge that leaves a cell and leads to another, over a base cell table.
    CellsToDirectedEdge {
        cell: Option<u64>,
        to: Option<u64>,
    },

    /// The cell that an edge leads to, over a base cell table.
    GetDirectedEdgeDestination {
        edge: Option<u64>,
    },

    /// The descendants at a resolution of each cell of a list.
    CellsToChildren {
        res: i32,
    },

    /// The cells within a radius of each cell of a list, over a base cell table.
    GridDisksUnsafe {
        k: i32,
    },

    /// The cells within a radius of each cell of a list, each with the number of its ring, over a
    /// base cell table.
    GridDisksDistancesUnsafe {
        k: i32,
    },

    /// The cells of the ring of a radius around each cell of a list, over a base cell table.
    GridRingsUnsafe {
        k: i32,
    },

    /// The cell that each edge of a list leads to, over a base cell table.
    GetDirectedEdgeDestinations,

    /// What a function of one index returns for each index of a list.
    ForEach(IndexFunction),
}
