//! What help says of each command and each option.

use crate::expected::{expect, expect_of};
use crate::help::help_of;
use std::alloc::Global;

/// What each command answers, as the list of commands says it, and as its own help does.
static ABOUT: [(&str, &str, &str); 52] = [
    (
        "isValidCell",
        "Whether an index is a valid cell",
        "Whether an index is a valid cell",
    ),
    (
        "getResolution",
        "The resolution of a cell",
        "The resolution of a cell",
    ),
    (
        "getBaseCellNumber",
        "The base cell of a cell",
        "The base cell of a cell",
    ),
    (
        "isPentagon",
        "Whether a cell is a pentagon",
        "Whether a cell is a pentagon",
    ),
    (
        "isResClassIII",
        "Whether the resolution of a cell is Class III",
        "Whether the resolution of a cell is Class III",
    ),
    (
        "getNumCells",
        "How many cells a resolution has",
        "How many cells a resolution has",
    ),
    (
        "getRes0Cells",
        "The 122 cells of resolution 0",
        "The 122 cells of resolution 0",
    ),
    (
        "getPentagons",
        "The twelve pentagons of a resolution",
        "The twelve pentagons of a resolution",
    ),
    (
        "cellToParent",
        "The ancestor of a cell at a resolution",
        "The ancestor of a cell at a resolution",
    ),
    (
        "cellToCenterChild",
        "The center descendant of a cell at a resolution",
        "The center descendant of a cell at a resolution",
    ),
    (
        "cellToLastChild",
        "The last descendant of a cell at a resolution",
        "The last descendant of a cell at a resolution, which has the greatest number",
    ),
    (
        "cellToChildren",
        "The descendants of a cell at a resolution",
        "The descendants of a cell at a resolution, ascending",
    ),
    (
        "cellToChildrenSize",
        "How many descendants a cell has at a resolution",
        "How many descendants a cell has at a resolution",
    ),
    (
        "cellToChildPos",
        "The position of a cell below an ancestor",
        "The position of a cell among the descendants of its ancestor at a resolution",
    ),
    (
        "childPosToCell",
        "The descendant of a cell at a position",
        "The descendant of a cell at a position among those at a resolution",
    ),
    (
        "compactCells",
        "Compact a list of cells",
        "Compact the list of cells on standard input, of any resolutions",
    ),
    (
        "uncompactCells",
        "The descendants of the cells at a resolution",
        "The descendants at a resolution of each cell listed on standard input",
    ),
    (
        "uncompactCellsSize",
        "How many cells uncompactCells prints",
        "How many cells uncompactCells prints for the cells listed on standard input",
    ),
    (
        "uniteCells",
        "Union of the cells, compacted",
        "Union of the cells on standard input, compacted; they may repeat and overlap",
    ),
    (
        "intersectCells",
        "Intersection of the cells and a region, compacted",
        "Intersection of the cells on standard input and a region, compacted",
    ),
    (
        "subtractCells",
        "The cells minus a region, compacted",
        "The cells on standard input minus a region, compacted",
    ),
    (
        "areCoveredCells",
        "Whether a region covers each cell",
        "Whether a region covers each cell listed on standard input",
    ),
    (
        "cellsToZones",
        "The zone of each cell",
        "The zone of each cell listed on standard input, or 0 if it has none",
    ),
    (
        "countCellsInZones",
        "Count the cells in each zone",
        "Count the cells on standard input in each zone, and those in none",
    ),
    (
        "countCellsInParents",
        "Count the cells in each ancestor at a resolution",
        "Count the cells on standard input in each of their ancestors at a resolution",
    ),
    (
        "gridDiskUnsafe",
        "The cells within a radius of a cell, ring by ring",
        "The cells within a radius of a cell, ring by ring",
    ),
    (
        "gridDiskDistancesUnsafe",
        "The same, each with the number of its ring",
        "The cells within a radius of a cell, each with the number of its ring",
    ),
    (
        "gridRingUnsafe",
        "The cells of the ring of a radius around a cell",
        "The cells of the ring of a radius around a cell",
    ),
    (
        "areNeighborCells",
        "Whether two cells are neighbors",
        "Whether two cells are neighbors",
    ),
    (
        "cellsToDirectedEdge",
        "The directed edge from a cell to its neighbor",
        "The directed edge from a cell to its neighbor",
    ),
    (
        "isValidDirectedEdge",
        "Whether an index is a valid directed edge",
        "Whether an index is a valid directed edge",
    ),
    (
        "getDirectedEdgeOrigin",
        "The cell that a directed edge leaves",
        "The cell that a directed edge leaves",
    ),
    (
        "getDirectedEdgeDestination",
        "The cell that a directed edge leads to",
        "The cell that a directed edge leads to",
    ),
    (
        "originToDirectedEdges",
        "The directed edges that leave a cell",
        "The directed edges that leave a cell",
    ),
    (
        "areValidCells",
        "Whether each index is a valid cell",
        "Whether each index listed on standard input is a valid cell",
    ),
    (
        "areValidDirectedEdges",
        "Whether each index is a valid directed edge",
        "Whether each index listed on standard input is a valid directed edge",
    ),
    (
        "getResolutions",
        "The resolution of each cell",
        "The resolution of each cell listed on standard input",
    ),
    (
        "getBaseCellNumbers",
        "The base cell of each cell",
        "The base cell of each cell listed on standard input",
    ),
    (
        "arePentagons",
        "Whether each cell is a pentagon",
        "Whether each cell listed on standard input is a pentagon",
    ),
    (
        "areResClassIII",
        "Whether the resolution of each cell is Class III",
        "Whether the resolution of each cell listed on standard input is Class III",
    ),
    (
        "cellsToParents",
        "The ancestor of each cell at a resolution",
        "The ancestor at a resolution of each cell listed on standard input",
    ),
    (
        "cellsToCenterChildren",
        "The center descendant of each cell",
        "The center descendant at a resolution of each cell listed on standard input",
    ),
    (
        "cellsToLastChildren",
        "The last descendant of each cell",
        "The last descendant at a resolution of each cell listed on standard input",
    ),
    (
        "cellsToChildren",
        "The descendants of each cell at a resolution",
        "The descendants at a resolution of each cell listed on standard input, ascending",
    ),
    (
        "cellsToChildrenSizes",
        "How many descendants each cell has",
        "How many descendants at a resolution each cell listed on standard input has",
    ),
    (
        "cellsToChildPositions",
        "The position of each cell below an ancestor",
        "The position below its ancestor at a resolution of each cell on standard input",
    ),
    (
        "gridDisksUnsafe",
        "The cells within a radius of each cell",
        "The cells within a radius of each cell listed on standard input, ring by ring",
    ),
    (
        "gridDisksDistancesUnsafe",
        "The same, each with the number of its ring",
        "The cells within a radius of each cell on standard input, each with its ring",
    ),
    (
        "gridRingsUnsafe",
        "The cells of the ring of a radius around each cell",
        "The cells of the ring of a radius around each cell listed on standard input",
    ),
    (
        "getDirectedEdgeOrigins",
        "The cell that each directed edge leaves",
        "The cell that each directed edge listed on standard input leaves",
    ),
    (
        "getDirectedEdgeDestinations",
        "The cell that each directed edge leads to",
        "The cell that each directed edge listed on standard input leads to",
    ),
    (
        "originsToDirectedEdges",
        "The directed edges that leave each cell",
        "The directed edges that leave each cell listed on standard input",
    ),
];

/// Whether the help that a line asks for has a line of a form and what is said of it.
fn help_tells(alloc: Global, line: &str, form: &str, said: &str) -> bool {
    tells(help_of(alloc, line).as_str(), form, said)
}

/// Whether a text has a line of a form and what is said of it, with blanks between them alone.
fn tells(text: &str, form: &str, said: &str) -> bool {
    for line in text.lines() {
        if is_told(line, form, said) {
            return true;
        }
    }
    false
}

/// Whether a line is a form and what is said of it.
fn is_told(line: &str, form: &str, said: &str) -> bool {
    match line.trim().strip_prefix(form) {
        Some(rest) => rest.trim() == said,
        None => false,
    }
}

/// Whether the help that a line asks for begins with what a command answers.
fn help_begins(alloc: Global, line: &str, about: &str) -> bool {
    help_of(alloc, line).lines().next() == Some(about)
}

/// Whether the help of a command begins with what it answers.
fn own_help_begins(alloc: Global, word: &str, about: &str) -> bool {
    match format!(in alloc; "h3 {word} --help") {
        Ok(line) => help_begins(alloc, line.as_str(), about),
        Err(_) => false,
    }
}

#[test]
fn help_says_what_each_command_answers(rt: HostRuntime) {
    for (word, listed, about) in &ABOUT {
        let is_listed = help_tells(rt.alloc(), "h3 --help", word, listed);
        expect_of(&rt, word, "in the list", is_listed);
        expect(&rt, word, own_help_begins(rt.alloc(), word, about));
    }
}

/// Commands, the forms of their options, and what each is.
static OPTION_TEXTS: [(&str, &str, &str); 39] = [
    (
        "h3 getResolution -h",
        "-c, --cell <cell>",
        "A cell's index in hexadecimal",
    ),
    (
        "h3 getNumCells -h",
        "-r, --resolution <resolution>",
        "A resolution, 0 to 15",
    ),
    (
        "h3 cellToParent -h",
        "-c, --cell <cell>",
        "A cell's index in hexadecimal",
    ),
    (
        "h3 cellToParent -h",
        "-r, --resolution <resolution>",
        "A resolution, 0 to 15",
    ),
    (
        "h3 childPosToCell -h",
        "--position <position>",
        "A position, from 0",
    ),
    (
        "h3 uncompactCells -h",
        "-r, --resolution <resolution>",
        "A resolution, 0 to 15",
    ),
    (
        "h3 uncompactCellsSize -h",
        "-r, --resolution <resolution>",
        "A resolution, 0 to 15",
    ),
    (
        "h3 intersectCells -h",
        "--region <region>",
        "The region: a file of one cell a line, or a table",
    ),
    (
        "h3 subtractCells -h",
        "--region <region>",
        "The region: a file of one cell a line, or a table",
    ),
    (
        "h3 areCoveredCells -h",
        "--region <region>",
        "The region: a file of one cell a line, or a table",
    ),
    (
        "h3 cellsToZones -h",
        "--zones <zones>",
        "The zones: a file of one cell a line, or a table",
    ),
    (
        "h3 countCellsInZones -h",
        "--zones <zones>",
        "The zones: a file of one cell a line, or a table",
    ),
    (
        "h3 intersectCells -h",
        "--region-column <region-column>",
        "File with a header: its column of cells",
    ),
    (
        "h3 areCoveredCells -h",
        "--region-field <region-field>",
        "File of rows: number of its cell field",
    ),
    (
        "h3 cellsToZones -h",
        "--zone-column <zone-column>",
        "File with a header: its column of cells",
    ),
    (
        "h3 countCellsInZones -h",
        "--zone-field <zone-field>",
        "File of rows: number of its cell field",
    ),
    (
        "h3 cellsToZones -h",
        "--zone-name <zone-name>",
        "With --zone-column: the column of names",
    ),
    (
        "h3 cellsToZones -h",
        "--zone-name-field <name-field>",
        "With --zone-field: the field of names",
    ),
    (
        "h3 cellsToZones -h",
        "--none <text>",
        "With names: text for a cell in no zone",
    ),
    (
        "h3 cellsToZones -h",
        "--overlapping",
        "With names: zones may overlap",
    ),
    (
        "h3 countCellsInZones -h",
        "--overlapping",
        "With names: zones may overlap",
    ),
    (
        "h3 countCellsInZones -h",
        "--sum <sum>",
        "With a header: column to add up",
    ),
    (
        "h3 countCellsInZones -h",
        "--sum-field <sum-field>",
        "With --field: field to add up",
    ),
    (
        "h3 countCellsInParents -h",
        "-r, --resolution <resolution>",
        "A resolution, 0 to 15",
    ),
    (
        "h3 countCellsInParents -h",
        "--sum <sum>",
        "With a header: column to add up",
    ),
    (
        "h3 countCellsInParents -h",
        "--sum-field <sum-field>",
        "With --field: field to add up",
    ),
    (
        "h3 uniteCells -h",
        "--by <by>",
        "With a header: split by this column",
    ),
    (
        "h3 uncompactCells -h",
        "--by <by>",
        "With a header: split by this column",
    ),
    (
        "h3 compactCells -h",
        "--by-field <by-field>",
        "With --field: split by this field",
    ),
    (
        "h3 gridDiskUnsafe -h",
        "-k <k>",
        "A radius, from 0: how many steps of the grid",
    ),
    (
        "h3 gridDiskDistancesUnsafe -h",
        "-k <k>",
        "A radius, from 0: how many steps of the grid",
    ),
    (
        "h3 gridRingUnsafe -h",
        "-k <k>",
        "A radius, from 0: how many steps of the grid",
    ),
    (
        "h3 gridRingUnsafe -h",
        "--table <table>",
        "The base cell table: a file that h3-table makes",
    ),
    (
        "h3 areNeighborCells -h",
        "--to <to>",
        "A second cell's index in hexadecimal",
    ),
    (
        "h3 cellsToDirectedEdge -h",
        "--table <table>",
        "The base cell table: a file that h3-table makes",
    ),
    (
        "h3 isValidDirectedEdge -h",
        "--edge <edge>",
        "A directed edge's index in hexadecimal",
    ),
    (
        "h3 getDirectedEdgeDestination -h",
        "--edge <edge>",
        "A directed edge's index in hexadecimal",
    ),
    ("h3 getResolution -h", "-h, --help", "Print help"),
    ("h3 --help", "-V, --version", "Print the version"),
];

#[test]
fn help_says_what_each_option_is(rt: HostRuntime) {
    for (line, form, said) in &OPTION_TEXTS {
        expect_of(&rt, line, form, help_tells(rt.alloc(), line, form, said));
    }
}
