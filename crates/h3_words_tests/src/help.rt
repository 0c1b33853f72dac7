//! Lines that ask for help or the version, and what help says.

use crate::expected::{expect, expect_all};
use crate::refused_words::is_invalid;
use h3_parses::read;
use h3_words::ArgsError;
use std::alloc::Global;

/// The text of the help that a line asks for; an empty one if it asks for none.
pub fn help_of(alloc: Global, line: &str) -> String {
    match read(alloc, line) {
        Err(ArgsError::Help(text)) => text,
        _ => String::new(alloc),
    }
}

/// Whether a line asks for help.
fn asks_for_help(alloc: Global, line: &str) -> bool {
    !help_of(alloc, line).is_empty()
}

/// Lines that ask for help.
static HELP: [&str; 31] = [
    "h3 --help",
    "h3 -h",
    "h3 isValidCell --help",
    "h3 isValidCell -c 0 -h",
    "h3 getNumCells --help",
    "h3 getRes0Cells --help",
    "h3 cellToParent --help",
    "h3 childPosToCell --help",
    "h3 compactCells --help",
    "h3 uncompactCells -r 6 --help",
    "h3 uncompactCellsSize --help",
    "h3 uniteCells --help",
    "h3 intersectCells --help",
    "h3 subtractCells --region r -h",
    "h3 areCoveredCells -h",
    "h3 cellsToZones --zones z --help",
    "h3 countCellsInZones --help",
    "h3 countCellsInParents -r 4 --help",
    "h3 gridDiskUnsafe --help",
    "h3 gridDiskDistancesUnsafe -k 1 --help",
    "h3 gridRingUnsafe -h",
    "h3 areNeighborCells --help",
    "h3 cellsToDirectedEdge -c 0 --help",
    "h3 isValidDirectedEdge --help",
    "h3 getDirectedEdgeOrigin -h",
    "h3 getDirectedEdgeDestination --edge 0 --help",
    "h3 originToDirectedEdges --help",
    "h3 areValidCells --help",
    "h3 cellsToParents -h",
    "h3 cellsToChildPositions -r 0 --help",
    "h3 originsToDirectedEdges --help",
];

#[test]
fn helps(rt: HostRuntime) {
    for line in &HELP {
        expect(&rt, line, asks_for_help(rt.alloc(), line));
    }
}

/// Whether a line asks for the version.
fn asks_for_version(alloc: Global, line: &str) -> bool {
    matches!(read(alloc, line), Err(ArgsError::Version))
}

/// Lines that ask for the version.
static VERSION: [&str; 6] = [
    "h3 --version",
    "h3 -V",
    "h3 --version --help",
    "h3 -V isValidCell",
    "h3 --version isValidCell -c 85283473fffffff",
    "another --version",
];

#[test]
fn is_asked_for_the_version(rt: HostRuntime) {
    for line in &VERSION {
        expect(&rt, line, asks_for_version(rt.alloc(), line));
    }
}

/// Lines that do not ask for the version, and are invalid.
static NO_VERSION: [&str; 9] = [
    "h3 -v",
    "h3 --Version",
    "h3 --versio",
    "h3 --version=1",
    "h3 -VV",
    "h3 version",
    "h3 isValidCell -V",
    "h3 isValidCell --version -c 85283473fffffff",
    "h3 getRes0Cells --version",
];

#[test]
fn refuses_the_version_elsewhere(rt: HostRuntime) {
    for line in &NO_VERSION {
        expect(&rt, line, is_invalid(rt.alloc(), line));
    }
    expect(
        &rt,
        "h3 --help --version",
        asks_for_help(rt.alloc(), "h3 --help --version"),
    );
    expect(&rt, "--version", is_invalid(rt.alloc(), "--version"));
}

/// The words that name the commands.
static COMMAND_WORDS: [&str; 52] = [
    "isValidCell",
    "getResolution",
    "getBaseCellNumber",
    "isPentagon",
    "isResClassIII",
    "getNumCells",
    "getRes0Cells",
    "getPentagons",
    "cellToParent",
    "cellToCenterChild",
    "cellToLastChild",
    "cellToChildren",
    "cellToChildrenSize",
    "cellToChildPos",
    "childPosToCell",
    "compactCells",
    "uncompactCells",
    "uncompactCellsSize",
    "uniteCells",
    "intersectCells",
    "subtractCells",
    "areCoveredCells",
    "cellsToZones",
    "countCellsInZones",
    "countCellsInParents",
    "gridDiskUnsafe",
    "gridDiskDistancesUnsafe",
    "gridRingUnsafe",
    "areNeighborCells",
    "cellsToDirectedEdge",
    "isValidDirectedEdge",
    "getDirectedEdgeOrigin",
    "getDirectedEdgeDestination",
    "originToDirectedEdges",
    "areValidCells",
    "areValidDirectedEdges",
    "getResolutions",
    "getBaseCellNumbers",
    "arePentagons",
    "areResClassIII",
    "cellsToParents",
    "cellsToCenterChildren",
    "cellsToLastChildren",
    "cellsToChildren",
    "cellsToChildrenSizes",
    "cellsToChildPositions",
    "gridDisksUnsafe",
    "gridDisksDistancesUnsafe",
    "gridRingsUnsafe",
    "getDirectedEdgeOrigins",
    "getDirectedEdgeDestinations",
    "originsToDirectedEdges",
];

/// Whether a line of a text begins with a word.
fn lists(text: &str, word: &str) -> bool {
    for line in text.lines() {
        if line.split_whitespace().next() == Some(word) {
            return true;
        }
    }
    false
}

#[test]
fn help_lists_the_commands(rt: HostRuntime) {
    let text = help_of(rt.alloc(), "h3 --help");
    for word in &COMMAND_WORDS {
        expect(&rt, word, lists(text.as_str(), word));
    }
}

/// The groups of commands in help.
static GROUPS: [&str; 5] = [
    "Cells:",
    "Hierarchy:",
    "With a table of base cells, made by h3-table:",
    "Directed edges:",
    "Lists on standard input, one index a line:",
];

/// Whether no line of a text is longer than 80 bytes.
fn is_narrow(text: &str) -> bool {
    for line in text.lines() {
        if line.len() > 80 {
            return false;
        }
    }
    true
}

/// Whether a text has this line.
fn has_line(text: &str, wanted: &str) -> bool {
    for line in text.lines() {
        if line == wanted {
            return true;
        }
    }
    false
}

/// Whether no line of a text is longer than 80 bytes, and each group begins with a line of its own.
fn is_grouped(text: &str) -> bool {
    for group in &GROUPS {
        if !has_line(text, group) {
            return false;
        }
    }
    is_narrow(text)
}

#[test]
fn help_groups_the_commands(rt: HostRuntime) {
    expect(
        &rt,
        "help is grouped",
        is_grouped(help_of(rt.alloc(), "h3 --help").as_str()),
    );
}

/// Lines that ask for help of a command over a region or zones, and what it says of the file.
static FILE_HELP: [(&str, &str); 26] = [
    (
        "h3 intersectCells --help",
        "\n  region: line 2: error 5: E_CELL_INVALID  its first faulty line, status 1\n",
    ),
    ("h3 subtractCells --help", "\n  region: open  "),
    ("h3 areCoveredCells --help", "--region <region>"),
    (
        "h3 areCoveredCells --help",
        "\n  region: column: not found  ",
    ),
    (
        "h3 intersectCells --help",
        "\n  region: column: not found  ",
    ),
    (
        "h3 intersectCells --help",
        "\nOf a region in a CSV file:\nh3 intersectCells --region region.csv --region-column cell --csv < cells\n",
    ),
    (
        "h3 subtractCells --help",
        "\nh3 subtractCells --region region.csv --region-column cell --csv < cells\n",
    ),
    (
        "h3 areCoveredCells --help",
        "\nh3 areCoveredCells --region region.csv --region-column cell --csv < cells\n",
    ),
    (
        "h3 cellsToZones --help",
        "\n  zones: error 10: E_DUPLICATE_INPUT      overlapping zones, status 1\n",
    ),
    ("h3 countCellsInZones --help", "\n  zones: open  "),
    (
        "h3 cellsToZones --help",
        "\n  zones: column: not found                its header lacks the column, status 3\n",
    ),
    (
        "h3 countCellsInZones --help",
        "\n  zones: column: not found  ",
    ),
    (
        "h3 cellsToZones --help",
        "\nOf zones in a CSV file:\nh3 cellsToZones --zones zones.csv --zone-column cell --csv < cells\n",
    ),
    (
        "h3 countCellsInZones --help",
        "\nh3 countCellsInZones --zones zones.csv --zone-column cell --csv < cells\n",
    ),
    (
        "h3 countCellsInZones --help",
        "\nWith --zone-column the file is a table with a header, with --zone-field one\nwithout.",
    ),
    ("h3 cellsToZones --help", " --zone-name <zone-name> "),
    ("h3 cellsToZones --help", " --none <text> "),
    (
        "h3 cellsToZones --help",
        "\nWith --zone-name or --zone-name-field the answer is the zone's name, and for a\n\
        cell in no zone the text of --none (default: nothing). The cells of one name\n\
        may overlap. With --overlapping, zones may too: a cell has an answer for each\n\
        of its zones, coarse ones first, and its row is printed once for each.\n",
    ),
    ("h3 cellsToZones --help", " --overlapping "),
    (
        "h3 countCellsInZones --help",
        "\nWith --sum or --sum-field the answer is a table too, and each row ends with the\n\
        exact sum of that column over the cells that it counts; a blank field is 0:\n",
    ),
    ("h3 countCellsInZones --help", " --overlapping "),
    (
        "h3 countCellsInZones --help",
        "\n  line 2: sum: not a number               its first bad number, status 1\n",
    ),
    (
        "h3 cellsToZones --help",
        "\nBy the names of such zones:\n\
        h3 cellsToZones --zones z.csv --zone-column cell --zone-name name --csv < cells\n",
    ),
    (
        "h3 countCellsInZones --help",
        " --zone-name-field <name-field> ",
    ),
    (
        "h3 countCellsInZones --help",
        "\nWith --zone-name or --zone-name-field each row has a zone's name and its count,\n\
        in the order of the file, under a header if the file or the list has one; the\n\
        last has the text of --none (default: nothing). With --overlapping, zones with\n\
        names may overlap: a cell counts in each of its zones.\n",
    ),
    (
        "h3 countCellsInZones --help",
        "\nBy the names of such zones:\n\
        h3 countCellsInZones --zones z --zone-column cell --zone-name name --csv < cells\n",
    ),
];

/// Whether a line asks for help that has a text, in lines of at most 80 bytes.
fn narrow_help_says(alloc: Global, line: &str, said: &str) -> bool {
    let text = help_of(alloc, line);
    is_narrow(text.as_str()) && text.contains(said)
}

/// The first of these lines whose help is not narrow or lacks the text beside it, or how many they
/// are.
fn first_unsaid(alloc: Global, rows: &[(&str, &str)]) -> usize {
    for (row, (line, said)) in rows.iter().enumerate() {
        if !narrow_help_says(alloc, line, said) {
            return row;
        }
    }
    rows.len()
}

#[test]
fn help_says_what_a_file_may_be_refused_for(rt: HostRuntime) {
    let row = first_unsaid(rt.alloc(), &FILE_HELP);
    expect_all(&rt, row, FILE_HELP.len());
}

/// How a list is given to each command that reads one.
static LIST_USAGES: [(&str, &str); 28] = [
    ("h3 compactCells -h", "Usage: h3 compactCells < cells\n"),
    (
        "h3 uncompactCells -h",
        "Usage: h3 uncompactCells --resolution <resolution> < cells\n",
    ),
    (
        "h3 uncompactCellsSize -h",
        "Usage: h3 uncompactCellsSize --resolution <resolution> < cells\n",
    ),
    ("h3 uniteCells -h", "Usage: h3 uniteCells < cells\n"),
    (
        "h3 intersectCells -h",
        "Usage: h3 intersectCells --region <region> < cells\n",
    ),
    (
        "h3 subtractCells -h",
        "Usage: h3 subtractCells --region <region> < cells\n",
    ),
    (
        "h3 areCoveredCells -h",
        "Usage: h3 areCoveredCells --region <region> < cells\n",
    ),
    (
        "h3 cellsToZones -h",
        "Usage: h3 cellsToZones --zones <zones> < cells\n",
    ),
    (
        "h3 countCellsInZones -h",
        "Usage: h3 countCellsInZones --zones <zones> < cells\n",
    ),
    (
        "h3 countCellsInParents -h",
        "Usage: h3 countCellsInParents --resolution <resolution> < cells\n",
    ),
    ("h3 areValidCells -h", "Usage: h3 areValidCells < cells\n"),
    (
        "h3 areValidDirectedEdges -h",
        "Usage: h3 areValidDirectedEdges < edges\n",
    ),
    ("h3 getResolutions -h", "Usage: h3 getResolutions < cells\n"),
    (
        "h3 getBaseCellNumbers -h",
        "Usage: h3 getBaseCellNumbers < cells\n",
    ),
    ("h3 arePentagons -h", "Usage: h3 arePentagons < cells\n"),
    ("h3 areResClassIII -h", "Usage: h3 areResClassIII < cells\n"),
    (
        "h3 cellsToParents -h",
        "Usage: h3 cellsToParents --resolution <resolution> < cells\n",
    ),
    (
        "h3 cellsToCenterChildren -h",
        "Usage: h3 cellsToCenterChildren --resolution <resolution> < cells\n",
    ),
    (
        "h3 cellsToLastChildren -h",
        "Usage: h3 cellsToLastChildren --resolution <resolution> < cells\n",
    ),
    (
        "h3 cellsToChildren -h",
        "Usage: h3 cellsToChildren --resolution <resolution> < cells\n",
    ),
    (
        "h3 cellsToChildrenSizes -h",
        "Usage: h3 cellsToChildrenSizes --resolution <resolution> < cells\n",
    ),
    (
        "h3 cellsToChildPositions -h",
        "Usage: h3 cellsToChildPositions --resolution <resolution> < cells\n",
    ),
    (
        "h3 gridDisksUnsafe -h",
        "Usage: h3 gridDisksUnsafe -k <k> --table <table> < cells\n",
    ),
    (
        "h3 gridDisksDistancesUnsafe -h",
        "Usage: h3 gridDisksDistancesUnsafe -k <k> --table <table> < cells\n",
    ),
    (
        "h3 gridRingsUnsafe -h",
        "Usage: h3 gridRingsUnsafe -k <k> --table <table> < cells\n",
    ),
    (
        "h3 getDirectedEdgeOrigins -h",
        "Usage: h3 getDirectedEdgeOrigins < edges\n",
    ),
    (
        "h3 getDirectedEdgeDestinations -h",
        "Usage: h3 getDirectedEdgeDestinations --table <table> < edges\n",
    ),
    (
        "h3 originsToDirectedEdges -h",
        "Usage: h3 originsToDirectedEdges < cells\n",
    ),
];

/// Lines that ask for help of a command that reads rows, and what it says of them.
static ROWS_HELP: [(&str, &str); 42] = [
    ("h3 cellsToParents --help", "\nRows:\n"),
    ("h3 cellsToParents --help", "--field <number>"),
    ("h3 cellsToParents --help", "--column <column>"),
    ("h3 cellsToParents --help", "--header "),
    ("h3 cellsToParents --help", "--separator <separator>"),
    ("h3 cellsToParents --help", "--csv "),
    ("h3 cellsToParents --help", "--as <name>"),
    ("h3 cellsToParents --help", "--keep-going "),
    (
        "h3 cellsToParents --help",
        "\nOf a CSV file, each row with its answer at the end:\n\
        h3 cellsToParents -r 4 --csv --column cell < trips.csv\n",
    ),
    (
        "h3 areValidDirectedEdges --help",
        "\nh3 areValidDirectedEdges --csv --column edge < trips.csv\n",
    ),
    (
        "h3 cellsToZones --help",
        "\nOf a CSV file, each row with its zone at the end:\n",
    ),
    (
        "h3 originsToDirectedEdges --help",
        "\nOf a CSV file, each row once for each answer, which is at the end:\n",
    ),
    (
        "h3 uniteCells --help",
        "\nOf a CSV file, whose cells are the list:\nh3 uniteCells --csv ",
    ),
    (
        "h3 gridDisksUnsafe --help",
        "\nA walk that meets an error prints none of its cells.\n",
    ),
    ("h3 getResolutions --help", "\nRows:\n"),
    ("h3 areCoveredCells --help", "--keep-going "),
    ("h3 cellsToZones --help", "--csv "),
    ("h3 cellsToChildren --help", "--keep-going "),
    ("h3 gridDisksUnsafe --help", "--as <name>"),
    ("h3 gridDisksDistancesUnsafe --help", "--keep-going "),
    ("h3 getDirectedEdgeDestinations --help", "--keep-going "),
    ("h3 uncompactCells --help", "\nRows:\n"),
    ("h3 intersectCells --help", "--field <number>"),
    ("h3 countCellsInZones --help", "--csv "),
    ("h3 cellsToParents --help", "--errors "),
    ("h3 cellsToParents --help", "--ragged "),
    ("h3 cellsToZones --help", "--errors "),
    ("h3 areCoveredCells --help", "--ragged "),
    ("h3 gridDisksDistancesUnsafe --help", "--errors "),
    ("h3 uniteCells --help", "--ragged "),
    ("h3 countCellsInZones --help", "--ragged "),
    (
        "h3 uniteCells --help",
        "\nWith --by or --by-field there is a list for each value of that column, in the\n\
        order of their first rows: each line is a row of the value and a cell.\n",
    ),
    (
        "h3 compactCells --help",
        "\nError 10 then has the line of the first row with its value.\n",
    ),
    (
        "h3 uncompactCells --help",
        "\nError 4 or 12 then has the line of the first row with its value.\n",
    ),
    (
        "h3 compactCells --help",
        "\nOne list for each value of a column:\n\
        h3 compactCells --csv --column cell --by driver < trips.csv\n",
    ),
    (
        "h3 uncompactCells --help",
        "\nh3 uncompactCells -r 6 --csv --column cell --by driver < trips.csv\n",
    ),
    (
        "h3 uniteCells --help",
        "\nh3 uniteCells --csv --column cell --by driver < trips.csv\n",
    ),
    (
        "h3 countCellsInParents --help",
        "\nEach line has an ancestor and its count, ascending. A cell that repeats counts\n\
        again. Of rows the answer is a table, under a header if the list has one.\n",
    ),
    (
        "h3 countCellsInParents --help",
        "\nWith --sum or --sum-field each row ends with the exact sum of that column over\n\
        the cells that it counts; a blank field is 0:\n\
        \x20 line 2: sum: not a number               its first bad number, status 1\n",
    ),
    (
        "h3 countCellsInParents --help",
        "\nOf a CSV file, whose cells are the list:\n\
        h3 countCellsInParents -r 4 --csv --column cell < trips.csv\n\
        With the sum of a column:\n\
        h3 countCellsInParents -r 4 --csv --column cell --sum fare < trips.csv\n",
    ),
    ("h3 countCellsInParents --help", "\nRows:\n"),
    ("h3 countCellsInParents --help", "--ragged "),
];

#[test]
fn help_says_how_rows_are_read(rt: HostRuntime) {
    let row = first_unsaid(rt.alloc(), &ROWS_HELP);
    expect_all(&rt, row, ROWS_HELP.len());
}

/// Whether a line asks for help that has a text.
fn help_says(alloc: Global, line: &str, said: &str) -> bool {
    help_of(alloc, line).contains(said)
}

#[test]
fn help_says_how_a_list_is_given(rt: HostRuntime) {
    for (line, said) in &LIST_USAGES {
        expect(&rt, line, help_says(rt.alloc(), line, said));
    }
}

/// What the help of the program says of all commands, and that of two about errors of their lists.
static SHARED: [(&str, &str); 8] = [
    (
        "h3 --help",
        "\n  error 13: E_MEMORY_ALLOC         out of memory",
    ),
    (
        "h3 --help",
        "\n  line 2: error 5: E_CELL_INVALID  the first faulty line of a list; status 1\n",
    ),
    (
        "h3 --help",
        "\n  table: form 1                    the file of --table is not a table; status 3\n",
    ),
    (
        "h3 --help",
        "\n  table: open                      it cannot be opened; status 3\n",
    ),
    (
        "h3 --help",
        "\n  fault: read                      a read failed; status 4\n",
    ),
    (
        "h3 --help",
        "\nA - for a file means a file of that name. No file can be the pipe of the list.\n",
    ),
    (
        "h3 compactCells --help",
        "\nAn error is reported without a line; with --field 1, error 1 or 5 has its line.\n",
    ),
    (
        "h3 uncompactCells --help",
        "\nAn error is reported without a line; with --field 1, error 1 or 5 has its line.\n",
    ),
];

#[test]
fn help_says_what_all_commands_share(rt: HostRuntime) {
    let row = first_unsaid(rt.alloc(), &SHARED);
    expect_all(&rt, row, SHARED.len());
}

/// Whether the help of a command is narrow, and leaves to that of the program what all commands share.
fn own_help_is_short(alloc: Global, word: &str) -> bool {
    match format!(in alloc; "h3 {word} --help") {
        Ok(line) => {
            let text = help_of(alloc, line.as_str());
            is_narrow(text.as_str()) && !text.contains("out of memory")
        }
        Err(_) => false,
    }
}

#[test]
fn help_of_each_command_is_short(rt: HostRuntime) {
    for word in &COMMAND_WORDS {
        expect(&rt, word, own_help_is_short(rt.alloc(), word));
    }
}
