//! Commands that read nothing, or a list.

use crate::cases::{
    BELOW_BASE_20, CHILDREN, HEXAGON, PENTAGON, Reads, Row, answers, answers_row, first_wrong,
    index_of, refuses, whole, writes,
};
use crate::expected::{expect, expect_all, expect_res, expect_row};
use h3_fakes::NO_FAULT;
use h3_requests::{Command, IndexFunction};
use std::alloc::Global;

/// The line for a word that parses as no index.
const FAILED: &str = "error 1: E_FAILED\n";

/// The line for an index of no cell.
const CELL_INVALID: &str = "error 5: E_CELL_INVALID\n";

/// The line for a resolution that is not allowed.
const RES_DOMAIN: &str = "error 4: E_RES_DOMAIN\n";

/// The line for resolutions that do not fit.
const RES_MISMATCH: &str = "error 12: E_RES_MISMATCH\n";

/// The base cell of the cell of many tests.
const BASE_20: Option<u64> = Some(0x8029fffffffffff);

/// An index of no cell.
const NO_CELL: Option<u64> = Some(0x81087ffffffffff);

/// Words, and whether they are cells.
static TESTED: [(&str, &str); 8] = [
    ("85283473fffffff", "true\n"),
    ("0X85283473FFFFFFF", "true\n"),
    ("81087ffffffffff", "false\n"),
    ("80f5fffffffffff", "false\n"),
    ("8109fffffffffff", "false\n"),
    ("885283473fffffff", "false\n"),
    ("115283473fffffff", "false\n"),
    ("0", "false\n"),
];

#[test]
fn cells_are_tested(rt: HostRuntime) {
    for (word, line) in &TESTED {
        let cell = index_of(word);
        let command = Command::ForOne(IndexFunction::IsValidCell, cell);
        expect(&rt, word, writes(rt.alloc(), command, line));
    }
}

/// Words that parse as no index.
static NO_INDEXES: [&str; 3] = ["xyz", "00085283473fffffff", ""];

#[test]
fn words_that_parse_as_no_index_are_refused(rt: HostRuntime) {
    for word in &NO_INDEXES {
        let cell = index_of(word);
        let refused = refuses(
            rt.alloc(),
            Command::ForOne(IndexFunction::IsValidCell, cell),
            FAILED,
        ) && refuses(
            rt.alloc(),
            Command::ForOne(IndexFunction::GetBaseCellNumber, cell),
            FAILED,
        ) && refuses(
            rt.alloc(),
            Command::CellToChildren { cell, res: 16 },
            FAILED,
        );
        expect(&rt, word, refused);
    }
}

/// What a cell says, and whether an index is one.
static PARTS: [Row; 10] = [
    (
        Command::ForOne(IndexFunction::GetResolution, HEXAGON),
        "5\n",
        "",
    ),
    (
        Command::ForOne(IndexFunction::GetBaseCellNumber, HEXAGON),
        "20\n",
        "",
    ),
    (
        Command::ForOne(IndexFunction::IsPentagon, HEXAGON),
        "false\n",
        "",
    ),
    (
        Command::ForOne(IndexFunction::IsPentagon, Some(0x81083ffffffffff)),
        "true\n",
        "",
    ),
    (
        Command::ForOne(IndexFunction::IsPentagon, Some(0x8108bffffffffff)),
        "false\n",
        "",
    ),
    (
        Command::ForOne(IndexFunction::IsResClassIII, HEXAGON),
        "true\n",
        "",
    ),
    (
        Command::ForOne(IndexFunction::IsResClassIII, PENTAGON),
        "false\n",
        "",
    ),
    (
        Command::ForOne(IndexFunction::GetResolution, NO_CELL),
        "",
        CELL_INVALID,
    ),
    (
        Command::ForOne(IndexFunction::IsPentagon, NO_CELL),
        "",
        CELL_INVALID,
    ),
    (
        Command::ForOne(IndexFunction::IsResClassIII, NO_CELL),
        "",
        CELL_INVALID,
    ),
];

#[test]
fn parts_of_cells_are_written(rt: HostRuntime) {
    let row = first_wrong(rt.alloc(), &PARTS);
    expect_all(&rt, row, PARTS.len());
}

/// Numbers of cells.
static COUNTS: [Row; 3] = [
    (Command::GetNumCells { res: 0 }, "122\n", ""),
    (Command::GetNumCells { res: 15 }, "569707381193162\n", ""),
    (Command::GetNumCells { res: 16 }, "", RES_DOMAIN),
];

#[test]
fn cells_are_counted(rt: HostRuntime) {
    let row = first_wrong(rt.alloc(), &COUNTS);
    expect_all(&rt, row, COUNTS.len());
}

/// Whether a command writes `count` indexes, of which these are the first and the last lines.
fn has_ends(alloc: Global, command: Command, count: usize, first: &str, last: &str) -> bool {
    let run = whole(command, Reads::Nothing, "").read(alloc, 1, NO_FAULT);
    let bytes = run.out.bytes();
    let well = run.status == 0 && run.err.bytes().is_empty() && run.strays == 0;
    let counted = bytes.len() == count.saturating_mul(16);
    let between = bytes.starts_with(first.as_bytes()) && bytes.ends_with(last.as_bytes());
    well && counted && between
}

#[test]
fn base_cells_are_listed(rt: HostRuntime) {
    let first = "8001fffffffffff\n8003fffffffffff\n";
    let last = "\n80f3fffffffffff\n";
    expect(
        &rt,
        "base cells",
        has_ends(rt.alloc(), Command::GetRes0Cells, 122, first, last),
    );
}

/// The pentagons of resolution 0.
const COARSEST_PENTAGONS: &str =
    "8009fffffffffff\n801dfffffffffff\n8031fffffffffff\n804dfffffffffff\n\
     8063fffffffffff\n8075fffffffffff\n807ffffffffffff\n8091fffffffffff\n\
     80a7fffffffffff\n80c3fffffffffff\n80d7fffffffffff\n80ebfffffffffff\n";

#[test]
fn pentagons_are_listed(rt: HostRuntime) {
    let (first, last) = ("81083ffffffffff\n", "\n81ea3ffffffffff\n");
    let finer = Command::GetPentagons { res: 1 };
    expect(
        &rt,
        "resolution 1",
        has_ends(rt.alloc(), finer, 12, first, last),
    );
    let coarsest = Command::GetPentagons { res: 0 };
    expect(
        &rt,
        "resolution 0",
        writes(rt.alloc(), coarsest, COARSEST_PENTAGONS),
    );
    let outside = Command::GetPentagons { res: 16 };
    expect(
        &rt,
        "resolution 16",
        refuses(rt.alloc(), outside, RES_DOMAIN),
    );
}

/// Ancestors, at these resolutions.
static ANCESTORS: [(i32, &str, &str); 4] = [
    (4, "8428347ffffffff\n", ""),
    (5, "85283473fffffff\n", ""),
    (6, "", RES_MISMATCH),
    (16, "", RES_DOMAIN),
];

#[test]
fn ancestors_are_written(rt: HostRuntime) {
    for (res, output, line) in &ANCESTORS {
        let command = Command::ForOne(IndexFunction::CellToParent { res: *res }, HEXAGON);
        let row = (command, *output, *line);
        expect_res(&rt, *res, answers_row(rt.alloc(), &row));
    }
    // an index of no cell, before a resolution that is not allowed
    let no_cell = Command::ForOne(IndexFunction::CellToParent { res: 16 }, NO_CELL);
    expect(
        &rt,
        "an index of no cell",
        refuses(rt.alloc(), no_cell, CELL_INVALID),
    );
}

/// Descendants, and numbers of them.
static DESCENDANTS: [Row; 17] = [
    (
        Command::ForOne(IndexFunction::CellToCenterChild { res: 15 }, HEXAGON),
        "8f2834700000000\n",
        "",
    ),
    (
        Command::ForOne(IndexFunction::CellToLastChild { res: 7 }, HEXAGON),
        "872834736ffffff\n",
        "",
    ),
    (
        Command::ForOne(IndexFunction::CellToLastChild { res: 5 }, HEXAGON),
        "85283473fffffff\n",
        "",
    ),
    (
        Command::ForOne(IndexFunction::CellToLastChild { res: 1 }, PENTAGON),
        "8109bffffffffff\n",
        "",
    ),
    (
        Command::CellToChildren {
            cell: HEXAGON,
            res: 6,
        },
        CHILDREN,
        "",
    ),
    (
        Command::CellToChildren {
            cell: PENTAGON,
            res: 1,
        },
        "81083ffffffffff\n8108bffffffffff\n8108fffffffffff\n\
         81093ffffffffff\n81097ffffffffff\n8109bffffffffff\n",
        "",
    ),
    (
        Command::CellToChildren {
            cell: PENTAGON,
            res: 0,
        },
        "8009fffffffffff\n",
        "",
    ),
    (
        Command::ForOne(IndexFunction::CellToChildrenSize { res: 15 }, BASE_20),
        "4747561509943\n",
        "",
    ),
    (
        Command::ForOne(IndexFunction::CellToChildrenSize { res: 15 }, PENTAGON),
        "3956301258286\n",
        "",
    ),
    (
        Command::ForOne(IndexFunction::CellToCenterChild { res: 4 }, HEXAGON),
        "",
        RES_DOMAIN,
    ),
    (
        Command::ForOne(IndexFunction::CellToLastChild { res: 4 }, HEXAGON),
        "",
        RES_DOMAIN,
    ),
    (
        Command::CellToChildren {
            cell: HEXAGON,
            res: 4,
        },
        "",
        RES_DOMAIN,
    ),
    (
        Command::ForOne(IndexFunction::CellToChildrenSize { res: 4 }, HEXAGON),
        "",
        RES_DOMAIN,
    ),
    (
        Command::ForOne(IndexFunction::CellToCenterChild { res: 16 }, HEXAGON),
        "",
        RES_DOMAIN,
    ),
    (
        Command::ForOne(IndexFunction::CellToLastChild { res: 16 }, HEXAGON),
        "",
        RES_DOMAIN,
    ),
    (
        Command::CellToChildren {
            cell: HEXAGON,
            res: 16,
        },
        "",
        RES_DOMAIN,
    ),
    (
        Command::ForOne(IndexFunction::CellToChildrenSize { res: 16 }, HEXAGON),
        "",
        RES_DOMAIN,
    ),
];

#[test]
fn descendants_are_written(rt: HostRuntime) {
    expect_all(
        &rt,
        first_wrong(rt.alloc(), &DESCENDANTS),
        DESCENDANTS.len(),
    );
}

/// Cells, and their positions among the descendants of an ancestor of this resolution.
static POSITIONS: [(&str, i32, &str, &str); 7] = [
    ("85283473fffffff", 0, "2279\n", ""),
    ("85283473fffffff", 5, "0\n", ""),
    ("8209b7fffffffff", 0, "40\n", ""),
    ("8108bffffffffff", 0, "1\n", ""),
    ("820817fffffffff", 0, "1\n", ""),
    ("85283473fffffff", 6, "", RES_MISMATCH),
    ("85283473fffffff", 16, "", RES_DOMAIN),
];

#[test]
fn positions_are_written(rt: HostRuntime) {
    for (number, (word, res, output, line)) in POSITIONS.iter().enumerate() {
        let command = Command::ForOne(IndexFunction::CellToChildPos { res: *res }, index_of(word));
        let row = (command, *output, *line);
        expect_row(&rt, number, answers_row(rt.alloc(), &row));
    }
}

/// Positions, ancestors and resolutions, and the descendants at the positions.
static AT_POSITIONS: [(u64, &str, i32, &str, &str); 8] = [
    (2279, "8029fffffffffff", 5, "85283473fffffff\n", ""),
    (0, "8009fffffffffff", 2, "820807fffffffff\n", ""),
    (6, "8009fffffffffff", 2, "820887fffffffff\n", ""),
    (41, "8009fffffffffff", 2, "", "error 2: E_DOMAIN\n"),
    (0, "8108bffffffffff", 0, "", RES_MISMATCH),
    (0, "8009fffffffffff", 16, "", RES_DOMAIN),
    (0, "xyz", 2, "", FAILED),
    (0, "81087ffffffffff", 2, "", CELL_INVALID),
];

#[test]
fn descendants_are_found_by_position(rt: HostRuntime) {
    for (number, (position, word, res, output, line)) in AT_POSITIONS.iter().enumerate() {
        let command = Command::ChildPosToCell {
            position: *position,
            cell: index_of(word),
            res: *res,
        };
        let row = (command, *output, *line);
        expect_row(&rt, number, answers_row(rt.alloc(), &row));
    }
}

/// The bytes of a pull of a list.
static PIECES: [usize; 6] = [1, 2, 63, 64, 65, 65536];

/// A cell twice.
const TWICE: &str = "85283473fffffff\n85283473fffffff\n";

/// Resolutions and lists, and their descendants or the error.
static UNCOMPACTED: [(i32, &str, &str, &str); 9] = [
    (6, "85283473fffffff\n", CHILDREN, ""),
    (
        1,
        "8009fffffffffff\n\n 81283ffffffffff",
        "81083ffffffffff\n8108bffffffffff\n8108fffffffffff\n81093ffffffffff\n\
         81097ffffffffff\n8109bffffffffff\n81283ffffffffff\n",
        "",
    ),
    (5, TWICE, TWICE, ""),
    (5, "", "", ""),
    (4, "85283473fffffff\n", "", RES_MISMATCH),
    (16, "", "", RES_DOMAIN),
    (6, "85283473fffffff\nxyz\n81087ffffffffff\n", "", FAILED),
    (6, "81087ffffffffff\nxyz\n", "", CELL_INVALID),
    (16, "xyz\n", "", FAILED),
];

#[test]
fn lists_are_uncompacted(rt: HostRuntime) {
    for (number, (res, list, output, line)) in UNCOMPACTED.iter().enumerate() {
        let command = Command::UncompactCells { res: *res };
        let list = Reads::List(list);
        let right = answers(rt.alloc(), command, list, output, line, &PIECES);
        expect_row(&rt, number, right);
    }
}

/// Resolutions and lists, and how many cells they uncompact to or the error: n levels down a hexagon
/// has 7^n descendants, and a pentagon 1 + 5 * ((7^n - 1) / 6).
static SIZES: [(i32, &str, &str, &str); 13] = [
    (6, "85283473fffffff\n", "7\n", ""),
    (1, "8009fffffffffff\n\n 81283ffffffffff", "7\n", ""),
    (15, "8001fffffffffff\n", "4747561509943\n", ""),
    (
        15,
        "8001fffffffffff\n8009fffffffffff\n",
        "8703862768229\n",
        "",
    ),
    (5, TWICE, "2\n", ""),
    (5, "8428347ffffffff\n85283473fffffff\n", "8\n", ""),
    (5, "", "0\n", ""),
    (
        4,
        "8428347ffffffff\n85283473fffffff\n8428347ffffffff\n",
        "",
        RES_MISMATCH,
    ),
    (16, "", "", RES_DOMAIN),
    (-1, "85283473fffffff\n", "", RES_DOMAIN),
    (
        4,
        "85283473fffffff\n\nxyz\n81087ffffffffff\n",
        "",
        "line 3: error 1: E_FAILED\n",
    ),
    (
        6,
        "85283473fffffff\n81087ffffffffff\nxyz\n",
        "",
        "line 2: error 5: E_CELL_INVALID\n",
    ),
    (16, "xyz\n", "", "line 1: error 1: E_FAILED\n"),
];

#[test]
fn what_lists_uncompact_to_is_counted(rt: HostRuntime) {
    for (number, (res, list, output, line)) in SIZES.iter().enumerate() {
        let command = Command::UncompactCellsSize { res: *res };
        let list = Reads::List(list);
        let right = answers(rt.alloc(), command, list, output, line, &PIECES);
        expect_row(&rt, number, right);
    }
}

/// Five of the six children of a pentagon, ascending.
const FIVE: &str = "81083ffffffffff\n8108bffffffffff\n8108fffffffffff\n81093ffffffffff\n\
                    81097ffffffffff\n";

/// The line for a cell twice, or with one of its descendants.
const DUPLICATE: &str = "error 10: E_DUPLICATE_INPUT\n";

/// Lists, and their compactions or the error.
static COMPACTED: [(&str, &str, &str); 15] = [
    (
        "862834737ffffff\n86283472fffffff\n862834727ffffff\n86283471fffffff\n\
         862834717ffffff\n86283470fffffff\n862834707ffffff\n",
        "85283473fffffff\n",
        "",
    ),
    (FIVE, FIVE, ""),
    (
        "81083ffffffffff\n8108bffffffffff\n8108fffffffffff\n81093ffffffffff\n\
         81097ffffffffff\n8109bffffffffff\n",
        "8009fffffffffff\n",
        "",
    ),
    (BELOW_BASE_20, "8029fffffffffff\n", ""),
    ("", "", ""),
    ("\n\n\n", "", ""),
    // of mixed resolutions
    (
        "862834707ffffff\n86283470fffffff\n862834717ffffff\n86283471fffffff\n\
         862834727ffffff\n86283472fffffff\n862834737ffffff\n85283463fffffff\n\
         85283467fffffff\n8528346bfffffff\n8528346ffffffff\n85283477fffffff\n\
         8528347bfffffff\n",
        "8428347ffffffff\n",
        "",
    ),
    (
        "85283473fffffff\n81083ffffffffff\n",
        "81083ffffffffff\n85283473fffffff\n",
        "",
    ),
    (
        "8108bffffffffff\n8108fffffffffff\n81093ffffffffff\n81097ffffffffff\n\
         8109bffffffffff\n820807fffffffff\n820817fffffffff\n82081ffffffffff\n\
         820827fffffffff\n82082ffffffffff\n820837fffffffff\n",
        "8009fffffffffff\n",
        "",
    ),
    (TWICE, "", DUPLICATE),
    ("85283473fffffff\n8428347ffffffff\n", "", DUPLICATE),
    ("8428347ffffffff\n85283473fffffff\n", "", DUPLICATE),
    ("8009fffffffffff\n820837fffffffff\n", "", DUPLICATE),
    ("85283473fffffff\nxyz\n", "", FAILED),
    ("81087ffffffffff\n", "", CELL_INVALID),
];

/// The first of these lists that a command does not answer so, or how many they are.
fn first_wrong_list(alloc: Global, command: Command, rows: &[(&str, &str, &str)]) -> usize {
    for (row, (list, output, line)) in rows.iter().enumerate() {
        if !answers(alloc, command, Reads::List(list), output, line, &PIECES) {
            return row;
        }
    }
    rows.len()
}

#[test]
fn lists_are_compacted(rt: HostRuntime) {
    let row = first_wrong_list(rt.alloc(), Command::CompactCells, &COMPACTED);
    expect_all(&rt, row, COMPACTED.len());
}

/// The compaction of all the cells below base cell 20 but the last one.
const ALL_BUT_ONE: &str = "81283ffffffffff\n81287ffffffffff\n8128bffffffffff\n8128fffffffffff\n\
                           81293ffffffffff\n81297ffffffffff\n822987fffffffff\n82298ffffffffff\n\
                           822997fffffffff\n82299ffffffffff\n8229a7fffffffff\n8229affffffffff\n";

#[test]
fn a_list_that_lacks_a_cell_is_compacted(rt: HostRuntime) {
    let (most, _) = BELOW_BASE_20.split_at(48 * 16);
    let list = Reads::List(most);
    let compact = Command::CompactCells;
    expect(
        &rt,
        "all cells but the last",
        answers(rt.alloc(), compact, list, ALL_BUT_ONE, "", &PIECES),
    );
}

/// Lists whose cells may repeat and overlap, and the compacted list of what they cover, or the
/// error.
static UNITED: [(&str, &str, &str); 11] = [
    (
        "85283463fffffff\n85283467fffffff\n8528346bfffffff\n8428347ffffffff\n\
         85283463fffffff\n85283467fffffff\n",
        "8428347ffffffff\n",
        "",
    ),
    (
        "85283463fffffff\n85283463fffffff\n85283467fffffff\n85283467fffffff\n\
         8528346bfffffff\n8528346bfffffff\n8528346ffffffff\n8528346ffffffff\n\
         85283473fffffff\n85283473fffffff\n85283477fffffff\n85283477fffffff\n\
         8528347bfffffff\n8528347bfffffff\n",
        "8428347ffffffff\n",
        "",
    ),
    ("", "", ""),
    (" \n\n\t\n", "", ""),
    (FIVE, FIVE, ""),
    // the six children of a pentagon, one of them twice and in parts
    (
        "81083ffffffffff\n8108bffffffffff\n8108fffffffffff\n81093ffffffffff\n\
         81097ffffffffff\n8109bffffffffff\n81083ffffffffff\n820837fffffffff\n",
        "8009fffffffffff\n",
        "",
    ),
    // of several resolutions, in any order
    (
        "85283473fffffff\n81083ffffffffff\n820837fffffffff\n85283473fffffff\n",
        "81083ffffffffff\n85283473fffffff\n",
        "",
    ),
    ("xyz\n", "", "line 1: error 1: E_FAILED\n"),
    (
        "85283473fffffff\n\nxyz\n81087ffffffffff\n",
        "",
        "line 3: error 1: E_FAILED\n",
    ),
    (
        "85283473fffffff\n85283473fffffff\n81087ffffffffff\nxyz\n",
        "",
        "line 3: error 5: E_CELL_INVALID\n",
    ),
    (
        "\n85283473fffffff\n 81087ffffffffff",
        "",
        "line 3: error 5: E_CELL_INVALID\n",
    ),
];

#[test]
fn lists_are_united(rt: HostRuntime) {
    let row = first_wrong_list(rt.alloc(), Command::UniteCells, &UNITED);
    expect_all(&rt, row, UNITED.len());
}
