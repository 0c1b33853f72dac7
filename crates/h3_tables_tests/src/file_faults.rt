//! Commands over a file of cells and a list, where a faulty line is known before a read that fails,
//! and where a page of the list is answered before one.

use crate::expected::expect_row;
use crate::files::{CELL, Failing, FileRow, WELL, ZONES, over};
use h3_fakes::{Faults, pulls_of, pulls_to_end};
use h3_requests::Command;
use std::alloc::Global;

/// The bytes of a pull.
static PIECES: [usize; 3] = [1, 16, 65536];

/// Commands over a file with a faulty line, and the bytes of the file by which this is known.
static FAULTY_FILES: [(FileRow, usize); 5] = [
    (
        (
            Command::AreCoveredCells,
            "xyz\n85283473fffffff\n",
            CELL,
            "",
            "region: line 1: error 1: E_FAILED\n",
        ),
        4,
    ),
    (
        (
            Command::IntersectCells,
            "81087ffffffffff\nxyz\n",
            CELL,
            "",
            "region: line 1: error 5: E_CELL_INVALID\n",
        ),
        16,
    ),
    (
        (
            Command::SubtractCells,
            "85283473fffffff\n\nxyz\n85283473fffffff\n",
            CELL,
            "",
            "region: line 3: error 1: E_FAILED\n",
        ),
        21,
    ),
    (
        (
            Command::CellsToZones,
            "xyz\n85283473fffffff\n",
            CELL,
            "",
            "zones: line 1: error 1: E_FAILED\n",
        ),
        4,
    ),
    // the two cells before the faulty line overlap
    (
        (
            Command::CountCellsInZones,
            "8428347ffffffff\n85283473fffffff\n81087ffffffffff\nxyz\n",
            CELL,
            "",
            "zones: line 3: error 5: E_CELL_INVALID\n",
        ),
        48,
    ),
];

/// Commands over a list with a faulty line before any answer, and the bytes of the list by which
/// this is known.
static FAULTY_LISTS: [(FileRow, usize); 5] = [
    (
        (
            Command::IntersectCells,
            ZONES,
            "xyz\n85283473fffffff\n",
            "",
            "line 1: error 1: E_FAILED\n",
        ),
        4,
    ),
    (
        (
            Command::SubtractCells,
            ZONES,
            "81087ffffffffff\nxyz\n",
            "",
            "line 1: error 5: E_CELL_INVALID\n",
        ),
        16,
    ),
    (
        (
            Command::CountCellsInZones,
            ZONES,
            "85283473fffffff\n\nxyz\n85283473fffffff\n",
            "",
            "line 3: error 1: E_FAILED\n",
        ),
        21,
    ),
    (
        (
            Command::AreCoveredCells,
            ZONES,
            "81087ffffffffff\nxyz\n",
            "",
            "line 1: error 5: E_CELL_INVALID\n",
        ),
        16,
    ),
    (
        (
            Command::CellsToZones,
            ZONES,
            "xyz\n85283473fffffff\n",
            "",
            "line 1: error 1: E_FAILED\n",
        ),
        4,
    ),
];

/// Whether a run ends with this line and this status, with so many pulls of the file and of the
/// list, and leaves its output alone.
fn ends(
    alloc: Global,
    row: &FileRow,
    most: usize,
    failing: Failing,
    ending: (&str, u8),
    pulls: (u64, u64),
) -> bool {
    let run = over(alloc, row, most, failing);
    run.is("", ending.0, ending.1)
        && run.out.calls() == 0
        && run.file_pulls == pulls.0
        && run.list_pulls == pulls.1
}

/// Whether a file is refused with its line where the pull after the one that shows it would fail,
/// and that one is a read fault where it fails itself. The list is left alone.
fn file_is_known(alloc: Global, row: &FileRow, bytes: usize) -> bool {
    for most in &PIECES {
        let known = pulls_of(bytes, *most);
        let after = Failing {
            file: Faults::From(known),
            ..WELL
        };
        let at = Failing {
            file: Faults::Once(known.saturating_sub(1)),
            ..WELL
        };
        let right = ends(alloc, row, *most, after, (row.4, 1), (known, 0))
            && ends(alloc, row, *most, at, ("fault: read\n", 4), (known, 0));
        if !right {
            return false;
        }
    }
    true
}

/// The same of the list, before which the file is read whole.
fn list_is_known(alloc: Global, row: &FileRow, bytes: usize) -> bool {
    for most in &PIECES {
        let known = pulls_of(bytes, *most);
        let pulls = (pulls_to_end(row.1, *most), known);
        let after = Failing {
            list: Faults::From(known),
            ..WELL
        };
        let at = Failing {
            list: Faults::Once(known.saturating_sub(1)),
            ..WELL
        };
        let right = ends(alloc, row, *most, after, (row.4, 1), pulls)
            && ends(alloc, row, *most, at, ("fault: read\n", 4), pulls);
        if !right {
            return false;
        }
    }
    true
}

#[test]
fn a_faulty_line_of_a_file_that_is_known_decides_before_a_read_fault(rt: HostRuntime) {
    for (number, (row, bytes)) in FAULTY_FILES.iter().enumerate() {
        expect_row(&rt, number, file_is_known(rt.alloc(), row, *bytes));
    }
}

#[test]
fn a_faulty_line_of_a_list_that_is_known_decides_before_a_read_fault(rt: HostRuntime) {
    for (number, (row, bytes)) in FAULTY_LISTS.iter().enumerate() {
        expect_row(&rt, number, list_is_known(rt.alloc(), row, *bytes));
    }
}

/// Four cells, a page each where 16 bytes are read at once.
const FOUR: &str = "85283473fffffff\n8428347ffffffff\n862834707ffffff\n8009fffffffffff\n";

/// The commands that answer line by line, and their output after each page of `FOUR`.
static PAGED: [(Command, [&str; 5]); 2] = [
    (
        Command::AreCoveredCells,
        [
            "",
            "true\n",
            "true\nfalse\n",
            "true\nfalse\ntrue\n",
            "true\nfalse\ntrue\ntrue\n",
        ],
    ),
    (
        Command::CellsToZones,
        [
            "",
            "85283473fffffff\n",
            "85283473fffffff\n0\n",
            "85283473fffffff\n0\n85283473fffffff\n",
            "85283473fffffff\n0\n85283473fffffff\n8009fffffffffff\n",
        ],
    ),
];

/// Whether a command has flushed these outputs, one for each page, before the pull after it fails.
fn flushes_each_page(alloc: Global, command: Command, outputs: &[&str; 5]) -> bool {
    for (pages, output) in (0..5u64).zip(outputs) {
        let row = (command, ZONES, FOUR, "", "");
        let list = Faults::From(pages);
        let run = over(alloc, &row, 16, Failing { list, ..WELL });
        if !run.is(output, "fault: read\n", 4) || run.out.flushes() != pages {
            return false;
        }
    }
    true
}

#[test]
fn a_page_is_flushed_before_the_next_one_is_read(rt: HostRuntime) {
    for (number, (command, outputs)) in PAGED.iter().enumerate() {
        let right = flushes_each_page(rt.alloc(), *command, outputs);
        expect_row(&rt, number, right);
    }
}
