//! Lists of cells that are read from a source.

use crate::expected::{expect, expect_row};
use arrayvec::ArrayVec;
use h3_fakes::{Faults, FaultySource};
use h3_index::{Cell, H3Error};
use h3_lines::{AnswerError, Fault, RunError, read_cells, read_list};
use h3_streams::Streamed;
use std::alloc::Global;

/// How many bytes a pull gives at most.
static PIECES: [usize; 6] = [1, 2, 63, 64, 65, 100000];

/// Reads a list from a source that gives at most `most` bytes a pull and fails after `calls` pulls.
fn read(alloc: Global, bytes: &[u8], most: usize, calls: u64) -> Result<Vec<Cell>, RunError> {
    let mut source = FaultySource::new(bytes, most.max(1), Faults::From(calls));
    read_cells(alloc, &mut source)
}

/// Whether cells have these numbers.
fn have_numbers(cells: &[Cell], numbers: &[u64]) -> bool {
    for (cell, number) in cells.iter().zip(numbers) {
        if cell.raw() != *number {
            return false;
        }
    }
    cells.len() == numbers.len()
}

/// Whether a list has these cells, in pieces of each of these sizes.
fn lists(alloc: Global, bytes: &[u8], numbers: &[u64]) -> bool {
    for most in &PIECES {
        match read(alloc, bytes, *most, 1000) {
            Ok(cells) => {
                if !have_numbers(&cells, numbers) {
                    return false;
                }
            }
            Err(_) => return false,
        }
    }
    true
}

/// Whether a list, read so, is refused with this error.
fn refuses_with(alloc: Global, bytes: &[u8], most: usize, calls: u64, error: RunError) -> bool {
    match read(alloc, bytes, most, calls) {
        Ok(_) => false,
        Err(refusal) => refusal == error,
    }
}

/// Whether a list is refused with this error, in pieces of each of these sizes.
fn refuses(alloc: Global, bytes: &[u8], error: H3Error) -> bool {
    for most in &PIECES {
        if !refuses_with(
            alloc,
            bytes,
            *most,
            1000,
            RunError::Error(AnswerError::Call(error)),
        ) {
            return false;
        }
    }
    true
}

/// A cell, and it with another one.
static CELLS: [u64; 2] = [0x85283473fffffff, 0x8029fffffffffff];

/// Lists, and how many of these cells they have. Plain lines stand among others.
static LISTS: [(&str, usize); 15] = [
    ("", 0),
    ("\n", 0),
    ("\n\n\n", 0),
    (" \t\r\n\r\n \n", 0),
    ("85283473fffffff", 1),
    ("85283473fffffff\n", 1),
    ("\r\n 0X85283473FFFFFFF\t\r\n", 1),
    ("85283473fffffff\n8029fffffffffff", 2),
    ("85283473fffffff\r\n8029fffffffffff\r\n", 2),
    ("\n85283473fffffff\n \n\n0x8029fffffffffff\n\n", 2),
    ("85283473fffffff\n8029FFFFFFFFFFF\n", 2),
    ("85283473FFFFFFF\n8029fffffffffff\n", 2),
    ("085283473fffffff\n8029fffffffffff\r\n", 2),
    (" 85283473fffffff\n8029fffffffffff\n \n", 2),
    ("0x85283473fffffff\n8029fffffffffff", 2),
];

#[test]
fn lists_are_read(rt: HostRuntime) {
    for (row, (text, count)) in LISTS.iter().enumerate() {
        let (cells, _) = CELLS.split_at((*count).min(2));
        expect_row(&rt, row, lists(rt.alloc(), text.as_bytes(), cells));
    }
}

/// Lists with a faulty line, and the error of the first one.
static FAULTY: [(&str, H3Error); 15] = [
    ("xyz", H3Error::Failed),
    ("xyz\n", H3Error::Failed),
    ("xyz\n81087ffffffffff\n", H3Error::Failed),
    ("85283473fffffff\n0 0\n", H3Error::Failed),
    ("0x", H3Error::Failed),
    ("81087ffffffffff", H3Error::CellInvalid),
    ("\n81087ffffffffff\r\nxyz\n", H3Error::CellInvalid),
    ("85283473fffffff\n0\n", H3Error::CellInvalid),
    // among plain lines
    ("85283473fffffff\n8029ffffffffff\x10\n", H3Error::Failed),
    ("85283473fffffff\n8029ffffffffffg\n", H3Error::Failed),
    ("85283473fffffff\n8029fff ffffff\n", H3Error::Failed),
    ("85283473fffffff8029fffffffffff\n", H3Error::Failed),
    ("85283473fffffff\nfffffffffffffff\n", H3Error::CellInvalid),
    ("85283473fffffff\n8029ffffffffff\n", H3Error::CellInvalid),
    ("85283473fffffff\n000000000000000\n", H3Error::CellInvalid),
];

#[test]
fn the_first_faulty_line_decides(rt: HostRuntime) {
    for (text, error) in &FAULTY {
        expect(&rt, text, refuses(rt.alloc(), text.as_bytes(), *error));
    }
}

/// A byte `count` times, and then other bytes.
fn after(count: usize, front: u8, bytes: &[u8]) -> ArrayVec<u8, 128> {
    let mut line = ArrayVec::new();
    for _ in 0..count {
        let _ = line.try_push(front);
    }
    let _ = line.try_extend_from_slice(bytes);
    line
}

#[test]
fn a_line_has_at_most_64_bytes(rt: HostRuntime) {
    let (one, _) = CELLS.split_at(1);
    let line = after(64, b' ', b"\n");
    expect(&rt, "64 blanks", lists(rt.alloc(), &line, &[]));
    let line = after(65, b' ', b"");
    expect(
        &rt,
        "65 blanks",
        refuses(rt.alloc(), &line, H3Error::Failed),
    );
    let line = after(49, b' ', b"85283473fffffff");
    expect(&rt, "49 blanks and a cell", lists(rt.alloc(), &line, one));
    let line = after(50, b' ', b"85283473fffffff\n");
    expect(
        &rt,
        "50 blanks and a cell",
        refuses(rt.alloc(), &line, H3Error::Failed),
    );
}

/// Whether a list of this line `count` times has as many of this cell.
fn repeats(alloc: Global, line: &[u8], count: usize, number: u64) -> bool {
    let mut text = Vec::new(alloc);
    for _ in 0..count {
        if text.extend_from_slice(line).is_err() {
            return false;
        }
    }
    let mut source = FaultySource::new(&text, 1000000, Faults::From(4));
    let Ok(cells) = read_cells(alloc, &mut source) else {
        return false;
    };
    for cell in &cells {
        if cell.raw() != number {
            return false;
        }
    }
    cells.len() == count
}

#[test]
fn a_list_of_many_pages_is_read(rt: HostRuntime) {
    expect(
        &rt,
        "10000 lines",
        repeats(rt.alloc(), b"85283473fffffff\r\n", 10000, 0x85283473fffffff),
    );
    let line = after(49, b' ', b"85283473fffffff\n");
    expect(
        &rt,
        "3000 lines of 64 bytes",
        repeats(rt.alloc(), &line, 3000, 0x85283473fffffff),
    );
}

/// Lists, the bytes of a pull, the pull that fails, and whether this counts: no line before it is
/// known to be faulty.
static CUT: [(&str, usize, u64, bool); 10] = [
    (EIGHTS, 1, 65, false),
    (EIGHTS, 64, 65, false),
    (EIGHTS, 65, 65, false),
    (EIGHTS, 65, 1, false),
    (EIGHTS, 64, 1, true),
    ("xyz\n", 64, 1, false),
    ("xyz", 64, 1, true),
    ("85283473fffffff", 64, 1, true),
    ("85283473fffffff\n", 64, 1, true),
    ("", 64, 0, true),
];

/// A line of 65 bytes.
const EIGHTS: &str = "88888888888888888888888888888888888888888888888888888888888888888";

#[test]
fn a_read_fault_counts_before_a_faulty_line(rt: HostRuntime) {
    expect(&rt, "65 digits", EIGHTS.len() == 65);
    for (row, (text, most, calls, counts)) in CUT.iter().enumerate() {
        let refusal = if *counts {
            RunError::Fault(Fault::Read)
        } else {
            RunError::Error(AnswerError::Call(H3Error::Failed))
        };
        let refused = refuses_with(rt.alloc(), text.as_bytes(), *most, *calls, refusal);
        expect_row(&rt, row, refused);
    }
}

/// How reading a list in at most three reads of one byte each ends, if these bytes of it are left
/// then: without an error, or with this one.
fn ends_in_three(alloc: Global, list: &[u8], left: &[u8], error: Option<RunError>) -> bool {
    let mut source = Streamed::new(list);
    let read = read_list(alloc, &mut source, 3, 1);
    source.into_inner() == left && read.err() == error
}

/// Lists, what is left of them after three reads, and the error.
static IN_THREE_READS: [(&str, &str, Option<RunError>); 4] = [
    // two reads of a line feed, and one that finds the end
    ("\n\n", "", None),
    // the end is not found, also where all bytes were read
    ("\n\n\n", "", Some(RunError::Fault(Fault::Read))),
    ("\n\n\n\n", "\n", Some(RunError::Fault(Fault::Read))),
    // a faulty line that is known by the last read that is allowed
    (
        "0x\n\n",
        "\n",
        Some(RunError::Error(AnswerError::Call(H3Error::Failed))),
    ),
];

#[test]
fn reads_past_the_limit_are_read_faults(rt: HostRuntime) {
    for (row, (list, left, error)) in IN_THREE_READS.iter().enumerate() {
        let right = ends_in_three(rt.alloc(), list.as_bytes(), left.as_bytes(), *error);
        expect_row(&rt, row, right);
    }
}
