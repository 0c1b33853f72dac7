//! Lists whose lines are long, faulty, or cut by a reader that fails.

use crate::cases::{Case, Reads};
use crate::expected::expect;
use crate::readers::stops_at_fault;
use arrayvec::ArrayString;
use h3_fakes::{Faults, NO_FAULT};
use h3_requests::Command;
use std::alloc::Global;

/// The bytes of a pull. Each of these lists fits in the largest.
static PIECES: [usize; 6] = [1, 2, 16, 64, 65, 65536];

/// A character `count` times, and then a text.
fn after(count: usize, front: char, text: &str) -> ArrayString<128> {
    let mut list = ArrayString::new();
    for _ in 0..count {
        let _ = list.try_push(front);
    }
    let _ = list.try_push_str(text);
    list
}

/// The compaction of a list, and its answer: the output, or the line of its error.
fn compaction<'a>(list: &'a str, output: &'a str, line: &'a str) -> Case<'a> {
    Case {
        command: Command::CompactCells,
        reads: Reads::List(list),
        output,
        line,
        status: u8::from(!line.is_empty()),
    }
}

/// The union of the cells of a list that is refused with this line.
fn refused_union<'a>(list: &'a str, line: &'a str) -> Case<'a> {
    Case {
        command: Command::UniteCells,
        reads: Reads::List(list),
        output: "",
        line,
        status: 1,
    }
}

/// The counts of a list by the ancestors at resolution 4, which is refused with this line.
fn refused_count<'a>(list: &'a str, line: &'a str) -> Case<'a> {
    Case {
        command: Command::CountCellsInParents { res: 4 },
        ..refused_union(list, line)
    }
}

/// Whether the compaction of a list writes its output and ends so, and reads the list to its end.
fn is_compacted(alloc: Global, case: &Case<'_>) -> bool {
    for most in &PIECES {
        let run = case.read(alloc, *most, NO_FAULT);
        let answered = run.is(case.output, case.line, case.status);
        if !answered || run.pulls != case.pulls(*most) {
            return false;
        }
    }
    true
}

/// Whether a read fault at each pull below this one counts.
fn stops_at_each(alloc: Global, case: &Case<'_>, most: usize, pulls: u64) -> bool {
    for pull in 0..pulls {
        let stops = stops_at_fault(alloc, case, most, Faults::From(pull))
            && stops_at_fault(alloc, case, most, Faults::Once(pull));
        if !stops {
            return false;
        }
    }
    true
}

/// Whether a list is refused at a pull, whether this or one after it fails.
fn is_refused_at(alloc: Global, case: &Case<'_>, most: usize, known: u64) -> bool {
    for pull in known..=case.pulls(most) {
        let run = case.read(alloc, most, Faults::From(pull));
        let answered = run.is("", case.line, case.status) && run.out.calls() == 0;
        if !answered || run.pulls != known {
            return false;
        }
    }
    true
}

/// Whether a list is known to be faulty after its first `bytes` bytes: a fault of the reader before
/// that counts, and no pull is made after it, whether it would fail or not.
fn is_known(alloc: Global, case: &Case<'_>, bytes: usize) -> bool {
    for most in &PIECES {
        let known = bytes.div_ceil((*most).max(1)) as u64;
        let right = stops_at_each(alloc, case, *most, known)
            && is_refused_at(alloc, case, *most, known);
        if !right {
            return false;
        }
    }
    true
}

/// The same of the union of the cells of a list that is refused with this line.
fn union_is_known(alloc: Global, list: &str, line: &str, bytes: usize) -> bool {
    is_known(alloc, &refused_union(list, line), bytes)
}

/// Whether a list is judged at its end alone: a fault of the reader after its last byte counts.
fn is_torn(alloc: Global, case: &Case<'_>) -> bool {
    for most in &PIECES {
        let end = case.pulls(*most).saturating_sub(1);
        let stops = stops_at_fault(alloc, case, *most, Faults::From(end))
            && stops_at_fault(alloc, case, *most, Faults::Once(end));
        if !stops {
            return false;
        }
    }
    is_compacted(alloc, case)
}

/// The error line for a line that parses as no index, or is too long.
const FAILED: &str = "error 1: E_FAILED\n";

/// The error line for a line that parses as the index of no cell.
const CELL_INVALID: &str = "error 5: E_CELL_INVALID\n";

/// Whether the compaction of a list of one line, a character `count` times and then a text, writes
/// this output.
fn line_is_compacted(alloc: Global, count: usize, front: char, text: &str, output: &str) -> bool {
    let list = after(count, front, text);
    is_compacted(alloc, &compaction(&list, output, ""))
}

/// Whether the compaction of such a list knows after its first 65 bytes that its line is too long.
fn line_is_too_long(alloc: Global, count: usize, front: char, text: &str) -> bool {
    let list = after(count, front, text);
    is_known(alloc, &compaction(&list, "", FAILED), 65)
}

#[test]
fn lines_have_at_most_64_bytes(rt: HostRuntime) {
    let alloc = rt.alloc();
    let cell = "85283473fffffff";
    let blank = line_is_compacted(alloc, 64, ' ', "\n", "");
    expect(&rt, "64 blanks", blank);
    let indented = line_is_compacted(alloc, 49, ' ', cell, "85283473fffffff\n");
    expect(&rt, "49 blanks and a cell", indented);
    expect(&rt, "65 blanks", line_is_too_long(alloc, 65, ' ', ""));
    let indented = line_is_too_long(alloc, 50, ' ', cell);
    expect(&rt, "50 blanks and a cell", indented);
    expect(&rt, "65 digits", line_is_too_long(alloc, 65, '8', ""));
}

/// Faulty lists, their errors, and the bytes by which they are known.
static FAULTY: [(&str, &str, usize); 8] = [
    ("xyz\n", FAILED, 4),
    ("81087ffffffffff\n", CELL_INVALID, 16),
    ("xyz\n85283473fffffff\n", FAILED, 4),
    ("xyz\n81087ffffffffff\n", FAILED, 4),
    ("81087ffffffffff\nxyz\n", CELL_INVALID, 16),
    ("85283473fffffff\n\nxyz\n85283473fffffff\n", FAILED, 21),
    ("85283473fffffff\n0\nxyz", CELL_INVALID, 18),
    (
        "85283473fffffff\n81087ffffffffff\n85283473fffffff\n",
        CELL_INVALID,
        32,
    ),
];

#[test]
fn a_faulty_line_that_is_known_decides_before_a_read_fault(rt: HostRuntime) {
    for (list, line, bytes) in &FAULTY {
        let case = compaction(list, "", line);
        expect(&rt, list, is_known(rt.alloc(), &case, *bytes));
    }
}

/// Faulty lists, their errors where the number of the line is told, and the bytes by which they are
/// known.
static FAULTY_AT: [(&str, &str, usize); 5] = [
    ("xyz\n", "line 1: error 1: E_FAILED\n", 4),
    (
        "81087ffffffffff\nxyz\n",
        "line 1: error 5: E_CELL_INVALID\n",
        16,
    ),
    (
        "85283473fffffff\n\nxyz\n85283473fffffff\n",
        "line 3: error 1: E_FAILED\n",
        21,
    ),
    (
        "85283473fffffff\n0\nxyz",
        "line 2: error 5: E_CELL_INVALID\n",
        18,
    ),
    (
        "85283473fffffff\n85283473fffffff\n81087ffffffffff\n",
        "line 3: error 5: E_CELL_INVALID\n",
        48,
    ),
];

#[test]
fn a_faulty_line_of_a_union_is_told(rt: HostRuntime) {
    for (list, line, bytes) in &FAULTY_AT {
        expect(&rt, list, union_is_known(rt.alloc(), list, line, *bytes));
    }
    let long = after(65, '8', "");
    let line = "line 1: error 1: E_FAILED\n";
    expect(
        &rt,
        "65 digits",
        union_is_known(rt.alloc(), &long, line, 65),
    );
}

/// Lists that are not counted by the ancestors at resolution 4, their errors, and the bytes by which they are known.
static NOT_COUNTED: [(&str, &str, usize); 3] = [
    (
        "832834fffffffff\nxyz\n",
        "line 1: error 12: E_RES_MISMATCH\n",
        16,
    ),
    (
        "85283473fffffff\n\n832834fffffffff\n85283473fffffff\n",
        "line 3: error 12: E_RES_MISMATCH\n",
        33,
    ),
    (
        "85283473fffffff\nxyz\n832834fffffffff\n",
        "line 2: error 1: E_FAILED\n",
        20,
    ),
];

#[test]
fn a_coarser_cell_that_is_known_decides_before_a_read_fault(rt: HostRuntime) {
    for (list, line, bytes) in &NOT_COUNTED {
        let case = refused_count(list, line);
        expect(&rt, list, is_known(rt.alloc(), &case, *bytes));
    }
}

/// Lists whose last line is not ended, and their compactions or the error.
static UNENDED: [(&str, &str, &str); 3] = [
    ("85283473fffffff", "85283473fffffff\n", ""),
    ("xyz", "", FAILED),
    ("", "", ""),
];

#[test]
fn a_last_line_that_a_read_fault_cuts_is_not_looked_at(rt: HostRuntime) {
    for (list, output, line) in &UNENDED {
        let case = compaction(list, output, line);
        expect(&rt, list, is_torn(rt.alloc(), &case));
    }
    let long = after(64, '8', "");
    expect(
        &rt,
        "64 digits",
        is_torn(rt.alloc(), &compaction(&long, "", FAILED)),
    );
}
