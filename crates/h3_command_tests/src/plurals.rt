//! Functions of one index, answered for each line of a list.

use crate::cases::{Outcome, Reads, for_each, index_of, whole};
use crate::expected::{expect, expect_at, expect_res, expect_row};
use arrayvec::ArrayString;
use h3_fakes::NO_FAULT;
use h3_requests::{Command, IndexFunction};
use itoa::Buffer;
use std::alloc::Global;

/// The bytes of a pull. Most of these lists fit in the largest.
static PIECES: [usize; 4] = [1, 15, 16, 65536];

// Each function; those of a resolution with this one.
macro_rules! functions {
    ($res:expr) => {
        [
            IndexFunction::IsValidCell,
            IndexFunction::IsValidDirectedEdge,
            IndexFunction::GetResolution,
            IndexFunction::GetBaseCellNumber,
            IndexFunction::IsPentagon,
            IndexFunction::IsResClassIII,
            IndexFunction::CellToParent { res: $res },
            IndexFunction::CellToCenterChild { res: $res },
            IndexFunction::CellToLastChild { res: $res },
            IndexFunction::CellToChildrenSize { res: $res },
            IndexFunction::CellToChildPos { res: $res },
            IndexFunction::GetDirectedEdgeOrigin,
            IndexFunction::OriginToDirectedEdges,
        ]
    };
}

/// What a run should write, and its exit status.
#[derive(Drop)]
pub struct Answer {
    /// The whole output.
    pub output: ArrayString<2048>,

    /// The line on standard error, or nothing.
    pub line: ArrayString<64>,

    /// The exit status.
    pub status: u8,
}

impl Answer {
    /// Whether a run gave this answer, and read nothing but its list.
    pub fn is(&self, run: &Outcome) -> bool {
        run.is(self.output.as_str(), self.line.as_str(), self.status)
    }
}

/// Whether a line of a list is passed over: it is blank, and not too long.
fn is_passed_over(line: &str) -> bool {
    line.len() <= 64 && line.trim().is_empty()
}

/// The index of a line of a list, or nothing where it parses as none or is too long.
fn index_on(line: &str) -> Option<u64> {
    if line.len() > 64 {
        return None;
    }
    index_of(line)
}

/// The text of bytes, or another one where they are none.
fn text(bytes: &[u8]) -> &str {
    str::from_utf8(bytes).unwrap_or("no text")
}

/// The line of an error at a line of a list.
pub fn line_at(place: usize, error: &str) -> ArrayString<64> {
    let mut buffer = Buffer::new();
    let number = buffer.format(place.saturating_add(1));
    let mut line = ArrayString::new();
    let _ = line.try_push_str("line ");
    let _ = line.try_push_str(number);
    let _ = line.try_push_str(": ");
    let _ = line.try_push_str(error);
    line
}

/// The answers of a function's own command to the lines of a list, up to the first that it refuses.
pub fn answer_to(alloc: Global, function: IndexFunction, list: &str) -> Answer {
    let mut answer = Answer {
        output: ArrayString::new(),
        line: ArrayString::new(),
        status: 0,
    };
    for (place, line) in list.split('\n').enumerate() {
        if is_passed_over(line) {
            continue;
        }
        let command = Command::ForOne(function, index_on(line));
        let run = whole(command, Reads::Nothing, "").read(alloc, 1, NO_FAULT);
        let _ = answer.output.try_push_str(text(run.out.bytes()));
        if run.status != 0 {
            answer.line = line_at(place, text(run.err.bytes()));
            answer.status = run.status;
            return answer;
        }
    }
    answer
}

/// Whether a list, read `most` bytes at a time, is answered as its lines are by the function's own
/// command.
fn is_answered_as_alone(alloc: Global, function: IndexFunction, list: &str, most: usize) -> bool {
    let run = for_each(function, list, "").read(alloc, most, NO_FAULT);
    answer_to(alloc, function, list).is(&run)
}

/// Lines of lists: valid, invalid, blank, with blanks around them, and nearly or really too long.
static LINES: [&str; 20] = [
    "85283473fffffff",
    "8009fffffffffff",
    "115283473fffffff",
    "11009fffffffffff",
    "81087ffffffffff",
    "80f5fffffffffff",
    "0",
    "xyz",
    "",
    " \t\r",
    "0X85283473FFFFFFF",
    "85283473fffffff\r",
    " \t0x85283473fffffff \r",
    "00085283473fffffff",
    "85283473fffffff 8009fffffffffff",
    // 64 and 65 bytes
    "                                                                ",
    "                                                                 ",
    "                                                 85283473fffffff",
    "                                                  85283473fffffff",
    "85283473fffffff                                                  ",
];

/// Lengths of the last lines.
static LENGTHS: [usize; 5] = [64, 65, 64, 65, 65];

#[test]
fn lines_are_as_long_as_they_should_be(rt: HostRuntime) {
    for place in 0..LENGTHS.len() {
        let length = LENGTHS[place];
        expect_at(
            &rt,
            "length",
            length as u64,
            LINES[place + 15].len() == length,
        );
    }
}

/// A line among others.
fn among(before: &str, line: &str, after: &str) -> ArrayString<128> {
    let mut list = ArrayString::new();
    let _ = list.try_push_str(before);
    let _ = list.try_push_str(line);
    let _ = list.try_push_str(after);
    list
}

/// Whether each function answers a list as for its lines alone.
fn all_answer_as_alone(alloc: Global, res: i32, list: &str, most: usize) -> bool {
    for function in &functions!(res) {
        if !is_answered_as_alone(alloc, *function, list, most) {
            return false;
        }
    }
    true
}

#[test]
fn lines_are_answered_as_by_the_function_alone(rt: HostRuntime) {
    for line in &LINES {
        let list = among("\n85283473fffffff\n", line, "\n8009fffffffffff");
        expect(&rt, line, all_answer_as_alone(rt.alloc(), 4, &list, 16));
    }
}

#[test]
fn lines_are_answered_so_after_an_edge(rt: HostRuntime) {
    for line in &LINES {
        let list = among("115283473fffffff\r\n \r\n", line, "\r\n");
        let is_edge = IndexFunction::IsValidDirectedEdge;
        let origin = IndexFunction::GetDirectedEdgeOrigin;
        let right = is_answered_as_alone(rt.alloc(), is_edge, &list, 65536)
            && is_answered_as_alone(rt.alloc(), origin, &list, 65536);
        expect(&rt, line, right);
    }
}

/// Resolutions within and out of range.
static RESOLUTIONS: [i32; 8] = [0, 1, 5, 6, 15, 16, i32::MAX, -1];

/// A list of cells.
const CELLS: &str = "85283473fffffff\n8f2834700000000\n8009fffffffffff\n";

#[test]
fn each_resolution_is_answered_as_for_one_cell(rt: HostRuntime) {
    for res in &RESOLUTIONS {
        let right = all_answer_as_alone(rt.alloc(), *res, CELLS, 17)
            && all_answer_as_alone(rt.alloc(), *res, "\nxyz\n", 17);
        expect_res(&rt, *res, right);
    }
}

/// Whether a function writes this for a list and ends with this line, in pieces of each size.
fn is_answered(
    alloc: Global,
    function: IndexFunction,
    list: &str,
    output: &str,
    line: &str,
) -> bool {
    let case = for_each(function, list, "");
    let status = u8::from(!line.is_empty());
    for most in &PIECES {
        if !case.read(alloc, *most, NO_FAULT).is(output, line, status) {
            return false;
        }
    }
    true
}

/// A cell of resolution 5 and a pentagon of resolution 0, and a last line that is not ended.
const TWO: &str = "85283473fffffff\n8009fffffffffff";

/// Functions, lists and the answers.
static ANSWERS: [(IndexFunction, &str, &str); 13] = [
    (
        IndexFunction::IsValidCell,
        "85283473fffffff\n0X85283473FFFFFFF\n81087ffffffffff\n80f5fffffffffff\n\
         8109fffffffffff\n885283473fffffff\n115283473fffffff\n0\n",
        "true\ntrue\nfalse\nfalse\nfalse\nfalse\nfalse\nfalse\n",
    ),
    (
        IndexFunction::IsValidDirectedEdge,
        "125283473fffffff\n11009fffffffffff\n",
        "true\nfalse\n",
    ),
    (IndexFunction::GetResolution, TWO, "5\n0\n"),
    (IndexFunction::GetBaseCellNumber, TWO, "20\n4\n"),
    (IndexFunction::IsPentagon, TWO, "false\ntrue\n"),
    (IndexFunction::IsResClassIII, TWO, "true\nfalse\n"),
    (
        IndexFunction::CellToParent { res: 0 },
        TWO,
        "8029fffffffffff\n8009fffffffffff\n",
    ),
    (
        IndexFunction::CellToCenterChild { res: 15 },
        "85283473fffffff\n8f2834700000000\n",
        "8f2834700000000\n8f2834700000000\n",
    ),
    (
        IndexFunction::CellToLastChild { res: 7 },
        "85283473fffffff\n8009fffffffffff\n872834736ffffff\n",
        "872834736ffffff\n8709b6db6ffffff\n872834736ffffff\n",
    ),
    (
        IndexFunction::CellToChildrenSize { res: 15 },
        "8029fffffffffff\n8009fffffffffff\n",
        "4747561509943\n3956301258286\n",
    ),
    (
        IndexFunction::CellToChildPos { res: 0 },
        "85283473fffffff\n8209b7fffffffff\n8108bffffffffff\n820817fffffffff\n",
        "2279\n40\n1\n1\n",
    ),
    (
        IndexFunction::GetDirectedEdgeOrigin,
        "115283473fffffff\n12009fffffffffff\n",
        "85283473fffffff\n8009fffffffffff\n",
    ),
    (
        IndexFunction::OriginToDirectedEdges,
        TWO,
        "115283473fffffff\n125283473fffffff\n135283473fffffff\n145283473fffffff\n\
         155283473fffffff\n165283473fffffff\n12009fffffffffff\n13009fffffffffff\n\
         14009fffffffffff\n15009fffffffffff\n16009fffffffffff\n",
    ),
];

#[test]
fn cells_are_answered(rt: HostRuntime) {
    for (row, (function, list, output)) in ANSWERS.iter().enumerate() {
        let right = is_answered(rt.alloc(), *function, list, output, "");
        expect_row(&rt, row, right);
    }
}

/// Whether a list has no answer of this function, and is read to its end in pieces of each size.
fn has_no_answer(alloc: Global, function: IndexFunction, list: &str) -> bool {
    let case = for_each(function, list, "");
    for most in &PIECES {
        let run = case.read(alloc, *most, NO_FAULT);
        let nothing = run.is("", "", 0) && run.out.calls() == 0;
        if !nothing || run.pulls != case.pulls(*most) {
            return false;
        }
    }
    true
}

/// Lists without an index.
static EMPTY_LISTS: [&str; 3] = ["", "\n\n\n", " \t\r\n\r\n "];

#[test]
fn a_list_without_an_index_has_no_answer(rt: HostRuntime) {
    for (row, list) in EMPTY_LISTS.iter().enumerate() {
        for function in &functions!(16) {
            expect_row(&rt, row, has_no_answer(rt.alloc(), *function, list));
        }
    }
}

/// Lists, their parents of resolution 4 up to the first line that is refused, and the error.
static REFUSED: [(&str, &str, &str); 6] = [
    ("xyz\n85283473fffffff\n", "", "line 1: error 1: E_FAILED\n"),
    (
        "85283473fffffff\n\n \r\n81087ffffffffff",
        "8428347ffffffff\n",
        "line 4: error 5: E_CELL_INVALID\n",
    ),
    (
        "\n85283473fffffff\n8009fffffffffff\n85283473fffffff\n",
        "8428347ffffffff\n",
        "line 3: error 12: E_RES_MISMATCH\n",
    ),
    (
        "\r\n\r\n0x85283473fffffff\r\n\r\n0 0\r\n85283473fffffff\r\n",
        "8428347ffffffff\n",
        "line 5: error 1: E_FAILED\n",
    ),
    (
        "1\n2\n3\n4\n5\n6\n7\n8\n9\n10\n",
        "",
        "line 1: error 5: E_CELL_INVALID\n",
    ),
    (
        "\n\n\n\n\n\n\n\n\n\n\n\n115283473fffffff",
        "",
        "line 13: error 5: E_CELL_INVALID\n",
    ),
];

#[test]
fn the_first_line_that_is_refused_ends_the_answer(rt: HostRuntime) {
    let parents = IndexFunction::CellToParent { res: 4 };
    for (list, output, line) in &REFUSED {
        expect(
            &rt,
            line,
            is_answered(rt.alloc(), parents, list, output, line),
        );
    }
}

/// Functions of a resolution, with one out of range.
static OUT_OF_RANGE: [IndexFunction; 5] = [
    IndexFunction::CellToParent { res: 16 },
    IndexFunction::CellToCenterChild { res: 16 },
    IndexFunction::CellToLastChild { res: 16 },
    IndexFunction::CellToChildrenSize { res: 16 },
    IndexFunction::CellToChildPos { res: 16 },
];

#[test]
fn a_resolution_out_of_range_is_refused_at_the_first_index(rt: HostRuntime) {
    let outside = "line 3: error 4: E_RES_DOMAIN\n";
    let none = "line 1: error 1: E_FAILED\n";
    for (row, function) in OUT_OF_RANGE.iter().enumerate() {
        let first = "\n \n85283473fffffff\nxyz\n";
        let right = is_answered(rt.alloc(), *function, first, "", outside)
            && is_answered(rt.alloc(), *function, "xyz\n85283473fffffff\n", "", none);
        expect_row(&rt, row, right);
    }
}

/// Whether a list is known to be faulty after its first `bytes` bytes: none is read after the pull
/// that has them.
fn is_known(alloc: Global, list: &str, bytes: usize) -> bool {
    let case = for_each(IndexFunction::GetResolution, list, "");
    for most in &PIECES {
        let run = case.read(alloc, *most, NO_FAULT);
        let known = bytes.div_ceil((*most).max(1)) as u64;
        if run.status != 1 || run.pulls != known {
            return false;
        }
    }
    true
}

/// Lists, and the bytes by which they are known to be faulty.
static FAULTY: [(&str, usize); 3] = [
    ("85283473fffffff\nxyz\n85283473fffffff\n", 20),
    ("\n\n81087ffffffffff\n85283473fffffff\n", 18),
    (
        "8888888888888888888888888888888888888888888888888888888888888888888888",
        65,
    ),
];

#[test]
fn nothing_is_read_after_a_line_that_is_refused(rt: HostRuntime) {
    for (list, bytes) in &FAULTY {
        expect(&rt, list, is_known(rt.alloc(), list, *bytes));
    }
}
