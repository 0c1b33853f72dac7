//! Functions of each index of a list, where the list is longer than a page of 65536 bytes.

use crate::cases::{LONG, Reads, for_each, whole};
use crate::expected::expect_at;
use crate::plurals::line_at;
use arrayvec::ArrayString;
use h3_fakes::{Faults, FaultySink, FaultySource, NO_FAULT};
use h3_requests::{Command, IndexFunction};
use h3_runs::run_command;
use h3_streams::Sink;
use itoa::Buffer;
use std::alloc::Global;

/// A function that answers a cell of resolution 5 with itself.
const PARENTS: IndexFunction = IndexFunction::CellToParent { res: 5 };

/// A list of `count` line feeds, and then a text.
fn after_line_feeds(count: usize, text: &str) -> ArrayString<70_000> {
    let mut list = ArrayString::new();
    for _ in 0..count {
        let _ = list.try_push_str("\n");
    }
    let _ = list.try_push_str(text);
    list
}

/// Whether lines after `count` blank ones are answered, up to the one that is refused.
fn is_answered_after(alloc: Global, count: usize) -> bool {
    let text = "85283473fffffff\n 0X85283447FFFFFFF\r\nxyz";
    let list = after_line_feeds(count, text);
    let case = for_each(PARENTS, list.as_str(), "");
    let run = case.read(alloc, 65536, NO_FAULT);
    let line = line_at(count.saturating_add(2), "error 1: E_FAILED\n");
    run.is("85283473fffffff\n85283447fffffff\n", &line, 1) && run.pulls == case.pulls(65536)
}

/// Numbers of blank lines before others that end on the first page, or not.
static BLANK_LINES: [usize; 6] = [65510, 65520, 65521, 65535, 65536, 65537];

#[test]
fn a_line_is_answered_wherever_a_page_ends(rt: HostRuntime) {
    for count in &BLANK_LINES {
        expect_at(
            &rt,
            "after",
            *count as u64,
            is_answered_after(rt.alloc(), *count),
        );
    }
}

/// Whether of two lines after `count` blank ones those that the first page has are answered, where
/// the second page is not read.
fn is_answered_before_a_read_fault(alloc: Global, count: usize) -> bool {
    let begun = "85283473fffffff\n85283447fffffff\n";
    let list = after_line_feeds(count, begun);
    let run = for_each(PARENTS, list.as_str(), "").read(alloc, 65536, Faults::From(1));
    let ended = 65536usize.saturating_sub(count) / 16;
    let output = begun.get(..ended.saturating_mul(16)).unwrap_or("");
    run.is(output, "fault: read\n", 4) && run.pulls == 2
}

/// Numbers of blank lines before two others.
static CUT_AFTER: [usize; 7] = [65504, 65505, 65520, 65521, 65535, 65536, 65537];

#[test]
fn lines_that_a_read_fault_cuts_are_not_answered_on_a_second_page(rt: HostRuntime) {
    for count in &CUT_AFTER {
        expect_at(
            &rt,
            "after",
            *count as u64,
            is_answered_before_a_read_fault(rt.alloc(), *count),
        );
    }
}

/// Puts spaces, the 7^5 descendants of a cell at resolution 10, ascending, and a line that is
/// refused; returns whether that succeeds.
fn put_descendants(alloc: Global, blanks: usize, list: &mut FaultySink<LONG>) -> bool {
    for _ in 0..blanks {
        let _ = list.push(b" ");
    }
    let children = Command::CellToChildren {
        cell: Some(0x85283473fffffff),
        res: 10,
    };
    let mut err: FaultySink<64> = FaultySink::new(64, NO_FAULT);
    let status = whole(children, Reads::Nothing, "").status(alloc, list, &mut err);
    status == 0 && list.push(b"xyz").is_ok()
}

/// The numbers below `count`, one a line.
fn numbers(count: u32) -> FaultySink<LONG> {
    let mut lines = FaultySink::new(65536, NO_FAULT);
    for number in 0..count {
        let mut buffer = Buffer::new();
        let _ = lines.push(buffer.format(number).as_bytes());
        let _ = lines.push(b"\n");
    }
    lines
}

/// Whether the positions of cells among the descendants of their ancestor are these.
fn has_positions(alloc: Global, list: &[u8], wanted: &[u8]) -> bool {
    let positions = Command::ForEach(IndexFunction::CellToChildPos { res: 5 });
    let mut input = FaultySource::new(list, 65536, NO_FAULT);
    let mut table = FaultySource::new(b"", 0, NO_FAULT);
    let mut out: FaultySink<LONG> = FaultySink::new(65536, NO_FAULT);
    let mut err: FaultySink<64> = FaultySink::new(64, NO_FAULT);
    let status = run_command(
        alloc, &positions, &mut input, &mut table, &mut out, &mut err,
    );
    status == 1
        && err.bytes() == b"line 16808: error 1: E_FAILED\n".as_slice()
        && out.bytes() == wanted
}

/// Whether the positions of all descendants are those from 0 on, where spaces stand before them.
fn has_all_positions(alloc: Global, blanks: usize) -> bool {
    let mut list = FaultySink::new(65536, NO_FAULT);
    if !put_descendants(alloc, blanks, &mut list) {
        return false;
    }
    let wanted = numbers(16807);
    has_positions(alloc, list.bytes(), wanted.bytes())
}

/// Numbers of spaces before a list.
static BLANKS: [usize; 5] = [0, 1, 8, 15, 16];

#[test]
fn a_list_of_several_pages_is_answered_in_its_order(rt: HostRuntime) {
    for blanks in &BLANKS {
        expect_at(
            &rt,
            "blanks",
            *blanks as u64,
            has_all_positions(rt.alloc(), *blanks),
        );
    }
}
