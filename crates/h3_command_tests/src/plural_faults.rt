//! Functions of each index of a list, over readers and writers that fail.

use crate::cases::{LONG, Streams, WELL, for_each};
use crate::expected::{expect, expect_at, expect_pair};
use crate::plurals::answer_to;
use arrayvec::ArrayString;
use h3_fakes::{Faults, FaultySink, NO_FAULT};
use h3_requests::IndexFunction;
use std::alloc::Global;

/// The line of a read fault.
const READ_FAULT: &str = "fault: read\n";

/// The line of a write fault.
const WRITE_FAULT: &str = "fault: write\n";

/// A function that answers a cell of resolution 5 with itself.
const PARENTS: IndexFunction = IndexFunction::CellToParent { res: 5 };

/// The lines that end in the first bytes of a list.
fn ended_lines(list: &str, bytes: usize) -> &str {
    let begun = list.get(..bytes).unwrap_or(list);
    match begun.rsplit_once('\n') {
        Some((lines, _)) => lines,
        None => "",
    }
}

/// Whether at a fault at one pull the answers to the lines that ended before it are written, and no
/// pull is made after it. Where one of those lines is refused, the fault is not met.
fn stops_at_fault(
    alloc: Global,
    function: IndexFunction,
    list: &str,
    most: usize,
    faults: Faults,
) -> bool {
    let pull = faults.first();
    let bytes = (pull as usize).saturating_mul(most);
    let answer = answer_to(alloc, function, ended_lines(list, bytes));
    let run = for_each(function, list, "").read(alloc, most, faults);
    if answer.status == 0 {
        run.pulls == pull.saturating_add(1) && run.is(answer.output.as_str(), READ_FAULT, 4)
    } else {
        answer.is(&run) && run.pulls <= pull
    }
}

/// Whether that is so of a fault at each pull of a list, whether it passes or not.
fn stops_at_each_fault(alloc: Global, function: IndexFunction, list: &str, most: usize) -> bool {
    for pull in 0..for_each(function, list, "").pulls(most) {
        let stops = stops_at_fault(alloc, function, list, most, Faults::From(pull))
            && stops_at_fault(alloc, function, list, most, Faults::Once(pull));
        if !stops {
            return false;
        }
    }
    true
}

/// Functions that refuse different lines, and write different numbers of lines.
static FUNCTIONS: [IndexFunction; 3] = [
    IndexFunction::IsValidCell,
    IndexFunction::CellToParent { res: 0 },
    IndexFunction::OriginToDirectedEdges,
];

/// Lists of cells and edges, with blank lines, and lines that are refused by some function or each.
static LISTS: [&str; 6] = [
    "85283473fffffff\n\n8009fffffffffff\n",
    "85283473fffffff\r\n \r\n0x85283447fffffff\r\n85283463fffffff",
    "115283473fffffff\n125283473fffffff",
    "85283473fffffff\nxyz\n85283447fffffff\n",
    "8009fffffffffff\n81087ffffffffff",
    "xyz",
];

#[test]
fn the_lines_before_a_read_fault_are_answered(rt: HostRuntime) {
    for (row, function) in FUNCTIONS.iter().enumerate() {
        for (place, list) in LISTS.iter().enumerate() {
            let right = stops_at_each_fault(rt.alloc(), *function, list, 5)
                && stops_at_each_fault(rt.alloc(), *function, list, 16)
                && stops_at_each_fault(rt.alloc(), *function, list, 65536);
            expect_pair(&rt, row, place, right);
        }
    }
}

#[test]
fn a_long_line_is_refused_before_a_read_fault(rt: HostRuntime) {
    let long = "8888888888888888888888888888888888888888888888888888888888888888888888";
    let case = for_each(PARENTS, long, "");
    let known = case.read(rt.alloc(), 1, Faults::From(65));
    expect(
        &rt,
        "a fault after 65 bytes",
        known.is("", "line 1: error 1: E_FAILED\n", 1) && known.pulls == 65,
    );
    let torn = case.read(rt.alloc(), 1, Faults::From(64));
    expect(
        &rt,
        "a fault after 64 bytes",
        torn.is("", READ_FAULT, 4) && torn.pulls == 65,
    );
}

/// Four cells, and so their own answer: of as many bytes each.
const FOUR: &str = "85283473fffffff\n85283447fffffff\n8528347bfffffff\n85283463fffffff\n";

/// How a list is read a line at a time, over a writer with these faults.
fn line_by_line(writes: Faults) -> Streams {
    Streams {
        most: 16,
        writes,
        ..WELL
    }
}

#[test]
fn lines_are_written_as_they_are_read(rt: HostRuntime) {
    let case = for_each(PARENTS, FOUR, "");
    let run = case.over(rt.alloc(), line_by_line(NO_FAULT));
    let whole = run.is(FOUR, "", 0) && run.pulls == 5;
    expect(
        &rt,
        "four lines",
        whole && run.out.calls() == 8 && run.out.flushes() == 4,
    );
}

/// Whether at a write fault at a call, where each line read is a push and a flush, what the pushes
/// before took is written, and no pull, push or flush is made after it.
fn stops_at_write_fault(alloc: Global, faults: Faults) -> bool {
    let call = faults.first();
    let run = for_each(PARENTS, FOUR, "").over(alloc, line_by_line(faults));
    let pushed = (call.div_ceil(2) as usize).saturating_mul(16);
    let begun = FOUR.get(..pushed).unwrap_or("");
    run.is(begun, WRITE_FAULT, 4)
        && run.out.calls() == call.saturating_add(1)
        && run.pulls == (call / 2).saturating_add(1)
}

#[test]
fn nothing_is_read_after_a_write_fault(rt: HostRuntime) {
    for call in 0..8u64 {
        let right = stops_at_write_fault(rt.alloc(), Faults::From(call))
            && stops_at_write_fault(rt.alloc(), Faults::Once(call));
        expect_at(&rt, "call", call, right);
    }
}

/// The same cell on `count` lines, and then a line that is refused.
fn refused_after(count: usize) -> ArrayString<65536> {
    let mut list = ArrayString::new();
    for _ in 0..count {
        let _ = list.try_push_str("85283473fffffff\n");
    }
    let _ = list.try_push_str("xyz\n");
    list
}

/// Whether lines are flushed once before an error.
fn flushes_once(alloc: Global, count: usize) -> bool {
    let list = refused_after(count);
    let mut out: FaultySink<LONG> = FaultySink::new(65536, NO_FAULT);
    let mut err: FaultySink<64> = FaultySink::new(64, NO_FAULT);
    let status = for_each(PARENTS, &list, "").status(alloc, &mut out, &mut err);
    status == 1
        && err.bytes().ends_with(b": error 1: E_FAILED\n")
        && list.as_bytes().starts_with(out.bytes())
        && out.bytes().len() == count.saturating_mul(16)
        && out.flushes() == 1
}

/// Whether a flush that fails before an error is a write fault.
fn reports_a_flush_fault(alloc: Global, count: usize) -> bool {
    let list = refused_after(count);
    let mut out: FaultySink<LONG> = FaultySink::refusing_flush(65536);
    let mut err: FaultySink<64> = FaultySink::new(64, NO_FAULT);
    let status = for_each(PARENTS, &list, "").status(alloc, &mut out, &mut err);
    status == 4
        && err.bytes() == WRITE_FAULT.as_bytes()
        && out.bytes().len() == count.saturating_mul(16)
        && out.flushes() == 1
}

/// Numbers of lines. A block has room for the answers to 2007 lines, and for more only once it is
/// written, up to 4013.
static COUNTS: [usize; 8] = [1, 2, 2007, 2008, 2048, 2049, 4013, 4014];

#[test]
fn lines_are_flushed_before_an_error(rt: HostRuntime) {
    for count in &COUNTS {
        let right = flushes_once(rt.alloc(), *count) && reports_a_flush_fault(rt.alloc(), *count);
        expect_at(&rt, "lines", *count as u64, right);
    }
}
