//! Commands over a writer that fails.

use crate::cases::{
    Case, EDGE_CASES, LIST_CASES, PLAIN_CASES, PLURAL_CASES, Reads, Streams, WALK_CASES, WELL,
    whole,
};
use crate::expected::{expect, expect_row};
use arrayvec::ArrayVec;
use h3_fakes::{Faults, FaultySink, NO_FAULT, bases_file};
use h3_requests::Command;
use h3_streams::{Sink, Streamed};
use h3_table::vectors::TestTable;
use std::alloc::Global;

/// The line of a write fault.
const WRITE_FAULT: &str = "fault: write\n";

/// The pushes and flushes of the whole answer, with one flush or none. The answers are shorter than
/// a block of lines, so each push but the last one takes as many bytes as it can.
fn calls_of(case: &Case<'_>, most: usize) -> u64 {
    let pushes = case.output.len().div_ceil(most.max(1)) as u64;
    pushes.saturating_add(case.flushes())
}

/// Whether the whole answer is given, in as many calls as that takes.
fn is_answered(alloc: Global, case: &Case<'_>, most: usize, faults: Faults) -> bool {
    let run = case.write(alloc, FaultySink::new(most, faults));
    run.is(case.output, case.line, case.status)
        && run.out.calls() == calls_of(case, most)
        && run.out.flushes() == case.flushes()
}

/// Whether a write fault is reported, what the pushes before it took is written, and no push or
/// flush is made after it.
fn stops_at_fault(alloc: Global, case: &Case<'_>, most: usize, faults: Faults) -> bool {
    let run = case.write(alloc, FaultySink::new(most, faults));
    let call = faults.first();
    let taken = call
        .saturating_mul(most as u64)
        .min(case.output.len() as u64);
    run.status == 4
        && run.err.bytes() == WRITE_FAULT.as_bytes()
        && run.strays == 0
        && case.output.as_bytes().starts_with(run.out.bytes())
        && run.out.bytes().len() as u64 == taken
        && run.out.calls() == call.saturating_add(1)
}

/// Whether a fault at each push and at the flush is met, whether it passes or not, and none after
/// them.
fn meets_each_fault(alloc: Global, case: &Case<'_>, most: usize) -> bool {
    let calls = calls_of(case, most);
    for call in 0..calls {
        let stops = stops_at_fault(alloc, case, most, Faults::From(call))
            && stops_at_fault(alloc, case, most, Faults::Once(call));
        if !stops {
            return false;
        }
    }
    is_answered(alloc, case, most, NO_FAULT) && is_answered(alloc, case, most, Faults::From(calls))
}

/// Whether a writer that takes no byte gives a write fault, where there is something to write.
fn fails_where_no_byte_is_taken(alloc: Global, case: &Case<'_>) -> bool {
    let mut full = ArrayVec::<u8, 20>::new();
    let _ = full.try_extend_from_slice(&[b' '; 20]);
    let mut out = Streamed::new(full);
    let mut err: FaultySink<64> = FaultySink::new(64, NO_FAULT);
    let status = case.status(alloc, &mut out, &mut err);
    if case.output.is_empty() {
        status == case.status && err.bytes() == case.line.as_bytes()
    } else {
        status == 4 && err.bytes() == WRITE_FAULT.as_bytes()
    }
}

/// Whether a flush that fails gives a write fault in place of any error after lines. Where an error
/// comes before any line, nothing is flushed.
fn fails_where_a_flush_does(alloc: Global, case: &Case<'_>) -> bool {
    let run = case.write(alloc, FaultySink::refusing_flush(64));
    if case.output.is_empty() && case.status != 0 {
        run.is(case.output, case.line, case.status) && run.out.calls() == 0
    } else {
        run.is(case.output, WRITE_FAULT, 4) && run.out.flushes() == 1
    }
}

/// How a run ends.
#[derive(Clone, Copy)]
struct Ending<'a> {
    output: &'a str,
    line: &'a str,
    status: u8,
}

/// Whether a run ends so over a standard error that fails at a push or never: the status and the
/// output are the same, a beginning of the line is written, five bytes a push, and no push is made
/// after one that failed.
fn ends_over(alloc: Global, case: &Case<'_>, streams: Streams, ending: Ending<'_>) -> bool {
    let run = case.over(alloc, streams);
    let line = ending.line.as_bytes();
    let pushes = line.len().div_ceil(5) as u64;
    let good = streams.errors.first().min(pushes);
    let taken = good.saturating_mul(5).min(line.len() as u64);
    line.starts_with(run.err.bytes())
        && run.err.bytes().len() as u64 == taken
        && run.err.flushes() == 0
        && run.err.calls() == good.saturating_add(1).min(pushes)
        && run.status == ending.status
        && run.out.bytes() == ending.output.as_bytes()
        && run.strays == 0
}

/// Whether a standard error that fails at any push, whether this passes or not, changes neither the
/// output nor the status.
fn ends_over_each(alloc: Global, case: &Case<'_>, streams: Streams, ending: Ending<'_>) -> bool {
    for call in 0..7u64 {
        let stays = Streams {
            errors: Faults::From(call),
            ..streams
        };
        let passes = Streams {
            errors: Faults::Once(call),
            ..streams
        };
        if !ends_over(alloc, case, stays, ending) || !ends_over(alloc, case, passes, ending) {
            return false;
        }
    }
    true
}

/// Whether that is so of a run that ends with a write fault at once.
fn ends_with_a_write_fault(alloc: Global, case: &Case<'_>) -> bool {
    let writes = Streams {
        writes: Faults::From(0),
        ..WELL
    };
    let ending = Ending {
        output: "",
        line: WRITE_FAULT,
        status: 4,
    };
    case.flushes() == 0 || ends_over_each(alloc, case, writes, ending)
}

/// Whether that is so of a run that ends with a read fault at once.
fn ends_with_a_read_fault(alloc: Global, case: &Case<'_>) -> bool {
    let reads = Streams {
        reads: Faults::From(0),
        ..WELL
    };
    let ending = Ending {
        output: "",
        line: "fault: read\n",
        status: 4,
    };
    case.pulls(1) == 0 || ends_over_each(alloc, case, reads, ending)
}

/// Whether a command ends as it should over writers that fail in each of these ways.
fn ends_well(alloc: Global, case: &Case<'_>) -> bool {
    let ending = Ending {
        output: case.output,
        line: case.line,
        status: case.status,
    };
    fails_where_no_byte_is_taken(alloc, case)
        && fails_where_a_flush_does(alloc, case)
        && ends_over_each(alloc, case, WELL, ending)
        && ends_with_a_write_fault(alloc, case)
        && ends_with_a_read_fault(alloc, case)
}

#[test]
fn a_plain_command_whose_write_fails_is_a_write_fault(rt: HostRuntime) {
    for (row, case) in PLAIN_CASES.iter().enumerate() {
        let right = meets_each_fault(rt.alloc(), case, 1)
            && meets_each_fault(rt.alloc(), case, 2)
            && meets_each_fault(rt.alloc(), case, 16)
            && meets_each_fault(rt.alloc(), case, 64)
            && ends_well(rt.alloc(), case);
        expect_row(&rt, row, right);
    }
}

/// The same of commands on a list.
fn list_is_well_written(alloc: Global, case: &Case<'_>) -> bool {
    meets_each_fault(alloc, case, 1)
        && meets_each_fault(alloc, case, 5)
        && meets_each_fault(alloc, case, 64)
        && ends_well(alloc, case)
}

#[test]
fn a_command_on_a_list_whose_write_fails_is_a_write_fault(rt: HostRuntime) {
    for (row, case) in LIST_CASES.iter().enumerate() {
        expect_row(&rt, row, list_is_well_written(rt.alloc(), case));
    }
}

#[test]
fn a_function_of_each_index_whose_write_fails_is_a_write_fault(rt: HostRuntime) {
    for (row, case) in PLURAL_CASES.iter().enumerate() {
        expect_row(&rt, row, list_is_well_written(rt.alloc(), case));
    }
}

#[test]
fn a_walk_whose_write_fails_is_a_write_fault(rt: HostRuntime) {
    let file = bases_file(TestTable::Plain);
    for (row, case) in WALK_CASES.iter().enumerate() {
        let case = case.on_table(file.as_str());
        let right = meets_each_fault(rt.alloc(), &case, 1)
            && meets_each_fault(rt.alloc(), &case, 16)
            && ends_well(rt.alloc(), &case);
        expect_row(&rt, row, right);
    }
}

#[test]
fn a_command_on_edges_whose_write_fails_is_a_write_fault(rt: HostRuntime) {
    let file = bases_file(TestTable::Plain);
    for (row, case) in EDGE_CASES.iter().enumerate() {
        let case = case.on_table(file.as_str());
        let right = meets_each_fault(rt.alloc(), &case, 1)
            && meets_each_fault(rt.alloc(), &case, 64)
            && ends_well(rt.alloc(), &case);
        expect_row(&rt, row, right);
    }
}

#[test]
fn a_writer_with_room_for_20_bytes_has_the_first_20(rt: HostRuntime) {
    let [_, case, _, _] = PLAIN_CASES;
    let mut out = Streamed::new(ArrayVec::<u8, 20>::new());
    let mut err: FaultySink<64> = FaultySink::new(64, NO_FAULT);
    expect(
        &rt,
        "status",
        case.status(rt.alloc(), &mut out, &mut err) == 4,
    );
    expect(
        &rt,
        "output",
        out.into_inner().as_slice() == b"862834707ffffff\n8628".as_slice(),
    );
    expect(&rt, "standard error", err.bytes() == WRITE_FAULT.as_bytes());
}

/// A writer that has room for 40 bytes beside those that it has.
fn nearly_full() -> FaultySink<2048> {
    let mut out = FaultySink::new(64, NO_FAULT);
    for _ in 0..251u32 {
        let _ = out.push(b"........");
    }
    out
}

/// Whether a command writes these first 40 bytes, over a writer that has room for no more. The
/// command has so many cells that none of them comes out in time, if all are computed first.
fn begins(alloc: Global, command: Command, reads: Reads<'_>, begun: &str) -> bool {
    let run = whole(command, reads, "").write(alloc, nearly_full());
    let bytes = run.out.bytes();
    run.status == 4
        && bytes.len() == 2008 + 40
        && bytes.ends_with(begun.as_bytes())
        && run.err.bytes() == WRITE_FAULT.as_bytes()
}

#[test]
fn a_long_list_is_written_from_the_start(rt: HostRuntime) {
    let begun = "8f0000000000000\n8f0000000000001\n8f000000";
    let children = Command::CellToChildren {
        cell: Some(0x8001fffffffffff),
        res: 15,
    };
    expect(
        &rt,
        "children",
        begins(rt.alloc(), children, Reads::Nothing, begun),
    );
    let list = Reads::List("8001fffffffffff\n8003fffffffffff\n");
    let descendants = Command::UncompactCells { res: 15 };
    expect(
        &rt,
        "descendants",
        begins(rt.alloc(), descendants, list, begun),
    );
}

#[test]
fn a_long_disk_is_written_from_the_start(rt: HostRuntime) {
    let file = bases_file(TestTable::Plain);
    let table = Reads::Table(file.as_str());
    let cell = Some(0x8f2834700000000);
    let k = i32::MAX;
    let disk = Command::GridDiskUnsafe { cell, k };
    let begun = "8f2834700000000\n8f2834700000006\n8f283470";
    expect(&rt, "disk", begins(rt.alloc(), disk, table, begun));
    let distances = Command::GridDiskDistancesUnsafe { cell, k };
    let begun = "8f2834700000000 0\n8f2834700000006 1\n8f28";
    expect(
        &rt,
        "distances",
        begins(rt.alloc(), distances, table, begun),
    );
}
