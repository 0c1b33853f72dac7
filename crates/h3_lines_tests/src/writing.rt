//! Lines that are written to a sink, by blocks.

use crate::expected::expect;
use h3_fakes::{Faults, FaultySink};
use h3_index::{Cell, H3Error};
use h3_lines::{AnswerError, Fault, RunError, write_lines, write_walk};

/// The number of decimal digits.
fn number_of(digits: &[u8]) -> u64 {
    let mut number = 0u64;
    for digit in digits {
        number = number
            .saturating_mul(10)
            .saturating_add(u64::from(*digit & 15));
    }
    number
}

/// Whether lines have the numbers from 0 on below `count`, and nothing follows the last line feed.
fn have_numbers(bytes: &[u8], count: u64) -> bool {
    let mut expected = 0u64;
    for line in bytes.split(|byte| *byte == b'\n') {
        if number_of(line) != expected && !(line.is_empty() && expected == count) {
            return false;
        }
        expected = expected.saturating_add(1);
    }
    expected == count.saturating_add(1)
}

#[test]
fn many_lines_go_out_by_blocks(rt: HostRuntime) {
    // 10 * 2 + 90 * 3 + 900 * 4 + 9000 * 5 + 4000 * 6 bytes, in blocks of at least 32096: two of
    // them, the rest, and a flush
    let mut out: FaultySink<72890> = FaultySink::new(131072, Faults::From(4));
    expect(
        &rt,
        "a fault after the last call",
        write_lines(&mut out, 0..14000u64).is_ok(),
    );
    expect(
        &rt,
        "all lines",
        out.bytes().len() == 72890 && have_numbers(out.bytes(), 14000),
    );
    let mut out: FaultySink<72890> = FaultySink::new(131072, Faults::From(3));
    expect(
        &rt,
        "a fault at the last call",
        write_lines(&mut out, 0..14000u64) == Err(RunError::Fault(Fault::Write)),
    );
}

#[test]
fn lines_go_out_while_there_is_room(rt: HostRuntime) {
    // 10 * 2 + 90 * 3 + 900 * 4 + 7222 * 5 bytes
    let mut out: FaultySink<40000> = FaultySink::new(65536, Faults::From(4));
    expect(
        &rt,
        "no more room",
        write_lines(&mut out, 0..14000u64) == Err(RunError::Fault(Fault::Write)),
    );
    expect(
        &rt,
        "as many bytes as there is room for",
        out.bytes().len() == 40000,
    );
    expect(
        &rt,
        "the lines in room",
        out.bytes().starts_with(b"0\n1\n2\n") && out.bytes().ends_with(b"8221\n"),
    );
}

/// The cell of these walks.
fn cell() -> Result<Cell, H3Error> {
    Cell::new(0x85283473fffffff)
}

/// The line of the cell, twice.
const TWO_LINES: &[u8] = b"85283473fffffff\n85283473fffffff\n";

/// Whether a walk of two cells, an error and another one ends so over a sink whose calls fail from
/// this one on, after both lines.
fn walk_ends(calls: u64, refusal: RunError) -> bool {
    let steps = [cell(), cell(), Err(H3Error::Pentagon), Err(H3Error::Failed)];
    let mut out: FaultySink<64> = FaultySink::new(64, Faults::From(calls));
    let written = write_walk(&mut out, steps.iter().copied());
    written == Err(refusal) && out.bytes() == TWO_LINES
}

#[test]
fn the_lines_of_a_walk_stand_before_its_error(rt: HostRuntime) {
    expect(
        &rt,
        "the error",
        walk_ends(2, RunError::Error(AnswerError::Call(H3Error::Pentagon))),
    );
    // the flush fails, and is reported in place of the error
    expect(
        &rt,
        "the fault in place of the error",
        walk_ends(1, RunError::Fault(Fault::Write)),
    );
    // where no line comes before the error, nothing is written or flushed
    let mut out: FaultySink<64> = FaultySink::new(64, Faults::From(0));
    let refused: [Result<Cell, H3Error>; 1] = [Err(H3Error::Pentagon)];
    let written = write_walk(&mut out, refused.iter().copied());
    expect(
        &rt,
        "no line before the error",
        written == Err(RunError::Error(AnswerError::Call(H3Error::Pentagon))) && out.calls() == 0,
    );
}

/// Whether all bytes are lines of the cell.
fn are_lines(bytes: &[u8]) -> bool {
    for line in bytes.chunks(16) {
        if line != b"85283473fffffff\n".as_slice() {
            return false;
        }
    }
    true
}

/// Whether a sink got this many bytes of lines of the cell by these calls, one of them a flush.
fn has_lines(out: &FaultySink<33600>, length: usize, calls: u64) -> bool {
    out.bytes().len() == length
        && are_lines(out.bytes())
        && out.calls() == calls
        && out.flushes() == 1
}

#[test]
fn a_walk_of_many_lines_goes_out_by_blocks(rt: HostRuntime) {
    // 2007 lines of 16 bytes fill a block: it goes out but for its last byte, then the other 93, and then
    // comes a flush
    let mut steps: [Result<Cell, H3Error>; 2100] = [cell(); 2100];
    let mut out: FaultySink<33600> = FaultySink::new(65536, Faults::From(3));
    let written = write_walk(&mut out, steps.iter().copied());
    expect(
        &rt,
        "2100 lines",
        written == Ok(()) && has_lines(&out, 33600, 3),
    );
    // an error after 2099 lines
    steps[2099] = Err(H3Error::Pentagon);
    let mut out: FaultySink<33600> = FaultySink::new(65536, Faults::From(3));
    let written = write_walk(&mut out, steps.iter().copied());
    expect(
        &rt,
        "2099 lines",
        written == Err(RunError::Error(AnswerError::Call(H3Error::Pentagon)))
            && has_lines(&out, 33584, 3),
    );
}

/// The first push, the second one and the flush, each with the calls and the bytes up to it.
static WRITE_FAULTS: [(u64, u64, usize); 3] = [(0, 1, 0), (1, 2, 32111), (2, 3, 33600)];

#[test]
fn a_walk_of_many_lines_ends_at_a_write_fault(rt: HostRuntime) {
    let steps: [Result<Cell, H3Error>; 2100] = [cell(); 2100];
    for (fault, calls, length) in &WRITE_FAULTS {
        let mut out: FaultySink<33600> = FaultySink::new(65536, Faults::Once(*fault));
        let written = write_walk(&mut out, steps.iter().copied());
        let stopped = out.calls() == *calls && out.bytes().len() == *length;
        assert!(&rt;
            written == Err(RunError::Fault(Fault::Write)) && stopped,
            "call {fault}"
        );
    }
}
