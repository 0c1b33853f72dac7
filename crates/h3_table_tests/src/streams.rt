//! Streams over readers and writers, and reads that are counted.

ghost use Rattle.std.specs.Prelude.{◌≤◌, IfOk};

use crate::expected::{expect, expect_row};
use h3_fakes::holds;
use h3_streams::{CountedReader, Sink, Source, StreamFault, Streamed};
use std::alloc::AllocError;
use std::io::{self, Read, Write};

/// Whether a call moved this many bytes.
fn moves(found: Result<usize, StreamFault>, expected: usize) -> bool {
    match found {
        Ok(count) => count == expected,
        Err(_) => false,
    }
}

#[test]
fn a_streamed_reader_is_read(rt: HostRuntime) {
    let mut source = Streamed::new(b"abc".as_slice());
    let mut page = [0; 2];
    expect(&rt, "two bytes", moves(source.pull(&mut page), 2));
    expect(&rt, "which two", page == *b"ab");
    expect(&rt, "one byte", moves(source.pull(&mut page), 1));
    expect(&rt, "the end", moves(source.pull(&mut page), 0));
    expect(&rt, "no failure", !source.failed());
}

#[test]
fn a_streamed_writer_is_written(rt: HostRuntime) {
    let mut sink = Streamed::new(Vec::new(rt.alloc()));
    expect(&rt, "push", moves(sink.push(b"abc"), 3));
    expect(&rt, "flush", sink.flush().is_ok());
    expect(&rt, "no failure", !sink.failed());
    expect(
        &rt,
        "what was pushed",
        sink.into_inner().as_slice() == b"abc".as_slice(),
    );
}

/// A reader and writer that counts its calls, and what they were handed.
///
/// Its first calls are good, some after them fail, and the others are good again. A good one takes
/// or gives as many bytes as it was made for at most.
#[derive(Drop)]
struct Counting {
    calls: u32,
    handed: usize,
    good_calls: u32,
    bad_calls: u32,
    at_most: usize,
}

impl Counting {
    /// Counts a call that was handed a buffer of this size.
    fn call(&mut self, size: usize) -> io::Result<usize>
        ensures { IfOk result (λ n. n ≤ size) }
    {
        let fails = self.calls >= self.good_calls && self.calls - self.good_calls < self.bad_calls;
        self.calls = self.calls.saturating_add(1);
        self.handed = size;
        if fails {
            return Err(io::Error::from(io::ErrorKind::Other));
        }
        Ok(size.min(self.at_most))
    }
}

impl Read for Counting {
    fn read(&mut self, buf: &mut [u8]) -> io::Result<usize> {
        self.call(buf.len())
    }
}

impl Write for Counting {
    fn write(&mut self, bytes: &[u8]) -> io::Result<usize> {
        self.call(bytes.len())
    }

    fn flush(&mut self) -> io::Result<()> {
        self.call(0)?;
        Ok(())
    }
}

/// A stream of which calls fail after some good ones, as many as given. A good one moves a number
/// of bytes at most.
fn stream_with(good_calls: u32, bad_calls: u32, at_most: usize) -> Streamed<Counting> {
    Streamed::new(Counting {
        calls: 0,
        handed: 0,
        good_calls,
        bad_calls,
        at_most,
    })
}

/// The size of a long buffer.
const LONG: usize = 5000;

/// The lengths of an empty, a short and a long buffer.
static LENGTHS: [usize; 3] = [0, 3, LONG];

/// What a stream is after a call: how many bytes that moved, `None` where it failed, whether the
/// stream has failed, how many calls its inner one counted, and the size that the last was handed.
#[derive(Clone, Copy)]
struct Outcome {
    moved: Option<usize>,
    failed: bool,
    calls: u32,
    handed: usize,
}

impl Outcome {
    fn after(stream: Streamed<Counting>, moved: Option<usize>) -> Outcome {
        let failed = stream.failed();
        let inner = stream.into_inner();
        Outcome {
            moved,
            failed,
            calls: inner.calls,
            handed: inner.handed,
        }
    }

    /// Whether the call moved all of a buffer.
    fn is_good(self, failed: bool, calls: u32, length: usize) -> bool {
        let moved_all = match self.moved {
            Some(count) => count == length,
            None => false,
        };
        moved_all && self.failed == failed && self.calls == calls && self.handed == length
    }

    /// Whether the call failed.
    fn is_bad(self, calls: u32, length: usize) -> bool {
        self.moved.is_none() && self.failed && self.calls == calls && self.handed == length
    }
}

/// After a pull into a buffer of up to `LONG` bytes.
fn pulled(mut stream: Streamed<Counting>, length: usize) -> Outcome {
    let mut page = [7; LONG];
    let moved = stream.pull(&mut page[..length.min(LONG)]).ok();
    Outcome::after(stream, moved)
}

/// After a push of up to `LONG` bytes.
fn pushed(mut stream: Streamed<Counting>, length: usize) -> Outcome {
    let page = [7; LONG];
    let moved = stream.push(&page[..length.min(LONG)]).ok();
    Outcome::after(stream, moved)
}

/// After a flush, which moves nothing.
fn flushed(mut stream: Streamed<Counting>) -> Outcome {
    let moved = stream.flush().ok().map(|_| 0);
    Outcome::after(stream, moved)
}

#[test]
fn each_call_is_handed_on_once(rt: HostRuntime) {
    for (row, length) in LENGTHS.iter().enumerate() {
        let good = stream_with(1, u32::MAX, LONG);
        expect_row(&rt, row, pulled(good, *length).is_good(false, 1, *length));
        let good = stream_with(1, u32::MAX, LONG);
        expect_row(&rt, row, pushed(good, *length).is_good(false, 1, *length));
    }
    expect(
        &rt,
        "flush",
        flushed(stream_with(1, u32::MAX, LONG)).is_good(false, 1, 0),
    );
}

#[test]
fn a_failure_is_returned_and_kept(rt: HostRuntime) {
    for (row, length) in LENGTHS.iter().enumerate() {
        let bad = stream_with(0, u32::MAX, LONG);
        expect_row(&rt, row, pulled(bad, *length).is_bad(1, *length));
        let bad = stream_with(0, u32::MAX, LONG);
        expect_row(&rt, row, pushed(bad, *length).is_bad(1, *length));
    }
    expect(
        &rt,
        "flush",
        flushed(stream_with(0, u32::MAX, LONG)).is_bad(1, 0),
    );
}

/// Whether a pull after a failed one is handed on once.
fn pulls_after_failure(length: usize) -> bool {
    let mut stream = stream_with(0, 1, LONG);
    stream.pull(&mut [0; 1]).is_err() && pulled(stream, length).is_good(true, 2, length)
}

/// Whether a push after a failed one is handed on once.
fn pushes_after_failure(length: usize) -> bool {
    let mut stream = stream_with(0, 1, LONG);
    stream.push(b"a").is_err() && pushed(stream, length).is_good(true, 2, length)
}

/// Whether a flush after a failed one is handed on once.
fn flushes_after_failure() -> bool {
    let mut stream = stream_with(0, 1, LONG);
    stream.flush().is_err() && flushed(stream).is_good(true, 2, 0)
}

#[test]
fn a_call_after_a_failed_one_is_handed_on_once(rt: HostRuntime) {
    for (row, length) in LENGTHS.iter().enumerate() {
        expect_row(&rt, row, pulls_after_failure(*length));
        expect_row(&rt, row, pushes_after_failure(*length));
    }
    expect(&rt, "flush", flushes_after_failure());
}

#[test]
fn a_call_that_moves_no_byte(rt: HostRuntime) {
    // for a reader it is the end
    let at_end = pulled(stream_with(1, u32::MAX, 0), LONG);
    expect(
        &rt,
        "the end",
        matches!(at_end.moved, Some(0)) && !at_end.failed && at_end.calls == 1,
    );

    // for a writer it is a failure, unless there was none to write
    let mut pushed_none = stream_with(2, u32::MAX, 0);
    expect(&rt, "no byte is pushed", moves(pushed_none.push(b""), 0));
    expect(&rt, "no failure", !pushed_none.failed());
    expect(
        &rt,
        "none of three bytes is pushed",
        pushed(pushed_none, 3).is_bad(2, 3),
    );
}

#[test]
fn a_read_past_the_limit_is_not_made(rt: HostRuntime) {
    let mut page = [0; 1];
    let mut source = Streamed::new(b"abcd".as_slice());
    let mut reader = CountedReader::new(&mut source, 3);
    for byte in *b"abc" {
        expect(
            &rt,
            "a byte",
            moves(reader.read(&mut page), 1) && page[0] == byte,
        );
    }
    expect(&rt, "no read is left", reader.read(&mut page).is_err());
    expect(&rt, "reads left", reader.reads_left() == 0);
    expect(&rt, "no failure", !source.failed());
    expect(
        &rt,
        "the next byte",
        moves(source.pull(&mut page), 1) && page[0] == b'd',
    );
}

#[test]
fn the_end_and_empty_pages_are_read(rt: HostRuntime) {
    let mut source = Streamed::new(b"a".as_slice());
    let mut reader = CountedReader::new(&mut source, 3);
    expect(&rt, "none into no room", moves(reader.read(&mut []), 0));
    expect(&rt, "one byte", moves(reader.read(&mut [0; 2]), 1));
    expect(&rt, "the end", moves(reader.read(&mut [0; 2]), 0));
    expect(&rt, "reads left", reader.reads_left() == 0);
}

/// Two pages, a part of one, and the end are four reads.
#[test]
fn bytes_are_read_to_their_end(rt: HostRuntime) {
    let mut page = [0; 2];
    let mut source = Streamed::new(b"abcde".as_slice());
    let mut reader = CountedReader::new(&mut source, 4);
    expect(
        &rt,
        "the first page",
        moves(reader.read(&mut page), 2) && page == *b"ab",
    );
    expect(
        &rt,
        "the second page",
        moves(reader.read(&mut page), 2) && page == *b"cd",
    );
    expect(
        &rt,
        "a part of a page",
        moves(reader.read(&mut page), 1) && page[0] == b'e',
    );
    expect(&rt, "the end", moves(reader.read(&mut page), 0));
    expect(&rt, "reads left", reader.reads_left() == 0);
}

/// Whether of three reads the one after some good ones is a fault. A fourth read is not made.
fn fails_after(rt: &HostRuntime, good: u32) -> bool {
    let mut page = [0; 1];
    let mut source = stream_with(good, u32::MAX, 1);
    let mut reader = CountedReader::new(&mut source, 3);
    let mut are_good = true;
    for _ in 0..good {
        are_good = are_good && moves(reader.read(&mut page), 1);
    }
    let is_fault = reader.read(&mut page).is_err();
    let left = reader.reads_left();
    holds(rt, 0, are_good)
        && holds(rt, 1, is_fault)
        && holds(rt, 2, left == u64::from(2u32.saturating_sub(good)))
        && holds(rt, 3, source.failed() == (good < 3))
}

#[test]
fn a_read_that_fails_below_the_limit_is_a_fault(rt: HostRuntime) {
    for good in 0..4u32 {
        assert!(rt; fails_after(&rt, good));
    }
}

/// Whether a page of up to `LONG` bytes is asked for whole, by one call.
fn is_asked_whole(length: usize) -> bool {
    let mut page = [7; LONG];
    let mut source = stream_with(1, u32::MAX, LONG);
    let mut reader = CountedReader::new(&mut source, 3);
    let found = reader.read(&mut page[..length.min(LONG)]);
    let inner = source.into_inner();
    moves(found, length) && inner.calls == 1 && inner.handed == length
}

#[test]
fn a_page_is_asked_for_whole(rt: HostRuntime) {
    for (row, length) in LENGTHS.iter().enumerate() {
        expect_row(&rt, row, is_asked_whole(*length));
    }
}
