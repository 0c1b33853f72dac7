//! Calls that are interrupted, or fail with another error.

use crate::expected::{expect, expect_row, expect_times};
use crate::line_runs::run_line;
use h3_parses::words_of;
use h3_program::{NamedFile, Retried, SystemFiles};
use h3_streams::Streamed;
use std::alloc::Global;
use std::io;
use std::io::{ErrorKind, Read, Write};
use std::rt::Files;

/// A reader or a writer each of whose calls fails `times` times with this error before it is made.
#[derive(Drop)]
struct Failing<T> {
    inner: T,
    kind: ErrorKind,
    times: u8,
    failures: u8,
    calls: u8,
}

impl<T> Failing<T> {
    fn new(inner: T, kind: ErrorKind, times: u8) -> Self {
        Failing {
            inner,
            kind,
            times,
            failures: 0,
            calls: 0,
        }
    }

    /// The error of this call, where it fails.
    fn turn(&mut self) -> io::Result<()> {
        self.calls = self.calls.saturating_add(1);
        if self.failures < self.times {
            self.failures = self.failures.saturating_add(1);
            return Err(io::Error::from(self.kind));
        }
        self.failures = 0;
        Ok(())
    }
}

impl<T: Read> Read for Failing<T> {
    fn read(&mut self, buf: &mut [u8]) -> io::Result<usize> {
        self.turn()?;
        self.inner.read(buf)
    }
}

impl<T: Write> Write for Failing<T> {
    fn write(&mut self, bytes: &[u8]) -> io::Result<usize> {
        self.turn()?;
        self.inner.write(bytes)
    }

    fn flush(&mut self) -> io::Result<()> {
        self.turn()?;
        self.inner.flush()
    }
}

/// A reader or a writer that is interrupted `times` times before each call is made.
fn interrupted<T>(inner: T, times: u8) -> Failing<T> {
    Failing::new(inner, ErrorKind::Interrupted, times)
}

/// Whether a call moved this many bytes.
fn moved(call: io::Result<usize>, count: usize) -> bool {
    match call {
        Ok(n) => n == count,
        Err(_) => false,
    }
}

/// Interruptions of a call, and the calls that three make.
static CALLS: [(u8, u8); 4] = [(0, 3), (1, 6), (2, 9), (50, 153)];

/// Whether interrupted reads give the bytes, in so many calls.
fn reads_all(times: u8, calls: u8) -> bool {
    let mut source = interrupted(b"abcde".as_slice(), times);
    let mut reader = Retried::new(&mut source);
    let mut page = [0; 3];
    let first = moved(reader.read(&mut page), 3) && page.as_slice() == b"abc".as_slice();
    let second = moved(reader.read(&mut page), 2) && page[..2] == b"de".as_slice()[..2];
    let third = moved(reader.read(&mut page), 0);
    first && second && third && source.calls == calls
}

#[test]
fn interrupted_reads(rt: HostRuntime) {
    for (times, calls) in &CALLS {
        expect_times(&rt, *times, reads_all(*times, *calls));
    }
}

/// Whether interrupted writes and a flush pass the bytes on, in so many calls.
fn writes_all(alloc: Global, times: u8, calls: u8) -> bool {
    let mut sink = interrupted(Vec::new(alloc), times);
    let mut writer = Retried::new(&mut sink);
    let written = moved(writer.write(b"abc".as_slice()), 3)
        && moved(writer.write(b"de".as_slice()), 2);
    let flushed = writer.flush().is_ok();
    written && flushed && sink.inner.as_slice() == b"abcde".as_slice() && sink.calls == calls
}

#[test]
fn interrupted_writes_and_flushes(rt: HostRuntime) {
    for (times, calls) in &CALLS {
        expect_times(&rt, *times, writes_all(rt.alloc(), *times, *calls));
    }
}

/// Other errors than an interruption.
static OTHER_ERRORS: [ErrorKind; 4] = [
    ErrorKind::WouldBlock,
    ErrorKind::BrokenPipe,
    ErrorKind::TimedOut,
    ErrorKind::Uncategorized,
];

/// Whether a call failed with this error.
fn failed<T: Drop>(call: io::Result<T>, kind: ErrorKind) -> bool {
    match call {
        Ok(_) => false,
        Err(error) => error.kind() == kind,
    }
}

/// Whether a read ends with an error of this kind at once.
fn a_read_ends(kind: ErrorKind) -> bool {
    let mut source = Failing::new(b"abc".as_slice(), kind, 1);
    let read = Retried::new(&mut source).read(&mut [0; 3]);
    failed(read, kind) && source.calls == 1
}

/// Whether a write ends with an error of this kind at once, and writes nothing.
fn a_write_ends(alloc: Global, kind: ErrorKind) -> bool {
    let mut sink = Failing::new(Vec::new(alloc), kind, 1);
    let written = Retried::new(&mut sink).write(b"abc".as_slice());
    failed(written, kind) && sink.calls == 1 && sink.inner.is_empty()
}

/// Whether a flush ends with an error of this kind at once.
fn a_flush_ends(alloc: Global, kind: ErrorKind) -> bool {
    let mut sink = Failing::new(Vec::new(alloc), kind, 1);
    let flushed = Retried::new(&mut sink).flush();
    failed(flushed, kind) && sink.calls == 1
}

#[test]
fn other_errors_end_a_call_at_once(rt: HostRuntime) {
    for (row, kind) in OTHER_ERRORS.iter().enumerate() {
        let right = a_read_ends(*kind)
            && a_write_ends(rt.alloc(), *kind)
            && a_flush_ends(rt.alloc(), *kind);
        expect_row(&rt, row, right);
    }
}

/// The list of both commands.
const LIST: &str = "85283473fffffff\n85283447fffffff\n";

/// Whether a command over the list ends so, where each call of its streams is interrupted three
/// times.
fn ends<R: AllocGlobal + Files>(rt: &R, line: &str, status: u8, output: &str, text: &str) -> bool {
    let Ok(words) = words_of(rt.alloc(), line) else {
        return false;
    };
    let mut written = Vec::new(rt.alloc());
    let mut reported = Vec::new(rt.alloc());
    let mut input = Streamed::new(Retried::new(interrupted(LIST.as_bytes(), 3)));
    let files = SystemFiles(rt);
    let mut file = NamedFile::new(&files);
    let mut out = Streamed::new(Retried::new(interrupted(&mut written, 3)));
    let mut err = Streamed::new(Retried::new(interrupted(&mut reported, 3)));
    let alloc = rt.alloc();
    let ended = run_line(
        alloc, words, false, &mut input, &mut file, &mut out, &mut err,
    );
    ended == status
        && written.as_slice() == output.as_bytes()
        && reported.as_slice() == text.as_bytes()
}

#[test]
fn a_command_over_interrupted_streams(rt: HostRuntime) {
    expect(
        &rt,
        "an answer",
        ends(&rt, "h3 uncompactCells -r 5", 0, LIST, ""),
    );
    let line = "error 12: E_RES_MISMATCH\n";
    expect(
        &rt,
        "an error",
        ends(&rt, "h3 uncompactCells -r 4", 1, "", line),
    );
}
