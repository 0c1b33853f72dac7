//! Command lines that are run over streams and a file in memory.

use crate::expected::expect;
use crate::line_runs::{REFUSAL, run_line};
use arrayvec::ArrayVec;
use h3_fakes::table_file;
use h3_parses::words_of;
use h3_program::{NamedFile, OpenFault, OpenFile, OpenFiles};
use h3_streams::{Source, Streamed};
use h3_table::vectors::TestTable;
use std::alloc::Global;
use std::cell::Cell;
use std::io;
use std::io::Write;

/// A file in memory, at one path.
#[derive(Drop)]
struct MemoryFiles<'a> {
    path: &'a str,
    bytes: &'a [u8],
    /// How often `open` was called.
    opened: Cell<u8>,
}

impl<'a> MemoryFiles<'a> {
    fn new(path: &'a str, text: &'a str) -> Self {
        MemoryFiles {
            path,
            bytes: text.as_bytes(),
            opened: Cell::new(0),
        }
    }
}

impl<'a> OpenFiles for MemoryFiles<'a> {
    type File = Streamed<&'a [u8]>;

    ghost use Rattle.std.specs.Prelude.{◌≡◌, ◌≢◌, Some};

    ghost bytes_at = { λ files path bytes. (files.path.now ≡ path)
        × (bytes ≡ Some files.bytes.now) };

    ghost fails_at = { λ files path. files.path.now ≢ path };

    fn open(&self, path: &str) -> Result<Self::File, OpenFault> {
        self.opened.set(self.opened.get().saturating_add(1));
        if self.path != path {
            return Err(OpenFault);
        }
        Ok(Streamed::new(self.bytes))
    }
}

/// Whether a pull gives these bytes, and does not fail.
fn pulls<F: Source>(file: &mut F, bytes: &[u8]) -> bool {
    let mut page = [0; 8];
    match file.pull(&mut page) {
        Ok(n) => page[..n] == bytes[..],
        Err(_) => false,
    }
}

#[test]
fn a_named_file_has_the_bytes_at_its_path(rt: HostRuntime) {
    let files = MemoryFiles::new("cells", "abc");
    let mut file = NamedFile::new(&files);
    expect(&rt, "nothing at first", !pulls(&mut file, b"".as_slice()));
    expect(&rt, "another path", file.open(" cells").is_err());
    expect(&rt, "nothing after it", !pulls(&mut file, b"".as_slice()));
    for _ in 0..2 {
        expect(&rt, "the path", file.open("cells").is_ok());
        expect(&rt, "its bytes", pulls(&mut file, b"abc".as_slice()));
        expect(&rt, "their end", pulls(&mut file, b"".as_slice()));
    }
    expect(&rt, "a longer path", file.open("cells ").is_err());
    expect(&rt, "still their end", pulls(&mut file, b"".as_slice()));
}

/// A writer that counts its flushes.
#[derive(Drop)]
struct Flushed {
    bytes: ArrayVec<u8, 8192>,
    flushes: u8,
}

impl Write for Flushed {
    fn write(&mut self, bytes: &[u8]) -> io::Result<usize> {
        self.bytes.write(bytes)
    }

    fn flush(&mut self) -> io::Result<()> {
        self.flushes = self.flushes.saturating_add(1);
        Ok(())
    }
}

/// A stream that counts its flushes.
fn flush_counter() -> Streamed<Flushed> {
    Streamed::new(Flushed {
        bytes: ArrayVec::new(),
        flushes: 0,
    })
}

/// What a run left behind: its status, its writers, and how often it opened its file.
#[derive(Drop)]
struct Ended {
    status: u8,
    out: Flushed,
    err: Flushed,
    opened: u8,
}

impl Ended {
    /// Whether a run ended so, with this output and this line on standard error.
    fn is(&self, status: u8, output: &str, line: &str, opened: u8) -> bool {
        self.status == status
            && self.out.bytes.as_slice() == output.as_bytes()
            && self.err.bytes.as_slice() == line.as_bytes()
            && self.opened == opened
    }
}

/// The status of a command line, run over a list, files and these streams, or nothing where
/// memory runs out for its words. If it is refused, its list cannot be read.
fn status_of(
    alloc: Global,
    line: &str,
    refuses: bool,
    list: &str,
    files: &MemoryFiles<'_>,
    out: &mut Streamed<Flushed>,
    err: &mut Streamed<Flushed>,
) -> Option<u8> {
    let Ok(words) = words_of(alloc, line) else {
        return None;
    };
    let mut input = Streamed::new(list.as_bytes());
    let mut file = NamedFile::new(files);
    Some(run_line(alloc, words, refuses, &mut input, &mut file, out, err))
}

/// Runs a command line over a list, and a file at a path.
fn run_of(alloc: Global, line: &str, list: &str, path: &str, text: &str) -> Option<Ended> {
    run_unless(alloc, false, line, list, path, text)
}

/// The same; if it is refused, its list cannot be read.
fn run_unless(
    alloc: Global,
    refuses: bool,
    line: &str,
    list: &str,
    path: &str,
    text: &str,
) -> Option<Ended> {
    let files = MemoryFiles::new(path, text);
    let (mut out, mut err) = (flush_counter(), flush_counter());
    let status = status_of(alloc, line, refuses, list, &files, &mut out, &mut err)?;
    Some(Ended {
        status,
        out: out.into_inner(),
        err: err.into_inner(),
        opened: files.opened.get(),
    })
}

/// Runs a command line over a file at a path, and an empty list.
fn run_over(alloc: Global, line: &str, path: &str, text: &str) -> Option<Ended> {
    run_of(alloc, line, "", path, text)
}

/// Whether a command line is reported as invalid on standard error alone.
fn is_reported(alloc: Global, line: &str) -> bool {
    match run_over(alloc, line, "", "") {
        Some(run) => run.status == 2 && run.out.bytes.is_empty() && !run.err.bytes.is_empty(),
        None => false,
    }
}

/// Invalid command lines.
static INVALID: [&str; 4] = [
    "h3",
    "h3 nothing",
    "h3 isValidCell",
    "h3 getNumCells -r five",
];

#[test]
fn invalid_command_lines_are_reported_on_standard_error(rt: HostRuntime) {
    for line in &INVALID {
        expect(&rt, line, is_reported(rt.alloc(), line));
    }
}

/// Whether the text of help is written to standard output alone.
fn writes_help(alloc: Global, line: &str) -> bool {
    match run_over(alloc, line, "", "") {
        Some(run) => run.status == 0 && !run.out.bytes.is_empty() && run.err.bytes.is_empty(),
        None => false,
    }
}

#[test]
fn help_is_written_to_standard_output(rt: HostRuntime) {
    expect(
        &rt,
        "the program's help",
        writes_help(rt.alloc(), "h3 --help"),
    );
    expect(
        &rt,
        "a command's help",
        writes_help(rt.alloc(), "h3 cellToParent --help"),
    );
}

/// Whether a run writes to one of its streams alone, and flushes the output so many times.
fn flushes(alloc: Global, line: &str, count: u8) -> bool {
    match run_over(alloc, line, "", "") {
        Some(run) => {
            run.out.bytes.is_empty() != run.err.bytes.is_empty()
                && run.out.flushes == count
                && run.err.flushes == 0
        }
        None => false,
    }
}

/// Command lines, and how many times their output is flushed.
static FLUSHES: [(&str, u8); 5] = [
    ("h3 --help", 1),
    ("h3 --version", 1),
    ("h3 isValidCell -c 85283473fffffff", 1),
    ("h3 isValidCell -c xyz", 0),
    ("h3 isValidCell", 0),
];

#[test]
fn an_output_is_flushed_once(rt: HostRuntime) {
    for (line, count) in &FLUSHES {
        expect(&rt, line, flushes(rt.alloc(), line, *count));
    }
}

#[test]
fn the_version_is_written_to_standard_output(rt: HostRuntime) {
    let ending = (0, "h3 1.3.0\n", "", 0);
    for line in &["h3 --version", "h3 -V", "h3 --version isValidCell"] {
        expect(&rt, line, ends(rt.alloc(), line, "", "", ending));
    }
}

/// A stream with room for eight bytes.
fn nearly_full() -> Streamed<Flushed> {
    let mut bytes = ArrayVec::new();
    let _ = bytes.try_extend_from_slice(&[b' '; 8184]);
    Streamed::new(Flushed { bytes, flushes: 0 })
}

/// Whether a text that standard output has no room for ends with a write fault.
fn is_write_fault(alloc: Global, line: &str) -> bool {
    let files = MemoryFiles::new("", "");
    let (mut out, mut err) = (nearly_full(), flush_counter());
    let status = status_of(alloc, line, false, "", &files, &mut out, &mut err);
    let reported = err.into_inner().bytes;
    status == Some(4) && reported.as_slice() == b"fault: write\n".as_slice()
}

#[test]
fn a_version_that_cannot_be_written_is_a_write_fault(rt: HostRuntime) {
    let line = "h3 --version";
    expect(&rt, line, is_write_fault(rt.alloc(), line));
}

#[test]
fn help_that_cannot_be_written_is_a_write_fault(rt: HostRuntime) {
    let line = "h3 --help";
    expect(&rt, line, is_write_fault(rt.alloc(), line));
}

/// Whether a command line over a file at a path ends so.
fn ends(alloc: Global, line: &str, path: &str, text: &str, ending: (u8, &str, &str, u8)) -> bool {
    match run_over(alloc, line, path, text) {
        Some(run) => run.is(ending.0, ending.1, ending.2, ending.3),
        None => false,
    }
}

/// Command lines over a file, and a list that cannot be read: of valid ones that is reported, and nothing is opened; of
/// others it is not.
static REFUSED: [(&str, u8, &str, &str); 5] = [
    ("h3 intersectCells --region t", 3, "", REFUSAL),
    ("h3 uniteCells", 3, "", REFUSAL),
    ("h3 isValidCell -c xyz", 3, "", REFUSAL),
    ("h3 --version", 0, "h3 1.3.0\n", ""),
    ("h3 -V uniteCells", 0, "h3 1.3.0\n", ""),
];

/// Whether a command line over a list that cannot be read ends so.
fn ends_refused(alloc: Global, line: &str, status: u8, output: &str, text: &str) -> bool {
    match run_unless(alloc, true, line, "85283473fffffff\n", "t", "") {
        Some(run) => run.is(status, output, text, 0),
        None => false,
    }
}

#[test]
fn a_list_that_cannot_be_read_ends_the_run(rt: HostRuntime) {
    for (line, status, output, text) in &REFUSED {
        expect(
            &rt,
            line,
            ends_refused(rt.alloc(), line, *status, output, text),
        );
    }
}

/// Command lines over a table that is not there.
static OVER_NO_TABLE: [&str; 6] = [
    "h3 gridDiskUnsafe -c 85283473fffffff -k 1 --table none.csv",
    "h3 gridDiskDistancesUnsafe -c xyz -k 1 --table none.csv",
    "h3 gridRingUnsafe -c 0 -k 1 --table=none.csv",
    "h3 areNeighborCells -c 0 --to 0 --table none.csv",
    "h3 cellsToDirectedEdge -c xyz --to xyz --table none.csv",
    "h3 getDirectedEdgeDestination --edge 0 --table none.csv",
];

#[test]
fn table_that_cannot_be_opened(rt: HostRuntime) {
    for line in &OVER_NO_TABLE {
        let refused = (3, "", "table: open\n", 1);
        expect(&rt, line, ends(rt.alloc(), line, "plain.csv", "", refused));
    }
}

/// Command lines over a region or zones that are not there, and the line on standard error.
static OVER_NO_CELLS: [(&str, &str); 5] = [
    ("h3 intersectCells --region none", "region: open\n"),
    ("h3 subtractCells --region=none", "region: open\n"),
    ("h3 areCoveredCells --region none", "region: open\n"),
    ("h3 cellsToZones --zones=none", "zones: open\n"),
    ("h3 countCellsInZones --zones none", "zones: open\n"),
];

/// Whether a command line over a faulty list and a file that is not there ends with this line.
fn is_not_opened(alloc: Global, line: &str, text: &str) -> bool {
    match run_of(alloc, line, "xyz\n", "cells", "xyz\n") {
        Some(run) => run.is(3, "", text, 1),
        None => false,
    }
}

#[test]
fn cells_that_cannot_be_opened(rt: HostRuntime) {
    for (line, text) in &OVER_NO_CELLS {
        expect(&rt, line, is_not_opened(rt.alloc(), line, text));
    }
}

/// Whether a command line ends with this status, and opens no file.
fn opens_none(alloc: Global, line: &str, status: u8) -> bool {
    match run_over(alloc, line, "plain.csv", "") {
        Some(run) => run.status == status && run.opened == 0,
        None => false,
    }
}

/// Command lines that open no file, and their status.
static OPENING_NONE: [(&str, u8); 9] = [
    (
        "h3 gridDiskUnsafe -c 85283473fffffff -k -1 --table plain.csv",
        2,
    ),
    ("h3 gridDiskUnsafe -c 85283473fffffff -k 1", 2),
    ("h3 gridDiskUnsafe --table plain.csv --help", 0),
    (
        "h3 areNeighborCells -c 85283473fffffff --table plain.csv",
        2,
    ),
    ("h3 isValidCell -c 85283473fffffff --table plain.csv", 2),
    ("h3 isValidCell -c 85283473fffffff", 0),
    ("h3 intersectCells --zones plain.csv", 2),
    ("h3 cellsToZones --zones plain.csv --help", 0),
    ("h3 uniteCells", 0),
];

#[test]
fn opens_no_file(rt: HostRuntime) {
    for (line, status) in &OPENING_NONE {
        expect(&rt, line, opens_none(rt.alloc(), line, *status));
    }
}

/// Command lines over a table, and the output.
static OVER_A_TABLE: [(&str, &str); 4] = [
    (
        "h3 gridDiskUnsafe -c 85283473fffffff -k 1 --table t",
        "85283473fffffff\n85283447fffffff\n8528347bfffffff\n85283463fffffff\n\
         85283477fffffff\n8528340ffffffff\n8528340bfffffff\n",
    ),
    (
        "h3 gridDiskUnsafe --table t -k 0 -c 85283473fffffff",
        "85283473fffffff\n",
    ),
    (
        "h3 gridDiskDistancesUnsafe -k 0 -c 85283473fffffff --table t",
        "85283473fffffff 0\n",
    ),
    (
        "h3 gridRingUnsafe -c 85283473fffffff -k 1 --table t",
        "8528340bfffffff\n85283447fffffff\n8528347bfffffff\n85283463fffffff\n\
         85283477fffffff\n8528340ffffffff\n",
    ),
];

#[test]
fn runs_over_the_table_that_is_opened(rt: HostRuntime) {
    let file = table_file(TestTable::Plain);
    for (line, output) in &OVER_A_TABLE {
        let ending = (0, *output, "", 1);
        expect(
            &rt,
            line,
            ends(rt.alloc(), line, "t", file.as_str(), ending),
        );
    }
}

/// Command lines over an empty table, the status and the line on standard error.
static AFTER_THE_OPENING: [(&str, u8, &str); 3] = [
    (
        "h3 gridDiskUnsafe -c xyz -k 1 --table t",
        1,
        "error 1: E_FAILED\n",
    ),
    (
        "h3 gridRingUnsafe -c 81087ffffffffff -k 1 --table t",
        1,
        "error 5: E_CELL_INVALID\n",
    ),
    (
        "h3 gridDiskUnsafe -c 85283473fffffff -k 1 --table t",
        3,
        "table: form 1\n",
    ),
];

#[test]
fn errors_after_the_opening(rt: HostRuntime) {
    for (line, status, text) in &AFTER_THE_OPENING {
        let ending = (*status, "", *text, 1);
        expect(&rt, line, ends(rt.alloc(), line, "t", "", ending));
    }
}

/// Command lines, the list, the file named `cells`, and the output.
static OVER_CELLS: [(&str, &str, &str, &str); 5] = [
    (
        "h3 intersectCells --region cells",
        "8428347ffffffff\n",
        "85283473fffffff\n862834757ffffff\n8528340ffffffff\n",
        "85283473fffffff\n862834757ffffff\n",
    ),
    (
        "h3 subtractCells --region cells",
        "8009fffffffffff\n",
        "820807fffffffff\n",
        "8108bffffffffff\n8108fffffffffff\n81093ffffffffff\n81097ffffffffff\n\
         8109bffffffffff\n820817fffffffff\n82081ffffffffff\n820827fffffffff\n\
         82082ffffffffff\n820837fffffffff\n",
    ),
    (
        "h3 areCoveredCells --region cells",
        "85283477fffffff\n8528340ffffffff\n",
        "8428347ffffffff\n85283473fffffff\n",
        "true\nfalse\n",
    ),
    (
        "h3 cellsToZones --zones cells",
        "85283473fffffff\n862834707ffffff\n8428347ffffffff\n8009fffffffffff\n",
        "85283473fffffff\n8009fffffffffff\n",
        "85283473fffffff\n85283473fffffff\n0\n8009fffffffffff\n",
    ),
    (
        "h3 countCellsInZones --zones cells",
        "85283473fffffff\n862834707ffffff\n8428347ffffffff\n85283473fffffff\n",
        "85283473fffffff\n8009fffffffffff\n",
        "8009fffffffffff 0\n85283473fffffff 3\n0 1\n",
    ),
];

/// Whether a command line over a list and a file named `cells` has this output.
fn answers(alloc: Global, line: &str, list: &str, cells: &str, output: &str) -> bool {
    match run_of(alloc, line, list, "cells", cells) {
        Some(run) => run.is(0, output, "", 1),
        None => false,
    }
}

#[test]
fn runs_over_the_cells_that_are_opened(rt: HostRuntime) {
    for (line, list, cells, output) in &OVER_CELLS {
        expect(&rt, line, answers(rt.alloc(), line, list, cells, output));
    }
}

/// Command lines over a list whose first line is faulty, the file named `cells`, and the line on
/// standard error.
static REFUSED_CELLS: [(&str, &str, &str); 4] = [
    (
        "h3 intersectCells --region cells",
        "85283473fffffff\n\nxyz\n",
        "region: line 3: error 1: E_FAILED\n",
    ),
    (
        "h3 areCoveredCells --region cells",
        "81087ffffffffff\n",
        "region: line 1: error 5: E_CELL_INVALID\n",
    ),
    (
        "h3 cellsToZones --zones cells",
        "8428347ffffffff\n85283473fffffff\n",
        "zones: error 10: E_DUPLICATE_INPUT\n",
    ),
    (
        "h3 countCellsInZones --zones cells",
        "",
        "line 1: error 1: E_FAILED\n",
    ),
];

/// Whether a command line over such a list and a file named `cells` is refused with this line.
fn refuses(alloc: Global, line: &str, cells: &str, text: &str) -> bool {
    match run_of(alloc, line, "xyz\n", "cells", cells) {
        Some(run) => run.is(1, "", text, 1),
        None => false,
    }
}

#[test]
fn judges_the_cells_that_are_opened_before_the_list(rt: HostRuntime) {
    for (line, cells, text) in &REFUSED_CELLS {
        expect(&rt, line, refuses(rt.alloc(), line, cells, text));
    }
}
