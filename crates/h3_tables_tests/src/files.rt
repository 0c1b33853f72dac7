//! Commands over a file of cells and a list.

use crate::expected::expect_row;
use h3_fakes::{Faults, FaultySink, FaultySource, NO_FAULT, pulls_to_end};
use h3_requests::{Command, Tables};
use h3_runs::{run_command, run_over_rows};
use std::alloc::Global;

/// A command, its file, its list, its output, and its line of an H3 error, or nothing where it is
/// answered whole.
pub type FileRow = (
    Command,
    &'static str,
    &'static str,
    &'static str,
    &'static str,
);

/// What a run left behind.
#[derive(Drop)]
pub struct Outcome {
    /// The exit status.
    pub status: u8,

    /// Standard output.
    pub out: FaultySink<2048>,

    /// Standard error.
    pub err: FaultySink<64>,

    /// The pulls of the file.
    pub file_pulls: u64,

    /// The pulls of the list.
    pub list_pulls: u64,
}

impl Outcome {
    /// Whether this output and this line were written, and this status was returned.
    pub fn is(&self, output: &str, line: &str, status: u8) -> bool {
        self.status == status
            && self.out.bytes() == output.as_bytes()
            && self.err.bytes() == line.as_bytes()
    }
}

/// How the streams of a run fail: those of the file, of the list, and of standard output.
#[derive(Clone, Copy)]
pub struct Failing {
    /// The pulls of the file that fail.
    pub file: Faults,

    /// The pulls of the list that fail.
    pub list: Faults,

    /// The pushes and flushes of standard output that fail.
    pub out: Faults,
}

/// No stream fails.
pub const WELL: Failing = Failing {
    file: NO_FAULT,
    list: NO_FAULT,
    out: NO_FAULT,
};

/// Runs a command over a file and a list, of which a pull takes at most `most` bytes.
pub fn over(alloc: Global, row: &FileRow, most: usize, failing: Failing) -> Outcome {
    over_tables(alloc, row, None, most, failing)
}

/// As `over`, where the file and the list may have rows that are read so.
pub fn over_tables(
    alloc: Global,
    row: &FileRow,
    tables: Option<&Tables>,
    most: usize,
    failing: Failing,
) -> Outcome {
    let (command, file, list, _, _) = row;
    let mut input = FaultySource::new(list.as_bytes(), most, failing.list);
    let mut table = FaultySource::new(file.as_bytes(), most, failing.file);
    let mut out = FaultySink::new(64, failing.out);
    let mut err = FaultySink::new(64, NO_FAULT);
    let status = match tables {
        None => run_command(alloc, command, &mut input, &mut table, &mut out, &mut err),
        Some(tables) => run_over_rows(
            alloc, command, tables, &mut input, &mut table, &mut out, &mut err,
        ),
    };
    Outcome {
        status,
        out,
        err,
        file_pulls: table.pulls(),
        list_pulls: input.pulls(),
    }
}

/// The bytes of a pull.
pub static PIECES: [usize; 3] = [1, 16, 65536];

/// A cell, its children, and cells of some resolutions below them.
pub const CELL: &str = "8428347ffffffff\n";

const SEVEN: &str = "85283463fffffff\n85283467fffffff\n8528346bfffffff\n8528346ffffffff\n\
                     85283473fffffff\n85283477fffffff\n8528347bfffffff\n";

pub const ZONES: &str = "85283473fffffff\n8009fffffffffff\n";

const NESTED: &str = "8428347ffffffff\n85283473fffffff\n";

/// Commands that are answered, or refused for a line of their list.
static ANSWERED: [FileRow; 21] = [
    (
        Command::SubtractCells,
        "85283473fffffff\n",
        CELL,
        "85283463fffffff\n85283467fffffff\n8528346bfffffff\n8528346ffffffff\n\
         85283477fffffff\n8528347bfffffff\n",
        "",
    ),
    (
        Command::SubtractCells,
        "862834707ffffff\n",
        CELL,
        "85283463fffffff\n85283467fffffff\n8528346bfffffff\n8528346ffffffff\n\
         85283477fffffff\n8528347bfffffff\n86283470fffffff\n862834717ffffff\n\
         86283471fffffff\n862834727ffffff\n86283472fffffff\n862834737ffffff\n",
        "",
    ),
    (Command::SubtractCells, CELL, CELL, "", ""),
    (
        Command::SubtractCells,
        "820807fffffffff\n",
        "8009fffffffffff\n",
        "8108bffffffffff\n8108fffffffffff\n81093ffffffffff\n81097ffffffffff\n\
         8109bffffffffff\n820817fffffffff\n82081ffffffffff\n820827fffffffff\n\
         82082ffffffffff\n820837fffffffff\n",
        "",
    ),
    (Command::SubtractCells, "", SEVEN, CELL, ""),
    (
        Command::IntersectCells,
        "85283473fffffff\n862834757ffffff\n8528340ffffffff\n",
        CELL,
        "85283473fffffff\n862834757ffffff\n",
        "",
    ),
    (Command::IntersectCells, CELL, SEVEN, CELL, ""),
    (Command::IntersectCells, "", SEVEN, "", ""),
    (
        Command::CellsToZones,
        ZONES,
        "85283473fffffff\n862834707ffffff\n8428347ffffffff\n8009fffffffffff\n",
        "85283473fffffff\n85283473fffffff\n0\n8009fffffffffff\n",
        "",
    ),
    (
        Command::CountCellsInZones,
        ZONES,
        "85283473fffffff\n862834707ffffff\n8428347ffffffff\n85283473fffffff\n",
        "8009fffffffffff 0\n85283473fffffff 3\n0 1\n",
        "",
    ),
    (
        Command::AreCoveredCells,
        NESTED,
        "85283477fffffff\n8528340ffffffff\n",
        "true\nfalse\n",
        "",
    ),
    // the region of the seven children is their parent
    (Command::AreCoveredCells, SEVEN, CELL, "true\n", ""),
    (Command::CellsToZones, SEVEN, CELL, "0\n", ""),
    (Command::CellsToZones, "", CELL, "0\n", ""),
    (Command::CountCellsInZones, "", NESTED, "0 2\n", ""),
    (
        Command::CountCellsInZones,
        ZONES,
        "",
        "8009fffffffffff 0\n85283473fffffff 0\n0 0\n",
        "",
    ),
    (
        Command::CellsToZones,
        ZONES,
        "85283473fffffff\n81087ffffffffff\n",
        "85283473fffffff\n",
        "line 2: error 5: E_CELL_INVALID\n",
    ),
    (
        Command::AreCoveredCells,
        CELL,
        "85283473fffffff\n\nxyz\n85283473fffffff\n",
        "true\n",
        "line 3: error 1: E_FAILED\n",
    ),
    (
        Command::CountCellsInZones,
        ZONES,
        "85283473fffffff\n81087ffffffffff\n",
        "",
        "line 2: error 5: E_CELL_INVALID\n",
    ),
    (
        Command::IntersectCells,
        CELL,
        "85283473fffffff\nxyz\n",
        "",
        "line 2: error 1: E_FAILED\n",
    ),
    (
        Command::SubtractCells,
        CELL,
        "85283473fffffff\n81087ffffffffff\n",
        "",
        "line 2: error 5: E_CELL_INVALID\n",
    ),
];

/// Commands whose file is refused: their list is left alone, be it faulty or not.
static FILE_REFUSED: [FileRow; 9] = [
    (
        Command::AreCoveredCells,
        "85283473fffffff\n\nxyz\n81087ffffffffff\n",
        CELL,
        "",
        "region: line 3: error 1: E_FAILED\n",
    ),
    (
        Command::IntersectCells,
        "81087ffffffffff\n",
        CELL,
        "",
        "region: line 1: error 5: E_CELL_INVALID\n",
    ),
    (
        Command::SubtractCells,
        "8888888888888888888888888888888888888888888888888888888888888888 \n",
        "xyz\n",
        "",
        "region: line 1: error 1: E_FAILED\n",
    ),
    (
        Command::CellsToZones,
        NESTED,
        "85283477fffffff\n",
        "",
        "zones: error 10: E_DUPLICATE_INPUT\n",
    ),
    (
        Command::CountCellsInZones,
        NESTED,
        "xyz\n",
        "",
        "zones: error 10: E_DUPLICATE_INPUT\n",
    ),
    (
        Command::CountCellsInZones,
        "85283473fffffff\n85283473fffffff\n",
        CELL,
        "",
        "zones: error 10: E_DUPLICATE_INPUT\n",
    ),
    // a faulty line comes before an overlap
    (
        Command::CellsToZones,
        "8428347ffffffff\n85283473fffffff\nxyz\n",
        CELL,
        "",
        "zones: line 3: error 1: E_FAILED\n",
    ),
    (
        Command::CountCellsInZones,
        "8428347ffffffff\n85283473fffffff\n81087ffffffffff\n",
        CELL,
        "",
        "zones: line 3: error 5: E_CELL_INVALID\n",
    ),
    (
        Command::CountCellsInZones,
        "xyz",
        "xyz",
        "",
        "zones: line 1: error 1: E_FAILED\n",
    ),
];

/// How many lines a text has.
fn lines_of(text: &str) -> u64 {
    let mut lines = 0u64;
    for byte in text.as_bytes() {
        if *byte == b'\n' {
            lines = lines.saturating_add(1);
        }
    }
    lines
}

/// The flushes of an answer to a list that is read so. The commands that answer line by line flush
/// for each page that has an answer: no 16 bytes have two. Others flush at the end, and none where
/// they are refused.
pub fn flushes(row: &FileRow, most: usize) -> u64 {
    let (command, _, _, output, line) = row;
    match command {
        Command::AreCoveredCells | Command::CellsToZones if most > 16 => {
            u64::from(!output.is_empty())
        }
        Command::AreCoveredCells | Command::CellsToZones => lines_of(output),
        _ => u64::from(line.is_empty()),
    }
}

/// Whether a command answers as its row says, in pieces of each size, after its file is read whole.
fn answers(alloc: Global, row: &FileRow) -> bool {
    let status = u8::from(!row.4.is_empty());
    for most in &PIECES {
        let run = over(alloc, row, *most, WELL);
        let read = run.file_pulls == pulls_to_end(row.1, *most) && run.list_pulls > 0;
        let answered = run.is(row.3, row.4, status) && run.out.flushes() == flushes(row, *most);
        if !read || !answered {
            return false;
        }
    }
    true
}

/// Whether a command is refused for its file as its row says, in pieces of each size, and leaves
/// its list and its output alone.
fn refuses(alloc: Global, row: &FileRow) -> bool {
    for most in &PIECES {
        let run = over(alloc, row, *most, WELL);
        let alone = run.list_pulls == 0 && run.out.calls() == 0;
        if !alone || !run.is(row.3, row.4, 1) {
            return false;
        }
    }
    true
}

#[test]
fn lists_are_answered_over_files(rt: HostRuntime) {
    for (number, row) in ANSWERED.iter().enumerate() {
        expect_row(&rt, number, answers(rt.alloc(), row));
    }
}

#[test]
fn files_are_judged_before_lists(rt: HostRuntime) {
    for (number, row) in FILE_REFUSED.iter().enumerate() {
        expect_row(&rt, number, refuses(rt.alloc(), row));
    }
}

/// The commands, of a file and a list that each is read in three pulls of 16 bytes, with the output
/// where no call fails, and where the second or third pull of the list fails.
static PULLED: [(FileRow, &str); 5] = [
    (
        (
            Command::IntersectCells,
            ZONES,
            NESTED,
            "85283473fffffff\n",
            "",
        ),
        "",
    ),
    (
        (
            Command::SubtractCells,
            ZONES,
            NESTED,
            "85283463fffffff\n85283467fffffff\n8528346bfffffff\n8528346ffffffff\n\
             85283477fffffff\n8528347bfffffff\n",
            "",
        ),
        "",
    ),
    (
        (Command::AreCoveredCells, ZONES, NESTED, "false\ntrue\n", ""),
        "false\n",
    ),
    (
        (
            Command::CellsToZones,
            ZONES,
            NESTED,
            "0\n85283473fffffff\n",
            "",
        ),
        "0\n",
    ),
    (
        (
            Command::CountCellsInZones,
            ZONES,
            NESTED,
            "8009fffffffffff 0\n85283473fffffff 1\n0 1\n",
            "",
        ),
        "",
    ),
];

/// Whether a fault at each pull of the file ends the run before the list is read.
fn stops_at_the_file(alloc: Global, row: &FileRow) -> bool {
    for pull in 0..3u64 {
        let file = Faults::From(pull);
        let run = over(alloc, row, 16, Failing { file, ..WELL });
        let stopped = run.is("", "fault: read\n", 4) && run.out.calls() == 0;
        if !stopped || run.list_pulls > 0 || run.file_pulls != pull.saturating_add(1) {
            return false;
        }
    }
    true
}

/// Whether a fault at the second pull of the list ends the run with this output, which is flushed
/// before that pull.
fn stops_at_the_list(alloc: Global, row: &FileRow, output: &str) -> bool {
    let list = Faults::From(1);
    let run = over(alloc, row, 16, Failing { list, ..WELL });
    let flushed = run.out.flushes() == u64::from(!output.is_empty());
    run.is(output, "fault: read\n", 4) && flushed && run.file_pulls == 3 && run.list_pulls == 2
}

/// Whether a fault at the first push of the output ends the run with nothing written.
fn stops_at_the_output(alloc: Global, row: &FileRow) -> bool {
    let out = Faults::From(0);
    over(alloc, row, 16, Failing { out, ..WELL }).is("", "fault: write\n", 4)
}

#[test]
fn each_stream_that_fails_ends_the_run(rt: HostRuntime) {
    for (number, (row, before)) in PULLED.iter().enumerate() {
        let alloc = rt.alloc();
        let right = answers(alloc, row)
            && stops_at_the_file(alloc, row)
            && stops_at_the_list(alloc, row, before)
            && stops_at_the_output(alloc, row);
        expect_row(&rt, number, right);
    }
}
