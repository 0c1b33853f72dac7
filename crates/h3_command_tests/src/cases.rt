//! Commands and their answers, for tests over streams that fail.

use h3_fakes::{Faults, FaultySink, FaultySource, NO_FAULT, pulls_to_end};
use h3_index::read_index;
use h3_requests::{Command, IndexFunction};
use h3_runs::run_command;
use h3_streams::Sink;
use std::alloc::Global;

/// The bytes of the longest answers. One size for all of them is one sink, over which the commands
/// are compiled once.
pub const LONG: usize = 300_000;

/// What a command reads.
#[derive(Clone, Copy)]
pub enum Reads<'a> {
    /// Nothing.
    Nothing,

    /// A list of cells.
    List(&'a str),

    /// A table file.
    Table(&'a str),
}

/// A command, what it reads, and its answer: the output, the line on standard error and the status.
#[derive(Clone, Copy)]
pub struct Case<'a> {
    /// What is run.
    pub command: Command,

    /// What it reads.
    pub reads: Reads<'a>,

    /// The whole output.
    pub output: &'a str,

    /// The line on standard error, or nothing.
    pub line: &'a str,

    /// The exit status.
    pub status: u8,
}

/// What a run left behind: its status, its sinks, and how often it read.
#[derive(Drop)]
pub struct Outcome {
    /// The exit status.
    pub status: u8,

    /// Standard output.
    pub out: FaultySink<2048>,

    /// Standard error.
    pub err: FaultySink<64>,

    /// The pulls of what the command reads.
    pub pulls: u64,

    /// The pulls of what it does not read: its table or its list, or both.
    pub strays: u64,
}

impl Outcome {
    /// Whether this output and this line were written, this status was returned, and nothing was
    /// read but what the command reads.
    pub fn is(&self, output: &str, line: &str, status: u8) -> bool {
        self.status == status
            && self.out.bytes() == output.as_bytes()
            && self.err.bytes() == line.as_bytes()
            && self.strays == 0
    }
}

/// How the streams of a run fail.
#[derive(Clone, Copy)]
pub struct Streams {
    /// The bytes of a pull, at most.
    pub most: usize,

    /// The pulls of what the command reads that fail.
    pub reads: Faults,

    /// The pushes and flushes of standard output that fail. A push takes at most 64 bytes.
    pub writes: Faults,

    /// The pushes of standard error that fail. A push takes at most 5 bytes.
    pub errors: Faults,
}

/// No stream fails.
pub const WELL: Streams = Streams {
    most: 65536,
    reads: NO_FAULT,
    writes: NO_FAULT,
    errors: NO_FAULT,
};

impl<'a> Case<'a> {
    /// The same command where it reads this table file.
    pub fn on_table(self, file: &'a str) -> Case<'a> {
        Case {
            reads: Reads::Table(file),
            ..self
        }
    }

    /// The list that the command reads. Where it reads none, each pull fails.
    fn input(&self, most: usize, faults: Faults) -> FaultySource<'a> {
        match self.reads {
            Reads::List(text) => FaultySource::new(text.as_bytes(), most, faults),
            Reads::Nothing | Reads::Table(_) => FaultySource::new(b"", 0, NO_FAULT),
        }
    }

    /// The table that the command reads. Where it reads none, each pull fails.
    fn table(&self, most: usize, faults: Faults) -> FaultySource<'a> {
        match self.reads {
            Reads::Table(text) => FaultySource::new(text.as_bytes(), most, faults),
            Reads::Nothing | Reads::List(_) => FaultySource::new(b"", 0, NO_FAULT),
        }
    }

    /// How many pulls of at most `most` bytes read all that the command reads: the last one finds
    /// the end.
    pub fn pulls(&self, most: usize) -> u64 {
        match self.reads {
            Reads::Nothing => 0,
            Reads::List(text) | Reads::Table(text) => pulls_to_end(text, most),
        }
    }

    /// The flushes of the answer: one at its end, and one before an error only where lines stand
    /// before it.
    pub fn flushes(&self) -> u64 {
        u64::from(self.status == 0 || !self.output.is_empty())
    }

    /// Runs the command over sources that do not fail, and returns the exit status.
    pub fn status<W: Sink, E: Sink>(&self, alloc: Global, out: &mut W, err: &mut E) -> u8 {
        let mut input = self.input(65536, NO_FAULT);
        let mut table = self.table(65536, NO_FAULT);
        run_command(alloc, &self.command, &mut input, &mut table, out, err)
    }

    /// Of the pulls of the list and of the table, those of what the command reads, and those of what
    /// it does not.
    fn pulls_and_strays(&self, list_pulls: u64, table_pulls: u64) -> (u64, u64) {
        match self.reads {
            Reads::Nothing => (0, list_pulls.saturating_add(table_pulls)),
            Reads::List(_) => (list_pulls, table_pulls),
            Reads::Table(_) => (table_pulls, list_pulls),
        }
    }

    /// Runs the command over a reader with these faults, and two sinks.
    fn outcome(
        &self,
        alloc: Global,
        most: usize,
        faults: Faults,
        mut out: FaultySink<2048>,
        mut err: FaultySink<64>,
    ) -> Outcome {
        let mut input = self.input(most, faults);
        let mut table = self.table(most, faults);
        let command = &self.command;
        let status = run_command(alloc, command, &mut input, &mut table, &mut out, &mut err);
        let (pulls, strays) = self.pulls_and_strays(input.pulls(), table.pulls());
        Outcome {
            status,
            out,
            err,
            pulls,
            strays,
        }
    }

    /// Runs the command over streams that fail so.
    pub fn over(&self, alloc: Global, streams: Streams) -> Outcome {
        let out = FaultySink::new(64, streams.writes);
        let err = FaultySink::new(5, streams.errors);
        self.outcome(alloc, streams.most, streams.reads, out, err)
    }

    /// The same over a reader with these faults, where no write fails.
    pub fn read(&self, alloc: Global, most: usize, faults: Faults) -> Outcome {
        let streams = Streams {
            most,
            reads: faults,
            ..WELL
        };
        self.over(alloc, streams)
    }

    /// The same over a writer with these faults, where no read fails.
    pub fn write(&self, alloc: Global, out: FaultySink<2048>) -> Outcome {
        let err = FaultySink::new(64, NO_FAULT);
        self.outcome(alloc, 65536, NO_FAULT, out, err)
    }
}

/// A command that reads this, whose whole answer is this output.
pub fn whole<'a>(command: Command, reads: Reads<'a>, output: &'a str) -> Case<'a> {
    Case {
        command,
        reads,
        output,
        line: "",
        status: 0,
    }
}

/// The same of a function of each index of a list.
pub fn for_each<'a>(function: IndexFunction, list: &'a str, output: &'a str) -> Case<'a> {
    whole(Command::ForEach(function), Reads::List(list), output)
}

/// The index of a word, or nothing where it is none.
pub fn index_of(word: &str) -> Option<u64> {
    read_index(word.as_bytes()).ok()
}

/// Whether a command gives its answer, this is flushed as it should be, and nothing else is read
/// than what the command reads; this is handed out `most` bytes at a time, for each of these sizes.
pub fn answers_in_pieces(alloc: Global, case: &Case<'_>, pieces: &[usize]) -> bool {
    for most in pieces {
        let run = case.read(alloc, *most, NO_FAULT);
        let answered = run.is(case.output, case.line, case.status);
        if !answered || run.out.flushes() != case.flushes() {
            return false;
        }
    }
    true
}

/// A command, its output, and its line of an H3 error, or nothing where it is answered whole.
pub type Row = (Command, &'static str, &'static str);

/// Whether a command answers so over what it reads, in pieces of these sizes.
pub fn answers(
    alloc: Global,
    command: Command,
    reads: Reads<'_>,
    output: &str,
    line: &str,
    pieces: &[usize],
) -> bool {
    let case = Case {
        command,
        reads,
        output,
        line,
        status: u8::from(!line.is_empty()),
    };
    answers_in_pieces(alloc, &case, pieces)
}

/// Whether a command that reads nothing writes this.
pub fn writes(alloc: Global, command: Command, output: &str) -> bool {
    answers(alloc, command, Reads::Nothing, output, "", &[1])
}

/// Whether a command ends with this line of an H3 error, and reads nothing.
pub fn refuses(alloc: Global, command: Command, line: &str) -> bool {
    answers(alloc, command, Reads::Nothing, "", line, &[1])
}

/// Whether a command that reads nothing answers as its row says.
pub fn answers_row(alloc: Global, row: &Row) -> bool {
    answers(alloc, row.0, Reads::Nothing, row.1, row.2, &[1])
}

/// Whether a command over a table file answers so.
pub fn answers_over(alloc: Global, file: &str, command: Command, output: &str, line: &str) -> bool {
    answers(
        alloc,
        command,
        Reads::Table(file),
        output,
        line,
        &[7, 65536],
    )
}

/// Whether a command over a table file answers as its row says.
pub fn answers_row_over(alloc: Global, file: &str, row: &Row) -> bool {
    answers_over(alloc, file, row.0, row.1, row.2)
}

/// The first of these rows that a command does not answer so, or how many they are.
pub fn first_wrong(alloc: Global, rows: &[Row]) -> usize {
    for (place, row) in rows.iter().enumerate() {
        if !answers_row(alloc, row) {
            return place;
        }
    }
    rows.len()
}

/// The same of commands over a table file.
pub fn first_wrong_over(alloc: Global, file: &str, rows: &[Row]) -> usize {
    for (place, row) in rows.iter().enumerate() {
        if !answers_row_over(alloc, file, row) {
            return place;
        }
    }
    rows.len()
}

/// Whether a command ends with this line, which refuses its table file.
pub fn refuses_table(alloc: Global, file: &str, command: Command, line: &str) -> bool {
    let case = Case {
        command,
        reads: Reads::Table(file),
        output: "",
        line,
        status: 3,
    };
    answers_in_pieces(alloc, &case, &[7, 65536])
}

/// The cell of many tests: of resolution 5, in base cell 20.
pub const HEXAGON: Option<u64> = Some(0x85283473fffffff);

/// A pentagon of resolution 0.
pub const PENTAGON: Option<u64> = Some(0x8009fffffffffff);

/// The children of the cell of many tests.
pub const CHILDREN: &str = "862834707ffffff\n86283470fffffff\n862834717ffffff\n86283471fffffff\n\
                        862834727ffffff\n86283472fffffff\n862834737ffffff\n";

/// The 49 cells of resolution 2 below 8029fffffffffff, the last of which is 8229b7fffffffff.
pub const BELOW_BASE_20: &str =
    "822807fffffffff\n82280ffffffffff\n822817fffffffff\n82281ffffffffff\n\
     822827fffffffff\n82282ffffffffff\n822837fffffffff\n822847fffffffff\n\
     82284ffffffffff\n822857fffffffff\n82285ffffffffff\n822867fffffffff\n\
     82286ffffffffff\n822877fffffffff\n822887fffffffff\n82288ffffffffff\n\
     822897fffffffff\n82289ffffffffff\n8228a7fffffffff\n8228affffffffff\n\
     8228b7fffffffff\n8228c7fffffffff\n8228cffffffffff\n8228d7fffffffff\n\
     8228dffffffffff\n8228e7fffffffff\n8228effffffffff\n8228f7fffffffff\n\
     822907fffffffff\n82290ffffffffff\n822917fffffffff\n82291ffffffffff\n\
     822927fffffffff\n82292ffffffffff\n822937fffffffff\n822947fffffffff\n\
     82294ffffffffff\n822957fffffffff\n82295ffffffffff\n822967fffffffff\n\
     82296ffffffffff\n822977fffffffff\n822987fffffffff\n82298ffffffffff\n\
     822997fffffffff\n82299ffffffffff\n8229a7fffffffff\n8229affffffffff\n\
     8229b7fffffffff\n";

/// Commands that read nothing.
pub static PLAIN_CASES: [Case<'static>; 4] = [
    Case {
        command: Command::ForOne(IndexFunction::IsValidCell, HEXAGON),
        reads: Reads::Nothing,
        output: "true\n",
        line: "",
        status: 0,
    },
    Case {
        command: Command::CellToChildren {
            cell: HEXAGON,
            res: 6,
        },
        reads: Reads::Nothing,
        output: CHILDREN,
        line: "",
        status: 0,
    },
    Case {
        command: Command::ForOne(IndexFunction::OriginToDirectedEdges, HEXAGON),
        reads: Reads::Nothing,
        output: "115283473fffffff\n125283473fffffff\n135283473fffffff\n145283473fffffff\n\
                 155283473fffffff\n165283473fffffff\n",
        line: "",
        status: 0,
    },
    Case {
        command: Command::ForOne(IndexFunction::IsValidCell, None),
        reads: Reads::Nothing,
        output: "",
        line: "error 1: E_FAILED\n",
        status: 1,
    },
];

/// Five of the six children of a pentagon.
const FIVE: &str = "81083ffffffffff\n8108bffffffffff\n8108fffffffffff\n81093ffffffffff\n\
                    81097ffffffffff\n";

/// Commands on a list.
pub static LIST_CASES: [Case<'static>; 8] = [
    Case {
        command: Command::CompactCells,
        reads: Reads::List(
            "862834737ffffff\n86283472fffffff\n862834727ffffff\n86283471fffffff\n\
             862834717ffffff\n86283470fffffff\n862834707ffffff",
        ),
        output: "85283473fffffff\n",
        line: "",
        status: 0,
    },
    Case {
        command: Command::CompactCells,
        reads: Reads::List(FIVE),
        output: FIVE,
        line: "",
        status: 0,
    },
    Case {
        command: Command::CompactCells,
        reads: Reads::List("\n\n\n"),
        output: "",
        line: "",
        status: 0,
    },
    Case {
        command: Command::UncompactCells { res: 6 },
        reads: Reads::List("85283473fffffff\n"),
        output: CHILDREN,
        line: "",
        status: 0,
    },
    Case {
        command: Command::UncompactCellsSize { res: 6 },
        reads: Reads::List("85283473fffffff\n8428347ffffffff\n"),
        output: "56\n",
        line: "",
        status: 0,
    },
    Case {
        command: Command::CompactCells,
        reads: Reads::List("85283473fffffff\n85283473fffffff\n"),
        output: "",
        line: "error 10: E_DUPLICATE_INPUT\n",
        status: 1,
    },
    Case {
        command: Command::UniteCells,
        reads: Reads::List("85283473fffffff\n8428347ffffffff\n85283473fffffff\n"),
        output: "8428347ffffffff\n",
        line: "",
        status: 0,
    },
    Case {
        command: Command::CountCellsInParents { res: 4 },
        reads: Reads::List("85283473fffffff\n8528340ffffffff\n85283473fffffff\n"),
        output: "8428341ffffffff 1\n8428347ffffffff 2\n",
        line: "",
        status: 0,
    },
];

/// Functions of each index of a list, all of whose lines are ended: those that are answered whole,
/// and those that are refused at a line.
pub static PLURAL_CASES: [Case<'static>; 5] = [
    Case {
        command: Command::ForEach(IndexFunction::CellToParent { res: 4 }),
        reads: Reads::List("85283473fffffff\r\n\n0X85283473FFFFFFF\n"),
        output: "8428347ffffffff\n8428347ffffffff\n",
        line: "",
        status: 0,
    },
    Case {
        command: Command::ForEach(IndexFunction::OriginToDirectedEdges),
        reads: Reads::List("8009fffffffffff\n"),
        output: "12009fffffffffff\n13009fffffffffff\n14009fffffffffff\n15009fffffffffff\n\
                 16009fffffffffff\n",
        line: "",
        status: 0,
    },
    Case {
        command: Command::ForEach(IndexFunction::CellToChildrenSize { res: 15 }),
        reads: Reads::List("\n8029fffffffffff\n8009fffffffffff\n"),
        output: "4747561509943\n3956301258286\n",
        line: "",
        status: 0,
    },
    Case {
        command: Command::ForEach(IndexFunction::CellToParent { res: 4 }),
        reads: Reads::List("85283473fffffff\n8009fffffffffff\n85283473fffffff\n"),
        output: "8428347ffffffff\n",
        line: "line 2: error 12: E_RES_MISMATCH\n",
        status: 1,
    },
    Case {
        command: Command::ForEach(IndexFunction::OriginToDirectedEdges),
        reads: Reads::List("\n81087ffffffffff\n"),
        output: "",
        line: "line 2: error 5: E_CELL_INVALID\n",
        status: 1,
    },
];

/// The line of a walk that meets a pentagon.
pub const PENTAGON_LINE: &str = "error 9: E_PENTAGON\n";

/// A hexagon of resolution 0 beside a pentagon.
pub const BESIDE: Option<u64> = Some(0x800bfffffffffff);

/// Walks over a table, which is given where they run: whole ones, and walks that are refused on
/// their way or before it.
pub static WALK_CASES: [Case<'static>; 7] = [
    Case {
        command: Command::GridDiskUnsafe {
            cell: HEXAGON,
            k: 1,
        },
        reads: Reads::Nothing,
        output: "85283473fffffff\n85283447fffffff\n8528347bfffffff\n85283463fffffff\n\
                 85283477fffffff\n8528340ffffffff\n8528340bfffffff\n",
        line: "",
        status: 0,
    },
    Case {
        command: Command::GridDiskDistancesUnsafe {
            cell: HEXAGON,
            k: 1,
        },
        reads: Reads::Nothing,
        output: "85283473fffffff 0\n85283447fffffff 1\n8528347bfffffff 1\n\
                 85283463fffffff 1\n85283477fffffff 1\n8528340ffffffff 1\n\
                 8528340bfffffff 1\n",
        line: "",
        status: 0,
    },
    Case {
        command: Command::GridRingUnsafe {
            cell: HEXAGON,
            k: 1,
        },
        reads: Reads::Nothing,
        output: "8528340bfffffff\n85283447fffffff\n8528347bfffffff\n85283463fffffff\n\
                 85283477fffffff\n8528340ffffffff\n",
        line: "",
        status: 0,
    },
    Case {
        command: Command::GridDiskUnsafe { cell: BESIDE, k: 1 },
        reads: Reads::Nothing,
        output: "800bfffffffffff\n8023fffffffffff\n8021fffffffffff\n",
        line: PENTAGON_LINE,
        status: 1,
    },
    Case {
        command: Command::GridRingUnsafe { cell: BESIDE, k: 1 },
        reads: Reads::Nothing,
        output: "800dfffffffffff\n8023fffffffffff\n8021fffffffffff\n",
        line: PENTAGON_LINE,
        status: 1,
    },
    Case {
        command: Command::GridRingUnsafe {
            cell: BESIDE,
            k: i32::MAX,
        },
        reads: Reads::Nothing,
        output: "",
        line: PENTAGON_LINE,
        status: 1,
    },
    Case {
        command: Command::GridDiskUnsafe {
            cell: PENTAGON,
            k: 0,
        },
        reads: Reads::Nothing,
        output: "",
        line: PENTAGON_LINE,
        status: 1,
    },
];

/// A neighbor of the cell of many tests.
const NEIGHBOR: Option<u64> = Some(0x85283477fffffff);

/// Commands on neighbors and edges over a table, which is given where they run.
pub static EDGE_CASES: [Case<'static>; 4] = [
    Case {
        command: Command::AreNeighborCells {
            cell: HEXAGON,
            to: NEIGHBOR,
        },
        reads: Reads::Nothing,
        output: "true\n",
        line: "",
        status: 0,
    },
    Case {
        command: Command::CellsToDirectedEdge {
            cell: HEXAGON,
            to: NEIGHBOR,
        },
        reads: Reads::Nothing,
        output: "115283473fffffff\n",
        line: "",
        status: 0,
    },
    Case {
        command: Command::GetDirectedEdgeDestination {
            edge: Some(0x115283473fffffff),
        },
        reads: Reads::Nothing,
        output: "85283477fffffff\n",
        line: "",
        status: 0,
    },
    Case {
        command: Command::CellsToDirectedEdge {
            cell: HEXAGON,
            to: HEXAGON,
        },
        reads: Reads::Nothing,
        output: "",
        line: "error 11: E_NOT_NEIGHBORS\n",
        status: 1,
    },
];
