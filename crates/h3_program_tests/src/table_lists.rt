//! Commands that answer each line or row of a list over a table, and children.

use crate::expected::{expect, expect_row};
use h3_fakes::{Faults, FaultySink, FaultySource, NO_FAULT, pulls_to_end, table_file};
use h3_parses::read;
use h3_runs::run_over_rows;
use h3_table::vectors::TestTable;
use std::alloc::Global;

/// The words of a command, the list that it reads, its output, and its line of an H3 error, or
/// nothing where it is answered whole.
type Row = (&'static str, &'static str, &'static str, &'static str);

/// What a run left behind.
#[derive(Drop)]
struct Outcome {
    status: u8,
    out: FaultySink<2048>,
    err: FaultySink<64>,
    table_pulls: u64,
    list_pulls: u64,
}

impl Outcome {
    /// Whether this output and this line were written, and this status was returned.
    fn is(&self, output: &str, line: &str, status: u8) -> bool {
        self.status == status
            && self.out.bytes() == output.as_bytes()
            && self.err.bytes() == line.as_bytes()
    }
}

/// Runs a command over a table and a list, of which a pull takes at most `most` bytes, and fails so;
/// `None` where the words are not those of a command.
fn over(
    alloc: Global,
    line: &str,
    sources: (&str, &str),
    most: usize,
    faults: (Faults, Faults),
) -> Option<Outcome> {
    let words = read(alloc, line).ok()?;
    let mut table = FaultySource::new(sources.0.as_bytes(), most, faults.0);
    let mut input = FaultySource::new(sources.1.as_bytes(), most, faults.1);
    let mut out = FaultySink::new(64, NO_FAULT);
    let mut err = FaultySink::new(64, NO_FAULT);
    let (command, tables) = (&words.command, &words.tables);
    let status = run_over_rows(
        alloc, command, tables, &mut input, &mut table, &mut out, &mut err,
    );
    Some(Outcome {
        status,
        out,
        err,
        table_pulls: table.pulls(),
        list_pulls: input.pulls(),
    })
}

/// The bytes of a pull. A table is read by pages of 4096 bytes.
static PIECES: [usize; 3] = [7, 16, 4096];

/// Lists of edges, and the cells that they lead to by the plain table.
static DESTINATIONS: [Row; 11] = [
    (
        "h3 getDirectedEdgeDestinations --table t",
        "115283473fffffff\n1413d3ffffffffff\n1313ebffffffffff\n",
        "85283477fffffff\n813ebffffffffff\n813d3ffffffffff\n",
        "",
    ),
    ("h3 getDirectedEdgeDestinations --table t", "", "", ""),
    (
        "h3 getDirectedEdgeDestinations --table t",
        "0x115283473FFFFFFF\n\n115283473fffffff",
        "85283477fffffff\n85283477fffffff\n",
        "",
    ),
    // no index, no edge, an edge into a pentagon base cell
    (
        "h3 getDirectedEdgeDestinations --table t",
        "115283473fffffff\n\nxyz\n115283473fffffff\n",
        "85283477fffffff\n",
        "line 3: error 1: E_FAILED\n",
    ),
    (
        "h3 getDirectedEdgeDestinations --table t",
        "115283473fffffff\n85283473fffffff\n",
        "85283477fffffff\n",
        "line 2: error 6: E_DIR_EDGE_INVALID\n",
    ),
    (
        "h3 getDirectedEdgeDestinations --table t",
        "115283473fffffff\n11021fffffffffff\n115283473fffffff\n",
        "85283477fffffff\n",
        "line 2: error 9: E_PENTAGON\n",
    ),
    (
        "h3 getDirectedEdgeDestinations --table t --csv --column edge",
        "id,edge\r\n\r\n\"1,2\",\" 115283473FFFFFFF \"\r\n3,\r\n4,1413d3ffffffffff",
        "id,edge,getDirectedEdgeDestination\r\n\r\n\"1,2\",\" 115283473FFFFFFF \",85283477fffffff\r\n3,,\r\n4,1413d3ffffffffff,813ebffffffffff\r\n",
        "",
    ),
    (
        "h3 getDirectedEdgeDestinations --table t --field 1 --header --as to",
        "edge\n115283473fffffff\n",
        "edge\tto\n115283473fffffff\t85283477fffffff\n",
        "",
    ),
    (
        "h3 getDirectedEdgeDestinations --table t --field 2 --separator ;",
        "a;115283473fffffff\nb;11021fffffffffff\nc;115283473fffffff\n",
        "a;115283473fffffff;85283477fffffff\n",
        "line 2: error 9: E_PENTAGON\n",
    ),
    (
        "h3 getDirectedEdgeDestinations --table t --field 1 --keep-going",
        "85283473fffffff\n11021fffffffffff\n115283473fffffff\n",
        "85283473fffffff\t\n11021fffffffffff\t\n115283473fffffff\t85283477fffffff\n",
        "line 1: error 6: E_DIR_EDGE_INVALID and 1 more\n",
    ),
    (
        "h3 getDirectedEdgeDestinations --table t --field 1 --keep-going",
        "115283473fffffff",
        "115283473fffffff\t85283477fffffff\n",
        "",
    ),
];

/// The pulls of a table that a line reads, if it reads one.
fn pulls_of_table(line: &str, table: &str, most: usize) -> u64 {
    if line.contains("--table") {
        return pulls_to_end(table, most);
    }
    0
}

/// Whether a command answers a list over a table as its row says, in pieces of each size, after the
/// table is read whole.
fn answers(alloc: Global, table: &str, row: &Row) -> bool {
    let status = u8::from(!row.3.is_empty());
    for most in &PIECES {
        let right = match over(alloc, row.0, (table, row.1), *most, (NO_FAULT, NO_FAULT)) {
            Some(run) => {
                let read = run.table_pulls == pulls_of_table(row.0, table, *most);
                read && run.list_pulls > 0 && run.is(row.2, row.3, status)
            }
            None => false,
        };
        if !right {
            return false;
        }
    }
    true
}

#[test]
fn each_edge_of_a_list_leads_to_a_cell(rt: HostRuntime) {
    let table = table_file(TestTable::Plain);
    for (number, row) in DESTINATIONS.iter().enumerate() {
        expect_row(&rt, number, answers(rt.alloc(), &table, row));
    }
}

/// Lists of cells, and their disks and rings: a walk that is refused leaves no cell.
static WALKS: [Row; 12] = [
    (
        "h3 gridDisksUnsafe -k 1 --table t",
        "85283473fffffff\n803dfffffffffff\n",
        "85283473fffffff\n85283447fffffff\n8528347bfffffff\n85283463fffffff\n85283477fffffff\n8528340ffffffff\n8528340bfffffff\n803dfffffffffff\n8055fffffffffff\n8053fffffffffff\n803bfffffffffff\n8025fffffffffff\n8027fffffffffff\n803ffffffffffff\n",
        "",
    ),
    (
        "h3 gridDisksUnsafe -k 0 --table t",
        "\n85283473fffffff\n 0x8108BFFFFFFFFFF",
        "85283473fffffff\n8108bffffffffff\n",
        "",
    ),
    (
        "h3 gridDisksUnsafe -k 1 --table t",
        "85283473fffffff\n800bfffffffffff\n85283473fffffff\n",
        "85283473fffffff\n85283447fffffff\n8528347bfffffff\n85283463fffffff\n85283477fffffff\n8528340ffffffff\n8528340bfffffff\n",
        "line 2: error 9: E_PENTAGON\n",
    ),
    (
        "h3 gridDisksUnsafe -k 2147483647 --table t",
        "800bfffffffffff\n",
        "",
        "line 1: error 9: E_PENTAGON\n",
    ),
    (
        "h3 gridDisksUnsafe -k 0 --table t",
        "85283473fffffff\n8009fffffffffff\n",
        "85283473fffffff\n",
        "line 2: error 9: E_PENTAGON\n",
    ),
    (
        "h3 gridDisksUnsafe -k 0 --table t",
        "85283473fffffff\n\nxyz\n",
        "85283473fffffff\n",
        "line 3: error 1: E_FAILED\n",
    ),
    (
        "h3 gridDisksUnsafe -k 0 --table t",
        "81087ffffffffff\n",
        "",
        "line 1: error 5: E_CELL_INVALID\n",
    ),
    (
        "h3 gridDisksDistancesUnsafe -k 1 --table t",
        "803dfffffffffff\n85283473fffffff\n",
        "803dfffffffffff 0\n8055fffffffffff 1\n8053fffffffffff 1\n803bfffffffffff 1\n8025fffffffffff 1\n8027fffffffffff 1\n803ffffffffffff 1\n85283473fffffff 0\n85283447fffffff 1\n8528347bfffffff 1\n85283463fffffff 1\n85283477fffffff 1\n8528340ffffffff 1\n8528340bfffffff 1\n",
        "",
    ),
    (
        "h3 gridDisksDistancesUnsafe -k 1 --table t",
        "800bfffffffffff\n",
        "",
        "line 1: error 9: E_PENTAGON\n",
    ),
    (
        "h3 gridRingsUnsafe -k 1 --table t",
        "85283473fffffff\n803dfffffffffff\n",
        "8528340bfffffff\n85283447fffffff\n8528347bfffffff\n85283463fffffff\n85283477fffffff\n8528340ffffffff\n803ffffffffffff\n8055fffffffffff\n8053fffffffffff\n803bfffffffffff\n8025fffffffffff\n8027fffffffffff\n",
        "",
    ),
    (
        "h3 gridRingsUnsafe -k 0 --table t",
        "8009fffffffffff\n",
        "8009fffffffffff\n",
        "",
    ),
    (
        "h3 gridRingsUnsafe -k 1 --table t",
        "800bfffffffffff\n",
        "",
        "line 1: error 9: E_PENTAGON\n",
    ),
];

#[test]
fn each_cell_of_a_list_has_its_walk(rt: HostRuntime) {
    let table = table_file(TestTable::Plain);
    for (number, row) in WALKS.iter().enumerate() {
        expect_row(&rt, number, answers(rt.alloc(), &table, row));
    }
}

/// The same of rows.
static WALKS_OF_ROWS: [Row; 6] = [
    (
        "h3 gridDisksUnsafe -k 1 --table t --csv --column cell",
        "id,cell\r\n\n1,85283473fffffff\r\n2,\n3,800bfffffffffff\n",
        "id,cell,gridDiskUnsafe\r\n\n1,85283473fffffff,85283473fffffff\r\n1,85283473fffffff,85283447fffffff\r\n1,85283473fffffff,8528347bfffffff\r\n1,85283473fffffff,85283463fffffff\r\n1,85283473fffffff,85283477fffffff\r\n1,85283473fffffff,8528340ffffffff\r\n1,85283473fffffff,8528340bfffffff\r\n2,,\n",
        "line 5: error 9: E_PENTAGON\n",
    ),
    (
        "h3 gridDisksUnsafe -k 1 --table t --field 1 --keep-going",
        "800bfffffffffff\nxyz\n85283473fffffff",
        "800bfffffffffff\t\nxyz\t\n85283473fffffff\t85283473fffffff\n85283473fffffff\t85283447fffffff\n85283473fffffff\t8528347bfffffff\n85283473fffffff\t85283463fffffff\n85283473fffffff\t85283477fffffff\n85283473fffffff\t8528340ffffffff\n85283473fffffff\t8528340bfffffff\n",
        "line 1: error 9: E_PENTAGON and 1 more\n",
    ),
    (
        "h3 gridDisksDistancesUnsafe -k 1 --table t --csv --column cell",
        "id,cell\n1,85283473fffffff\n2,\n",
        "id,cell,near,distance\n1,85283473fffffff,85283473fffffff,0\n1,85283473fffffff,85283447fffffff,1\n1,85283473fffffff,8528347bfffffff,1\n1,85283473fffffff,85283463fffffff,1\n1,85283473fffffff,85283477fffffff,1\n1,85283473fffffff,8528340ffffffff,1\n1,85283473fffffff,8528340bfffffff,1\n2,,,\n",
        "",
    ),
    (
        "h3 gridDisksDistancesUnsafe -k 0 --table t --field 1 --header --as near --keep-going",
        "x\n800bfffffffffff\n8009fffffffffff\n",
        "x\tnear\tnearDistance\n800bfffffffffff\t800bfffffffffff\t0\n8009fffffffffff\t\t\n",
        "line 3: error 9: E_PENTAGON\n",
    ),
    (
        "h3 gridRingsUnsafe -k 1 --table t --field 2 --separator ;",
        "a;85283473fffffff\n",
        "a;85283473fffffff;8528340bfffffff\na;85283473fffffff;85283447fffffff\na;85283473fffffff;8528347bfffffff\na;85283473fffffff;85283463fffffff\na;85283473fffffff;85283477fffffff\na;85283473fffffff;8528340ffffffff\n",
        "",
    ),
    (
        "h3 gridRingsUnsafe -k 0 --table t --field 1 --header",
        "x\n",
        "x\tgridRingUnsafe\n",
        "",
    ),
];

#[test]
fn each_row_has_its_walk_beside_it(rt: HostRuntime) {
    let table = table_file(TestTable::Plain);
    for (number, row) in WALKS_OF_ROWS.iter().enumerate() {
        expect_row(&rt, number, answers(rt.alloc(), &table, row));
    }
}

/// Lists of cells, and rows, and their children at a resolution.
static CHILDREN: [Row; 7] = [
    (
        "h3 cellsToChildren -r 6",
        "85283473fffffff\n862834707ffffff\n",
        "862834707ffffff\n86283470fffffff\n862834717ffffff\n86283471fffffff\n862834727ffffff\n86283472fffffff\n862834737ffffff\n862834707ffffff\n",
        "",
    ),
    (
        "h3 cellsToChildren -r 1",
        "8009fffffffffff\n",
        "81083ffffffffff\n8108bffffffffff\n8108fffffffffff\n81093ffffffffff\n81097ffffffffff\n8109bffffffffff\n",
        "",
    ),
    (
        "h3 cellsToChildren -r 5",
        "85283473fffffff\n\n862834707ffffff\n",
        "85283473fffffff\n",
        "line 3: error 4: E_RES_DOMAIN\n",
    ),
    (
        "h3 cellsToChildren -r 16",
        "xyz\n85283473fffffff\n",
        "",
        "line 1: error 1: E_FAILED\n",
    ),
    (
        "h3 cellsToChildren -r 16",
        "85283473fffffff\n",
        "",
        "line 1: error 4: E_RES_DOMAIN\n",
    ),
    (
        "h3 cellsToChildren -r 6 --csv --column cell",
        "cell,x\n85283473fffffff,a\n,b\n",
        "cell,x,cellToChildren\n85283473fffffff,a,862834707ffffff\n85283473fffffff,a,86283470fffffff\n85283473fffffff,a,862834717ffffff\n85283473fffffff,a,86283471fffffff\n85283473fffffff,a,862834727ffffff\n85283473fffffff,a,86283472fffffff\n85283473fffffff,a,862834737ffffff\n,b,\n",
        "",
    ),
    (
        "h3 cellsToChildren -r 5 --field 1 --keep-going",
        "862834707ffffff\n85283473fffffff\n",
        "862834707ffffff\t\n85283473fffffff\t85283473fffffff\n",
        "line 1: error 4: E_RES_DOMAIN\n",
    ),
];

#[test]
fn each_cell_of_a_list_has_its_children(rt: HostRuntime) {
    let table = table_file(TestTable::Plain);
    for (number, row) in CHILDREN.iter().enumerate() {
        expect_row(&rt, number, answers(rt.alloc(), &table, row));
    }
}

/// The same by the twisted table.
static TWISTED: [Row; 1] = [(
    "h3 getDirectedEdgeDestinations --table t",
    "1413d3ffffffffff\n1113efffffffffff\n",
    "813efffffffffff\n813d3ffffffffff\n",
    "",
)];

#[test]
fn the_links_of_the_table_decide(rt: HostRuntime) {
    let table = table_file(TestTable::Twisted);
    for (number, row) in TWISTED.iter().enumerate() {
        expect_row(&rt, number, answers(rt.alloc(), &table, row));
    }
}

/// Commands, and lists of which the first line is refused.
static FAULTY: [(&str, &str); 4] = [
    ("h3 gridDisksUnsafe -k 1 --table t", "800bfffffffffff\n"),
    ("h3 gridRingsUnsafe -k 1 --table t --field 2", "x\n"),
    ("h3 getDirectedEdgeDestinations --table t", "xyz\n"),
    (
        "h3 getDirectedEdgeDestinations --table t --field 1 --header",
        "\"\n",
    ),
];

/// Whether a table that is no table ends the run before the list is read.
fn is_refused(alloc: Global, line: &str, list: &str, table: &str) -> bool {
    for most in &PIECES {
        let right = match over(alloc, line, (table, list), *most, (NO_FAULT, NO_FAULT)) {
            Some(run) => {
                let alone = run.list_pulls == 0 && run.out.calls() == 0;
                alone && run.is("", "table: form 1\n", 3)
            }
            None => false,
        };
        if !right {
            return false;
        }
    }
    true
}

/// Whether a fault at the table's second pull ends the run before the list is read, and one at the
/// list's first pull ends it after.
fn stops(alloc: Global, line: &str, list: &str, table: &str) -> bool {
    let of_table = (Faults::From(1), NO_FAULT);
    let before = match over(alloc, line, (table, list), 4096, of_table) {
        Some(run) => {
            let alone = run.list_pulls == 0 && run.out.calls() == 0;
            alone && run.is("", "fault: read\n", 4) && run.table_pulls == 2
        }
        None => false,
    };
    let of_list = (NO_FAULT, Faults::From(0));
    let after = match over(alloc, line, (table, list), 4096, of_list) {
        Some(run) => {
            let read = run.table_pulls == pulls_to_end(table, 4096);
            read && run.is("", "fault: read\n", 4) && run.list_pulls == 1
        }
        None => false,
    };
    before && after
}

#[test]
fn the_table_is_judged_before_the_list(rt: HostRuntime) {
    let plain = table_file(TestTable::Plain);
    for (line, list) in &FAULTY {
        let right = is_refused(rt.alloc(), line, list, "")
            && is_refused(rt.alloc(), line, list, "85283473fffffff\n")
            && stops(rt.alloc(), line, list, &plain);
        expect(&rt, line, right);
    }
}
