//! Commands over rows, most about their cells as a whole: their answers, and how they end where a read or
//! a write fails.

use crate::expected::expect;
use h3_fakes::{Faults, FaultySink, FaultySource, NO_FAULT};
use h3_parses::read;
use h3_runs::run_over_rows;
use std::alloc::{AllocError, Global};

/// The words of a command, the table that it reads, and its output, its line on standard error and
/// its status.
type Row = (&'static str, &'static str, &'static str, &'static str, u8);

/// The file of a region or of zones.
const FILE: &str = "8428347ffffffff\n";

/// Whether a command ends as its row says, over a table that is handed out `most` bytes at a time,
/// with these faults.
fn ends(alloc: Global, row: &Row, most: usize, reads: Faults, writes: Faults) -> bool {
    ends_over(alloc, row, row.1.as_bytes(), most, reads, writes)
}

/// The same over these bytes in place of the row's table.
fn ends_over(
    alloc: Global,
    row: &Row,
    table: &[u8],
    most: usize,
    reads: Faults,
    writes: Faults,
) -> bool {
    let (line, _, output, error, status) = *row;
    let mut input = FaultySource::new(table, most, reads);
    let mut file = FaultySource::new(FILE.as_bytes(), most, NO_FAULT);
    let mut out = FaultySink::<2048>::new(64, writes);
    let mut err = FaultySink::<128>::new(64, NO_FAULT);
    let ended = match read(alloc, line) {
        Ok(words) => run_over_rows(
            alloc,
            &words.command,
            &words.tables,
            &mut input,
            &mut file,
            &mut out,
            &mut err,
        ),
        Err(_) => return false,
    };
    ended == status && out.bytes() == output.as_bytes() && err.bytes() == error.as_bytes()
}

/// How many bytes a pull gives at most.
static PIECES: [usize; 3] = [1, 7, 65536];

/// Whether a command ends as its row says, in pieces of each of these sizes.
fn ends_in_pieces(alloc: Global, row: &Row) -> bool {
    for most in &PIECES {
        if !ends(alloc, row, *most, NO_FAULT, NO_FAULT) {
            return false;
        }
    }
    true
}

/// Tables, and what the commands answer about their cells.
static ANSWERED: [Row; 14] = [
    // a byte order mark alone leaves the first row empty
    (
        "h3 compactCells --column cell",
        "\u{feff}\ncell\n85283473fffffff\n",
        "85283473fffffff\n",
        "",
        0,
    ),
    (
        "h3 compactCells --field 2 --header",
        "id\tcell\n1\t862834707ffffff\n2\t86283470fffffff\n\n3\t862834717ffffff\n4\t86283471fffffff\n5\t862834727ffffff\n6\t86283472fffffff\n7\t862834737ffffff\n",
        "85283473fffffff\n",
        "",
        0,
    ),
    (
        "h3 uncompactCells -r 5 --csv --field 1",
        "85283473fffffff,\"a\n,b\"\n,x\n",
        "85283473fffffff\n",
        "",
        0,
    ),
    (
        "h3 uncompactCellsSize -r 6 --column cell",
        "cell\n85283473fffffff\n  \n",
        "7\n",
        "",
        0,
    ),
    (
        "h3 uniteCells --field 1",
        "85283473fffffff\t1\n85283473fffffff\t2",
        "85283473fffffff\n",
        "",
        0,
    ),
    (
        "h3 uniteCells --field 1 --header",
        "8428347ffffffff\n85283473fffffff\n",
        "85283473fffffff\n",
        "",
        0,
    ),
    (
        "h3 intersectCells --region r --field 1",
        "85283473fffffff\n8528340ffffffff\n",
        "85283473fffffff\n",
        "",
        0,
    ),
    (
        "h3 subtractCells --region r --field 1",
        "85283473fffffff\n8528340ffffffff\n",
        "8528340ffffffff\n",
        "",
        0,
    ),
    (
        "h3 countCellsInZones --zones z --csv --column cell",
        "id,cell\r\n1,85283473fffffff\r\n2,8528340ffffffff\r\n3,\r\n",
        "8428347ffffffff 1\n0 1\n",
        "",
        0,
    ),
    (
        "h3 countCellsInZones --zones z --csv --column cell",
        "id,cell\n",
        "8428347ffffffff 0\n0 0\n",
        "",
        0,
    ),
    (
        "h3 countCellsInParents -r 4 --csv --column cell",
        "id,cell\r\n1,85283473fffffff\r\n2,8528340ffffffff\r\n3,\r\n4,85283477fffffff",
        "cell,count\n8428341ffffffff,1\n8428347ffffffff,2\n",
        "",
        0,
    ),
    (
        "h3 countCellsInParents -r 4 --csv --column cell --sum amount",
        "id,cell,amount\n1,85283473fffffff,1.50\n2,85283477fffffff,2\n3,8528340ffffffff,-0.5\n4,,7\n",
        "cell,count,amount\n8428341ffffffff,1,-0.5\n8428347ffffffff,2,3.5\n",
        "",
        0,
    ),
    (
        "h3 countCellsInParents -r 4 --sum-field 2 --field 1",
        "85283473fffffff\t1.50\n85283477fffffff\t\n",
        "8428347ffffffff\t2\t1.5\n",
        "",
        0,
    ),
    (
        "h3 countCellsInParents --resolution 4",
        "85283473fffffff\n85283477fffffff\n8528340ffffffff\n85283473fffffff\n",
        "8428341ffffffff 1\n8428347ffffffff 3\n",
        "",
        0,
    ),
];

#[test]
fn cells_of_rows_are_answered(rt: HostRuntime) {
    for row in &ANSWERED {
        expect(&rt, row.0, ends_in_pieces(rt.alloc(), row));
    }
}

/// Tables with an error, and bare lists, of which compaction reports a faulty line without its
/// number.
static REFUSED: [Row; 14] = [
    (
        "h3 compactCells --field 1",
        "85283473fffffff\n85283473fffffff\n",
        "",
        "error 10: E_DUPLICATE_INPUT\n",
        1,
    ),
    (
        "h3 compactCells --field 1",
        "85283473fffffff\n\nxyz\n",
        "",
        "line 3: error 1: E_FAILED: not an index\n",
        1,
    ),
    (
        "h3 compactCells",
        "85283473fffffff\n\nxyz\n",
        "",
        "error 1: E_FAILED\n",
        1,
    ),
    (
        "h3 uncompactCells -r 4 --field 1",
        "85283473fffffff\n",
        "",
        "error 12: E_RES_MISMATCH\n",
        1,
    ),
    (
        "h3 uncompactCellsSize -r 6 --field 1",
        "\n81087ffffffffff\n",
        "",
        "line 2: error 5: E_CELL_INVALID\n",
        1,
    ),
    (
        "h3 uniteCells --csv --field 1",
        "\"85283473fffffff\n",
        "",
        "line 1: error 1: E_FAILED: a quote that is not closed\n",
        1,
    ),
    (
        "h3 uniteCells --field 2",
        "a\t85283473fffffff\nb\n",
        "",
        "line 2: error 1: E_FAILED: no such field\n",
        1,
    ),
    (
        "h3 uniteCells",
        "85283473fffffff\t1\n",
        "",
        "line 1: error 1: E_FAILED\n",
        1,
    ),
    (
        "h3 intersectCells --region r --csv --field 1",
        "5\" pipe,85283473fffffff\n6\" pipe,85283473fffffff\n",
        "",
        "line 1: error 1: E_FAILED: a quote inside a field\n",
        1,
    ),
    (
        "h3 subtractCells --region r --column cell",
        "cell\tcell\n",
        "",
        "column: not unique\n",
        3,
    ),
    (
        "h3 countCellsInZones --zones z --column cell",
        "\n\n",
        "",
        "column: not found\n",
        3,
    ),
    (
        "h3 countCellsInParents -r 4 --column cell --sum amount",
        "cell\tn\n",
        "",
        "column: not found\n",
        3,
    ),
    (
        "h3 countCellsInParents -r 4 --field 1 --sum-field 2",
        "85283473fffffff\t1\n832834fffffffff\tx\n",
        "",
        "line 2: error 12: E_RES_MISMATCH\n",
        1,
    ),
    (
        "h3 countCellsInParents -r 4 --field 1 --sum-field 2",
        "85283473fffffff\tx\n832834fffffffff\t1\n",
        "",
        "line 1: sum: not a number\n",
        1,
    ),
];

#[test]
fn the_first_faulty_row_decides(rt: HostRuntime) {
    for row in &REFUSED {
        expect(&rt, row.0, ends_in_pieces(rt.alloc(), row));
    }
}

/// Tables whose rows are answered: names of errors, numbers of fields, quotes, carriage returns and names
/// that are in use.
static BESIDE: [Row; 21] = [
    (
        "h3 getResolutions --field 1 --keep-going --errors",
        "85283473fffffff\nxyz\n \n\n81087ffffffffff\n",
        "85283473fffffff\t5\t\nxyz\t\tE_FAILED\n \t\tmissing\n\n81087ffffffffff\t\tE_CELL_INVALID\n",
        "line 2: error 1: E_FAILED: not an index, and 1 more\n",
        1,
    ),
    (
        "h3 cellsToParents -r 4 --csv --column cell --keep-going --errors --as up",
        "cell\n8001fffffffffff\n85283473fffffff\n",
        "cell,up,upError\n8001fffffffffff,,E_RES_MISMATCH\n85283473fffffff,8428347ffffffff,\n",
        "line 2: error 12: E_RES_MISMATCH\n",
        1,
    ),
    (
        "h3 originsToDirectedEdges --csv --field 1 --keep-going --errors",
        "8009fffffffffff\nx\n",
        "8009fffffffffff,12009fffffffffff,\n8009fffffffffff,13009fffffffffff,\n8009fffffffffff,14009fffffffffff,\n8009fffffffffff,15009fffffffffff,\n8009fffffffffff,16009fffffffffff,\nx,,E_FAILED\n",
        "line 2: error 1: E_FAILED: not an index\n",
        1,
    ),
    (
        "h3 getResolutions --csv --column cell --keep-going --errors",
        "cell\nx\n5\"\n",
        "cell,getResolution,error\nx,,E_FAILED\n",
        "line 3: error 1: E_FAILED: a quote that is not closed\n",
        1,
    ),
    (
        "h3 getResolutions --csv --column cell",
        "cell,n,note\n85283473fffffff,1\n",
        "cell,n,note,getResolution\n",
        "line 2: error 1: E_FAILED: 2 fields, the header has 3\n",
        1,
    ),
    (
        "h3 getResolutions --csv --column cell --ragged",
        "cell,n,note\n85283473fffffff,1\n85283473fffffff,1,a,b\n",
        "cell,n,note,getResolution\n85283473fffffff,1,5\n85283473fffffff,1,a,b,5\n",
        "",
        0,
    ),
    (
        "h3 getResolutions --csv --column cell --keep-going",
        "cell,n,note\n85283473fffffff,1\n85283473fffffff,1,a\n,\n",
        "cell,n,note,getResolution\n85283473fffffff,1,\n85283473fffffff,1,a,5\n,,\n",
        "line 2: error 1: E_FAILED: 2 fields, the header has 3, and 1 more\n",
        1,
    ),
    (
        "h3 getResolutions --field 3",
        "a\tb\n",
        "",
        "line 1: error 1: E_FAILED: no such field\n",
        1,
    ),
    (
        "h3 getResolutions --csv --field 2",
        "a, \",85283473fffffff\nb, \",85283473fffffff\n",
        "",
        "line 1: error 1: E_FAILED: a quote inside a field\n",
        1,
    ),
    (
        "h3 getResolutions --csv --field 2",
        "a, \"85283473fffffff\"\n",
        "a, \"85283473fffffff\",5\n",
        "",
        0,
    ),
    (
        "h3 getResolutions --csv --field 2",
        "a\rb,85283473fffffff\n",
        "",
        "line 1: error 1: E_FAILED: a carriage return inside a row\n",
        1,
    ),
    (
        "h3 getResolutions --field 2",
        "a\rb\t85283473fffffff\n",
        "a\rb\t85283473fffffff\t5\n",
        "",
        0,
    ),
    (
        "h3 getResolutions --csv --column cell",
        "id,cell\r\r\n1,85283473fffffff",
        "id,cell,getResolution\r\r\n1,85283473fffffff,5\r\r\n",
        "",
        0,
    ),
    (
        "h3 getResolutions --field 1",
        "85283473fffffff",
        "85283473fffffff\t5\n",
        "",
        0,
    ),
    (
        "h3 getResolutions --field 1",
        "85283473fffffff\n\r",
        "85283473fffffff\t5\n\r\n",
        "",
        0,
    ),
    (
        "h3 getResolutions --csv --column cell",
        "cell,getResolution\n",
        "",
        "column: in use\n",
        3,
    ),
    (
        "h3 getResolutions --csv --column cell --as id",
        "id,cell\n",
        "",
        "column: in use\n",
        3,
    ),
    (
        "h3 getResolutions --csv --column cell --keep-going --errors",
        "cell,error\n",
        "",
        "column: in use\n",
        3,
    ),
    (
        "h3 getResolutions --csv --field 9 --header --as id2",
        "id,cell\n",
        "id,cell,id2\n",
        "",
        0,
    ),
    (
        "h3 uniteCells --csv --column cell",
        "id,cell\n1,85283473fffffff,x\n",
        "",
        "line 2: error 1: E_FAILED: 3 fields, the header has 2\n",
        1,
    ),
    (
        "h3 uniteCells --csv --column cell --ragged",
        "id,cell\n1,85283473fffffff,x\n",
        "85283473fffffff\n",
        "",
        0,
    ),
];

#[test]
fn rows_have_their_answers_beside_them(rt: HostRuntime) {
    for row in &BESIDE {
        expect(&rt, row.0, ends_in_pieces(rt.alloc(), row));
    }
}

/// Whether nothing is written where a read fails, whichever of them does.
fn fails_at_each_read(alloc: Global, row: &Row) -> bool {
    let failed = (row.0, row.1, "", "fault: read\n", 4);
    for pulls in 0..row.1.len().div_ceil(5) as u64 {
        if !ends(alloc, &failed, 5, Faults::From(pulls), NO_FAULT) {
            return false;
        }
    }
    true
}

#[test]
fn a_read_that_fails_ends_rows(rt: HostRuntime) {
    for row in &ANSWERED {
        expect(&rt, row.0, fails_at_each_read(rt.alloc(), row));
    }
}

/// A row that is too long for its end to be awaited.
const LONG_ROW: Row = (
    "h3 getResolutions --field 1",
    "",
    "",
    "line 1: error 1: E_FAILED: longer than 1048575 bytes\n",
    1,
);

/// Whether a row of 1,114,112 bytes without its end is refused before the read after them fails.
fn long_row_is_refused(alloc: Global) -> Result<bool, AllocError> {
    let mut row = Vec::with_capacity(alloc, 1_114_112)?;
    row.resize(1_114_112, b'x')?;
    let reads = Faults::From(17);
    Ok(ends_over(alloc, &LONG_ROW, row.as_slice(), 65536, reads, NO_FAULT))
}

#[test]
fn a_long_row_is_refused_before_a_read_fault(rt: HostRuntime) {
    let right = long_row_is_refused(rt.alloc());
    expect(&rt, LONG_ROW.0, matches!(right, Ok(true)));
}

#[test]
fn a_write_that_fails_ends_rows(rt: HostRuntime) {
    for row in &ANSWERED {
        let failed = (row.0, row.1, "", "fault: write\n", 4);
        expect(
            &rt,
            row.0,
            ends(rt.alloc(), &failed, 65536, NO_FAULT, Faults::From(0)),
        );
    }
}
