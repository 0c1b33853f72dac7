//! Commands over a table of cells, that of a region or of zones, and a list.

ghost use Rattle.std.specs.Prelude.{◌≡◌, true};
ghost use Rattle.h3_requests.specs.Rows.{is_counted};

use crate::expected::{expect, expect_row};
use crate::files::{CELL, Failing, FileRow, Outcome, PIECES, WELL, flushes, over, over_tables};
use h3_fakes::{Faults, pulls_of, pulls_to_end};
use h3_requests::{CellField, Command, RowOptions, Tables};
use std::alloc::{AllocError, Global};

/// Which field of a table has its cells. Commas separate fields, and quotes count.
#[derive(Clone, Copy)]
enum Columns {
    /// The one that a header names so.
    Named(&'static str),

    /// The second, without a header.
    Second,
}

/// The options of rows whose cell is in this field.
fn rows(field: CellField, has_header: bool) -> RowOptions
    requires { is_counted field ≡ true }
{
    RowOptions {
        field,
        has_header,
        separator: b',',
        quotes: true,
        name: None,
        keeps_going: false,
        shows_errors: false,
        is_ragged: false,
    }
}

/// The options of a table with these columns.
fn options(alloc: Global, columns: Columns) -> Result<RowOptions, AllocError> {
    match columns {
        Columns::Named(name) => {
            let field = CellField::Column(String::from_str(alloc, name)?);
            Ok(rows(field, true))
        }
        Columns::Second => Ok(rows(CellField::Number(2), false)),
    }
}

/// Runs a command over a table with these columns and a bare list.
fn over_table(
    alloc: Global,
    columns: Columns,
    row: &FileRow,
    most: usize,
    failing: Failing,
) -> Result<Outcome, AllocError> {
    let tables = Tables {
        list: None,
        sum: None,
        by: None,
        file: Some(options(alloc, columns)?),
        areas: None,
    };
    Ok(over_tables(alloc, row, Some(&tables), most, failing))
}

/// Two zones, one of whose names has a comma in it, an empty row, and a row without a cell.
const ZONES: &str = "zone,cell\nnorth,85283473fffffff\n\n\"south, old\",85283477fffffff\r\nnone,\n";

/// Zones of which one is in two rows.
const REPEATED: &str = "a,85283473fffffff\nb,85283477fffffff\na,85283473fffffff\n";

/// The commands, each over a table and a bare list.
static ANSWERED: [(Columns, FileRow); 8] = [
    (
        Columns::Named("cell"),
        (
            Command::CellsToZones,
            ZONES,
            "862834737ffffff\n8528340ffffffff\n85283477fffffff\n",
            "85283473fffffff\n0\n85283477fffffff\n",
            "",
        ),
    ),
    (
        Columns::Named("cell"),
        (
            Command::CountCellsInZones,
            ZONES,
            "85283473fffffff\n862834737ffffff\n8528340ffffffff\n",
            "85283473fffffff 2\n85283477fffffff 0\n0 1\n",
            "",
        ),
    ),
    (
        Columns::Named("cell"),
        (
            Command::AreCoveredCells,
            ZONES,
            "85283473fffffff\n8428347ffffffff\n",
            "true\nfalse\n",
            "",
        ),
    ),
    (
        Columns::Named("cell"),
        (
            Command::IntersectCells,
            ZONES,
            CELL,
            "85283473fffffff\n85283477fffffff\n",
            "",
        ),
    ),
    (
        Columns::Named("cell"),
        (
            Command::SubtractCells,
            ZONES,
            CELL,
            "85283463fffffff\n85283467fffffff\n8528346bfffffff\n8528346ffffffff\n\
             8528347bfffffff\n",
            "",
        ),
    ),
    // cells of a region may repeat and overlap
    (
        Columns::Second,
        (
            Command::AreCoveredCells,
            "a,85283473fffffff\nb,8428347ffffffff\na,85283473fffffff\n",
            "85283477fffffff\n8528340ffffffff\n",
            "true\nfalse\n",
            "",
        ),
    ),
    // a table with a header alone has no zones
    (
        Columns::Named("cell"),
        (Command::CountCellsInZones, "zone,cell\n", CELL, "0 1\n", ""),
    ),
    // the list's error is told as ever
    (
        Columns::Named("cell"),
        (
            Command::CellsToZones,
            ZONES,
            "85283473fffffff\nxyz\n",
            "85283473fffffff\n",
            "line 2: error 1: E_FAILED\n",
        ),
    ),
];

/// Commands whose table is refused, with their status.
static REFUSED: [(Columns, FileRow, u8); 11] = [
    (
        Columns::Named("cells"),
        (
            Command::CellsToZones,
            ZONES,
            CELL,
            "",
            "zones: column: not found\n",
        ),
        3,
    ),
    (
        Columns::Named("cell"),
        (
            Command::IntersectCells,
            "\n",
            CELL,
            "",
            "region: column: not found\n",
        ),
        3,
    ),
    (
        Columns::Named("cell"),
        (
            Command::AreCoveredCells,
            "cell,cell\n85283473fffffff,\n",
            CELL,
            "",
            "region: column: not unique\n",
        ),
        3,
    ),
    (
        Columns::Named("cell"),
        (
            Command::CountCellsInZones,
            "zone,cell,n\nnorth,85283473fffffff\n",
            CELL,
            "",
            "zones: line 2: error 1: E_FAILED: 2 fields, the header has 3\n",
        ),
        1,
    ),
    (
        Columns::Second,
        (
            Command::SubtractCells,
            "a,85283473fffffff\nb\n",
            "xyz\n",
            "",
            "region: line 2: error 1: E_FAILED: no such field\n",
        ),
        1,
    ),
    // without a header the first row has no index
    (
        Columns::Second,
        (
            Command::CellsToZones,
            ZONES,
            CELL,
            "",
            "zones: line 1: error 1: E_FAILED: not an index\n",
        ),
        1,
    ),
    (
        Columns::Second,
        (
            Command::CellsToZones,
            "\"a\nb\",85283473fffffff\nc,81087ffffffffff\n",
            CELL,
            "",
            "zones: line 3: error 5: E_CELL_INVALID\n",
        ),
        1,
    ),
    (
        Columns::Second,
        (
            Command::IntersectCells,
            "\"a,85283473fffffff\n",
            CELL,
            "",
            "region: line 1: error 1: E_FAILED: a quote that is not closed\n",
        ),
        1,
    ),
    // a zone may be in one row alone, whatever its name, and no two overlap
    (
        Columns::Second,
        (
            Command::CellsToZones,
            REPEATED,
            CELL,
            "",
            "zones: error 10: E_DUPLICATE_INPUT\n",
        ),
        1,
    ),
    (
        Columns::Second,
        (
            Command::CountCellsInZones,
            "a,85283473fffffff\na,8428347ffffffff\n",
            "xyz\n",
            "",
            "zones: error 10: E_DUPLICATE_INPUT\n",
        ),
        1,
    ),
    // a faulty row comes before an overlap
    (
        Columns::Second,
        (
            Command::CellsToZones,
            "a,85283473fffffff\na,85283473fffffff\nb,x\n",
            CELL,
            "",
            "zones: line 3: error 1: E_FAILED: not an index\n",
        ),
        1,
    ),
];

/// Whether a command answers as its row says, in pieces of each size, after its table is read whole.
fn answers(alloc: Global, columns: Columns, row: &FileRow) -> Result<bool, AllocError> {
    let status = u8::from(!row.4.is_empty());
    for most in &PIECES {
        let run = over_table(alloc, columns, row, *most, WELL)?;
        let read = run.file_pulls == pulls_to_end(row.1, *most) && run.list_pulls > 0;
        let answered = run.is(row.3, row.4, status) && run.out.flushes() == flushes(row, *most);
        if !read || !answered {
            return Ok(false);
        }
    }
    Ok(true)
}

/// Whether a command is refused for its table with this status, in pieces of each size, and leaves its
/// list and its output alone.
fn refuses(alloc: Global, columns: Columns, row: &FileRow, status: u8) -> Result<bool, AllocError> {
    for most in &PIECES {
        let run = over_table(alloc, columns, row, *most, WELL)?;
        let alone = run.list_pulls == 0 && run.out.calls() == 0;
        if !alone || !run.is(row.3, row.4, status) {
            return Ok(false);
        }
    }
    Ok(true)
}

/// Whether a fault at each pull of the table ends the run before the list is read.
fn stops_at_the_table(alloc: Global, columns: Columns, row: &FileRow) -> Result<bool, AllocError> {
    for pull in 0..pulls_to_end(row.1, 16) {
        let file = Faults::From(pull);
        let run = over_table(alloc, columns, row, 16, Failing { file, ..WELL })?;
        let stopped = run.is("", "fault: read\n", 4) && run.out.calls() == 0;
        if !stopped || run.list_pulls > 0 || run.file_pulls != pull.saturating_add(1) {
            return Ok(false);
        }
    }
    Ok(true)
}

#[test]
fn lists_are_answered_over_tables_of_cells(rt: HostRuntime) {
    for (number, (columns, row)) in ANSWERED.iter().enumerate() {
        let right = answers(rt.alloc(), *columns, row);
        expect_row(&rt, number, matches!(right, Ok(true)));
    }
}

#[test]
fn tables_of_cells_are_judged_before_lists(rt: HostRuntime) {
    for (number, (columns, row, status)) in REFUSED.iter().enumerate() {
        let right = refuses(rt.alloc(), *columns, row, *status);
        expect_row(&rt, number, matches!(right, Ok(true)));
    }
}

#[test]
fn a_table_of_cells_that_fails_ends_the_run(rt: HostRuntime) {
    for (number, (columns, row)) in ANSWERED.iter().enumerate() {
        let right = stops_at_the_table(rt.alloc(), *columns, row);
        expect_row(&rt, number, matches!(right, Ok(true)));
    }
}

/// Whether a row that is known to be bad decides before a pull that fails, here the one after the first
/// 16 bytes.
fn is_known(alloc: Global) -> Result<bool, AllocError> {
    let row = (
        Command::CellsToZones,
        "a,x\nb,85283473fffffff\n",
        CELL,
        "",
        "",
    );
    let file = Faults::From(pulls_of(16, 16));
    let run = over_table(alloc, Columns::Second, &row, 16, Failing { file, ..WELL })?;
    let line = "zones: line 1: error 1: E_FAILED: not an index\n";
    Ok(run.is("", line, 1) && run.list_pulls == 0)
}

#[test]
fn a_bad_row_that_is_known_decides_before_a_read_fault(rt: HostRuntime) {
    expect(&rt, "known", matches!(is_known(rt.alloc()), Ok(true)));
}

/// Whether a file of rows is refused as a bare one: its first line has no index.
fn is_no_bare_file(alloc: Global) -> bool {
    let row = (Command::CellsToZones, ZONES, CELL, "", "");
    let run = over(alloc, &row, 16, WELL);
    run.is("", "zones: line 1: error 1: E_FAILED\n", 1)
}

#[test]
fn a_file_is_bare_unless_it_is_asked_for_as_a_table(rt: HostRuntime) {
    expect(&rt, "bare", is_no_bare_file(rt.alloc()));
}

/// The commands, each over two tables: the file's cells are in its second field, and the list's in the
/// column `cell`.
static BOTH: [FileRow; 3] = [
    (
        Command::CellsToZones,
        "a,85283473fffffff\n\"b,c\",85283477fffffff\n",
        "id,cell,n\n1,85283473fffffff,1\n2,,2\n3,8528340ffffffff,3\n",
        "id,cell,n,zone\n1,85283473fffffff,1,85283473fffffff\n2,,2,\n3,8528340ffffffff,3,0\n",
        "",
    ),
    (
        Command::CountCellsInZones,
        "a,85283473fffffff\n\"b,c\",85283477fffffff\n",
        "id,cell,n\n1,85283473fffffff,1\n2,,2\n3,8528340ffffffff,3\n",
        "85283473fffffff 1\n85283477fffffff 0\n0 1\n",
        "",
    ),
    (
        Command::IntersectCells,
        "a,85283473fffffff\n",
        "id,cell\n1,8428347ffffffff\n2,x\n",
        "",
        "line 3: error 1: E_FAILED: not an index\n",
    ),
];

/// Whether a command answers as its row says over these two tables.
fn answers_over_both(alloc: Global, row: &FileRow) -> Result<bool, AllocError> {
    let tables = Tables {
        list: Some(options(alloc, Columns::Named("cell"))?),
        sum: None,
        by: None,
        file: Some(options(alloc, Columns::Second)?),
        areas: None,
    };
    let run = over_tables(alloc, row, Some(&tables), 16, WELL);
    Ok(run.is(row.3, row.4, u8::from(!row.4.is_empty())))
}

#[test]
fn each_table_is_read_by_its_own_columns(rt: HostRuntime) {
    for (number, row) in BOTH.iter().enumerate() {
        let right = answers_over_both(rt.alloc(), row);
        expect_row(&rt, number, matches!(right, Ok(true)));
    }
}
