//! The counts of the cells of a list by the areas of a table of zones with names.

ghost use Rattle.std.specs.Prelude.{◌≡◌, IfOk, true};
ghost use Rattle.h3_requests.specs.Rows.{is_counted};

use crate::expected::{expect, expect_row};
use crate::files::{Failing, FileRow, Outcome, PIECES, WELL, over_tables};
use h3_fakes::{Faults, FaultySink, FaultySource, NO_FAULT, pulls_to_end};
use h3_requests::{AreaOptions, CellField, Command, RowOptions, TableOptions, Tables};
use h3_runs::run_over_rows;
use std::alloc::{AllocError, Global};

/// Which fields a table has, and whether quotes count in it. Commas separate fields.
#[derive(Clone, Copy)]
enum Columns {
    /// A name and a cell, which a header names `zone` and `cell`; quotes count.
    Named,

    /// A name and a cell, without a header; quotes count.
    Second,

    /// The same, where quotes do not count.
    Plain,

    /// Bare lines.
    Bare,
}

/// The options of rows whose cell is in this field.
fn rows(field: CellField, has_header: bool, quotes: bool) -> RowOptions
    requires { is_counted field ≡ true }
    ensures { result.separator ≡ 44 }
{
    RowOptions {
        field,
        has_header,
        separator: b',',
        quotes,
        name: None,
        keeps_going: false,
        shows_errors: false,
        is_ragged: false,
    }
}

/// The options of a list with these columns.
fn list_options(alloc: Global, columns: Columns) -> Result<Option<RowOptions>, AllocError> {
    match columns {
        Columns::Named => {
            let field = CellField::Column(String::from_str(alloc, "cell")?);
            Ok(Some(rows(field, true, true)))
        }
        Columns::Second => Ok(Some(rows(CellField::Number(2), false, true))),
        Columns::Plain => Ok(Some(rows(CellField::Number(2), false, false))),
        Columns::Bare => Ok(None),
    }
}

/// The options of a table with these columns; in place of bare lines those of a table with a header, of
/// which the fields are known by their numbers.
fn table_options(alloc: Global, columns: Columns) -> Result<TableOptions, AllocError>
    ensures { IfOk result (λ table. table.rows.separator ≡ 44) }
{
    let first = CellField::Number(1);
    match columns {
        Columns::Named => {
            let cell = CellField::Column(String::from_str(alloc, "cell")?);
            let name = CellField::Column(String::from_str(alloc, "zone")?);
            Ok(TableOptions {
                rows: rows(cell, true, true),
                name,
            })
        }
        Columns::Second => Ok(TableOptions {
            rows: rows(CellField::Number(2), false, true),
            name: first,
        }),
        Columns::Plain => Ok(TableOptions {
            rows: rows(CellField::Number(2), false, false),
            name: first,
        }),
        Columns::Bare => Ok(TableOptions {
            rows: rows(CellField::Number(2), true, true),
            name: first,
        }),
    }
}

/// How the tables of a run are read: the columns of the table of zones, and those of the list.
type Both = (Columns, Columns);

/// The options of both tables; `-` is written for none.
fn options(alloc: Global, both: Both, overlapping: bool) -> Result<Tables, AllocError> {
    let list = list_options(alloc, both.1)?;
    let table = table_options(alloc, both.0)?;
    let none = String::from_str(alloc, "-")?;
    Ok(Tables {
        list,
        sum: None,
        by: None,
        file: None,
        areas: Some(AreaOptions {
            table,
            none,
            overlapping,
        }),
    })
}

/// Runs a command over such tables.
fn over_areas(
    alloc: Global,
    both: Both,
    row: &FileRow,
    most: usize,
    failing: Failing,
) -> Result<Outcome, AllocError> {
    let tables = options(alloc, both, false)?;
    Ok(over_tables(alloc, row, Some(&tables), most, failing))
}

/// Two areas, one of which has a cell twice, and a name with a comma; a row without a cell.
const ZONES: &str =
    "zone,cell\nnorth,85283473fffffff\n\"south, old\",85283477fffffff\nnorth,85283473fffffff\nnone,\n";

/// The same without its header.
const ROWS: &str =
    "north,85283473fffffff\n\"south, old\",85283477fffffff\nnorth,85283473fffffff\nnone,\n";

/// Rows of points: one in each area, one in none, and one without a cell.
const POINTS: &str =
    "id,cell,amount\n1,85283473fffffff,1.50\n2,85283477fffffff,2\n3,8528340ffffffff,-0.5\n4,,7\n";

/// Tables and lists, and their counts.
static COUNTED: [(Both, FileRow); 18] = [
    // each area in its order, and none at last
    (
        (Columns::Named, Columns::Named),
        (
            Command::CountCellsInZones,
            ZONES,
            POINTS,
            "zone,count\nnorth,1\n\"south, old\",1\n-,1\n",
            "",
        ),
    ),
    (
        (Columns::Named, Columns::Bare),
        (
            Command::CountCellsInZones,
            ZONES,
            "85283473fffffff\n85283477fffffff\n85283473fffffff\n",
            "zone,count\nnorth,2\n\"south, old\",1\n-,0\n",
            "",
        ),
    ),
    // a header if either table has one: the name is that of the table of zones
    (
        (Columns::Second, Columns::Named),
        (
            Command::CountCellsInZones,
            ROWS,
            POINTS,
            "zone,count\nnorth,1\n\"south, old\",1\n-,1\n",
            "",
        ),
    ),
    (
        (Columns::Second, Columns::Second),
        (
            Command::CountCellsInZones,
            ROWS,
            "1,85283473fffffff\n2,862834737ffffff\n",
            "north,2\n\"south, old\",0\n-,0\n",
            "",
        ),
    ),
    (
        (Columns::Second, Columns::Bare),
        (
            Command::CountCellsInZones,
            ROWS,
            "8528340ffffffff\n8428347ffffffff\n",
            "north,0\n\"south, old\",0\n-,2\n",
            "",
        ),
    ),
    (
        (Columns::Bare, Columns::Bare),
        (
            Command::CountCellsInZones,
            "\"area, old\"\t,cell\r\nnorth,85283473fffffff\r\n",
            "85283473fffffff\n",
            "\"area, old\",count\nnorth,1\n-,0\n",
            "",
        ),
    ),
    // areas without points, no points, no areas
    (
        (Columns::Named, Columns::Named),
        (
            Command::CountCellsInZones,
            ZONES,
            "id,cell\n",
            "zone,count\nnorth,0\n\"south, old\",0\n-,0\n",
            "",
        ),
    ),
    (
        (Columns::Named, Columns::Bare),
        (
            Command::CountCellsInZones,
            "zone,cell\n",
            "85283473fffffff\n",
            "zone,count\n-,1\n",
            "",
        ),
    ),
    (
        (Columns::Second, Columns::Bare),
        (Command::CountCellsInZones, "", "", "-,0\n", ""),
    ),
    // one area with two spellings of its name, and cells of several resolutions within each other
    (
        (Columns::Second, Columns::Second),
        (
            Command::CountCellsInZones,
            " \"a\" ,85283473fffffff\nb,8528340ffffffff\na,8428347ffffffff\r\n\"a\",85283473fffffff\n",
            "1,85283473fffffff\n2,85283477fffffff\n3,862834737ffffff\n4,8528340ffffffff\n",
            "\"a\",3\nb,1\n-,0\n",
            "",
        ),
    ),
    // the order is that of the names' rows, not that of the names or the cells
    (
        (Columns::Second, Columns::Bare),
        (
            Command::CountCellsInZones,
            "z,85283477fffffff\na,85283473fffffff\nm,8528340ffffffff\n",
            "85283473fffffff\n85283473fffffff\n8528340ffffffff\n",
            "z,0\na,2\nm,1\n-,0\n",
            "",
        ),
    ),
    // quotes in names, line feeds inside quotes, an empty name
    (
        (Columns::Second, Columns::Bare),
        (
            Command::CountCellsInZones,
            "\"the \"\"old\"\" town\",85283473fffffff\n\"two\nlines\",85283477fffffff\n,8528340ffffffff\n",
            "85283477fffffff\n",
            "\"the \"\"old\"\" town\",0\n\"two\nlines\",1\n,0\n-,0\n",
            "",
        ),
    ),
    // quotes that do not count are two areas
    (
        (Columns::Plain, Columns::Plain),
        (
            Command::CountCellsInZones,
            "a,85283473fffffff\n\"a\",85283477fffffff\n",
            "\"1,85283477fffffff\n",
            "a,0\n\"a\",1\n-,0\n",
            "",
        ),
    ),
    // an error of the list prints nothing
    (
        (Columns::Named, Columns::Bare),
        (
            Command::CountCellsInZones,
            ZONES,
            "85283473fffffff\nxyz\n",
            "",
            "line 2: error 1: E_FAILED\n",
        ),
    ),
    (
        (Columns::Named, Columns::Named),
        (
            Command::CountCellsInZones,
            ZONES,
            "id,cell\n1,85283473fffffff\n2\n",
            "",
            "line 3: error 1: E_FAILED: 1 fields, the header has 2\n",
        ),
    ),
    (
        (Columns::Named, Columns::Second),
        (
            Command::CountCellsInZones,
            ZONES,
            "1,81087ffffffffff\n",
            "",
            "line 1: error 5: E_CELL_INVALID\n",
        ),
    ),
    // an empty list with rows and a table without a header
    (
        (Columns::Plain, Columns::Second),
        (
            Command::CountCellsInZones,
            "a,85283473fffffff\n",
            "\n\n",
            "a,0\n-,0\n",
            "",
        ),
    ),
    // a name with blanks at its ends, and a missing cell with none
    (
        (Columns::Second, Columns::Second),
        (
            Command::CountCellsInZones,
            "\t north  ,85283473fffffff\r\n,\n",
            "1,\n2, \"85283473FFFFFFF\" \n",
            "north,1\n-,0\n",
            "",
        ),
    ),
];

/// Tables that are refused before the list is read, with their status.
static REFUSED: [(Both, FileRow, u8); 6] = [
    (
        (Columns::Second, Columns::Bare),
        (
            Command::CountCellsInZones,
            "a,85283473fffffff\nb,8428347ffffffff\n",
            "xyz\n",
            "",
            "zones: error 10: E_DUPLICATE_INPUT\n",
        ),
        1,
    ),
    (
        (Columns::Second, Columns::Bare),
        (
            Command::CountCellsInZones,
            "a,85283473fffffff\nb,85283473fffffff\n",
            "",
            "",
            "zones: error 10: E_DUPLICATE_INPUT\n",
        ),
        1,
    ),
    (
        (Columns::Named, Columns::Bare),
        (
            Command::CountCellsInZones,
            "name,cell\na,85283473fffffff\n",
            "",
            "",
            "zones: column: not found\n",
        ),
        3,
    ),
    (
        (Columns::Named, Columns::Bare),
        (
            Command::CountCellsInZones,
            "zone,cell,zone\na,85283473fffffff,b\n",
            "",
            "",
            "zones: column: not unique\n",
        ),
        3,
    ),
    (
        (Columns::Second, Columns::Named),
        (
            Command::CountCellsInZones,
            "a,85283473fffffff\nb,x\n",
            "id,cell\n",
            "",
            "zones: line 2: error 1: E_FAILED: not an index\n",
        ),
        1,
    ),
    (
        (Columns::Second, Columns::Named),
        (
            Command::CountCellsInZones,
            "a,85283473fffffff\nb,x\na,85283473fffffff\nc,8428347ffffffff\n",
            "id,cell\n",
            "",
            "zones: line 2: error 1: E_FAILED: not an index\n",
        ),
        1,
    ),
];

/// Whether the counts are those of a row, in pieces of each size, with one flush.
fn counts(alloc: Global, both: Both, row: &FileRow) -> Result<bool, AllocError> {
    let status = u8::from(!row.4.is_empty());
    for most in &PIECES {
        let run = over_areas(alloc, both, row, *most, WELL)?;
        let read = run.file_pulls == pulls_to_end(row.1, *most) && run.list_pulls > 0;
        let answered = run.is(row.3, row.4, status)
            && run.out.flushes() == u64::from(row.4.is_empty());
        if !read || !answered {
            return Ok(false);
        }
    }
    Ok(true)
}

/// Whether a table is refused with this status, in pieces of each size, and the list and the output are
/// left alone.
fn refuses(alloc: Global, both: Both, row: &FileRow, status: u8) -> Result<bool, AllocError> {
    for most in &PIECES {
        let run = over_areas(alloc, both, row, *most, WELL)?;
        let alone = run.list_pulls == 0 && run.out.calls() == 0;
        if !alone || !run.is(row.3, row.4, status) {
            return Ok(false);
        }
    }
    Ok(true)
}

/// Tables whose areas may overlap, and lists, and their counts.
static OVERLAPPING: [(Both, FileRow); 4] = [
    // each cell in each of its areas, once in each, and in none if it is in no area
    (
        (Columns::Named, Columns::Bare),
        (
            Command::CountCellsInZones,
            "zone,cell\nnorth,85283473fffffff\nall,85283477fffffff\nall,8428347ffffffff\n",
            "85283473fffffff\n85283477fffffff\n8528340ffffffff\n85283473fffffff\n8428347ffffffff\n",
            "zone,count\nnorth,2\nall,4\n-,1\n",
            "",
        ),
    ),
    (
        (Columns::Second, Columns::Second),
        (
            Command::CountCellsInZones,
            "b,85283473fffffff\na,85283473fffffff\nc,8009fffffffffff\nb,8428347ffffffff\n",
            "1,862834737ffffff\n2,\n3,85283477fffffff\n",
            "b,2\na,1\nc,0\n-,0\n",
            "",
        ),
    ),
    // areas that do not overlap, and no areas
    (
        (Columns::Named, Columns::Named),
        (
            Command::CountCellsInZones,
            ZONES,
            POINTS,
            "zone,count\nnorth,1\n\"south, old\",1\n-,1\n",
            "",
        ),
    ),
    (
        (Columns::Second, Columns::Bare),
        (
            Command::CountCellsInZones,
            "",
            "85283473fffffff\n",
            "-,1\n",
            "",
        ),
    ),
];

/// Whether the counts of areas that may overlap are those of a row, in pieces of each size, with one flush.
fn counts_overlapping(alloc: Global, both: Both, row: &FileRow) -> Result<bool, AllocError> {
    let tables = options(alloc, both, true)?;
    for most in &PIECES {
        let run = over_tables(alloc, row, Some(&tables), *most, WELL);
        if run.out.flushes() != 1 || !run.is(row.3, row.4, 0) {
            return Ok(false);
        }
    }
    Ok(true)
}

#[test]
fn cells_are_counted_by_areas_that_overlap(rt: HostRuntime) {
    for (number, (both, row)) in OVERLAPPING.iter().enumerate() {
        let right = counts_overlapping(rt.alloc(), *both, row);
        expect_row(&rt, number, matches!(right, Ok(true)));
    }
}

/// Whether a fault at each pull of the table ends the run before the list is read, and one at each pull
/// of the list, with nothing written.
fn stops_at_a_read(alloc: Global, both: Both, row: &FileRow) -> Result<bool, AllocError> {
    for pull in 0..pulls_to_end(row.1, 16) {
        let file = Faults::From(pull);
        let run = over_areas(alloc, both, row, 16, Failing { file, ..WELL })?;
        if !run.is("", "fault: read\n", 4) || run.list_pulls > 0 || run.out.calls() > 0 {
            return Ok(false);
        }
    }
    for pull in 0..pulls_to_end(row.2, 16) {
        let list = Faults::From(pull);
        let run = over_areas(alloc, both, row, 16, Failing { list, ..WELL })?;
        if !run.is("", "fault: read\n", 4) || run.out.calls() > 0 {
            return Ok(false);
        }
    }
    Ok(true)
}

/// Whether a fault at each call of standard output ends the run with a beginning of the answer.
fn stops_at_a_write(alloc: Global, both: Both, row: &FileRow) -> Result<bool, AllocError> {
    let calls = over_areas(alloc, both, row, 16, WELL)?.out.calls();
    for call in 0..calls {
        let out = Faults::From(call);
        let run = over_areas(alloc, both, row, 16, Failing { out, ..WELL })?;
        let begun = row.3.as_bytes().starts_with(run.out.bytes());
        let told = run.err.bytes() == "fault: write\n".as_bytes();
        if !begun || !told || run.status != 4 {
            return Ok(false);
        }
    }
    Ok(true)
}

#[test]
fn cells_are_counted_by_areas(rt: HostRuntime) {
    for (number, (both, row)) in COUNTED.iter().enumerate() {
        let right = counts(rt.alloc(), *both, row);
        expect_row(&rt, number, matches!(right, Ok(true)));
    }
}

#[test]
fn tables_of_areas_are_judged_before_lists(rt: HostRuntime) {
    for (number, (both, row, status)) in REFUSED.iter().enumerate() {
        let right = refuses(rt.alloc(), *both, row, *status);
        expect_row(&rt, number, matches!(right, Ok(true)));
    }
}

#[test]
fn a_read_that_fails_ends_the_counting(rt: HostRuntime) {
    for (number, (both, row)) in COUNTED[..6].iter().enumerate() {
        let right = stops_at_a_read(rt.alloc(), *both, row);
        expect_row(&rt, number, matches!(right, Ok(true)));
    }
}

#[test]
fn a_write_that_fails_ends_the_counts(rt: HostRuntime) {
    for (number, (both, row)) in COUNTED[..6].iter().enumerate() {
        let right = stops_at_a_write(rt.alloc(), *both, row);
        expect_row(&rt, number, matches!(right, Ok(true)));
    }
}

/// The names of four areas, by a byte and how often it stands in them: longer than a block, nearly as long
/// as one, too long for what is left of one, and short.
static LONG: [(u8, usize, &str, &str); 4] = [
    (b'l', 40_000, ",85283473fffffff\n", ",2\n"),
    (b'b', 32_000, ",85283477fffffff\n", ",0\n"),
    (b'r', 5_000, ",85283463fffffff\n", ",1\n"),
    (b's', 1, ",8528340ffffffff\n", ",0\n"),
];

/// Puts each of these names, with what is after it in the table, or else in the counts.
fn long_rows(alloc: Global, counted: bool) -> Result<Vec<u8>, AllocError> {
    let mut text = Vec::with_capacity(alloc, 80_000)?;
    for (byte, length, cell, count) in &LONG {
        text.resize(text.len().saturating_add(*length), *byte)?;
        let rest = if counted { count } else { cell };
        text.extend_from_slice(rest.as_bytes())?;
    }
    Ok(text)
}

/// Whether areas with long names are counted, over a writer that takes at most `most` bytes a push.
fn counts_long_names(alloc: Global, most: usize) -> Result<bool, AllocError> {
    let file = long_rows(alloc, false)?;
    let mut whole = long_rows(alloc, true)?;
    whole.extend_from_slice(b"-,1\n")?;
    let list = b"85283473fffffff\n85283463fffffff\n85283473fffffff\n8428347ffffffff\n";
    let tables = options(alloc, (Columns::Second, Columns::Bare), false)?;
    let mut input = FaultySource::new(list, 65536, NO_FAULT);
    let mut table = FaultySource::new(&file, 65536, NO_FAULT);
    let mut out: FaultySink<80000> = FaultySink::new(most, NO_FAULT);
    let mut err: FaultySink<64> = FaultySink::new(64, NO_FAULT);
    let command = Command::CountCellsInZones;
    let status = run_over_rows(
        alloc, &command, &tables, &mut input, &mut table, &mut out, &mut err,
    );
    Ok(status == 0 && out.bytes() == whole.as_slice())
}

#[test]
fn names_longer_than_a_block_are_whole(rt: HostRuntime) {
    for most in &[1000, 65536] {
        let right = counts_long_names(rt.alloc(), *most);
        expect(&rt, "counts", matches!(right, Ok(true)));
    }
}
