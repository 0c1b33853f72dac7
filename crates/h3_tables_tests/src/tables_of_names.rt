//! Commands over a table of zones with names, and a list.

ghost use Rattle.std.specs.Prelude.{◌≡◌, IfOk, true};
ghost use Rattle.h3_requests.specs.Rows.{is_counted};

use crate::expected::expect_row;
use crate::files::{CELL, Failing, FileRow, Outcome, PIECES, WELL, over_tables};
use h3_fakes::{Faults, pulls_to_end};
use h3_requests::{AreaOptions, CellField, Command, RowOptions, TableOptions, Tables};
use std::alloc::{AllocError, Global};

/// Which fields of a table have its cells and its names. Commas separate fields, and quotes count.
#[derive(Clone, Copy)]
enum Fields {
    /// Those that a header names so: of the cells, and of the names.
    Named(&'static str, &'static str),

    /// The second has the cells, and the first the names, without a header.
    First,

    /// The first has the cells, and the third the names, without a header.
    Third,
}

/// What is written for a cell in no area.
#[derive(Clone, Copy)]
enum Absent {
    Nothing,
    Dash,
}

/// How the list is read.
#[derive(Clone, Copy)]
enum Lists {
    /// A cell on each line.
    Bare,

    /// Rows, whose cell is in the column `cell`.
    Rows,

    /// Rows, whose new column is called `area`.
    Called,

    /// Rows, whose cell is in their first field, without a header.
    Plain,

    /// The same, and a row with an error does not end the run.
    Kept,
}

/// The options of rows whose cell is in this field.
fn rows(field: CellField, has_header: bool, keeps_going: bool, name: Option<String>) -> RowOptions
    requires { is_counted field ≡ true }
    ensures { result.separator ≡ 44 }
{
    RowOptions {
        field,
        has_header,
        separator: b',',
        quotes: true,
        name,
        keeps_going,
        shows_errors: false,
        is_ragged: false,
    }
}

/// How a table with these fields is read.
fn table(alloc: Global, fields: Fields) -> Result<TableOptions, AllocError>
    ensures { IfOk result (λ table. table.rows.separator ≡ 44) }
{
    match fields {
        Fields::Named(cell, name) => {
            let field = CellField::Column(String::from_str(alloc, cell)?);
            let name = CellField::Column(String::from_str(alloc, name)?);
            Ok(TableOptions {
                rows: rows(field, true, false, None),
                name,
            })
        }
        Fields::First => Ok(TableOptions {
            rows: rows(CellField::Number(2), false, false, None),
            name: CellField::Number(1),
        }),
        Fields::Third => Ok(TableOptions {
            rows: rows(CellField::Number(1), false, false, None),
            name: CellField::Number(3),
        }),
    }
}

/// How the areas of a table with these fields are read and written.
fn areas(alloc: Global, fields: Fields, absent: Absent) -> Result<AreaOptions, AllocError> {
    let table = table(alloc, fields)?;
    match absent {
        Absent::Nothing => Ok(AreaOptions {
            table,
            none: String::new(alloc),
            overlapping: false,
        }),
        Absent::Dash => {
            let none = String::from_str(alloc, "-")?;
            Ok(AreaOptions {
                table,
                none,
                overlapping: false,
            })
        }
    }
}

/// How the list is read, if it has rows.
fn list(alloc: Global, lists: Lists) -> Result<Option<RowOptions>, AllocError> {
    match lists {
        Lists::Bare => Ok(None),
        Lists::Rows => {
            let field = CellField::Column(String::from_str(alloc, "cell")?);
            Ok(Some(rows(field, true, false, None)))
        }
        Lists::Called => {
            let field = CellField::Column(String::from_str(alloc, "cell")?);
            let name = String::from_str(alloc, "area")?;
            Ok(Some(rows(field, true, false, Some(name))))
        }
        Lists::Plain => Ok(Some(rows(CellField::Number(1), false, false, None))),
        Lists::Kept => Ok(Some(rows(CellField::Number(1), false, true, None))),
    }
}

/// A table with these fields, what is written for none, how the list is read, and the run.
type Case = (Fields, Absent, Lists, FileRow);

/// Runs a case, of whose table and list a pull takes at most `most` bytes.
fn run(alloc: Global, case: &Case, most: usize, failing: Failing) -> Result<Outcome, AllocError> {
    let (fields, absent, lists, row) = case;
    let tables = Tables {
        list: list(alloc, *lists)?,
        sum: None,
        by: None,
        file: None,
        areas: Some(areas(alloc, *fields, *absent)?),
    };
    Ok(over_tables(alloc, row, Some(&tables), most, failing))
}

/// The columns of a table with a header.
const NAMED: Fields = Fields::Named("cell", "zone");

/// Two areas, one of which has a comma in its name, and one of which is in two rows, and a row without a
/// cell.
const AREAS: &str = "zone,cell\nnorth,85283473fffffff\n\"south, old\",85283477fffffff\n\
                     north,85283473fffffff\nnone,\n";

/// A row in each of these areas, one in none, and one without a cell.
const ROWS: &str = "id,cell,amount\n1,85283473fffffff,1.50\n2,85283477fffffff,2\n\
                    3,8528340ffffffff,-0.5\n4,,7\n";

/// Lists that are answered, or end at their own error.
static ANSWERED: [Case; 16] = [
    (
        NAMED,
        Absent::Nothing,
        Lists::Rows,
        (
            Command::CellsToZones,
            AREAS,
            ROWS,
            "id,cell,amount,zone\n1,85283473fffffff,1.50,north\n\
             2,85283477fffffff,2,\"south, old\"\n3,8528340ffffffff,-0.5,\n4,,7,\n",
            "",
        ),
    ),
    (
        NAMED,
        Absent::Dash,
        Lists::Bare,
        (
            Command::CellsToZones,
            AREAS,
            "85283473fffffff\n8528340ffffffff\n",
            "north\n-\n",
            "",
        ),
    ),
    // a missing cell has no area, and no answer
    (
        NAMED,
        Absent::Dash,
        Lists::Called,
        (
            Command::CellsToZones,
            AREAS,
            "id,cell\r\n1,862834737ffffff\r\n2,\r\n\r\n3,8528340ffffffff",
            "id,cell,area\r\n1,862834737ffffff,north\r\n2,,\r\n\r\n3,8528340ffffffff,-\r\n",
            "",
        ),
    ),
    // carriage returns and blanks around a name are no part of it, and its quotes are
    (
        Fields::Named("cell", " zone"),
        Absent::Nothing,
        Lists::Rows,
        (
            Command::CellsToZones,
            "cell,\" zone\" \r\n85283473fffffff,\"a \"\"b\"\"\" \r\n\r\n85283477fffffff, c d \r\n",
            "cell\n85283473fffffff\n85283477fffffff\n",
            "cell,\" zone\"\n85283473fffffff,\"a \"\"b\"\"\"\n85283477fffffff,c d\n",
            "",
        ),
    ),
    // a name may have a line feed between its quotes
    (
        Fields::First,
        Absent::Nothing,
        Lists::Plain,
        (
            Command::CellsToZones,
            "\"a\n,b\",85283473fffffff\n",
            "85283473fffffff,1\n,2\n8528340ffffffff,3\n",
            "85283473fffffff,1,\"a\n,b\"\n,2,\n8528340ffffffff,3,\n",
            "",
        ),
    ),
    (
        Fields::First,
        Absent::Dash,
        Lists::Bare,
        (
            Command::CellsToZones,
            "\"a\n,b\",85283473fffffff",
            "85283473fffffff\n\n85283477fffffff",
            "\"a\n,b\"\n-\n",
            "",
        ),
    ),
    // one area, whose name is as its first row has it, whatever its quotes are
    (
        Fields::First,
        Absent::Nothing,
        Lists::Bare,
        (
            Command::CellsToZones,
            "a,85283473fffffff\n\"a\",85283477fffffff\n",
            "85283477fffffff\n85283473fffffff\n",
            "a\na\n",
            "",
        ),
    ),
    // the cells of one area may repeat and overlap
    (
        Fields::First,
        Absent::Nothing,
        Lists::Bare,
        (
            Command::CellsToZones,
            "a,85283473fffffff\nb,8009fffffffffff\na,8428347ffffffff\na,85283473fffffff\n",
            "85283477fffffff\n8109bffffffffff\n85283473fffffff\n8528340ffffffff\n",
            "a\nb\na\n\n",
            "",
        ),
    ),
    // an area may have an empty name
    (
        Fields::First,
        Absent::Dash,
        Lists::Bare,
        (
            Command::CellsToZones,
            ",85283473fffffff\n",
            "85283473fffffff\n85283477fffffff\n",
            "\n-\n",
            "",
        ),
    ),
    (
        Fields::Third,
        Absent::Nothing,
        Lists::Rows,
        (
            Command::CellsToZones,
            "85283473fffffff,1,\"a,b\"\n,2\n85283477fffffff,3,c,4\n",
            "cell\n85283477fffffff\n85283473fffffff\n",
            "cell,zone\n85283477fffffff,c\n85283473fffffff,\"a,b\"\n",
            "",
        ),
    ),
    // a table without areas
    (
        NAMED,
        Absent::Dash,
        Lists::Bare,
        (Command::CellsToZones, "zone,cell\na,\n", CELL, "-\n", ""),
    ),
    (
        Fields::First,
        Absent::Dash,
        Lists::Bare,
        (Command::CellsToZones, "", CELL, "-\n", ""),
    ),
    (
        NAMED,
        Absent::Nothing,
        Lists::Bare,
        (
            Command::CellsToZones,
            AREAS,
            "85283473fffffff\n81087ffffffffff\n",
            "north\n",
            "line 2: error 5: E_CELL_INVALID\n",
        ),
    ),
    (
        NAMED,
        Absent::Nothing,
        Lists::Plain,
        (
            Command::CellsToZones,
            AREAS,
            "85283477fffffff,1\nx,2\n",
            "85283477fffffff,1,\"south, old\"\n",
            "line 2: error 1: E_FAILED: not an index\n",
        ),
    ),
    (
        NAMED,
        Absent::Dash,
        Lists::Kept,
        (
            Command::CellsToZones,
            AREAS,
            "85283477fffffff,1\nx,2\n8528340ffffffff,3\n",
            "85283477fffffff,1,\"south, old\"\nx,2,\n8528340ffffffff,3,-\n",
            "line 2: error 1: E_FAILED: not an index\n",
        ),
    ),
    (
        NAMED,
        Absent::Nothing,
        Lists::Rows,
        (
            Command::CellsToZones,
            "zone,cell\na,8428347ffffffff\n",
            "cell\n8528347bfffffff\n",
            "cell,zone\n8528347bfffffff,a\n",
            "",
        ),
    ),
];

/// Lists that are not read, since their table is refused, with the status.
static REFUSED: [(Case, u8); 9] = [
    (
        (
            NAMED,
            Absent::Nothing,
            Lists::Rows,
            (
                Command::CellsToZones,
                "zone,cell\nnorth,85283473fffffff\n\"south, old\",85283477fffffff\n\
                 north,85283473fffffff\nnone,\nall,8428347ffffffff\n",
                ROWS,
                "",
                "zones: error 10: E_DUPLICATE_INPUT\n",
            ),
        ),
        1,
    ),
    // one cell in two areas
    (
        (
            Fields::First,
            Absent::Nothing,
            Lists::Bare,
            (
                Command::CellsToZones,
                "a,85283473fffffff\nA,85283473fffffff\n",
                "xyz\n",
                "",
                "zones: error 10: E_DUPLICATE_INPUT\n",
            ),
        ),
        1,
    ),
    // a faulty row comes before an overlap
    (
        (
            Fields::First,
            Absent::Nothing,
            Lists::Bare,
            (
                Command::CellsToZones,
                "a,85283473fffffff\nb,85283473fffffff\nc,x\n",
                CELL,
                "",
                "zones: line 3: error 1: E_FAILED: not an index\n",
            ),
        ),
        1,
    ),
    (
        (
            Fields::Named("cells", "zones"),
            Absent::Nothing,
            Lists::Bare,
            (
                Command::CellsToZones,
                AREAS,
                CELL,
                "",
                "zones: column: not found\n",
            ),
        ),
        3,
    ),
    (
        (
            Fields::Named("cell", "zones"),
            Absent::Nothing,
            Lists::Bare,
            (
                Command::CellsToZones,
                AREAS,
                CELL,
                "",
                "zones: column: not found\n",
            ),
        ),
        3,
    ),
    (
        (
            NAMED,
            Absent::Nothing,
            Lists::Bare,
            (
                Command::CellsToZones,
                "zone,cell,zone\na,85283473fffffff,b\n",
                CELL,
                "",
                "zones: column: not unique\n",
            ),
        ),
        3,
    ),
    (
        (
            NAMED,
            Absent::Nothing,
            Lists::Bare,
            (
                Command::CellsToZones,
                "\n",
                CELL,
                "",
                "zones: column: not found\n",
            ),
        ),
        3,
    ),
    // a row that has a cell and no field for the name
    (
        (
            Fields::Third,
            Absent::Nothing,
            Lists::Bare,
            (
                Command::CellsToZones,
                ",1\n85283473fffffff,2\n",
                CELL,
                "",
                "zones: line 2: error 1: E_FAILED: no such field\n",
            ),
        ),
        1,
    ),
    (
        (
            Fields::First,
            Absent::Nothing,
            Lists::Bare,
            (
                Command::CellsToZones,
                "\"a\nb\",85283473fffffff\nc,81087ffffffffff\n",
                CELL,
                "",
                "zones: line 3: error 5: E_CELL_INVALID\n",
            ),
        ),
        1,
    ),
];

/// The new column may not have the name of one that is there.
const IN_USE: Case = (
    NAMED,
    Absent::Nothing,
    Lists::Rows,
    (
        Command::CellsToZones,
        AREAS,
        "cell,\"zone\"\n85283473fffffff,1\n",
        "",
        "column: in use\n",
    ),
);

/// Whether a list is answered as its case says, in pieces of each size, after its table is read whole.
fn answers(alloc: Global, case: &Case) -> Result<bool, AllocError> {
    let row = &case.3;
    let status = u8::from(!row.4.is_empty());
    for most in &PIECES {
        let ran = run(alloc, case, *most, WELL)?;
        let read = ran.file_pulls == pulls_to_end(row.1, *most) && ran.list_pulls > 0;
        if !read || !ran.is(row.3, row.4, status) {
            return Ok(false);
        }
    }
    Ok(true)
}

/// Whether a table is refused with this status, in pieces of each size, and the list and the output are
/// left alone.
fn refuses(alloc: Global, case: &Case, status: u8) -> Result<bool, AllocError> {
    let row = &case.3;
    for most in &PIECES {
        let ran = run(alloc, case, *most, WELL)?;
        let alone = ran.list_pulls == 0 && ran.out.calls() == 0;
        if !alone || !ran.is(row.3, row.4, status) {
            return Ok(false);
        }
    }
    Ok(true)
}

/// Whether a fault at each pull of the table ends the run before the list is read.
fn stops_at_the_table(alloc: Global, case: &Case) -> Result<bool, AllocError> {
    for pull in 0..pulls_to_end(case.3.1, 16) {
        let file = Faults::From(pull);
        let ran = run(alloc, case, 16, Failing { file, ..WELL })?;
        let stopped = ran.is("", "fault: read\n", 4) && ran.out.calls() == 0;
        if !stopped || ran.list_pulls > 0 || ran.file_pulls != pull.saturating_add(1) {
            return Ok(false);
        }
    }
    Ok(true)
}

/// Whether a fault at each pull of the list, or at each push and flush, ends the run after a beginning of
/// the output.
fn stops_at_the_list(alloc: Global, case: &Case) -> Result<bool, AllocError> {
    let output = case.3.3.as_bytes();
    for call in 0..pulls_to_end(case.3.2, 16) {
        let list = Faults::From(call);
        let ran = run(alloc, case, 16, Failing { list, ..WELL })?;
        if ran.status != 4 || !output.starts_with(ran.out.bytes()) {
            return Ok(false);
        }
    }
    let calls = run(alloc, case, 16, WELL)?.out.calls();
    for call in 0..calls {
        let out = Faults::From(call);
        let ran = run(alloc, case, 16, Failing { out, ..WELL })?;
        if ran.status != 4 || !output.starts_with(ran.out.bytes()) {
            return Ok(false);
        }
    }
    Ok(true)
}

#[test]
fn cells_are_answered_by_the_names_of_their_areas(rt: HostRuntime) {
    for (number, case) in ANSWERED.iter().enumerate() {
        expect_row(&rt, number, matches!(answers(rt.alloc(), case), Ok(true)));
    }
}

#[test]
fn areas_are_judged_before_lists(rt: HostRuntime) {
    for (number, (case, status)) in REFUSED.iter().enumerate() {
        let right = refuses(rt.alloc(), case, *status);
        expect_row(&rt, number, matches!(right, Ok(true)));
    }
}

#[test]
fn a_stream_that_fails_ends_the_answers(rt: HostRuntime) {
    for (number, case) in ANSWERED[..3].iter().enumerate() {
        let table = stops_at_the_table(rt.alloc(), case);
        let list = stops_at_the_list(rt.alloc(), case);
        let right = matches!((table, list), (Ok(true), Ok(true)));
        expect_row(&rt, number, right);
    }
}

/// Whether the name of a column that is there is not taken again.
fn is_in_use(alloc: Global) -> Result<bool, AllocError> {
    let ran = run(alloc, &IN_USE, 16, WELL)?;
    Ok(ran.is("", "column: in use\n", 3))
}

#[test]
fn the_name_of_a_new_column_is_compared_by_its_text(rt: HostRuntime) {
    expect_row(&rt, 0, matches!(is_in_use(rt.alloc()), Ok(true)));
}
