//! Tables of areas that are read from a source.

ghost use Rattle.std.specs.Prelude.{◌≡◌, true};
ghost use Rattle.h3_requests.specs.Rows.{is_counted};

use crate::expected::{expect, expect_row};
use h3_fakes::{Faults, FaultySource};
use h3_lines::{AnswerError, ColumnError, Fault, RowError, RowFault, RunError};
use h3_requests::{CellField, RowOptions, TableOptions};
use h3_rows::{AreaTable, read_areas};
use std::alloc::{AllocError, Global};

/// Which fields of a table, whose separator is a comma and in which quotes count, have cells and names.
#[derive(Clone, Copy)]
enum Columns {
    /// Those that a header names `cell` and `zone`.
    Headed,

    /// The second and the first, without a header.
    Plain,

    /// The first and the second, without a header.
    NameAfter,

    /// The second, and the one that a header names `zone`.
    NameHeaded,
}

/// How rows are read whose cell is in this field.
fn rows(field: CellField, has_header: bool) -> RowOptions
    requires { is_counted field ≡ true }
{
    RowOptions {
        field,
        has_header,
        separator: b',',
        quotes: true,
        name: None,
        keeps_going: false,
        shows_errors: false,
        is_ragged: false,
    }
}

/// How a table with these columns is read.
fn table(alloc: Global, columns: Columns) -> Result<TableOptions, AllocError> {
    match columns {
        Columns::Headed => {
            let cell = CellField::Column(String::from_str(alloc, "cell")?);
            let name = CellField::Column(String::from_str(alloc, "zone")?);
            Ok(TableOptions {
                rows: rows(cell, true),
                name,
            })
        }
        Columns::Plain => Ok(TableOptions {
            rows: rows(CellField::Number(2), false),
            name: CellField::Number(1),
        }),
        Columns::NameAfter => Ok(TableOptions {
            rows: rows(CellField::Number(1), false),
            name: CellField::Number(2),
        }),
        Columns::NameHeaded => Ok(TableOptions {
            rows: rows(CellField::Number(2), false),
            name: CellField::Column(String::from_str(alloc, "zone")?),
        }),
    }
}

/// Reads a table from a source that gives at most `most` bytes a pull and fails after `calls` pulls.
fn read(
    alloc: Global,
    columns: Columns,
    list: &str,
    most: usize,
    calls: u64,
) -> Result<AreaTable, RunError> {
    let Ok(table) = table(alloc, columns) else {
        return Err(RunError::Fault(Fault::Memory));
    };
    let mut source = FaultySource::new(list.as_bytes(), most, Faults::From(calls));
    read_areas(alloc, &table.rows, &table.name, &mut source)
}

/// The columns of a table, its bytes, the name in its header, the names of its areas, its cells with the
/// numbers of these, and the number of each area's first row.
type Table = (
    Columns,
    &'static str,
    &'static str,
    &'static [&'static str],
    &'static [(u64, u32)],
    &'static [u64],
);

/// Whether areas have these names, and no other.
fn have_names(areas: &AreaTable, names: &[&str]) -> bool {
    for (number, name) in names.iter().enumerate() {
        match areas.names.get(number) {
            Some(bytes) if bytes == name.as_bytes() => {}
            _ => return false,
        }
    }
    areas.names.get(names.len()).is_none()
}

/// Whether areas have these cells, in this order.
fn have_cells(areas: &AreaTable, cells: &[(u64, u32)]) -> bool {
    for ((cell, number), (raw, place)) in areas.cells.iter().zip(cells) {
        if cell.raw() != *raw || *number != *place {
            return false;
        }
    }
    areas.cells.len() == cells.len()
}

/// Whether areas have this name of the column of names; an empty one where there is none.
fn has_title(areas: &AreaTable, title: &str) -> bool {
    match &areas.title {
        Some(bytes) => bytes.as_slice() == title.as_bytes(),
        None => title.is_empty(),
    }
}

/// How many bytes a pull gives at most.
static PIECES: [usize; 3] = [1, 7, 65536];

/// Whether a table is read so, in pieces of each of these sizes.
fn is_read(alloc: Global, table: &Table) -> bool {
    let (columns, list, title, names, cells, rows) = *table;
    for most in &PIECES {
        match read(alloc, columns, list, *most, 1000) {
            Ok(areas) => {
                if !has_title(&areas, title)
                    || !have_names(&areas, names)
                    || !have_cells(&areas, cells)
                    || areas.rows.as_slice() != rows
                {
                    return false;
                }
            }
            Err(_) => return false,
        }
    }
    true
}

const P: u64 = 0x85283473fffffff;

const Q: u64 = 0x85283477fffffff;

/// Tables, and their areas.
static TABLES: [Table; 11] = [
    (
        Columns::Headed,
        "zone,cell\nnorth,85283473fffffff\n\"south, old\",85283477fffffff\nnorth,85283473fffffff\nnone,\n",
        "zone",
        &["north", "\"south, old\""],
        &[(P, 0), (Q, 1), (P, 0)],
        &[2, 3],
    ),
    // two spellings of a name, and three areas
    (
        Columns::Plain,
        "\"a\",85283473fffffff\n a\t,85283477fffffff\nb,85283477fffffff\nc,85283473fffffff\nb,85283473fffffff\n",
        "",
        &["\"a\"", "b", "c"],
        &[(P, 0), (Q, 0), (Q, 1), (P, 2), (P, 1)],
        &[1, 3, 4],
    ),
    // blanks around names, and at the end of a row
    (
        Columns::NameAfter,
        "85283473fffffff,\t a b \r\r\n85283477fffffff,\" a b\" \r\n",
        "",
        &["a b", "\" a b\""],
        &[(P, 0), (Q, 1)],
        &[1, 2],
    ),
    // rows without a cell say nothing
    (
        Columns::NameAfter,
        "\n \n,x\n85283473fffffff,y",
        "",
        &["y"],
        &[(P, 0)],
        &[4],
    ),
    // a byte order mark is in no name
    (
        Columns::Plain,
        "\u{feff}a,85283473fffffff\na,85283477fffffff\n",
        "",
        &["a"],
        &[(P, 0), (Q, 0)],
        &[1],
    ),
    (
        Columns::Headed,
        "\n\u{feff}x, \"zone\" ,cell\n1,a,85283473fffffff\n",
        "\"zone\"",
        &["a"],
        &[(P, 0)],
        &[3],
    ),
    // alone in the first row it leaves that empty
    (
        Columns::Headed,
        "\u{feff}\nzone,cell\na,85283473fffffff\n",
        "zone",
        &["a"],
        &[(P, 0)],
        &[3],
    ),
    (
        Columns::NameHeaded,
        "zone,x\na,\n b,85283473fffffff\n",
        "zone",
        &["b"],
        &[(P, 0)],
        &[3],
    ),
    // a line feed in a name, and a name of no byte
    (
        Columns::Plain,
        "\"a\nb\",85283473fffffff\n,85283477fffffff\n",
        "",
        &["\"a\nb\"", ""],
        &[(P, 0), (Q, 1)],
        &[1, 3],
    ),
    // plain rows between others
    (
        Columns::Plain,
        "north,85283473fffffff\nnorth,85283477fffffff\n\"a\nb\",85283473fffffff\r\n south ,85283477fffffff\n\
         south,85283473fffffff\nnorth,\n\nsouth,85283473FFFFFFF\neast,85283477fffffff\r\n\
         end of the list,85283473fffffff\n",
        "",
        &["north", "\"a\nb\"", "south", "east", "end of the list"],
        &[
            (P, 0),
            (Q, 0),
            (P, 1),
            (Q, 2),
            (P, 2),
            (P, 2),
            (Q, 3),
            (P, 4),
        ],
        &[1, 3, 5, 10, 11],
    ),
    (Columns::Plain, "", "", &[], &[], &[]),
];

#[test]
fn areas_are_read(rt: HostRuntime) {
    for (row, table) in TABLES.iter().enumerate() {
        expect_row(&rt, row, is_read(rt.alloc(), table));
    }
}

/// Whether a table, read so, is refused with this error.
fn refuses(
    alloc: Global,
    columns: Columns,
    list: &str,
    most: usize,
    calls: u64,
    error: RunError,
) -> bool {
    match read(alloc, columns, list, most, calls) {
        Ok(_) => false,
        Err(refusal) => refusal == error,
    }
}

/// Tables that are not read, and their errors.
static FAULTY: [(Columns, &str, AnswerError); 10] = [
    (
        Columns::NameAfter,
        "85283473fffffff,a\n85283473fffffff\n",
        AnswerError::AtRow(2, RowError::Bad(RowFault::NoSuchField)),
    ),
    (
        Columns::NameAfter,
        "xyz\n",
        AnswerError::AtRow(1, RowError::Bad(RowFault::NoSuchField)),
    ),
    (
        Columns::NameAfter,
        "85283473fffffff,a\n\nxyz,b\n",
        AnswerError::AtRow(3, RowError::Bad(RowFault::NotAnIndex)),
    ),
    (
        Columns::Headed,
        "zone,cell\na,85283473fffffff,x\n",
        AnswerError::AtRow(2, RowError::Bad(RowFault::FieldCount(3, 2))),
    ),
    (
        Columns::Plain,
        "a,85283473fffffff\n5\" pipe\",\n",
        AnswerError::AtRow(2, RowError::Bad(RowFault::StrayQuote)),
    ),
    (
        Columns::Headed,
        "area,index\n",
        AnswerError::Column(ColumnError::NotFound),
    ),
    (
        Columns::Headed,
        "cell,cell\n",
        AnswerError::Column(ColumnError::NotUnique),
    ),
    (
        Columns::Headed,
        "cell,zone,\"zone\"\n",
        AnswerError::Column(ColumnError::NotUnique),
    ),
    (
        Columns::Headed,
        "\n",
        AnswerError::Column(ColumnError::NotFound),
    ),
    (
        Columns::NameHeaded,
        "",
        AnswerError::Column(ColumnError::NotFound),
    ),
];

#[test]
fn the_first_faulty_row_of_a_table_decides(rt: HostRuntime) {
    for (row, (columns, list, error)) in FAULTY.iter().enumerate() {
        let error = RunError::Error(*error);
        let is_right = refuses(rt.alloc(), *columns, list, 1, 1000, error)
            && refuses(rt.alloc(), *columns, list, 65536, 1000, error);
        expect_row(&rt, row, is_right);
    }
}

#[test]
fn a_table_whose_read_fails_is_a_read_fault(rt: HostRuntime) {
    let list = "a,85283473fffffff\n";
    let error = RunError::Fault(Fault::Read);
    let is_right = refuses(rt.alloc(), Columns::Plain, list, 5, 0, error)
        && refuses(rt.alloc(), Columns::Plain, list, 5, 2, error);
    expect(&rt, "a read that fails", is_right);
}
