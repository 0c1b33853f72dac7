//! The cells of rows counted by their ancestors at a resolution, with the sum of a field or without.

ghost use Rattle.std.specs.Prelude.{◌≡◌, IfOk};

use crate::expected::expect_row;
use crate::files::{Failing, FileRow, PIECES, WELL, over_tables};
use h3_fakes::Faults;
use h3_requests::{CellField, Command, RowOptions, Tables};
use std::alloc::{AllocError, Global};

/// Which fields of the rows are read.
#[derive(Clone, Copy)]
enum Columns {
    /// Under a header the cells of the column `cell`.
    Named,

    /// The same, and the numbers of the column `amount`.
    NamedSums,

    /// Without a header the cells of the first field.
    Numbered,

    /// The same, and the numbers of the second field.
    NumberedSums,

    /// Under a header the cells of the first field.
    Headed,

    /// The same, and the numbers of the second field.
    HeadedSums,

    /// The same, and the numbers of the column `amount`.
    HeadedSumsByName,
}

/// The options of the list's rows.
fn rows(alloc: Global, columns: Columns) -> Result<RowOptions, AllocError>
    ensures { IfOk result (λ rows. rows.separator ≡ 44) }
{
    let field = match columns {
        Columns::Named | Columns::NamedSums => {
            CellField::Column(String::from_str(alloc, "cell")?)
        }
        _ => CellField::Number(1),
    };
    Ok(RowOptions {
        field,
        has_header: !matches!(columns, Columns::Numbered | Columns::NumberedSums),
        separator: b',',
        quotes: true,
        name: None,
        keeps_going: false,
        shows_errors: false,
        is_ragged: false,
    })
}

/// The options of the list.
fn tables(alloc: Global, columns: Columns) -> Result<Tables, AllocError> {
    let list = Some(rows(alloc, columns)?);
    match columns {
        Columns::NamedSums | Columns::HeadedSumsByName => Ok(Tables {
            list,
            sum: Some(CellField::Column(String::from_str(alloc, "amount")?)),
            by: None,
            file: None,
            areas: None,
        }),
        Columns::NumberedSums | Columns::HeadedSums => Ok(Tables {
            list,
            sum: Some(CellField::Number(2)),
            by: None,
            file: None,
            areas: None,
        }),
        Columns::Named | Columns::Numbered | Columns::Headed => Ok(Tables {
            list,
            sum: None,
            by: None,
            file: None,
            areas: None,
        }),
    }
}

/// Rows of points: two in one cell, one in another, and one without a cell.
const POINTS: &str =
    "id,cell,amount\n1,85283473fffffff,1.50\n2,85283477fffffff,2\n3,8528340ffffffff,-0.5\n4,,7\n";

/// Lists of rows, and their counts or the error. No file is read.
static ROWS: [(Columns, FileRow); 34] = [
    (
        Columns::NamedSums,
        (
            Command::CountCellsInParents { res: 4 },
            "",
            POINTS,
            "cell,count,amount\n8428341ffffffff,1,-0.5\n8428347ffffffff,2,3.5\n",
            "",
        ),
    ),
    (
        Columns::Named,
        (
            Command::CountCellsInParents { res: 4 },
            "",
            POINTS,
            "cell,count\n8428341ffffffff,1\n8428347ffffffff,2\n",
            "",
        ),
    ),
    (
        Columns::Named,
        (
            Command::CountCellsInParents { res: 0 },
            "",
            POINTS,
            "cell,count\n8029fffffffffff,3\n",
            "",
        ),
    ),
    (
        Columns::Numbered,
        (
            Command::CountCellsInParents { res: 4 },
            "",
            "85283473fffffff,.\n862834707ffffff,x\n\n8528340ffffffff,\n",
            "8428341ffffffff,1\n8428347ffffffff,2\n",
            "",
        ),
    ),
    (
        Columns::NumberedSums,
        (
            Command::CountCellsInParents { res: 4 },
            "",
            "85283473fffffff,0.1\n862834707ffffff,0.2\n8528340ffffffff,\n85283477fffffff,-0.3\n",
            "8428341ffffffff,1,0\n8428347ffffffff,3,0\n",
            "",
        ),
    ),
    (
        Columns::Headed,
        (
            Command::CountCellsInParents { res: 5 },
            "",
            "where,amount\n85283477fffffff,1\n85283473fffffff,2\n",
            "cell,count\n85283473fffffff,1\n85283477fffffff,1\n",
            "",
        ),
    ),
    // the title is that of the field that is added up
    (
        Columns::HeadedSums,
        (
            Command::CountCellsInParents { res: 5 },
            "",
            "where,\"paid, in all\"\t\r\n85283477fffffff,1\r\n",
            "cell,count,\"paid, in all\"\n85283477fffffff,1,1\n",
            "",
        ),
    ),
    (
        Columns::HeadedSumsByName,
        (
            Command::CountCellsInParents { res: 5 },
            "",
            "where,note, amount \n85283477fffffff,x,1\n85283477fffffff,y,+2.250\n",
            "cell,count,amount\n85283477fffffff,2,3.25\n",
            "",
        ),
    ),
    // blank numbers, negative ones, and those without a cell
    (
        Columns::NamedSums,
        (
            Command::CountCellsInParents { res: 4 },
            "",
            "cell,amount\n85283473fffffff,\n8528340ffffffff,-1.25\n8528340ffffffff,-2\n\
             85283477fffffff, \t\n862834707ffffff,0.125\n,x\n",
            "cell,count,amount\n8428341ffffffff,2,-3.25\n8428347ffffffff,3,0.125\n",
            "",
        ),
    ),
    // the greatest numbers, whose sum has nineteen digits on either side of its point
    (
        Columns::NumberedSums,
        (
            Command::CountCellsInParents { res: 3 },
            "",
            "85283473fffffff,999999999999999999.999999999999999999\n\
             8528340ffffffff,999999999999999999.000000000000000001\n",
            "832834fffffffff,2,1999999999999999999\n",
            "",
        ),
    ),
    (
        Columns::NumberedSums,
        (
            Command::CountCellsInParents { res: 3 },
            "",
            "85283473fffffff,-999999999999999999.999999999999999999\n\
             8528340ffffffff,-999999999999999999.999999999999999999\n",
            "832834fffffffff,2,-1999999999999999999.999999999999999998\n",
            "",
        ),
    ),
    // quotes, carriage returns, blank rows
    (
        Columns::NamedSums,
        (
            Command::CountCellsInParents { res: 4 },
            "",
            "note,amount,\"cell\"\r\n\"a, \"\"b\"\"\",\"1.5\",\"85283473fffffff\"\r\n\r\n\
             \"two\r\nlines\", 2 , 0X85283477FFFFFFF \r\n",
            "cell,count,amount\n8428347ffffffff,2,3.5\n",
            "",
        ),
    ),
    (
        Columns::Named,
        (
            Command::CountCellsInParents { res: 4 },
            "",
            "\u{feff}\"cell\",note\r\n85283473fffffff,\"x\r\ny\"\r\n8528340ffffffff,",
            "cell,count\n8428341ffffffff,1\n8428347ffffffff,1\n",
            "",
        ),
    ),
    // no cells
    (
        Columns::Named,
        (
            Command::CountCellsInParents { res: 4 },
            "",
            "id,cell\n",
            "cell,count\n",
            "",
        ),
    ),
    (
        Columns::NamedSums,
        (
            Command::CountCellsInParents { res: 4 },
            "",
            "cell,amount\n,1\n,x\n\n",
            "cell,count,amount\n",
            "",
        ),
    ),
    (
        Columns::Numbered,
        (Command::CountCellsInParents { res: 4 }, "", "", "", ""),
    ),
    (
        Columns::NumberedSums,
        (
            Command::CountCellsInParents { res: 4 },
            "",
            "\n,x\n",
            "",
            "",
        ),
    ),
    (
        Columns::Named,
        (
            Command::CountCellsInParents { res: 16 },
            "",
            "cell,a\n,1\n",
            "cell,count\n",
            "",
        ),
    ),
    (
        Columns::NamedSums,
        (
            Command::CountCellsInParents { res: -1 },
            "",
            "cell,amount\n\n,x\n",
            "cell,count,amount\n",
            "",
        ),
    ),
    // no resolution
    (
        Columns::Named,
        (
            Command::CountCellsInParents { res: 16 },
            "",
            "cell,a\n,1\n85283473fffffff,2\n",
            "",
            "line 3: error 4: E_RES_DOMAIN\n",
        ),
    ),
    (
        Columns::NumberedSums,
        (
            Command::CountCellsInParents { res: -1 },
            "",
            "85283473fffffff,.\n",
            "",
            "line 1: error 4: E_RES_DOMAIN\n",
        ),
    ),
    // the first row with an error, and its cell before its number
    (
        Columns::Named,
        (
            Command::CountCellsInParents { res: 4 },
            "",
            "id,cell\n1,85283473fffffff\n2,832834fffffffff\n3,xyz\n",
            "",
            "line 3: error 12: E_RES_MISMATCH\n",
        ),
    ),
    (
        Columns::Named,
        (
            Command::CountCellsInParents { res: 4 },
            "",
            "id,cell\n1,xyz\n2,832834fffffffff\n",
            "",
            "line 2: error 1: E_FAILED: not an index\n",
        ),
    ),
    (
        Columns::Named,
        (
            Command::CountCellsInParents { res: 4 },
            "",
            "id,cell\n\n1,81087ffffffffff\n2\n",
            "",
            "line 3: error 5: E_CELL_INVALID\n",
        ),
    ),
    (
        Columns::Named,
        (
            Command::CountCellsInParents { res: 4 },
            "",
            "id,cell\n1,85283473fffffff\n2\n3,832834fffffffff\n",
            "",
            "line 3: error 1: E_FAILED: 1 fields, the header has 2\n",
        ),
    ),
    (
        Columns::Numbered,
        (
            Command::CountCellsInParents { res: 4 },
            "",
            "85283473fffffff\n832834fffffffff\n",
            "",
            "line 2: error 12: E_RES_MISMATCH\n",
        ),
    ),
    (
        Columns::NamedSums,
        (
            Command::CountCellsInParents { res: 4 },
            "",
            "cell,amount\n85283473fffffff,1\n8528340ffffffff,.\n832834fffffffff,1\n",
            "",
            "line 3: sum: not a number\n",
        ),
    ),
    (
        Columns::NamedSums,
        (
            Command::CountCellsInParents { res: 4 },
            "",
            "cell,amount\n85283473fffffff,1\n832834fffffffff,1\n8528340ffffffff,.\n",
            "",
            "line 3: error 12: E_RES_MISMATCH\n",
        ),
    ),
    (
        Columns::NamedSums,
        (
            Command::CountCellsInParents { res: 4 },
            "",
            "cell,amount\n832834fffffffff,1e3\n",
            "",
            "line 2: error 12: E_RES_MISMATCH\n",
        ),
    ),
    (
        Columns::NamedSums,
        (
            Command::CountCellsInParents { res: 4 },
            "",
            "cell,amount\nxyz,.5\n",
            "",
            "line 2: error 1: E_FAILED: not an index\n",
        ),
    ),
    (
        Columns::NumberedSums,
        (
            Command::CountCellsInParents { res: 4 },
            "",
            "85283473fffffff,1\n85283477fffffff\n",
            "",
            "line 2: sum: not a number\n",
        ),
    ),
    (
        Columns::NumberedSums,
        (
            Command::CountCellsInParents { res: 4 },
            "",
            "832834fffffffff\n",
            "",
            "line 1: error 12: E_RES_MISMATCH\n",
        ),
    ),
    (
        Columns::NumberedSums,
        (
            Command::CountCellsInParents { res: 4 },
            "",
            "85283473fffffff,1000000000000000000\n",
            "",
            "line 1: sum: not a number\n",
        ),
    ),
    (
        Columns::NumberedSums,
        (
            Command::CountCellsInParents { res: 4 },
            "",
            "85283473fffffff,1.\n832834fffffffff,1\n",
            "",
            "line 1: sum: not a number\n",
        ),
    ),
];

/// Whether a row is answered, in pieces of each size, with one flush or none, and no file is read.
fn is_answered(alloc: Global, columns: Columns, row: &FileRow) -> Result<bool, AllocError> {
    let status = u8::from(!row.4.is_empty());
    let tables = tables(alloc, columns)?;
    for most in &PIECES {
        let run = over_tables(alloc, row, Some(&tables), *most, WELL);
        let flushed = run.out.flushes() == u64::from(row.4.is_empty());
        if !flushed || run.file_pulls > 0 || !run.is(row.3, row.4, status) {
            return Ok(false);
        }
    }
    Ok(true)
}

#[test]
fn rows_are_counted_and_added_up_by_ancestors(rt: HostRuntime) {
    for (number, (columns, row)) in ROWS.iter().enumerate() {
        let right = is_answered(rt.alloc(), *columns, row);
        expect_row(&rt, number, matches!(right, Ok(true)));
    }
}

/// Whether a fault at the second pull of the list, and one at the first push of the output, ends the run with
/// nothing written.
fn stops(alloc: Global, columns: Columns, row: &FileRow) -> Result<bool, AllocError> {
    let tables = tables(alloc, columns)?;
    let list = Failing {
        list: Faults::From(1),
        ..WELL
    };
    let out = Failing {
        out: Faults::From(0),
        ..WELL
    };
    let read = over_tables(alloc, row, Some(&tables), 16, list);
    let written = over_tables(alloc, row, Some(&tables), 16, out);
    Ok(
        read.is("", "fault: read\n", 4)
            && read.out.calls() == 0
            && read.list_pulls == 2
            && written.is("", "fault: write\n", 4),
    )
}

#[test]
fn a_fault_ends_the_counts_of_rows(rt: HostRuntime) {
    for (number, (columns, row)) in ROWS.iter().take(3).enumerate() {
        let right = stops(rt.alloc(), *columns, row);
        expect_row(&rt, number, matches!(right, Ok(true)));
    }
}
