//! Tables of numbers that are read from a source.

ghost use Rattle.std.specs.Prelude.{◌≡◌, ◌<◌, ⊤, true, IfSome};
ghost use Rattle.h3_lines.specs.declared.run_error.Fault.TheVariants.{Memory};
ghost use Rattle.h3_lines.specs.declared.run_error.RunError.TheVariants as refusal;
ghost use Rattle.h3_numbers.specs.Sum.{sum_count};
ghost use Rattle.h3_requests.specs.Rows.{is_counted};

use crate::expected::expect_row;
use h3_fakes::{Faults, FaultySource};
use h3_index::{Cell, H3Error};
use h3_lines::{AnswerError, ColumnError, Fault, RowError, RowFault, RunError};
use h3_numbers::{MAX_SUM_LEN, Number, Sum, write_sum};
use h3_requests::{CellField, RowOptions};
use h3_rows::{FieldContent, NamedJob, field_number, take_named_cells};
use std::alloc::Global;

/// Which fields of a table, whose separator is a comma and in which quotes count, have cells and numbers.
#[derive(Clone, Copy)]
enum Columns {
    /// Those that a header names `cell` and `amount`.
    Headed,

    /// The same, and rows may have another number of fields than the header.
    Ragged,

    /// The first and the second, without a header.
    Plain,
}

/// What was taken of a table: the rows of its entries, and the sum of their numbers.
#[derive(Drop)]
struct Amounts {
    rows: Vec<u64>,
    sum: Sum,
}

/// The error of want of memory.
fn no_memory() -> RunError
    ensures { result ≡ refusal.Fault Memory }
{
    RunError::Fault(Fault::Memory)
}

impl NamedJob for Amounts {
    ghost count = { λ v. sum_count v.sum };

    ghost taken = { λ v entries w. ⊤ };

    fn take(
        &mut self,
        cell: Option<Cell>,
        field: &[u8],
        known: Option<Number>,
        row: u64,
    ) -> Result<(), RunError> {
        if self.rows.push(row).is_err() {
            return Err(no_memory());
        }
        if cell.is_none() {
            return Ok(());
        }
        match known.or(field_number(true, field)) {
            Some(number) => self.sum = self.sum.plus(number),
            None => {}
        }
        Ok(())
    }

    ghost none_taken = { λ v. tt };

    ghost taken_then = { λ u v w xs ys p q. tt };
}

/// Which field has the cells, or the numbers.
fn field(alloc: Global, columns: Columns, number: u16, name: &str) -> Option<CellField>
    requires { 0 < number }
    ensures { IfSome result (λ f. is_counted f ≡ true) }
{
    match columns {
        Columns::Plain => Some(CellField::Number(number)),
        Columns::Headed | Columns::Ragged => match String::from_str(alloc, name) {
            Ok(name) => Some(CellField::Column(name)),
            Err(_) => None,
        },
    }
}

/// Reads a table from a source that gives at most `most` bytes a pull.
fn read(alloc: Global, columns: Columns, list: &str, most: usize) -> Result<Amounts, RunError> {
    let Some(cell) = field(alloc, columns, 1, "cell") else {
        return Err(no_memory());
    };
    let Some(amount) = field(alloc, columns, 2, "amount") else {
        return Err(no_memory());
    };
    let rows = RowOptions {
        field: cell,
        has_header: !matches!(columns, Columns::Plain),
        separator: b',',
        quotes: true,
        name: None,
        keeps_going: false,
        shows_errors: false,
        is_ragged: matches!(columns, Columns::Ragged),
    };
    let job = Amounts {
        rows: Vec::new(alloc),
        sum: Sum::new(),
    };
    let mut source = FaultySource::new(list.as_bytes(), most, Faults::From(1000));
    take_named_cells(
        alloc,
        job,
        &rows,
        &amount,
        FieldContent::Number,
        &mut source,
    )
}

/// How many bytes a pull gives at most.
static PIECES: [usize; 3] = [1, 7, 65536];

/// The columns of a table, its bytes, the rows of its entries, and the sum of their numbers.
type Table = (Columns, &'static str, &'static [u64], &'static str);

/// Whether a table is read so, in pieces of each of these sizes.
fn is_read(alloc: Global, table: &Table) -> bool {
    let (columns, list, rows, sum) = *table;
    for most in &PIECES {
        let Ok(amounts) = read(alloc, columns, list, *most) else {
            return false;
        };
        let mut text = [0; MAX_SUM_LEN];
        let end = write_sum(amounts.sum, &mut text);
        if amounts.rows.as_slice() != rows || &text[..end] != sum.as_bytes() {
            return false;
        }
    }
    true
}

/// Tables, the rows of their entries and their sums.
static TABLES: [Table; 9] = [
    // a header; a row without a cell has no entry, whatever its number is
    (
        Columns::Headed,
        "id,cell,amount\n1,85283473fffffff,1.50\n2,,x\n3,85283477fffffff,-0.5\n\n4,85283477fffffff,+2\n",
        &[1, 2, 4, 6],
        "3",
    ),
    // blank numbers, in quotes or not, and numbers in quotes, or with blanks around them
    (
        Columns::Plain,
        "85283473fffffff,\n85283473fffffff, \t\n85283473fffffff,\" \"\n85283473fffffff,\"2.25\"\n",
        &[1, 2, 3, 4],
        "2.25",
    ),
    (
        Columns::Plain,
        "85283473fffffff, 7 \r\n85283473fffffff, \"-10\" \n",
        &[1, 2],
        "-3",
    ),
    // line feeds in quotes count
    (
        Columns::Plain,
        "85283473fffffff,1,\"a\nb\n\"\n85283473fffffff,2\n",
        &[1, 4],
        "3",
    ),
    // as many digits as a number may have
    (
        Columns::Plain,
        "85283473fffffff,-123456789012345678.987654321098765432\n85283473fffffff,000000000000000000.10",
        &[1, 2],
        "-123456789012345678.887654321098765432",
    ),
    // a byte order mark, and a header alone
    (
        Columns::Headed,
        "\u{feff}cell,amount\n85283473fffffff,1\n",
        &[1, 2],
        "1",
    ),
    (Columns::Headed, "cell,amount\n", &[1], "0"),
    // a row without a cell and a field for the number
    (
        Columns::Ragged,
        "cell,amount\n\n \n85283473fffffff,0.1,x\n85283477fffffff,0.2\n",
        &[1, 4, 5],
        "0.3",
    ),
    // plain rows between others
    (
        Columns::Plain,
        "85283473fffffff,1\n85283477fffffff,0.25\r\n85283473fffffff, -3 \n85283477fffffff,\"4\"\n,5\n\n\
         85283473FFFFFFF,6\n85283473fffffff,-0.5,more\n85283473fffffff,\n85283477fffffff,7\n",
        &[1, 2, 3, 4, 7, 8, 9, 10],
        "14.75",
    ),
];

#[test]
fn numbers_of_tables_are_read(rt: HostRuntime) {
    for (row, table) in TABLES.iter().enumerate() {
        expect_row(&rt, row, is_read(rt.alloc(), table));
    }
}

/// Tables that are not read, and their errors.
static FAULTY: [(Columns, &str, AnswerError); 11] = [
    (
        Columns::Plain,
        "85283473fffffff,1\n85283473fffffff\n",
        AnswerError::AtRow(2, RowError::NotANumber),
    ),
    (
        Columns::Ragged,
        "cell,amount\n85283473fffffff\n",
        AnswerError::AtRow(2, RowError::NotANumber),
    ),
    // an error of the cell comes first, and so does another number of fields than the header's
    (
        Columns::Plain,
        "xyz,.\n",
        AnswerError::AtRow(1, RowError::Bad(RowFault::NotAnIndex)),
    ),
    (
        Columns::Plain,
        "0\n",
        AnswerError::AtRow(1, RowError::Call(H3Error::CellInvalid)),
    ),
    (
        Columns::Headed,
        "cell,amount\n85283473fffffff\n",
        AnswerError::AtRow(2, RowError::Bad(RowFault::FieldCount(1, 2))),
    ),
    (
        Columns::Plain,
        "85283473fffffff,5\" pipe\n",
        AnswerError::AtRow(1, RowError::Bad(RowFault::OpenQuote)),
    ),
    // after and before plain rows
    (
        Columns::Plain,
        "85283473fffffff,1\n85283473fffffff,2\n85283473fffffff,x\n85283473fffffff,4, and more\n",
        AnswerError::AtRow(3, RowError::NotANumber),
    ),
    (
        Columns::Plain,
        "85283473fffffff,1\n85283473fffffff,2\n81087ffffffffff,3\n85283473fffffff,4, and more\n",
        AnswerError::AtRow(3, RowError::Call(H3Error::CellInvalid)),
    ),
    // the column of the cells is looked for first
    (
        Columns::Headed,
        "cell,cell\n",
        AnswerError::Column(ColumnError::NotUnique),
    ),
    (
        Columns::Headed,
        "cell,sum\n",
        AnswerError::Column(ColumnError::NotFound),
    ),
    (
        Columns::Headed,
        "cell,amount,\"amount\"\n",
        AnswerError::Column(ColumnError::NotUnique),
    ),
];

/// Whether a table is refused with this error, in pieces of this size.
fn refuses(alloc: Global, columns: Columns, list: &str, most: usize, error: RunError) -> bool {
    match read(alloc, columns, list, most) {
        Ok(_) => false,
        Err(refusal) => refusal == error,
    }
}

#[test]
fn the_first_faulty_row_of_numbers_decides(rt: HostRuntime) {
    for (row, (columns, list, error)) in FAULTY.iter().enumerate() {
        let error = RunError::Error(*error);
        let is_right = refuses(rt.alloc(), *columns, list, 1, error)
            && refuses(rt.alloc(), *columns, list, 65536, error);
        expect_row(&rt, row, is_right);
    }
}

/// Rows whose second field is not a number.
static OTHERS: [&str; 14] = [
    "85283473fffffff,.",
    "85283473fffffff,1.",
    "85283473fffffff,.5",
    "85283473fffffff,1e3",
    "85283473fffffff,0x1",
    "85283473fffffff,-",
    "85283473fffffff,+-1",
    "85283473fffffff,1 2",
    "85283473fffffff,\" 1\"",
    "85283473fffffff,1234567890123456789",
    "85283473fffffff,1.0000000000000000000",
    "85283473fffffff,1.2.3",
    "85283473fffffff,nan",
    "85283473fffffff,\"1\"\"\"",
];

#[test]
fn a_field_that_is_not_a_number_is_an_error(rt: HostRuntime) {
    let error = RunError::Error(AnswerError::AtRow(1, RowError::NotANumber));
    for (row, list) in OTHERS.iter().enumerate() {
        let is_right = refuses(rt.alloc(), Columns::Plain, list, 65536, error);
        expect_row(&rt, row, is_right);
    }
}
