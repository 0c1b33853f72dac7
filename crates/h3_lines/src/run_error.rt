//! The errors that end a run, with the line and the exit status of each.

ghost use Rattle.std.specs.Prelude.{◌≡◌, ◌≤◌, length};
ghost use Rattle.h3_lines.specs.RunError.{error_line, error_line_at, error_words, fault_reason, file_line, link_line, numbered_line, read_fault_line, row_line, table_line};
ghost use Rattle.h3_lines.specs.declared.run_error.RowFault.TheVariants.{FieldCount};

use arrayvec::ArrayString;
use h3_directions::{Direction, TableError};
use h3_index::H3Error;
use h3_streams::StreamFault;
use itoa::Buffer;

/// The room for a line on standard error.
const LINE_ROOM: usize = 160;

/// Which file of cells an error is about.
#[derive(Clone, Copy, Debug, Eq, PartialEq)]
pub enum CellFile {
    /// The cells of a region, which may repeat and overlap.
    Region,

    /// Zones, of which no two overlap.
    Zones,
}

impl CellFile {
    ghost use Rattle.h3_lines.specs.RunError.{file_word};

    /// The word by which error lines name the file.
    fn word(self) -> &'static str
        ensures is { result.now ≡ file_word self }
        ensures short { length result.now ≤ 6 }
    {
        match self {
            CellFile::Region => "region",
            CellFile::Zones => "zones",
        }
    }
}

/// Why the columns of a header do not serve.
#[derive(Clone, Copy, Debug, Eq, PartialEq)]
pub enum ColumnError {
    /// No field has the name that was asked for, or there is no header.
    NotFound,

    /// More than one field has the name that was asked for.
    NotUnique,

    /// A field of the header has the name of a new column already.
    InUse,
}

impl ColumnError {
    ghost use Rattle.h3_lines.specs.RunError.{column_line};

    /// The line on standard error.
    fn line(&self) -> ArrayString<LINE_ROOM>
        ensures line { result.bytes ≡ column_line self.now }
        ensures short { length result.bytes ≤ 64 }
    {
        match self {
            ColumnError::NotFound => fixed_text("column: not found\n"),
            ColumnError::NotUnique => fixed_text("column: not unique\n"),
            ColumnError::InUse => fixed_text("column: in use\n"),
        }
    }
}

/// Why a row has error 1, `E_FAILED`.
#[derive(Clone, Copy, Debug, Eq, PartialEq)]
pub enum RowFault {
    /// The text of the cell's field is not an index.
    NotAnIndex,

    /// The row has fewer fields than the number of the cell's field.
    NoSuchField,

    /// The row has another number of fields than the header: the row's number, and the header's.
    FieldCount(u64, u64),

    /// A quote is inside a field.
    StrayQuote,

    /// A quote is open at the end of the row.
    OpenQuote,

    /// A carriage return is inside the row, outside quotes.
    CarriageReturn,

    /// The row is longer than 1,048,575 bytes.
    TooLong,
}

impl RowFault {
    ghost use Rattle.h3_lines.specs.RunError.{fault_reason};

    /// The reason, as error lines have it.
    fn reason(self) -> ArrayString<LINE_ROOM>
        ensures reason { result.bytes ≡ fault_reason self }
        ensures short { length result.bytes ≤ 64 }
    {
        match self {
            RowFault::NotAnIndex => fixed_text("not an index"),
            RowFault::NoSuchField => fixed_text("no such field"),
            RowFault::FieldCount(row, header) => field_count_reason(row, header),
            RowFault::StrayQuote => fixed_text("a quote inside a field"),
            RowFault::OpenQuote => fixed_text("a quote that is not closed"),
            RowFault::CarriageReturn => fixed_text("a carriage return inside a row"),
            RowFault::TooLong => fixed_text("longer than 1048575 bytes"),
        }
    }
}

/// The error of a row.
#[derive(Clone, Copy, Debug, Eq, PartialEq)]
pub enum RowError {
    /// The row has error 1, for this reason.
    Bad(RowFault),

    /// The call for the row's index gave an H3 error.
    Call(H3Error),

    /// The field of a sum is absent, or its text is not a number.
    NotANumber,
}

impl RowError {
    ghost use Rattle.h3_lines.specs.RunError.{more_words, row_error_name, row_error_words};

    /// The name of the error in H3's table of error codes; `E_FAILED` for a field that is not a number.
    pub fn name(self) -> &'static str
        ensures { result.now ≡ row_error_name self }
    {
        match self {
            RowError::Bad(_) | RowError::NotANumber => H3Error::Failed.name(),
            RowError::Call(error) => error.name(),
        }
    }

    /// The number and the name of the error, with the reason if the row is bad; for a field that is not a
    /// number, what needs it to be one.
    fn words(self) -> ArrayString<LINE_ROOM>
        ensures words { result.bytes ≡ row_error_words self }
        ensures short { length result.bytes ≤ 97 }
    {
        match self {
            RowError::Bad(fault) => {
                let mut words = error_words(H3Error::Failed);
                words.push_str(": ");
                words.push_str(fault.reason().as_str());
                words
            }
            RowError::Call(error) => error_words(error),
            RowError::NotANumber => fixed_text("sum: not a number"),
        }
    }

    /// How many errors more followed this one: no words if none did.
    fn more_words(self, more: u64) -> ArrayString<LINE_ROOM>
        ensures words { result.bytes ≡ more_words self more }
        ensures short { length result.bytes ≤ 31 }
    {
        let mut decimal = Buffer::new();
        let mut words = ArrayString::new();
        if more > 0 {
            words.push_str(match self {
                RowError::Bad(_) => ", and ",
                RowError::Call(_) | RowError::NotANumber => " and ",
            });
            words.push_str(decimal.format(more));
            words.push_str(" more");
        }
        words
    }
}

/// The error that an answer ends with.
#[derive(Clone, Copy, Debug, Eq, PartialEq)]
pub enum AnswerError {
    /// A call gave an H3 error.
    Call(H3Error),

    /// A call gave an H3 error at a line of a list. The first line is 1, and blank lines count.
    At(u64, H3Error),

    /// A row of a list has an error. The number of a row is that of its first line.
    AtRow(u64, RowError),

    /// Rows of a list have errors, and the run went on: the number of the first such row, its error,
    /// and how many more rows followed that had one.
    AtRowAndMore(u64, RowError, u64),

    /// The columns of the header do not serve.
    Column(ColumnError),

    /// An error of the base cell table: of its records or its checks. A read that failed and out of
    /// memory are faults.
    Table(TableError),

    /// A line of a file of cells is faulty. The first line is 1, and blank lines count.
    FileAt(CellFile, u64, H3Error),

    /// A row of a file of cells has an error. The number of a row is that of its first line.
    FileAtRow(CellFile, u64, RowError),

    /// The columns of the header of a file of cells do not serve.
    FileColumn(CellFile, ColumnError),

    /// A file of cells gave an H3 error as a whole.
    File(CellFile, H3Error),
}

/// What the system refused, whatever the answer is.
#[derive(Clone, Copy, Debug, Eq, PartialEq)]
pub enum Fault {
    /// Out of memory, which H3 has an error for.
    Memory,

    /// A read failed.
    Read,

    /// A write failed.
    Write,
}

/// Why a run ends with another status than 0.
#[derive(Clone, Copy, Debug, PartialEq, Eq)]
pub enum RunError {
    /// The answer ends with an error.
    Error(AnswerError),

    /// The answer is cut short by a fault.
    Fault(Fault),
}

impl AnswerError {
    ghost use Rattle.h3_lines.specs.RunError.{answer_error_line, answer_error_status};

    /// The line on standard error.
    fn line(&self) -> ArrayString<LINE_ROOM>
        ensures { result.bytes ≡ answer_error_line self.now }
    {
        match self {
            AnswerError::Call(error) => error_line(*error),
            AnswerError::At(line, error) => error_line_at(*line, *error),
            AnswerError::AtRow(row, error) => row_line(*row, *error, 0),
            AnswerError::AtRowAndMore(row, error, more) => row_line(*row, *error, *more),
            AnswerError::Column(error) => error.line(),
            AnswerError::Table(error) => table_line(*error),
            AnswerError::FileAt(file, line, error) => {
                file_line(*file, error_line_at(*line, *error))
            }
            AnswerError::FileAtRow(file, row, error) => file_line(*file, row_line(*row, *error, 0)),
            AnswerError::FileColumn(file, error) => file_line(*file, error.line()),
            AnswerError::File(file, error) => file_line(*file, error_line(*error)),
        }
    }

    /// The exit status.
    fn status(&self) -> u8
        ensures { result ≡ answer_error_status self.now }
    {
        match self {
            AnswerError::Table(TableError::Memory) => 1,
            AnswerError::Table(TableError::Read) => 4,
            AnswerError::Table(_) => 3,
            AnswerError::Column(_) | AnswerError::FileColumn(_, _) => 3,
            AnswerError::Call(_) | AnswerError::At(_, _) => 1,
            AnswerError::AtRow(_, _) | AnswerError::AtRowAndMore(_, _, _) => 1,
            AnswerError::FileAt(_, _, _) | AnswerError::FileAtRow(_, _, _) => 1,
            AnswerError::File(_, _) => 1,
        }
    }
}

impl Fault {
    ghost use Rattle.h3_lines.specs.RunError.{fault_line, fault_status};

    /// The line on standard error.
    fn line(&self) -> ArrayString<LINE_ROOM>
        ensures { result.bytes ≡ fault_line self.now }
    {
        match self {
            Fault::Memory => error_line(H3Error::MemoryAlloc),
            Fault::Read => read_fault_line(),
            Fault::Write => fixed_text("fault: write\n"),
        }
    }

    /// The exit status.
    fn status(&self) -> u8
        ensures { result ≡ fault_status self.now }
    {
        match self {
            Fault::Memory => 1,
            Fault::Read | Fault::Write => 4,
        }
    }
}

impl RunError {
    ghost use Rattle.h3_lines.specs.RunError.{refusal_line, refusal_status};

    /// The line on standard error.
    pub fn line(&self) -> ArrayString<LINE_ROOM>
        ensures { result.bytes ≡ refusal_line self.now }
    {
        match self {
            RunError::Error(error) => error.line(),
            RunError::Fault(fault) => fault.line(),
        }
    }

    /// The exit status.
    pub fn status(&self) -> u8
        ensures { result ≡ refusal_status self.now }
    {
        match self {
            RunError::Error(error) => error.status(),
            RunError::Fault(fault) => fault.status(),
        }
    }
}

impl From<StreamFault> for RunError {
    ghost use Rattle.h3_lines.specs.declared.run_error.Fault.TheVariants.{Write};
    ghost use Rattle.h3_lines.specs.declared.run_error.RunError.TheVariants as refusal;

    /// A write fault: failures of sources are not converted by this.
    ghost from_gives = { λ _ r. r ≡ refusal.Fault Write };

    fn from(_fault: StreamFault) -> RunError {
        RunError::Fault(Fault::Write)
    }
}

impl From<Fault> for RunError {
    ghost use Rattle.h3_lines.specs.declared.run_error.RunError.TheVariants as refusal;

    ghost from_gives = { λ f r. r ≡ refusal.Fault f };

    fn from(fault: Fault) -> RunError {
        RunError::Fault(fault)
    }
}

impl From<H3Error> for RunError {
    ghost use Rattle.h3_lines.specs.declared.run_error.AnswerError.TheVariants.{Call};
    ghost use Rattle.h3_lines.specs.declared.run_error.RunError.TheVariants as refusal;

    /// The error of a call.
    ghost from_gives = { λ e r. r ≡ refusal.Error (Call e) };

    fn from(error: H3Error) -> RunError {
        RunError::Error(AnswerError::Call(error))
    }
}

impl From<TableError> for RunError {
    ghost use Rattle.h3_lines.specs.RunError.{table_refusal};

    /// The error of a table: a read that failed and out of memory become faults.
    ghost from_gives = { λ e r. r ≡ table_refusal e };

    fn from(error: TableError) -> RunError {
        match error {
            TableError::Read => RunError::Fault(Fault::Read),
            TableError::Memory => RunError::Fault(Fault::Memory),
            _ => RunError::Error(AnswerError::Table(error)),
        }
    }
}

/// The number and the name of an H3 error.
fn error_words(error: H3Error) -> ArrayString<LINE_ROOM>
    ensures words { result.bytes ≡ error_words error }
    ensures short { length result.bytes ≤ 31 }
{
    let mut number = Buffer::new();
    let mut words = ArrayString::new();
    words.push_str("error ");
    words.push_str(number.format(error.number()));
    words.push_str(": ");
    words.push_str(error.name());
    words
}

/// The line of an H3 error.
fn error_line(error: H3Error) -> ArrayString<LINE_ROOM>
    ensures line { result.bytes ≡ error_line error }
    ensures short { length result.bytes ≤ 32 }
{
    let mut line = error_words(error);
    line.push_str("\n");
    line
}

/// The line of an H3 error at a line of a list.
fn error_line_at(number: u64, error: H3Error) -> ArrayString<LINE_ROOM>
    ensures line { result.bytes ≡ error_line_at number error }
    ensures short { length result.bytes ≤ 64 }
{
    let mut decimal = Buffer::new();
    let mut line = ArrayString::new();
    line.push_str("line ");
    line.push_str(decimal.format(number));
    line.push_str(": ");
    line.push_str(error_line(error).as_str());
    line
}

/// The line of an error at a row, and of how many more followed.
fn row_line(row: u64, error: RowError, more: u64) -> ArrayString<LINE_ROOM>
    ensures line { result.bytes ≡ row_line row error more }
    ensures short { more ≡ 0 → length result.bytes ≤ 128 }
{
    let mut decimal = Buffer::new();
    let mut line = ArrayString::new();
    line.push_str("line ");
    line.push_str(decimal.format(row));
    line.push_str(": ");
    line.push_str(error.words().as_str());
    line.push_str(error.more_words(more).as_str());
    line.push_str("\n");
    line
}

/// The reason of a row that has another number of fields than the header.
fn field_count_reason(row: u64, header: u64) -> ArrayString<LINE_ROOM>
    ensures reason { result.bytes ≡ fault_reason (FieldCount row header) }
    ensures short { length result.bytes ≤ 64 }
{
    let mut decimal = Buffer::new();
    let mut reason = ArrayString::new();
    reason.push_str(decimal.format(row));
    reason.push_str(" fields, the header has ");
    reason.push_str(decimal.format(header));
    reason
}

/// The line of an error of a file of cells: the file's word before the line of the error.
fn file_line(file: CellFile, error: ArrayString<LINE_ROOM>) -> ArrayString<LINE_ROOM>
    requires { length error.bytes ≤ 128 }
    ensures { result.bytes ≡ file_line file error.bytes }
{
    let mut line = ArrayString::new();
    line.push_str(file.word());
    line.push_str(": ");
    line.push_str(error.as_str());
    line
}

/// Fixed text: a line or a reason.
fn fixed_text(text: &str) -> ArrayString<LINE_ROOM>
    requires { length text.now ≤ 80 }
    ensures { result.bytes ≡ text.now }
{
    let mut line = ArrayString::new();
    line.push_str(text);
    line
}

/// The line of a read that failed.
fn read_fault_line() -> ArrayString<LINE_ROOM>
    ensures { result.bytes ≡ read_fault_line }
{
    fixed_text("fault: read\n")
}

/// The line of an error of a base cell table.
fn table_line(error: TableError) -> ArrayString<LINE_ROOM>
    ensures { result.bytes ≡ table_line error }
{
    match error {
        TableError::Read => read_fault_line(),
        TableError::Memory => error_line(H3Error::MemoryAlloc),
        TableError::Form(row) => numbered_line("table: form ", row),
        TableError::Range(row) => numbered_line("table: range ", row),
        TableError::Repeated(row) => numbered_line("table: repeated ", row),
        TableError::Missing => fixed_text("table: missing\n"),
        TableError::Neighbours(base) => numbered_line("table: neighbours ", u64::from(base)),
        TableError::Reversal(base, direction) => link_line("table: reversal ", base, direction),
        TableError::Corner(base, direction) => link_line("table: corner ", base, direction),
    }
}

/// A line of words and a number.
fn numbered_line(words: &str, number: u64) -> ArrayString<LINE_ROOM>
    requires { length words.now ≤ 20 }
    ensures { result.bytes ≡ numbered_line words.now number }
{
    let mut buffer = Buffer::new();
    let mut line = ArrayString::new();
    line.push_str(words);
    line.push_str(buffer.format(number));
    line.push_str("\n");
    line
}

/// A line of words, a base cell and a direction by its digit.
fn link_line(words: &str, base: u8, direction: Direction) -> ArrayString<LINE_ROOM>
    requires { length words.now ≤ 20 }
    ensures { result.bytes ≡ link_line words.now base direction }
{
    let mut buffer = Buffer::new();
    let mut line = ArrayString::new();
    line.push_str(words);
    line.push_str(buffer.format(base));
    line.push_str(" ");
    line.push_str(buffer.format(direction.digit()));
    line.push_str("\n");
    line
}
