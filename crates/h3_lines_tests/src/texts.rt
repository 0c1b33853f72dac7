//! Lists and rows that are answered by texts of any length.

ghost use Rattle.std.specs.Prelude.{◌≡◌, Bool, false, true};
ghost use Rattle.h3_lines.specs.Pieces.{Uncut};
ghost use Rattle.h3_lines_tests.specs.Names.{name_answer};
ghost use Rattle.h3_lines_tests.specs.declared.texts.TheConstants.{P};
ghost use Rattle.h3_requests.specs.Rows.{is_counted};

use crate::expected::{expect, expect_row};
use h3_fakes::{Faults, FaultySink, FaultySource};
use h3_index::H3Error;
use h3_lines::{
    AnswerError, ColumnError, Fault, RunError, Text, TextFunction, answer_each_text, split,
};
use h3_requests::{CellField, RowOptions};
use h3_rows::answer_rows_text;
use std::alloc::{AllocError, Global};

const P: u64 = 0x85283473fffffff;

/// Answers the cell `P` by a name, and each other index by another text.
#[derive(Drop)]
struct Names<'n> {
    name: &'n [u8],
    none: &'n [u8],
    quotes: bool,
    ghost named: { Uncut 10 quotes false name.now false },
    ghost unnamed: { Uncut 10 quotes false none.now false },
}

impl<'n> TextFunction for Names<'n> {
    ghost answer_of = { λ f index. name_answer P f.name.now f.none.now index };

    ghost counts_quotes = { λ f. f.quotes };

    fn text(&self, index: Option<u64>, _place: &mut usize) -> Result<Text<'_>, H3Error> {
        match index {
            None => Err(H3Error::Failed),
            Some(index) if index == P => Ok(Text::of(self.name)),
            Some(_) => Ok(Text::of(self.none)),
        }
    }
}

/// The function with these texts, if each is one line.
fn with_names<'n>(quotes: bool, name: &'n [u8], none: &'n [u8]) -> Option<Names<'n>> {
    let cuts = (
        split(b'\n', quotes, false, name),
        split(b'\n', quotes, false, none),
    );
    match cuts {
        (Err(false), Err(false)) => Some(Names { name, none, quotes }),
        _ => None,
    }
}

/// How the rows of a list are read.
#[derive(Clone, Copy)]
enum Rows {
    /// The cell is in the second field; the separator is a comma, and quotes count.
    Plain,

    /// The same with a header, which names it `cell`.
    Headed,

    /// The same, with another name of the new column.
    Named,

    /// The same, with a column of errors.
    NamedErrors,

    /// With a column of errors, and rows that are passed over.
    GoingOn,

    /// The cell is in the second field; the separator is a tab, and quotes do not count.
    Tabs,
}

/// Rows whose cell is in this field.
fn rows_of(field: CellField, has_header: bool, name: Option<String>, goes_on: bool) -> RowOptions
    requires { is_counted field ≡ true }
{
    RowOptions {
        field,
        has_header,
        separator: b',',
        quotes: true,
        name,
        keeps_going: goes_on,
        shows_errors: goes_on,
        is_ragged: false,
    }
}

/// How rows are read.
fn options(alloc: Global, rows: Rows) -> Result<RowOptions, AllocError> {
    match rows {
        Rows::Plain => Ok(rows_of(CellField::Number(2), false, None, false)),
        Rows::Headed => {
            let cell = CellField::Column(String::from_str(alloc, "cell")?);
            Ok(rows_of(cell, true, None, false))
        }
        Rows::Named | Rows::NamedErrors => {
            let cell = CellField::Column(String::from_str(alloc, "cell")?);
            let name = Some(String::from_str(alloc, " area ")?);
            let goes_on = matches!(rows, Rows::NamedErrors);
            Ok(rows_of(cell, true, name, goes_on))
        }
        Rows::GoingOn => Ok(rows_of(CellField::Number(2), false, None, true)),
        Rows::Tabs => Ok(RowOptions {
            field: CellField::Number(2),
            has_header: false,
            separator: b'\t',
            quotes: false,
            name: None,
            keeps_going: false,
            shows_errors: false,
            is_ragged: false,
        }),
    }
}

/// Writes each row of a list with a text beside it, over a source that gives at most `most` bytes a
/// pull.
fn answer<const N: usize>(
    alloc: Global,
    rows: Rows,
    name: &[u8],
    list: &[u8],
    most: usize,
    out: &mut FaultySink<N>,
) -> Result<(), RunError> {
    let Ok(options) = options(alloc, rows) else {
        return Err(RunError::Fault(Fault::Memory));
    };
    let Some(names) = with_names(options.quotes, name, b"-") else {
        return Err(RunError::Fault(Fault::Memory));
    };
    let mut source = FaultySource::new(list, most, Faults::From(1_000_000));
    answer_rows_text(alloc, &options, b"\"the, zone\"", &names, &mut source, out)
}

/// How many bytes a pull gives at most.
static PIECES: [usize; 3] = [1, 7, 65536];

/// Whether rows are answered so, in pieces of each of these sizes.
fn are_answered(alloc: Global, rows: Rows, name: &str, list: &str, output: &str) -> bool {
    for most in &PIECES {
        let mut out: FaultySink<512> = FaultySink::new(512, Faults::From(1000));
        let ending = answer(
            alloc,
            rows,
            name.as_bytes(),
            list.as_bytes(),
            *most,
            &mut out,
        );
        if ending != Ok(()) || out.bytes() != output.as_bytes() {
            return false;
        }
    }
    true
}

/// Names, rows, and these with the names.
static ANSWERED: [(Rows, &str, &str, &str); 11] = [
    (
        Rows::Plain,
        "north",
        "1,85283473fffffff\n2,85283477fffffff\n3,85283473fffffff\n",
        "1,85283473fffffff,north\n2,85283477fffffff,-\n3,85283473fffffff,north\n",
    ),
    (
        Rows::Plain,
        "\"south, old\"",
        "1,85283473fffffff\n2,85283477fffffff\n",
        "1,85283473fffffff,\"south, old\"\n2,85283477fffffff,-\n",
    ),
    // a line feed in a name is no end of a row
    (
        Rows::Plain,
        "\"a\nb\"",
        "1,85283473fffffff\n2,85283473fffffff\n",
        "1,85283473fffffff,\"a\nb\"\n2,85283473fffffff,\"a\nb\"\n",
    ),
    (
        Rows::Plain,
        "",
        "1,85283473fffffff\n2,85283477fffffff\n",
        "1,85283473fffffff,\n2,85283477fffffff,-\n",
    ),
    // carriage returns, and a last row without a line end
    (
        Rows::Plain,
        "\"a\nb\"",
        "1,85283477fffffff\r\n2,85283473fffffff\r\r\n3,85283473fffffff",
        "1,85283477fffffff,-\r\n2,85283473fffffff,\"a\nb\"\r\r\n3,85283473fffffff,\"a\nb\"\r\r\n",
    ),
    // missing cells, and rows that are read byte by byte
    (
        Rows::Plain,
        "north",
        "\n1,\n\"2\n\",\"85283473fffffff\"\n",
        "\n1,,\n\"2\n\",\"85283473fffffff\",north\n",
    ),
    (
        Rows::Headed,
        "north",
        "id,cell\n1,85283473fffffff\n",
        "id,cell,\"the, zone\"\n1,85283473fffffff,north\n",
    ),
    (
        Rows::Named,
        "north",
        "id,cell\n1,85283473fffffff\n",
        "id,cell, area \n1,85283473fffffff,north\n",
    ),
    (
        Rows::Tabs,
        "a\"b",
        "1\t85283473fffffff\n2\t85283473fffffff\n",
        "1\t85283473fffffff\ta\"b\n2\t85283473fffffff\ta\"b\n",
    ),
    // with a column of errors
    (
        Rows::GoingOn,
        "\"a\nb\"",
        "1,85283473fffffff\n2,\n",
        "1,85283473fffffff,\"a\nb\",\n2,,,missing\n",
    ),
    (Rows::Plain, "north", "", ""),
];

#[test]
fn rows_have_texts_beside_them(rt: HostRuntime) {
    for (row, (rows, name, list, output)) in ANSWERED.iter().enumerate() {
        let is_right = are_answered(rt.alloc(), *rows, name, list, output);
        expect_row(&rt, row, is_right);
    }
}

/// Headers that have the text of a new column's name.
static IN_USE: [(Rows, &str); 5] = [
    (Rows::Headed, "\"the, zone\",cell\n"),
    (Rows::Headed, "cell,\"the, zone\" \n"),
    (Rows::Named, "area,cell\n"),
    (Rows::Named, "cell,\"area\"\n"),
    (Rows::NamedErrors, "cell,area Error\n"),
];

#[test]
fn a_new_column_has_a_text_of_its_own(rt: HostRuntime) {
    for (row, (rows, list)) in IN_USE.iter().enumerate() {
        let mut out: FaultySink<64> = FaultySink::new(64, Faults::From(1000));
        let ending = answer(rt.alloc(), *rows, b"a", list.as_bytes(), 65536, &mut out);
        let error = RunError::Error(AnswerError::Column(ColumnError::InUse));
        expect_row(&rt, row, ending == Err(error) && out.calls() == 0);
    }
}

/// Whether a list of lines is answered so.
fn list_is_answered(
    alloc: Global,
    name: &str,
    list: &str,
    ending: Result<(), RunError>,
    output: &str,
) -> bool {
    let Some(names) = with_names(true, name.as_bytes(), b"-") else {
        return false;
    };
    for most in &PIECES {
        let mut source = FaultySource::new(list.as_bytes(), *most, Faults::From(1000));
        let mut out: FaultySink<128> = FaultySink::new(128, Faults::From(1000));
        let answered = answer_each_text(alloc, &names, &mut source, &mut out);
        if answered != ending || out.bytes() != output.as_bytes() {
            return false;
        }
    }
    true
}

#[test]
fn lines_are_answered_by_texts(rt: HostRuntime) {
    let alloc = rt.alloc();
    let list = "85283473fffffff\n\n 85283477fffffff\r\n0x85283473fffffff";
    expect(
        &rt,
        "a name",
        list_is_answered(alloc, "north", list, Ok(()), "north\n-\nnorth\n"),
    );
    expect(
        &rt,
        "a name with a line feed",
        list_is_answered(alloc, "\"a\nb\"", list, Ok(()), "\"a\nb\"\n-\n\"a\nb\"\n"),
    );
    expect(
        &rt,
        "an empty name",
        list_is_answered(alloc, "", list, Ok(()), "\n-\n\n"),
    );
    let faulty = "85283473fffffff\n\nxyz\n85283473fffffff\n";
    let error = RunError::Error(AnswerError::At(3, H3Error::Failed));
    expect(
        &rt,
        "a word that is no index",
        list_is_answered(alloc, "north", faulty, Err(error), "north\n"),
    );
}

/// A text of so many bytes.
fn text_of(alloc: Global, size: usize) -> Result<Vec<u8>, AllocError> {
    let mut text = Vec::with_capacity(alloc, 0)?;
    text.resize(size, b'x')?;
    Ok(text)
}

/// Whether bytes are these beginnings of rows, each with a text of `size` bytes after it.
fn have_texts(bytes: &[u8], rows: &[&str], size: usize) -> bool {
    let mut rest = bytes;
    for row in rows {
        let end = row.len().saturating_add(size);
        if rest.len() <= end || !rest.starts_with(row.as_bytes()) || rest[end] != b'\n' {
            return false;
        }
        if rest[row.len()..end].iter().any(|byte| *byte != b'x') {
            return false;
        }
        rest = &rest[end + 1..];
    }
    rest.is_empty()
}

#[test]
fn a_long_text_is_whole(rt: HostRuntime) {
    let Ok(text) = text_of(rt.alloc(), 100_000) else {
        return expect(&rt, "memory", false);
    };
    let mut out: FaultySink<200100> = FaultySink::new(65536, Faults::From(1000));
    let list = b"1,85283473fffffff\n2,85283473fffffff\n";
    let ending = answer(rt.alloc(), Rows::Plain, &text, list, 65536, &mut out);
    let rows = ["1,85283473fffffff,", "2,85283473fffffff,"];
    expect(
        &rt,
        "rows",
        ending == Ok(()) && have_texts(out.bytes(), &rows, 100_000),
    );
    let Some(names) = with_names(true, &text, b"-") else {
        return expect(&rt, "a text of one line", false);
    };
    let mut source = FaultySource::new(b"85283473fffffff\n85283473fffffff", 7, Faults::From(1000));
    let mut out: FaultySink<200100> = FaultySink::new(65536, Faults::From(1000));
    let ending = answer_each_text(rt.alloc(), &names, &mut source, &mut out);
    expect(
        &rt,
        "lines",
        ending == Ok(()) && have_texts(out.bytes(), &["", ""], 100_000),
    );
}

#[test]
fn texts_go_out_by_blocks(rt: HostRuntime) {
    let Ok(text) = text_of(rt.alloc(), 5000) else {
        return expect(&rt, "memory", false);
    };
    // a block has room for six
    let list = b"85283473fffffff\n85283473fffffff\n85283473fffffff\n85283473fffffff\n\
        85283473fffffff\n85283473fffffff\n85283473fffffff\n85283473fffffff\n";
    let mut out: FaultySink<40100> = FaultySink::new(65536, Faults::From(1000));
    let ending = answer_bare(rt.alloc(), &text, list, &mut out);
    let is_right = ending == Ok(()) && have_texts(out.bytes(), &[""; 8], 5000);
    expect(&rt, "all texts", is_right && out.calls() == 3);
}

/// Writes a text for each line of a list that is the cell, over a sink that may fail.
fn answer_bare<const N: usize>(
    alloc: Global,
    text: &[u8],
    list: &[u8],
    out: &mut FaultySink<N>,
) -> Result<(), RunError> {
    let Some(names) = with_names(true, text, b"-") else {
        return Err(RunError::Fault(Fault::Memory));
    };
    let mut source = FaultySource::new(list, 65536, Faults::From(1000));
    answer_each_text(alloc, &names, &mut source, out)
}

/// Whether each write that fails ends a run over rows, or over a bare list, with a beginning of its
/// output written.
fn faults_end_it(alloc: Global, is_bare: bool, text: &[u8], list: &[u8], whole: &[u8]) -> bool {
    for calls in 0..1000u64 {
        let mut out: FaultySink<100100> = FaultySink::new(4000, Faults::From(calls));
        let ending = if is_bare {
            answer_bare(alloc, text, list, &mut out)
        } else {
            answer(alloc, Rows::Plain, text, list, 65536, &mut out)
        };
        if ending == Ok(()) {
            return calls > 1 && out.bytes() == whole;
        }
        if ending != Err(RunError::Fault(Fault::Write)) || !whole.starts_with(out.bytes()) {
            return false;
        }
    }
    false
}

#[test]
fn a_write_that_fails_ends_the_run(rt: HostRuntime) {
    let list = b"1,85283473fffffff\r\n2,85283477fffffff";
    let whole = b"1,85283473fffffff,\"a\nb\"\r\n2,85283477fffffff,-\r\n";
    expect(
        &rt,
        "rows",
        faults_end_it(rt.alloc(), false, b"\"a\nb\"", list, whole),
    );
    let list = b"85283473fffffff\n";
    expect(
        &rt,
        "a bare list",
        faults_end_it(rt.alloc(), true, b"north", list, b"north\n"),
    );
    let Ok(text) = text_of(rt.alloc(), 100_000) else {
        return expect(&rt, "memory", false);
    };
    let Ok(mut whole) = text_of(rt.alloc(), 100_000) else {
        return expect(&rt, "memory", false);
    };
    if whole.resize(100_001, b'\n').is_err() {
        return expect(&rt, "memory", false);
    }
    expect(
        &rt,
        "a long text",
        faults_end_it(rt.alloc(), true, &text, list, &whole),
    );
}
