//! Base cell tables, and their files in format 1.

use crate::expected::{expect, expect_row};
use h3_directions::{DIRECTIONS, Direction, TableError};
use h3_fakes::{Faults, FaultySource, holds};
use h3_index::is_pentagon_base;
use h3_streams::{Source, StreamFault, Streamed};
use h3_table::BaseTable;
use h3_table::vectors::{TestTable, link};
use std::alloc::{AllocError, Global};
use std::mem::{align_of, size_of};
use std::process::Abort;

const HEADER: &str = "base,dir,to,rot\n";

/// A record: a base cell, the digit of a direction, the neighbor and the turns.
type Record = [u8; 4];

/// The records of a table.
fn records(rt: &impl Abort, alloc: Global, table: TestTable) -> Vec<Record> {
    let mut records = Vec::new(alloc);
    for base in 0..122u8 {
        if !is_pentagon_base(base) {
            for direction in DIRECTIONS {
                let (to, turns) = link(table, base, direction);
                expect(
                    rt,
                    "memory",
                    records.push([base, direction.digit(), to, turns]).is_ok(),
                );
            }
        }
    }
    records
}

/// Adds a part to a text, where there was memory for both.
pub fn push_part(text: &mut String, part: Result<String, AllocError>) -> Result<(), AllocError> {
    match part {
        Ok(part) => text.push_str(&part),
        Err(error) => Err(error),
    }
}

/// The text of a table file, each record ended in the same way.
fn text_of(alloc: Global, records: &[Record], end: &str) -> Result<String, AllocError> {
    let mut text = format!(in alloc; "base,dir,to,rot{end}")?;
    for [base, digit, to, turns] in records {
        push_part(
            &mut text,
            format!(in alloc; "{base},{digit},{to},{turns}{end}"),
        )?;
    }
    Ok(text)
}

/// The text of the file of a table.
fn file_of(rt: &impl Abort, alloc: Global, table: TestTable) -> String {
    made(rt, text_of(alloc, &records(rt, alloc, table), "\n"))
}

/// A text that there was memory for.
pub fn made(rt: &impl Abort, text: Result<String, AllocError>) -> String {
    match text {
        Ok(text) => text,
        Err(_) => panic!(rt; "memory"),
    }
}

/// Reads a table file.
pub fn read(alloc: Global, text: &str) -> Result<BaseTable, TableError> {
    BaseTable::read(alloc, &mut Streamed::new(text.as_bytes()))
}

/// Whether a table file was refused with the error expected, or accepted where none is.
pub fn ends(found: Result<BaseTable, TableError>, expected: Option<TableError>) -> bool {
    match (found, expected) {
        (Ok(_), None) => true,
        (Err(error), Some(other)) => error == other,
        _ => false,
    }
}

/// Whether a table has the links of a test table that leave a base cell. A pentagon has none.
fn has_links_from(read: &BaseTable, table: TestTable, base: u8) -> bool {
    if base > 121 || is_pentagon_base(base) {
        return true;
    }
    for direction in DIRECTIONS {
        let (to, turns) = read.link(base, direction);
        let (other_to, other_turns) = link(table, base, direction);
        if to != other_to || turns != other_turns {
            return false;
        }
    }
    true
}

/// Whether a table file has the links of a table.
pub fn has_links(rt: &HostRuntime, text: &str, table: TestTable) -> bool {
    let Ok(read) = read(rt.alloc(), text) else {
        return false;
    };
    for base in 0..122u8 {
        if !holds(rt, usize::from(base), has_links_from(&read, table, base)) {
            return false;
        }
    }
    true
}

/// Whether a table file of a header and what comes after it is refused with an error.
pub fn is_refused(alloc: Global, header: &str, rest: &str, error: TableError) -> bool {
    match format!(in alloc; "{header}{rest}") {
        Ok(text) => ends(read(alloc, &text), Some(error)),
        Err(_) => false,
    }
}

/// 732 links of two bytes each, and no address of anything else.
#[test]
fn a_table_holds_links_alone(rt: HostRuntime) {
    expect(&rt, "size", size_of::<BaseTable>() == 1464);
    expect(&rt, "alignment", align_of::<BaseTable>() == 1);
}

#[test]
fn sound_tables_are_accepted(rt: HostRuntime) {
    for table in [TestTable::Plain, TestTable::Twisted] {
        let records = records(&rt, rt.alloc(), table);
        expect(&rt, "660 records", records.len() == 660);
        for (row, end) in ["\n", "\r\n", "\r", "\n\n"].iter().enumerate() {
            let text = made(&rt, text_of(rt.alloc(), &records, end));
            expect_row(&rt, row, has_links(&rt, &text, table));
        }
    }
}

/// Whether a table has a link.
pub fn has_link(table: &BaseTable, base: u8, direction: Direction, to: u8, turns: u8) -> bool {
    if base > 121 || is_pentagon_base(base) {
        return false;
    }
    let (found_to, found_turns) = table.link(base, direction);
    found_to == to && found_turns == turns
}

#[test]
fn bytes_are_read_as_sources_are(rt: HostRuntime) {
    let plain = file_of(&rt, rt.alloc(), TestTable::Plain);
    let Ok(table) = BaseTable::from_csv(rt.alloc(), plain.as_bytes()) else {
        panic!(rt; "it is refused")
    };
    expect(
        &rt,
        "the first link",
        has_link(&table, 0, Direction::K, 110, 0),
    );
    expect(
        &rt,
        "the last link",
        has_link(&table, 121, Direction::IJ, 11, 0),
    );
    let skew = file_of(&rt, rt.alloc(), TestTable::Skew);
    let rows = [
        ("", TableError::Form(1)),
        ("base,dir,to,rot\n", TableError::Missing),
        ("base,dir,to,rot\n4,1,0,0\n", TableError::Range(2)),
        (skew.as_str(), TableError::Corner(0, Direction::K)),
    ];
    for (row, (file, error)) in rows.iter().enumerate() {
        let read = BaseTable::from_csv(rt.alloc(), file.as_bytes());
        expect_row(&rt, row, ends(read, Some(*error)));
    }
}

/// Whether each link of a hexagon base cell leads to a pentagon, without turns.
fn is_closed(table: &BaseTable, base: u8) -> bool {
    if base > 121 || is_pentagon_base(base) {
        return true;
    }
    for direction in DIRECTIONS {
        let (to, turns) = table.link(base, direction);
        if !is_pentagon_base(to) || turns != 0 {
            return false;
        }
    }
    true
}

#[test]
fn a_closed_table_leads_to_pentagons(rt: HostRuntime) {
    let table = BaseTable::closed();
    for base in 0..122u8 {
        expect_row(&rt, usize::from(base), is_closed(&table, base));
    }
}

#[test]
fn links_are_those_of_worked_records(rt: HostRuntime) {
    let plain = file_of(&rt, rt.alloc(), TestTable::Plain);
    expect(
        &rt,
        "plain",
        plain.starts_with("base,dir,to,rot\n0,1,110,0\n0,2,11,0\n"),
    );
    let twisted = file_of(&rt, rt.alloc(), TestTable::Twisted);
    expect(
        &rt,
        "twisted",
        twisted.starts_with("base,dir,to,rot\n0,1,110,2\n0,2,11,5\n"),
    );
    let Ok(table) = read(rt.alloc(), &twisted) else {
        panic!(rt; "it is refused")
    };
    expect(
        &rt,
        "from 30 to 31",
        has_link(&table, 30, Direction::I, 31, 1),
    );
    expect(
        &rt,
        "from 31 to 30",
        has_link(&table, 31, Direction::K, 30, 5),
    );
}

#[test]
fn records_come_in_any_order(rt: HostRuntime) {
    let mut records = records(&rt, rt.alloc(), TestTable::Plain);
    records.reverse();
    let text = made(&rt, text_of(rt.alloc(), &records, "\n"));
    expect(&rt, "plain", has_links(&rt, &text, TestTable::Plain));
}

#[test]
fn a_byte_order_mark_is_let_through(rt: HostRuntime) {
    let plain = file_of(&rt, rt.alloc(), TestTable::Plain);
    let marked = made(&rt, format!(in rt.alloc(); "\u{feff}{plain}"));
    expect(&rt, "marked", has_links(&rt, &marked, TestTable::Plain));
}

/// The file of the plain table, its numbers in quotes.
fn quoted_file(alloc: Global, records: &[Record]) -> Result<String, AllocError> {
    let mut text = format!(in alloc; "{HEADER}")?;
    for [base, digit, to, turns] in records {
        push_part(
            &mut text,
            format!(in alloc; "\"{base}\",\"{digit}\",\"{to}\",\"{turns}\"\n"),
        )?;
    }
    Ok(text)
}

/// The file of the plain table, with zeros in front of its numbers.
fn padded_file(alloc: Global, records: &[Record]) -> Result<String, AllocError> {
    let mut text = format!(in alloc; "{HEADER}")?;
    for [base, digit, to, turns] in records {
        push_part(
            &mut text,
            format!(in alloc; "{base:03},{digit:02},{to:03},{turns:03}\n"),
        )?;
    }
    Ok(text)
}

/// Numbers have one to three digits.
#[test]
fn quotes_and_zeros_are_let_through(rt: HostRuntime) {
    let records = records(&rt, rt.alloc(), TestTable::Plain);
    let quoted = made(&rt, quoted_file(rt.alloc(), &records));
    expect(&rt, "quoted", has_links(&rt, &quoted, TestTable::Plain));
    let padded = made(&rt, padded_file(rt.alloc(), &records));
    expect(&rt, "padded", has_links(&rt, &padded, TestTable::Plain));
}

#[test]
fn blank_lines_are_let_through(rt: HostRuntime) {
    let mut long = file_of(&rt, rt.alloc(), TestTable::Plain);
    for _line in 0..20_000 {
        expect(&rt, "memory", long.push('\n').is_ok());
    }
    expect(&rt, "long", has_links(&rt, &long, TestTable::Plain));
    expect(&rt, "memory", long.push_str("0,1,110,0\n").is_ok());
    expect(
        &rt,
        "a record too many",
        ends(read(rt.alloc(), &long), Some(TableError::Repeated(662))),
    );
}

#[test]
fn headers_are_exact(rt: HostRuntime) {
    static HEADERS: [&str; 7] = [
        "",
        "\n",
        "base,dir,to\n",
        "base,dir,to,rot,\n",
        "Base,dir,to,rot\n",
        " base,dir,to,rot\n",
        "0,1,110,0\n",
    ];
    for (row, text) in HEADERS.iter().enumerate() {
        let read = read(rt.alloc(), text);
        expect_row(&rt, row, ends(read, Some(TableError::Form(1))));
    }
}

#[test]
fn the_first_faulty_record_decides(rt: HostRuntime) {
    static ROWS: [(&str, TableError); 19] = [
        ("4,1,0,0", TableError::Range(2)),
        ("0001,1,110,0", TableError::Form(2)),
        ("0,1,110", TableError::Form(2)),
        ("0,1,110,0,0", TableError::Form(2)),
        ("0,1,,0", TableError::Form(2)),
        ("0,1, 110,0", TableError::Form(2)),
        ("0,1,+10,0", TableError::Form(2)),
        ("0,1,110,6", TableError::Range(2)),
        ("0,0,110,0", TableError::Range(2)),
        ("0,7,110,0", TableError::Range(2)),
        ("0,1,122,0", TableError::Range(2)),
        ("122,1,110,0", TableError::Range(2)),
        ("260,1,110,0", TableError::Range(2)),
        ("4,1,0,0\n0,1,x,0", TableError::Range(2)),
        ("0,1,x,0\n4,1,0,0", TableError::Form(2)),
        ("0,1,110,0\n\n0,1,111,0\n", TableError::Repeated(3)),
        ("0,1,110,0\n0,1,111,6\n", TableError::Range(3)),
        ("0,1,110,0\n0,2,11,0\n", TableError::Missing),
        ("", TableError::Missing),
    ];
    for (row, (rest, error)) in ROWS.iter().enumerate() {
        let is_refused = is_refused(rt.alloc(), HEADER, rest, *error);
        expect_row(&rt, row, is_refused);
    }
}

#[test]
fn a_missing_or_repeated_record_is_refused(rt: HostRuntime) {
    let mut records = records(&rt, rt.alloc(), TestTable::Plain);
    let plain = made(&rt, text_of(rt.alloc(), &records, "\n"));
    expect(
        &rt,
        "a record too many",
        is_refused(rt.alloc(), &plain, "0,1,110,0\n", TableError::Repeated(662)),
    );
    let _ = records.pop();
    let short = made(&rt, text_of(rt.alloc(), &records, "\n"));
    expect(
        &rt,
        "a record too few",
        ends(read(rt.alloc(), &short), Some(TableError::Missing)),
    );
}

/// The file of the plain table with the records of some base cells and directions changed.
fn changed_file(rt: &impl Abort, alloc: Global, changes: &[Record]) -> String {
    let mut records = records(rt, alloc, TestTable::Plain);
    for change in changes {
        for record in records.as_mut_slice() {
            if record[0] == change[0] && record[1] == change[1] {
                *record = *change;
            }
        }
    }
    made(rt, text_of(alloc, &records, "\n"))
}

/// Whether the plain table with some records changed is refused with an error.
fn is_refused_with(rt: &impl Abort, alloc: Global, changes: &[Record], error: TableError) -> bool {
    let file = changed_file(rt, alloc, changes);
    ends(read(alloc, &file), Some(error))
}

#[test]
fn the_first_check_that_fails_decides(rt: HostRuntime) {
    static ROWS: [(Record, TableError); 7] = [
        ([0, 1, 110, 1], TableError::Reversal(0, Direction::K)),
        ([0, 2, 110, 0], TableError::Neighbours(0)),
        ([0, 3, 0, 0], TableError::Neighbours(0)),
        ([60, 4, 61, 1], TableError::Reversal(60, Direction::I)),
        ([120, 4, 121, 1], TableError::Reversal(120, Direction::I)),
        ([121, 6, 13, 0], TableError::Reversal(11, Direction::K)),
        ([121, 6, 10, 0], TableError::Neighbours(121)),
    ];
    let skew = file_of(&rt, rt.alloc(), TestTable::Skew);
    expect(
        &rt,
        "skew",
        ends(
            read(rt.alloc(), &skew),
            Some(TableError::Corner(0, Direction::K)),
        ),
    );
    for (row, (change, error)) in ROWS.iter().enumerate() {
        let is_refused = is_refused_with(&rt, rt.alloc(), &[*change], *error);
        expect_row(&rt, row, is_refused);
    }
}

#[test]
fn corners_are_checked_at_every_base_cell(rt: HostRuntime) {
    // The neighbors of 50 and 80 in the direction I change places, and each link is still undone.
    // The first corner with one of these links is that of 39, 51 and 50.
    static EXCHANGED: [Record; 4] = [
        [50, 4, 81, 0],
        [51, 3, 80, 0],
        [80, 4, 51, 0],
        [81, 3, 50, 0],
    ];
    // The same for those of 108 and 114: the first corner is that of 103, 115 and 114.
    static EXCHANGED_LATER: [Record; 4] = [
        [108, 4, 115, 0],
        [109, 3, 114, 0],
        [114, 4, 109, 0],
        [115, 3, 108, 0],
    ];
    let first = TableError::Corner(39, Direction::IJ);
    expect(
        &rt,
        "the first corner",
        is_refused_with(&rt, rt.alloc(), &EXCHANGED, first),
    );
    let later = TableError::Corner(103, Direction::IJ);
    expect(
        &rt,
        "a later corner",
        is_refused_with(&rt, rt.alloc(), &EXCHANGED_LATER, later),
    );
}

/// A source that counts its calls and keeps the lengths of their buffers. Calls after the end of
/// the bytes fail.
#[derive(Drop)]
struct CountingSource<'a> {
    text: &'a [u8],
    page: usize,
    calls: u64,
    ended: bool,
    failed: bool,
}

impl<'a> Source for CountingSource<'a> {
    ghost use Rattle.std.specs.Prelude.{None};

    ghost left = { λ _. None };

    ghost has_failed = { λ s. s.failed };

    fn pull(&mut self, buf: &mut [u8]) -> Result<usize, StreamFault> {
        if self.ended {
            self.failed = true;
            return Err(StreamFault);
        }
        self.calls = self.calls.wrapping_add(1);
        self.page = buf.len();
        let count = buf.len().min(self.text.len());
        buf[..count].copy_from_slice(&self.text[..count]);
        self.text = &self.text[count..];
        self.ended = count == 0;
        Ok(count)
    }
}

/// Whether a file is read to its end and no further, in pages of 4096 bytes, and is then refused
/// with the error expected, or accepted where none is.
fn is_read_to_its_end(rt: &HostRuntime, text: &str, expected: Option<TableError>) -> bool {
    let mut source = CountingSource {
        text: text.as_bytes(),
        page: 0,
        calls: 0,
        ended: false,
        failed: false,
    };
    let read = BaseTable::read(rt.alloc(), &mut source);
    let pages = (text.len() / 4096) as u64;
    holds(rt, 0, ends(read, expected))
        && holds(rt, 1, source.page == 4096)
        && holds(rt, 2, source.calls == pages + 2)
        && holds(rt, 3, source.ended)
        && holds(rt, 4, !source.failed)
}

/// An error in the first record is returned after all of the file was read.
#[test]
fn a_table_is_read_to_its_end_and_no_further(rt: HostRuntime) {
    let plain = file_of(&rt, rt.alloc(), TestTable::Plain);
    expect(&rt, "plain", is_read_to_its_end(&rt, &plain, None));
    let faulty = made(&rt, format!(in rt.alloc(); "0{plain}"));
    expect(
        &rt,
        "faulty",
        is_read_to_its_end(&rt, &faulty, Some(TableError::Form(1))),
    );
}

/// Whether a file of which one read fails, and each read gives a number of bytes at most, takes
/// this many reads, and is then refused with the error expected, or accepted where none is.
fn takes_reads(
    alloc: Global,
    file: &str,
    (most, fault): (usize, u64),
    expected: Option<TableError>,
    reads: u64,
) -> bool {
    let mut source = FaultySource::new(file.as_bytes(), most, Faults::Once(fault));
    let read = BaseTable::read(alloc, &mut source);
    let is_fault = matches!(expected, Some(TableError::Read));
    ends(read, expected) && source.failed() == is_fault && source.pulls() == reads
}

/// Whether each read of a file that fails is a fault and the last one. The last read finds the end.
fn fails_at_each_read(rt: &HostRuntime, file: &str, expected: Option<TableError>) -> bool {
    let reads = file.len().div_ceil(1000) as u64 + 1;
    for fault in 0..reads {
        let error = Some(TableError::Read);
        let is_last = takes_reads(rt.alloc(), file, (1000, fault), error, fault + 1);
        if !holds(rt, fault as usize, is_last) {
            return false;
        }
    }
    takes_reads(rt.alloc(), file, (1000, reads), expected, reads)
}

#[test]
fn a_read_that_fails_is_a_read_fault_and_the_last_one(rt: HostRuntime) {
    let sound = file_of(&rt, rt.alloc(), TestTable::Plain);
    expect(&rt, "sound", fails_at_each_read(&rt, &sound, None));
    let malformed = made(&rt, format!(in rt.alloc(); "0{sound}"));
    expect(
        &rt,
        "malformed",
        fails_at_each_read(&rt, &malformed, Some(TableError::Form(1))),
    );
}

#[test]
fn a_table_is_read_byte_by_byte(rt: HostRuntime) {
    let sound = file_of(&rt, rt.alloc(), TestTable::Plain);
    let reads = sound.len() as u64 + 1;
    expect(
        &rt,
        "as many reads as it takes",
        takes_reads(rt.alloc(), &sound, (1, reads), None, reads),
    );
    let fault = Some(TableError::Read);
    expect(
        &rt,
        "one read less",
        takes_reads(rt.alloc(), &sound, (1, reads - 1), fault, reads),
    );
}
