//! Files of base cell tables in format 2.

use crate::expected::{expect, expect_row};
use crate::table::{ends, has_link, has_links, is_refused, made, push_part, read};
use h3_directions::{DIRECTIONS, Direction, TableError};
use h3_index::is_pentagon_base;
use h3_table::vectors::{TestTable, link};
use std::alloc::{AllocError, Global};
use std::process::Abort;

const HEADER: &str = "base,k,j,jk,i,ik,ij,rk,rj,rjk,ri,rik,rij\n";

/// The first record of the plain table.
const FIRST: &str = "0,110,11,121,1,111,12,0,0,0,0,0,0\n";

/// A record: a base cell, six neighbors and six numbers of turns.
type Record = [u8; 13];

/// The records of a table.
fn records(rt: &impl Abort, alloc: Global, table: TestTable) -> Vec<Record> {
    let mut records = Vec::new(alloc);
    for base in 0..122u8 {
        if !is_pentagon_base(base) {
            let mut record = [base; 13];
            for i in 0..6 {
                let (to, turns) = link(table, base, DIRECTIONS[i]);
                record[1 + i] = to;
                record[7 + i] = turns;
            }
            expect(rt, "memory", records.push(record).is_ok());
        }
    }
    records
}

/// The text of a record.
fn line_of(alloc: Global, record: &Record) -> Result<String, AllocError> {
    let mut line = format!(in alloc; "{}", record[0])?;
    for i in 1..13 {
        push_part(&mut line, format!(in alloc; ",{}", record[i]))?;
    }
    Ok(line)
}

/// The text of a table file, each record ended in the same way.
fn text_of(alloc: Global, records: &[Record], end: &str) -> Result<String, AllocError> {
    let mut text = String::new(alloc);
    text.push_str(HEADER.trim_end())?;
    text.push_str(end)?;
    for record in records {
        push_part(&mut text, line_of(alloc, record))?;
        text.push_str(end)?;
    }
    Ok(text)
}

/// The text of the file of a table.
fn file_of(rt: &impl Abort, alloc: Global, table: TestTable) -> String {
    made(rt, text_of(alloc, &records(rt, alloc, table), "\n"))
}

#[test]
fn sound_tables_are_accepted(rt: HostRuntime) {
    for table in [TestTable::Plain, TestTable::Twisted] {
        let records = records(&rt, rt.alloc(), table);
        expect(&rt, "110 records", records.len() == 110);
        for (row, end) in ["\n", "\r\n", "\r", "\n\n"].iter().enumerate() {
            let text = made(&rt, text_of(rt.alloc(), &records, end));
            expect_row(&rt, row, has_links(&rt, &text, table));
        }
    }
}

#[test]
fn links_are_those_of_worked_records(rt: HostRuntime) {
    static LINKS: [(Direction, u8, u8); 6] = [
        (Direction::K, 18, 0),
        (Direction::J, 41, 5),
        (Direction::JK, 29, 5),
        (Direction::I, 31, 1),
        (Direction::IK, 19, 1),
        (Direction::IJ, 42, 0),
    ];
    let plain = file_of(&rt, rt.alloc(), TestTable::Plain);
    let first = made(&rt, format!(in rt.alloc(); "{HEADER}{FIRST}1,111,"));
    expect(&rt, "the first record", plain.starts_with(first.as_str()));
    let twisted = file_of(&rt, rt.alloc(), TestTable::Twisted);
    expect(
        &rt,
        "the record of base cell 30",
        twisted.contains("\n30,18,41,29,31,19,42,0,5,5,1,1,0\n"),
    );
    let Ok(table) = read(rt.alloc(), &twisted) else {
        panic!(rt; "it is refused")
    };
    for (row, (direction, to, turns)) in LINKS.iter().enumerate() {
        expect_row(&rt, row, has_link(&table, 30, *direction, *to, *turns));
    }
}

#[test]
fn records_come_in_any_order(rt: HostRuntime) {
    let mut records = records(&rt, rt.alloc(), TestTable::Twisted);
    records.reverse();
    let text = made(&rt, text_of(rt.alloc(), &records, "\n"));
    expect(&rt, "twisted", has_links(&rt, &text, TestTable::Twisted));
}

/// The text of a record with zeros in front of its numbers, the first of them in quotes.
fn padded_line(alloc: Global, record: &Record) -> Result<String, AllocError> {
    let mut line = format!(in alloc; "\"{:03}\"", record[0])?;
    for i in 1..13 {
        push_part(&mut line, format!(in alloc; ",{:03}", record[i]))?;
    }
    Ok(line)
}

/// The file of the plain table with a byte order mark and such records.
fn padded_file(alloc: Global, records: &[Record]) -> Result<String, AllocError> {
    let mut text = format!(in alloc; "\u{feff}{HEADER}")?;
    for record in records {
        push_part(&mut text, padded_line(alloc, record))?;
        text.push('\n')?;
    }
    Ok(text)
}

#[test]
fn marks_quotes_and_zeros_are_let_through(rt: HostRuntime) {
    let records = records(&rt, rt.alloc(), TestTable::Plain);
    let padded = made(&rt, padded_file(rt.alloc(), &records));
    expect(&rt, "padded", has_links(&rt, &padded, TestTable::Plain));
}

#[test]
fn headers_are_exact(rt: HostRuntime) {
    static HEADERS: [&str; 6] = [
        "base,k,j,jk,i,ik,ij,rk,rj,rjk,ri,rik\n",
        "base,k,j,jk,i,ik,ij,rk,rj,rjk,ri,rik,rij,\n",
        "base,k,j,i,jk,ik,ij,rk,rj,ri,rjk,rik,rij\n",
        "base,rk,rj,rjk,ri,rik,rij,k,j,jk,i,ik,ij\n",
        "Base,k,j,jk,i,ik,ij,rk,rj,rjk,ri,rik,rij\n",
        "0,110,11,121,1,111,12,0,0,0,0,0,0\n",
    ];
    for (row, text) in HEADERS.iter().enumerate() {
        let read = read(rt.alloc(), text);
        expect_row(&rt, row, ends(read, Some(TableError::Form(1))));
    }
}

#[test]
fn each_header_wants_its_own_records(rt: HostRuntime) {
    let alloc = rt.alloc();
    expect(
        &rt,
        "another header",
        is_refused(alloc, "base,dir,to,rot\n", FIRST, TableError::Form(2)),
    );
    expect(
        &rt,
        "another record",
        is_refused(alloc, HEADER, "0,1,110,0\n", TableError::Form(2)),
    );
}

#[test]
fn the_first_faulty_record_decides(rt: HostRuntime) {
    static ROWS: [(&str, TableError); 14] = [
        ("0,110,11,121,1,111,12,0,0,0,0,0\n", TableError::Form(2)),
        ("0,110,11,121,1,111,12,0,0,0,0,0,0,0\n", TableError::Form(2)),
        ("0,110,11,121,1,111,12,0,0,0,0,0,\n", TableError::Form(2)),
        ("0,110,11,121,1,111,0012,0,0,0,0,0,0\n", TableError::Form(2)),
        ("0,110,11,121,1,111, 12,0,0,0,0,0,0\n", TableError::Form(2)),
        ("4,110,11,121,1,111,12,0,0,0,0,0,x\n", TableError::Form(2)),
        ("4,110,11,121,1,111,12,0,0,0,0,0,0\n", TableError::Range(2)),
        (
            "122,110,11,121,1,111,12,0,0,0,0,0,0\n",
            TableError::Range(2),
        ),
        (
            "256,110,11,121,1,111,12,0,0,0,0,0,0\n",
            TableError::Range(2),
        ),
        ("0,122,11,121,1,111,12,0,0,0,0,0,0\n", TableError::Range(2)),
        ("0,110,11,121,1,111,122,0,0,0,0,0,0\n", TableError::Range(2)),
        ("0,110,11,121,1,111,12,6,0,0,0,0,0\n", TableError::Range(2)),
        ("0,110,11,121,1,111,12,0,0,0,0,0,6\n", TableError::Range(2)),
        ("\n", TableError::Missing),
    ];
    for (row, (rest, error)) in ROWS.iter().enumerate() {
        let is_refused = is_refused(rt.alloc(), HEADER, rest, *error);
        expect_row(&rt, row, is_refused);
    }
}

/// After the first record of the plain table.
#[test]
fn a_faulty_second_record_decides(rt: HostRuntime) {
    static ROWS: [(&str, TableError); 4] = [
        (
            "0,110,11,121,1,111,12,0,0,0,0,0,0\n0,1,2,3,5,6,7,0,0,0,0,0,0\n",
            TableError::Repeated(3),
        ),
        (
            "0,110,11,121,1,111,12,0,0,0,0,0,0\n0,1,2,3,5,6,7,0,0,0,0,0,6\n",
            TableError::Range(3),
        ),
        (
            "0,110,11,121,1,111,12,0,0,0,0,0,0\n0,1,2,3,5,6,7,0,0,0,0,0\n",
            TableError::Form(3),
        ),
        (
            "0,110,11,121,1,111,12,0,0,0,0,0,0\n\n1,1,2,3,5,6,7,0,0,0,0,0,0\n",
            TableError::Missing,
        ),
    ];
    for (row, (rest, error)) in ROWS.iter().enumerate() {
        let is_refused = is_refused(rt.alloc(), HEADER, rest, *error);
        expect_row(&rt, row, is_refused);
    }
}

#[test]
fn a_missing_or_repeated_record_is_refused(rt: HostRuntime) {
    let mut records = records(&rt, rt.alloc(), TestTable::Plain);
    let plain = made(&rt, text_of(rt.alloc(), &records, "\n"));
    expect(
        &rt,
        "a record too many",
        is_refused(rt.alloc(), &plain, FIRST, TableError::Repeated(112)),
    );
    let _ = records.pop();
    let short = made(&rt, text_of(rt.alloc(), &records, "\n"));
    expect(
        &rt,
        "a record too few",
        ends(read(rt.alloc(), &short), Some(TableError::Missing)),
    );
}

/// Whether the plain table with the record of a base cell changed is refused with an error.
fn is_refused_with(rt: &impl Abort, alloc: Global, change: &Record, error: TableError) -> bool {
    let mut records = records(rt, alloc, TestTable::Plain);
    for record in records.as_mut_slice() {
        if record[0] == change[0] {
            *record = *change;
        }
    }
    let text = made(rt, text_of(alloc, &records, "\n"));
    ends(read(alloc, &text), Some(error))
}

#[test]
fn the_first_check_that_fails_decides(rt: HostRuntime) {
    static ROWS: [(Record, TableError); 3] = [
        (
            [0, 110, 110, 121, 1, 111, 12, 0, 0, 0, 0, 0, 0],
            TableError::Neighbours(0),
        ),
        (
            [0, 110, 11, 121, 1, 111, 12, 1, 0, 0, 0, 0, 0],
            TableError::Reversal(0, Direction::K),
        ),
        (
            [60, 48, 71, 59, 61, 49, 72, 0, 0, 0, 1, 0, 0],
            TableError::Reversal(60, Direction::I),
        ),
    ];
    let skew = file_of(&rt, rt.alloc(), TestTable::Skew);
    expect(
        &rt,
        "skew",
        ends(
            read(rt.alloc(), &skew),
            Some(TableError::Corner(0, Direction::K)),
        ),
    );
    for (row, (change, error)) in ROWS.iter().enumerate() {
        let is_refused = is_refused_with(&rt, rt.alloc(), change, *error);
        expect_row(&rt, row, is_refused);
    }
}
