//! The texts of indexes: how they are read, written, displayed and parsed, and lines of cells.

use crate::expected::{expect, expect_row};
use crate::rows::{Expected, cell, same, same_cell, same_edge};
use h3_fakes::holds;
use h3_index::{
    Cell, Edge, H3Error, index_bytes, is_blank_text, put_cell_line, put_children_lines, read_index,
    read_plain, write_index,
};
use std::alloc::AllocError;

#[test]
fn texts_are_read(rt: HostRuntime) {
    static ROWS: [(&str, Expected); 19] = [
        ("85283473fffffff", Ok(0x85283473fffffff)),
        ("0X85283473FFFFFFF", Ok(0x85283473fffffff)),
        ("0x85283473fffffff", Ok(0x85283473fffffff)),
        (" \t85283473fffffff\r", Ok(0x85283473fffffff)),
        ("085283473fffffff", Ok(0x85283473fffffff)),
        ("85283473FFFFFFF", Ok(0x85283473fffffff)),
        ("85283473fFfFfFf", Ok(0x85283473fffffff)),
        ("0", Ok(0)),
        ("FFFFFFFFFFFFFFFF", Ok(u64::MAX)),
        ("", Err(H3Error::Failed)),
        (" ", Err(H3Error::Failed)),
        ("0x", Err(H3Error::Failed)),
        ("xyz", Err(H3Error::Failed)),
        ("0x0x1", Err(H3Error::Failed)),
        ("0x0X85283473fffffff", Err(H3Error::Failed)),
        ("x85283473fffffff", Err(H3Error::Failed)),
        ("85283473 fffffff", Err(H3Error::Failed)),
        ("00085283473fffffff", Err(H3Error::Failed)),
        ("fedcba9876543210f", Err(H3Error::Failed)),
    ];
    for (row, (text, expected)) in ROWS.iter().enumerate() {
        expect_row(&rt, row, same(read_index(text.as_bytes()), *expected));
    }
}

/// Whether a text is plain and has the number expected, or is not plain where none is.
fn is_plain(text: &[u8], expected: Option<u64>) -> bool {
    match (read_plain(text), expected) {
        (Some(number), Some(other)) => number == other,
        (None, None) => true,
        _ => false,
    }
}

#[test]
fn only_lower_case_digits_are_plain(rt: HostRuntime) {
    static ROWS: [(&str, Option<u64>); 8] = [
        ("85283473FFFFFFF", None),
        ("0x85283473ffff", None),
        ("85283473fffffff\r", None),
        (" 85283473ffffff", None),
        ("85283473 ffffff", None),
        ("fedcba9876543210f", None),
        ("", None),
        ("0000000f", Some(15)),
    ];
    for (row, (text, expected)) in ROWS.iter().enumerate() {
        expect_row(&rt, row, is_plain(text.as_bytes(), *expected));
    }
}

/// Whether all bytes are zeros as text.
fn are_zeros(bytes: &[u8]) -> bool {
    for byte in bytes {
        if *byte != b'0' {
            return false;
        }
    }
    true
}

/// Whether the bytes of an index are this text, and zeros after it.
fn has_bytes(index: u64, text: &[u8]) -> bool {
    let (bytes, length) = index_bytes(index);
    let (front, rest) = bytes.split_at(length);
    front == text && are_zeros(rest)
}

/// The front of one text, a digit more at a time, also in capitals and with `0X` in front. Eight digits
/// and more in lower case are plain.
#[test]
fn one_to_sixteen_digits_are_read(rt: HostRuntime) {
    static NUMBERS: [u64; 16] = [
        0xf,
        0xfe,
        0xfed,
        0xfedc,
        0xfedcb,
        0xfedcba,
        0xfedcba9,
        0xfedcba98,
        0xfedcba987,
        0xfedcba9876,
        0xfedcba98765,
        0xfedcba987654,
        0xfedcba9876543,
        0xfedcba98765432,
        0xfedcba987654321,
        0xfedcba9876543210,
    ];
    let text = *b"fedcba9876543210";
    let capitals = *b"0XFEDCBA9876543210";
    for row in 0..16usize {
        let digits = &text[..row + 1];
        let number = NUMBERS[row];
        expect_row(&rt, row, same(read_index(&capitals[..row + 3]), Ok(number)));
        expect_row(
            &rt,
            row,
            same(read_index(&capitals[2..row + 3]), Ok(number)),
        );
        expect_row(&rt, row, same(read_index(digits), Ok(number)));
        expect_row(&rt, row, is_plain(digits, (row >= 7).then_some(number)));
        expect_row(&rt, row, has_bytes(number, digits));
    }
    expect(&rt, "0", has_bytes(0, b"0"));
}

/// Whether a text with another byte at a place is refused. The bytes are those right below and
/// above the digits, and those that differ from a digit in one bit.
fn are_refused_at(rt: &HostRuntime, place: usize) -> bool {
    let others = *b"\x10\x11\x12\x13\x14\x15\x16\x17\x18\x19/:@G`gpqrstuvwxy\xb0\xb9\xe1\xe6";
    if place >= 15 {
        return false;
    }
    for (row, other) in others.iter().enumerate() {
        let mut text = *b"85283473fffffff";
        text[place] = *other;
        let is_refused = is_plain(&text, None) && same(read_index(&text), Err(H3Error::Failed));
        if !holds(rt, row, is_refused) {
            return false;
        }
    }
    true
}

#[test]
fn bytes_beside_the_digits_are_refused(rt: HostRuntime) {
    for place in 0..15usize {
        expect_row(&rt, place, are_refused_at(&rt, place));
    }
}

#[test]
fn indexes_are_written(rt: HostRuntime) {
    static ROWS: [(u64, &str); 4] = [
        (0, "0"),
        (0x85283473fffffff, "85283473fffffff"),
        (0x115283473fffffff, "115283473fffffff"),
        (u64::MAX, "ffffffffffffffff"),
    ];
    for (row, (index, text)) in ROWS.iter().enumerate() {
        expect_row(&rt, row, write_index(*index).as_str() == *text);
    }
}

/// Whether a text was made, and is this one.
fn is_text(found: Result<String, AllocError>, expected: &str) -> bool {
    match found {
        Ok(text) => text.as_str() == expected,
        Err(_) => false,
    }
}

#[test]
fn cells_and_edges_are_displayed(rt: HostRuntime) {
    let cell = cell(&rt, 0x85283473fffffff);
    let Ok(edge) = Edge::new(0x115283473fffffff) else {
        panic!(rt; "no edge")
    };
    let plain = format!(in rt.alloc(); "{cell} {edge}");
    expect(
        &rt,
        "a cell and an edge",
        is_text(plain, "85283473fffffff 115283473fffffff"),
    );
    let padded = format!(in rt.alloc(); "{cell:>17}|{edge:<18}|");
    expect(
        &rt,
        "padded",
        is_text(padded, "  85283473fffffff|115283473fffffff  |"),
    );
}

#[test]
fn cells_are_parsed(rt: HostRuntime) {
    static ROWS: [(&str, Expected); 5] = [
        ("85283473fffffff", Ok(0x85283473fffffff)),
        ("0x85283473FFFFFFF", Ok(0x85283473fffffff)),
        (" 085283473fffffff\r", Ok(0x85283473fffffff)),
        ("xyz", Err(H3Error::Failed)),
        ("115283473fffffff", Err(H3Error::CellInvalid)),
    ];
    for (row, (text, expected)) in ROWS.iter().enumerate() {
        expect_row(&rt, row, same_cell(text.parse::<Cell>(), *expected));
    }
}

#[test]
fn edges_are_parsed(rt: HostRuntime) {
    static ROWS: [(&str, Expected); 3] = [
        ("115283473fffffff", Ok(0x115283473fffffff)),
        ("", Err(H3Error::Failed)),
        ("85283473fffffff", Err(H3Error::DirEdgeInvalid)),
    ];
    for (row, (text, expected)) in ROWS.iter().enumerate() {
        expect_row(&rt, row, same_edge(text.parse::<Edge>(), *expected));
    }
}

/// A cell twice, siblings, a cousin, finer cells, those of base cells, a pentagon's, and the first
/// cell again.
#[test]
fn lines_are_put_one_after_another(rt: HostRuntime) {
    static ROWS: [(u64, &str); 16] = [
        (0x85283473fffffff, "...85283473fffffff\n"),
        (0x85283473fffffff, "...85283473fffffff\n"),
        (0x85283477fffffff, "...85283477fffffff\n"),
        (0x85283463fffffff, "...85283463fffffff\n"),
        (0x8528340ffffffff, "...8528340ffffffff\n"),
        (0x862834707ffffff, "...862834707ffffff\n"),
        (0x862834777ffffff, "...862834777ffffff\n"),
        (0x8f2834700000000, "...8f2834700000000\n"),
        (0x8f2834700000006, "...8f2834700000006\n"),
        (0x8f2834700000010, "...8f2834700000010\n"),
        (0x8001fffffffffff, "...8001fffffffffff\n"),
        (0x80f3fffffffffff, "...80f3fffffffffff\n"),
        (0x81083ffffffffff, "...81083ffffffffff\n"),
        (0x8108bffffffffff, "...8108bffffffffff\n"),
        (0x85283473fffffff, "...85283473fffffff\n"),
        (0x85f23473fffffff, "...85f23473fffffff\n"),
    ];
    let mut bytes = [b'.'; 20];
    for (row, (raw, text)) in ROWS.iter().enumerate() {
        let end = put_cell_line(cell(&rt, *raw), &mut bytes, 3);
        expect_row(&rt, row, &bytes[..end] == text.as_bytes());
    }
}

/// Whether the lines of the children of a cell coarser than resolution 15 are put after the first
/// three bytes, and those stay.
fn puts_children(bytes: &mut [u8; 116], parent: Cell, text: &str) -> bool {
    if parent.resolution() > 14 {
        return false;
    }
    let end = put_children_lines(parent, bytes, 3);
    &bytes[..end] == text.as_bytes()
}

/// The children of hexagons, of a pentagon, and of the cell before once more.
#[test]
fn the_lines_of_children_are_put_together(rt: HostRuntime) {
    static ROWS: [(u64, &str); 4] = [
        (
            0x85283473fffffff,
            "...862834707ffffff\n86283470fffffff\n862834717ffffff\n86283471fffffff\n\
             862834727ffffff\n86283472fffffff\n862834737ffffff\n",
        ),
        (
            0x8e2834700000007,
            "...8f2834700000000\n8f2834700000001\n8f2834700000002\n8f2834700000003\n\
             8f2834700000004\n8f2834700000005\n8f2834700000006\n",
        ),
        (
            0x8009fffffffffff,
            "...81083ffffffffff\n8108bffffffffff\n8108fffffffffff\n81093ffffffffff\n\
             81097ffffffffff\n8109bffffffffff\n",
        ),
        (
            0x8e2834700000007,
            "...8f2834700000000\n8f2834700000001\n8f2834700000002\n8f2834700000003\n\
             8f2834700000004\n8f2834700000005\n8f2834700000006\n",
        ),
    ];
    let mut bytes = [b'.'; 116];
    for (row, (raw, text)) in ROWS.iter().enumerate() {
        let parent = cell(&rt, *raw);
        expect_row(&rt, row, puts_children(&mut bytes, parent, text));
    }
}

#[test]
fn texts_of_blanks_alone_are_blank(rt: HostRuntime) {
    static ROWS: [(&str, bool); 6] = [
        ("", true),
        (" ", true),
        ("\t \r", true),
        ("8", false),
        (" 8", false),
        ("8 ", false),
    ];
    for (row, (text, expected)) in ROWS.iter().enumerate() {
        expect_row(&rt, row, is_blank_text(text.as_bytes()) == *expected);
    }
}
