//! Cells: their numbers, the moves from one to another, and those that are found by a number.

use crate::expected::{expect, expect_row};
use crate::rows::{Expected, cell, same, same_cell};
use h3_index::{Cell, H3Error, is_pentagon_base, num_cells, pentagon, res0_cell, resolution_from};
use std::cmp::Ordering;

/// A hexagon of resolution 5 in base cell 20, with the digits 0 6 4 3 4.
const HEXAGON: u64 = 0x85283473fffffff;

/// The pentagon of base cell 4.
const PENTAGON: u64 = 0x8009fffffffffff;

#[test]
fn a_cell_has_the_fields_of_its_number(rt: HostRuntime) {
    static DIGITS: [u8; 15] = [0, 6, 4, 3, 4, 7, 7, 7, 7, 7, 7, 7, 7, 7, 7];
    let hexagon = cell(&rt, HEXAGON);
    expect(&rt, "number", hexagon.raw() == HEXAGON);
    expect(&rt, "resolution", hexagon.resolution() == 5);
    expect(&rt, "base cell", hexagon.base_cell() == 20);
    for r in 1..16u8 {
        let place = usize::from(r) - 1;
        expect_row(&rt, place, hexagon.digit(r) == DIGITS[place]);
    }
}

/// Whether a cell with another digit has a number; it has not where the digit cannot be replaced.
fn has_with_digit(cell: Cell, r: u8, digit: u8, expected: u64) -> bool {
    if r < 1 || r > cell.resolution() || digit > 6 || cell.in_pentagon_base() {
        return false;
    }
    cell.with_digit(r, digit).raw() == expected
}

#[test]
fn a_digit_is_replaced(rt: HostRuntime) {
    static ROWS: [(u8, u8, u64); 4] = [
        (5, 3, 0x8528346ffffffff),
        (5, 0, 0x85283463fffffff),
        (5, 4, 0x85283473fffffff),
        (1, 6, 0x8529b473fffffff),
    ];
    let hexagon = cell(&rt, HEXAGON);
    for (row, (r, digit, expected)) in ROWS.iter().enumerate() {
        expect_row(&rt, row, has_with_digit(hexagon, *r, *digit, *expected));
    }
}

/// Whether a cell with another base cell has a number; it has not where that is none or a pentagon.
fn has_with_base(cell: Cell, base: u8, expected: u64) -> bool {
    if base > 121 || is_pentagon_base(base) {
        return false;
    }
    cell.with_base(base).raw() == expected
}

#[test]
fn the_base_cell_is_replaced(rt: HostRuntime) {
    static ROWS: [(u64, u8, u64); 4] = [
        (HEXAGON, 0, 0x85003473fffffff),
        (HEXAGON, 121, 0x85f23473fffffff),
        (0x85f23473fffffff, 0, 0x85003473fffffff),
        (PENTAGON, 0, 0x8001fffffffffff),
    ];
    for (row, (raw, base, expected)) in ROWS.iter().enumerate() {
        let is_right = has_with_base(cell(&rt, *raw), *base, *expected);
        expect_row(&rt, row, is_right);
    }
}

#[test]
fn other_numbers_are_no_cells(rt: HostRuntime) {
    static NUMBERS: [u64; 12] = [
        0x81087ffffffffff,
        0x80f5fffffffffff,
        0x8109fffffffffff,
        0x885283473fffffff,
        0x115283473fffffff,
        0x95283473fffffff,
        0,
        // an unused digit that is not 7, a used one that is, and the
        // deleted subsequence in a second digit
        0x85283473ffffff8,
        0x85283473fffefff,
        0x8528347ffffffff,
        0x8529f473fffffff,
        0x82080ffffffffff,
    ];
    for (row, raw) in NUMBERS.iter().enumerate() {
        expect_row(
            &rt,
            row,
            same_cell(Cell::new(*raw), Err(H3Error::CellInvalid)),
        );
    }
}

/// In base cell 4, a pentagon: the digits 0 2, and 2 1.
#[test]
fn digits_beside_the_deleted_subsequence_are_accepted(rt: HostRuntime) {
    for (row, raw) in [0x820817fffffffff, 0x82088ffffffffff].iter().enumerate() {
        expect_row(&rt, row, same_cell(Cell::new(*raw), Ok(*raw)));
    }
}

#[test]
fn twelve_base_cells_are_pentagons(rt: HostRuntime) {
    expect(
        &rt,
        "pentagons",
        (0..255u8).filter(|b| is_pentagon_base(*b)).count() == 12,
    );
}

#[test]
fn pentagons_and_classes_are_returned(rt: HostRuntime) {
    // whether it is a pentagon, lies in a pentagon base cell, and is of Class III
    static ROWS: [(u64, bool, bool, bool); 4] = [
        (0x81083ffffffffff, true, true, true),
        (0x8108bffffffffff, false, true, true),
        (HEXAGON, false, false, true),
        (PENTAGON, true, true, false),
    ];
    for (row, (raw, is_pentagon, is_inside, is_class_iii)) in ROWS.iter().enumerate() {
        let found = cell(&rt, *raw);
        expect_row(&rt, row, found.is_pentagon() == *is_pentagon);
        expect_row(&rt, row, found.in_pentagon_base() == *is_inside);
        expect_row(&rt, row, found.is_class_iii() == *is_class_iii);
    }
}

/// Whether a cell is raised to the cell expected, or not raised where none is.
fn raises_to(cell: Cell, expected: Option<u64>) -> bool {
    match (cell.raised(cell.last_digit_step()), expected) {
        (Some(next), Some(raw)) => next.raw() == raw,
        (None, None) => true,
        _ => false,
    }
}

/// Up to the digit 6, and neither base cells nor pentagons.
#[test]
fn cells_are_raised(rt: HostRuntime) {
    static ROWS: [(u64, Option<u64>); 7] = [
        (0x85283473fffffff, Some(0x85283477fffffff)),
        (0x85283477fffffff, Some(0x8528347bfffffff)),
        (0x8528347bfffffff, None),
        (0x8108bffffffffff, Some(0x8108fffffffffff)),
        (0x8009fffffffffff, None),
        (0x8029fffffffffff, None),
        (0x81083ffffffffff, None),
    ];
    for (row, (raw, next)) in ROWS.iter().enumerate() {
        expect_row(&rt, row, raises_to(cell(&rt, *raw), *next));
    }
}

#[test]
fn a_unit_is_one_in_the_last_digit(rt: HostRuntime) {
    static ROWS: [(u64, u64); 4] = [
        (HEXAGON, 0x40000000),
        (PENTAGON, 0x200000000000),
        (0x8f2834700000000, 1),
        (0x862834707ffffff, 0x8000000),
    ];
    for (row, (raw, unit)) in ROWS.iter().enumerate() {
        expect_row(&rt, row, cell(&rt, *raw).last_digit_step() == *unit);
    }
}

fn resolution_of(res: i32) -> Result<u64, H3Error> {
    match resolution_from(res) {
        Ok(resolution) => Ok(u64::from(resolution)),
        Err(error) => Err(error),
    }
}

#[test]
fn whole_numbers_are_resolutions(rt: HostRuntime) {
    static ROWS: [(i32, Expected); 6] = [
        (0, Ok(0)),
        (15, Ok(15)),
        (-1, Err(H3Error::ResDomain)),
        (16, Err(H3Error::ResDomain)),
        (i32::MIN, Err(H3Error::ResDomain)),
        (i32::MAX, Err(H3Error::ResDomain)),
    ];
    for (row, (res, expected)) in ROWS.iter().enumerate() {
        expect_row(&rt, row, same(resolution_of(*res), *expected));
    }
}

#[test]
fn cells_are_counted(rt: HostRuntime) {
    static ROWS: [(i32, Expected); 4] = [
        (0, Ok(122)),
        (15, Ok(569707381193162)),
        (-1, Err(H3Error::ResDomain)),
        (16, Err(H3Error::ResDomain)),
    ];
    for (row, (res, expected)) in ROWS.iter().enumerate() {
        expect_row(&rt, row, same(num_cells(*res), *expected));
    }
}

#[test]
fn base_cells_are_made(rt: HostRuntime) {
    static ROWS: [(i32, Expected); 4] = [
        (0, Ok(0x8001fffffffffff)),
        (121, Ok(0x80f3fffffffffff)),
        (-1, Err(H3Error::Domain)),
        (122, Err(H3Error::Domain)),
    ];
    for (row, (b, expected)) in ROWS.iter().enumerate() {
        expect_row(&rt, row, same_cell(res0_cell(*b), *expected));
    }
}

#[test]
fn pentagons_are_made(rt: HostRuntime) {
    static ROWS: [(i32, i32, Expected); 17] = [
        (0, 0, Ok(0x8009fffffffffff)),
        (0, 1, Ok(0x801dfffffffffff)),
        (0, 2, Ok(0x8031fffffffffff)),
        (0, 3, Ok(0x804dfffffffffff)),
        (0, 4, Ok(0x8063fffffffffff)),
        (0, 5, Ok(0x8075fffffffffff)),
        (0, 6, Ok(0x807ffffffffffff)),
        (0, 7, Ok(0x8091fffffffffff)),
        (0, 8, Ok(0x80a7fffffffffff)),
        (0, 9, Ok(0x80c3fffffffffff)),
        (0, 10, Ok(0x80d7fffffffffff)),
        (0, 11, Ok(0x80ebfffffffffff)),
        (1, 0, Ok(0x81083ffffffffff)),
        (1, 11, Ok(0x81ea3ffffffffff)),
        (16, 12, Err(H3Error::ResDomain)),
        (15, 12, Err(H3Error::Domain)),
        (15, -1, Err(H3Error::Domain)),
    ];
    for (row, (res, n, expected)) in ROWS.iter().enumerate() {
        expect_row(&rt, row, same_cell(pentagon(*res, *n), *expected));
    }
}

#[test]
fn cells_are_ordered_by_number(rt: HostRuntime) {
    let first = cell(&rt, 0x8001fffffffffff);
    let last = cell(&rt, 0x80f3fffffffffff);
    let finer = cell(&rt, 0x81083ffffffffff);
    expect(&rt, "in order", first < last && last < finer);
    expect(
        &rt,
        "equal",
        first == cell(&rt, 0x8001fffffffffff) && first != last,
    );
    expect(&rt, "less", matches!(first.cmp(&last), Ordering::Less));
    expect(
        &rt,
        "greater",
        matches!(finer.cmp(&last), Ordering::Greater),
    );
}
