//! Directions, carries, and the sums of a cell and a direction.

use crate::expected::{expect, expect_row};
use crate::rows::{cell, is_cell};
use h3_directions::{DIRECTIONS, Direction};
use h3_fakes::{differ, holds};
use h3_index::{Cell, Edge};
use h3_lattice::{Class, Digits, Moved, add, add_at, carry, edge_direction, turn};
use std::process::Abort;

/// The digit that is left, and the direction that is carried. There is a row for each digit, and a
/// column for each direction in the order of the digits.
type Carries = [[(u8, Option<Direction>); 6]; 7];

/// The carries of Class III.
static CARRIES_THREE: Carries = [
    [
        (1, None),
        (2, None),
        (3, None),
        (4, None),
        (5, None),
        (6, None),
    ],
    [
        (4, Some(Direction::K)),
        (3, None),
        (6, Some(Direction::K)),
        (5, None),
        (2, Some(Direction::IK)),
        (0, None),
    ],
    [
        (3, None),
        (1, Some(Direction::J)),
        (4, Some(Direction::JK)),
        (6, None),
        (0, None),
        (5, Some(Direction::J)),
    ],
    [
        (6, Some(Direction::K)),
        (4, Some(Direction::JK)),
        (5, Some(Direction::JK)),
        (0, None),
        (1, None),
        (2, None),
    ],
    [
        (5, None),
        (6, None),
        (0, None),
        (2, Some(Direction::I)),
        (3, Some(Direction::I)),
        (1, Some(Direction::IJ)),
    ],
    [
        (2, Some(Direction::IK)),
        (0, None),
        (1, None),
        (3, Some(Direction::I)),
        (6, Some(Direction::IK)),
        (4, None),
    ],
    [
        (0, None),
        (5, Some(Direction::J)),
        (2, None),
        (1, Some(Direction::IJ)),
        (4, None),
        (3, Some(Direction::IJ)),
    ],
];

/// The carries of Class II.
static CARRIES_TWO: Carries = [
    [
        (1, None),
        (2, None),
        (3, None),
        (4, None),
        (5, None),
        (6, None),
    ],
    [
        (2, Some(Direction::K)),
        (3, None),
        (4, Some(Direction::JK)),
        (5, None),
        (6, Some(Direction::K)),
        (0, None),
    ],
    [
        (3, None),
        (4, Some(Direction::J)),
        (5, Some(Direction::J)),
        (6, None),
        (0, None),
        (1, Some(Direction::IJ)),
    ],
    [
        (4, Some(Direction::JK)),
        (5, Some(Direction::J)),
        (6, Some(Direction::JK)),
        (0, None),
        (1, None),
        (2, None),
    ],
    [
        (5, None),
        (6, None),
        (0, None),
        (1, Some(Direction::I)),
        (2, Some(Direction::IK)),
        (3, Some(Direction::I)),
    ],
    [
        (6, Some(Direction::K)),
        (0, None),
        (1, None),
        (2, Some(Direction::IK)),
        (3, Some(Direction::IK)),
        (4, None),
    ],
    [
        (0, None),
        (1, Some(Direction::IJ)),
        (2, None),
        (3, Some(Direction::I)),
        (4, None),
        (5, Some(Direction::IJ)),
    ],
];

/// Whether there is the direction expected, or none where none is.
fn is_direction(found: Option<Direction>, expected: Option<Direction>) -> bool {
    match (found, expected) {
        (Some(direction), Some(other)) => direction == other,
        (None, None) => true,
        _ => false,
    }
}

/// A digit, its direction, the opposite one, and the direction turned once.
type Turns = (u8, Direction, Direction, Direction);

/// Whether a direction has this digit, and turns so.
fn turns((digit, direction, opposite, turned): Turns) -> bool {
    direction.digit() == digit
        && is_direction(Direction::from_digit(digit), Some(direction))
        && direction.opposite() == opposite
        && turn(direction, 1) == turned
        && turn(direction, 0) == direction
        && turn(direction, 3) == opposite
        && turn(direction, 255) == opposite
}

#[test]
fn directions_have_opposites_and_turns(rt: HostRuntime) {
    static ROWS: [Turns; 6] = [
        (1, Direction::K, Direction::IJ, Direction::IK),
        (2, Direction::J, Direction::IK, Direction::JK),
        (3, Direction::JK, Direction::I, Direction::K),
        (4, Direction::I, Direction::JK, Direction::IJ),
        (5, Direction::IK, Direction::J, Direction::I),
        (6, Direction::IJ, Direction::K, Direction::J),
    ];
    for row in 0..ROWS.len() {
        expect_row(&rt, row, turns(ROWS[row]));
    }
    static OTHERS: [u8; 3] = [0, 7, 255];
    for row in 0..OTHERS.len() {
        let found = Direction::from_digit(OTHERS[row]);
        expect_row(&rt, row, is_direction(found, None));
    }
}

/// Whether an edge leaves its origin in a direction.
fn leaves(edge: u64, direction: Direction) -> bool {
    match Edge::new(edge) {
        Ok(edge) => edge_direction(edge) == direction,
        Err(_) => false,
    }
}

#[test]
fn edges_have_directions(rt: HostRuntime) {
    static ROWS: [(u64, Direction); 6] = [
        (0x115283473fffffff, Direction::K),
        (0x125283473fffffff, Direction::J),
        (0x135283473fffffff, Direction::JK),
        (0x145283473fffffff, Direction::I),
        (0x155283473fffffff, Direction::IK),
        (0x165283473fffffff, Direction::IJ),
    ];
    for (row, (edge, direction)) in ROWS.iter().enumerate() {
        expect_row(&rt, row, leaves(*edge, *direction));
    }
}

/// Whether the carries of a digit, 0 to 6, are these.
fn has_carries(
    rt: &HostRuntime,
    class: Class,
    digit: u8,
    entries: &[(u8, Option<Direction>); 6],
) -> bool {
    if digit > 6 {
        return false;
    }
    for (column, direction) in DIRECTIONS.iter().enumerate() {
        let (left, carried) = carry(class, digit, *direction);
        let (other, expected) = entries[column];
        if !holds(rt, column, left == other && is_direction(carried, expected)) {
            return false;
        }
    }
    true
}

#[test]
fn carries_are_those_of_the_tables(rt: HostRuntime) {
    for digit in 0..7u8 {
        let row = usize::from(digit);
        let three = has_carries(&rt, Class::Three, digit, &CARRIES_THREE[row]);
        expect_row(&rt, row, three);
        let two = has_carries(&rt, Class::Two, digit, &CARRIES_TWO[row]);
        expect_row(&rt, row, two);
    }
}

/// The sum of a cell in a hexagon base cell and a direction, where it lies inside the base cell.
fn inside(cell: u64, direction: Direction) -> Option<Cell> {
    let Ok(cell) = Cell::new(cell) else {
        return None;
    };
    if cell.in_pentagon_base() {
        return None;
    }
    match add(cell, direction) {
        Moved::Inside(sum) => Some(sum),
        Moved::Across(_, _) => None,
    }
}

/// The border that such a sum lies across, and its digits, where it lies across one.
fn across(cell: u64, direction: Direction) -> Option<(Direction, Digits)> {
    let Ok(cell) = Cell::new(cell) else {
        return None;
    };
    if cell.in_pentagon_base() {
        return None;
    }
    match add(cell, direction) {
        Moved::Inside(_) => None,
        Moved::Across(border, digits) => Some((border, digits)),
    }
}

#[test]
fn a_sum_lies_inside(rt: HostRuntime) {
    expect(
        &rt,
        "inside",
        is_cell(inside(0x85283473fffffff, Direction::IJ), 0x85283447fffffff),
    );
}

#[test]
fn a_sum_at_a_given_resolution_is_the_same(rt: HostRuntime) {
    let start = cell(&rt, 0x85283473fffffff);
    if start.in_pentagon_base() {
        panic!(rt; "it is in a pentagon base cell");
    }
    match add_at(start, start.resolution(), Direction::IJ) {
        Moved::Inside(sum) => expect(&rt, "inside", sum.raw() == 0x85283447fffffff),
        Moved::Across(_, _) => panic!(rt; "it lies across"),
    }
}

#[test]
fn a_sum_lies_across(rt: HostRuntime) {
    let Some((border, digits)) = across(0x813d3ffffffffff, Direction::I) else {
        panic!(rt; "it lies inside")
    };
    expect(&rt, "border", border == Direction::I);
    expect(&rt, "resolution", digits.resolution() == 1);
    expect(&rt, "digit 1", digits.digit(1) == 2);
    expect(&rt, "digit 2", digits.digit(2) == 7);
    expect(&rt, "a turn", digits.turned(1).digit(1) == 3);
    expect(&rt, "the cell", digits.at(30).raw() == 0x813cbffffffffff);
}

#[test]
fn a_base_cell_has_no_digit_to_add_to(rt: HostRuntime) {
    let Some((border, digits)) = across(0x803dfffffffffff, Direction::JK) else {
        panic!(rt; "it lies inside")
    };
    expect(&rt, "border", border == Direction::JK);
    expect(&rt, "resolution", digits.resolution() == 0);
    expect(&rt, "the cell", digits.at(0).raw() == 0x8001fffffffffff);
}

#[test]
fn classes_alternate(rt: HostRuntime) {
    expect(&rt, "resolution 0", Class::at(0) == Class::Two);
    expect(&rt, "resolution 15", Class::at(15) == Class::Three);
}

#[test]
fn only_the_same_directions_and_classes_are_equal(rt: HostRuntime) {
    expect(&rt, "directions", differ(&rt, &DIRECTIONS));
    expect(&rt, "classes", differ(&rt, &[Class::Two, Class::Three]));
}

/// The digits of the sum of a cell and the direction I, which lies across a border.
fn digits_across(rt: &impl Abort, cell: u64) -> Digits {
    match across(cell, Direction::I) {
        Some((_, digits)) => digits,
        None => panic!(rt; "{cell:x} and I lie inside"),
    }
}

/// The digits of the cells are 4 in base cell 30, 4 in base cell 31, and 4 4 4 4 4; so those of the
/// sums are 2, 2, and 2 1 2 1 2. The digit 2 turned four times is 4.
#[test]
fn only_the_same_sums_and_digits_are_equal(rt: HostRuntime) {
    let beside = digits_across(&rt, 0x813d3ffffffffff);
    let same = digits_across(&rt, 0x813f3ffffffffff);
    let short = beside.turned(4);
    let long = digits_across(&rt, 0x853d2493fffffff);
    expect(
        &rt,
        "digits",
        short.resolution() == 1 && short.digit(1) == 4 && long.resolution() == 5,
    );
    let sums = [
        Moved::Inside(cell(&rt, 0x813d3ffffffffff)),
        Moved::Inside(cell(&rt, 0x85283473fffffff)),
        Moved::Across(Direction::K, short),
        Moved::Across(Direction::K, long),
        Moved::Across(Direction::J, short),
    ];
    expect(&rt, "sums", differ(&rt, &sums));
    expect(&rt, "digits differ", differ(&rt, &[short, long, beside]));
    expect(&rt, "the same digits", beside == same);
}
