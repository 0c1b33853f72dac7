//! The hierarchy of cells: parents, children and positions among them.

use crate::expected::{expect, expect_row};
use crate::rows::{Expected, cell, clone_of, copy_of, is_cell, same, same_cell};
use h3_fakes::holds;
use h3_index::{Cell, H3Error};
use h3_tree::{
    Children, center_child, child_at, child_pos, children, children_at, children_size, last_child,
    parent, post_order_key, sibling_groups_at,
};
use std::mem::size_of;

/// A hexagon of resolution 5, and its children.
const HEXAGON: u64 = 0x85283473fffffff;

static CHILDREN: [u64; 7] = [
    0x862834707ffffff,
    0x86283470fffffff,
    0x862834717ffffff,
    0x86283471fffffff,
    0x862834727ffffff,
    0x86283472fffffff,
    0x862834737ffffff,
];

/// The pentagon of base cell 4, and its children.
const PENTAGON: u64 = 0x8009fffffffffff;

static CHILDREN_OF_PENTAGON: [u64; 6] = [
    0x81083ffffffffff,
    0x8108bffffffffff,
    0x8108fffffffffff,
    0x81093ffffffffff,
    0x81097ffffffffff,
    0x8109bffffffffff,
];

#[test]
fn parents(rt: HostRuntime) {
    static ROWS: [(i32, Expected); 5] = [
        (4, Ok(0x8428347ffffffff)),
        (5, Ok(HEXAGON)),
        (6, Err(H3Error::ResMismatch)),
        (16, Err(H3Error::ResDomain)),
        (-1, Err(H3Error::ResDomain)),
    ];
    let hexagon = cell(&rt, HEXAGON);
    for (row, (res, expected)) in ROWS.iter().enumerate() {
        expect_row(&rt, row, same_cell(parent(hexagon, *res), *expected));
    }
}

fn children_of(cell: u64, res: i32) -> Result<Children, H3Error> {
    match Cell::new(cell) {
        Ok(cell) => children(cell, res),
        Err(error) => Err(error),
    }
}

/// Whether these cells are the next children.
fn begins(rt: &HostRuntime, items: &mut Children, expected: &[u64]) -> bool {
    for (place, cell) in expected.iter().enumerate() {
        if !holds(rt, place, is_cell(items.next(), *cell)) {
            return false;
        }
    }
    true
}

/// Whether these cells are all children that are left. There are none after the end.
fn gives(rt: &HostRuntime, items: &mut Children, expected: &[u64]) -> bool {
    begins(rt, items, expected) && items.next().is_none() && items.next().is_none()
}

/// Whether the children of a cell at a resolution are the cells listed.
fn has_children(rt: &HostRuntime, cell: u64, res: i32, expected: &[u64]) -> bool {
    match children_of(cell, res) {
        Ok(mut items) => gives(rt, &mut items, expected),
        Err(_) => false,
    }
}

#[test]
fn cells_have_children(rt: HostRuntime) {
    expect(&rt, "hexagon", has_children(&rt, HEXAGON, 6, &CHILDREN));
    expect(
        &rt,
        "pentagon",
        has_children(&rt, PENTAGON, 1, &CHILDREN_OF_PENTAGON),
    );
    expect(
        &rt,
        "coarser",
        matches!(children_of(HEXAGON, 4), Err(H3Error::ResDomain)),
    );
}

/// Whether children and a copy of them give the same.
fn are_copied(rt: &HostRuntime) -> bool {
    let Ok(mut items) = children_of(HEXAGON, 6) else {
        return false;
    };
    let mut again = copy_of(&items);
    gives(rt, &mut items, &CHILDREN) && gives(rt, &mut again, &CHILDREN)
}

/// Whether children, after the first two of them, and a clone of them give the rest.
fn are_cloned(rt: &HostRuntime) -> bool {
    let Ok(mut items) = children_of(HEXAGON, 6) else {
        return false;
    };
    let (first, rest) = CHILDREN.split_at(2);
    let begins_well = begins(rt, &mut items, first);
    let Ok(mut again) = clone_of(&items) else {
        return false;
    };
    begins_well && gives(rt, &mut items, rest) && gives(rt, &mut again, rest)
}

#[test]
fn a_copy_or_a_clone_of_children_goes_on_where_they_stand(rt: HostRuntime) {
    expect(&rt, "copy", are_copied(&rt));
    expect(&rt, "clone", are_cloned(&rt));
}

/// They have room for a cell and two numbers alone, and what is copied owns no collection.
#[test]
fn children_hold_a_cell_and_two_numbers(rt: HostRuntime) {
    expect(
        &rt,
        "size",
        size_of::<Children>() == size_of::<(Cell, u64, u64)>(),
    );
}

/// At its own resolution there is the cell alone.
#[test]
fn children_at_a_known_resolution(rt: HostRuntime) {
    let parent = cell(&rt, HEXAGON);
    let own = parent.resolution();
    expect(
        &rt,
        "its own resolution",
        gives(&rt, &mut children_at(parent, own), &[HEXAGON]),
    );
    expect(
        &rt,
        "resolution 15",
        begins(&rt, &mut children_at(parent, 15), &[0x8f2834700000000]),
    );
}

/// Whether the sibling groups of resolution 2 below a coarser cell have these parents.
fn has_groups(rt: &HostRuntime, cell: Cell, parents: &[u64]) -> bool {
    if cell.resolution() >= 2 {
        return false;
    }
    let mut groups = sibling_groups_at(cell, 2);
    for (place, raw) in parents.iter().enumerate() {
        let found = groups.next().map(|siblings| siblings.parent());
        if !holds(rt, place, is_cell(found, *raw)) {
            return false;
        }
    }
    groups.next().is_none() && groups.next().is_none()
}

#[test]
fn sibling_groups_of_grandchildren(rt: HostRuntime) {
    expect(
        &rt,
        "pentagon",
        has_groups(&rt, cell(&rt, PENTAGON), &CHILDREN_OF_PENTAGON),
    );
}

/// The last child of a cell, the cell, and a child of the next one.
#[test]
fn a_cell_comes_after_its_children(rt: HostRuntime) {
    static ROWS: [(u64, u64); 3] = [
        (0x862834737ffffff, 0x2834737ffffff),
        (HEXAGON, 0x283473fffffff),
        (0x862834747ffffff, 0x2834747ffffff),
    ];
    let mut before = 0u64;
    for (row, (raw, key)) in ROWS.iter().enumerate() {
        let found = post_order_key(cell(&rt, *raw));
        expect_row(&rt, row, before < *key && found == *key);
        before = *key;
    }
}

#[test]
fn children_are_counted(rt: HostRuntime) {
    static ROWS: [(u64, i32, Expected); 6] = [
        (0x8029fffffffffff, 15, Ok(4747561509943)),
        (PENTAGON, 15, Ok(3956301258286)),
        (HEXAGON, 6, Ok(7)),
        (HEXAGON, -1, Err(H3Error::ResDomain)),
        (HEXAGON, 4, Err(H3Error::ResDomain)),
        (HEXAGON, 16, Err(H3Error::ResDomain)),
    ];
    for (row, (raw, res, expected)) in ROWS.iter().enumerate() {
        let found = children_size(cell(&rt, *raw), *res);
        expect_row(&rt, row, same(found, *expected));
    }
}

#[test]
fn center_children(rt: HostRuntime) {
    static ROWS: [(i32, Expected); 5] = [
        (15, Ok(0x8f2834700000000)),
        (5, Ok(HEXAGON)),
        (-1, Err(H3Error::ResDomain)),
        (4, Err(H3Error::ResDomain)),
        (16, Err(H3Error::ResDomain)),
    ];
    let hexagon = cell(&rt, HEXAGON);
    for (row, (res, expected)) in ROWS.iter().enumerate() {
        expect_row(&rt, row, same_cell(center_child(hexagon, *res), *expected));
    }
}

#[test]
fn last_children(rt: HostRuntime) {
    static ROWS: [(u64, i32, Expected); 9] = [
        (HEXAGON, 6, Ok(0x862834737ffffff)),
        (HEXAGON, 7, Ok(0x872834736ffffff)),
        (HEXAGON, 15, Ok(0x8f2834736db6db6)),
        (HEXAGON, 5, Ok(HEXAGON)),
        (PENTAGON, 1, Ok(0x8109bffffffffff)),
        (PENTAGON, 15, Ok(0x8f09b6db6db6db6)),
        (HEXAGON, -1, Err(H3Error::ResDomain)),
        (HEXAGON, 4, Err(H3Error::ResDomain)),
        (HEXAGON, 16, Err(H3Error::ResDomain)),
    ];
    for (row, (raw, res, expected)) in ROWS.iter().enumerate() {
        let found = last_child(cell(&rt, *raw), *res);
        expect_row(&rt, row, same_cell(found, *expected));
    }
}

/// The first and the last of a cell's children at a resolution; `None` where it has none there.
fn ends_of(cell: Cell, res: i32) -> Option<(Cell, Cell)> {
    let Ok(mut items) = children(cell, res) else {
        return None;
    };
    let Some(first) = items.next() else {
        return None;
    };
    let mut last = first;
    for child in items {
        last = child;
    }
    Some((first, last))
}

/// Whether a cell has such children, and they are the center child and the last one.
fn has_ends(cell: Cell, res: i32) -> bool {
    match (
        ends_of(cell, res),
        center_child(cell, res),
        last_child(cell, res),
    ) {
        (Some((first, last)), Ok(center), Ok(end)) => first == center && last == end,
        _ => false,
    }
}

/// The children of a cell at a resolution begin with the center child and end with the last one.
#[test]
fn children_go_from_the_center_to_the_last(rt: HostRuntime) {
    static ROWS: [(u64, i32); 6] = [
        (HEXAGON, 5),
        (HEXAGON, 6),
        (HEXAGON, 9),
        (PENTAGON, 0),
        (PENTAGON, 1),
        (PENTAGON, 4),
    ];
    for (row, (raw, res)) in ROWS.iter().enumerate() {
        expect_row(&rt, row, has_ends(cell(&rt, *raw), *res));
    }
}

#[test]
fn positions(rt: HostRuntime) {
    static ROWS: [(u64, i32, Expected); 9] = [
        (HEXAGON, 0, Ok(2279)),
        (0x85284003fffffff, 0, Ok(2401)),
        (HEXAGON, 5, Ok(0)),
        (HEXAGON, 6, Err(H3Error::ResMismatch)),
        (HEXAGON, 16, Err(H3Error::ResDomain)),
        (HEXAGON, -1, Err(H3Error::ResDomain)),
        (0x8209b7fffffffff, 0, Ok(40)),
        (0x8108bffffffffff, 0, Ok(1)),
        (0x820817fffffffff, 0, Ok(1)),
    ];
    for (row, (raw, res, expected)) in ROWS.iter().enumerate() {
        let found = child_pos(cell(&rt, *raw), *res);
        expect_row(&rt, row, same(found, *expected));
    }
}

#[test]
fn members_at_positions(rt: HostRuntime) {
    static ROWS: [(u64, u64, i32, Expected); 9] = [
        (2279, 0x8029fffffffffff, 5, Ok(HEXAGON)),
        (0, PENTAGON, 2, Ok(0x820807fffffffff)),
        (6, PENTAGON, 2, Ok(0x820887fffffffff)),
        (40, PENTAGON, 2, Ok(0x8209b7fffffffff)),
        (41, PENTAGON, 2, Err(H3Error::Domain)),
        (0, 0x8108bffffffffff, 0, Err(H3Error::ResMismatch)),
        (0, PENTAGON, 16, Err(H3Error::ResDomain)),
        (41, 0x8108bffffffffff, 16, Err(H3Error::ResDomain)),
        (41, 0x8108bffffffffff, 0, Err(H3Error::ResMismatch)),
    ];
    for (row, (position, raw, res, expected)) in ROWS.iter().enumerate() {
        let found = child_at(*position, cell(&rt, *raw), *res);
        expect_row(&rt, row, same_cell(found, *expected));
    }
}
