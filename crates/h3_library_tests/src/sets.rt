//! Sets of cells: compaction and uncompaction.

use crate::expected::expect;
use crate::rows::{Cells, cell, clone_of, copy_of, is_cell, is_list};
use h3_fakes::holds;
use h3_index::{Cell, H3Error};
use h3_set::{Compaction, Uncompact, compact_cells, compact_in_order, compact_in_place, uncompact};
use h3_tree::{Children, children};
use std::alloc::{AllocError, Global};
use std::mem::size_of;
use std::process::Abort;

/// A hexagon of resolution 5, and its children.
const HEXAGON: u64 = 0x85283473fffffff;

static CHILDREN: [u64; 7] = [
    0x862834707ffffff,
    0x86283470fffffff,
    0x862834717ffffff,
    0x86283471fffffff,
    0x862834727ffffff,
    0x86283472fffffff,
    0x862834737ffffff,
];

/// The parent of `HEXAGON`.
const PARENT: u64 = 0x8428347ffffffff;

/// Base cell 20, which `HEXAGON` is in.
const BASE: u64 = 0x8029fffffffffff;

/// The pentagon of base cell 4, a cell of resolution 1, and the cells of that resolution below
/// both.
const PENTAGON: u64 = 0x8009fffffffffff;

const BESIDE: u64 = 0x81283ffffffffff;

static BELOW_BOTH: [u64; 7] = [
    0x81083ffffffffff,
    0x8108bffffffffff,
    0x8108fffffffffff,
    0x81093ffffffffff,
    0x81097ffffffffff,
    0x8109bffffffffff,
    BESIDE,
];

/// How many slots the lists have that are compacted into slots.
const SLOTS: usize = 64;

/// Whether these cells are the next of an uncompacted list.
fn begins(rt: &HostRuntime, items: &mut Uncompact<'_>, expected: &[u64]) -> bool {
    for (place, cell) in expected.iter().enumerate() {
        if !holds(rt, place, is_cell(items.next(), *cell)) {
            return false;
        }
    }
    true
}

/// Whether these cells are all that is left of an uncompacted list. There are none after the end.
fn gives(rt: &HostRuntime, items: &mut Uncompact<'_>, expected: &[u64]) -> bool {
    begins(rt, items, expected) && items.next().is_none() && items.next().is_none()
}

/// Whether the cells of a resolution below a list of cells are the cells listed.
fn uncompacts(rt: &HostRuntime, cells: &[Cell], res: i32, expected: &[u64]) -> bool {
    match uncompact(cells, res) {
        Ok(mut items) => gives(rt, &mut items, expected),
        Err(_) => false,
    }
}

/// Whether the cells of a resolution below a list of cells are refused with an error.
fn is_refused(cells: &[Cell], res: i32, expected: H3Error) -> bool {
    match uncompact(cells, res) {
        Ok(_) => false,
        Err(error) => error == expected,
    }
}

#[test]
fn one_cell_is_uncompacted(rt: HostRuntime) {
    let cells = [cell(&rt, HEXAGON)];
    expect(&rt, "resolution 6", uncompacts(&rt, &cells, 6, &CHILDREN));
    expect(
        &rt,
        "resolution 4",
        is_refused(&cells, 4, H3Error::ResMismatch),
    );
    expect(
        &rt,
        "resolution -1",
        is_refused(&cells, -1, H3Error::ResDomain),
    );
    let finest = [cell(&rt, 0x8f2834700000000)];
    expect(
        &rt,
        "resolution 15",
        uncompacts(&rt, &finest, 15, &[0x8f2834700000000]),
    );
}

#[test]
fn cells_of_two_resolutions_are_uncompacted(rt: HostRuntime) {
    let cells = [cell(&rt, PENTAGON), cell(&rt, BESIDE)];
    expect(&rt, "both", uncompacts(&rt, &cells, 1, &BELOW_BOTH));
}

#[test]
fn no_cells_are_uncompacted(rt: HostRuntime) {
    expect(&rt, "resolution 5", uncompacts(&rt, &[], 5, &[]));
    expect(
        &rt,
        "resolution 16",
        is_refused(&[], 16, H3Error::ResDomain),
    );
    expect(
        &rt,
        "resolution -1",
        is_refused(&[], -1, H3Error::ResDomain),
    );
}

#[test]
fn repeats_are_uncompacted(rt: HostRuntime) {
    let repeated = cell(&rt, HEXAGON);
    expect(
        &rt,
        "repeated",
        uncompacts(&rt, &[repeated, repeated], 5, &[HEXAGON, HEXAGON]),
    );
}

/// Whether an uncompacted list and a copy of it give the same.
fn is_copied(rt: &HostRuntime, cells: &[Cell]) -> bool {
    let Ok(mut items) = uncompact(cells, 6) else {
        return false;
    };
    let mut again = copy_of(&items);
    gives(rt, &mut items, &CHILDREN) && gives(rt, &mut again, &CHILDREN)
}

/// Whether an uncompacted list, after its first two cells, and a clone of it give the rest.
fn is_cloned(rt: &HostRuntime, cells: &[Cell]) -> bool {
    let Ok(mut items) = uncompact(cells, 1) else {
        return false;
    };
    let (first, rest) = BELOW_BOTH.split_at(2);
    let begins_well = begins(rt, &mut items, first);
    let Ok(mut again) = clone_of(&items) else {
        return false;
    };
    begins_well && gives(rt, &mut items, rest) && gives(rt, &mut again, rest)
}

#[test]
fn a_copy_or_a_clone_of_an_uncompact_goes_on_where_it_stands(rt: HostRuntime) {
    expect(&rt, "copy", is_copied(&rt, &[cell(&rt, HEXAGON)]));
    expect(
        &rt,
        "clone",
        is_cloned(&rt, &[cell(&rt, PENTAGON), cell(&rt, BESIDE)]),
    );
}

/// It has room for these alone, and what is copied owns no collection.
#[test]
fn an_uncompact_holds_the_rest_a_resolution_and_children(rt: HostRuntime) {
    let parts = size_of::<(&[Cell], u8, Option<Children>)>();
    expect(&rt, "size", size_of::<Uncompact<'_>>() == parts);
}

/// Whether each slot from a place on has this cell.
fn are_all(slots: &[Cell], from: usize, cell: Cell) -> bool {
    for slot in slots.iter().skip(from) {
        if *slot != cell {
            return false;
        }
    }
    true
}

/// Whether the compacted list of the cells has the cells expected, and the slots after as many as
/// the cells stay.
fn compacts(rt: &HostRuntime, cells: &[Cell], expected: &[u64]) -> bool {
    let other = Cell::in_base(121);
    let mut slots = [other; SLOTS];
    let given = cells.len();
    if given > SLOTS {
        return false;
    }
    let Ok(count) = compact_cells(cells, &mut slots) else {
        return false;
    };
    is_list(rt, &slots[..count], expected) && are_all(&slots, given, other)
}

/// Up to 64 descendants of a cell at a resolution; none where they are refused.
fn descendants(cell: u64, res: i32) -> Cells {
    let mut cells = Cells::none();
    if let Ok(ancestor) = Cell::new(cell)
        && let Ok(items) = children(ancestor, res)
    {
        for cell in items {
            cells.push(cell);
        }
    }
    cells
}

#[test]
fn seven_siblings_are_compacted(rt: HostRuntime) {
    let mut cells = descendants(HEXAGON, 6);
    cells.reverse();
    expect(&rt, "hexagon", compacts(&rt, cells.all(), &[HEXAGON]));
}

#[test]
fn the_six_siblings_of_a_pentagon_are_compacted(rt: HostRuntime) {
    let mut cells = descendants(PENTAGON, 1);
    expect(&rt, "pentagon", compacts(&rt, cells.all(), &[PENTAGON]));
    let _ = cells.pop();
    expect(
        &rt,
        "all but one",
        compacts(&rt, cells.all(), &BELOW_BOTH[..5]),
    );
}

/// Whether two lists of slots have the same cells from one place to another.
fn are_same(slots: &[Cell], others: &[Cell], from: usize, to: usize) -> bool {
    if from > to || to > slots.len() || to > others.len() {
        return false;
    }
    let ours = &slots[from..to];
    let theirs = &others[from..to];
    ours == theirs
}

/// Whether a compaction of cells of resolution 2 and coarser in its two rounds leaves the list that
/// `compact_cells` does, and the same slots after those of the cells.
fn rounds_agree(rt: &HostRuntime, cells: &[Cell]) -> bool {
    let mut slots = [Cell::in_base(121); SLOTS];
    let mut others = slots;
    if cells.len() > SLOTS {
        return false;
    }
    let Ok(count) = compact_cells(cells, &mut slots) else {
        return false;
    };
    let Ok(first) = Compaction::start(cells, &mut others) else {
        return false;
    };
    if !holds(rt, 0, first.level() == 2) || !holds(rt, 1, first.len() == cells.len()) {
        return false;
    }
    let second = first.round(&mut others);
    if !holds(rt, 2, second.level() == 1) {
        return false;
    }
    let last = second.round(&mut others);
    holds(rt, 3, last.level() == 0)
        && holds(rt, 4, last.finish(&mut others) == count)
        && holds(rt, 5, are_same(&slots, &others, 0, count))
        && holds(rt, 6, are_same(&slots, &others, cells.len(), SLOTS))
}

#[test]
fn two_levels_are_compacted(rt: HostRuntime) {
    static REST: [u64; 12] = [
        0x81283ffffffffff,
        0x81287ffffffffff,
        0x8128bffffffffff,
        0x8128fffffffffff,
        0x81293ffffffffff,
        0x81297ffffffffff,
        0x822987fffffffff,
        0x82298ffffffffff,
        0x822997fffffffff,
        0x82299ffffffffff,
        0x8229a7fffffffff,
        0x8229affffffffff,
    ];
    let mut cells = descendants(BASE, 2);
    expect(&rt, "49 cells", cells.all().len() == 49);
    expect(&rt, "all", compacts(&rt, cells.all(), &[BASE]));
    expect(&rt, "rounds of all", rounds_agree(&rt, cells.all()));
    expect(&rt, "the last", is_cell(cells.pop(), 0x8229b7fffffffff));
    expect(&rt, "all but the last", compacts(&rt, cells.all(), &REST));
    expect(
        &rt,
        "rounds of all but the last",
        rounds_agree(&rt, cells.all()),
    );
    cells.push(Cell::in_base(121));
    expect(
        &rt,
        "rounds with another base cell",
        rounds_agree(&rt, cells.all()),
    );
    cells.reverse();
    expect(&rt, "rounds in reverse", rounds_agree(&rt, cells.all()));
}

/// Whether a compaction of cells has this level and this many slots in use before its first round.
fn starts(cells: &[Cell], level: u8, len: usize) -> bool {
    let mut slots = [Cell::in_base(121); SLOTS];
    if cells.len() > SLOTS {
        return false;
    }
    match Compaction::start(cells, &mut slots) {
        Ok(first) => first.level() == level && first.len() == len,
        Err(_) => false,
    }
}

#[test]
fn no_cells_are_compacted(rt: HostRuntime) {
    expect(&rt, "none", compacts(&rt, &[], &[]));
    let started = Compaction::start(&[], &mut []);
    expect(
        &rt,
        "the first round",
        matches!(started, Ok(first) if first.level() == 0 && first.len() == 0),
    );
}

/// Whether compaction found that cells overlap.
fn is_overlap(found: Result<usize, H3Error>) -> bool {
    matches!(found, Err(H3Error::DuplicateInput))
}

/// Whether a compaction in rounds of two cells, which overlap, is refused, and the first two of four
/// slots hold these then.
fn starts_refused(first: Cell, second: Cell) -> bool {
    let other = Cell::in_base(121);
    let mut slots = [other; 4];
    matches!(
        Compaction::start(&[first, second], &mut slots),
        Err(H3Error::DuplicateInput)
    ) && (slots == [first, second, other, other] || slots == [second, first, other, other])
}

/// Whether a list of two cells, which overlap, is refused, and the first two of four slots hold
/// these then, as the list does that is compacted in place.
fn two_overlap(rt: &HostRuntime, first: Cell, second: Cell) -> bool {
    let other = Cell::in_base(121);
    let mut slots = [other; 4];
    let mut own = [first, second];
    holds(
        rt,
        0,
        is_overlap(compact_cells(&[first, second], &mut slots)),
    ) && (slots == [first, second, other, other] || slots == [second, first, other, other])
        && holds(rt, 1, is_overlap(compact_in_place(&mut own)))
        && (own == [first, second] || own == [second, first])
        && holds(rt, 2, starts_refused(first, second))
}

#[test]
fn cells_that_overlap_are_refused(rt: HostRuntime) {
    let fine = cell(&rt, HEXAGON);
    let coarse = cell(&rt, PARENT);
    expect(&rt, "fine and fine", two_overlap(&rt, fine, fine));
    expect(&rt, "fine and coarse", two_overlap(&rt, fine, coarse));
    expect(&rt, "coarse and fine", two_overlap(&rt, coarse, fine));
    expect(
        &rt,
        "in a pentagon",
        two_overlap(&rt, cell(&rt, PENTAGON), cell(&rt, 0x820837fffffffff)),
    );
}

/// Whether the list of up to 64 cells is refused because cells overlap.
fn overlaps(cells: &[Cell]) -> bool {
    let mut slots = [Cell::in_base(121); SLOTS];
    cells.len() <= SLOTS && is_overlap(compact_cells(cells, &mut slots))
}

/// The cells below the first six children of base cell 20, then base cell 20.
#[test]
fn a_distant_ancestor_is_refused(rt: HostRuntime) {
    let mut cells = descendants(BASE, 2);
    cells.truncate(42);
    cells.push(cell(&rt, BASE));
    expect(&rt, "in order", overlaps(cells.all()));
    cells.reverse();
    expect(&rt, "in reverse", overlaps(cells.all()));
}

/// Whether the cells are compacted in their own memory as they are in slots, or refused with the
/// same error.
fn agrees_in_place(cells: &[Cell]) -> bool {
    let mut slots = [Cell::in_base(121); SLOTS];
    let mut own = slots;
    let given = cells.len();
    if given > SLOTS {
        return false;
    }
    own[..given].copy_from_slice(cells);
    match (
        compact_in_place(&mut own[..given]),
        compact_cells(cells, &mut slots),
    ) {
        (Ok(count), Ok(other)) => count == other && own[..count] == slots[..count],
        (Err(error), Err(other)) => error == other,
        _ => false,
    }
}

#[test]
fn cells_are_compacted_in_place(rt: HostRuntime) {
    let coarse = cell(&rt, PARENT);
    expect(&rt, "none", agrees_in_place(&[]));
    expect(&rt, "one", agrees_in_place(&[coarse]));
    expect(&rt, "twice", agrees_in_place(&[coarse, coarse]));
    let mut cells = descendants(PENTAGON, 2);
    expect(&rt, "41 cells", cells.all().len() == 41);
    expect(&rt, "in order", agrees_in_place(cells.all()));
    cells.reverse();
    cells.push(coarse);
    expect(&rt, "in reverse, and another", agrees_in_place(cells.all()));
    cells.push(cell(&rt, PENTAGON));
    expect(&rt, "with an ancestor", agrees_in_place(cells.all()));
    let _ = cells.pop();
    expect(
        &rt,
        "two are left",
        matches!(compact_in_place(cells.all_mut()), Ok(2)),
    );
    cells.truncate(2);
    expect(
        &rt,
        "which two",
        is_list(&rt, cells.all(), &[PENTAGON, PARENT]),
    );
}

/// In post order a cell comes before the coarser ones of later base cells, which have the smaller
/// numbers.
#[test]
fn cells_are_compacted_in_order(rt: HostRuntime) {
    let mut cells = [Cell::in_base(121); 8];
    for (place, child) in CHILDREN.iter().enumerate() {
        cells[place + 1] = cell(&rt, *child);
    }
    expect(
        &rt,
        "two in order",
        matches!(compact_in_order(&mut cells), Ok(2)),
    );
    expect(
        &rt,
        "which two in order",
        is_list(&rt, &cells[..2], &[HEXAGON, 0x80f3fffffffffff]),
    );
    expect(
        &rt,
        "two in place",
        matches!(compact_in_place(&mut cells[..2]), Ok(2)),
    );
    expect(
        &rt,
        "which two in place",
        is_list(&rt, &cells[..2], &[0x80f3fffffffffff, HEXAGON]),
    );
    let mut twice = [Cell::in_base(121); 2];
    expect(&rt, "twice", is_overlap(compact_in_order(&mut twice)));
}

/// Whether the compacted list of the cells has this many cells, and these are its first and its
/// last.
fn has_ends(cells: &[Cell], slots: &mut [Cell], count: usize, first: u64, last: u64) -> bool {
    if cells.len() > slots.len() {
        return false;
    }
    let Ok(found) = compact_cells(cells, slots) else {
        return false;
    };
    let compacted = &slots[..found];
    found == count
        && is_cell(compacted.first().copied(), first)
        && is_cell(compacted.last().copied(), last)
}

/// The descendants of a cell at a resolution; none where they are refused.
fn long_descendants(rt: &impl Abort, alloc: Global, cell: u64, res: i32) -> Vec<Cell> {
    let mut cells = Vec::new(alloc);
    if let Ok(ancestor) = Cell::new(cell)
        && let Ok(items) = children(ancestor, res)
    {
        for cell in items {
            expect(rt, "memory", cells.push(cell).is_ok());
        }
    }
    cells
}

#[test]
fn six_levels_are_compacted(rt: HostRuntime) {
    let mut cells = long_descendants(&rt, rt.alloc(), BASE, 6);
    let mut slots = long_descendants(&rt, rt.alloc(), BASE, 6);
    expect(&rt, "117649 cells", cells.len() == 117649);
    expect(&rt, "in order", has_ends(&cells, &mut slots, 1, BASE, BASE));
    cells.reverse();
    expect(
        &rt,
        "in reverse",
        has_ends(&cells, &mut slots, 1, BASE, BASE),
    );
}

#[test]
fn five_levels_below_a_pentagon_are_compacted(rt: HostRuntime) {
    let mut cells = long_descendants(&rt, rt.alloc(), PENTAGON, 5);
    let mut slots = long_descendants(&rt, rt.alloc(), PENTAGON, 5);
    expect(&rt, "14006 cells", cells.len() == 14006);
    expect(
        &rt,
        "all",
        has_ends(&cells, &mut slots, 1, PENTAGON, PENTAGON),
    );
    expect(&rt, "the last", is_cell(cells.pop(), 0x8509b6dbfffffff));
    let (first, last) = (0x81083ffffffffff, 0x8509b6d7fffffff);
    expect(
        &rt,
        "all but the last",
        has_ends(&cells, &mut slots, 29, first, last),
    );
    cells.reverse();
    expect(
        &rt,
        "in reverse",
        has_ends(&cells, &mut slots, 29, first, last),
    );
}

/// Digit 0 below one cell of resolution 5, digits 1 to 6 below the next.
#[test]
fn siblings_of_two_parents_are_not_one_set(rt: HostRuntime) {
    static CELLS: [u64; 7] = [
        0x862834707ffffff,
        0x86283474fffffff,
        0x862834757ffffff,
        0x86283475fffffff,
        0x862834767ffffff,
        0x86283476fffffff,
        0x862834777ffffff,
    ];
    let mut cells = descendants(HEXAGON, 6);
    cells.truncate(1);
    let next = descendants(0x85283477fffffff, 6);
    for place in 1..7usize {
        if let Some(cell) = next.at(place) {
            cells.push(cell);
        }
    }
    expect(&rt, "cells", compacts(&rt, cells.all(), &CELLS));
}

/// Adds cells to a list; those that are none are left out.
fn add(cells: &mut Cells, others: &[u64]) {
    for raw in others {
        if let Ok(cell) = Cell::new(*raw) {
            cells.push(cell);
        }
    }
}

#[test]
fn cells_of_several_resolutions_are_compacted(rt: HostRuntime) {
    static OTHERS: [u64; 6] = [
        0x85283463fffffff,
        0x85283467fffffff,
        0x8528346bfffffff,
        0x8528346ffffffff,
        0x85283477fffffff,
        0x8528347bfffffff,
    ];
    let mut cells = descendants(HEXAGON, 6);
    add(&mut cells, &OTHERS);
    expect(&rt, "in order", compacts(&rt, cells.all(), &[PARENT]));
    cells.reverse();
    expect(&rt, "in reverse", compacts(&rt, cells.all(), &[PARENT]));
    expect(&rt, "the first round", starts(cells.all(), 6, 13));
    let two = [cell(&rt, HEXAGON), cell(&rt, 0x81083ffffffffff)];
    expect(
        &rt,
        "two cells",
        compacts(&rt, &two, &[0x81083ffffffffff, HEXAGON]),
    );
}

/// A coarser cell has a smaller number than any finer one, wherever their base cells are.
#[test]
fn coarser_cells_come_first(rt: HostRuntime) {
    let two = [cell(&rt, 0x81003ffffffffff), cell(&rt, 0x800bfffffffffff)];
    expect(
        &rt,
        "two cells",
        compacts(&rt, &two, &[0x800bfffffffffff, 0x81003ffffffffff]),
    );
}

#[test]
fn cells_of_two_resolutions_below_a_pentagon_are_compacted(rt: HostRuntime) {
    static CELLS: [u64; 11] = [
        0x8108bffffffffff,
        0x8108fffffffffff,
        0x81093ffffffffff,
        0x81097ffffffffff,
        0x8109bffffffffff,
        0x820807fffffffff,
        0x820817fffffffff,
        0x82081ffffffffff,
        0x820827fffffffff,
        0x82082ffffffffff,
        0x820837fffffffff,
    ];
    let mut cells = Cells::none();
    add(&mut cells, &CELLS);
    expect(&rt, "pentagon", compacts(&rt, cells.all(), &[PENTAGON]));
}

/// The compacted list of a list of cells; no cells where it is refused.
fn compacted(alloc: Global, cells: &[Cell]) -> Result<Vec<Cell>, AllocError> {
    let mut slots = cells.to_vec(alloc)?;
    if cells.len() <= slots.len() {
        let count = compact_cells(cells, &mut slots).unwrap_or(0);
        slots.truncate(count);
    }
    Ok(slots)
}

/// The compacted lists of the parts of a list of cells, one after the other. It is cut at places
/// that look random and are always the same, into parts of up to 1024 cells. There are no cells
/// where these parts are not all of the list.
fn compacted_parts(alloc: Global, cells: &[Cell]) -> Result<Vec<Cell>, AllocError> {
    let mut joined = Vec::new(alloc);
    let mut rest = cells;
    let mut state: u64 = 1;
    for _ in 0..cells.len() {
        state = state.wrapping_mul(0x5851_f42d_4c95_7f2d).wrapping_add(1);
        let size = 1 + (state >> 54) as usize;
        let (part, others) = rest.split_at(size.min(rest.len()));
        rest = others;
        joined.extend_from_slice(&compacted(alloc, part)?)?;
    }
    if !rest.is_empty() {
        joined.clear();
    }
    Ok(joined)
}

/// Whether cells are of several resolutions.
fn has_resolutions(cells: &[Cell]) -> bool {
    let Some(first) = cells.first() else {
        return false;
    };
    for cell in cells {
        if cell.resolution() != first.resolution() {
            return true;
        }
    }
    false
}

/// Whether the compacted lists of the parts of a list of cells are shorter than the list, have
/// cells of several resolutions, and compact to what the whole list does.
fn compacts_in_parts(rt: &HostRuntime, cells: &[Cell]) -> bool {
    let Ok(joined) = compacted_parts(rt.alloc(), cells) else {
        return false;
    };
    let Ok(parts) = compacted(rt.alloc(), &joined) else {
        return false;
    };
    let Ok(whole) = compacted(rt.alloc(), cells) else {
        return false;
    };
    let is_same = !whole.is_empty() && parts.as_slice() == whole.as_slice();
    holds(rt, 0, joined.len() < cells.len())
        && holds(rt, 1, has_resolutions(&joined))
        && holds(rt, 2, is_same)
}

#[test]
fn a_list_is_compacted_in_parts(rt: HostRuntime) {
    let mut cells = long_descendants(&rt, rt.alloc(), BASE, 5);
    expect(&rt, "16807 cells", cells.len() == 16807);
    expect(&rt, "in order", compacts_in_parts(&rt, &cells));
    cells.reverse();
    expect(&rt, "in reverse", compacts_in_parts(&rt, &cells));
    let _ = cells.pop();
    expect(&rt, "all but the last", compacts_in_parts(&rt, &cells));
}
