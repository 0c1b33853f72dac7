//! Regions and zones, compared with the sets of leaves that they cover.

use crate::expected::expect_row;
use crate::rows::is_cell;
use h3_index::Cell;
use h3_regions::{Region, Zones, count, intersect, subtract, unite};
use h3_tree::{children, parent};

/// How many slots there are for a result.
const SLOTS: usize = 96;

/// How many cells of resolution 2 there are below base cell 20 and the pentagon of base cell 4.
const LEAVES: usize = 90;

/// Puts those below a base cell into the slots from a place on; returns the place after them.
fn put_leaves(all: &mut [Cell; LEAVES], base: u8, first: usize) -> usize {
    let mut place = first;
    if let Ok(leaves) = children(Cell::in_base(base.min(121)), 2) {
        for leaf in leaves {
            if place < LEAVES {
                all[place] = leaf;
                place += 1;
            }
        }
    }
    place
}

/// These cells.
fn all_leaves() -> [Cell; LEAVES] {
    let mut all = [Cell::in_base(0); LEAVES];
    let count = put_leaves(&mut all, 4, 0);
    let _ = put_leaves(&mut all, 20, count);
    all
}

/// Whether one cell is the other or an ancestor of it.
fn is_above(cell: Cell, leaf: Cell) -> bool {
    match parent(leaf, i32::from(cell.resolution())) {
        Ok(above) => above == cell,
        Err(_) => false,
    }
}

/// Whether a list covers a leaf.
fn covers(cells: &[Cell], leaf: Cell) -> bool {
    for cell in cells {
        if is_above(*cell, leaf) {
            return true;
        }
    }
    false
}

/// A set of leaves: those that the first list covers, and the second where that is so, or not.
#[derive(Clone, Copy)]
struct Set<'a> {
    first: &'a [Cell],
    second: &'a [Cell],
    kind: Kind,
}

/// The set of this kind of the leaves that two lists cover.
fn set_of<'a>(first: &'a [Cell], second: &'a [Cell], kind: Kind) -> Set<'a> {
    Set {
        first,
        second,
        kind,
    }
}

#[derive(Clone, Copy)]
enum Kind {
    Either,
    Both,
    Beyond,
}

fn has(set: Set<'_>, leaf: Cell) -> bool {
    let (one, other) = (covers(set.first, leaf), covers(set.second, leaf));
    match set.kind {
        Kind::Either => one || other,
        Kind::Both => one && other,
        Kind::Beyond => one && !other,
    }
}

/// Whether all leaves below a cell are in a set.
fn is_full(leaves: &[Cell], set: Set<'_>, cell: Cell) -> bool {
    for leaf in leaves {
        if is_above(cell, *leaf) && !has(set, *leaf) {
            return false;
        }
    }
    true
}

/// Whether a cell is full, and it has no parent or one that is not full.
fn is_top(leaves: &[Cell], set: Set<'_>, cell: Cell) -> bool {
    is_full(leaves, set, cell)
        && match parent(cell, i32::from(cell.resolution()) - 1) {
            Ok(above) => !is_full(leaves, set, above),
            Err(_) => true,
        }
}

/// How many cells of a resolution are top cells of a set of leaves; one more than there can be where
/// a list lacks one.
fn tops(leaves: &[Cell], set: Set<'_>, list: &[Cell], res: i32) -> usize {
    let mut count = 0usize;
    let mut last = Cell::in_base(0);
    for leaf in leaves {
        if let Ok(above) = parent(*leaf, res)
            && above != last
        {
            last = above;
            if is_top(leaves, set, above) {
                count = count.wrapping_add(if list.contains(&above) { 1 } else { LEAVES });
            }
        }
    }
    count
}

/// Whether a list has exactly the top cells of a set of leaves, each once.
fn is_region_of(leaves: &[Cell], set: Set<'_>, list: &[Cell]) -> bool {
    let coarse = tops(leaves, set, list, 0).wrapping_add(tops(leaves, set, list, 1));
    coarse.wrapping_add(tops(leaves, set, list, 2)) == list.len()
}

/// A list of cells of resolutions 1 and 2 that looks random and is always the same.
fn some_cells(leaves: &[Cell; LEAVES], state: &mut u64) -> [Cell; 8] {
    let mut cells = [Cell::in_base(0); 8];
    for slot in cells.iter_mut() {
        *state = state.wrapping_mul(0x5851_f42d_4c95_7f2d).wrapping_add(1);
        let leaf = leaves[(*state >> 33) as usize % LEAVES];
        let res = if *state >> 62 == 0 { 1 } else { 2 };
        *slot = parent(leaf, res).unwrap_or(leaf);
    }
    cells
}

/// Whether unions, intersections and differences of two lists have the cells that sets of leaves say.
fn agree(leaves: &[Cell], first: [Cell; 8], second: [Cell; 8]) -> bool {
    let (mut cells, mut others) = (first, second);
    let mut slots = [Cell::in_base(0); SLOTS];
    let mut more = slots;
    let both = set_of(&first, &second, Kind::Both);
    let beyond = set_of(&first, &second, Kind::Beyond);
    let one = Region::of(&mut cells);
    let other = Region::of(&mut others);
    let shared = intersect(&one, &other, &mut slots);
    match subtract(&one, &other, &mut more) {
        Some(left) => {
            is_region_of(leaves, both, shared.cells()) && is_region_of(leaves, beyond, left.cells())
        }
        None => false,
    }
}

/// Whether the union of two lists has the cells that sets of leaves say.
fn agree_united(leaves: &[Cell], first: [Cell; 8], second: [Cell; 8]) -> bool {
    let mut all = [Cell::in_base(0); 16];
    for place in 0..8usize {
        all[place] = first[place];
        all[place + 8] = second[place];
    }
    let count = unite(&mut all);
    let either = set_of(&first, &second, Kind::Either);
    is_region_of(leaves, either, &all[..count])
}

#[test]
fn regions_are_those_of_sets_of_leaves(rt: HostRuntime) {
    let leaves = all_leaves();
    let mut state = 1;
    for row in 0..500 {
        let first = some_cells(&leaves, &mut state);
        let second = some_cells(&leaves, &mut state);
        let is_right = agree(&leaves, first, second) && agree_united(&leaves, first, second);
        expect_row(&rt, row, is_right);
    }
}

/// Whether cells at two places are one, or one is an ancestor of the other.
fn overlap(cells: &[Cell]) -> bool {
    for place in 0..cells.len() {
        let (first, rest) = (cells[place], &cells[place + 1..]);
        for other in rest {
            if is_above(first, *other) || is_above(*other, first) {
                return true;
            }
        }
    }
    false
}

/// How many leaves are below a zone; `None` where one of them does not lie in it.
fn leaves_in(leaves: &[Cell], zones: &Zones, zone: Cell) -> Option<u64> {
    let mut below = 0u64;
    for leaf in leaves {
        if is_above(zone, *leaf) {
            below = below.wrapping_add(1);
            if !is_cell(zones.zone_of(*leaf), zone.raw()) {
                return None;
            }
        }
    }
    Some(below)
}

/// Whether each leaf lies in the zone that is above it, and is counted in that.
fn are_zoned(leaves: &[Cell], zones: &Zones) -> bool {
    let mut counts = [0; 8];
    let cells = zones.cells();
    if cells.len() > 8 {
        return false;
    }
    let mut sum = count(zones, leaves, &mut counts);
    for place in 0..cells.len() {
        if leaves_in(leaves, zones, cells[place]) != Some(counts[place]) {
            return false;
        }
        sum = sum.wrapping_add(counts[place]);
    }
    sum == leaves.len() as u64
}

/// Whether a list is refused as zones where its cells overlap, and else has the zones of the leaves.
fn is_zoned(leaves: &[Cell], cells: [Cell; 8], given: usize) -> bool {
    let mut others = cells;
    let given = given.min(8);
    match Zones::of(&mut others[..given]) {
        Ok(zones) => !overlap(&cells[..given]) && are_zoned(leaves, &zones),
        Err(_) => overlap(&cells[..given]),
    }
}

#[test]
fn zones_are_those_above_leaves(rt: HostRuntime) {
    let leaves = all_leaves();
    let mut state = 1;
    for row in 0..500 {
        let cells = some_cells(&leaves, &mut state);
        expect_row(
            &rt,
            row,
            is_zoned(&leaves, cells, 8) && is_zoned(&leaves, cells, 3),
        );
    }
}
