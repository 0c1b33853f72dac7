//! Zones: which one a cell lies in, how many cells lie in each, and cells that overlap.

use crate::expected::expect;
use crate::rows::{cell, is_cell, put};
use h3_fakes::holds;
use h3_index::{Cell, H3Error};
use h3_regions::{Region, Zones, count, find_overlap, join, order_zones, subtract};

/// A hexagon of resolution 4 and its children.
const HEXAGON: u64 = 0x8428347ffffffff;

static CHILDREN: [u64; 7] = [
    0x85283463fffffff,
    0x85283467fffffff,
    0x8528346bfffffff,
    0x8528346ffffffff,
    0x85283473fffffff,
    0x85283477fffffff,
    0x8528347bfffffff,
];

/// The fifth of these, and its first child.
const PART: u64 = 0x85283473fffffff;

const GRANDCHILD: u64 = 0x862834707ffffff;

/// The pentagon of base cell 4, and base cell 20, a hexagon.
const PENTAGON: u64 = 0x8009fffffffffff;

const BASE: u64 = 0x8029fffffffffff;

/// How many cells the lists have at most.
const MOST: usize = 16;

/// The zones expected of cells, 0 for none.
fn lie_in(rt: &HostRuntime, zones: &Zones, rows: &[(u64, u64)]) -> bool {
    for (row, (raw, expected)) in rows.iter().enumerate() {
        let Ok(cell) = Cell::new(*raw) else {
            return false;
        };
        let found = match zones.zone_of(cell) {
            Some(zone) => zone.raw(),
            None => 0,
        };
        if !holds(
            rt,
            row,
            found == *expected && zones.covers(cell) == (found > 0),
        ) {
            return false;
        }
    }
    true
}

/// Whether cells lie in the zones that one list gives as another says.
fn are_zones(rt: &HostRuntime, raws: &[u64], rows: &[(u64, u64)]) -> bool {
    let mut cells = [Cell::in_base(0); MOST];
    let given = put(&mut cells, raws).min(MOST);
    match Zones::of(&mut cells[..given]) {
        Ok(zones) => lie_in(rt, &zones, rows),
        Err(_) => false,
    }
}

#[test]
fn cells_lie_in_zones(rt: HostRuntime) {
    static TWO: [u64; 2] = [PART, PENTAGON];
    static IN_TWO: [(u64, u64); 4] = [
        (PART, PART),
        (GRANDCHILD, PART),
        (HEXAGON, 0),
        (PENTAGON, PENTAGON),
    ];
    static IN_CHILDREN: [(u64, u64); 2] = [(PART, PART), (HEXAGON, 0)];
    static IN_NONE: [(u64, u64); 1] = [(BASE, 0)];
    expect(&rt, "two zones", are_zones(&rt, &TWO, &IN_TWO));
    expect(&rt, "children", are_zones(&rt, &CHILDREN, &IN_CHILDREN));
    expect(&rt, "none", are_zones(&rt, &[], &IN_NONE));
}

/// What the zones of two cells count and join of four.
fn counts_and_joins(first: Cell, second: Cell, seen: &[Cell; 4]) -> ([u64; 3], [Option<Cell>; 5]) {
    let mut cells = [first, second];
    let mut counts = [7; 3];
    let mut places = [Some(first); 5];
    if let Ok(zones) = Zones::of(&mut cells)
        && zones.cells().len() == 2
    {
        counts[2] = count(&zones, seen, &mut counts[..2]);
        join(&zones, seen, &mut places[..4]);
    }
    (counts, places)
}

/// The counts stand in the order of `Zones::cells`; the last is that of the cells without a zone.
#[test]
fn cells_are_counted_by_zones(rt: HostRuntime) {
    let part = cell(&rt, PART);
    let seen = [part, cell(&rt, GRANDCHILD), cell(&rt, HEXAGON), part];
    let (counts, places) = counts_and_joins(part, cell(&rt, PENTAGON), &seen);
    expect(&rt, "counts", counts == [0, 3, 1]);
    expect(
        &rt,
        "places",
        places == [Some(part), Some(part), None, Some(part), Some(part)],
    );
}

/// Whether two cells, which overlap, are refused as zones, and are the same then in some order.
fn two_overlap(first: Cell, second: Cell) -> bool {
    let mut cells = [first, second];
    let mut others = cells;
    matches!(order_zones(&mut cells), Err(H3Error::DuplicateInput))
        && (cells == [first, second] || cells == [second, first])
        && match Zones::of(&mut others) {
            Ok(_) => false,
            Err(refused) => {
                let error = refused.error;
                let given: &[Cell] = refused.cells;
                error == H3Error::DuplicateInput
                    && (given == [first, second].as_slice() || given == [second, first].as_slice())
            }
        }
}

#[test]
fn zones_that_overlap_are_refused(rt: HostRuntime) {
    let coarse = cell(&rt, HEXAGON);
    let fine = cell(&rt, PART);
    expect(&rt, "coarse and fine", two_overlap(coarse, fine));
    expect(&rt, "fine and coarse", two_overlap(fine, coarse));
    expect(&rt, "fine and fine", two_overlap(fine, fine));
}

/// What a row is of, four cells, and the places of the first two of them that overlap, where any do.
type Overlap = (&'static str, [u64; 4], Option<(usize, usize)>);

/// Whether the first two cells that overlap are those that a row says.
fn is_found((_, raws, places): &Overlap) -> bool {
    let mut cells = [Cell::in_base(0); 4];
    if put(&mut cells, raws) != 4 {
        return false;
    }
    let mut slots = cells;
    find_overlap(&cells, &mut slots) == *places
}

#[test]
fn the_first_overlap_is_found(rt: HostRuntime) {
    const OTHER: u64 = 0x85283477fffffff;
    static ROWS: [Overlap; 5] = [
        ("3 and 1", [PENTAGON, PART, OTHER, HEXAGON], Some((3, 1))),
        (
            "2 and 0",
            [HEXAGON, PENTAGON, OTHER, PENTAGON],
            Some((2, 0)),
        ),
        ("1 and 0", [OTHER, OTHER, OTHER, PART], Some((1, 0))),
        (
            "a grandchild",
            [OTHER, PART, PENTAGON, GRANDCHILD],
            Some((3, 1)),
        ),
        ("none", [OTHER, PART, PENTAGON, 0x8528340ffffffff], None),
    ];
    for row in &ROWS {
        expect(&rt, row.0, is_found(row));
    }
}

/// None of resolution 0, and six of each other one.
const SIX_EACH: [u64; 16] = [0, 6, 6, 6, 6, 6, 6, 6, 6, 6, 6, 6, 6, 6, 6, 6];

/// Whether 90 zones, six of each resolution from 1 to 15, are each their own.
fn are_of_all_resolutions(zones: &Zones) -> bool {
    let mut sizes = [0u64; 16];
    for zone in zones.cells() {
        let size = &mut sizes[zone.resolution() as usize];
        *size = size.wrapping_add(1);
        if !is_cell(zones.zone_of(*zone), zone.raw()) {
            return false;
        }
    }
    zones.cells().len() == 90 && sizes == SIX_EACH
}

/// What is left of a cell of resolution 0 without one of resolution 15.
#[test]
fn zones_are_of_all_resolutions(rt: HostRuntime) {
    let fine = cell(&rt, 0x8f28347360da95a);
    let (mut cells, mut others) = ([cell(&rt, BASE)], [fine]);
    let mut slots = [fine; 90];
    let whole = Region::of(&mut cells);
    let taken = Region::of(&mut others);
    expect(
        &rt,
        "too few slots",
        subtract(&whole, &taken, &mut slots[..89]).is_none(),
    );
    match subtract(&whole, &taken, &mut slots) {
        Some(left) => expect(
            &rt,
            "zones",
            are_of_all_resolutions(&left.zones()) && !left.covers(fine),
        ),
        None => expect(&rt, "it is subtracted", false),
    }
}
