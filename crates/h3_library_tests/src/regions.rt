//! Regions: unions, intersections and differences of sets of cells.

use crate::expected::{expect, expect_row};
use crate::rows::{cell, is_list, put};
use h3_index::Cell;
use h3_regions::{Region, intersect, subtract, unite};
use h3_tree::children;

/// A hexagon of resolution 4.
const HEXAGON: u64 = 0x8428347ffffffff;

/// The pentagon of base cell 4, and base cell 20, a hexagon.
const PENTAGON: u64 = 0x8009fffffffffff;

const BASE: u64 = 0x8029fffffffffff;

/// How many cells the lists have at most, and how many slots there are for a result.
const MOST: usize = 16;

const SLOTS: usize = 96;

/// Whether these are the cells, once they are in ascending order.
fn is_sorted_list(rt: &HostRuntime, cells: &[Cell], expected: &[u64]) -> bool {
    let mut sorted = [Cell::in_base(0); SLOTS];
    let given = cells.len();
    if given > SLOTS {
        return false;
    }
    sorted[..given].copy_from_slice(cells);
    sorted[..given].sort_unstable();
    is_list(rt, &sorted[..given], expected)
}

/// Lists of cells, and what is expected of them.
type Row<'a> = (&'a [u64], &'a [u64], &'a [u64]);

/// Whether the cells of two lists unite to a list.
fn unites(rt: &HostRuntime, row: &Row<'_>) -> bool {
    let (first, second, expected) = *row;
    let mut cells = [Cell::in_base(0); MOST];
    let half = put(&mut cells, first).min(MOST);
    let (_, rest) = cells.split_at_mut(half);
    let given = half + put(rest, second).min(MOST - half);
    let count = unite(&mut cells[..given]);
    is_list(rt, &cells[..count], expected)
}

#[test]
fn cells_are_united(rt: HostRuntime) {
    static ROWS: [Row<'static>; 8] = [
        (&[], &[], &[]),
        (&[0x85283463fffffff], &[], &[0x85283463fffffff]),
        (
            &[0x81003ffffffffff],
            &[0x8003fffffffffff],
            &[0x8003fffffffffff, 0x81003ffffffffff],
        ),
        (
            &[0x85283463fffffff, 0x85283467fffffff, 0x8528346bfffffff],
            &[HEXAGON, 0x85283463fffffff, 0x85283467fffffff],
            &[HEXAGON],
        ),
        (
            &[
                0x8528347bfffffff,
                0x85283463fffffff,
                0x85283477fffffff,
                0x85283467fffffff,
                0x85283473fffffff,
                0x8528346bfffffff,
                0x8528346ffffffff,
            ],
            &[
                0x85283463fffffff,
                0x85283467fffffff,
                0x8528346bfffffff,
                0x8528346ffffffff,
                0x85283473fffffff,
                0x85283477fffffff,
                0x8528347bfffffff,
            ],
            &[HEXAGON],
        ),
        (
            &[
                0x8528347bfffffff,
                0x85283463fffffff,
                0x85283477fffffff,
                0x85283467fffffff,
                0x85283473fffffff,
            ],
            &[0x8528346bfffffff, 0x85283467fffffff],
            &[
                0x85283463fffffff,
                0x85283467fffffff,
                0x8528346bfffffff,
                0x85283473fffffff,
                0x85283477fffffff,
                0x8528347bfffffff,
            ],
        ),
        (
            &[0x862834707ffffff, BASE, 0x85283473fffffff],
            &[PENTAGON, HEXAGON],
            &[PENTAGON, BASE],
        ),
        (
            &[
                0x862834707ffffff,
                0x86283470fffffff,
                0x862834717ffffff,
                0x86283471fffffff,
                0x862834727ffffff,
                0x86283472fffffff,
                0x862834737ffffff,
            ],
            &[
                0x85283463fffffff,
                0x85283467fffffff,
                0x8528346bfffffff,
                0x8528346ffffffff,
                0x85283477fffffff,
                0x8528347bfffffff,
            ],
            &[HEXAGON],
        ),
    ];
    for (place, row) in ROWS.iter().enumerate() {
        expect_row(&rt, place, unites(&rt, row));
    }
}

/// Whether two lists of cells share a list.
fn shares(rt: &HostRuntime, row: &Row<'_>) -> bool {
    let (first, second, expected) = *row;
    let mut cells = [Cell::in_base(0); MOST];
    let mut others = [Cell::in_base(0); MOST];
    let mut slots = [Cell::in_base(0); SLOTS];
    let given = put(&mut cells, first).min(MOST);
    let more = put(&mut others, second).min(MOST);
    let one = Region::of(&mut cells[..given]);
    let other = Region::of(&mut others[..more]);
    is_sorted_list(rt, intersect(&one, &other, &mut slots).cells(), expected)
}

#[test]
fn regions_share(rt: HostRuntime) {
    static ROWS: [Row<'static>; 9] = [
        (&[], &[], &[]),
        (&[HEXAGON], &[], &[]),
        (&[], &[HEXAGON], &[]),
        (
            &[HEXAGON],
            &[0x85283473fffffff, 0x862834757ffffff, 0x8528340ffffffff],
            &[0x85283473fffffff, 0x862834757ffffff],
        ),
        (
            &[
                0x85283463fffffff,
                0x85283467fffffff,
                0x8528346bfffffff,
                0x8528346ffffffff,
                0x85283473fffffff,
                0x85283477fffffff,
                0x8528347bfffffff,
            ],
            &[HEXAGON],
            &[HEXAGON],
        ),
        (
            &[HEXAGON],
            &[
                0x85283463fffffff,
                0x85283467fffffff,
                0x8528346bfffffff,
                0x8528346ffffffff,
                0x85283473fffffff,
                0x85283477fffffff,
            ],
            &[
                0x85283463fffffff,
                0x85283467fffffff,
                0x8528346bfffffff,
                0x8528346ffffffff,
                0x85283473fffffff,
                0x85283477fffffff,
            ],
        ),
        (
            &[
                0x86283470fffffff,
                0x862834717ffffff,
                0x86283471fffffff,
                0x862834727ffffff,
                0x86283472fffffff,
                0x862834737ffffff,
            ],
            &[0x85283473fffffff],
            &[
                0x86283470fffffff,
                0x862834717ffffff,
                0x86283471fffffff,
                0x862834727ffffff,
                0x86283472fffffff,
                0x862834737ffffff,
            ],
        ),
        (
            &[BASE, PENTAGON],
            &[0x81083ffffffffff, HEXAGON],
            &[0x81083ffffffffff, HEXAGON],
        ),
        (
            &[0x85283463fffffff, 0x85283467fffffff, 0x8528346bfffffff],
            &[
                0x8528346ffffffff,
                0x85283473fffffff,
                0x85283477fffffff,
                0x8528347bfffffff,
            ],
            &[],
        ),
    ];
    for (place, row) in ROWS.iter().enumerate() {
        expect_row(&rt, place, shares(&rt, row));
    }
}

/// Whether a list of cells without another leaves a list, in as many slots as that has cells, and in
/// one less nothing.
fn leaves_list(rt: &HostRuntime, row: &Row<'_>) -> bool {
    let (first, second, expected) = *row;
    let mut cells = [Cell::in_base(0); MOST];
    let mut others = [Cell::in_base(0); MOST];
    let mut slots = [Cell::in_base(0); SLOTS];
    let given = put(&mut cells, first).min(MOST);
    let more = put(&mut others, second).min(MOST);
    let one = Region::of(&mut cells[..given]);
    let other = Region::of(&mut others[..more]);
    let room = expected.len().min(SLOTS);
    if room > 0 && subtract(&one, &other, &mut slots[..room - 1]).is_some() {
        return false;
    }
    match subtract(&one, &other, &mut slots[..room]) {
        Some(left) => is_sorted_list(rt, left.cells(), expected),
        None => false,
    }
}

#[test]
fn what_one_region_has_beyond_another(rt: HostRuntime) {
    static ROWS: [Row<'static>; 7] = [
        (&[], &[HEXAGON], &[]),
        (&[HEXAGON], &[], &[HEXAGON]),
        (
            &[HEXAGON],
            &[0x85283473fffffff],
            &[
                0x85283463fffffff,
                0x85283467fffffff,
                0x8528346bfffffff,
                0x8528346ffffffff,
                0x85283477fffffff,
                0x8528347bfffffff,
            ],
        ),
        (
            &[
                0x85283463fffffff,
                0x85283467fffffff,
                0x8528346bfffffff,
                0x8528346ffffffff,
                0x85283473fffffff,
                0x85283477fffffff,
                0x8528347bfffffff,
            ],
            &[0x862834707ffffff],
            &[
                0x85283463fffffff,
                0x85283467fffffff,
                0x8528346bfffffff,
                0x8528346ffffffff,
                0x85283477fffffff,
                0x8528347bfffffff,
                0x86283470fffffff,
                0x862834717ffffff,
                0x86283471fffffff,
                0x862834727ffffff,
                0x86283472fffffff,
                0x862834737ffffff,
            ],
        ),
        (&[HEXAGON], &[HEXAGON], &[]),
        (
            &[
                0x85283463fffffff,
                0x85283467fffffff,
                0x8528346bfffffff,
                0x8528346ffffffff,
                0x85283473fffffff,
                0x85283477fffffff,
                0x8528347bfffffff,
            ],
            &[BASE],
            &[],
        ),
        (
            &[PENTAGON],
            &[0x820807fffffffff],
            &[
                0x8108bffffffffff,
                0x8108fffffffffff,
                0x81093ffffffffff,
                0x81097ffffffffff,
                0x8109bffffffffff,
                0x820817fffffffff,
                0x82081ffffffffff,
                0x820827fffffffff,
                0x82082ffffffffff,
                0x820837fffffffff,
            ],
        ),
    ];
    for (place, row) in ROWS.iter().enumerate() {
        expect_row(&rt, place, leaves_list(&rt, row));
    }
}

/// The children of the pentagon of base cell 4 at a resolution.
fn pentagon_children(res: u8) -> [u64; 6] {
    let mut raws = [0; 6];
    let center = Cell::in_base(4).center_descendant(res.min(14));
    if let Ok(items) = children(center, i32::from(res.min(14)) + 1) {
        let mut place = 0usize;
        for child in items {
            if place < 6 {
                raws[place] = child.raw();
                place += 1;
            }
        }
    }
    raws
}

/// The six children of a pentagon unite to it, five do not, and are what is left of it without the
/// other.
#[test]
fn pentagons_have_six_children_at_every_level(rt: HostRuntime) {
    for res in 0..15u8 {
        let pentagon = [Cell::in_base(4).center_descendant(res).raw()];
        let six = pentagon_children(res);
        let (five, one) = (&six[1..], &six[..1]);
        expect(
            &rt,
            "they unite",
            unites(&rt, &(five, one, &pentagon)) && unites(&rt, &(five, five, five)),
        );
        expect(
            &rt,
            "what is left, and shared",
            leaves_list(&rt, &(&pentagon, one, five)) && shares(&rt, &(&pentagon, one, one)),
        );
    }
}

#[test]
fn a_region_may_be_given_by_cells_that_overlap(rt: HostRuntime) {
    let mut cells = [cell(&rt, HEXAGON), cell(&rt, 0x85283473fffffff)];
    let region = Region::of(&mut cells);
    expect(&rt, "inside", region.covers(cell(&rt, 0x85283477fffffff)));
    expect(&rt, "outside", !region.covers(cell(&rt, 0x8528340ffffffff)));
}
