//! Zones: looked for near a place and by a table, joined, counted, and in the order of their numbers.

ghost use Rattle.std.specs.Prelude.{◌≡◌, ◌+◌, ◌≤◌, length, sum};

use crate::expected::expect_row;
use crate::rows::{cell, is_list, put};
use h3_fakes::holds;
use h3_index::Cell;
use h3_regions::laws::zones_are_lawful;
use h3_regions::{
    TabledZones, ZoneIndex, Zones, count, count_indexed, count_next, count_of, join, join_indexed,
    order_by_number, order_zones, write_table,
};
use std::process::Abort;

/// How many zones a list has at most.
const MOST: usize = 9;

/// Lists of zones in no order: none; a pentagon of resolution 1 in base cell 4; the pentagon of base
/// cell 14 and a cell of resolution 15 in base cell 20; and these with base cells 0 and 121, two
/// cells with the digits 2 0 and 2 6 in base cell 4, and two of resolution 5 in base cell 20.
static LISTS: [&[u64]; 4] = [
    &[],
    &[0x81083ffffffffff],
    &[0x8f2834740000000, 0x801dfffffffffff],
    &[
        0x85283473fffffff,
        0x80f3fffffffffff,
        0x81083ffffffffff,
        0x801dfffffffffff,
        0x8001fffffffffff,
        0x8f2834740000000,
        0x8208b7fffffffff,
        0x85283463fffffff,
        0x820887fffffffff,
    ],
];

/// The same lists in the ascending order of the numbers: of coarser zones first.
static BY_NUMBER: [&[u64]; 4] = [
    &[],
    &[0x81083ffffffffff],
    &[0x801dfffffffffff, 0x8f2834740000000],
    &[
        0x8001fffffffffff,
        0x801dfffffffffff,
        0x80f3fffffffffff,
        0x81083ffffffffff,
        0x820887fffffffff,
        0x8208b7fffffffff,
        0x85283463fffffff,
        0x85283473fffffff,
        0x8f2834740000000,
    ],
];

/// How many cells are looked up.
const SIZE: usize = 37;

/// Cells, and the one of the zones of the last list that has the base cell and the first digits of
/// each, or 0 where none has. They are ordered by the base cells, and in each by the digits.
static ROWS: [(u64, u64); SIZE] = [
    (0x8f0000000000000, 0x8001fffffffffff),
    (0x81003ffffffffff, 0x8001fffffffffff),
    (0x8001fffffffffff, 0x8001fffffffffff),
    (0x8003fffffffffff, 0),
    (0x8f0800000000000, 0x81083ffffffffff),
    (0x820807fffffffff, 0x81083ffffffffff),
    (0x820817fffffffff, 0x81083ffffffffff),
    (0x81083ffffffffff, 0x81083ffffffffff),
    (0x830886fffffffff, 0x820887fffffffff),
    (0x820887fffffffff, 0x820887fffffffff),
    (0x82088ffffffffff, 0),
    (0x8208a7fffffffff, 0),
    (0x8308b5fffffffff, 0x8208b7fffffffff),
    (0x8208b7fffffffff, 0x8208b7fffffffff),
    (0x8108bffffffffff, 0),
    (0x8109bffffffffff, 0),
    (0x8009fffffffffff, 0),
    (0x8f1c00000000000, 0x801dfffffffffff),
    (0x811c3ffffffffff, 0x801dfffffffffff),
    (0x811dbffffffffff, 0x801dfffffffffff),
    (0x801dfffffffffff, 0x801dfffffffffff),
    (0x862834607ffffff, 0x85283463fffffff),
    (0x85283463fffffff, 0x85283463fffffff),
    (0x85283467fffffff, 0),
    (0x862834707ffffff, 0x85283473fffffff),
    (0x8f28347360da95a, 0x85283473fffffff),
    (0x862834737ffffff, 0x85283473fffffff),
    (0x85283473fffffff, 0x85283473fffffff),
    (0x8f2834740000000, 0x8f2834740000000),
    (0x8f2834740000001, 0),
    (0x8e2834740000007, 0),
    (0x85283477fffffff, 0),
    (0x8428347ffffffff, 0),
    (0x80f1fffffffffff, 0),
    (0x81f23ffffffffff, 0x80f3fffffffffff),
    (0x8ff3b6db6db6db6, 0x80f3fffffffffff),
    (0x80f3fffffffffff, 0x80f3fffffffffff),
];

/// By how many rows one goes on, from the last to the first again: so they are in order, and mixed.
static STEPS: [usize; 2] = [1, 8];

/// How many places a table has.
static TABLES: [usize; 7] = [0, 1, 2, 3, 9, 20, ROOM];

/// The most of these.
const ROOM: usize = 64;

/// A cell and its zone, or 0 where it has none.
type Row = (Cell, u64);

/// The rows for a list of zones: with no zone where the list does not have it.
fn rows_of(rt: &impl Abort, list: &[u64], step: usize) -> [Row; SIZE] {
    let mut rows = [(Cell::in_base(0), 0); SIZE];
    for place in 0..SIZE {
        let (raw, zone) = ROWS[place.wrapping_mul(step) % SIZE];
        rows[place] = (cell(rt, raw), if list.contains(&zone) { zone } else { 0 });
    }
    rows
}

/// The cells of rows.
fn cells_of(rows: &[Row; SIZE]) -> [Cell; SIZE] {
    let mut cells = [Cell::in_base(0); SIZE];
    for place in 0..SIZE {
        cells[place] = rows[place].0;
    }
    cells
}

/// The number of a zone, 0 for none.
fn number(zone: Option<Cell>) -> u64 {
    match zone {
        Some(zone) => zone.raw(),
        None => 0,
    }
}

/// How many rows have a zone, or none where it is 0.
fn tally(rows: &[Row; SIZE], zone: u64) -> u64 {
    let mut sum = 0u64;
    for (_, other) in rows {
        sum = sum.wrapping_add(u64::from(*other == zone));
    }
    sum
}

/// Whether each row's zone is found from a place on, and stands at the place that is left; from that
/// on the next one is looked for, or from the same as before.
fn are_near(
    rt: &HostRuntime,
    zones: &Zones,
    rows: &[Row; SIZE],
    from: usize,
    goes_on: bool,
) -> bool {
    let mut place = from;
    for (row, (seen, zone)) in rows.iter().enumerate() {
        let found = zones.zone_near(*seen, &mut place);
        let stands = found.is_none() || zones.cells().get(place).copied() == found;
        if !holds(rt, row, number(found) == *zone && stands) {
            return false;
        }
        if !goes_on {
            place = from;
        }
    }
    true
}

/// Whether the rows' zones are found from the first place, the third, and one after all.
fn are_near_all(rt: &HostRuntime, list: &[u64], rows: &[Row; SIZE]) -> bool {
    let mut slots = [Cell::in_base(0); MOST];
    let given = put(&mut slots, list).min(MOST);
    let Ok(zones) = Zones::of(&mut slots[..given]) else {
        return false;
    };
    for (row, from) in [0, 2, 1000, usize::MAX].iter().enumerate() {
        let is_right = are_near(rt, &zones, rows, *from, false)
            && are_near(rt, &zones, rows, *from, true);
        if !holds(rt, row, is_right) {
            return false;
        }
    }
    true
}

#[test]
fn zones_are_found_near_a_place(rt: HostRuntime) {
    for (row, list) in LISTS.iter().enumerate() {
        for step in STEPS {
            expect_row(&rt, row, are_near_all(&rt, list, &rows_of(&rt, list, step)));
        }
    }
}

/// Whether the rows' zones are found by a table.
fn are_found(rt: &HostRuntime, index: &ZoneIndex, rows: &[Row; SIZE]) -> bool {
    for (row, (seen, zone)) in rows.iter().enumerate() {
        let is_found = number(index.zone_of(*seen)) == *zone;
        if !holds(rt, row, is_found && index.covers(*seen) == (*zone > 0)) {
            return false;
        }
    }
    true
}

/// Whether the rows' zones are joined by a table, as they are without one. The place after them stays
/// as it is.
fn are_joined(rt: &HostRuntime, index: &ZoneIndex, rows: &[Row; SIZE]) -> bool {
    let cells = cells_of(rows);
    let beside = Some(Cell::in_base(77));
    let mut places = [beside; SIZE + 1];
    let mut others = [beside; SIZE + 1];
    join_indexed(index, &cells, &mut places);
    join(&index.zones(), &cells, &mut others);
    for row in 0..SIZE {
        if !holds(rt, row, number(places[row]) == rows[row].1) {
            return false;
        }
    }
    places == others && places[SIZE] == beside
}

/// Whether counts, one for each zone and then 5 in all places, are those of the rows.
fn are_counts(rt: &HostRuntime, zones: &Zones, rows: &[Row; SIZE], counts: &[u64]) -> bool {
    for (place, number) in counts.iter().enumerate() {
        let expected = match zones.cells().get(place) {
            Some(zone) => tally(rows, zone.raw()),
            None => 5,
        };
        if !holds(rt, place, *number == expected) {
            return false;
        }
    }
    true
}

/// Whether the rows are counted by a table, and without one.
fn are_counted(rt: &HostRuntime, index: &ZoneIndex, rows: &[Row; SIZE]) -> bool {
    let cells = cells_of(rows);
    let zones = index.zones();
    if zones.cells().len() > MOST {
        return false;
    }
    let mut counts = [5u64; MOST + 1];
    let mut others = [5u64; MOST + 1];
    let outside = count_indexed(index, &cells, &mut counts);
    outside == tally(rows, 0)
        && are_counts(rt, &zones, rows, &counts)
        && count(&zones, &cells, &mut others) == outside
        && others == counts
}

/// Whether the rows' zones are found in a table that is kept, which may be that of other zones.
fn are_found_in(rt: &HostRuntime, tabled: &TabledZones, rows: &[Row; SIZE]) -> bool {
    for (row, (seen, zone)) in rows.iter().enumerate() {
        if !holds(rt, row, number(tabled.zone_of(*seen)) == *zone) {
            return false;
        }
    }
    true
}

/// Whether zones with a table, which may be that of other zones, answer as the rows say.
fn are_tabled<'a>(
    rt: &HostRuntime,
    zones: &Zones<'a>,
    table: &'a [u32],
    rows: &[Row; SIZE],
) -> bool {
    are_found_in(rt, &TabledZones::over(zones, table), rows)
}

/// Whether an index of zones answers as the rows say.
fn is_index<'a>(
    rt: &HostRuntime,
    zones: &Zones<'a>,
    places: &'a mut [u32],
    rows: &[Row; SIZE],
) -> bool {
    let index = ZoneIndex::of(zones, places);
    index.zones().cells() == zones.cells()
        && are_found(rt, &index, rows)
        && are_joined(rt, &index, rows)
        && are_counted(rt, &index, rows)
}

/// Whether zones with a table answer as the rows say.
fn are_indexed(rt: &HostRuntime, list: &[u64], table: usize, rows: &[Row; SIZE]) -> bool {
    let mut slots = [Cell::in_base(0); MOST];
    let given = put(&mut slots, list).min(MOST);
    let Ok(zones) = Zones::of(&mut slots[..given]) else {
        return false;
    };
    let size = table.min(ROOM);
    let others = [3u32; ROOM];
    if !are_tabled(rt, &zones, &others[..size], rows) {
        return false;
    }
    let mut places = [7u32; ROOM];
    write_table(&zones, &mut places[..size]);
    are_tabled(rt, &zones, &places[..size], rows) && is_index(rt, &zones, &mut places[..size], rows)
}

#[test]
fn zones_are_found_by_tables(rt: HostRuntime) {
    for (row, list) in LISTS.iter().enumerate() {
        for table in TABLES {
            for step in STEPS {
                let rows = rows_of(&rt, list, step);
                expect_row(&rt, row, are_indexed(&rt, list, table, &rows));
            }
        }
    }
}

/// Counts of cells that are taken one by one.
#[derive(Drop)]
struct Counting<'a> {
    zones: Zones<'a>,
    counts: &'a mut [u64],
    others: u64,
    taken: u64,
    place: usize,
    ghost size: { length counts.now ≡ length zones },
    ghost all: { sum counts.now + others ≡ taken },
}

impl<'a> Counting<'a> {
    /// Takes one cell more.
    fn take(&mut self, cell: Cell) {
        if self.taken < 1000 {
            self.others = count_next(&self.zones, cell, self.counts, self.others, &mut self.place);
            self.taken += 1;
        }
    }

    /// Whether the counts are those of the rows, and these.
    fn are_right(&self, rt: &HostRuntime, rows: &[Row; SIZE], counts: &[u64]) -> bool {
        self.others == tally(rows, 0)
            && *self.counts == *counts
            && are_counts(rt, &self.zones, rows, self.counts)
            && are_counts_of(rt, &self.zones, self.counts, rows)
    }
}

/// Whether the counts of the rows' zones are those of the rows.
fn are_counts_of(rt: &HostRuntime, zones: &Zones, counts: &[u64], rows: &[Row; SIZE]) -> bool
    requires { length counts.now ≡ length zones.now }
{
    for (row, (seen, zone)) in rows.iter().enumerate() {
        if let Some(found) = zones.zone_of(*seen)
            && !holds(
                rt,
                row,
                count_of(zones, counts, found) == tally(rows, *zone),
            )
        {
            return false;
        }
    }
    true
}

/// Whether the rows are counted one by one, as they are all at once.
fn are_taken(rt: &HostRuntime, list: &[u64], rows: &[Row; SIZE]) -> bool {
    let mut slots = [Cell::in_base(0); MOST];
    let given = put(&mut slots, list).min(MOST);
    let Ok(zones) = Zones::of(&mut slots[..given]) else {
        return false;
    };
    let mut places = [0u64; MOST];
    let mut others = [0u64; MOST];
    let size = zones.cells().len();
    if size > MOST {
        return false;
    }
    zones_are_lawful();
    let outside = count(&zones, &cells_of(rows), &mut others);
    let mut counting = Counting {
        zones,
        counts: &mut places[..size],
        others: 0,
        taken: 0,
        place: 2,
    };
    for (seen, _) in rows {
        counting.take(*seen);
    }
    counting.others == outside && counting.are_right(rt, rows, &others[..size])
}

#[test]
fn cells_are_counted_one_by_one(rt: HostRuntime) {
    for (row, list) in LISTS.iter().enumerate() {
        for step in STEPS {
            expect_row(&rt, row, are_taken(&rt, list, &rows_of(&rt, list, step)));
        }
    }
}

/// Whether cells are put in the order of their numbers.
fn are_ordered(rt: &HostRuntime, list: &[u64], expected: &[u64]) -> bool {
    let mut slots = [Cell::in_base(0); MOST];
    let given = put(&mut slots, list).min(MOST);
    let cells = &mut slots[..given];
    if order_zones(cells).is_err() {
        return false;
    }
    order_by_number(cells);
    is_list(rt, cells, expected)
}

#[test]
fn zones_stand_in_the_order_of_their_numbers(rt: HostRuntime) {
    for row in 0..LISTS.len() {
        expect_row(&rt, row, are_ordered(&rt, LISTS[row], BY_NUMBER[row]));
    }
}
