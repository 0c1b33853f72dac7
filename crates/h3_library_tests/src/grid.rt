//! Steps, disks, rings, neighbors and edges over tables.

use crate::expected::{expect, expect_row};
use crate::rows::{Expected, cell, clone_of, copy_of, is_cell, same, same_cell, same_edge};
use h3_directions::Direction;
use h3_fakes::{TableFile, holds, open_file, table_file};
use h3_grid::{
    Disk, Edges, Ring, are_neighbors, disk_len, edge_between, edge_destination, edges_of, step,
};
use h3_index::{Cell, Edge, H3Error};
use h3_streams::Streamed;
use h3_table::BaseTable;
use h3_table::vectors::TestTable;
use std::alloc::Global;
use std::mem::size_of;
use std::process::Abort;

/// A hexagon of resolution 5, and its disk of radius 1 over the plain table.
const HEXAGON: u64 = 0x85283473fffffff;

static DISK: [u64; 7] = [
    0x85283473fffffff,
    0x85283447fffffff,
    0x8528347bfffffff,
    0x85283463fffffff,
    0x85283477fffffff,
    0x8528340ffffffff,
    0x8528340bfffffff,
];

/// The ring of `HEXAGON` of radius 1 over the plain table.
static RING: [u64; 6] = [
    0x8528340bfffffff,
    0x85283447fffffff,
    0x8528347bfffffff,
    0x85283463fffffff,
    0x85283477fffffff,
    0x8528340ffffffff,
];

/// The edges that leave `HEXAGON`.
static EDGES: [u64; 6] = [
    0x115283473fffffff,
    0x125283473fffffff,
    0x135283473fffffff,
    0x145283473fffffff,
    0x155283473fffffff,
    0x165283473fffffff,
];

/// The pentagon of base cell 4, and a base cell beside it.
const PENTAGON: u64 = 0x8009fffffffffff;

const BESIDE: u64 = 0x800bfffffffffff;

/// A base cell of which no disk of radius 2 meets a pentagon.
const CENTRE: u64 = 0x803dfffffffffff;

/// Reads the base cell table of a file.
fn table_in(rt: &impl Abort, alloc: Global, file: &TableFile) -> BaseTable {
    match BaseTable::read(alloc, &mut Streamed::new(file.as_bytes())) {
        Ok(table) => table,
        Err(_) => panic!(rt; "the table is refused"),
    }
}

/// A test table.
pub fn test_table(rt: &impl Abort, alloc: Global, table: TestTable) -> BaseTable {
    table_in(rt, alloc, &table_file(table))
}

/// Whether a step leads to a cell, with a rotation there.
fn leads(
    table: &BaseTable,
    cell: Cell,
    direction: Direction,
    rot: u8,
    (to, rotation): (u64, u8),
) -> bool {
    match step(table, cell, direction, rot % 6) {
        Ok((reached, turned)) => reached.raw() == to && turned == rotation,
        Err(_) => false,
    }
}

#[test]
fn steps_cross_base_cells(rt: HostRuntime) {
    let plain = test_table(&rt, rt.alloc(), TestTable::Plain);
    let twisted = test_table(&rt, rt.alloc(), TestTable::Twisted);
    let from = cell(&rt, 0x813d3ffffffffff);
    let in_plain = cell(&rt, 0x813ebffffffffff);
    let in_twisted = cell(&rt, 0x813efffffffffff);
    expect(
        &rt,
        "plain",
        leads(&plain, from, Direction::I, 0, (0x813ebffffffffff, 0)),
    );
    expect(
        &rt,
        "back by plain",
        leads(&plain, in_plain, Direction::JK, 0, (0x813d3ffffffffff, 0)),
    );
    expect(
        &rt,
        "twisted",
        leads(&twisted, from, Direction::I, 0, (0x813efffffffffff, 1)),
    );
    expect(
        &rt,
        "back by twisted",
        leads(
            &twisted,
            in_twisted,
            Direction::JK,
            1,
            (0x813d3ffffffffff, 0),
        ),
    );
}

#[test]
fn steps_end_at_pentagon_base_cells(rt: HostRuntime) {
    let plain = test_table(&rt, rt.alloc(), TestTable::Plain);
    let beside = step(&plain, cell(&rt, BESIDE), Direction::JK, 0);
    expect(&rt, "beside", matches!(beside, Err(H3Error::Pentagon)));
    let inside = step(&plain, cell(&rt, 0x8108bffffffffff), Direction::I, 0);
    expect(&rt, "inside", matches!(inside, Err(H3Error::Pentagon)));
}

/// The ring of a cell in a disk of radius 2 at most, by its place.
fn ring_of(place: usize) -> u32 {
    match place {
        0 => 0,
        1..=6 => 1,
        _ => 2,
    }
}

/// Whether a disk gave a cell, and its ring.
fn is_item(found: Option<Result<(Cell, u32), H3Error>>, cell: u64, ring: u32) -> bool {
    match found {
        Some(Ok((reached, number))) => reached.raw() == cell && number == ring,
        _ => false,
    }
}

/// Whether the cells of a disk from a place on are the next.
fn disk_begins(rt: &HostRuntime, walk: &mut Disk<'_>, cells: &[u64], first: usize) -> bool {
    for (place, cell) in cells.iter().enumerate() {
        let ring = ring_of(first.saturating_add(place));
        if !holds(rt, place, is_item(walk.next(), *cell, ring)) {
            return false;
        }
    }
    true
}

/// How a walk goes on after its cells.
#[derive(Clone, Copy)]
enum End {
    /// There is no further item.
    Done,

    /// There is the error `Pentagon`, and then no further item.
    Refused,
}

/// Whether a disk ends so.
fn disk_ends(walk: &mut Disk<'_>, end: End) -> bool {
    let is_so = match end {
        End::Done => true,
        End::Refused => matches!(walk.next(), Some(Err(H3Error::Pentagon))),
    };
    is_so && walk.next().is_none() && walk.next().is_none()
}

/// Whether a disk gives these cells, ring by ring, and then ends so.
fn has_disk(
    rt: &HostRuntime,
    table: &BaseTable,
    (origin, k): (Cell, i32),
    cells: &[u64],
    end: End,
) -> bool {
    match Disk::new(table, origin, k) {
        Ok(mut walk) => disk_begins(rt, &mut walk, cells, 0) && disk_ends(&mut walk, end),
        Err(_) => false,
    }
}

#[test]
fn disks_are_walked_ring_by_ring(rt: HostRuntime) {
    static TURNED: [u64; 7] = [
        0x813d3ffffffffff,
        0x81547ffffffffff,
        0x813dbffffffffff,
        0x813c3ffffffffff,
        0x813d7ffffffffff,
        0x813e7ffffffffff,
        0x813efffffffffff,
    ];
    let plain = test_table(&rt, rt.alloc(), TestTable::Plain);
    let twisted = test_table(&rt, rt.alloc(), TestTable::Twisted);
    let hexagon = cell(&rt, HEXAGON);
    expect(
        &rt,
        "radius 1",
        has_disk(&rt, &plain, (hexagon, 1), &DISK, End::Done),
    );
    expect(
        &rt,
        "radius 0",
        has_disk(&rt, &plain, (hexagon, 0), &DISK[..1], End::Done),
    );
    let first = cell(&rt, 0x813d3ffffffffff);
    expect(
        &rt,
        "twisted",
        has_disk(&rt, &twisted, (first, 1), &TURNED, End::Done),
    );
}

#[test]
fn disks_cross_base_cells(rt: HostRuntime) {
    static CELLS: [u64; 19] = [
        0x803dfffffffffff,
        0x8055fffffffffff,
        0x8053fffffffffff,
        0x803bfffffffffff,
        0x8025fffffffffff,
        0x8027fffffffffff,
        0x803ffffffffffff,
        0x8057fffffffffff,
        0x806dfffffffffff,
        0x806bfffffffffff,
        0x8069fffffffffff,
        0x8051fffffffffff,
        0x8039fffffffffff,
        0x8023fffffffffff,
        0x800dfffffffffff,
        0x800ffffffffffff,
        0x8011fffffffffff,
        0x8029fffffffffff,
        0x8041fffffffffff,
    ];
    let centre = cell(&rt, CENTRE);
    for table in [TestTable::Plain, TestTable::Twisted] {
        let table = test_table(&rt, rt.alloc(), table);
        expect(
            &rt,
            "radius 1",
            has_disk(&rt, &table, (centre, 1), &CELLS[..7], End::Done),
        );
        expect(
            &rt,
            "radius 2",
            has_disk(&rt, &table, (centre, 2), &CELLS, End::Done),
        );
    }
}

#[test]
fn disks_end_at_pentagon_base_cells(rt: HostRuntime) {
    static BEGUN: [u64; 3] = [BESIDE, 0x8023fffffffffff, 0x8021fffffffffff];
    let plain = test_table(&rt, rt.alloc(), TestTable::Plain);
    let beside = cell(&rt, BESIDE);
    expect(
        &rt,
        "radius 1",
        has_disk(&rt, &plain, (beside, 1), &BEGUN, End::Refused),
    );
    expect(
        &rt,
        "the largest radius",
        has_disk(&rt, &plain, (beside, i32::MAX), &BEGUN, End::Refused),
    );
    let inside = cell(&rt, 0x8108bffffffffff);
    expect(
        &rt,
        "inside",
        has_disk(&rt, &plain, (inside, 0), &[0x8108bffffffffff], End::Done),
    );
}

/// Whether a disk and a copy of it give the same.
fn disk_is_copied(rt: &HostRuntime, table: &BaseTable, origin: Cell) -> bool {
    let Ok(mut walk) = Disk::new(table, origin, 1) else {
        return false;
    };
    let mut again = copy_of(&walk);
    disk_begins(rt, &mut walk, &DISK, 0) && disk_begins(rt, &mut again, &DISK, 0)
}

/// Whether a disk, after its first two cells, and a clone of it give the rest.
fn disk_is_cloned(rt: &HostRuntime, table: &BaseTable, origin: Cell) -> bool {
    let Ok(mut walk) = Disk::new(table, origin, 1) else {
        return false;
    };
    let (first, rest) = DISK.split_at(2);
    let begins_well = disk_begins(rt, &mut walk, first, 0);
    let Ok(mut again) = clone_of(&walk) else {
        return false;
    };
    begins_well
        && disk_begins(rt, &mut walk, rest, 2)
        && disk_ends(&mut walk, End::Done)
        && disk_begins(rt, &mut again, rest, 2)
        && disk_ends(&mut again, End::Done)
}

#[test]
fn a_copy_or_a_clone_of_a_disk_goes_on_where_it_stands(rt: HostRuntime) {
    let plain = test_table(&rt, rt.alloc(), TestTable::Plain);
    let origin = cell(&rt, HEXAGON);
    expect(&rt, "copy", disk_is_copied(&rt, &plain, origin));
    expect(&rt, "clone", disk_is_cloned(&rt, &plain, origin));
}

/// It has room for these alone, and what is copied owns no collection.
#[test]
fn a_disk_holds_a_cell_a_direction_and_counters(rt: HostRuntime) {
    let parts = size_of::<(&BaseTable, Cell, u8, u8, Direction, u32, u32, u8, u32, bool)>();
    expect(&rt, "size", size_of::<Disk<'_>>() == parts);
}

/// Whether these cells are the next of a ring.
fn ring_begins(rt: &HostRuntime, walk: &mut Ring<'_>, cells: &[u64]) -> bool {
    for (place, cell) in cells.iter().enumerate() {
        let is_next = match walk.next() {
            Some(Ok(reached)) => reached.raw() == *cell,
            _ => false,
        };
        if !holds(rt, place, is_next) {
            return false;
        }
    }
    true
}

/// Whether a ring ends so.
fn ring_ends(walk: &mut Ring<'_>, end: End) -> bool {
    let is_so = match end {
        End::Done => true,
        End::Refused => matches!(walk.next(), Some(Err(H3Error::Pentagon))),
    };
    is_so && walk.next().is_none() && walk.next().is_none()
}

/// Whether a ring gives these cells, and then ends so.
fn has_ring(
    rt: &HostRuntime,
    table: &BaseTable,
    (origin, k): (Cell, i32),
    cells: &[u64],
    end: End,
) -> bool {
    match Ring::new(table, origin, k) {
        Ok(mut walk) => ring_begins(rt, &mut walk, cells) && ring_ends(&mut walk, end),
        Err(_) => false,
    }
}

#[test]
fn rings_are_walked_around(rt: HostRuntime) {
    static TWELVE: [u64; 12] = [
        0x8041fffffffffff,
        0x8057fffffffffff,
        0x806dfffffffffff,
        0x806bfffffffffff,
        0x8069fffffffffff,
        0x8051fffffffffff,
        0x8039fffffffffff,
        0x8023fffffffffff,
        0x800dfffffffffff,
        0x800ffffffffffff,
        0x8011fffffffffff,
        0x8029fffffffffff,
    ];
    let plain = test_table(&rt, rt.alloc(), TestTable::Plain);
    let twisted = test_table(&rt, rt.alloc(), TestTable::Twisted);
    let (hexagon, pentagon) = (cell(&rt, HEXAGON), cell(&rt, PENTAGON));
    expect(
        &rt,
        "hexagon",
        has_ring(&rt, &plain, (hexagon, 1), &RING, End::Done),
    );
    expect(
        &rt,
        "pentagon",
        has_ring(&rt, &plain, (pentagon, 0), &[PENTAGON], End::Done),
    );
    let centre = cell(&rt, CENTRE);
    expect(
        &rt,
        "plain",
        has_ring(&rt, &plain, (centre, 2), &TWELVE, End::Done),
    );
    expect(
        &rt,
        "twisted",
        has_ring(&rt, &twisted, (centre, 2), &TWELVE, End::Done),
    );
}

#[test]
fn rings_end_at_pentagon_base_cells(rt: HostRuntime) {
    static BEGUN: [u64; 3] = [0x800dfffffffffff, 0x8023fffffffffff, 0x8021fffffffffff];
    let plain = test_table(&rt, rt.alloc(), TestTable::Plain);
    let beside = cell(&rt, BESIDE);
    expect(
        &rt,
        "radius 1",
        has_ring(&rt, &plain, (beside, 1), &BEGUN, End::Refused),
    );
    expect(
        &rt,
        "the largest radius",
        has_ring(&rt, &plain, (beside, i32::MAX), &[], End::Refused),
    );
}

/// On this table the ring of radius 2 around base cell 0 does not close.
#[test]
fn a_ring_that_does_not_close_is_refused_after_its_cells(rt: HostRuntime) {
    static TWELVE: [u64; 12] = [
        0x8005fffffffffff,
        0x8007fffffffffff,
        0x800bfffffffffff,
        0x800dfffffffffff,
        0x800ffffffffffff,
        0x8011fffffffffff,
        0x8013fffffffffff,
        0x8015fffffffffff,
        0x8017fffffffffff,
        0x8019fffffffffff,
        0x801bfffffffffff,
        0x801ffffffffffff,
    ];
    let open = table_in(&rt, rt.alloc(), &open_file());
    let origin = cell(&rt, 0x8001fffffffffff);
    expect(
        &rt,
        "an open ring",
        has_ring(&rt, &open, (origin, 2), &TWELVE, End::Refused),
    );
}

/// Whether a ring and a copy of it give the same.
fn ring_is_copied(rt: &HostRuntime, table: &BaseTable, origin: Cell) -> bool {
    let Ok(mut walk) = Ring::new(table, origin, 1) else {
        return false;
    };
    let mut again = copy_of(&walk);
    ring_begins(rt, &mut walk, &RING) && ring_begins(rt, &mut again, &RING)
}

/// Whether a ring, after its first two cells, and a clone of it give the rest.
fn ring_is_cloned(rt: &HostRuntime, table: &BaseTable, origin: Cell) -> bool {
    let Ok(mut walk) = Ring::new(table, origin, 1) else {
        return false;
    };
    let (first, rest) = RING.split_at(2);
    let begins_well = ring_begins(rt, &mut walk, first);
    let Ok(mut again) = clone_of(&walk) else {
        return false;
    };
    begins_well
        && ring_begins(rt, &mut walk, rest)
        && ring_ends(&mut walk, End::Done)
        && ring_begins(rt, &mut again, rest)
        && ring_ends(&mut again, End::Done)
}

#[test]
fn a_copy_or_a_clone_of_a_ring_goes_on_where_it_stands(rt: HostRuntime) {
    let plain = test_table(&rt, rt.alloc(), TestTable::Plain);
    let origin = cell(&rt, HEXAGON);
    expect(&rt, "copy", ring_is_copied(&rt, &plain, origin));
    expect(&rt, "clone", ring_is_cloned(&rt, &plain, origin));
}

/// It has room for these alone, and what is copied owns no collection.
#[test]
fn a_ring_holds_two_cells_a_direction_and_counters(rt: HostRuntime) {
    let parts = size_of::<
        (
            &BaseTable,
            Cell,
            u8,
            u8,
            Direction,
            Cell,
            u32,
            u32,
            u8,
            bool,
        ),
    >();
    expect(&rt, "size", size_of::<Ring<'_>>() == parts);
}

/// Why a disk is refused before it begins.
fn disk_refusal(table: &BaseTable, origin: Cell, k: i32) -> Option<H3Error> {
    match Disk::new(table, origin, k) {
        Ok(_) => None,
        Err(error) => Some(error),
    }
}

/// Why a ring is refused before it begins.
fn ring_refusal(table: &BaseTable, origin: Cell, k: i32) -> Option<H3Error> {
    match Ring::new(table, origin, k) {
        Ok(_) => None,
        Err(error) => Some(error),
    }
}

/// Whether a call was refused with the error expected, or not at all where none is.
fn is_refusal(found: Option<H3Error>, expected: Option<H3Error>) -> bool {
    match (found, expected) {
        (Some(error), Some(other)) => error == other,
        (None, None) => true,
        _ => false,
    }
}

#[test]
fn walks_are_refused_before_they_begin(rt: HostRuntime) {
    const DOMAIN: Option<H3Error> = Some(H3Error::Domain);
    const MET: Option<H3Error> = Some(H3Error::Pentagon);
    // why a disk is refused, and why a ring is
    static ROWS: [(u64, i32, Option<H3Error>, Option<H3Error>); 6] = [
        (PENTAGON, -1, DOMAIN, DOMAIN),
        (PENTAGON, 0, MET, None),
        (0x8108bffffffffff, 0, None, None),
        (0x8108bffffffffff, 1, MET, MET),
        (HEXAGON, -1, DOMAIN, DOMAIN),
        (HEXAGON, i32::MAX, None, None),
    ];
    let plain = test_table(&rt, rt.alloc(), TestTable::Plain);
    for (row, (origin, k, disk, ring)) in ROWS.iter().enumerate() {
        let origin = cell(&rt, *origin);
        expect_row(
            &rt,
            row,
            is_refusal(disk_refusal(&plain, origin, *k), *disk),
        );
        expect_row(
            &rt,
            row,
            is_refusal(ring_refusal(&plain, origin, *k), *ring),
        );
    }
}

#[test]
fn disks_have_sizes(rt: HostRuntime) {
    static ROWS: [(i32, Expected); 5] = [
        (0, Ok(1)),
        (1, Ok(7)),
        (2, Ok(19)),
        (i32::MAX, Ok(13835058048839712769)),
        (-1, Err(H3Error::Domain)),
    ];
    for (row, (k, expected)) in ROWS.iter().enumerate() {
        expect_row(&rt, row, same(disk_len(*k), *expected));
    }
}

/// Whether the neighbors are found as expected, or refused with the error expected.
fn is_same(found: Result<bool, H3Error>, expected: Result<bool, H3Error>) -> bool {
    match (found, expected) {
        (Ok(are), Ok(other)) => are == other,
        (Err(error), Err(other)) => error == other,
        _ => false,
    }
}

#[test]
fn neighbors_are_a_step_apart(rt: HostRuntime) {
    static ROWS: [(u64, u64, Result<bool, H3Error>); 9] = [
        (0x8528340ffffffff, HEXAGON, Ok(true)),
        (HEXAGON, 0x8528340ffffffff, Ok(true)),
        (0x8528340ffffffff, 0x8528347bfffffff, Ok(false)),
        (0x8528340ffffffff, 0x8528340ffffffff, Ok(false)),
        // also a pentagon is not its own neighbor
        (PENTAGON, PENTAGON, Ok(false)),
        (PENTAGON, 0x8011fffffffffff, Err(H3Error::Pentagon)),
        (0x8011fffffffffff, PENTAGON, Err(H3Error::Pentagon)),
        (HEXAGON, 0x8428347ffffffff, Err(H3Error::ResMismatch)),
        (PENTAGON, 0x8108bffffffffff, Err(H3Error::ResMismatch)),
    ];
    let plain = test_table(&rt, rt.alloc(), TestTable::Plain);
    for (row, (a, b, expected)) in ROWS.iter().enumerate() {
        let found = are_neighbors(&plain, cell(&rt, *a), cell(&rt, *b));
        expect_row(&rt, row, is_same(found, *expected));
    }
}

/// Whether an edge leads to the cell expected, or is refused with the error expected.
fn leads_to(table: &BaseTable, edge: u64, expected: Expected) -> bool {
    match Edge::new(edge) {
        Ok(edge) => same_cell(edge_destination(table, edge), expected),
        Err(_) => false,
    }
}

/// Whether this edge leads from one cell to another.
fn joins(table: &BaseTable, edge: u64, a: Cell, b: Cell) -> bool {
    same_edge(edge_between(table, a, b), Ok(edge)) && leads_to(table, edge, Ok(b.raw()))
}

#[test]
fn edges_lead_to_neighbors(rt: HostRuntime) {
    let plain = test_table(&rt, rt.alloc(), TestTable::Plain);
    let twisted = test_table(&rt, rt.alloc(), TestTable::Twisted);
    let hexagon = cell(&rt, HEXAGON);
    let beside = cell(&rt, 0x85283477fffffff);
    let there = joins(&plain, 0x115283473fffffff, hexagon, beside);
    expect(&rt, "plain", there);
    let first = cell(&rt, 0x813d3ffffffffff);
    let second = cell(&rt, 0x813efffffffffff);
    let there = joins(&twisted, 0x1413d3ffffffffff, first, second);
    expect(&rt, "twisted", there);
    // the way back, in the frame of the other base cell
    let back = joins(&twisted, 0x1113efffffffffff, second, first);
    expect(&rt, "back by twisted", back);
}

#[test]
fn edges_between_other_cells_are_refused(rt: HostRuntime) {
    static ROWS: [(u64, u64, H3Error); 7] = [
        (HEXAGON, 0x8428347ffffffff, H3Error::ResMismatch),
        (PENTAGON, 0x8108bffffffffff, H3Error::ResMismatch),
        (HEXAGON, HEXAGON, H3Error::NotNeighbors),
        (PENTAGON, PENTAGON, H3Error::NotNeighbors),
        (PENTAGON, 0x8011fffffffffff, H3Error::Pentagon),
        (0x8011fffffffffff, PENTAGON, H3Error::Pentagon),
        (0x8528340ffffffff, 0x8528347bfffffff, H3Error::NotNeighbors),
    ];
    let plain = test_table(&rt, rt.alloc(), TestTable::Plain);
    for (row, (a, b, error)) in ROWS.iter().enumerate() {
        let found = edge_between(&plain, cell(&rt, *a), cell(&rt, *b));
        expect_row(&rt, row, same_edge(found, Err(*error)));
    }
    // into a pentagon base cell, and out of one
    let into = leads_to(&plain, 0x11021fffffffffff, Err(H3Error::Pentagon));
    expect(&rt, "into a pentagon base cell", into);
    let out = leads_to(&plain, 0x12009fffffffffff, Err(H3Error::Pentagon));
    expect(&rt, "out of a pentagon base cell", out);
}

/// Whether these edges are the next.
fn edges_begin(rt: &HostRuntime, edges: &mut Edges, expected: &[u64]) -> bool {
    for (place, raw) in expected.iter().enumerate() {
        let is_next = match edges.next() {
            Some(edge) => edge.raw() == *raw,
            None => false,
        };
        if !holds(rt, place, is_next) {
            return false;
        }
    }
    true
}

/// Whether these edges are all that are left. There are none after the end.
fn edges_are(rt: &HostRuntime, edges: &mut Edges, expected: &[u64]) -> bool {
    edges_begin(rt, edges, expected) && edges.next().is_none() && edges.next().is_none()
}

#[test]
fn edges_leave_a_cell(rt: HostRuntime) {
    static OF_PENTAGON: [u64; 5] = [
        0x12009fffffffffff,
        0x13009fffffffffff,
        0x14009fffffffffff,
        0x15009fffffffffff,
        0x16009fffffffffff,
    ];
    expect(
        &rt,
        "hexagon",
        edges_are(&rt, &mut edges_of(cell(&rt, HEXAGON)), &EDGES),
    );
    expect(
        &rt,
        "pentagon",
        edges_are(&rt, &mut edges_of(cell(&rt, PENTAGON)), &OF_PENTAGON),
    );
}

/// Whether edges, after the first two of them, and a clone of them give the rest.
fn edges_are_cloned(rt: &HostRuntime, mut edges: Edges) -> bool {
    let (first, rest) = EDGES.split_at(2);
    let begins_well = edges_begin(rt, &mut edges, first);
    let Ok(mut again) = clone_of(&edges) else {
        return false;
    };
    begins_well && edges_are(rt, &mut edges, rest) && edges_are(rt, &mut again, rest)
}

#[test]
fn a_copy_or_a_clone_of_edges_goes_on_where_they_stand(rt: HostRuntime) {
    let mut edges = edges_of(cell(&rt, HEXAGON));
    let mut again = copy_of(&edges);
    expect(&rt, "edges", edges_are(&rt, &mut edges, &EDGES));
    expect(&rt, "copy", edges_are(&rt, &mut again, &EDGES));
    expect(
        &rt,
        "clone",
        edges_are_cloned(&rt, edges_of(cell(&rt, HEXAGON))),
    );
}

/// They have room for these alone, and what is copied owns no collection.
#[test]
fn edges_hold_a_cell_and_a_direction(rt: HostRuntime) {
    expect(&rt, "size", size_of::<Edges>() == size_of::<(Cell, u8)>());
}
