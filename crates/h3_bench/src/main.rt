//! Loops over the library for `bench/run`, which measures them against plain Rust. `h3_bench COUNT`
//! goes from COUNT positions to their cells and back; `h3_bench COUNT tables` reads the table on
//! standard input COUNT times; `h3_bench COUNT steps` reads it once and goes COUNT times round the
//! ring of radius 1000 by 6000 steps; `h3_bench COUNT zones PERCENT ORDER WAY` looks a million cells up
//! COUNT times in zones that are so many in a hundred of the cells of resolution 5. ORDER is
//! `sorted` or `random`; WAY is `each` for `zone_of`, `near` for
//! `zone_near`, or `indexed` for a table with four places for each zone. Each prints a sum of what it found.
#![tactic(auto)]

use h3_directions::{Direction, TableError};
use h3_grid::step;
use h3_index::{Cell, H3Error};
use h3_regions::{ZoneIndex, Zones};
use h3_streams::Streamed;
use h3_table::BaseTable;
use h3_tree::{child_at, child_pos, children_at};
use std::alloc::{AllocError, Global};
use std::io::Read;
use std::{env, io};

/// How far apart the positions are: so ten million of them reach through all descendants of a
/// pentagon of resolution 0 at resolution 15.
const STRIDE: u64 = 395_630;

/// Goes from each of `count` positions to its cell and back, and sums what it finds.
fn positions_and_back(count: u64) -> Result<u64, H3Error> {
    let ancestor = Cell::new(0x8009fffffffffff)?;
    let mut sum: u64 = 0;
    for place in 0..count {
        let cell = child_at(place.wrapping_mul(STRIDE), ancestor, 15)?;
        sum = sum.wrapping_add(cell.raw() ^ child_pos(cell, 0)?);
    }
    Ok(sum)
}

/// Reads a table `count` times from its bytes, and sums a link of each.
fn read_tables(alloc: Global, bytes: &[u8], count: u64) -> Result<u64, TableError> {
    let mut sum: u64 = 0;
    for _ in 0..count {
        let mut source = Streamed::new(bytes);
        let table = BaseTable::read(alloc, &mut source)?;
        let (to, turns) = table.link(121, Direction::IJ);
        sum = sum.wrapping_add(u64::from(to) + u64::from(turns));
    }
    Ok(sum)
}

/// The directions of the sides of a ring.
const SIDES: [Direction; 6] = [
    Direction::J,
    Direction::JK,
    Direction::K,
    Direction::IK,
    Direction::I,
    Direction::IJ,
];

/// Takes a thousand steps in a direction, and adds the cells to a sum.
fn side(
    table: &BaseTable,
    from: Cell,
    direction: Direction,
    sum: u64,
) -> Result<(Cell, u64), H3Error> {
    let mut cell = from;
    let mut total = sum;
    for _step in 0..1000 {
        let (next, _rotation) = step(table, cell, direction, 0)?;
        cell = next;
        total = total.wrapping_add(next.raw());
    }
    Ok((cell, total))
}

/// Goes once round a ring of radius 1000 from a cell on it, and adds the cells to a sum.
fn round(table: &BaseTable, from: Cell, sum: u64) -> Result<(Cell, u64), H3Error> {
    let mut cell = from;
    let mut total = sum;
    for direction in SIDES {
        let (next, more) = side(table, cell, direction, total)?;
        cell = next;
        total = more;
    }
    Ok((cell, total))
}

/// Goes `count` times round the ring.
fn rounds(table: &BaseTable, count: u64) -> Result<u64, H3Error> {
    let mut cell = Cell::new(0x8f2800000000000)?;
    let mut total: u64 = 0;
    for _round in 0..count {
        let (next, more) = round(table, cell, total)?;
        cell = next;
        total = more;
    }
    Ok(total)
}

/// Goes `count` times round the ring, over the table on standard input.
fn steps(rt: &HostRuntime, count: u64) -> io::Result<()> {
    let mut source = Streamed::new(rt.stdin());
    match BaseTable::read(rt.alloc(), &mut source) {
        Ok(table) => match rounds(&table, count) {
            Ok(sum) => println!(rt; "{sum}"),
            Err(error) => println!(rt; "{error}"),
        },
        Err(error) => println!(rt; "{error}"),
    }
}

/// Reads the table on standard input `count` times.
fn tables(rt: &HostRuntime, count: u64) -> io::Result<()> {
    let mut bytes = Vec::new(rt.alloc());
    rt.stdin().read_to_end(&mut bytes)?;
    match read_tables(rt.alloc(), &bytes, count) {
        Ok(sum) => println!(rt; "{sum}"),
        Err(error) => println!(rt; "{error}"),
    }
}

/// A random number, the same from the same state.
fn random(state: &mut u64) -> u64 {
    let next = state
        .wrapping_mul(6_364_136_223_846_793_005)
        .wrapping_add(1_442_695_040_888_963_407);
    *state = next;
    next >> 33
}

/// So many in a hundred of the cells of resolution 5, at random.
fn some_of_world(alloc: Global, percent: u64) -> Result<Vec<Cell>, AllocError> {
    let mut cells = Vec::new(alloc);
    let mut state: u64 = 1;
    for base in 0..122 {
        for cell in children_at(Cell::in_base(base), 5) {
            if random(&mut state) % 100 < percent {
                cells.push(cell)?;
            }
        }
    }
    Ok(cells)
}

/// A million random cells of resolution 9.
fn random_cells(alloc: Global) -> Result<Vec<Cell>, AllocError> {
    let mut cells = Vec::new(alloc);
    let mut state: u64 = 2;
    for _cell in 0..1_000_000 {
        let base = Cell::in_base((random(&mut state) % 122) as u8);
        if let Ok(cell) = child_at(random(&mut state) % 30_000_000, base, 9) {
            cells.push(cell)?;
        }
    }
    Ok(cells)
}

/// Looks the zone of each cell up, and adds them.
fn zones_of(zones: &Zones, cells: &[Cell]) -> u64 {
    let mut sum: u64 = 0;
    for cell in cells {
        if let Some(zone) = zones.zone_of(*cell) {
            sum = sum.wrapping_add(zone.raw());
        }
    }
    sum
}

/// As `zones_of`, each from where the one before was found.
fn zones_near(zones: &Zones, cells: &[Cell]) -> u64 {
    let mut sum: u64 = 0;
    let mut place: usize = 0;
    for cell in cells {
        if let Some(zone) = zones.zone_near(*cell, &mut place) {
            sum = sum.wrapping_add(zone.raw());
        }
    }
    sum
}

/// As `zones_of`, by a table of first places.
fn zones_indexed(index: &ZoneIndex, cells: &[Cell]) -> u64 {
    let mut sum: u64 = 0;
    for cell in cells {
        if let Some(zone) = index.zone_of(*cell) {
            sum = sum.wrapping_add(zone.raw());
        }
    }
    sum
}

/// The ways to look zones up.
#[derive(Clone, Copy)]
enum Way {
    Each,
    Near,
    Indexed,
}

/// Looks the zones of the cells up `count` times.
fn look_up(zones: &Zones, index: &ZoneIndex, cells: &[Cell], way: Way, count: u64) -> u64 {
    let mut sum: u64 = 0;
    for _round in 0..count {
        let found = match way {
            Way::Each => zones_of(zones, cells),
            Way::Near => zones_near(zones, cells),
            Way::Indexed => zones_indexed(index, cells),
        };
        sum = sum.wrapping_add(found);
    }
    sum
}

/// Looks a million cells up in zones, `count` times.
fn zones(rt: &HostRuntime, count: u64, percent: u64, sorted: bool, way: Way) -> io::Result<()> {
    let mut cells = some_of_world(rt.alloc(), percent)?;
    let mut others = random_cells(rt.alloc())?;
    if sorted {
        others.sort_unstable();
    }
    let mut places = vec![in rt.alloc(); 0u32; 4 * cells.len()]?;
    match Zones::of(&mut cells) {
        Ok(zones) => {
            let index = ZoneIndex::of(&zones, &mut places);
            println!(rt; "{}", look_up(&zones, &index, &others, way, count))
        }
        Err(refused) => println!(rt; "{}", refused.error),
    }
}

/// Goes from `count` positions to their cells and back.
fn positions(rt: &HostRuntime, count: u64) -> io::Result<()> {
    match positions_and_back(count) {
        Ok(sum) => println!(rt; "{sum}"),
        Err(error) => println!(rt; "{error}"),
    }
}

fn main(rt: HostRuntime) -> io::Result<()> {
    let mut words = env::args(&rt)?;
    let count = match words.nth(1) {
        Some(word) => word.as_str().parse().unwrap_or(0),
        None => 0,
    };
    match words.next() {
        Some(word) if word.as_str() == "steps" => steps(&rt, count),
        Some(word) if word.as_str() == "zones" => {
            let percent = match words.next() {
                Some(word) => word.as_str().parse().unwrap_or(0),
                None => 0,
            };
            let sorted = words.next().is_some_and(|word| word.as_str() == "sorted");
            let way = match words.next() {
                Some(word) if word.as_str() == "near" => Way::Near,
                Some(word) if word.as_str() == "indexed" => Way::Indexed,
                _ => Way::Each,
            };
            zones(&rt, count, percent, sorted, way)
        }
        Some(_) => tables(&rt, count),
        None => positions(&rt, count),
    }
}
