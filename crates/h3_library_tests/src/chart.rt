//! Each disk of radius 1 or 2 around a cell of resolution 1 of which no step is refused: steps
//! between its cells lead where the places of the spiral say, and its cells are those that as many
//! rounds of steps reach.

use crate::expected::expect;
use crate::grid::test_table;
use crate::rows::{Cells, cell};
use h3_directions::{DIRECTIONS, Direction};
use h3_fakes::holds;
use h3_grid::{Disk, step};
use h3_index::Cell;
use h3_table::BaseTable;
use h3_table::vectors::TestTable;

/// The moves of a disk of radius 2, and whether each writes a cell. The first seven are those of
/// radius 1.
static MOVES: [(Direction, bool); 20] = [
    (Direction::I, false),
    (Direction::J, true),
    (Direction::JK, true),
    (Direction::K, true),
    (Direction::IK, true),
    (Direction::I, true),
    (Direction::IJ, true),
    (Direction::I, false),
    (Direction::J, true),
    (Direction::J, true),
    (Direction::JK, true),
    (Direction::JK, true),
    (Direction::K, true),
    (Direction::K, true),
    (Direction::IK, true),
    (Direction::IK, true),
    (Direction::I, true),
    (Direction::I, true),
    (Direction::IJ, true),
    (Direction::IJ, true),
];

/// The Eisenstein integer a + b*w of a direction.
fn unit(direction: Direction) -> (i32, i32) {
    match direction {
        Direction::K => (-1, -1),
        Direction::J => (0, 1),
        Direction::JK => (-1, 0),
        Direction::I => (1, 0),
        Direction::IK => (0, -1),
        Direction::IJ => (1, 1),
    }
}

/// A cell of a walk, the rotation there, which is below 6, and what the moves so far add up to.
#[derive(Clone, Copy)]
struct Visit {
    cell: Cell,
    rotation: u8,
    place: (i32, i32),
}

/// The place beside another in a direction.
fn place_beside(place: (i32, i32), direction: Direction) -> (i32, i32) {
    let (a, b) = unit(direction);
    (place.0.wrapping_add(a), place.1.wrapping_add(b))
}

/// Where a move leads; nowhere if the step is refused.
fn moved(table: &BaseTable, at: &Visit, direction: Direction) -> Option<Visit> {
    match step(table, at.cell, direction, at.rotation % 6) {
        Ok((cell, rotation)) => Some(Visit {
            cell,
            rotation,
            place: place_beside(at.place, direction),
        }),
        Err(_) => None,
    }
}

/// How many cells a disk of radius 2 has.
const SIZE: usize = 19;

/// What the moves of a disk write, up to the first that is refused: so many visits.
fn visits(table: &BaseTable, origin: Cell, moves: &[(Direction, bool)]) -> ([Visit; SIZE], usize) {
    let mut at = Visit {
        cell: origin,
        rotation: 0,
        place: (0, 0),
    };
    let mut all = [at; SIZE];
    let mut count = 1usize;
    for (direction, writes) in moves {
        let Some(next) = moved(table, &at, *direction) else {
            return (all, count);
        };
        at = next;
        if *writes && count < SIZE {
            all[count] = at;
            count += 1;
        }
    }
    (all, count)
}

/// The cells of a disk; none where it is refused.
fn disk_cells(table: &BaseTable, origin: Cell, k: i32) -> Option<Cells> {
    let Ok(walk) = Disk::new(table, origin, k) else {
        return None;
    };
    let mut cells = Cells::none();
    for item in walk {
        match item {
            Ok((cell, _)) => cells.push(cell),
            Err(_) => return None,
        }
    }
    Some(cells)
}

/// Whether the walk wrote these cells.
fn wrote(all: &[Visit], cells: &[Cell]) -> bool {
    for place in 0..all.len().min(cells.len()) {
        if all[place].cell != cells[place] {
            return false;
        }
    }
    all.len() == cells.len()
}

/// Whether a step leads from one cell of a disk to another.
fn leads(table: &BaseTable, from: &Visit, direction: Direction, to: &Visit) -> bool {
    match step(table, from.cell, direction, from.rotation % 6) {
        Ok((cell, rotation)) => cell == to.cell && rotation == to.rotation,
        Err(_) => false,
    }
}

/// Whether a step leads from one cell of a disk to that at the place beside it in a direction;
/// `None` where the disk has none there.
fn leads_beside(
    table: &BaseTable,
    all: &[Visit],
    from: &Visit,
    direction: Direction,
) -> Option<bool> {
    let place = place_beside(from.place, direction);
    for to in all {
        if to.place == place {
            return Some(leads(table, from, direction, to));
        }
    }
    None
}

/// In how many directions a disk has a place beside that of a cell; `None` where a step in one of
/// them does not lead to the cell there.
fn places_around(table: &BaseTable, all: &[Visit], from: &Visit) -> Option<u32> {
    let mut count: u32 = 0;
    for direction in DIRECTIONS {
        match leads_beside(table, all, from, direction) {
            Some(true) => count = count.saturating_add(1),
            Some(false) => return None,
            None => {}
        }
    }
    Some(count)
}

/// How many pairs of places of a disk are a direction apart; `None` where a step between two of
/// them does not lead to the cell there.
fn pairs_apart(table: &BaseTable, all: &[Visit]) -> Option<u32> {
    let mut count: u32 = 0;
    for from in all {
        match places_around(table, all, from) {
            Some(around) => count = count.saturating_add(around),
            None => return None,
        }
    }
    Some(count)
}

/// Adds the cells that a step reaches from a cell to a list, if they are not in it.
fn add_neighbors(table: &BaseTable, cell: Cell, cells: &mut Cells) {
    for direction in DIRECTIONS {
        if let Ok((reached, _)) = step(table, cell, direction, 0)
            && !cells.all().contains(&reached)
        {
            cells.push(reached);
        }
    }
}

/// Adds the cells that a step reaches from the cells of a list to it: there are 43 at most after two
/// rounds.
fn add_round(table: &BaseTable, cells: &mut Cells) {
    for place in 0..cells.all().len() {
        if let Some(cell) = cells.at(place) {
            add_neighbors(table, cell, cells);
        }
    }
}

/// Whether all cells of a list are in another one.
fn are_in(cells: &[Cell], others: &[Cell]) -> bool {
    for cell in cells {
        if !others.contains(cell) {
            return false;
        }
    }
    true
}

/// Whether the cells of a disk are those that as many rounds of steps reach as its radius.
fn are_reached(table: &BaseTable, origin: Cell, k: i32, cells: &[Cell]) -> bool {
    let mut reached = Cells::none();
    reached.push(origin);
    for _round in 0..k {
        add_round(table, &mut reached);
    }
    are_in(cells, reached.all()) && are_in(reached.all(), cells)
}

/// Whether all this holds of the disk of a radius with these moves, whose places make this many
/// pairs a direction apart; `None` where the disk is refused.
fn is_disk_charted(
    table: &BaseTable,
    (origin, k): (Cell, i32),
    moves: &[(Direction, bool)],
    pairs: u32,
) -> Option<bool> {
    let Some(cells) = disk_cells(table, origin, k) else {
        return None;
    };
    let (visits, count) = visits(table, origin, moves);
    let all = &visits[..count.min(SIZE)];
    let is_charted = wrote(all, cells.all())
        && pairs_apart(table, all) == Some(pairs)
        && are_reached(table, origin, k, cells.all());
    Some(is_charted)
}

/// Whether it holds of radius 1 and 2, whose places make 24 and 84 pairs a direction apart, where
/// these disks are not refused.
fn is_cell_charted(table: &BaseTable, origin: Cell) -> bool {
    let first = is_disk_charted(table, (origin, 1), &MOVES[..7], 24);
    let second = is_disk_charted(table, (origin, 2), &MOVES, 84);
    first.unwrap_or(true) && second.unwrap_or(true)
}

/// How many cells of resolution 1 there are in a base cell; `None` where it does not hold of one of
/// them.
fn charted_in(rt: &HostRuntime, table: &BaseTable, base: u8) -> Option<u32> {
    let mut count: u32 = 0;
    for digit in 0..7u64 {
        let raw = 0x0810_03ff_ffff_ffff | u64::from(base) << 45 | digit << 42;
        if let Ok(cell) = Cell::new(raw) {
            if !holds(rt, digit as usize, is_cell_charted(table, cell)) {
                return None;
            }
            count = count.saturating_add(1);
        }
    }
    Some(count)
}

/// Whether it holds of all cells of resolution 1.
fn is_table_charted(rt: &HostRuntime, table: &BaseTable) -> bool {
    let mut count: u32 = 0;
    for base in 0..122u8 {
        match charted_in(rt, table, base) {
            Some(charted) => count = count.saturating_add(charted),
            None => return holds(rt, usize::from(base), false),
        }
    }
    count == 842
}

#[test]
fn disks_are_charts(rt: HostRuntime) {
    let plain = test_table(&rt, rt.alloc(), TestTable::Plain);
    let twisted = test_table(&rt, rt.alloc(), TestTable::Twisted);
    // of this disk, over two base cells, no step is refused
    let across = (cell(&rt, 0x813d3ffffffffff), 1);
    let charted = is_disk_charted(&twisted, across, &MOVES[..7], 24);
    expect(&rt, "beside", charted == Some(true));
    expect(&rt, "plain", is_table_charted(&rt, &plain));
    expect(&rt, "twisted", is_table_charted(&rt, &twisted));
}
