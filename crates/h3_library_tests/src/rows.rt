//! What the tests of all subjects share: cells, and comparisons.

use h3_fakes::holds;
use h3_index::{Cell, Edge, H3Error};
use std::alloc::AllocError;
use std::process::Abort;

/// The number, or the error, that a row expects.
pub type Expected = Result<u64, H3Error>;

/// Whether a call returned the number, or the error, that was expected.
pub fn same(found: Result<u64, H3Error>, expected: Expected) -> bool {
    match (found, expected) {
        (Ok(number), Ok(other)) => number == other,
        (Err(error), Err(other)) => error == other,
        _ => false,
    }
}

/// Whether a call returned the cell with the number, or the error, that was expected.
pub fn same_cell(found: Result<Cell, H3Error>, expected: Expected) -> bool {
    match found {
        Ok(cell) => same(Ok(cell.raw()), expected),
        Err(error) => same(Err(error), expected),
    }
}

/// Whether a call returned the edge with the number, or the error, that was expected.
pub fn same_edge(found: Result<Edge, H3Error>, expected: Expected) -> bool {
    match found {
        Ok(edge) => same(Ok(edge.raw()), expected),
        Err(error) => same(Err(error), expected),
    }
}

/// Whether an iterator gave a cell, and this one.
pub fn is_cell(found: Option<Cell>, expected: u64) -> bool {
    match found {
        Some(cell) => cell.raw() == expected,
        None => false,
    }
}

/// Whether these are the cells, in this order.
pub fn is_list(rt: &HostRuntime, cells: &[Cell], expected: &[u64]) -> bool {
    for place in 0..cells.len().min(expected.len()) {
        if !holds(rt, place, cells[place].raw() == expected[place]) {
            return false;
        }
    }
    cells.len() == expected.len()
}

/// The cell with a number that is one's.
pub fn cell(rt: &impl Abort, raw: u64) -> Cell {
    match Cell::new(raw) {
        Ok(cell) => cell,
        Err(_) => panic!(rt; "{raw:x} is no cell"),
    }
}

/// More cells than most lists have.
pub const MOST: usize = 64;

/// A list of up to these cells.
#[derive(Drop)]
pub struct Cells {
    slots: [Cell; MOST],
    count: usize,
}

impl Cells {
    /// A list of no cells.
    pub fn none() -> Cells {
        Cells {
            slots: [Cell::in_base(0); MOST],
            count: 0,
        }
    }

    /// The cells of the list.
    pub fn all(&self) -> &[Cell] {
        &self.slots[..self.count.min(MOST)]
    }

    /// The same, to change them.
    pub fn all_mut(&mut self) -> &mut [Cell] {
        let count = self.count.min(MOST);
        let slots = &mut self.slots;
        &mut slots[..count]
    }

    /// The cell at a place, where there is one.
    pub fn at(&self, place: usize) -> Option<Cell> {
        if place < self.count && place < MOST {
            return Some(self.slots[place]);
        }
        None
    }

    /// Adds a cell, where there is room.
    pub fn push(&mut self, cell: Cell) {
        if self.count < MOST {
            self.slots[self.count] = cell;
            self.count += 1;
        }
    }

    /// Takes the last cell, where there is one.
    pub fn pop(&mut self) -> Option<Cell> {
        let last = self.count.min(MOST);
        if last == 0 {
            return None;
        }
        self.count = last - 1;
        Some(self.slots[last - 1])
    }

    /// Leaves the first cells, up to a count.
    pub fn truncate(&mut self, count: usize) {
        self.count = self.count.min(count);
    }

    /// Turns the order of the cells round.
    pub fn reverse(&mut self) {
        self.all_mut().reverse();
    }
}

/// Puts the cells of a list into the first slots; returns how many they are.
pub fn put(slots: &mut [Cell], raws: &[u64]) -> usize {
    let count = raws.len().min(slots.len());
    for place in 0..count {
        if let Ok(cell) = Cell::new(raws[place]) {
            slots[place] = cell;
        }
    }
    count
}

/// A copy, of a type that is `Copy`.
pub fn copy_of<T: Copy>(value: &T) -> T {
    *value
}

/// A clone, by the type's bound.
pub fn clone_of<T: Clone>(value: &T) -> Result<T, AllocError> {
    Ok(value.clone()?)
}
