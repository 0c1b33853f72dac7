//! The library in use: a parent, its descendants, and their compaction.
#![tactic(auto)]

use anyhow::Error;
use h3::{Cell, children, compact_cells, parent, write_index};

fn main(rt: HostRuntime) -> Result<(), Error> {
    let cell = Cell::new(0x85283473fffffff)?;
    let above = parent(cell, 4)?;
    println!(rt; "the parent is {}", write_index(above.raw()))?;

    let mut cells = Vec::new(rt.alloc());
    for child in children(above, 6)? {
        cells.push(child)?;
    }
    // compaction allocates nothing: it works in slots that the caller provides
    let mut slots = cells.to_vec(rt.alloc())?;
    let count = compact_cells(&cells, &mut slots)?;
    println!(rt; "{} descendants compact to {count}:", cells.len())?;
    for cell in &slots[..count] {
        println!(rt; "{}", write_index(cell.raw()))?;
    }
    Ok(())
}
