//! The library in use: how many cells of a list have each ancestor at resolution 4.
#![tactic(auto)]

use anyhow::Error;
use h3::{Streamed, parent, read_cells};

fn main(rt: HostRuntime) -> Result<(), Error> {
    let mut input = Streamed::new(rt.stdin());
    let cells = read_cells(rt.alloc(), &mut input).map_err(|refusal| Error::msg(refusal.line()))?;

    let mut parents = Vec::new(rt.alloc());
    for cell in &cells {
        parents.push(parent(*cell, 4)?)?;
    }
    parents.sort_unstable();
    for same in parents.chunk_by(|a, b| a == b) {
        if let Some(cell) = same.first() {
            println!(rt; "{:>7} {cell}", same.len())?;
        }
    }
    Ok(())
}
