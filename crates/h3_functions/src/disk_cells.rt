//! The iterator over the cells of a disk without their rings.

ghost use Rattle.std.specs.Iterator.{YieldsFirst, item_count};

use h3_grid::Disk;
use h3_index::{Cell, H3Error};

/// The cells of a disk without their rings, and the error where a step is refused.
#[derive(Clone, Copy)]
pub struct DiskCells<'a> {
    /// The cells with their rings.
    pub disk: Disk<'a>,
}

impl<'a> Iterator for DiskCells<'a> {
    ghost use Rattle.h3_functions.specs.DiskCells.{disk_cells_left};

    type Item = Result<Cell, H3Error>;

    ghost next_gives = { YieldsFirst disk_cells_left };

    ghost remaining = { item_count disk_cells_left };

    #[inline(always)]
    fn next(&mut self) -> Option<Result<Cell, H3Error>> {
        match self.disk.next() {
            Some(Ok((cell, _ring))) => Some(Ok(cell)),
            Some(Err(error)) => Some(Err(error)),
            None => None,
        }
    }
}
