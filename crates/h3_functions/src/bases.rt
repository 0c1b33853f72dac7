//! The iterators over the cells of resolution 0 and over the pentagons of a resolution.

ghost use Rattle.std.specs.Prelude.{◌≡◌, ◌≤◌};
ghost use Rattle.std.specs.Iterator.{YieldsFirst, item_count};
ghost use Rattle.h3_index.specs.Count.{cells_of, pentagons};

use h3_index::{Cell, pentagon, res0_cell};

/// The cells of resolution 0, in ascending order. It holds the base cell of the next.
#[derive(Clone, Copy, Debug)]
pub struct BaseCells {
    next: u8,
}

impl BaseCells {
    ghost use Rattle.h3_functions.specs.Bases.{base_cells_left};

    /// All cells of resolution 0.
    pub fn all() -> BaseCells
        ensures { base_cells_left result ≡ cells_of 0 }
    {
        BaseCells { next: 0 }
    }
}

impl Iterator for BaseCells {
    ghost use Rattle.h3_functions.specs.Bases.{base_cells_left};

    type Item = Cell;

    ghost next_gives = { YieldsFirst base_cells_left };

    ghost remaining = { item_count base_cells_left };

    fn next(&mut self) -> Option<Cell> {
        let cell = res0_cell(i32::from(self.next)).ok()?;
        self.next += 1;
        Some(cell)
    }
}

/// The pentagons of a resolution, in ascending order. It holds how many came before the next.
#[derive(Clone, Copy, Debug)]
pub struct Pentagons {
    res: u8,
    next: u8,
    ghost at_most_fifteen: { res ≤ 15 },
}

impl Pentagons {
    ghost use Rattle.h3_functions.specs.Bases.{pentagons_left};

    /// All pentagons of a resolution.
    pub fn of_resolution(res: u8) -> Pentagons
        requires { res ≤ 15 }
        ensures { pentagons_left result ≡ pentagons res }
    {
        Pentagons { res, next: 0 }
    }
}

impl Iterator for Pentagons {
    ghost use Rattle.h3_functions.specs.Bases.{pentagons_left};

    type Item = Cell;

    ghost next_gives = { YieldsFirst pentagons_left };

    ghost remaining = { item_count pentagons_left };

    fn next(&mut self) -> Option<Cell> {
        let cell = pentagon(i32::from(self.res), i32::from(self.next)).ok()?;
        self.next += 1;
        Some(cell)
    }
}
