//! Regions: sets of cells, each given by its compacted list.

ghost use Rattle.std.specs.Prelude.{◌≡◌, ◌≤◌, ◌↔◌, ℕ, length, All, IsPermutation, IsTrue};
ghost use Rattle.h3_index.specs.Cell.{Address, IsCell, resolution};
ghost use Rattle.h3_set.specs.Compacted.{compacted};
ghost use Rattle.h3_set.specs.Coverage.{finest, IsCovered};
ghost use Rattle.h3_regions.specs.Region.{IsRegion};

use crate::unions::unite_in_order;
use crate::zones::Zones;
use h3_index::Cell;
use h3_set::laws::coverages_decide_lists;
use std::marker::Model;

/// A set of cells, given by the one list of cells that covers it with no overlap and no complete set
/// of siblings. The cells of the list stand in memory that is borrowed, in such an order that one
/// can look a cell up in as many steps as their number has bits, or one more. Contracts see the list.
#[derive(Debug, Drop)]
pub struct Region<'a> {
    cells: &'a [Cell],
}

impl<'a> Model for Region<'a> {
    ghost use Rattle.std.specs.Prelude.{List};
    ghost use Rattle.h3_index.specs.Cell.{Address};
    ghost use Rattle.h3_regions.specs.Region.{IsRegion};

    ghost Value = { List Address };

    ghost view = { λ r. r.cells.now };

    ghost invariant = { λ r. IsRegion r.cells.now };
}

impl<'a> Region<'a> {
    /// The region that any cells cover, in their memory. The cells may repeat and overlap one
    /// another.
    pub fn of(cells: &'a mut [Cell]) -> Region<'a>
        ensures list { IsPermutation (compacted cells.old) result }
        ensures fewer { length result ≤ length cells.old }
        ensures covers { (r : ℕ) → finest cells.old ≤ r → (x : Address)
            → IsCovered result r x ↔ IsCovered cells.old r x }
        ensures valid { All IsCell cells.old }
        ensures fine { finest cells.old ≤ 15 }
    {
        coverages_decide_lists();
        let count = unite_in_order(cells);
        Region {
            cells: &cells[..count],
        }
    }

    /// The region of a list that is one's.
    pub(crate) fn over(cells: &'a [Cell]) -> Region<'a>
        requires { IsRegion cells.now }
        ensures { result ≡ cells.now }
    {
        Region { cells }
    }

    /// The cells of the list in post order: each right after where those below it would stand. That
    /// is not the ascending order of their numbers: for that, sort a copy of them.
    pub fn cells(&self) -> &'a [Cell]
        ensures is { result.now ≡ self.now }
        ensures region { IsRegion self.now }
    {
        self.cells
    }

    /// The cells of the list as zones.
    pub fn zones(&self) -> Zones<'a>
        ensures { result ≡ self.now }
    {
        Zones::over(self.cells)
    }

    /// Whether the region covers the cell: whether it, or an ancestor of it, is in the list.
    pub fn covers(&self, cell: Cell) -> bool
        ensures { IsTrue result ↔ IsCovered self.now (resolution cell) cell }
    {
        self.zones().covers(cell)
    }
}
