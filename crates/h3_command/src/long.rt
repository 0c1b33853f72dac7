//! Answers of any number of lines to the index on each line of a list, or of a row's cell: the
//! children of its cell, its disk and its ring.
//!
//! A disk or a ring is walked twice: once to its end, to see that no step is refused, and then to
//! write its cells.

ghost use Rattle.std.specs.Prelude.{◌≡◌, Err, IsOk, IfOk, IfErr};
ghost use Rattle.std.specs.Iterator.{YieldsFirst, item_count};
ghost use Rattle.h3_grid.specs.Disks.{disk_left};
ghost use Rattle.h3_grid.specs.Rings.{ring_left};
ghost use Rattle.h3_table.specs.BaseTable.{link_of};
ghost use Rattle.h3_functions.specs.Walks.{grid_disk_distances_unsafe, grid_ring_unsafe};
ghost use Rattle.h3_command.specs.LongAnswers.{children_for, disk_distances_for, disk_for, ring_for, whole_walk};
ghost use Rattle.h3_lines.specs.Answer.{whole_items};

use crate::required::cell_given;
use crate::uncompacted_lines::lines_below;
use h3_grid::{Disk, Ring};
use h3_index::{Cell, H3Error, Siblings};
use h3_lines::{BLOCK, Line, LinesFunction, RingCell, walk_through};
use h3_table::BaseTable;
use h3_tree::laws::descendants_are_children;
use h3_tree::{SiblingGroups, resolution_below};

/// A cell, or all children of one.
#[derive(Drop)]
pub(crate) enum ChildItem {
    One(Cell),
    Group(Siblings),
}

impl Line for ChildItem {
    ghost use Rattle.h3_command.specs.Long.{child_item_lines, child_items_are_lines};

    ghost line_of = { child_item_lines };

    ghost are_lines = { child_items_are_lines };

    #[inline(always)]
    fn put(&self, block: &mut [u8; BLOCK], at: usize) -> usize {
        match self {
            ChildItem::One(cell) => cell.put(block, at),
            ChildItem::Group(siblings) => siblings.put(block, at),
        }
    }
}

/// The children of a cell: itself at its own resolution, and below it those of one parent at a time.
#[derive(Drop)]
pub(crate) enum ChildLines {
    Own(Option<Cell>),
    Below(SiblingGroups),
}

impl Iterator for ChildLines {
    ghost use Rattle.h3_command.specs.Long.{child_lines_left};

    type Item = ChildItem;

    ghost next_gives = { YieldsFirst child_lines_left };

    ghost remaining = { item_count child_lines_left };

    #[inline(always)]
    fn next(&mut self) -> Option<ChildItem> {
        match self {
            ChildLines::Own(cell) => Some(ChildItem::One(cell.take()?)),
            ChildLines::Below(groups) => Some(ChildItem::Group(groups.next()?)),
        }
    }
}

/// The children of each cell at a resolution.
#[derive(Drop)]
pub(crate) struct ChildrenOf {
    pub(crate) res: i32,
}

impl LinesFunction for ChildrenOf {
    type Item = ChildItem;

    type Lines = ChildLines;

    ghost answer_of = { λ f. children_for f.res };

    fn lines(&self, index: Option<u64>) -> Result<ChildLines, H3Error> {
        let cell = cell_given(index)?;
        descendants_are_children();
        let r = resolution_below(cell, self.res)?;
        Ok(lines_below(cell, r))
    }
}

/// The disk of a radius around a cell, of which nothing is walked yet and no step is refused.
fn whole_disk(table: &BaseTable, cell: Cell, k: i32) -> Result<Disk<'_>, H3Error>
    ensures good { IfOk result (λ walk. IsOk (whole_items (disk_left walk))) }
    ensures ok { IfOk result (λ walk.
        whole_walk (grid_disk_distances_unsafe (link_of table.now) cell k)
        ≡ whole_items (disk_left walk)) }
    ensures err { IfErr result (λ e.
        whole_walk (grid_disk_distances_unsafe (link_of table.now) cell k) ≡ Err e) }
{
    match Disk::new(table, cell, k) {
        Ok(disk) => walk_through(disk)?,
        Err(error) => return Err(error),
    }
    Disk::new(table, cell, k)
}

/// The ring of a radius around a cell, of which nothing is walked yet and no step is refused.
fn whole_ring(table: &BaseTable, cell: Cell, k: i32) -> Result<Ring<'_>, H3Error>
    ensures good { IfOk result (λ walk. IsOk (whole_items (ring_left walk))) }
    ensures ok { IfOk result (λ walk.
        whole_walk (grid_ring_unsafe (link_of table.now) cell k) ≡ whole_items (ring_left walk)) }
    ensures err { IfErr result (λ e.
        whole_walk (grid_ring_unsafe (link_of table.now) cell k) ≡ Err e) }
{
    match Ring::new(table, cell, k) {
        Ok(ring) => walk_through(ring)?,
        Err(error) => return Err(error),
    }
    Ring::new(table, cell, k)
}

/// The cells of a disk of which no step is refused.
#[derive(Drop)]
pub(crate) struct DiskLines<'t> {
    walk: Disk<'t>,
    ghost good: { IsOk (whole_items (disk_left walk)) },
}

impl<'t> Iterator for DiskLines<'t> {
    ghost use Rattle.h3_command.specs.Long.{disk_lines_left};

    type Item = Cell;

    ghost next_gives = { YieldsFirst disk_lines_left };

    ghost remaining = { item_count disk_lines_left };

    #[inline(always)]
    fn next(&mut self) -> Option<Cell> {
        match self.walk.next() {
            Some(Ok((cell, _ring))) => Some(cell),
            _ => None,
        }
    }
}

/// The cells of a disk of which no step is refused, each with its ring.
#[derive(Drop)]
pub(crate) struct DistanceLines<'t> {
    walk: Disk<'t>,
    between: u8,
    ghost good: { IsOk (whole_items (disk_left walk)) },
}

impl<'t> Iterator for DistanceLines<'t> {
    ghost use Rattle.h3_command.specs.Long.{distance_lines_left};

    type Item = RingCell;

    ghost next_gives = { YieldsFirst distance_lines_left };

    ghost remaining = { item_count distance_lines_left };

    #[inline(always)]
    fn next(&mut self) -> Option<RingCell> {
        match self.walk.next() {
            Some(Ok((cell, ring))) => Some(RingCell {
                cell,
                between: self.between,
                ring,
            }),
            _ => None,
        }
    }
}

/// The cells of a ring of which no step is refused.
#[derive(Drop)]
pub(crate) struct RingLines<'t> {
    walk: Ring<'t>,
    ghost good: { IsOk (whole_items (ring_left walk)) },
}

impl<'t> Iterator for RingLines<'t> {
    ghost use Rattle.h3_command.specs.Long.{ring_lines_left};

    type Item = Cell;

    ghost next_gives = { YieldsFirst ring_lines_left };

    ghost remaining = { item_count ring_lines_left };

    #[inline(always)]
    fn next(&mut self) -> Option<Cell> {
        match self.walk.next() {
            Some(Ok(cell)) => Some(cell),
            _ => None,
        }
    }
}

/// The disk of a radius around each cell.
#[derive(Drop)]
pub(crate) struct DiskOf<'t> {
    pub(crate) table: &'t BaseTable,
    pub(crate) k: i32,
}

impl<'t> LinesFunction for DiskOf<'t> {
    type Item = Cell;

    type Lines = DiskLines<'t>;

    ghost answer_of = { λ f. disk_for (link_of f.table.now) f.k };

    fn lines(&self, index: Option<u64>) -> Result<DiskLines<'t>, H3Error> {
        let cell = cell_given(index)?;
        match whole_disk(self.table, cell, self.k) {
            Ok(walk) => Ok(DiskLines { walk }),
            Err(error) => Err(error),
        }
    }
}

/// The disk of a radius around each cell, with the ring of each of its cells after a byte.
#[derive(Drop)]
pub(crate) struct DiskDistancesOf<'t> {
    pub(crate) table: &'t BaseTable,
    pub(crate) k: i32,
    pub(crate) between: u8,
}

impl<'t> LinesFunction for DiskDistancesOf<'t> {
    type Item = RingCell;

    type Lines = DistanceLines<'t>;

    ghost answer_of = { λ f. disk_distances_for f.between (link_of f.table.now) f.k };

    fn lines(&self, index: Option<u64>) -> Result<DistanceLines<'t>, H3Error> {
        let cell = cell_given(index)?;
        match whole_disk(self.table, cell, self.k) {
            Ok(walk) => {
                let between = self.between;
                Ok(DistanceLines { walk, between })
            }
            Err(error) => Err(error),
        }
    }
}

/// The ring of a radius around each cell.
#[derive(Drop)]
pub(crate) struct RingOf<'t> {
    pub(crate) table: &'t BaseTable,
    pub(crate) k: i32,
}

impl<'t> LinesFunction for RingOf<'t> {
    type Item = Cell;

    type Lines = RingLines<'t>;

    ghost answer_of = { λ f. ring_for (link_of f.table.now) f.k };

    fn lines(&self, index: Option<u64>) -> Result<RingLines<'t>, H3Error> {
        let cell = cell_given(index)?;
        match whole_ring(self.table, cell, self.k) {
            Ok(walk) => Ok(RingLines { walk }),
            Err(error) => Err(error),
        }
    }
}
