//! Disks.

ghost use Rattle.std.specs.Prelude.{◌≡◌, ◌≤◌, ◌<◌, ◌+◌, ◌*◌, ◌^◌, ◌∷◌, true, false, length, IfOk, unsigned_abs};
ghost use Rattle.std.specs.Iterator.{YieldsFirst, item_count};
ghost use Rattle.std.specs.Result.{result_err};
ghost use Rattle.h3_directions.specs.Direction.{turned};
ghost use Rattle.h3_index.specs.Cell.{is_pentagon_base, resolution};
ghost use Rattle.h3_table.specs.BaseTable.{link_of};
ghost use Rattle.h3_grid.specs.Chart.{ChartsLeadAlongPaths, DisksAreCharts, OriginsAreAlone, RingsAgree, StatesAreWritten};
ghost use Rattle.h3_grid.specs.Counters.{side_before};
ghost use Rattle.h3_grid.specs.DiskDistances.{RingsAreDistances, SpiralsHoldSums};
ghost use Rattle.h3_grid.specs.Laws.{DisksHaveSizes, DisksInsideAreCharted, IfWritten, MovesFollowTheSpiral, SpiralsAreSimple, SpiralsHaveSizes};
ghost use Rattle.h3_grid.specs.Refusals.{disk_refusal};
ghost use Rattle.h3_grid.specs.Walks.{disk};
ghost use Rattle.h3_grid.specs.WholeDisk.{IsWholeDisk};

use crate::steps::{step_ahead, steps_are_found, steps_are_lawful};
use h3_directions::Direction;
use h3_index::{Cell, H3Error};
use h3_lattice::laws::{sums_are_lawful, turns_add_up};
use h3_lattice::turn;
use h3_table::BaseTable;

/// The direction of the side of a ring that has this many sides after it.
pub(crate) fn side_before(sides: u8) -> Direction
    requires { sides < 6 }
    ensures { result ≡ side_before sides }
{
    match sides {
        5 => Direction::J,
        4 => Direction::JK,
        3 => Direction::K,
        2 => Direction::IK,
        1 => Direction::I,
        _ => Direction::IJ,
    }
}

/// The cells within a radius of a cell: the origin first, and then ring by ring, each cell with the
/// number of its ring.
///
/// An iterator. After the error `Pentagon`, which comes where a step meets a pentagon base cell,
/// there is no further item. It takes no memory: it holds the cell that was reached last with
/// its resolution, the rotation and the direction of the side as it is turned there, and counts what
/// is left, steps of a side, sides of a ring and rings.
#[derive(Clone, Copy, Debug)]
pub struct Disk<'a> {
    table: &'a BaseTable,
    cell: Cell,
    res: u8,
    rotation: u8,
    ahead: Direction,
    ring: u32,
    steps: u32,
    sides: u8,
    rings: u32,
    begun: bool,
    ghost few_turns: { rotation < 6 },
    ghost of_cell: { res ≡ resolution cell },
    ghost on_hexagons: { 0 < steps + sides + rings → is_pentagon_base cell.base ≡ false },
    ghost on_side: { 0 < steps → ahead ≡ turned rotation (side_before sides) },
    ghost on_ring: { sides ≤ 5 * ring },
    ghost in_ring: { sides ≤ 5 },
    ghost in_range: { ring + rings < 2 ^ 31 },
}

/// Laws of disks of which no step is refused, and of the spiral that their moves follow: how many
/// cells there are, and where they are within one base cell. It does nothing.
pub(crate) fn disks_are_spirals()
    ensures sizes { DisksHaveSizes }
    ensures moves { MovesFollowTheSpiral }
    ensures places { SpiralsHaveSizes }
    ensures simple { SpiralsAreSimple }
    ensures sums { SpiralsHoldSums }
    ensures inside { DisksInsideAreCharted }
{
    sums_are_lawful();
    turns_add_up();
    steps_are_found();
}

/// Laws of disks of which no step is refused, over sound links: where steps between their cells
/// lead, how far the cells are from the origin, and that the last ones are those of a ring. It does
/// nothing.
pub(crate) fn disks_are_charts()
    ensures charts { DisksAreCharts }
    ensures paths { ChartsLeadAlongPaths }
    ensures written { StatesAreWritten }
    ensures rings { RingsAgree }
    ensures origins { OriginsAreAlone }
    ensures distances { RingsAreDistances }
{
    steps_are_lawful();
    turns_add_up();
    sums_are_lawful();
}

/// A law of the disk of a radius around a cell, over the links of a table. It does nothing.
fn disk_is_lawful(table: &BaseTable, cell: Cell, k: i32)
    ensures { IfWritten (link_of table.now) cell (unsigned_abs k)
        (IsWholeDisk (link_of table.now) cell (unsigned_abs k)) }
{
    disks_are_spirals();
    disks_are_charts();
    table.links_are_sound();
    // The proof takes from this that the cell is a valid cell.
    let _resolution = cell.resolution();
}

impl<'a> Disk<'a> {
    ghost use Rattle.h3_grid.specs.Disks.{disk_left};

    /// Returns the disk of a radius around a cell, as H3's `gridDiskUnsafe` and
    /// `gridDiskDistancesUnsafe` walk it. Nothing of it is walked yet. Which disks are refused is
    /// this library's own.
    ///
    /// # Errors
    ///
    /// - `Domain` for a negative radius.
    /// - `Pentagon` for a pentagon, and for a radius of 1 or more in a pentagon base cell.
    pub fn new(table: &'a BaseTable, cell: Cell, k: i32) -> Result<Disk<'a>, H3Error>
        ensures refused { result_err result ≡ disk_refusal cell k }
        ensures items { IfOk result (λ walk.
            disk_left walk ≡ disk (link_of table.now) cell (unsigned_abs k)) }

        // Where no step is refused: how many cells there are; and where they are, where the steps
        // between them lead, and how far they are from the origin.
        ensures size { IfWritten (link_of table.now) cell (unsigned_abs k)
            (λ cells. length cells ≡ 3 * unsigned_abs k * (unsigned_abs k + 1) + 1) }
        ensures whole { IfWritten (link_of table.now) cell (unsigned_abs k)
            (IsWholeDisk (link_of table.now) cell (unsigned_abs k)) }

        // Laws of the moves and of the spiral alone: it has 3k(k + 1) + 1 places, each once.
        ensures spiral { MovesFollowTheSpiral }
        ensures places { SpiralsHaveSizes }
        ensures simple { SpiralsAreSimple }
        ensures sums { SpiralsHoldSums }
    {
        disk_is_lawful(table, cell, k);
        disks_are_spirals();
        if k < 0 {
            return Err(H3Error::Domain);
        }
        if cell.is_pentagon() || k > 0 && cell.in_pentagon_base() {
            return Err(H3Error::Pentagon);
        }
        Ok(Disk {
            table,
            cell,
            res: cell.resolution(),
            rotation: 0,
            ahead: Direction::I,
            ring: 0,
            steps: 0,
            sides: 0,
            rings: k as u32,
            begun: false,
        })
    }

    /// Takes the next step of a side.
    #[inline(always)]
    fn go_on(&mut self) -> Result<(Cell, u32), H3Error>
        requires begun { self.old.begun ≡ true }
        requires some { 0 < self.old.steps }
        ensures { disk_left self.old ≡ result ∷ disk_left self.new }
    {
        match step_ahead(self.table, self.cell, self.res, self.ahead, self.rotation) {
            Err(error) => {
                self.steps = 0;
                self.sides = 0;
                self.rings = 0;
                Err(error)
            }
            Ok((cell, rotation, ahead)) => {
                self.cell = cell;
                self.rotation = rotation;
                self.ahead = ahead;
                self.steps -= 1;
                Ok((cell, self.ring))
            }
        }
    }
}

impl<'a> Iterator for Disk<'a> {
    ghost use Rattle.h3_grid.specs.Disks.{disk_left};

    type Item = Result<(Cell, u32), H3Error>;

    ghost next_gives = { YieldsFirst disk_left };

    ghost remaining = { item_count disk_left };

    #[inline(always)]
    fn next(&mut self) -> Option<Result<(Cell, u32), H3Error>> {
        if !self.begun {
            self.begun = true;
            return Some(Ok((self.cell, 0)));
        }
        if self.steps > 0 {
            return Some(self.go_on());
        }
        if self.sides > 0 {
            self.sides -= 1;
            self.steps = self.ring;
            self.ahead = turn(side_before(self.sides), self.rotation);
            return Some(self.go_on());
        }
        if self.rings == 0 {
            return None;
        }
        let outward = turn(Direction::I, self.rotation);
        match step_ahead(self.table, self.cell, self.res, outward, self.rotation) {
            Err(error) => {
                self.rings = 0;
                Some(Err(error))
            }
            Ok((cell, rotation, _outward)) => {
                self.cell = cell;
                self.rotation = rotation;
                self.rings -= 1;
                self.ring += 1;
                self.sides = 5;
                self.steps = self.ring;
                self.ahead = turn(side_before(5), rotation);
                Some(self.go_on())
            }
        }
    }
}
