//! Rings.

ghost use Rattle.std.specs.Prelude.{◌≡◌, ◌≤◌, ◌<◌, ◌^◌, ◌∷◌, replicate, true, false, Some, None, IfOk, IfErr, unsigned_abs};
ghost use Rattle.std.specs.Iterator.{YieldsFirst, item_count};
ghost use Rattle.std.specs.Result.{result_err};
ghost use Rattle.h3_directions.specs.Direction.{turned};
ghost use Rattle.h3_index.specs.Cell.{is_pentagon_base, resolution};
ghost use Rattle.h3_table.specs.BaseTable.{link_of};
ghost use Rattle.h3_grid.specs.Chart.{OriginsAreAlone, RingEndsDisk};
ghost use Rattle.h3_grid.specs.Counters.{side_before};
ghost use Rattle.h3_grid.specs.Refusals.{ring_refusal};
ghost use Rattle.h3_grid.specs.Steps.{state};
ghost use Rattle.h3_grid.specs.Walks.{ring, stepped};

use crate::disks::{disks_are_charts, side_before};
use crate::steps::step_ahead;
use h3_directions::Direction;
use h3_index::{Cell, H3Error};
use h3_lattice::turn;
use h3_table::BaseTable;

/// The cell and the rotation that k steps in the direction I lead to from a cell.
fn outward(table: &BaseTable, cell: Cell, k: u32) -> Result<(Cell, u8), H3Error>
    requires { 0 < k → is_pentagon_base cell.base ≡ false }
    ensures led { IfOk result (λ r.
        (stepped (link_of table.now) (Some (state cell 0)) (replicate k Direction.I)
        ≡ Some (state r.0 r.1))
        × (r.1 < 6)) }
    ensures refused { IfErr result (λ e.
        (stepped (link_of table.now) (Some (state cell 0)) (replicate k Direction.I) ≡ None)
        × (e ≡ H3Error.Pentagon)) }
    ensures reached { IfOk result (λ r. (0 < k → is_pentagon_base r.0.base ≡ false)
        × (resolution r.0 ≡ resolution cell)) }
{
    let res = cell.resolution();
    let mut reached = cell;
    let mut rotation = 0;
    let mut ahead = Direction::I;
    for _done in 0..k {
        match step_ahead(table, reached, res, ahead, rotation) {
            Err(error) => return Err(error),
            Ok((next, rotated, outward)) => {
                reached = next;
                rotation = rotated;
                ahead = outward;
            }
        }
    }
    Ok((reached, rotation))
}

/// The cells of the ring of a radius around a cell.
///
/// An iterator. After the error `Pentagon`, which comes where a step meets a pentagon base cell, or
/// after the last cell where the ring does not close, there is no further item. It takes no memory:
/// it holds the cell that was reached last with its resolution, the rotation and the direction of the
/// side as it is turned there, and the first cell, and counts what is left, steps of a side and
/// sides.
#[derive(Clone, Copy, Debug)]
pub struct Ring<'a> {
    table: &'a BaseTable,
    cell: Cell,
    res: u8,
    rotation: u8,
    ahead: Direction,
    first: Cell,
    radius: u32,
    steps: u32,
    sides: u8,
    begun: bool,
    ghost few_turns: { rotation < 6 },
    ghost of_cell: { res ≡ resolution cell },
    ghost on_hexagons: { 0 < radius → is_pentagon_base cell.base ≡ false },
    ghost in_ring: { sides ≤ 5 },
    ghost on_side: { steps ≤ radius },
    ghost along_side: { begun ≡ true → 0 < steps → ahead ≡ turned rotation (side_before sides) },
}

/// A law of the ring of a radius around a cell, over the links of a table. It does nothing.
fn ring_is_lawful(table: &BaseTable, cell: Cell, k: i32)
    ensures { RingEndsDisk (link_of table.now) cell (unsigned_abs k) }
{
    disks_are_charts();
    table.links_are_sound();
    // The proof takes from this that the cell is a valid cell.
    let _resolution = cell.resolution();
}

impl<'a> Ring<'a> {
    ghost use Rattle.h3_grid.specs.Rings.{ring_left};

    /// Returns the ring of a radius around a cell, as H3's `gridRingUnsafe` walks it.
    ///
    /// Nothing of it is walked yet: the first call of `next` takes as many steps as the radius,
    /// every other at most one.
    ///
    /// # Errors
    ///
    /// - `Domain` for a negative radius.
    /// - `Pentagon` for a radius of 1 or more in a pentagon base cell.
    pub fn new(table: &'a BaseTable, cell: Cell, k: i32) -> Result<Ring<'a>, H3Error>
        ensures refused { result_err result ≡ ring_refusal cell k }
        ensures items { IfOk result (λ walk.
            ring_left walk ≡ ring (link_of table.now) cell (unsigned_abs k)) }

        // For a radius of 1 or more, a disk of which no step is refused ends with this ring's cells,
        // in the same order but for the ring's first, which is the disk's last.
        ensures agree { RingEndsDisk (link_of table.now) cell (unsigned_abs k) }
        ensures origin { OriginsAreAlone }
    {
        disks_are_charts();
        ring_is_lawful(table, cell, k);
        if k < 0 {
            return Err(H3Error::Domain);
        }
        if k > 0 && cell.in_pentagon_base() {
            return Err(H3Error::Pentagon);
        }
        Ok(Ring {
            table,
            cell,
            res: cell.resolution(),
            rotation: 0,
            ahead: Direction::I,
            first: cell,
            radius: k as u32,
            steps: k as u32,
            sides: 5,
            begun: false,
        })
    }

    /// Walks out to the ring, and gives its first cell.
    fn begin(&mut self) -> Result<Cell, H3Error>
        requires { self.old.begun ≡ false }
        ensures { ring_left self.old ≡ result ∷ ring_left self.new }
    {
        self.begun = true;
        match outward(self.table, self.cell, self.radius) {
            Err(error) => {
                self.steps = 0;
                self.sides = 0;
                Err(error)
            }
            Ok((cell, rotation)) => {
                self.cell = cell;
                self.rotation = rotation;
                self.ahead = turn(side_before(self.sides), rotation);
                self.first = cell;
                Ok(cell)
            }
        }
    }

    /// Takes the next step of a side. The last one of all closes the ring and gives no cell.
    #[inline(always)]
    fn go_on(&mut self) -> Option<Result<Cell, H3Error>>
        requires begun { self.old.begun ≡ true }
        requires some { 0 < self.old.steps }
        ensures { YieldsFirst ring_left self.old result self.new }
    {
        match step_ahead(self.table, self.cell, self.res, self.ahead, self.rotation) {
            Err(error) => {
                self.steps = 0;
                self.sides = 0;
                Some(Err(error))
            }
            Ok((cell, rotation, ahead)) => {
                self.cell = cell;
                self.rotation = rotation;
                self.ahead = ahead;
                self.steps -= 1;
                if self.steps > 0 {
                    return Some(Ok(cell));
                }
                if self.sides > 0 {
                    return Some(Ok(cell));
                }
                if cell == self.first {
                    return None;
                }
                Some(Err(H3Error::Pentagon))
            }
        }
    }
}

impl<'a> Iterator for Ring<'a> {
    ghost use Rattle.h3_grid.specs.Rings.{ring_left};

    type Item = Result<Cell, H3Error>;

    ghost next_gives = { YieldsFirst ring_left };

    ghost remaining = { item_count ring_left };

    #[inline(always)]
    fn next(&mut self) -> Option<Result<Cell, H3Error>> {
        if !self.begun {
            return Some(self.begin());
        }
        if self.steps > 0 {
            return self.go_on();
        }
        if self.sides == 0 {
            return None;
        }
        if self.radius == 0 {
            return None;
        }
        self.sides -= 1;
        self.steps = self.radius;
        self.ahead = turn(side_before(self.sides), self.rotation);
        self.go_on()
    }
}
