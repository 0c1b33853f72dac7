//! Steps to the cells beside a cell.

ghost use Rattle.std.specs.Prelude.{◌≡◌, ◌<◌, false, None, Some, IfOk, IfErr};
ghost use Rattle.h3_directions.specs.declared.direction.Direction.{Direction};
ghost use Rattle.h3_directions.specs.Direction.{turned};
ghost use Rattle.h3_index.specs.Cell.{is_pentagon_base, resolution, IsCell};
ghost use Rattle.h3_table.specs.BaseTable.{link_of};
ghost use Rattle.h3_grid.specs.Laws.{OverSoundLinks, StepsCloseTriangles, StepsDiffer, StepsLeave, StepsReachStates, StepsReverse};
ghost use Rattle.h3_grid.specs.Steps.{IsStep, StepsAreFound, state, step_of};

use h3_directions::Direction;
use h3_index::{Cell, H3Error, is_pentagon_base};
use h3_lattice::laws::{sums_are_lawful, turns_add_up};
use h3_lattice::{Moved, add_at, turn};
use h3_table::BaseTable;
use h3_table::laws::checks_lift_to_steps;

/// A law: a state has exactly one step in each direction, that which the function `step_of` of the
/// definitions gives. It does nothing.
pub(crate) fn steps_are_found()
    ensures { StepsAreFound }
{
    sums_are_lawful();
}

/// Laws of steps over sound links. It does nothing.
pub(crate) fn steps_are_lawful()
    ensures states { OverSoundLinks StepsReachStates }
    ensures reverse { OverSoundLinks StepsReverse }
    ensures differ { OverSoundLinks StepsDiffer }
    ensures leave { OverSoundLinks StepsLeave }
    ensures triangles { OverSoundLinks StepsCloseTriangles }
{
    sums_are_lawful();
    turns_add_up();
    checks_lift_to_steps();
}

/// Laws of steps over the links of a table. It does nothing.
fn step_is_lawful(table: &BaseTable)
    ensures states { StepsReachStates (link_of table.now) }
    ensures reverse { StepsReverse (link_of table.now) }
    ensures differ { StepsDiffer (link_of table.now) }
    ensures leave { StepsLeave (link_of table.now) }
    ensures triangles { StepsCloseTriangles (link_of table.now) }
{
    steps_are_lawful();
    table.links_are_sound();
}

/// Returns the neighbor of a cell in a direction, and the rotation there: H3's
/// `h3NeighborRotations` outside pentagon base cells.
///
/// A rotation, 0 to 5, is how often a walk's directions are turned in the base cell that it is in:
/// the step goes in the direction turned `rot` times, and on crossing into another base cell the
/// turns of the table's link are added.
///
/// # Errors
///
/// `Pentagon` if the cell or its neighbor is in a pentagon base cell.
#[inline(always)]
pub fn step(
    table: &BaseTable,
    cell: Cell,
    direction: Direction,
    rot: u8,
) -> Result<(Cell, u8), H3Error>
    requires { rot < 6 }
    ensures is { IfOk result (λ r.
        IsStep (link_of table.now) (state cell rot) direction (Some (state r.0 r.1))) }
    ensures refused { IfErr result (λ e. (e ≡ H3Error.Pentagon)
        × IsStep (link_of table.now) (state cell rot) direction None) }
    ensures valid { IfOk result (λ r. IsCell r.0 × (r.1 < 6)) }

    // The same by `step_of`, the step as a function.
    ensures leads { IfOk result (λ r.
        step_of (link_of table.now) (state cell rot) direction ≡ Some (state r.0 r.1)) }
    ensures ends { IfErr result (λ e.
        step_of (link_of table.now) (state cell rot) direction ≡ None) }

    ensures one { StepsAreFound }

    // Laws of steps over the table: a step leads to a cell in a hexagon base cell, with a rotation
    // of 0 to 5; the opposite direction leads back, with the rotation undone; steps in different
    // directions lead to different cells, none of them the cell itself; those in a direction and the
    // next one lead to neighbors.
    ensures states { StepsReachStates (link_of table.now) }
    ensures reverse { StepsReverse (link_of table.now) }
    ensures differ { StepsDiffer (link_of table.now) }
    ensures leave { StepsLeave (link_of table.now) }
    ensures triangles { StepsCloseTriangles (link_of table.now) }
{
    steps_are_found();
    step_is_lawful(table);
    if cell.in_pentagon_base() {
        return Err(H3Error::Pentagon);
    }
    let ahead = turn(direction, rot);
    match step_ahead(table, cell, cell.resolution(), ahead, rot) {
        Err(error) => Err(error),
        Ok((next, rotation, _ahead)) => Ok((next, rotation)),
    }
}

/// The same from a cell that is in no pentagon base cell, of a resolution that is given, in a
/// direction that is turned as often as the rotation says. So what stays the same on a side of a
/// walk is not found anew for each step. The direction comes back as it is turned at the neighbor.
#[inline(always)]
pub(crate) fn step_ahead(
    table: &BaseTable,
    cell: Cell,
    res: u8,
    ahead: Direction,
    rot: u8,
) -> Result<(Cell, u8, Direction), H3Error>
    requires rot { rot < 6 }
    requires hexagon { is_pentagon_base cell.base ≡ false }
    requires res { res ≡ resolution cell }
    ensures leads { IfOk result (λ r. (d : Direction) → ahead ≡ turned rot d →
        step_of (link_of table.now) (state cell rot) d ≡ Some (state r.0 r.1)) }
    ensures ahead { IfOk result (λ r. (d : Direction) → ahead ≡ turned rot d →
        r.2 ≡ turned r.1 d) }
    ensures valid { IfOk result (λ r. (r.1 < 6) × IsCell r.0
        × (is_pentagon_base r.0.base ≡ false) × (res ≡ resolution r.0)) }
    ensures ends { IfErr result (λ e. (d : Direction) → ahead ≡ turned rot d →
        step_of (link_of table.now) (state cell rot) d ≡ None) }
    ensures refused { IfErr result (λ e. e ≡ H3Error.Pentagon) }
{
    steps_are_found();
    turns_add_up();
    match add_at(cell, res, ahead) {
        Moved::Inside(moved) => Ok((moved, rot, ahead)),
        Moved::Across(border, digits) => {
            let (base, turns) = table.link(cell.base_cell(), border);
            if is_pentagon_base(base) {
                return Err(H3Error::Pentagon);
            }
            let next = digits.turned(turns).at(base);
            Ok((next, (rot + turns) % 6, turn(ahead, turns)))
        }
    }
}
