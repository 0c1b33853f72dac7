//! Whether two cells are neighbors, and in which direction.

ghost use Rattle.std.specs.Prelude.{◌≡◌, ◌↔◌, ◌&&◌, not, is_some, Ok, true, false};
ghost use Rattle.std.specs.Result.{result_err};
ghost use Rattle.h3_index.specs.Cell.{IsCell};
ghost use Rattle.h3_table.specs.BaseTable.{link_of};
ghost use Rattle.h3_grid.specs.Laws.{OverSoundLinks};
ghost use Rattle.h3_grid.specs.Neighbors.{AreNeighbors, BothOrdersAgree, DirectionsAreFound, DirectionsDiffer, NeighborsAreFound, NeighborsAreMutual, NeighborsDiffer, are_neighbors, direction_to, is_same, is_some_same, neighbor, neighbor_refusal, pair_refusal};

use crate::steps::{step, steps_are_lawful};
use h3_directions::{DIRECTIONS, Direction};
use h3_index::laws::numbers_are_unique;
use h3_index::{Cell, H3Error};
use h3_lattice::laws::{sums_are_lawful, turns_add_up};
use h3_table::BaseTable;

/// Laws of neighbors over sound links. It does nothing.
fn neighbors_are_lawful()
    ensures found { OverSoundLinks DirectionsAreFound }
    ensures related { OverSoundLinks NeighborsAreFound }
    ensures one_direction { OverSoundLinks DirectionsDiffer }
    ensures differ { OverSoundLinks NeighborsDiffer }
    ensures mutual { OverSoundLinks NeighborsAreMutual }
    ensures both { OverSoundLinks BothOrdersAgree }
{
    numbers_are_unique();
    steps_are_lawful();
    turns_add_up();
    sums_are_lawful();
}

/// Laws of the neighbors over the links of a table. It does nothing.
pub(crate) fn neighbor_is_lawful(table: &BaseTable)
    ensures found { DirectionsAreFound (link_of table.now) }
    ensures related { NeighborsAreFound (link_of table.now) }
    ensures one_direction { DirectionsDiffer (link_of table.now) }
    ensures differ { NeighborsDiffer (link_of table.now) }
    ensures mutual { NeighborsAreMutual (link_of table.now) }
    ensures both { BothOrdersAgree (link_of table.now) }
{
    neighbors_are_lawful();
    table.links_are_sound();
}

/// The neighbor of a cell in a direction: the cell that the step with rotation 0 leads to, unless
/// it is refused.
pub(crate) fn neighbor(table: &BaseTable, cell: Cell, direction: Direction) -> Option<Cell>
    ensures { result ≡ neighbor (link_of table.now) cell direction }
{
    match step(table, cell, direction, 0) {
        Ok((reached, _)) => Some(reached),
        Err(_) => None,
    }
}

/// Whether a cell is the neighbor of another in a direction.
fn leads(table: &BaseTable, from: Cell, direction: Direction, to: Cell) -> bool
    ensures { result ≡ is_some_same to (neighbor (link_of table.now) from direction) }
{
    match neighbor(table, from, direction) {
        Some(reached) => reached == to,
        None => false,
    }
}

/// The direction in which a cell is the neighbor of another, if there is one.
#[tactic(auto, unfolding(crate::specs::Neighbors::direction_to))]
pub(crate) fn direction_to(table: &BaseTable, from: Cell, to: Cell) -> Option<Direction>
    ensures { result ≡ direction_to (link_of table.now) from to }
{
    DIRECTIONS
        .iter()
        .copied()
        .find(|direction| leads(table, from, *direction, to))
}

/// The error with which two cells are refused, if they are: first that their resolutions differ;
/// then, for one cell given twice, the one that is passed; then that either is in a pentagon base
/// cell.
pub(crate) fn pair_refusal(twice: Option<H3Error>, a: Cell, b: Cell) -> Option<H3Error>
    ensures is { result ≡ pair_refusal twice a b }
    ensures cells { IsCell a × IsCell b }
{
    if a.resolution() != b.resolution() {
        return Some(H3Error::ResMismatch);
    }
    if a == b {
        return twice;
    }
    if a.in_pentagon_base() || b.in_pentagon_base() {
        return Some(H3Error::Pentagon);
    }
    None
}

/// Whether a cell is the neighbor of another in some direction.
fn is_neighbor(table: &BaseTable, a: Cell, b: Cell) -> bool
    ensures { result ≡ not (is_same a b) && is_some (direction_to (link_of table.now) a b) }
{
    a != b && direction_to(table, a, b).is_some()
}

/// Returns whether two cells are neighbors: H3's `areNeighborCells` outside pentagon base cells.
///
/// They are if a step leads from the one to the other. No cell is its own neighbor. Which pairs are
/// refused is this library's own.
///
/// # Errors
///
/// - `ResMismatch` if their resolutions differ.
/// - `Pentagon` if they differ and either is in a pentagon base cell.
pub fn are_neighbors(table: &BaseTable, a: Cell, b: Cell) -> Result<bool, H3Error>
    ensures is { result ≡ are_neighbors (link_of table.now) a b }

    // The same, one fact a clause: which pairs are refused, which are neighbors, and that a cell is
    // not its own neighbor.
    ensures refused { result_err result ≡ neighbor_refusal a b }
    ensures related { (result ≡ Ok true) ↔ AreNeighbors (link_of table.now) a b }
    ensures same { a ≡ b → result ≡ Ok false }

    // Laws of neighbors over the table: no step leads to the cell itself; the order of the two cells
    // does not matter, for the errors either.
    ensures differ { NeighborsDiffer (link_of table.now) }
    ensures mutual { NeighborsAreMutual (link_of table.now) }
    ensures both { BothOrdersAgree (link_of table.now) }
{
    neighbor_is_lawful(table);
    match pair_refusal(None, a, b) {
        Some(error) => Err(error),
        None => Ok(is_neighbor(table, a, b)),
    }
}
