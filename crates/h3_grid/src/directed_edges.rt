//! Directed edges between neighbors.

ghost use Rattle.std.specs.Prelude.{◌≡◌, IfOk, IfErr, MatchOption};
ghost use Rattle.h3_index.specs.Cell.{Address};
ghost use Rattle.h3_table.specs.BaseTable.{link_of};
ghost use Rattle.h3_grid.specs.DirectedEdges.{IsDestination, IsEdgeBetween, ListsEdges, edge_between, edge_destination, edge_refusal, edges_from};
ghost use Rattle.h3_grid.specs.Iter.{edges_left};
ghost use Rattle.h3_grid.specs.Neighbors.{AreNeighbors, DirectionsAreFound, DirectionsDiffer};

use crate::iter::Edges;
use crate::neighbors::{direction_to, neighbor, neighbor_is_lawful, pair_refusal};
use h3_directions::Direction;
use h3_index::{Cell, Edge, H3Error};
use h3_lattice::edge_direction;
use h3_table::BaseTable;

/// Returns the edge that leaves one cell and leads to another: H3's `cellsToDirectedEdge` outside
/// pentagon base cells. Which pairs are refused, and with which error, is this library's own.
///
/// # Errors
///
/// - `ResMismatch` if their resolutions differ.
/// - `NotNeighbors` if they are the same cell.
/// - `Pentagon` if either is in a pentagon base cell.
/// - `NotNeighbors` if no step leads from the first to the second.
pub fn edge_between(table: &BaseTable, a: Cell, b: Cell) -> Result<Edge, H3Error>
    ensures is { result ≡ edge_between (link_of table.now) a b }

    // The same, one fact a clause: what the edge is, and which pairs are refused.
    ensures leads { IfOk result (λ edge. IsEdgeBetween (link_of table.now) a b edge) }
    ensures refused { MatchOption (edge_refusal a b)
        (IfErr result (λ e. (e ≡ H3Error.NotNeighbors) × ¬ AreNeighbors (link_of table.now) a b))
        (λ e. result ≡ Err e) }

    // Laws of neighbors over the table: there is no second direction, and the function of the
    // definitions finds it.
    ensures one_direction { DirectionsDiffer (link_of table.now) }
    ensures found { DirectionsAreFound (link_of table.now) }
{
    neighbor_is_lawful(table);
    match pair_refusal(Some(H3Error::NotNeighbors), a, b) {
        Some(error) => Err(error),
        None => match direction_to(table, a, b) {
            Some(direction) => Edge::from_parts(a, direction.digit()),
            None => Err(H3Error::NotNeighbors),
        },
    }
}

/// Returns the cell that an edge leads to: H3's `getDirectedEdgeDestination` outside pentagon base
/// cells.
///
/// It is that of the step from its origin, with rotation 0, in its direction. Which edges are
/// refused is this library's own.
///
/// # Errors
///
/// `Pentagon` if the origin or that cell is in a pentagon base cell.
pub fn edge_destination(table: &BaseTable, edge: Edge) -> Result<Cell, H3Error>
    ensures is { result ≡ edge_destination (link_of table.now) edge }

    // The same, one fact a clause.
    ensures leads { IfOk result (λ cell. IsDestination (link_of table.now) edge cell) }
    ensures refused { IfErr result (λ e. (e ≡ H3Error.Pentagon)
        × ((cell : Address) → ¬ IsDestination (link_of table.now) edge cell)) }
{
    match neighbor(table, edge.origin(), edge_direction(edge)) {
        Some(cell) => Ok(cell),
        None => Err(H3Error::Pentagon),
    }
}

/// The edges that leave a cell, in ascending direction: six, or at a pentagon five, without
/// direction 1 (K). H3's `originToDirectedEdges` leaves a null there. No table is needed for them.
pub fn edges_of(cell: Cell) -> Edges
    ensures items { edges_left result ≡ edges_from cell }
    ensures listed { ListsEdges cell (edges_from cell) }
{
    Edges::from(cell)
}
