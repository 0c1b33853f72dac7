//! H3's functions on directed edges that need no base cell table.

ghost use Rattle.std.specs.Prelude.{◌≡◌};
ghost use Rattle.std.specs.Iterator.{YieldsFirst};
ghost use Rattle.h3_grid.specs.Iter.{edges_left};
ghost use Rattle.h3_functions.specs.Edges as edges;
ghost use Rattle.h3_functions.specs.Items.{Lists};

use crate::inspection::cell_from;
use h3_grid::{Edges, edges_of};
use h3_index::{Cell, Edge, H3Error};

/// The edge with an index.
///
/// # Errors
///
/// `DirEdgeInvalid` if no edge has the index.
pub fn edge_from(index: u64) -> Result<Edge, H3Error>
    ensures { result ≡ edges.edge_from index }
{
    Edge::new(index)
}

/// Whether an index is a valid directed edge, as H3's `isValidDirectedEdge` returns it.
pub(crate) fn is_valid_directed_edge(index: u64) -> bool
    ensures { result ≡ edges.is_valid_directed_edge index }
{
    edge_from(index).is_ok()
}

/// The cell that an edge leaves, as H3's `getDirectedEdgeOrigin` returns it.
///
/// # Errors
///
/// `DirEdgeInvalid` if no edge has the index.
pub(crate) fn get_directed_edge_origin(index: u64) -> Result<Cell, H3Error>
    ensures { result ≡ edges.get_directed_edge_origin index }
{
    let edge = edge_from(index)?;
    Ok(edge.origin())
}

/// The edges that leave a cell, in ascending direction: those that H3's `originToDirectedEdges`
/// lists, without the null that it has in the place of direction 1 (K) at a pentagon.
///
/// # Errors
///
/// `CellInvalid` if no cell has the index.
pub fn origin_to_directed_edges(index: u64) -> Result<Edges, H3Error>
    ensures { Lists (YieldsFirst edges_left) result (edges.origin_to_directed_edges index) }
{
    let cell = cell_from(index)?;
    Ok(edges_of(cell))
}
