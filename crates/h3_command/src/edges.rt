//! H3's functions on neighbors and directed edges over a base cell table, for the indexes of words,
//! `None` where a word has none: what each asks of the table. Which pairs of cells and which edges
//! are refused is this library's own.
//!
//! For each word, the first before the second: `Failed` where it has no index, then `CellInvalid`
//! or `DirEdgeInvalid` where no cell or edge has it.

ghost use Rattle.std.specs.Prelude.{◌≡◌};
ghost use Rattle.h3_command.specs.Answer.{request, with_table};
ghost use Rattle.h3_command.specs.TableQuery.{table_answer};
ghost use Rattle.h3_requests.specs.declared.command.Command.TheVariants.{AreNeighborCells, CellsToDirectedEdge, GetDirectedEdgeDestination};

use crate::required::{cell_given, edge_given};
use crate::table_query::TableQuery;
use h3_index::H3Error;

/// Whether two cells are neighbors, as H3's `areNeighborCells` returns it, over the links of a
/// table.
pub(crate) fn are_neighbor_cells(cell: Option<u64>, to: Option<u64>) -> Result<TableQuery, H3Error>
    ensures { with_table table_answer result ≡ request (AreNeighborCells cell to) }
{
    let cell = cell_given(cell)?;
    let to = cell_given(to)?;
    Ok(TableQuery::Neighbors { cell, to })
}

/// The edge that leaves a cell and leads to another, as H3's `cellsToDirectedEdge` returns it, over
/// the links of a table.
pub(crate) fn cells_to_directed_edge(
    cell: Option<u64>,
    to: Option<u64>,
) -> Result<TableQuery, H3Error>
    ensures { with_table table_answer result ≡ request (CellsToDirectedEdge cell to) }
{
    let origin = cell_given(cell)?;
    let destination = cell_given(to)?;
    Ok(TableQuery::EdgeBetween {
        origin,
        destination,
    })
}

/// The cell that an edge leads to, as H3's `getDirectedEdgeDestination` returns it, over the links
/// of a table.
pub(crate) fn get_directed_edge_destination(index: Option<u64>) -> Result<TableQuery, H3Error>
    ensures { with_table table_answer result ≡ request (GetDirectedEdgeDestination index) }
{
    let edge = edge_given(index)?;
    Ok(TableQuery::EdgeDestination { edge })
}
