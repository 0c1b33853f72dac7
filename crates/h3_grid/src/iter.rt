//! The iterator over the edges of a cell.

ghost use Rattle.std.specs.Prelude.{◌≡◌, ◌≢◌, ◌<◌, ◌≤◌, true};
ghost use Rattle.std.specs.Iterator.{YieldsFirst, item_count};
ghost use Rattle.h3_index.specs.Cell.{is_pentagon};
ghost use Rattle.h3_grid.specs.DirectedEdges.{ListsEdges, edges_from};

use h3_index::{Cell, Edge};

/// The edges that leave a cell, in ascending direction.
///
/// An iterator. It takes no memory: it holds the cell and the direction of the next edge, or 7
/// after the last.
#[derive(Clone, Copy, Debug)]
pub struct Edges {
    origin: Cell,
    direction: u8,
    ghost some: { 0 < direction },
    ghost at_most: { direction ≤ 7 },
    ghost not_deleted: { is_pentagon origin ≡ true → direction ≢ 1 },
}

impl Edges {
    ghost use Rattle.h3_grid.specs.Iter.{edges_left};

    /// The edges that leave a cell: six, or five without direction 1 (K) at a pentagon.
    pub(crate) fn from(origin: Cell) -> Edges
        ensures items { edges_left result ≡ edges_from origin }
        ensures listed { ListsEdges origin (edges_from origin) }
    {
        // The proof takes from this that the origin is a valid cell.
        let _resolution = origin.resolution();
        if origin.is_pentagon() {
            return Edges {
                origin,
                direction: 2,
            };
        }
        Edges {
            origin,
            direction: 1,
        }
    }
}

impl Iterator for Edges {
    ghost use Rattle.h3_grid.specs.Iter.{edges_left};

    type Item = Edge;

    ghost next_gives = { YieldsFirst edges_left };

    ghost remaining = { item_count edges_left };

    fn next(&mut self) -> Option<Edge> {
        match Edge::from_parts(self.origin, self.direction) {
            Ok(edge) => {
                self.direction += 1;
                Some(edge)
            }
            Err(_) => None,
        }
    }
}
