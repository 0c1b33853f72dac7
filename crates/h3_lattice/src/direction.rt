//! Turns of a direction, and the direction of an edge.

ghost use Rattle.std.specs.Prelude.{◌≡◌};
ghost use Rattle.h3_directions.specs.Eisenstein.{product_of};
ghost use Rattle.h3_directions.specs.Direction.{digit_of, turned, turning, unit_of};

use h3_directions::{DIRECTIONS, Direction};
use h3_index::Edge;

/// A direction turned n times, each turn 60 degrees counter-clockwise: the product with the n-th
/// power of 1 + w.
pub fn turn(direction: Direction, n: u8) -> Direction
    ensures is { result ≡ turned n direction }
    ensures product { unit_of result ≡ product_of (turning n) (unit_of direction) }
{
    let mut turned = direction;
    for _done in 0..n {
        turned = turned.turned_once();
    }
    turned
}

/// The direction in which an edge leaves its origin.
pub fn edge_direction(edge: Edge) -> Direction
    ensures { digit_of result ≡ edge.direction }
{
    DIRECTIONS[edge.direction() as usize - 1]
}
