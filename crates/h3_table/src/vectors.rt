//! The test tables: three base cell tables for tests of what reads or uses one. None of them is
//! that of H3's base cells.

ghost use Rattle.std.specs.Prelude.{◌≡◌, ◌<◌, false};
ghost use Rattle.h3_index.specs.Cell.{is_pentagon_base};
ghost use Rattle.h3_table.specs.Vectors.{plain_step, skew_step, test_link};

use h3_directions::Direction;
use h3_lattice::turn;

/// A table for tests.
#[derive(Clone, Copy, Debug, PartialEq, Eq)]
pub enum TestTable {
    /// Each direction goes a fixed step along the ring of the 122 base cells, and nothing is
    /// turned. A sound table.
    Plain,

    /// The plain table where the frame of base cell b is turned b mod 6 times. A sound table.
    Twisted,

    /// As the plain table, with other steps in two directions. Its corners do not close.
    Skew,
}

/// The step of a direction along the ring of the base cells.
fn plain_step(direction: Direction) -> u8
    ensures { result ≡ plain_step direction }
{
    match direction {
        Direction::K => 110,
        Direction::J => 11,
        Direction::JK => 121,
        Direction::I => 1,
        Direction::IK => 111,
        Direction::IJ => 12,
    }
}

/// The step of a direction in the skew table.
fn skew_step(direction: Direction) -> u8
    ensures { result ≡ skew_step direction }
{
    match direction {
        Direction::K => 109,
        Direction::J => 11,
        Direction::JK => 121,
        Direction::I => 1,
        Direction::IK => 111,
        Direction::IJ => 13,
    }
}

/// The neighbor of a hexagon base cell in a direction, and how often each digit is turned on
/// crossing into it.
pub fn link(table: TestTable, base: u8, direction: Direction) -> (u8, u8)
    requires some { base < 122 }
    requires hexagon { is_pentagon_base base ≡ false }
    ensures { result ≡ test_link table base direction }
{
    match table {
        TestTable::Plain => ((base + plain_step(direction)) % 122, 0),
        TestTable::Twisted => {
            let back = turn(direction, 6 - base % 6);
            let to = (base + plain_step(back)) % 122;
            (to, (to % 6 + 6 - base % 6) % 6)
        }
        TestTable::Skew => ((base + skew_step(direction)) % 122, 0),
    }
}
