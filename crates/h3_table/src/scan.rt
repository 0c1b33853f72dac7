//! The first fault at a link, by ascending base cell and then direction.

ghost use Rattle.std.specs.Prelude.{◌≡◌, ◌<◌, ℕ, Option};
ghost use Rattle.h3_directions.specs.declared.direction.Direction.{Direction};
ghost use Rattle.h3_directions.specs.declared.error.TableError.{TableError};
ghost use Rattle.h3_directions.specs.Direction.{directions};
ghost use Rattle.h3_table.specs.Checks.{at_links, in_directions};

use crate::links::is_hexagon_base;
use h3_directions::{DIRECTIONS, Direction, TableError};

/// What is asked at each link.
pub(crate) trait AtLink {
    ghost fault_of: { Self → ℕ → Direction → Option TableError };

    /// The fault at a base cell and a direction.
    fn fault_at(&self, base: u8, direction: Direction) -> Option<TableError>
        requires { base < 122 }
        ensures { result ≡ fault_of self.now base direction };
}

/// The first fault at a base cell.
fn fault_from<A: AtLink>(asked: &A, base: u8) -> Option<TableError>
    requires { base < 122 }
    ensures { result ≡ in_directions (A.fault_of asked.now base) directions }
{
    for direction in DIRECTIONS {
        let fault = asked.fault_at(base, direction);
        if fault.is_some() {
            return fault;
        }
    }
    None
}

/// The first fault at a hexagon base cell.
pub(crate) fn first_fault<A: AtLink>(asked: &A) -> Option<TableError>
    ensures { result ≡ at_links (A.fault_of asked.now) }
{
    for base in 0..122u8 {
        if is_hexagon_base(base) {
            let fault = fault_from(asked, base);
            if fault.is_some() {
                return fault;
            }
        }
    }
    None
}
