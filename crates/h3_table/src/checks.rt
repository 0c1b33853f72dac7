//! The checks of a full table.

ghost use Rattle.std.specs.Prelude.{◌≡◌, ◌<◌};
ghost use Rattle.h3_table.specs.Links.{AreLinks, links_in};
ghost use Rattle.h3_table.specs.Checks.{at_links, closes, fault_at, fault_of_links, leads_apart, are_apart, reverses};

use crate::links::{Links, is_hexagon_base, link_at};
use crate::scan::{AtLink, first_fault};
use h3_directions::{DIRECTIONS, Direction, TableError};
use h3_lattice::turn;

/// A check of a full table.
#[derive(Clone, Copy, Debug, PartialEq, Eq)]
enum Check {
    /// The neighbors of a base cell differ from each other and from it.
    Neighbors,

    /// The link back undoes a link.
    Reversal,

    /// The links round a corner agree.
    Corner,
}

/// Whether two directions lead to different base cells, or are one.
fn are_apart(links: &Links, base: u8, direction: Direction, other: Direction) -> bool
    requires { base < 122 }
    ensures { result ≡ are_apart (links_in links.now) base direction other }
{
    other.digit() == direction.digit()
        || link_at(links, base, other).0 != link_at(links, base, direction).0
}

/// Whether the neighbor in a direction is another base cell, and that of no other direction.
fn leads_apart(links: &Links, base: u8, direction: Direction) -> bool
    requires { base < 122 }
    ensures { result ≡ leads_apart (links_in links.now) base direction }
{
    if link_at(links, base, direction).0 == base {
        return false;
    }
    for other in DIRECTIONS {
        if !are_apart(links, base, direction, other) {
            return false;
        }
    }
    true
}

/// Whether the link back from a neighbor undoes the link, if the neighbor is a hexagon base cell.
fn reverses(links: &Links, base: u8, direction: Direction) -> bool
    requires base { base < 122 }
    requires within { AreLinks links.now }
    ensures { result ≡ reverses (links_in links.now) base direction }
{
    let (to, turns) = link_at(links, base, direction);
    if !is_hexagon_base(to) {
        return true;
    }
    let back = link_at(links, to, turn(direction.opposite(), turns));
    back.0 == base && back.1 == (6 - turns) % 6
}

/// Whether the links agree round the corner of a base cell, its neighbor in a direction and its
/// neighbor in the direction turned once, if both are hexagon base cells.
fn closes(links: &Links, base: u8, direction: Direction) -> bool
    requires base { base < 122 }
    requires within { AreLinks links.now }
    ensures { result ≡ closes (links_in links.now) base direction }
{
    let (to, turns) = link_at(links, base, direction);
    let (next, next_turns) = link_at(links, base, turn(direction, 1));
    if !is_hexagon_base(to) || !is_hexagon_base(next) {
        return true;
    }
    let across = link_at(links, to, turn(turn(direction, 2), turns));
    across.0 == next && across.1 == (next_turns + 6 - turns) % 6
}

/// A check of these links.
#[derive(Clone, Copy)]
struct Checked<'a> {
    check: Check,
    links: &'a Links,
    ghost within: { AreLinks links.now },
}

impl<'a> AtLink for Checked<'a> {
    ghost fault_of = { λ c. fault_at c.check (links_in c.links.now) };

    /// The error of the check there.
    fn fault_at(&self, base: u8, direction: Direction) -> Option<TableError> {
        match self.check {
            Check::Neighbors => {
                if leads_apart(self.links, base, direction) {
                    None
                } else {
                    Some(TableError::Neighbours(base))
                }
            }
            Check::Reversal => {
                if reverses(self.links, base, direction) {
                    None
                } else {
                    Some(TableError::Reversal(base, direction))
                }
            }
            Check::Corner => {
                if closes(self.links, base, direction) {
                    None
                } else {
                    Some(TableError::Corner(base, direction))
                }
            }
        }
    }
}

/// The first error of a check.
fn fault_of_check(check: Check, links: &Links) -> Option<TableError>
    requires { AreLinks links.now }
    ensures { result ≡ at_links (fault_at check (links_in links.now)) }
{
    first_fault(&Checked { check, links })
}

/// The first error of the checks, one after the other.
pub(crate) fn fault_of_links(links: &Links) -> Option<TableError>
    requires within { AreLinks links.now }
    ensures { result ≡ fault_of_links (links_in links.now) }
{
    let neighbors = fault_of_check(Check::Neighbors, links);
    if neighbors.is_some() {
        return neighbors;
    }
    let reversal = fault_of_check(Check::Reversal, links);
    if reversal.is_some() {
        return reversal;
    }
    fault_of_check(Check::Corner, links)
}
