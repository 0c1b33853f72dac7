//! Links between base cells, and slots for them.

ghost use Rattle.std.specs.Prelude.{◌≡◌, ◌+◌, ◌*◌, ◌<◌, ◌≤◌, ℕ, true, None, Some, IfSome, unwrap_or, slice_index_or, All};
ghost use Rattle.h3_directions.specs.Direction.{digit_of};
ghost use Rattle.h3_table.specs.Links.{AreLinks, IsHexagonBase, IsLink, is_hexagon_base, links_in, no_link, pair_of, slot_of};
ghost use Rattle.h3_table.specs.Slots.{missing_at};

use crate::scan::AtLink;
use h3_directions::{Direction, TableError};
use h3_index::is_pentagon_base;

/// Six links for each of 122 base cells.
pub(crate) const LINKS: usize = 732;

/// A link in two bytes, in the order that C sees: the neighbor, and the turns.
#[repr(C)]
#[derive(Clone, Copy, Debug)]
pub(crate) struct Link {
    pub(crate) to: u8,
    pub(crate) turns: u8,
}

/// The link of each base cell and direction, base cell by base cell.
pub(crate) type Links = [Link; LINKS];

/// Links of which some are not known yet.
pub(crate) type Slots = [Option<(u8, u8)>; LINKS];

/// Whether a base cell is a hexagon.
#[tactic(auto, unfolding(crate::specs::Links::is_hexagon_base))]
pub(crate) fn is_hexagon_base(base: u8) -> bool
    ensures is { result ≡ is_hexagon_base base }
    ensures below { result ≡ true → base < 122 }
{
    base < 122 && !is_pentagon_base(base)
}

/// Whether a number is that of a hexagon base cell.
#[tactic(auto, unfolding(crate::specs::Links::is_hexagon_base))]
pub(crate) fn is_hexagon_number(number: u16) -> bool
    ensures is { result ≡ is_hexagon_base number }
    ensures below { result ≡ true → number < 122 }
{
    number < 122 && is_hexagon_base(number as u8)
}

/// The slot of a base cell and a direction in a list with six for each base cell.
#[inline(always)]
pub(crate) fn slot_of(base: u8, direction: Direction) -> usize
    requires { base < 122 }
    ensures is { result ≡ slot_of base (digit_of direction) }
    ensures below { result < LINKS }
{
    base as usize * 6 + (direction.digit() as usize - 1)
}

/// The link of a base cell in a direction.
pub(crate) fn link_at(links: &Links, base: u8, direction: Direction) -> (u8, u8)
    requires { base < 122 }
    ensures is { result ≡ links_in links.now base direction }
    ensures within { AreLinks links.now → IsLink result }
{
    let link = links[slot_of(base, direction)];
    (link.to, link.turns)
}

impl AtLink for Slots {
    ghost fault_of = { missing_at };

    /// The fault that no link is known there.
    fn fault_at(&self, base: u8, direction: Direction) -> Option<TableError> {
        if self[slot_of(base, direction)].is_some() {
            None
        } else {
            Some(TableError::Missing)
        }
    }
}

/// A link, or one to base cell 0 where it is not known.
fn link_or_zero(slot: Option<(u8, u8)>) -> Link
    ensures is { pair_of result ≡ unwrap_or slot (0, 0) }
    ensures within { IfSome slot IsLink → IsLink (pair_of result) }
{
    match slot {
        Some((to, turns)) => Link { to, turns },
        None => Link { to: 0, turns: 0 },
    }
}

/// The links of slots.
pub(crate) fn filled(slots: &Slots) -> Links
    requires { All (λ slot. IfSome slot IsLink) slots.now }
    ensures same { (i : ℕ) → pair_of (slice_index_or result i no_link)
        ≡ unwrap_or (slice_index_or slots.now i None) (0, 0) }
    ensures within { AreLinks result }
{
    let mut links = [Link { to: 0, turns: 0 }; LINKS];
    for i in 0..LINKS {
        links[i] = link_or_zero(slots[i]);
    }
    links
}
