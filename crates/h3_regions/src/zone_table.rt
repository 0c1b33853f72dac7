//! Zones with a table of first places that is kept, and is not trusted.

ghost use Rattle.std.specs.Prelude.{◌≡◌, ◌≤◌, ◌↔◌, All, length, Some, Contains, IfSome, IsTrue};
ghost use Rattle.h3_index.specs.Cell.{Address, resolution};
ghost use Rattle.h3_index.specs.Descendants.{IsAncestor};
ghost use Rattle.h3_set.specs.Coverage.{IsCovered};
ghost use Rattle.h3_regions.specs.FirstPlaces.{IsTableOf};
ghost use Rattle.h3_regions.specs.Zones.{IsZones, zone_of};

use crate::ahead::{AHEAD, KEY_BITS, is_near, keys_of, search_each};
use crate::zone_index::{divide, fill, slot_of};
use crate::zones::{Zones, search_between};
use h3_index::Cell;
use h3_tree::post_order_key;
use std::marker::Model;

/// Writes the table of zones into the places, of which there may be any number: two to four times as
/// many as zones serve well. With fewer than two, or with no zones or more than 2^32 - 1, nothing is
/// written, and `TabledZones` searches all zones for each cell.
pub fn write_table(zones: &Zones, places: &mut [u32])
    ensures { IsTableOf zones.now places.old places.new }
{
    let cells = zones.cells();
    let parts = divide(cells, places.len());
    if parts.slots > 0 {
        fill(cells, parts.lowest, parts.shift, &mut places[..parts.slots]);
    }
}

/// Where a search from one place to another ends; these may be any.
#[inline(always)]
fn searched(cells: &[Cell], key: u64, from: usize, to: usize) -> usize
    requires { IsZones cells.now }
{
    let end = to.min(cells.len());
    search_between(cells, key, from.min(end), end)
}

/// Moves places that are above the last one back to it.
#[inline(always)]
fn keep_within(last: usize, places: &mut [usize; AHEAD])
    ensures { All (λ p. p ≤ last) places.new }
{
    for i in 0..AHEAD {
        places[i] = places[i].min(last);
    }
}

/// Zones with a table that `write_table` has written of them before. The table says where a search
/// begins, and `Zones::zone_near` ends it: so whatever the table holds, the answers are those of the
/// zones. A table of other zones, or one that was written into another number of places, makes the
/// search longer. Contracts see the list of the zones.
#[derive(Debug, Drop)]
pub struct TabledZones<'a> {
    cells: &'a [Cell],
    table: &'a [u32],
    lowest: u64,
    shift: u32,
}

impl<'a> Model for TabledZones<'a> {
    ghost use Rattle.std.specs.Prelude.{List, ◌<◌};
    ghost use Rattle.h3_index.specs.Cell.{Address};
    ghost use Rattle.h3_regions.specs.Zones.{IsZones};

    ghost Value = { List Address };

    ghost view = { λ z. z.cells.now };

    ghost invariant = { λ z. IsZones z.cells.now × (z.shift < 64) };
}

impl<'a> TabledZones<'a> {
    /// The zones with a table, whatever it holds.
    pub fn over(zones: &Zones<'a>, table: &'a [u32]) -> TabledZones<'a>
        ensures { result ≡ zones.now }
    {
        let cells = zones.cells();
        let parts = divide(cells, table.len());
        TabledZones {
            cells,
            table: &table[..parts.slots],
            lowest: parts.lowest,
            shift: parts.shift,
        }
    }

    /// The zones.
    #[inline(always)]
    pub fn zones(&self) -> Zones<'a>
        ensures { result ≡ self.now }
    {
        Zones::over(self.cells)
    }

    /// Where `Zones::zone_near` has to look first for a cell with this key: at its zone, if the table is that
    /// of the zones; else anywhere.
    #[inline(always)]
    pub(crate) fn near(&self, key: u64) -> usize {
        let count = self.table.len();
        if count == 0 {
            return searched(self.cells, key, 0, self.cells.len());
        }
        let slot = slot_of(self.lowest, self.shift, key) as usize;
        if slot < count - 1 {
            searched(
                self.cells,
                key,
                self.table[slot] as usize,
                self.table[slot + 1] as usize,
            )
        } else {
            searched(
                self.cells,
                key,
                self.table[count - 1] as usize,
                self.cells.len(),
            )
        }
    }

    /// Sets each place to that of the first zone of the key's part in the table. Returns how many zones
    /// the longest of these parts has.
    #[inline(always)]
    fn find_parts(&self, keys: &[u64; AHEAD], places: &mut [usize; AHEAD]) -> usize {
        if self.table.len() < 2 {
            return self.cells.len();
        }
        let last = self.table.len() - 2;
        let mut longest = 0;
        for i in 0..AHEAD {
            let slot = last.min(slot_of(self.lowest, self.shift, keys[i]) as usize);
            let from = self.table[slot] as usize;
            let to = self.table[slot + 1] as usize;
            places[i] = from;
            longest = to.saturating_sub(from).max(longest);
        }
        longest
    }

    /// Where `Zones::zone_near` may look for the cell with an index first: at `place`, which may be any, if
    /// the cell is near it, and else where its part of the table leads.
    ///
    /// This is a hint, as those of `look_ahead` are. An index need not be a cell's.
    #[inline(always)]
    pub fn look_for(&self, index: u64, place: usize) -> usize {
        let key = index & KEY_BITS;
        if is_near(self.cells, key, place) {
            place
        } else {
            self.near(key)
        }
    }

    /// Places for `Zones::zone_near` to look for the cells with the first 16 of these indexes, which are
    /// searched for side by side, each in its part of the table.
    ///
    /// The places are hints, as those of `Zones::look_ahead`.
    pub fn look_ahead(&self, indexes: &[u64]) -> [usize; AHEAD] {
        let keys = keys_of(indexes);
        let mut places = [0; AHEAD];
        let longest = self.find_parts(&keys, &mut places);
        let count = longest.min(self.cells.len());
        keep_within(self.cells.len() - count, &mut places);
        search_each(self.cells, &keys, count, &mut places);
        places
    }

    /// The zone of the cell: the one that is the cell or an ancestor of it; `None` where there is none.
    #[inline(always)]
    pub fn zone_of(&self, cell: Cell) -> Option<Cell>
        ensures is { result ≡ zone_of self.now cell }
        ensures found { IfSome result (λ z. Contains self.now z × IsAncestor z cell) }
        ensures one { (z : Address) → Contains self.now z → IsAncestor z cell → result ≡ Some z }
    {
        let mut place = self.near(post_order_key(cell));
        self.zones().zone_near(cell, &mut place)
    }
}
