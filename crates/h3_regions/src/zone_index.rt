//! Zones with a table of first places, by which one is found among a few.

ghost use Rattle.std.specs.Prelude.{◌≡◌, ◌<◌, ◌≤◌, ◌^◌, ◌↔◌, ℕ, length, Some, Contains, IfSome, IsTrue};
ghost use Rattle.std.specs.List.{AllWithin};
ghost use Rattle.h3_index.specs.Cell.{Address, IsCell, resolution};
ghost use Rattle.h3_index.specs.Descendants.{IsAncestor};
ghost use Rattle.h3_tree.specs.PostOrder.{post_order_key};
ghost use Rattle.h3_set.specs.Coverage.{IsCovered};
ghost use Rattle.h3_regions.specs.FirstPlaces.{slot_of, IsDivision, IsFirstInSlot, IsFirstPlaces, IsShift};
ghost use Rattle.h3_regions.specs.Zones.{IsFirstPlace, IsZones, StandsAbove, zone_of};

use crate::zones::{Zones, first_between, place_at};
use h3_index::Cell;
use h3_set::laws::coverages_decide_lists;
use h3_tree::laws::cells_form_trees;
use h3_tree::post_order_key;
use std::marker::Model;

/// The slot of a key: the keys from the lowest on are divided into parts of 2^shift, and those below
/// it are of the first part.
pub(crate) fn slot_of(lowest: u64, shift: u32, key: u64) -> u64
    requires { shift < 64 }
    ensures { result ≡ slot_of lowest shift key }
{
    key.saturating_sub(lowest) >> shift
}

/// The first place whose cell is of a slot or of one after it, where those before `from` are of
/// slots before it.
fn first_in_slot(cells: &[Cell], lowest: u64, shift: u32, slot: u64, from: usize) -> usize
    requires zones { IsZones cells.now }
    requires small { shift < 64 }
    requires within { from ≤ length cells.now }
    requires before { AllWithin (λ c. slot_of lowest shift (post_order_key c) < slot) cells.now 0 from }
    ensures { IsFirstInSlot cells.now lowest shift slot result }
{
    let mut place = from;
    while place < cells.len() {
        if slot_of(lowest, shift, post_order_key(cells[place])) >= slot {
            return place;
        }
        place += 1;
    }
    place
}

/// Writes the first place of each slot.
pub(crate) fn fill(cells: &[Cell], lowest: u64, shift: u32, firsts: &mut [u32])
    requires zones { IsZones cells.now }
    requires small { shift < 64 }
    requires few { length cells.now < 2 ^ 32 }
    ensures { IsFirstPlaces cells.now lowest shift firsts.new }
{
    let mut place: usize = 0;
    for slot in 0..firsts.len() {
        place = first_in_slot(cells, lowest, shift, slot as u64, place);
        firsts[slot] = place as u32;
    }
}

/// The least number of bits by which a span of keys has to be shifted to be at most this.
fn shift_of(span: u64, most: u64) -> u32
    requires { span < 2 ^ 52 }
    ensures { IsShift span most result }
{
    for shift in 0..63 {
        if span >> shift <= most {
            return shift;
        }
    }
    63
}

/// How a table divides the keys of zones: from the lowest on into slots of 2^shift keys. With no slot
/// there is no table.
#[derive(Drop)]
pub(crate) struct Division {
    pub(crate) lowest: u64,
    pub(crate) shift: u32,
    pub(crate) slots: usize,
}

/// How a table with so much room divides the keys of these zones.
pub(crate) fn divide(cells: &[Cell], room: usize) -> Division
    requires { IsZones cells.now }
    ensures is { IsDivision cells.now room result.lowest result.shift result.slots }
    ensures small { result.shift < 64 }
    ensures within { result.slots ≤ room }
    ensures few { 0 < result.slots → length cells.now < 2 ^ 32 }
{
    if cells.is_empty() || cells.len() > 0xffff_ffff || room < 2 {
        return Division {
            lowest: 0,
            shift: 0,
            slots: 0,
        };
    }
    let lowest = post_order_key(cells[0]);
    let span = post_order_key(cells[cells.len() - 1]).saturating_sub(lowest);
    let shift = shift_of(span, (room - 2) as u64);
    let slots = (span >> shift) as usize + 2;
    Division {
        lowest,
        shift,
        slots,
    }
}

/// The first place whose cell's key is not below another, by a table of first places.
fn first_by_table(cells: &[Cell], firsts: &[u32], lowest: u64, shift: u32, key: u64) -> usize
    requires zones { IsZones cells.now }
    requires small { shift < 64 }
    requires table { IsFirstPlaces cells.now lowest shift firsts.now }
    ensures { IsFirstPlace cells.now key result }
{
    let count = firsts.len();
    if count == 0 {
        return first_between(cells, key, 0, cells.len());
    }
    let slot = slot_of(lowest, shift, key) as usize;
    if slot < count - 1 {
        first_between(cells, key, firsts[slot] as usize, firsts[slot + 1] as usize)
    } else {
        first_between(cells, key, firsts[count - 1] as usize, cells.len())
    }
}

/// Zones with a table of first places: the keys of the zones are divided into parts of one size, and
/// the table has the first zone of each part, so that only those of the cell's part are searched.
/// Where the zones are spread evenly, these are a few, however many zones there are. Both stand in
/// memory that is borrowed. Contracts see the list of the zones.
#[derive(Debug, Drop)]
pub struct ZoneIndex<'a> {
    cells: &'a [Cell],
    firsts: &'a [u32],
    lowest: u64,
    shift: u32,
}

impl<'a> Model for ZoneIndex<'a> {
    ghost use Rattle.std.specs.Prelude.{List};
    ghost use Rattle.h3_index.specs.Cell.{Address};
    ghost use Rattle.h3_regions.specs.FirstPlaces.{IsIndexed};

    ghost Value = { List Address };

    ghost view = { λ z. z.cells.now };

    ghost invariant = { λ z. IsIndexed z.cells.now z.lowest z.shift z.firsts.now };
}

impl<'a> ZoneIndex<'a> {
    /// The zones with a table that is written into the places. There may be any number of these: two
    /// to four times as many as zones serve well, and with fewer than two, or more than 2^32 - 1
    /// zones, all zones are searched for each cell.
    pub fn of(zones: &Zones<'a>, places: &'a mut [u32]) -> ZoneIndex<'a>
        ensures { result ≡ zones.now }
    {
        let cells = zones.cells();
        let parts = divide(cells, places.len());
        ZoneIndex::filled(cells, &mut places[..parts.slots], parts.lowest, parts.shift)
    }

    /// The zones with a table for these parts of the keys, one for each place; with no place it is
    /// no table.
    fn filled(cells: &'a [Cell], firsts: &'a mut [u32], lowest: u64, shift: u32) -> ZoneIndex<'a>
        requires zones { IsZones cells.now }
        requires small { shift < 64 }
        requires few { 0 < length firsts.old → length cells.now < 2 ^ 32 }
        ensures { result ≡ cells.now }
    {
        if !firsts.is_empty() {
            fill(cells, lowest, shift, firsts);
        }
        ZoneIndex {
            cells,
            firsts,
            lowest,
            shift,
        }
    }

    /// The zones.
    pub fn zones(&self) -> Zones<'a>
        ensures { result ≡ self.now }
    {
        Zones::over(self.cells)
    }

    /// The place of the cell's zone in the zones, as `place_above` of `zones.rt` finds it.
    pub(crate) fn place_of(&self, cell: Cell) -> Option<usize>
        ensures found { IfSome result (λ i. i < length self.now × StandsAbove self.now i cell) }
        ensures one { (i : ℕ) → i < length self.now → StandsAbove self.now i cell → result ≡ Some i }
        ensures valid { IsCell cell }
    {
        let key = post_order_key(cell);
        let first = first_by_table(self.cells, self.firsts, self.lowest, self.shift, key);
        place_at(self.cells, cell, first)
    }

    /// The zone of the cell: the one that is the cell or an ancestor of it; `None` where there is none.
    pub fn zone_of(&self, cell: Cell) -> Option<Cell>
        ensures is { result ≡ zone_of self.now cell }
        ensures found { IfSome result (λ z. Contains self.now z × IsAncestor z cell) }
        ensures one { (z : Address) → Contains self.now z → IsAncestor z cell → result ≡ Some z }
    {
        cells_form_trees();
        coverages_decide_lists();
        match self.place_of(cell) {
            Some(i) => Some(self.cells[i]),
            None => None,
        }
    }

    /// Whether the zones cover the cell: whether it has a zone.
    pub fn covers(&self, cell: Cell) -> bool
        ensures { IsTrue result ↔ IsCovered self.now (resolution cell) cell }
    {
        match self.place_of(cell) {
            Some(_) => true,
            None => false,
        }
    }
}
