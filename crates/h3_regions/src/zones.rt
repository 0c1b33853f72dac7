//! Zones: cells of which no two overlap, in which one can look up which one a cell lies in.

ghost use Rattle.std.specs.Prelude.{◌≡◌, ◌<◌, ◌≤◌, ◌↔◌, ℕ, length, Some, Contains, IfErr, IfOk, IfSome, IsPermutation, IsTrue, slice_get};
ghost use Rattle.std.specs.Option.{option_map};
ghost use Rattle.std.specs.Result.{result_err};
ghost use Rattle.h3_index.specs.Cell.{Address, IsCell, resolution};
ghost use Rattle.h3_index.specs.Descendants.{IsAncestor};
ghost use Rattle.h3_tree.specs.PostOrder.{post_order_key};
ghost use Rattle.h3_set.specs.Compacted.{compacted};
ghost use Rattle.h3_set.specs.Coverage.{finest, IsApart, IsCovered};
ghost use Rattle.h3_set.specs.Refusals.{compaction_refusal};
ghost use Rattle.h3_regions.specs.Region.{IsRegion};
ghost use Rattle.h3_regions.specs.Zones.{AreBelow, AreNotBelow, IsFirstPlace, IsZones, StandsAbove, by_number, zone_of};

use crate::order::are_cells;
use h3_index::laws::cells_are_listed;
use h3_index::{Cell, H3Error};
use h3_set::laws::coverages_decide_lists;
use h3_set::{has_overlap, put_in_order};
use h3_tree::laws::{cells_form_intervals, cells_form_trees};
use h3_tree::post_order_key;
use std::marker::Model;

/// How many zones after the last one are looked at before a search of all.
pub(crate) const NEAR: usize = 8;

/// How many halves a step of a search goes on: none or one. They are read from here since a jump
/// would be taken at random, and a compiler makes one of whatever it knows to be a choice.
pub(crate) static HALVES: [usize; 2] = [0, 1];

/// Searches from `from` to `to` for the first place whose cell's key is not below another: the result
/// is that place if it is there, and else any place.
pub(crate) fn search_between(cells: &[Cell], key: u64, from: usize, to: usize) -> usize
    requires zones { IsZones cells.now }
    requires in_order { from ≤ to }
    requires within { to ≤ length cells.now }
    ensures { AreBelow cells.now key from → AreNotBelow cells.now key to → IsFirstPlace cells.now key result }
{
    let mut first = from;
    let mut size = to - from;
    while size > 1 {
        let half = size / 2;
        let passed = usize::from(post_order_key(cells[first + half]) < key);
        first += half * HALVES[passed];
        size -= half;
    }
    if size == 1 && post_order_key(cells[first]) < key {
        first + 1
    } else {
        first
    }
}

/// The first place whose cell's key is not below another, where that is one from `from` to `to`.
pub(crate) fn first_between(cells: &[Cell], key: u64, from: usize, to: usize) -> usize
    requires zones { IsZones cells.now }
    requires before { AreBelow cells.now key from }
    requires after { AreNotBelow cells.now key to }
    requires in_order { from ≤ to }
    requires within { to ≤ length cells.now }
    ensures { IsFirstPlace cells.now key result }
{
    search_between(cells, key, from, to)
}

/// As `first_between`, where the places are few: the cells there are counted whose keys are below the
/// other, all of them, so that a processor has nothing to guess.
fn first_of_few(cells: &[Cell], key: u64, from: usize, to: usize) -> usize
    requires zones { IsZones cells.now }
    requires before { AreBelow cells.now key from }
    requires after { AreNotBelow cells.now key to }
    requires in_order { from ≤ to }
    requires within { to ≤ length cells.now }
    ensures { IsFirstPlace cells.now key result }
{
    let mut first = from;
    for i in from..to {
        first += usize::from(post_order_key(cells[i]) < key);
    }
    first
}

/// Whether the cells before a place have keys below another.
pub(crate) fn are_below(cells: &[Cell], key: u64, place: usize) -> bool
    requires zones { IsZones cells.now }
    requires within { place ≤ length cells.now }
    ensures { IsTrue result ↔ AreBelow cells.now key place }
{
    place == 0 || post_order_key(cells[place - 1]) < key
}

/// Whether the cells from a place on have keys that are not below another.
pub(crate) fn are_not_below(cells: &[Cell], key: u64, place: usize) -> bool
    requires zones { IsZones cells.now }
    requires within { place ≤ length cells.now }
    ensures { IsTrue result ↔ AreNotBelow cells.now key place }
{
    place == cells.len() || post_order_key(cells[place]) >= key
}

/// The first place whose cell's key is not below another, looked for from a place on, which may be
/// any: where the place is it, or one of the next few, that is seen in a step or two. A search of all
/// does not go by the place, so that a processor may begin one before it knows the place.
#[inline(always)]
pub(crate) fn first_near(cells: &[Cell], key: u64, place: usize) -> usize
    requires { IsZones cells.now }
    ensures { IsFirstPlace cells.now key result }
{
    let from = place.min(cells.len());
    let to = from.saturating_add(NEAR).min(cells.len());
    if are_below(cells, key, from) & are_not_below(cells, key, from) {
        from
    } else if are_below(cells, key, from) & are_not_below(cells, key, to) {
        first_of_few(cells, key, from, to)
    } else {
        first_between(cells, key, 0, cells.len())
    }
}

/// The place of the cell's zone, the one that is the cell or an ancestor of it, where the first place
/// whose cell's key is not below the cell's is given; `None` where there is none.
pub(crate) fn place_at(cells: &[Cell], cell: Cell, first: usize) -> Option<usize>
    requires zones { IsZones cells.now }
    requires first { IsFirstPlace cells.now (post_order_key cell) first }
    ensures found { IfSome result (λ i. i < length cells.now × StandsAbove cells.now i cell) }
    ensures one { (i : ℕ) → i < length cells.now → StandsAbove cells.now i cell
        → result ≡ Some i }
    ensures there { IfSome result (λ i. i ≡ first) }
    ensures valid { IsCell cell }
{
    cells_form_intervals();
    let key = post_order_key(cell);
    if first == cells.len() {
        return None;
    }
    let member = cells[first];
    if post_order_key(member) - key < member.last_digit_step() {
        Some(first)
    } else {
        None
    }
}

/// The place of the cell's zone, the one that is the cell or an ancestor of it; `None` where there is
/// none.
pub(crate) fn place_above(cells: &[Cell], cell: Cell) -> Option<usize>
    requires { IsZones cells.now }
    ensures found { IfSome result (λ i. i < length cells.now × StandsAbove cells.now i cell) }
    ensures one { (i : ℕ) → i < length cells.now → StandsAbove cells.now i cell
        → result ≡ Some i }
    ensures valid { IsCell cell }
{
    let key = post_order_key(cell);
    place_at(cells, cell, first_between(cells, key, 0, cells.len()))
}

/// As `place_above`, looked for from a place on, which may be any, and which is then where the next
/// cell may be looked for: that of the zone, or of the first one after the cell.
#[inline(always)]
pub(crate) fn place_near(cells: &[Cell], cell: Cell, place: &mut usize) -> Option<usize>
    requires { IsZones cells.now }
    ensures found { IfSome result (λ i. i < length cells.now × StandsAbove cells.now i cell) }
    ensures one { (i : ℕ) → i < length cells.now → StandsAbove cells.now i cell
        → result ≡ Some i }
    ensures there { IfSome result (λ i. i ≡ place.new) }
    ensures valid { IsCell cell }
{
    let first = first_near(cells, post_order_key(cell), *place);
    *place = first;
    place_at(cells, cell, first)
}

/// Puts cells in the order of zones, so that `Zones::over` takes them. They stay the same cells, in
/// some order, also after an error.
///
/// # Errors
///
/// `DuplicateInput` if cells at two places overlap: a cell is listed twice, or together with an
/// ancestor of it.
pub fn order_zones(cells: &mut [Cell]) -> Result<(), H3Error>
    ensures refused { result_err result ≡ compaction_refusal cells.old }
    ensures same { IsPermutation cells.old cells.new }
    ensures zones { IfOk result (λ _. IsZones cells.new) }
{
    coverages_decide_lists();
    cells_form_intervals();
    are_cells(cells);
    put_in_order(cells);
    if has_overlap(cells) {
        return Err(H3Error::DuplicateInput);
    }
    Ok(())
}

/// Puts cells of which no two overlap, as zones, in ascending order of their numbers. Those of a
/// region are then its compacted list.
pub fn order_by_number(cells: &mut [Cell])
    requires { IsApart cells.old }
    ensures same { IsPermutation cells.old cells.new }
    ensures is { cells.new ≡ by_number cells.old }
    ensures region { IsRegion cells.old → cells.new ≡ compacted cells.old }
{
    cells_form_trees();
    cells_form_intervals();
    coverages_decide_lists();
    cells_are_listed();
    are_cells(cells);
    cells.sort_unstable_by_key(|c: &Cell| c.raw());
}

/// Cells that are no zones, given back, and the error that says why.
#[derive(Debug, Drop)]
pub struct RefusedCells<'a> {
    pub error: H3Error,
    pub cells: &'a mut [Cell],
}

/// Cells of which no two overlap, as they were given, compacted or not, of any resolutions. They
/// stand in memory that is borrowed, in such an order that the one that a cell lies in is found in
/// as many steps as their number has bits, or one more. Contracts see the list.
#[derive(Debug, Drop)]
pub struct Zones<'a> {
    cells: &'a [Cell],
}

impl<'a> Model for Zones<'a> {
    ghost use Rattle.std.specs.Prelude.{List};
    ghost use Rattle.h3_index.specs.Cell.{Address};
    ghost use Rattle.h3_regions.specs.Zones.{IsZones};

    ghost Value = { List Address };

    ghost view = { λ z. z.cells.now };

    ghost invariant = { λ z. IsZones z.cells.now };
}

impl<'a> Zones<'a> {
    /// The cells as zones, in their memory, in another order: by `order_zones`.
    ///
    /// # Errors
    ///
    /// `DuplicateInput` if cells at two places overlap: a cell is listed twice, or together with an
    /// ancestor of it. The error gives the cells back: the same ones, in some order.
    pub fn of(cells: &'a mut [Cell]) -> Result<Zones<'a>, RefusedCells<'a>>
        ensures refused { option_map (λ r. r.error) (result_err result) ≡ compaction_refusal cells.old }
        ensures same { IfErr result (λ r. IsPermutation cells.old r.cells.now) }
        ensures back { IfErr result (λ r. r.cells.ghost_name ≡ cells.entry.ghost_name) }
        ensures zones { IfOk result (IsPermutation cells.old) }
        ensures covers { IfOk result (λ zones. (r : ℕ) → finest cells.old ≤ r → (x : Address)
            → IsCovered zones r x ↔ IsCovered (compacted cells.old) r x) }
    {
        coverages_decide_lists();
        are_cells(cells);
        match order_zones(cells) {
            Ok(()) => Ok(Zones { cells }),
            Err(error) => Err(RefusedCells { error, cells }),
        }
    }

    /// Cells that are zones, in order, as `order_zones` leaves them.
    pub fn over(cells: &'a [Cell]) -> Zones<'a>
        requires { IsZones cells.now }
        ensures { result ≡ cells.now }
    {
        Zones { cells }
    }

    /// The zones in post order: each right after where the cells below it would stand. That is not
    /// the ascending order of their numbers, nor that in which they were given.
    pub fn cells(&self) -> &'a [Cell]
        ensures is { result.now ≡ self.now }
        ensures zones { IsZones self.now }
    {
        self.cells
    }

    /// The zone of the cell: the one that is the cell or an ancestor of it; `None` where there is none.
    pub fn zone_of(&self, cell: Cell) -> Option<Cell>
        ensures is { result ≡ zone_of self.now cell }
        ensures found { IfSome result (λ z. Contains self.now z × IsAncestor z cell) }
        ensures one { (z : Address) → Contains self.now z → IsAncestor z cell → result ≡ Some z }
    {
        cells_form_trees();
        coverages_decide_lists();
        match place_above(self.cells, cell) {
            Some(i) => Some(self.cells[i]),
            None => None,
        }
    }

    /// The zone of the cell, as `zone_of` finds it, looked for from a place of `cells` on. The place
    /// may be any: where the zone stands there, or a few places on, it is found in a step or two, and
    /// else by a search of all. Where there is a zone, the place is then the zone's own. So of cells in
    /// ascending order each is found from where the one before was.
    #[inline(always)]
    pub fn zone_near(&self, cell: Cell, place: &mut usize) -> Option<Cell>
        ensures is { result ≡ zone_of self.now cell }
        ensures found { IfSome result (λ z. Contains self.now z × IsAncestor z cell) }
        ensures one { (z : Address) → Contains self.now z → IsAncestor z cell → result ≡ Some z }
        ensures place { IfSome result (λ z. slice_get self.now place.new ≡ Some z) }
    {
        cells_form_trees();
        coverages_decide_lists();
        match place_near(self.cells, cell, place) {
            Some(found) => Some(self.cells[found]),
            None => None,
        }
    }

    /// Whether the zones cover the cell: whether it has a zone.
    pub fn covers(&self, cell: Cell) -> bool
        ensures { IsTrue result ↔ IsCovered self.now (resolution cell) cell }
    {
        match place_above(self.cells, cell) {
            Some(_) => true,
            None => false,
        }
    }
}
