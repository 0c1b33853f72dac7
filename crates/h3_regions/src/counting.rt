//! Counts of cells by the zones that they lie in.

ghost use Rattle.std.specs.Prelude.{◌≡◌, ◌+◌, ◌-◌, ◌^◌, ◌<◌, ◌≤◌, ◌++◌, ◌∷◌, [], ℕ, List, Contains, length, map, replicate, sum, take, drop};
ghost use Rattle.h3_index.specs.Cell.{Address};
ghost use Rattle.h3_regions.specs.Counting.{AreCounts, count_in, count_outside};
ghost use Rattle.h3_regions.specs.Laws.{CountsInParts, ZonesAreOne};
ghost use Rattle.h3_regions.specs.Zones.{IsZones};

use crate::zone_index::ZoneIndex;
use crate::zones::{Zones, place_above, place_near};
use h3_index::Cell;
use h3_set::laws::coverages_decide_lists;
use h3_tree::laws::cells_form_trees;

/// Sets all counts to 0.
pub(crate) fn clear(counts: &mut [u64])
    ensures { counts.new ≡ replicate (length counts.old) 0 }
{
    for count in counts.iter_mut() {
        *count = 0;
    }
}

/// As `count_from_zero`, where the counts are 0.
fn count_each(zones: &[Cell], cells: &[Cell], counts: &mut [u64]) -> u64
    requires zones { IsZones zones.now }
    requires zero { counts.old ≡ replicate (length zones.now) 0 }
    ensures counts { counts.new ≡ map (λ zone. count_in zone cells.now) zones.now }
    ensures others { result ≡ count_outside zones.now cells.now }
    ensures all { sum counts.new + result ≡ length cells.now }
{
    coverages_decide_lists();
    let mut others: u64 = 0;
    let mut place: usize = 0;
    for cell in cells {
        match place_near(zones, *cell, &mut place) {
            Some(i) => counts[i] += 1,
            None => others += 1,
        }
    }
    others
}

/// As `count`, where there are as many counts as zones.
fn count_from_zero(zones: &[Cell], cells: &[Cell], counts: &mut [u64]) -> u64
    requires zones { IsZones zones.now }
    requires room { length counts.old ≡ length zones.now }
    ensures counts { counts.new ≡ map (λ zone. count_in zone cells.now) zones.now }
    ensures others { result ≡ count_outside zones.now cells.now }
    ensures all { sum counts.new + result ≡ length cells.now }
{
    clear(counts);
    count_each(zones, cells, counts)
}

/// Counts the cells of a list by their zones; a cell that is listed twice counts twice. The counts
/// are one for each zone in the order of `Zones::cells`. Returns how many cells have no zone. So the
/// counts and that add up to the number of cells, and what is counted of the parts of a list to what
/// is counted of the whole.
///
/// There must be at least as many counts as zones; the first ones are written, whatever they were,
/// and the others stay as they are.
pub fn count(zones: &Zones, cells: &[Cell], counts: &mut [u64]) -> u64
    requires { length zones.now ≤ length counts.old }
    ensures counts { take (length zones.now) counts.new ≡ map (λ zone. count_in zone cells.now) zones.now }
    ensures others { result ≡ count_outside zones.now cells.now }
    ensures all { sum (take (length zones.now) counts.new) + result ≡ length cells.now }
    ensures rest { drop (length zones.now) counts.new ≡ drop (length zones.now) counts.old }

    // Laws, whatever the zones and the cells.
    ensures one { ZonesAreOne }
    ensures parts { CountsInParts }
{
    cells_form_trees();
    coverages_decide_lists();
    count_from_zero(zones.cells(), cells, &mut counts[..zones.cells().len()])
}

/// Counts one cell more, after those of a list: adds one to the count of its zone, or returns one
/// more than the number of others where it has no zone. So a list can be counted cell by cell, as
/// it is read: from as many zeros as there are zones, and no others (`zones_are_lawful`).
///
/// Its zone is looked for from a place of `Zones::cells` on, which may be any, and which is then
/// where the next cell may be looked for, as by `Zones::zone_near`.
///
/// There must be as many counts as zones, and fewer cells counted than a `u64` can say.
pub fn count_next(
    zones: &Zones,
    cell: Cell,
    counts: &mut [u64],
    others: u64,
    place: &mut usize,
) -> u64
    requires size { length counts.old ≡ length zones.now }
    requires few { sum counts.old + others < 2 ^ 64 - 1 }
    ensures next { (cells : List Address) → AreCounts zones.now cells counts.old others
        → AreCounts zones.now (cells ++ cell ∷ []) counts.new result }
    ensures one { sum counts.new + result ≡ sum counts.old + others + 1 }
{
    coverages_decide_lists();
    match place_near(zones.cells(), cell, place) {
        Some(i) => {
            counts[i] += 1;
            others
        }
        None => others + 1,
    }
}

/// The count of a zone, of the counts of all zones in the order of `Zones::cells`.
///
/// There must be as many counts as zones, and the cell must be a zone.
pub fn count_of(zones: &Zones, counts: &[u64], zone: Cell) -> u64
    requires size { length counts.now ≡ length zones.now }
    requires member { Contains zones.now zone }
    ensures { (cells : List Address) (others : ℕ) → AreCounts zones.now cells counts.now others
        → result ≡ count_in zone cells }
{
    cells_form_trees();
    match place_above(zones.cells(), zone) {
        Some(i) => counts[i],
        None => unreachable!(),
    }
}

/// As `count_indexed`, where the counts are 0, one for each zone.
fn count_each_indexed(index: &ZoneIndex, cells: &[Cell], counts: &mut [u64]) -> u64
    requires { counts.old ≡ replicate (length index.now) 0 }
    ensures counts { counts.new ≡ map (λ zone. count_in zone cells.now) index.now }
    ensures others { result ≡ count_outside index.now cells.now }
    ensures all { sum counts.new + result ≡ length cells.now }
{
    coverages_decide_lists();
    let mut outside: u64 = 0;
    for cell in cells {
        match index.place_of(*cell) {
            Some(place) => counts[place] += 1,
            None => outside += 1,
        }
    }
    outside
}

/// As `count`, over zones with a table: for cells in any order.
pub fn count_indexed(index: &ZoneIndex, cells: &[Cell], counts: &mut [u64]) -> u64
    requires { length index.now ≤ length counts.old }
    ensures counts { take (length index.now) counts.new ≡ map (λ zone. count_in zone cells.now) index.now }
    ensures others { result ≡ count_outside index.now cells.now }
    ensures all { sum (take (length index.now) counts.new) + result ≡ length cells.now }
    ensures rest { drop (length index.now) counts.new ≡ drop (length index.now) counts.old }

    // Laws, whatever the zones and the cells.
    ensures one { ZonesAreOne }
    ensures parts { CountsInParts }
{
    cells_form_trees();
    coverages_decide_lists();
    let size = index.zones().cells().len();
    clear(&mut counts[..size]);
    count_each_indexed(index, cells, &mut counts[..size])
}
