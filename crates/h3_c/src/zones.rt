//! Zones: cells of which no two overlap, prepared once in C's memory, the zones of columns of cells
//! and their counts.

ghost use Rattle.std.specs.Prelude.{◌≡◌, ◌≢◌, ◌<◌, ◌≤◌, ◌⊎◌, ◌+◌, ◌-◌, ◌^◌, ◌++◌, ◌∷◌, [], List, length, map, sum, take, replicate, negsuc, IfErr, IfOk, IsPermutation, Some, None};
ghost use Rattle.h3_index.specs.Cell.{Address};
ghost use Rattle.h3_index.specs.declared.error.H3Error.TheVariants.{MemoryAlloc};
ghost use Rattle.h3_functions.specs.Hierarchy.{unless};
ghost use Rattle.h3_set.specs.Coverage.{is_covered};
ghost use Rattle.h3_set.specs.Refusals.{compaction_refusal};
ghost use Rattle.h3_regions.specs.Counting.{AreCounts};
ghost use Rattle.h3_regions.specs.FirstPlaces.{IsTableOf};
ghost use Rattle.h3_regions.specs.Zones.{IsZones, zone_of};
ghost use Rattle.h3_c.specs.Column.{column_code, column_over, first_code, first_place, place_over};
ghost use Rattle.h3_c.specs.Lists.{indexes, laid_over};
ghost use Rattle.h3_c.specs.Outcome.{code_of, truth_of};
ghost use Rattle.h3_c.specs.Sets.{cells_in};
ghost use Rattle.h3_c.specs.Zones.{AreZonesOver, FindsOverlap, cell_to_zone, counts_code, counts_over, counts_place, is_covered_cell, judged, others_over, zones_code, zones_in};

use crate::column::{ColumnFunction, MEMORY_BOUNDS, NO_NUMBER, NULL, fill};
use crate::outcome::truth;
use crate::sets::{cells_in, put_slice};
use h3_functions::cell_from;
use h3_index::laws::numbers_are_read;
use h3_index::{Cell, H3Error};
use h3_regions::laws::zones_are_lawful;
use h3_regions::{AHEAD, TabledZones, Zones, count_next, find_overlap, order_zones, write_table};
use std::alloc::Global;

/// Puts the indexes of cells, in the order of zones, into the first slots. Returns 0, or the number
/// of the error.
fn put_zones(zones: &mut [u64], cells: &mut [Cell]) -> u32
    requires { length cells.old ≤ length zones.old }
    ensures code { result ≡ code_of (unless (compaction_refusal cells.old) cells.old) }
    ensures kept { result ≢ 0 → zones.new ≡ zones.old }
    ensures same { IsPermutation cells.old cells.new }
    ensures in_order { result ≡ 0 → IsZones cells.new }
    ensures written { result ≡ 0 → zones.new ≡ laid_over (indexes cells.new) zones.old }
{
    match order_zones(cells) {
        Ok(()) => put_slice(zones, cells),
        Err(error) => u32::from(error.number()),
    }
}

/// Prepares cells as zones: puts them into the first slots, in an order in which they are looked up.
#[unsafe(no_mangle)]
pub extern "C" fn h3w_zones(alloc: Global, cells: &[u64], zones: &mut [u64]) -> u32
    ensures code { ((result ≡ 13) × (length cells.now ≤ length zones.old))
        ⊎ (result ≡ zones_code cells.now (length zones.old)) }
    ensures kept { result ≢ 0 → zones.new ≡ zones.old }
    ensures zones { result ≡ 0 → AreZonesOver cells.now zones.old zones.new }
{
    numbers_are_read();
    if zones.len() < cells.len() {
        return MEMORY_BOUNDS;
    }
    let mut cells = match cells_in(alloc, cells) {
        Ok(cells) => cells,
        Err(error) => return u32::from(error.number()),
    };
    put_zones(zones, &mut cells)
}

/// Writes the table of zones, by which the functions `..InTable` look cells up.
#[unsafe(no_mangle)]
pub extern "C" fn h3w_zonesTable(zones: &[Cell], table: &mut [u32])
    requires { IsZones zones.now }
    ensures { IsTableOf zones.now table.old table.new }
{
    write_table(&Zones::over(zones), table);
}

/// The most places of the table by which a long list is looked up if the caller provides none: 16 KiB
/// on the stack.
pub(crate) const TABLE: usize = 4096;

/// The fewest cells of a long list.
const LONG: usize = 512;

/// Whether sixteen of the cells, evenly spaced, ascend by number.
fn ascends(cells: &[u64]) -> bool
    requires { 0 < length cells.now }
{
    let step = cells.len() / 16;
    let last = cells.len() - 1;
    let mut before = cells[0];
    for part in 1..16 {
        let next = cells[last.min(part * step)];
        if before > next {
            return false;
        }
        before = next;
    }
    true
}

/// Whether to look a list up by a table, which takes a pass over the zones to write: it has 512 cells or
/// more, a fourth as many as zones, and does not ascend.
pub(crate) fn is_long(cells: &[u64], zones: &[Cell]) -> bool {
    cells.len() >= LONG && cells.len() >= zones.len() / 4 && !ascends(cells)
}

/// Zones in which cells are looked up, alone or with a table.
#[derive(Drop)]
pub(crate) enum Lookup<'a> {
    Near(Zones<'a>),
    InTable(TabledZones<'a>),
}

impl<'a> Lookup<'a> {
    /// Zones with a table, which is written here.
    pub(crate) fn by_table(zones: &Zones<'a>, table: &'a mut [u32]) -> Lookup<'a>
        ensures { zones_in result ≡ zones.now }
    {
        write_table(zones, table);
        Lookup::InTable(TabledZones::over(zones, table))
    }

    /// The zones.
    #[inline(always)]
    pub(crate) fn zones(&self) -> Zones<'a>
        ensures { result ≡ zones_in self.now }
    {
        match self {
            Lookup::Near(zones) => Zones::over(zones.cells()),
            Lookup::InTable(tabled) => tabled.zones(),
        }
    }

    /// The zone of a cell, which may be looked for from a place on, as `Zones::zone_near` does.
    #[inline(always)]
    fn zone_of(&self, cell: Cell, place: &mut usize) -> Option<Cell>
        ensures { result ≡ zone_of (zones_in self.now) cell }
    {
        self.zones().zone_near(cell, place)
    }

    /// Where the next indexes are looked for, as `Zones::look_ahead` has it; `None` if they are looked
    /// for from the last place, as `are_near` says.
    #[inline(always)]
    pub(crate) fn look_ahead(&self, indexes: &[u64], place: usize) -> Option<[usize; AHEAD]> {
        if self.zones().are_near(indexes, place) {
            return None;
        }
        Some(match self {
            Lookup::Near(zones) => zones.look_ahead(indexes),
            Lookup::InTable(tabled) => tabled.look_ahead(indexes),
        })
    }

    /// Whether a cell has a zone.
    #[inline(always)]
    fn covers(&self, cell: Cell, place: &mut usize) -> bool
        ensures { result ≡ is_covered (zones_in self.now) cell }
    {
        self.zone_of(cell, place).is_some()
    }

    /// Counts one cell more, as `count_next` of `h3_regions`.
    #[inline(always)]
    fn count_next(&self, cell: Cell, counts: &mut [u64], others: u64, place: &mut usize) -> u64
        requires size { length counts.old ≡ length (zones_in self.now) }
        requires few { sum counts.old + others < 2 ^ 64 - 1 }
        ensures { (cells : List Address) → AreCounts (zones_in self.now) cells counts.old others
            → AreCounts (zones_in self.now) (cells ++ cell ∷ []) counts.new result }
    {
        count_next(&self.zones(), cell, counts, others, place)
    }
}

/// The zone of a cell, for each index of a column.
#[derive(Drop)]
struct ZonesOf<'a> {
    zones: Lookup<'a>,
}

impl<'a> ColumnFunction<u64> for ZonesOf<'a> {
    ghost outcome = { λ q h. cell_to_zone (zones_in q.zones) h };

    #[inline(always)]
    fn ask(&self, index: u64, place: &mut usize) -> Result<u64, H3Error> {
        let cell = cell_from(index)?;
        match self.zones.zone_of(cell, place) {
            Some(zone) => Ok(zone.raw()),
            None => Ok(NULL),
        }
    }

    #[inline(always)]
    fn look_ahead(&self, indexes: &[u64], place: usize) -> Option<[usize; AHEAD]> {
        self.zones.look_ahead(indexes, place)
    }
}

/// The zone of each index, with its errors.
#[unsafe(no_mangle)]
pub extern "C" fn h3w_cellsToZones(
    zones: &[Cell],
    cells: &[u64],
    out: &mut [u64],
    at: &mut usize,
) -> u32
    requires { IsZones zones.now }
    ensures code { result
        ≡ column_code (map (λ h. cell_to_zone zones.now h) cells.now) (length out.old) }
    ensures values { out.new
        ≡ column_over 0 (map (λ h. cell_to_zone zones.now h) cells.now) out.old }
    ensures place { at.new
        ≡ place_over (map (λ h. cell_to_zone zones.now h) cells.now) (length out.old) at.old }
{
    if is_long(cells, zones) {
        return zones_of_long(zones, cells, out, at);
    }
    let question = ZonesOf {
        zones: Lookup::Near(Zones::over(zones)),
    };
    fill(&question, cells, NULL, out, at)
}

/// `h3w_cellsToZones` of a long list.
#[inline(never)]
fn zones_of_long(zones: &[Cell], cells: &[u64], out: &mut [u64], at: &mut usize) -> u32
    requires { IsZones zones.now }
    ensures code { result
        ≡ column_code (map (λ h. cell_to_zone zones.now h) cells.now) (length out.old) }
    ensures values { out.new
        ≡ column_over 0 (map (λ h. cell_to_zone zones.now h) cells.now) out.old }
    ensures place { at.new
        ≡ place_over (map (λ h. cell_to_zone zones.now h) cells.now) (length out.old) at.old }
{
    let mut table = [0; TABLE];
    let room = TABLE.min(cells.len());
    h3w_cellsToZonesByTable(zones, cells, &mut table[..room], out, at)
}

/// `h3w_cellsToZones` by a table, which is written into memory that is lent.
#[unsafe(no_mangle)]
pub extern "C" fn h3w_cellsToZonesByTable(
    zones: &[Cell],
    cells: &[u64],
    table: &mut [u32],
    out: &mut [u64],
    at: &mut usize,
) -> u32
    requires { IsZones zones.now }
    ensures code { result
        ≡ column_code (map (λ h. cell_to_zone zones.now h) cells.now) (length out.old) }
    ensures values { out.new
        ≡ column_over 0 (map (λ h. cell_to_zone zones.now h) cells.now) out.old }
    ensures place { at.new
        ≡ place_over (map (λ h. cell_to_zone zones.now h) cells.now) (length out.old) at.old }
{
    let zones = Lookup::by_table(&Zones::over(zones), table);
    fill(&ZonesOf { zones }, cells, NULL, out, at)
}

/// `h3w_cellsToZones` in a table that was written before, whatever it holds.
#[unsafe(no_mangle)]
pub extern "C" fn h3w_cellsToZonesInTable(
    zones: &[Cell],
    cells: &[u64],
    table: &[u32],
    out: &mut [u64],
    at: &mut usize,
) -> u32
    requires { IsZones zones.now }
    ensures code { result
        ≡ column_code (map (λ h. cell_to_zone zones.now h) cells.now) (length out.old) }
    ensures values { out.new
        ≡ column_over 0 (map (λ h. cell_to_zone zones.now h) cells.now) out.old }
    ensures place { at.new
        ≡ place_over (map (λ h. cell_to_zone zones.now h) cells.now) (length out.old) at.old }
{
    let in_table = ZonesOf {
        zones: Lookup::InTable(TabledZones::over(&Zones::over(zones), table)),
    };
    fill(&in_table, cells, NULL, out, at)
}

/// Whether the zones cover a cell, for each index of a column.
#[derive(Drop)]
struct CoveredBy<'a> {
    zones: Lookup<'a>,
}

impl<'a> ColumnFunction<i32> for CoveredBy<'a> {
    ghost outcome = { λ q h. truth_of (is_covered_cell (zones_in q.zones) h) };

    #[inline(always)]
    fn ask(&self, index: u64, place: &mut usize) -> Result<i32, H3Error> {
        let cell = cell_from(index)?;
        let is = self.zones.covers(cell, place);
        Ok(truth(is))
    }

    #[inline(always)]
    fn look_ahead(&self, indexes: &[u64], place: usize) -> Option<[usize; AHEAD]> {
        self.zones.look_ahead(indexes, place)
    }
}

/// Whether the zones cover each index, with its errors.
#[unsafe(no_mangle)]
pub extern "C" fn h3w_areCoveredCells(
    zones: &[Cell],
    cells: &[u64],
    out: &mut [i32],
    at: &mut usize,
) -> u32
    requires { IsZones zones.now }
    ensures code { result ≡ column_code
        (map (λ h. truth_of (is_covered_cell zones.now h)) cells.now) (length out.old) }
    ensures values { out.new ≡ column_over (negsuc 0)
        (map (λ h. truth_of (is_covered_cell zones.now h)) cells.now) out.old }
    ensures place { at.new ≡ place_over
        (map (λ h. truth_of (is_covered_cell zones.now h)) cells.now) (length out.old) at.old }
{
    if is_long(cells, zones) {
        return covered_of_long(zones, cells, out, at);
    }
    let question = CoveredBy {
        zones: Lookup::Near(Zones::over(zones)),
    };
    fill(&question, cells, NO_NUMBER, out, at)
}

/// `h3w_areCoveredCells` of a long list.
#[inline(never)]
fn covered_of_long(zones: &[Cell], cells: &[u64], out: &mut [i32], at: &mut usize) -> u32
    requires { IsZones zones.now }
    ensures code { result ≡ column_code
        (map (λ h. truth_of (is_covered_cell zones.now h)) cells.now) (length out.old) }
    ensures values { out.new ≡ column_over (negsuc 0)
        (map (λ h. truth_of (is_covered_cell zones.now h)) cells.now) out.old }
    ensures place { at.new ≡ place_over
        (map (λ h. truth_of (is_covered_cell zones.now h)) cells.now) (length out.old) at.old }
{
    let mut table = [0; TABLE];
    let room = TABLE.min(cells.len());
    h3w_areCoveredCellsByTable(zones, cells, &mut table[..room], out, at)
}

/// `h3w_areCoveredCells` by a table, which is written into memory that is lent.
#[unsafe(no_mangle)]
pub extern "C" fn h3w_areCoveredCellsByTable(
    zones: &[Cell],
    cells: &[u64],
    table: &mut [u32],
    out: &mut [i32],
    at: &mut usize,
) -> u32
    requires { IsZones zones.now }
    ensures code { result ≡ column_code
        (map (λ h. truth_of (is_covered_cell zones.now h)) cells.now) (length out.old) }
    ensures values { out.new ≡ column_over (negsuc 0)
        (map (λ h. truth_of (is_covered_cell zones.now h)) cells.now) out.old }
    ensures place { at.new ≡ place_over
        (map (λ h. truth_of (is_covered_cell zones.now h)) cells.now) (length out.old) at.old }
{
    let zones = Lookup::by_table(&Zones::over(zones), table);
    fill(&CoveredBy { zones }, cells, NO_NUMBER, out, at)
}

/// `h3w_areCoveredCells` in a table that was written before, whatever it holds.
#[unsafe(no_mangle)]
pub extern "C" fn h3w_areCoveredCellsInTable(
    zones: &[Cell],
    cells: &[u64],
    table: &[u32],
    out: &mut [i32],
    at: &mut usize,
) -> u32
    requires { IsZones zones.now }
    ensures code { result ≡ column_code
        (map (λ h. truth_of (is_covered_cell zones.now h)) cells.now) (length out.old) }
    ensures values { out.new ≡ column_over (negsuc 0)
        (map (λ h. truth_of (is_covered_cell zones.now h)) cells.now) out.old }
    ensures place { at.new ≡ place_over
        (map (λ h. truth_of (is_covered_cell zones.now h)) cells.now) (length out.old) at.old }
{
    let in_table = CoveredBy {
        zones: Lookup::InTable(TabledZones::over(&Zones::over(zones), table)),
    };
    fill(&in_table, cells, NO_NUMBER, out, at)
}

/// Looks for the first index that is no cell's. Returns the number of its error, and puts its place
/// at `at`; where there is none, 0 and how many indexes there are.
pub(crate) fn judge(indexes: &[u64], at: &mut usize) -> u32
    ensures code { result ≡ first_code (judged indexes.now) }
    ensures place { at.new ≡ first_place (judged indexes.now) }
    ensures cells { result ≡ 0 → cells_in indexes.now ≢ None }
    ensures invalid { result ≢ 0 → result ≡ 5 }
{
    for i in 0..indexes.len() {
        if let Err(error) = Cell::new(indexes[i]) {
            *at = i;
            return u32::from(error.number());
        }
    }
    *at = indexes.len();
    0
}

/// Sets all counts to 0.
fn clear(counts: &mut [u64])
    ensures { counts.new ≡ replicate (length counts.old) 0 }
{
    for count in counts.iter_mut() {
        *count = 0;
    }
}

/// Counts the cells with these indexes by zones, and returns how many have none.
///
/// Each is judged once more: another thread of the caller may have written to it since. Then the number of its
/// error and its place are returned; in a contract no memory changes during a call, so there is no error.
fn count_all(zones: &Lookup, indexes: &[u64], counts: &mut [u64]) -> Result<u64, (u32, usize)>
    requires cells { cells_in indexes.now ≢ None }
    requires size { length counts.old ≡ length (zones_in zones.now) }
    ensures counted { IfOk result (λ others. (cells : List Address) → cells_in indexes.now ≡ Some cells
        → AreCounts (zones_in zones.now) cells counts.new others) }
    ensures all { IfErr result (λ _. ⊥) }
{
    zones_are_lawful();
    clear(counts);
    let mut others: u64 = 0;
    let mut place: usize = 0;
    let mut ahead = None;
    for i in 0..indexes.len() {
        if i % AHEAD == 0 {
            ahead = zones.look_ahead(&indexes[i..], place);
        }
        if let Some(places) = &ahead {
            place = places[i % AHEAD];
        }
        match Cell::new(indexes[i]) {
            Ok(cell) => others = zones.count_next(cell, counts, others, &mut place),
            Err(error) => return Err((u32::from(error.number()), i)),
        }
    }
    Ok(others)
}

/// How many of the cells have each zone, in the order of the zones, and how many have none, once all
/// indexes are judged. Given is how many zones there are, too.
#[inline(always)]
fn count_judged(
    zones: &Lookup,
    size: usize,
    cells: &[u64],
    counts: &mut [u64],
    others: &mut u64,
    at: &mut usize,
) -> u32
    requires { size ≡ length (zones_in zones.now) }
    ensures code { result ≡ counts_code (zones_in zones.now) cells.now (length counts.old) }
    ensures counts { counts.new ≡ counts_over (zones_in zones.now) cells.now counts.old }
    ensures others { others.new
        ≡ others_over (zones_in zones.now) cells.now (length counts.old) others.old }
    ensures place { at.new ≡ counts_place (zones_in zones.now) cells.now (length counts.old) at.old }
    ensures cells { result ≡ 0 → cells_in cells.now ≢ None }
    ensures all { result ≡ 0 → sum (take size counts.new) + others.new ≡ length cells.now }
{
    if counts.len() < size {
        return MEMORY_BOUNDS;
    }
    let code = judge(cells, at);
    if code == 0 {
        match count_all(zones, cells, &mut counts[..size]) {
            Ok(outside) => *others = outside,
            Err((code, changed)) => {
                *at = changed;
                return code;
            }
        }
    }
    code
}

/// How many of the cells have each zone, in the order of the zones, and how many have none, once all
/// indexes are judged.
#[unsafe(no_mangle)]
pub extern "C" fn h3w_countCellsInZones(
    zones: &[Cell],
    cells: &[u64],
    counts: &mut [u64],
    others: &mut u64,
    at: &mut usize,
) -> u32
    requires { IsZones zones.now }
    ensures code { result ≡ counts_code zones.now cells.now (length counts.old) }
    ensures counts { counts.new ≡ counts_over zones.now cells.now counts.old }
    ensures others { others.new
        ≡ others_over zones.now cells.now (length counts.old) others.old }
    ensures place { at.new ≡ counts_place zones.now cells.now (length counts.old) at.old }
    ensures cells { result ≡ 0 → cells_in cells.now ≢ None }
    ensures all { result ≡ 0 →
        sum (take (length zones.now) counts.new) + others.new ≡ length cells.now }
{
    if is_long(cells, zones) {
        return counts_of_long(zones, cells, counts, others, at);
    }
    let lookup = Lookup::Near(Zones::over(zones));
    count_judged(&lookup, zones.len(), cells, counts, others, at)
}

/// `h3w_countCellsInZones` of a long list.
#[inline(never)]
fn counts_of_long(
    zones: &[Cell],
    cells: &[u64],
    counts: &mut [u64],
    others: &mut u64,
    at: &mut usize,
) -> u32
    requires { IsZones zones.now }
    ensures code { result ≡ counts_code zones.now cells.now (length counts.old) }
    ensures counts { counts.new ≡ counts_over zones.now cells.now counts.old }
    ensures others { others.new
        ≡ others_over zones.now cells.now (length counts.old) others.old }
    ensures place { at.new ≡ counts_place zones.now cells.now (length counts.old) at.old }
    ensures cells { result ≡ 0 → cells_in cells.now ≢ None }
    ensures all { result ≡ 0 →
        sum (take (length zones.now) counts.new) + others.new ≡ length cells.now }
{
    let mut table = [0; TABLE];
    let room = TABLE.min(cells.len());
    h3w_countCellsInZonesByTable(zones, cells, &mut table[..room], counts, others, at)
}

/// `h3w_countCellsInZones` by a table, which is written into memory that is lent.
#[unsafe(no_mangle)]
pub extern "C" fn h3w_countCellsInZonesByTable(
    zones: &[Cell],
    cells: &[u64],
    table: &mut [u32],
    counts: &mut [u64],
    others: &mut u64,
    at: &mut usize,
) -> u32
    requires { IsZones zones.now }
    ensures code { result ≡ counts_code zones.now cells.now (length counts.old) }
    ensures counts { counts.new ≡ counts_over zones.now cells.now counts.old }
    ensures others { others.new
        ≡ others_over zones.now cells.now (length counts.old) others.old }
    ensures place { at.new ≡ counts_place zones.now cells.now (length counts.old) at.old }
    ensures cells { result ≡ 0 → cells_in cells.now ≢ None }
    ensures all { result ≡ 0 →
        sum (take (length zones.now) counts.new) + others.new ≡ length cells.now }
{
    let lookup = Lookup::by_table(&Zones::over(zones), table);
    count_judged(&lookup, zones.len(), cells, counts, others, at)
}

/// `h3w_countCellsInZones` in a table that was written before, whatever it holds.
#[unsafe(no_mangle)]
pub extern "C" fn h3w_countCellsInZonesInTable(
    zones: &[Cell],
    cells: &[u64],
    table: &[u32],
    counts: &mut [u64],
    others: &mut u64,
    at: &mut usize,
) -> u32
    requires { IsZones zones.now }
    ensures code { result ≡ counts_code zones.now cells.now (length counts.old) }
    ensures counts { counts.new ≡ counts_over zones.now cells.now counts.old }
    ensures others { others.new
        ≡ others_over zones.now cells.now (length counts.old) others.old }
    ensures place { at.new ≡ counts_place zones.now cells.now (length counts.old) at.old }
    ensures cells { result ≡ 0 → cells_in cells.now ≢ None }
    ensures all { result ≡ 0 →
        sum (take (length zones.now) counts.new) + others.new ≡ length cells.now }
{
    let in_table = Lookup::InTable(TabledZones::over(&Zones::over(zones), table));
    count_judged(&in_table, zones.len(), cells, counts, others, at)
}

/// The first cell of a list that overlaps an earlier one, and the first cell that it overlaps, by
/// their places; the length of the list twice where no two overlap. The slots, as many as the cells,
/// are overwritten.
fn first_overlap(cells: &[Cell], slots: &mut [Cell]) -> (usize, usize)
    requires { length cells.now ≤ length slots.old }
    ensures { FindsOverlap cells.now result.0 result.1 }
{
    match find_overlap(cells, slots) {
        Some(places) => places,
        None => (cells.len(), cells.len()),
    }
}

/// The same of the cells with these indexes, each of which is a cell's.
fn overlap_in(alloc: Global, indexes: &[u64]) -> Result<(usize, usize), H3Error>
    requires { cells_in indexes.now ≢ None }
    ensures found { IfOk result (λ places. (cells : List Address) → cells_in indexes.now ≡ Some cells
        → FindsOverlap cells places.0 places.1) }
    ensures refused { IfErr result (λ e. e ≡ MemoryAlloc) }
{
    let cells = cells_in(alloc, indexes)?;
    let mut slots = match cells.to_vec(alloc) {
        Ok(slots) => slots,
        Err(_) => return Err(H3Error::MemoryAlloc),
    };
    Ok(first_overlap(&cells, &mut slots))
}

/// The places of the first cell that overlaps an earlier one and of the first cell that it overlaps,
/// once all indexes are judged.
#[unsafe(no_mangle)]
pub extern "C" fn h3w_findOverlap(
    alloc: Global,
    cells: &[u64],
    at: &mut usize,
    earlier: &mut usize,
) -> u32
    ensures code { ((result ≡ 13) × (first_code (judged cells.now) ≡ 0))
        ⊎ (result ≡ first_code (judged cells.now)) }
    ensures cells { result ≡ 0 → cells_in cells.now ≢ None }
    ensures found { result ≡ 0 → (list : List Address) → cells_in cells.now ≡ Some list
        → FindsOverlap list at.new earlier.new }
    ensures place { result ≢ 0 → result ≢ 13 → at.new ≡ first_place (judged cells.now) }
    ensures kept { result ≢ 0 → earlier.new ≡ earlier.old }
    ensures kept_at { result ≡ 13 → at.new ≡ at.old }
{
    let mut place = 0;
    let code = judge(cells, &mut place);
    if code != 0 {
        *at = place;
        return code;
    }
    match overlap_in(alloc, cells) {
        Ok((found, first)) => {
            *at = found;
            *earlier = first;
            0
        }
        Err(error) => u32::from(error.number()),
    }
}
