//! Areas of which no two overlap, prepared once in C's memory as zones with a number beside each, and
//! the numbers beside the zones of columns of cells.

ghost use Rattle.std.specs.Prelude.{◌≡◌, ◌≢◌, ◌≤◌, ◌⊎◌, length, map, min, zip, IfErr, IfOk};
ghost use Rattle.h3_index.specs.declared.error.H3Error.TheVariants.{MemoryAlloc};
ghost use Rattle.h3_regions.specs.Refusals.{areas_refusal};
ghost use Rattle.h3_regions.specs.Zones.{IsZones};
ghost use Rattle.h3_functions.specs.Hierarchy.{unless};
ghost use Rattle.h3_c.specs.Areas.{AreAreasOver, AreAreasPut, areas_code, beside, cell_to_place, places_code, places_over, places_place};
ghost use Rattle.h3_c.specs.Lists.{laid_over};
ghost use Rattle.h3_c.specs.Outcome.{code_of};
ghost use Rattle.h3_c.specs.Zones.{zones_in};

use crate::column::{ColumnFunction, MEMORY_BOUNDS, NO_COUNT, fill};
use crate::sets::{cells_in, put_slice};
use crate::zones::{Lookup, TABLE, is_long};
use h3_functions::cell_from;
use h3_index::laws::numbers_are_read;
use h3_index::{Cell, H3Error};
use h3_regions::laws::areas_are_lawful;
use h3_regions::{AHEAD, ApartAreas, TabledZones, Zones};
use h3_set::laws::coverages_decide_lists;
use std::alloc::Global;

/// Pairs of a cell and the number at its place. `MemoryAlloc` if there is no memory.
pub(crate) fn pairs_of(
    alloc: Global,
    cells: &[Cell],
    areas: &[u32],
) -> Result<Vec<(Cell, u32)>, H3Error>
    requires { length cells.now ≤ length areas.now }
    ensures pairs { IfOk result (λ pairs. pairs.items ≡ zip cells.now areas.now) }
    ensures refused { IfErr result (λ e. e ≡ MemoryAlloc) }
{
    let mut pairs = match Vec::with_capacity(alloc, cells.len()) {
        Ok(pairs) => pairs,
        Err(_) => return Err(H3Error::MemoryAlloc),
    };
    for i in 0..cells.len() {
        if pairs.push((cells[i], areas[i])).is_err() {
            return Err(H3Error::MemoryAlloc);
        }
    }
    Ok(pairs)
}

/// Puts the numbers of pairs into the first slots.
fn put_numbers(numbers: &mut [u32], pairs: &[(Cell, u32)])
    requires { length pairs.now ≤ length numbers.old }
    ensures { numbers.new ≡ laid_over (map (λ p. p.1) pairs.now) numbers.old }
{
    for i in 0..pairs.len() {
        numbers[i] = pairs[i].1;
    }
}

/// Puts the areas of pairs as zones into the first slots, and the number of the area of each. Returns
/// 0, or the number of the error. The slots are overwritten.
fn put_areas(
    pairs: &mut [(Cell, u32)],
    slots: &mut [Cell],
    zones: &mut [u64],
    numbers: &mut [u32],
    count: &mut usize,
) -> u32
    requires slots { length pairs.old ≤ length slots.old }
    requires zones { length pairs.old ≤ length zones.old }
    requires numbers { length pairs.old ≤ length numbers.old }
    ensures code { result ≡ code_of (unless (areas_refusal pairs.old) pairs.old) }
    ensures kept { result ≢ 0 → (zones.new ≡ zones.old) × (numbers.new ≡ numbers.old) × (count.new ≡ count.old) }
    ensures put { result ≡ 0 → AreAreasPut pairs.old zones.old zones.new numbers.old numbers.new count.new }
{
    areas_are_lawful();
    coverages_decide_lists();
    match ApartAreas::of(pairs, slots) {
        Ok(areas) => {
            let cells = areas.cells();
            *count = cells.len();
            put_numbers(numbers, areas.pairs());
            put_slice(zones, cells)
        }
        Err(refused) => u32::from(refused.error.number()),
    }
}

/// Prepares areas of which no two overlap: puts the cells that are below no other of the same area,
/// each once, as zones into the first slots, and the number of the area of each.
#[unsafe(no_mangle)]
pub extern "C" fn h3w_areas(
    alloc: Global,
    cells: &[u64],
    areas: &[u32],
    zones: &mut [u64],
    numbers: &mut [u32],
    count: &mut usize,
) -> u32
    ensures code { ((result ≡ 13)
        × (length cells.now ≤ min (length areas.now) (min (length zones.old) (length numbers.old))))
        ⊎ (result ≡ areas_code cells.now areas.now
        (min (length areas.now) (min (length zones.old) (length numbers.old)))) }
    ensures kept { result ≢ 0 → (zones.new ≡ zones.old) × (numbers.new ≡ numbers.old) × (count.new ≡ count.old) }
    ensures areas { result ≡ 0
        → AreAreasOver cells.now areas.now zones.old zones.new numbers.old numbers.new count.new }
{
    numbers_are_read();
    let room = areas.len().min(zones.len().min(numbers.len()));
    if room < cells.len() {
        return MEMORY_BOUNDS;
    }
    let mut cells = match cells_in(alloc, cells) {
        Ok(cells) => cells,
        Err(error) => return u32::from(error.number()),
    };
    let mut pairs = match pairs_of(alloc, &cells, areas) {
        Ok(pairs) => pairs,
        Err(error) => return u32::from(error.number()),
    };
    put_areas(&mut pairs, &mut cells, zones, numbers, count)
}

/// The number beside the zone of a cell, for each index of a column.
#[derive(Drop)]
struct PlacesOf<'a> {
    zones: Lookup<'a>,
    places: &'a [u32],
}

impl<'a> PlacesOf<'a> {
    /// The number beside the zone of a cell, which may be looked for from a place on, or -1 if it has
    /// none.
    #[inline(always)]
    fn place_of(&self, cell: Cell, place: &mut usize) -> u64
        ensures { result ≡ beside (zones_in self.now.zones) self.now.places.now cell }
    {
        coverages_decide_lists();
        let zones = self.zones.zones();
        let _cells = zones.cells();
        match zones.zone_near(cell, place) {
            Some(_) => {}
            None => return NO_COUNT,
        }
        if *place >= self.places.len() {
            return NO_COUNT;
        }
        u64::from(self.places[*place])
    }
}

impl<'a> ColumnFunction<u64> for PlacesOf<'a> {
    ghost outcome = { λ q h. cell_to_place (zones_in q.zones) q.places.now h };

    #[inline(always)]
    fn ask(&self, index: u64, place: &mut usize) -> Result<u64, H3Error> {
        let cell = cell_from(index)?;
        Ok(self.place_of(cell, place))
    }

    #[inline(always)]
    fn look_ahead(&self, indexes: &[u64], place: usize) -> Option<[usize; AHEAD]> {
        self.zones.look_ahead(indexes, place)
    }
}

/// The numbers beside the zones of indexes, if there are at least as many numbers as zones.
#[inline(always)]
fn fill_places(zones: Lookup, places: &[u32], cells: &[u64], out: &mut [u64], at: &mut usize) -> u32
    ensures code { result ≡ places_code (zones_in zones.entry) places.now cells.now (length out.old) }
    ensures values { out.new ≡ places_over (zones_in zones.entry) places.now cells.now out.old }
    ensures place { at.new ≡ places_place (zones_in zones.entry) places.now cells.now (length out.old) at.old }
{
    if places.len() < zones.zones().cells().len() {
        return MEMORY_BOUNDS;
    }
    fill(&PlacesOf { zones, places }, cells, NO_COUNT, out, at)
}

/// The number beside the zone of each index, with its errors.
#[unsafe(no_mangle)]
pub extern "C" fn h3w_cellsToZonesPlaces(
    zones: &[Cell],
    places: &[u32],
    cells: &[u64],
    out: &mut [u64],
    at: &mut usize,
) -> u32
    requires { IsZones zones.now }
    ensures code { result ≡ places_code zones.now places.now cells.now (length out.old) }
    ensures values { out.new ≡ places_over zones.now places.now cells.now out.old }
    ensures place { at.new ≡ places_place zones.now places.now cells.now (length out.old) at.old }
{
    if is_long(cells, zones) {
        return places_of_long(zones, places, cells, out, at);
    }
    fill_places(Lookup::Near(Zones::over(zones)), places, cells, out, at)
}

/// `h3w_cellsToZonesPlaces` of a long list.
#[inline(never)]
fn places_of_long(
    zones: &[Cell],
    places: &[u32],
    cells: &[u64],
    out: &mut [u64],
    at: &mut usize,
) -> u32
    requires { IsZones zones.now }
    ensures code { result ≡ places_code zones.now places.now cells.now (length out.old) }
    ensures values { out.new ≡ places_over zones.now places.now cells.now out.old }
    ensures place { at.new ≡ places_place zones.now places.now cells.now (length out.old) at.old }
{
    let mut table = [0; TABLE];
    let room = TABLE.min(cells.len());
    h3w_cellsToZonesPlacesByTable(zones, places, cells, &mut table[..room], out, at)
}

/// `h3w_cellsToZonesPlaces` by a table, which is written into memory that is lent.
#[unsafe(no_mangle)]
pub extern "C" fn h3w_cellsToZonesPlacesByTable(
    zones: &[Cell],
    places: &[u32],
    cells: &[u64],
    table: &mut [u32],
    out: &mut [u64],
    at: &mut usize,
) -> u32
    requires { IsZones zones.now }
    ensures code { result ≡ places_code zones.now places.now cells.now (length out.old) }
    ensures values { out.new ≡ places_over zones.now places.now cells.now out.old }
    ensures place { at.new ≡ places_place zones.now places.now cells.now (length out.old) at.old }
{
    fill_places(
        Lookup::by_table(&Zones::over(zones), table),
        places,
        cells,
        out,
        at,
    )
}

/// `h3w_cellsToZonesPlaces` in a table that was written before, whatever it holds.
#[unsafe(no_mangle)]
pub extern "C" fn h3w_cellsToZonesPlacesInTable(
    zones: &[Cell],
    places: &[u32],
    cells: &[u64],
    table: &[u32],
    out: &mut [u64],
    at: &mut usize,
) -> u32
    requires { IsZones zones.now }
    ensures code { result ≡ places_code zones.now places.now cells.now (length out.old) }
    ensures values { out.new ≡ places_over zones.now places.now cells.now out.old }
    ensures place { at.new ≡ places_place zones.now places.now cells.now (length out.old) at.old }
{
    let tabled = TabledZones::over(&Zones::over(zones), table);
    fill_places(Lookup::InTable(tabled), places, cells, out, at)
}
