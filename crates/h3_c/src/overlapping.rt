//! Areas that may overlap, given with each call, and the areas of the cells of a column: one cell's
//! after another's, and the places where each one's begin.

ghost use Rattle.std.specs.Prelude.{◌≡◌, ◌≢◌, ◌<◌, ◌≤◌, ◌⊎◌, ◌^◌, suc, length, take};
ghost use Rattle.h3_c.specs.Lists.{laid_over};
ghost use Rattle.h3_c.specs.Overlapping.{AreasStandAtStarts, NumbersAfter, all_areas, area_counts, area_starts, cell_to_areas, cells_to_areas_code, cells_to_areas_over, cells_to_areas_place, cells_to_areas_starts};
ghost use Rattle.h3_c.specs.Starts.{fitting, greatest_place, lists_code, lists_place, sizes_of, starts_over};

use crate::areas::pairs_of;
use crate::column::MEMORY_BOUNDS;
use crate::sets::cells_in;
use crate::zones::judge;
use h3_functions::cell_from;
use h3_index::H3Error;
use h3_regions::Areas;
use h3_regions::laws::areas_are_lawful;
use std::alloc::Global;

/// The greatest place, which an `int64_t` still holds.
const GREATEST_PLACE: usize = 9_223_372_036_854_775_807;

/// Shows that slots have places up to `GREATEST_PLACE`, for proofs. It has no effect.
fn are_few(_slots: &[u32])
    ensures { length _slots.now ≤ greatest_place }
{}

/// Puts numbers into the slots from a place on, as far as they go.
fn put_numbers_from(out: &mut [u32], place: usize, numbers: &[u32])
    requires { place < 2 ^ 63 }
    ensures { NumbersAfter place numbers.now out.old out.new }
{
    for i in 0..numbers.len() {
        if place + i >= out.len() {
            return;
        }
        out[place + i] = numbers[i];
    }
}

/// Puts the areas in which the cell with an index lies into the first slots, and returns how many they
/// are; none if it is no cell's.
fn areas_of_index(areas: &Areas, index: u64, found: &mut [u32]) -> usize
    requires { length areas.now ≤ length found.old }
    ensures fewer { result ≤ length found.new }
    ensures are { take result found.new ≡ cell_to_areas areas.now index }
{
    match cell_from(index) {
        Ok(cell) => areas.areas_of(cell, found),
        Err(_) => 0,
    }
}

/// Puts the areas of each index, one index's after another's, into the first slots, as far as they go,
/// and the places where they begin, and where the last one's end, up to `GREATEST_PLACE`. Returns of how
/// many indexes, from the first one on, all have room.
fn put_all_areas(
    areas: &Areas,
    indexes: &[u64],
    found: &mut [u32],
    starts: &mut [u64],
    numbers: &mut [u32],
) -> usize
    requires slots { length areas.now ≤ length found.old }
    requires room { length indexes.now < length starts.old }
    ensures fitting { result ≡ fitting (length numbers.old) (sizes_of (area_counts areas.now indexes.now)) }
    ensures starts { starts.new ≡ laid_over
        (take (suc (fitting greatest_place (sizes_of (area_counts areas.now indexes.now))))
        (area_starts areas.now indexes.now)) starts.old }
    ensures numbers { numbers.new ≡ laid_over (all_areas areas.now indexes.now) numbers.old }
{
    are_few(numbers);
    let mut fitting: usize = 0;
    let mut end: usize = 0;
    starts[0] = 0;
    for i in 0..indexes.len() {
        let size = areas_of_index(areas, indexes[i], found);
        put_numbers_from(numbers, end, &found[..size]);
        if size > GREATEST_PLACE - end {
            return fitting;
        }
        end += size;
        fitting += usize::from(end <= numbers.len());
        starts[i + 1] = end as u64;
    }
    fitting
}

/// [`put_all_areas`], and whether there is an error. Returns `MEMORY_BOUNDS` and puts the place of the
/// first index whose areas do not all have room at `at`; or the number of the first error, and its place;
/// or 0, and how many indexes there are.
fn fill_areas(
    areas: &Areas,
    indexes: &[u64],
    found: &mut [u32],
    starts: &mut [u64],
    numbers: &mut [u32],
    at: &mut usize,
) -> u32
    requires slots { length areas.now ≤ length found.old }
    requires room { length indexes.now < length starts.old }
    ensures code { result ≡ lists_code (area_counts areas.now indexes.now) (length numbers.old) }
    ensures starts { starts.new ≡ starts_over (area_counts areas.now indexes.now) starts.old }
    ensures numbers { numbers.new ≡ laid_over (all_areas areas.now indexes.now) numbers.old }
    ensures place { at.new ≡ lists_place (area_counts areas.now indexes.now) (length numbers.old) }
    ensures memory { result ≢ 13 }
{
    let fitting = put_all_areas(areas, indexes, found, starts, numbers);
    if fitting < indexes.len() {
        *at = fitting;
        return MEMORY_BOUNDS;
    }
    judge(indexes, at)
}

/// The areas in which each cell lies, one cell's after another's, and the places where they begin. The
/// areas are given by their cells, and a number for each.
#[unsafe(no_mangle)]
pub extern "C" fn h3w_cellsToAreas(
    alloc: Global,
    area_cells: &[u64],
    areas: &[u32],
    cells: &[u64],
    starts: &mut [u64],
    numbers: &mut [u32],
    at: &mut usize,
) -> u32
    ensures code { ((result ≡ 13) × (length area_cells.now ≤ length areas.now) × (length cells.now < length starts.old))
        ⊎ (result ≡ cells_to_areas_code area_cells.now areas.now cells.now
        (length starts.old) (length numbers.old)) }
    ensures starts { result ≢ 13 → starts.new
        ≡ cells_to_areas_starts area_cells.now areas.now cells.now starts.old }
    ensures numbers { result ≢ 13 → numbers.new
        ≡ cells_to_areas_over area_cells.now areas.now cells.now (length starts.old) numbers.old }
    ensures place { result ≢ 13 → at.new
        ≡ cells_to_areas_place area_cells.now areas.now cells.now
        (length starts.old) (length numbers.old) at.old }
    ensures kept { result ≡ 13 → (starts.new ≡ starts.old) × (numbers.new ≡ numbers.old) × (at.new ≡ at.old) }
    ensures law { AreasStandAtStarts }
{
    areas_are_lawful();
    if areas.len() < area_cells.len() || starts.len() <= cells.len() {
        return MEMORY_BOUNDS;
    }
    let given = match cells_in(alloc, area_cells) {
        Ok(given) => given,
        Err(error) => return u32::from(error.number()),
    };
    let mut pairs = match pairs_of(alloc, &given, areas) {
        Ok(pairs) => pairs,
        Err(error) => return u32::from(error.number()),
    };
    let mut found = match areas.to_vec(alloc) {
        Ok(found) => found,
        Err(_) => return u32::from(H3Error::MemoryAlloc.number()),
    };
    fill_areas(
        &Areas::of(&mut pairs),
        cells,
        &mut found,
        starts,
        numbers,
        at,
    )
}
