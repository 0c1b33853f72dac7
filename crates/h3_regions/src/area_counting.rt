//! Counts of cells by the areas that they lie in.

ghost use Rattle.std.specs.Prelude.{ℕ, ◌≡◌, ◌≢◌, ◌+◌, ◌-◌, ◌^◌, ◌<◌, ◌≤◌, ◌++◌, ◌∷◌, [], List, All, AllPairs, Contains, length, map, slice_index_or, sum};
ghost use Rattle.std.specs.List.{range_with_len};
ghost use Rattle.h3_index.specs.Cell.{Address};
ghost use Rattle.h3_regions.specs.AreaCounting.{AreAreaCounts, count_in_area, count_in_none};
ghost use Rattle.h3_regions.specs.AreaLaws.{AreaCountsInParts};

use crate::apart::ApartAreas;
use crate::areas::Areas;
use crate::counting::clear;
use h3_index::Cell;
use h3_set::laws::coverages_decide_lists;

/// Counts the cells of a list by their areas, of which no two overlap, and returns how many cells lie
/// in none; a cell that is listed twice counts twice. The count of an area is at the place that is its
/// number. So the counts and the result add up to the number of cells, and what is counted of the
/// parts of a list to what is counted of the whole.
///
/// Each area's number must be less than the number of counts; all counts are overwritten.
pub fn count_in_areas(areas: &ApartAreas, cells: &[Cell], counts: &mut [u64]) -> u64
    requires { All (λ p. p.1 < length counts.old) areas.now }
    ensures counts { counts.new
        ≡ map (count_in_area areas.now cells.now) (range_with_len 0 (length counts.old)) }
    ensures others { result ≡ count_in_none areas.now cells.now }
    ensures all { sum counts.new + result ≡ length cells.now }

    // A law, whatever the areas and the cells.
    ensures parts { AreaCountsInParts }
{
    coverages_decide_lists();
    clear(counts);
    let mut none: u64 = 0;
    let mut place: usize = 0;
    for cell in cells {
        match areas.area_near(*cell, &mut place) {
            Some(area) => counts[area as usize] += 1,
            None => none += 1,
        }
    }
    none
}

/// Counts one cell more, after those of a list: adds one to the count of its area, or returns one more
/// than `none` if it lies in none. So a list can be counted cell by cell, as it is read: from zeros, and
/// none.
///
/// Its area is looked for from a place on, which may be any, and which is then where the next cell may
/// be looked for, as by `ApartAreas::area_near`.
///
/// Each area's number must be less than the number of counts, and fewer cells counted than a `u64` can
/// say.
pub fn count_next_in_areas(
    areas: &ApartAreas,
    cell: Cell,
    counts: &mut [u64],
    none: u64,
    place: &mut usize,
) -> u64
    requires small { All (λ p. p.1 < length counts.old) areas.now }
    requires few { sum counts.old + none < 2 ^ 64 - 1 }
    ensures next { (cells : List Address) → AreAreaCounts areas.now cells counts.old none
        → AreAreaCounts areas.now (cells ++ cell ∷ []) counts.new result }
    ensures one { sum counts.new + result ≡ sum counts.old + none + 1 }
{
    coverages_decide_lists();
    match areas.area_near(cell, place) {
        Some(area) => {
            counts[area as usize] += 1;
            none
        }
        None => none + 1,
    }
}

/// Adds one to the count of each of some numbers.
fn add_each(numbers: &[u32], counts: &mut [u64])
    requires small { All (λ n. n < length counts.old) numbers.now }
    requires once { AllPairs (λ m n. m ≢ n) numbers.now }
    requires room { All (λ k. k < 2 ^ 64 - 1) counts.old }
    ensures more { (n : ℕ) → Contains numbers.now n
        → slice_index_or counts.new n 0 ≡ slice_index_or counts.old n 0 + 1 }
    ensures same { (n : ℕ) → (¬ Contains numbers.now n)
        → slice_index_or counts.new n 0 ≡ slice_index_or counts.old n 0 }
{
    for i in 0..numbers.len() {
        counts[numbers[i] as usize] += 1;
    }
}

/// Counts as `count_in_areas` does, with areas that may overlap: a cell counts in each area that it
/// lies in, so the counts may add up to more than the number of cells.
///
/// Each area's number must be less than the number of counts, and there must be at least as many
/// numbers as pairs. All counts are overwritten; the numbers are unspecified afterwards.
pub fn count_in_overlapping_areas(
    areas: &Areas,
    cells: &[Cell],
    numbers: &mut [u32],
    counts: &mut [u64],
) -> u64
    requires counts { All (λ p. p.1 < length counts.old) areas.now }
    requires numbers { length areas.now ≤ length numbers.old }
    ensures counts { counts.new
        ≡ map (count_in_area areas.now cells.now) (range_with_len 0 (length counts.old)) }
    ensures others { result ≡ count_in_none areas.now cells.now }

    // A law, whatever the areas and the cells.
    ensures parts { AreaCountsInParts }
{
    coverages_decide_lists();
    clear(counts);
    let mut none: u64 = 0;
    for cell in cells {
        let found = areas.areas_of(*cell, numbers);
        if found == 0 {
            none += 1;
        }
        add_each(&numbers[..found], counts);
    }
    none
}
