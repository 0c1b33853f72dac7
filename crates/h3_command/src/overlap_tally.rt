//! Counts of the cells of a list by areas that may overlap, made as the list is read.

ghost use Rattle.std.specs.Prelude.{◌≡◌, ◌≢◌, ◌+◌, ◌^◌, ◌<◌, ◌≤◌, ◌++◌, ◌∷◌, [], ℕ, All, AllPairs, Contains, List, length, slice_index_or};
ghost use Rattle.std.proofs.Common.{◌∙◌, refl};
ghost use Rattle.h3_index.specs.Cell.{Address};
ghost use Rattle.h3_command.specs.OverlapTally.{AreCountsByAreas, CountsByAreasMore, by_areas_none, by_areas_then};

use h3_index::Cell;
use h3_lines::{CellJob, Fault};
use h3_regions::Areas;
use h3_regions::laws::areas_are_lawful;

/// Adds one to the counts at some places, of which no two are equal.
fn add_one_to_each(places: &[u32], counts: &mut [u64])
    requires small { All (λ n. n < length counts.old) places.now }
    requires once { AllPairs (λ m n. m ≢ n) places.now }
    requires room { All (λ k. k < 2 ^ 63) counts.old }
    ensures more { (n d : ℕ) → Contains places.now n
        → slice_index_or counts.new n d ≡ slice_index_or counts.old n d + 1 }
    ensures same { (n d : ℕ) → (¬ Contains places.now n)
        → slice_index_or counts.new n d ≡ slice_index_or counts.old n d }
{
    for i in 0..places.len() {
        let place = places[i] as usize;
        counts[place] += 1;
    }
}

/// Counts a cell in each of the areas that it lies in, or returns one more than `none`, if there are no such
/// areas.
///
/// `taken` is at least how many cells were counted before.
fn count_cell(
    areas: &Areas,
    cell: Cell,
    numbers: &mut [u32],
    counts: &mut [u64],
    none: u64,
    taken: u64,
) -> u64
    requires room { length areas.now ≤ length numbers.old }
    requires small { All (λ p. p.1 < length counts.old) areas.now }
    requires taken { taken < 2 ^ 63 }
    requires few { All (λ k. k ≤ taken) counts.old }
    requires few_none { none ≤ taken }
    ensures few { All (λ k. k ≤ taken + 1) counts.new }
    ensures few_none { result ≤ taken + 1 }
    ensures next { (cells : List Address) → AreCountsByAreas areas.now cells counts.old none
        → AreCountsByAreas areas.now (cells ++ cell ∷ []) counts.new result }
{
    areas_are_lawful();
    let found = areas.areas_of(cell, &mut *numbers);
    add_one_to_each(&numbers[..found], counts);
    if found == 0 { none + 1 } else { none }
}

/// How many of the cells taken so far lie in each area, of areas that may overlap, and how many in none.
#[derive(Drop)]
pub(crate) struct OverlapTally<'a> {
    pub(crate) areas: Areas<'a>,
    pub(crate) numbers: Vec<u32>,
    pub(crate) counts: Vec<u64>,
    pub(crate) none: u64,
    pub(crate) taken: u64,
    ghost room: { length areas ≤ length numbers.items },
    ghost small: { All (λ p. p.1 < length counts.items) areas },
    ghost few: { All (λ k. k ≤ taken) counts.items },
    ghost few_none: { none ≤ taken },
}

impl<'a> CellJob for OverlapTally<'a> {
    ghost count = { λ t. t.taken };

    ghost taken = { λ t cells u. (u.areas ≡ t.areas) ×
        CountsByAreasMore t.areas t.counts.items t.none cells u.counts.items u.none };

    fn take(&mut self, cell: Cell, _place: Option<usize>) -> Result<(), Fault> {
        self.none = count_cell(
            &self.areas,
            cell,
            &mut self.numbers,
            &mut self.counts,
            self.none,
            self.taken,
        );
        self.taken += 1;
        Ok(())
    }

    ghost none_taken = { λ t. (refl, by_areas_none t.areas t.counts.items t.none) };

    ghost taken_then = { λ t u v xs ys p q. (
      q.0 ∙ p.0,
      by_areas_then t.areas u.areas _ _ _ _ _ _ xs ys p.0 p.1 q.1,
    ) };
}
