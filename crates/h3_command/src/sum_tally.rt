//! Counts and sums of the cells of a list by the areas that they lie in, made as the list is read.

ghost use Rattle.std.specs.Prelude.{◌≡◌, ◌≢◌, ◌+◌, ◌^◌, ◌<◌, ◌≤◌, ◌++◌, ◌∷◌, [], ℕ, All, AllPairs, Contains, List, length, slice_index_or, take};
ghost use Rattle.h3_index.specs.Cell.{Address};
ghost use Rattle.h3_numbers.specs.Number.{number_units};
ghost use Rattle.h3_numbers.specs.Sum.{sum_count};
ghost use Rattle.h3_numbers.specs.declared.sum.Sum.{Sum};
ghost use Rattle.h3_regions.specs.Areas.{AreAreasOf};
ghost use Rattle.h3_command.specs.AreaSums.{Amount};
ghost use Rattle.h3_command.specs.SumTally.{AreAreaSums, IsOneMore};

use h3_index::Cell;
use h3_numbers::laws::totals_are_lawful;
use h3_numbers::{Number, Sum};
use h3_regions::laws::areas_are_lawful;
use h3_regions::{ApartAreas, Areas, TabledZones};

/// Areas in which cells are looked up, one after another.
pub(crate) trait FindAreas {
    /// The areas: a cell and the number of an area that has it, in each pair.
    ghost areas: { Self → List (Address × ℕ) };

    /// For how many numbers there has to be room.
    ghost room: { Self → ℕ };

    /// Writes the numbers of the areas that the cell lies in to the first places, and returns how many
    /// there are.
    fn find(&mut self, cell: Cell, numbers: &mut [u32]) -> usize
        requires { room self.old ≤ length numbers.old }
        ensures fewer { result ≤ length numbers.new }
        ensures are { AreAreasOf (areas self.old) cell (take result numbers.new) }
        ensures areas { areas self.new ≡ areas self.old }
        ensures room { room self.new ≡ room self.old };
}

/// Areas of which no two overlap. A cell's is looked for from where that of the last one was found, or by a table.
#[derive(Drop)]
pub(crate) struct Apart<'a> {
    pub(crate) areas: ApartAreas<'a>,
    pub(crate) tabled: TabledZones<'a>,
    pub(crate) place: usize,
}

impl<'a> FindAreas for Apart<'a> {
    ghost areas = { λ f. f.areas };

    ghost room = { λ f. 1 };

    fn find(&mut self, cell: Cell, numbers: &mut [u32]) -> usize {
        self.place = self.tabled.look_for(cell.raw(), self.place);
        match self.areas.area_near(cell, &mut self.place) {
            Some(number) => {
                numbers[0] = number;
                1
            }
            None => 0,
        }
    }
}

/// Areas that may overlap.
#[derive(Drop)]
pub(crate) struct Overlapping<'a> {
    pub(crate) areas: Areas<'a>,
}

impl<'a> FindAreas for Overlapping<'a> {
    ghost areas = { λ f. f.areas };

    ghost room = { λ f. length f.areas };

    fn find(&mut self, cell: Cell, numbers: &mut [u32]) -> usize {
        self.areas.areas_of(cell, numbers)
    }
}

/// Adds a number to the sums at some places, of which no two are equal.
fn add_to_each(places: &[u32], number: Number, sums: &mut [Sum])
    requires small { All (λ n. n < length sums.old) places.now }
    requires once { AllPairs (λ m n. m ≢ n) places.now }
    requires room { All (λ s. sum_count s < 2 ^ 63) sums.old }
    ensures more { (n : ℕ) (d : Sum) → Contains places.now n
        → IsOneMore number (slice_index_or sums.old n d) (slice_index_or sums.new n d) }
    ensures same { (n : ℕ) (d : Sum) → (¬ Contains places.now n)
        → slice_index_or sums.new n d ≡ slice_index_or sums.old n d }
{
    for i in 0..places.len() {
        let place = places[i] as usize;
        sums[place] = sums[place].plus(number);
    }
}

/// Adds a number to the sums of the areas that its cell lies in, or to that of none, if there are no such
/// areas.
///
/// `taken` is at least how many numbers were added before.
pub(crate) fn add_amount<F: FindAreas>(
    finder: &mut F,
    cell: Cell,
    number: Number,
    numbers: &mut [u32],
    sums: &mut [Sum],
    none: &mut Sum,
    taken: u64,
)
    requires room { F.room finder.old ≤ length numbers.old }
    requires small { All (λ p. p.1 < length sums.old) (F.areas finder.old) }
    requires taken { taken < 2 ^ 63 }
    requires few { All (λ s. sum_count s ≤ taken) sums.old }
    requires few_none { sum_count none.old ≤ taken }
    ensures areas { F.areas finder.new ≡ F.areas finder.old }
    ensures room { F.room finder.new ≡ F.room finder.old }
    ensures few { All (λ s. sum_count s ≤ taken + 1) sums.new }
    ensures few_none { sum_count none.new ≤ taken + 1 }
    ensures next { (amounts : List Amount) → AreAreaSums (F.areas finder.old) amounts sums.old none.old
        → AreAreaSums (F.areas finder.old) (amounts ++ (cell, number_units number) ∷ []) sums.new none.new }
{
    areas_are_lawful();
    totals_are_lawful();
    let found = finder.find(cell, &mut *numbers);
    add_to_each(&numbers[..found], number, sums);
    if found == 0 {
        *none = none.plus(number);
    }
}
