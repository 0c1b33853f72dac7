//! Areas that may overlap: each cell lies in any number of them.

ghost use Rattle.std.specs.Prelude.{ℕ, ◌≡◌, ◌+◌, ◌^◌, ◌≤◌, ◌<◌, ◌↔◌, All, AllPairs, Contains, IsPermutation, IsTrue, length, take};
ghost use Rattle.std.specs.List.{AllWithin};
ghost use Rattle.h3_index.specs.Cell.{Address, IsCell, number_of, resolution};
ghost use Rattle.h3_regions.specs.Areas.{AreAreasOf, areas_of};
ghost use Rattle.h3_regions.specs.Listed.{AreListed, AreStarts, IsFirstOf, IsStart, IsWritten, pair_number};

use crate::order::have_cells;
use crate::zones::HALVES;
use h3_index::Cell;
use h3_index::laws::numbers_are_unique;
use h3_set::laws::coverages_decide_lists;
use h3_tree::laws::{cells_form_intervals, cells_form_trees};
use std::marker::Model;

/// Shows that a number is one of a `u32`, for proofs. It has no effect.
fn is_small(_area: u32)
    ensures { _area < 2 ^ 32 }
{}

/// Shows that areas' numbers are those of a `u32`, for proofs. It has no effect.
fn are_small(pairs: &[(Cell, u32)])
    ensures { All (λ p. p.1 < 2 ^ 32) pairs.now }
{
    for i in 0..pairs.len() {
        is_small(pairs[i].1);
    }
}

/// The number by which pairs are put in order: the cell's in the upper bits, the area's in the lower.
fn pair_number(cell: Cell, area: u32) -> u128
    ensures { result ≡ pair_number (cell, area) }
{
    u128::from(cell.raw()) * 0x1_0000_0000 + u128::from(area)
}

/// Puts pairs in ascending order of their cells' numbers, and those of one cell in the order of
/// the areas.
fn put_by_number(pairs: &mut [(Cell, u32)])
    ensures same { IsPermutation pairs.old pairs.new }
    ensures in_order { AllPairs (λ p q. pair_number p ≤ pair_number q) pairs.new }
{
    pairs.sort_unstable_by_key(|p: &(Cell, u32)| pair_number(p.0, p.1));
}

/// How many resolutions there are.
const LEVELS: usize = 16;

/// Returns where the pairs of a resolution start: how many have cells of coarser ones. The count starts at
/// a place before which all have such cells.
fn start_of(pairs: &[(Cell, u32)], r: usize, from: usize) -> usize
    requires listed { AreListed pairs.now }
    requires within { from ≤ length pairs.now }
    requires before { AllWithin (λ p. resolution p.0 < r) pairs.now 0 from }
    ensures { IsStart pairs.now r result }
{
    cells_form_intervals();
    let mut place = from;
    while place < pairs.len() && usize::from(pairs[place].0.resolution()) < r {
        place += 1;
    }
    place
}

/// Returns where the pairs of each resolution start, and how many pairs there are.
fn starts_of(pairs: &[(Cell, u32)]) -> [usize; LEVELS + 1]
    requires listed { AreListed pairs.now }
    ensures { AreStarts pairs.now result }
{
    let mut starts = [0; LEVELS + 1];
    let mut place = 0;
    for r in 0..LEVELS + 1 {
        place = start_of(pairs, r, place);
        starts[r] = place;
    }
    starts
}

/// Lower bound of a cell's number among the pairs between two places, as `partition_point`.
fn first_between(pairs: &[(Cell, u32)], number: u64, from: usize, to: usize) -> usize
    requires listed { AreListed pairs.now }
    requires in_order { from ≤ to }
    requires within { to ≤ length pairs.now }
    requires before { AllWithin (λ p. number_of p.0 < number) pairs.now 0 from }
    requires after { AllWithin (λ p. number ≤ number_of p.0) pairs.now to (length pairs.now) }
    ensures first { IsFirstOf pairs.now number result }
    ensures low { from ≤ result }
    ensures high { result ≤ to }
{
    let mut first = from;
    let mut size = to - from;
    while size > 1 {
        let half = size / 2;
        let passed = usize::from(pairs[first + half].0.raw() < number);
        first += half * HALVES[passed];
        size -= half;
    }
    if size == 1 && pairs[first].0.raw() < number {
        first + 1
    } else {
        first
    }
}

/// Whether a number is among some.
fn has(numbers: &[u32], number: u32) -> bool
    ensures { IsTrue result ↔ Contains numbers.now number }
{
    numbers.contains(&number)
}

/// Writes, after the areas in which a cell lies by coarser cells, those that have its ancestor at a
/// resolution and are not among them. The pairs of the resolution are those between two places.
fn write_at(
    pairs: &[(Cell, u32)],
    cell: Cell,
    r: u8,
    from: usize,
    to: usize,
    written: usize,
    numbers: &mut [u32],
) -> usize
    requires listed { AreListed pairs.now }
    requires valid { IsCell cell }
    requires coarse { r ≤ resolution cell }
    requires in_order { from ≤ to }
    requires end { IsStart pairs.now (r + 1) to }
    requires written { IsWritten pairs.now cell r from written numbers.old }
    ensures { IsWritten pairs.now cell (r + 1) to result numbers.new }
{
    numbers_are_unique();
    cells_form_trees();
    cells_form_intervals();
    coverages_decide_lists();
    let ancestor = cell.ancestor_at(r);
    let number = ancestor.raw();
    let mut place = first_between(pairs, number, from, to);
    let mut count = written;
    while place < to && pairs[place].0.raw() == number {
        let area = pairs[place].1;
        if !has(&numbers[..count], area) {
            numbers[count] = area;
            count += 1;
        }
        place += 1;
    }
    count
}

/// Writes the areas in which a cell lies, in their order, resolution by resolution. Resolutions of which
/// there are no pairs are skipped.
fn write_all(
    pairs: &[(Cell, u32)],
    starts: &[usize; LEVELS + 1],
    cell: Cell,
    numbers: &mut [u32],
) -> usize
    requires listed { AreListed pairs.now }
    requires starts { AreStarts pairs.now starts.now }
    requires valid { IsCell cell }
    requires room { length pairs.now ≤ length numbers.old }
    ensures fewer { result ≤ length numbers.new }
    ensures are { AreAreasOf pairs.now cell (take result numbers.new) }
{
    cells_form_trees();
    let mut written = 0;
    for r in 0..cell.resolution() + 1 {
        let from = starts[usize::from(r)];
        let to = starts[usize::from(r) + 1];
        if from < to {
            written = write_at(pairs, cell, r, from, to, written, numbers);
        }
    }
    written
}

/// Areas by number, which may overlap, in caller-provided memory. Contracts see the list of pairs of a
/// cell and an area's number.
#[derive(Debug, Drop)]
pub struct Areas<'a> {
    pairs: &'a [(Cell, u32)],
    starts: [usize; LEVELS + 1],
}

impl<'a> Model for Areas<'a> {
    ghost use Rattle.std.specs.Prelude.{ℕ, List};
    ghost use Rattle.h3_index.specs.Cell.{Address};
    ghost use Rattle.h3_regions.specs.Listed.{AreListed, AreStarts};

    ghost Value = { List (Address × ℕ) };

    ghost view = { λ a. a.pairs.now };

    ghost invariant = { λ a. AreListed a.pairs.now × AreStarts a.pairs.now a.starts };
}

impl<'a> Areas<'a> {
    /// Makes areas of pairs, each a cell and the number of an area that has it. A cell may be in any
    /// number of areas, and repeat, and the cells of an area may overlap. The pairs are reordered.
    ///
    /// # Examples
    ///
    /// ```
    /// use h3_index::Cell;
    /// use h3_regions::Areas;
    ///
    /// /// How many of three areas a point lies in.
    /// fn depth_of(areas: [Cell; 3], point: Cell) -> usize {
    ///     let mut pairs = [(areas[0], 0), (areas[1], 1), (areas[2], 2)];
    ///     let areas = Areas::of(&mut pairs);
    ///     let mut numbers = [0; 3];
    ///     areas.areas_of(point, &mut numbers)
    /// }
    /// ```
    pub fn of(pairs: &'a mut [(Cell, u32)]) -> Areas<'a>
        ensures same { IsPermutation pairs.old result }
        ensures size { length result ≡ length pairs.old }
        ensures numbers { (k : ℕ) → All (λ p. p.1 < k) pairs.old → All (λ p. p.1 < k) result }
    {
        have_cells(pairs);
        are_small(pairs);
        put_by_number(pairs);
        let starts = starts_of(pairs);
        Areas { pairs, starts }
    }

    /// Writes the numbers of the areas that the cell lies in to the first places, each once, and
    /// returns how many there are. They are in the order of the resolution of each area's coarsest
    /// cell that is the cell or an ancestor of it, and by number if these are the same.
    ///
    /// There must be at least as many places as pairs; the others are unspecified afterwards. The time
    /// grows with the square of the number of areas that the cell lies in.
    pub fn areas_of(&self, cell: Cell, numbers: &mut [u32]) -> usize
        requires { length self.now ≤ length numbers.old }
        ensures fewer { result ≤ length numbers.new }
        ensures are { AreAreasOf self.now cell (take result numbers.new) }
        ensures is { take result numbers.new ≡ areas_of self.now cell }
    {
        cells_form_trees();
        coverages_decide_lists();
        let _number = cell.raw();
        write_all(self.pairs, &self.starts, cell, numbers)
    }
}
