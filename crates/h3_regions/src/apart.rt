//! Areas of which no two overlap: each cell lies in one at most.

ghost use Rattle.std.specs.Prelude.{ℕ, ◌≡◌, ◌≤◌, ◌<◌, ◌↔◌, All, AllPairs, IfErr, IfNone, IfOk, IfSome, IsPermutation, Some, drop, length, map};
ghost use Rattle.std.specs.Option.{option_map, option_to_list};
ghost use Rattle.std.specs.Result.{result_err};
ghost use Rattle.h3_index.specs.Cell.{Address, IsCell};
ghost use Rattle.h3_tree.specs.PostOrder.{post_order_key};
ghost use Rattle.h3_regions.specs.Apart.{AreOuter};
ghost use Rattle.h3_regions.specs.Areas.{AreAlike, AreApart, areas_of, AreChosen, LiesIn};
ghost use Rattle.h3_regions.specs.Refusals.{areas_refusal};
ghost use Rattle.h3_regions.specs.Zones.{IsZones};

use crate::order::{have_cells, is_below, put_pairs_in_order};
use crate::zones::Zones;
use h3_index::{Cell, H3Error};
use h3_set::laws::coverages_decide_lists;
use h3_tree::laws::{cells_form_intervals, cells_form_trees};
use h3_tree::post_order_key;
use std::marker::Model;

/// Moves the pairs with the outermost cells to the end, in order: those whose cells are below no
/// other of the same area, each cell once. Returns the place of the first one, or `None` if two areas
/// overlap.
fn keep_outermost(pairs: &mut [(Cell, u32)]) -> Option<usize>
    requires valid { All (λ p. IsCell p.0) pairs.old }
    requires in_order { AllPairs (λ p q. post_order_key p.0 ≤ post_order_key q.0) pairs.old }
    ensures same { IsPermutation pairs.old pairs.new }
    ensures refused { IfNone result (¬ AreApart pairs.old) }
    ensures apart { IfSome result (λ _. AreApart pairs.old) }
    ensures within { IfSome result (λ w. w ≤ length pairs.new) }
    ensures outer { IfSome result (λ w. AreOuter (drop w pairs.new)) }
    ensures alike { IfSome result (λ w. AreAlike (drop w pairs.new) pairs.old) }
{
    cells_form_trees();
    cells_form_intervals();
    let mut top = pairs.len();
    let mut i = pairs.len();
    while i > 0 {
        i -= 1;
        let pair = pairs[i];
        if top < pairs.len() && is_below(pair.0, pairs[top].0) {
            if pair.1 != pairs[top].1 {
                return None;
            }
        } else {
            top -= 1;
            pairs.swap(i, top);
        }
    }
    Some(top)
}

/// Orders pairs so that an area can be looked up: the pairs from the place on that is returned say in
/// which area a cell lies, each with a cell of its area that is below no other, each cell once. The
/// pairs stay the same, in some order, also after an error.
///
/// # Errors
///
/// `DuplicateInput` if two areas overlap: a cell of one is a cell of the other, or an ancestor or
/// descendant of one.
fn order_areas(pairs: &mut [(Cell, u32)]) -> Result<usize, H3Error>
    ensures refused { result_err result ≡ areas_refusal pairs.old }
    ensures same { IsPermutation pairs.old pairs.new }
    ensures apart { IfOk result (λ _. AreApart pairs.old) }
    ensures within { IfOk result (λ w. w ≤ length pairs.new) }
    ensures outer { IfOk result (λ w. AreOuter (drop w pairs.new)) }
    ensures alike { IfOk result (λ w. AreAlike (drop w pairs.new) pairs.old) }
{
    coverages_decide_lists();
    have_cells(pairs);
    put_pairs_in_order(pairs);
    match keep_outermost(pairs) {
        Some(place) => Ok(place),
        None => Err(H3Error::DuplicateInput),
    }
}

/// Areas of which two overlap, given back, and the error.
#[derive(Debug, Drop)]
pub struct RefusedAreas<'a> {
    pub error: H3Error,
    pub pairs: &'a mut [(Cell, u32)],
}

/// Areas by number, of which no two overlap, in caller-provided memory. The area that a cell lies in
/// is found as the zone of a cell is, by [`Zones`](crate::Zones): in as many steps as the number of
/// cells has bits, or one more. Contracts see the list of pairs of a cell and an area's number that
/// are left when cells below others of the same area are dropped, and all but one of the same cells.
#[derive(Debug, Drop)]
pub struct ApartAreas<'a> {
    pairs: &'a [(Cell, u32)],
    cells: &'a [Cell],
}

impl<'a> Model for ApartAreas<'a> {
    ghost use Rattle.std.specs.Prelude.{ℕ, List};
    ghost use Rattle.h3_index.specs.Cell.{Address};
    ghost use Rattle.h3_regions.specs.Apart.{IsApartTable};

    ghost Value = { List (Address × ℕ) };

    ghost view = { λ a. a.pairs.now };

    ghost invariant = { λ a. IsApartTable a.pairs.now a.cells.now };
}

/// Writes the cells of pairs into as many places.
fn write_cells(pairs: &[(Cell, u32)], cells: &mut [Cell])
    requires { length pairs.now ≡ length cells.old }
    ensures { cells.new ≡ map (λ p. p.0) pairs.now }
{
    for i in 0..pairs.len() {
        cells[i] = pairs[i].0;
    }
}

impl<'a> ApartAreas<'a> {
    /// Makes areas of pairs, each a cell and the number of the area that has it. A cell may repeat,
    /// and the cells of one area may overlap; they may be of any resolutions.
    ///
    /// There must be at least as many slots as pairs; they are overwritten. The pairs are reordered.
    ///
    /// # Errors
    ///
    /// `DuplicateInput` if two areas overlap: a cell of one is a cell of the other, or an ancestor or
    /// descendant of one. The error gives the pairs back: the same ones, in some order.
    ///
    /// # Examples
    ///
    /// ```
    /// use h3_index::Cell;
    /// use h3_regions::ApartAreas;
    ///
    /// fn area_of(north: Cell, south: Cell, point: Cell) -> Option<u32> {
    ///     let mut pairs = [(north, 0), (south, 1)];
    ///     let mut slots = [north; 2];
    ///     match ApartAreas::of(&mut pairs, &mut slots) {
    ///         Ok(areas) => areas.area_of(point),
    ///         Err(_) => None,
    ///     }
    /// }
    /// ```
    pub fn of(
        pairs: &'a mut [(Cell, u32)],
        slots: &'a mut [Cell],
    ) -> Result<ApartAreas<'a>, RefusedAreas<'a>>
        requires { length pairs.old ≤ length slots.old }
        ensures refused { option_map (λ r. r.error) (result_err result) ≡ areas_refusal pairs.old }
        ensures same { IfErr result (λ r. IsPermutation pairs.old r.pairs.now) }
        ensures back { IfErr result (λ r. r.pairs.ghost_name ≡ pairs.entry.ghost_name) }
        ensures alike { IfOk result (λ areas. AreAlike areas pairs.old) }
        ensures apart { IfOk result AreApart }
        ensures chosen { IfOk result (λ areas. AreChosen areas pairs.old) }
        ensures numbers { (k : ℕ) → All (λ p. p.1 < k) pairs.old
            → IfOk result (λ areas. All (λ p. p.1 < k) areas) }
        ensures fewer { IfOk result (λ areas. length areas ≤ length pairs.old) }
    {
        match order_areas(pairs) {
            Ok(place) => {
                let all: &'a [(Cell, u32)] = pairs;
                let chosen = &all[place..];
                let cells = &mut slots[..chosen.len()];
                write_cells(chosen, cells);
                Ok(ApartAreas {
                    pairs: chosen,
                    cells,
                })
            }
            Err(error) => Err(RefusedAreas { error, pairs }),
        }
    }

    /// Returns the pairs by which areas are looked up, in post order: those whose cells are below no
    /// other cell of the same area, each cell once.
    pub fn pairs(&self) -> &'a [(Cell, u32)]
        ensures { result.now ≡ self.now }
    {
        self.pairs
    }

    /// Returns the cells of these pairs, which are zones.
    pub fn cells(&self) -> &'a [Cell]
        ensures is { result.now ≡ map (λ p. p.0) self.now }
        ensures zones { IsZones result.now }
    {
        self.cells
    }

    /// Returns the number of the area that the cell lies in, as `area_of` does. The search starts at a
    /// place, which may be any, and which is then where the search for the next cell may start, as
    /// with `Zones::zone_near`. So cells in ascending order are each found from where the one before
    /// was.
    #[inline(always)]
    pub fn area_near(&self, cell: Cell, place: &mut usize) -> Option<u32>
        ensures lies { IfSome result (LiesIn self.now cell) }
        ensures one { (n : ℕ) → LiesIn self.now cell n → result ≡ Some n }
        ensures is { areas_of self.now cell ≡ option_to_list result }
    {
        cells_form_trees();
        coverages_decide_lists();
        let _number = cell.raw();
        match Zones::over(self.cells).zone_near(cell, place) {
            Some(_) => Some(self.pairs[*place].1),
            None => None,
        }
    }

    /// Returns the number of the area that the cell lies in: the one that has the cell or an ancestor
    /// of it; `None` if there is none.
    pub fn area_of(&self, cell: Cell) -> Option<u32>
        ensures lies { IfSome result (LiesIn self.now cell) }
        ensures one { (n : ℕ) → LiesIn self.now cell n → result ≡ Some n }
        ensures is { areas_of self.now cell ≡ option_to_list result }
    {
        let mut place = 0;
        self.area_near(cell, &mut place)
    }
}
