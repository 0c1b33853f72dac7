//! Compaction in rounds, in slots that the caller provides at each call.

ghost use Rattle.std.specs.Prelude.{◌≡◌, ◌≢◌, ◌<◌, ◌≤◌, ◌↔◌, length, take, drop, AllPairs, Contains, IfOk, IsPermutation};
ghost use Rattle.std.specs.Result.{result_err};
ghost use Rattle.h3_index.specs.Cell.{Address, number_of};
ghost use Rattle.h3_set.specs.Compaction.{level_of, slots_in_use, IsNextLevel, IsStarted};
ghost use Rattle.h3_set.specs.Coverage.{IsApart};
ghost use Rattle.h3_set.specs.Laws.{RoundsReachTheTop};
ghost use Rattle.h3_set.specs.Refusals.{compaction_refusal};
ghost use Rattle.h3_set.specs.Rounds.{InRound};

use crate::merge::merge;
use crate::order::sort_and_find_overlap;
use crate::survey::survey;
use h3_index::{Cell, H3Error};
use h3_tree::laws::cells_form_trees;

/// H3's `compactCells` in rounds, each of which replaces the complete sets of siblings of one
/// resolution by their parents, from the finest resolution up. It holds how many of the slots are
/// in use, which are the first ones, and the resolution of the next round; the caller provides the
/// slots at each call.
#[derive(Clone, Copy, Debug)]
pub struct Compaction {
    len: usize,
    level: u8,
}

impl Compaction {
    /// Puts the cells, of any resolutions, into the first slots. There must be at least as many
    /// slots as cells, n; the slots after the first n stay as they are.
    ///
    /// # Errors
    ///
    /// `DuplicateInput` if cells at two places overlap: a cell is listed twice, or together with an
    /// ancestor of it. The first n slots then hold the cells in some order.
    pub fn start(cells: &[Cell], slots: &mut [Cell]) -> Result<Compaction, H3Error>
        requires { length cells.now ≤ length slots.old }
        ensures refused { result_err result ≡ compaction_refusal cells.now }
        ensures input { IsPermutation cells.now (take (length cells.now) slots.new) }
        ensures others { drop (length cells.now) slots.new ≡ drop (length cells.now) slots.old }

        ensures started { IfOk result (IsStarted cells.now slots.new) }

        // At level 0, where no round is left, these are the top cells.
        ensures last { RoundsReachTheTop }
    {
        cells_form_trees();
        let count = cells.len();
        slots[..count].copy_from_slice(cells);
        Compaction::start_in_place(&mut slots[..count])
    }

    /// As `start`, where the cells are in the slots already.
    fn start_in_place(cells: &mut [Cell]) -> Result<Compaction, H3Error>
        ensures refused { result_err result ≡ compaction_refusal cells.old }
        ensures input { IsPermutation cells.old cells.new }
        ensures started { IfOk result (IsStarted cells.old cells.new) }
    {
        cells_form_trees();
        let (level, rises) = survey(cells);
        if sort_and_find_overlap(cells, rises) {
            return Err(H3Error::DuplicateInput);
        }
        let len = cells.len();
        Ok(Compaction { len, level })
    }

    /// The resolution of the next round, or 0 where there is none.
    pub fn level(self) -> u8
        ensures { result ≡ level_of self }
    {
        self.level
    }

    /// How many slots are in use: the first ones.
    pub fn len(self) -> usize
        ensures { result ≡ slots_in_use self }
    {
        self.len
    }

    /// Replaces each complete set of siblings of this round's resolution by the parent; all other
    /// cells stay, in some order. The level falls by one, and no more slots are in use than before;
    /// those that were not in use stay as they are.
    ///
    /// The level must not be 0, there must be at least as many slots as are in use, and no cells at
    /// two of these may overlap, as `start` and `round` leave them.
    pub fn round(self, slots: &mut [Cell]) -> Compaction
        requires some_level { 0 < level_of self }
        requires room { slots_in_use self ≤ length slots.old }
        requires apart { IsApart (take (slots_in_use self) slots.old) }
        ensures next { IsNextLevel self slots.old result slots.new }
        ensures members { (x : Address) → Contains (take (slots_in_use result) slots.new) x
            ↔ InRound (Contains (take (slots_in_use self) slots.old)) (level_of self) x }
        ensures once { AllPairs (λ a b. a ≢ b) (take (slots_in_use result) slots.new) }
        ensures last { RoundsReachTheTop }
    {
        cells_form_trees();
        let len = merge(&mut slots[..self.len], self.level);
        Compaction {
            len,
            level: self.level - 1,
        }
    }

    /// Puts the slots in use into ascending order, whatever the level, and returns how many they
    /// are. There must be at least as many slots; the others stay as they are.
    pub fn finish(self, slots: &mut [Cell]) -> usize
        requires { slots_in_use self ≤ length slots.old }
        ensures count { result ≡ slots_in_use self }
        ensures same { IsPermutation (take (slots_in_use self) slots.old)
            (take (slots_in_use self) slots.new) }
        ensures ascending { AllPairs (λ a b. number_of a ≤ number_of b)
            (take (slots_in_use self) slots.new) }
        ensures others { drop (slots_in_use self) slots.new ≡ drop (slots_in_use self) slots.old }
    {
        let count = self.len;
        slots[..count].sort_unstable();
        count
    }
}
