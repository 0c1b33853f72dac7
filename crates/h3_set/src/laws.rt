//! Laws of compactions and uncompactions. Each function does nothing; what it ensures is a law that
//! holds always.

ghost use Rattle.std.specs.Prelude.{◌≡◌};
ghost use Rattle.h3_set.specs.Laws.{AncestorsAreFound, ApartInAnyOrder, CompactedListsAreCompacted, CompactedListsAreTheOnlyOnes, CompactedListsAreUnique, CompactedListsCoverAlike, CompactedListsCoverOnce, CompactedListsHoldTheTops, CoveragesDecideLists, ListsCompactInParts, OneResolutionCoversItself, OneResolutionIsApart, OverlapsAreFound, ReducedListsAreCompacted, ReducedListsAreReordered};
ghost use Rattle.h3_set.specs.Iter.{cells_left};
ghost use Rattle.h3_set.specs.declared.iter.Uncompact.{Uncompact};
ghost use Rattle.h3_set.specs.declared.rounds.Compaction.{Compaction};

use crate::iter::Uncompact;
use crate::rounds::Compaction;
use h3_index::laws::cells_are_listed;
use h3_tree::laws::cells_form_trees;

/// A clone of an `Uncompact` is made, and has the same cells still to come; one of a `Compaction`
/// is made, and is equal to it.
pub fn clones_go_on<'a>()
    ensures uncompact { (a b : Uncompact) →
        ⟦<Uncompact<'a> as Clone>⟧.is_clone a b → cells_left b ≡ cells_left a }
    ensures uncompact_made { (a : Uncompact) → ⟦<Uncompact<'a> as Clone>⟧.is_infallible a }
    ensures compaction { (a b : Compaction) → ⟦<Compaction as Clone>⟧.is_clone a b → b ≡ a }
    ensures compaction_made { (a : Compaction) → ⟦<Compaction as Clone>⟧.is_infallible a }
{}

/// What the compacted list of cells is: the one compacted list of what they cover, with the top
/// cells of that; below it each cell covered stands once. Cells of one resolution cover themselves,
/// and overlap only where one is listed twice.
pub fn compacted_lists_are_unique()
    ensures unique { CompactedListsAreUnique }
    ensures only { CompactedListsAreTheOnlyOnes }
    ensures tops { CompactedListsHoldTheTops }
    ensures stream { CompactedListsCoverOnce }
    ensures covered { OneResolutionCoversItself }
    ensures repeats { OneResolutionIsApart }
{
    cells_form_trees();
    cells_are_listed();
}

/// Any list of cells has a compacted list, which covers the same; lists that cover the same have the
/// same one. Overlaps are found, whatever the order of the cells, and a list may be compacted in
/// parts.
pub fn coverages_decide_lists()
    ensures compacted { CompactedListsAreCompacted }
    ensures alike { CompactedListsCoverAlike }
    ensures decide { CoveragesDecideLists }
    ensures overlaps { OverlapsAreFound }
    ensures reordered { ApartInAnyOrder }
    ensures ancestors { AncestorsAreFound }
    ensures reduced { ReducedListsAreCompacted }
    ensures another_order { ReducedListsAreReordered }
    ensures parts { ListsCompactInParts }
{
    cells_form_trees();
    cells_are_listed();
}
