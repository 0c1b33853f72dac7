//! Laws of the hierarchy of cells. Each function does nothing; what it ensures is a law that holds
//! always, for the proofs of crates that call it.

ghost use Rattle.std.specs.Prelude.{◌≡◌};
ghost use Rattle.h3_tree.specs.Children.{children_left};
ghost use Rattle.h3_tree.specs.declared.iter.Children.{Children};
ghost use Rattle.h3_tree.specs.LastChild.{ChildrenFormRanges};
ghost use Rattle.h3_tree.specs.Laws.{CellsFormTrees};
ghost use Rattle.h3_tree.specs.PostOrder.{CellsFormIntervals};
ghost use Rattle.h3_tree.specs.SiblingGroups.{DescendantsAreChildren};

use crate::iter::Children;
use h3_index::laws::{cuts_are_cells, descendants_are_listed, paths_are_chains};

/// The cells of a base cell form a tree: of two ancestors of a cell one stands above the other,
/// there is one at each resolution up to the cell's own, and below a cell there are descendants at
/// each finer resolution, as listed.
pub fn cells_form_trees()
    ensures { CellsFormTrees }
{
    cuts_are_cells();
    descendants_are_listed();
    paths_are_chains();
}

/// In order of `post_order_key`, the cells below a cell, and the cell itself, are an interval that
/// ends at the cell. Among cells of one resolution that order is the order of the numbers.
pub fn cells_form_intervals()
    ensures { CellsFormIntervals }
{}

/// A cell's descendants at a resolution are the cells from its center child there to its last one,
/// by number, and no others: a search between these two numbers finds them.
pub fn children_form_ranges()
    ensures { ChildrenFormRanges }
{
    cells_form_trees();
}

/// A cell's descendants at a resolution are the children of those one level above, those of one
/// parent after those of another.
pub fn descendants_are_children()
    ensures { DescendantsAreChildren }
{}

/// A clone of `Children` is made, and has the same cells still to come.
pub fn clones_go_on()
    ensures same { (a b : Children) →
        ⟦<Children as Clone>⟧.is_clone a b → children_left b ≡ children_left a }
    ensures made { (a : Children) → ⟦<Children as Clone>⟧.is_infallible a }
{}
