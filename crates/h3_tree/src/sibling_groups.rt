//! The iterator over the descendants of a cell that takes those of one parent at a time.

ghost use Rattle.std.specs.Prelude.{◌≡◌, ◌<◌, ◌≤◌, ◌-◌, All};
ghost use Rattle.std.specs.Iterator.{YieldsFirst, item_count};
ghost use Rattle.std.specs.List.{flat_map};
ghost use Rattle.h3_index.specs.Cell.{resolution};
ghost use Rattle.h3_index.specs.Descendants.{children, descendants};
ghost use Rattle.h3_tree.specs.Children.{children_left};

use crate::descendants::children_at;
use crate::iter::Children;
use h3_index::{Cell, Siblings};

/// The descendants of a cell at one resolution, in ascending order, those of one parent together.
/// It holds the parents that are still to come.
#[derive(Debug, Drop)]
pub struct SiblingGroups {
    parents: Children,
    ghost coarse: { All (λ c. resolution c < 15) (children_left parents) },
}

impl SiblingGroups {
    ghost use Rattle.h3_tree.specs.SiblingGroups.{parents_left};

    /// All descendants of a cell at a resolution finer than its own.
    pub(crate) fn below(cell: Cell, r: u8) -> SiblingGroups
        requires finer { resolution cell < r }
        requires at_most_fifteen { r ≤ 15 }
        ensures parents { parents_left result ≡ descendants cell (r - 1) }
        ensures list { flat_map children (parents_left result) ≡ descendants cell r }
    {
        SiblingGroups {
            parents: children_at(cell, r - 1),
        }
    }
}

impl Iterator for SiblingGroups {
    ghost use Rattle.h3_tree.specs.SiblingGroups.{parents_left};

    type Item = Siblings;

    ghost next_gives = { YieldsFirst parents_left };

    ghost remaining = { item_count parents_left };

    #[inline(always)]
    fn next(&mut self) -> Option<Siblings> {
        let parent = self.parents.next()?;
        Some(Siblings::below(parent))
    }
}
