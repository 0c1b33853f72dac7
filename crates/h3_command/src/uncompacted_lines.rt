//! The descendants of a cell at a resolution, those of one parent together.

ghost use Rattle.std.specs.Prelude.{◌≡◌, ◌≤◌};
ghost use Rattle.h3_index.specs.Cell.{resolution};
ghost use Rattle.h3_command.specs.Long.{child_lines_left, items_below};

use crate::long::{ChildItem, ChildLines};
use h3_index::Cell;
use h3_lines::CellLines;
use h3_tree::laws::descendants_are_children;
use h3_tree::sibling_groups_at;

/// The descendants of a cell at a resolution from its own to 15.
#[inline(always)]
pub(crate) fn lines_below(cell: Cell, r: u8) -> ChildLines
    requires not_coarser { resolution cell ≤ r }
    requires at_most_fifteen { r ≤ 15 }
    ensures { child_lines_left result ≡ items_below r cell }
{
    if r == cell.resolution() {
        ChildLines::Own(Some(cell))
    } else {
        ChildLines::Below(sibling_groups_at(cell, r))
    }
}

/// The lines of the descendants of a cell at a resolution.
#[derive(Drop)]
pub(crate) struct DescendantLines {
    pub(crate) res: u8,
    ghost at_most_fifteen: { res ≤ 15 },
}

impl CellLines for DescendantLines {
    ghost use Rattle.std.specs.Prelude.{◌≤◌};
    ghost use Rattle.h3_index.specs.Cell.{resolution};
    ghost use Rattle.h3_index.specs.Descendants.{descendants};
    ghost use Rattle.h3_lines.specs.Answer.{cell_lines};

    type Item = ChildItem;

    type Lines = ChildLines;

    ghost takes = { λ f c. resolution c ≤ f.res };

    ghost text_of = { λ f c. cell_lines (descendants c f.res) };

    #[inline(always)]
    fn lines_of(&self, cell: Cell) -> ChildLines {
        descendants_are_children();
        lines_below(cell, self.res)
    }
}
