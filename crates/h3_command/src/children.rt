//! H3's `cellToChildren` and `childPosToCell`, for the index of a word, `None` where the word has none, and
//! the children of each cell of a list.

ghost use Rattle.std.specs.Prelude.{◌≡◌, ◌≤◌, codes};
ghost use Rattle.h3_index.specs.Cell.{resolution};
ghost use Rattle.h3_index.specs.Descendants.{descendants};
ghost use Rattle.h3_lines.specs.Answer.{cell_lines, printed, written};
ghost use Rattle.h3_lines.specs.Reads.{source_use};
ghost use Rattle.h3_lines.specs.Write.{Writes, sink_use};
ghost use Rattle.h3_functions.specs.Hierarchy.{cell_to_children, child_pos_to_cell};
ghost use Rattle.h3_functions.specs.Inspection.{for_value};
ghost use Rattle.h3_command.specs.Required.{index_given};
ghost use Rattle.h3_command.specs.LongAnswers.{children_for};
ghost use Rattle.h3_command.specs.Rows.{rows_form};
ghost use Rattle.h3_command.specs.Run.{EndsLines};

use crate::long::ChildrenOf;
use crate::required::{cell_given, index_given};
use crate::rows::answer_listed_lines;
use h3_index::{Cell, H3Error};
use h3_lines::{RunError, write_lines, write_result};
use h3_requests::RowOptions;
use h3_streams::{Sink, Source};
use h3_tree::{resolution_below, sibling_groups_at};
use std::alloc::Global;

/// Writes the descendants of a cell at a resolution from its own to 15.
fn write_descendants<W: Sink>(cell: Cell, r: u8, out: &mut W) -> Result<(), RunError>
    requires not_coarser { resolution cell ≤ r }
    requires at_most_fifteen { r ≤ 15 }
    ensures { Writes (written (cell_lines (descendants cell r))) result
        (sink_use W.taken W.has_failed out.old out.new) }
{
    if r == cell.resolution() {
        write_result(out, Ok(cell))
    } else {
        write_lines(out, sibling_groups_at(cell, r))
    }
}

/// Writes the descendants of a cell at a resolution, as H3's `cellToChildren` lists them: those of
/// one parent at a time.
pub(crate) fn cell_to_children<W: Sink>(
    index: Option<u64>,
    res: i32,
    out: &mut W,
) -> Result<(), RunError>
    ensures { Writes (printed cell_lines (for_value (λ h. cell_to_children h res) (index_given index)))
        result (sink_use W.taken W.has_failed out.old out.new) }
{
    let cell = cell_given(index)?;
    let r = resolution_below(cell, res)?;
    write_descendants(cell, r, out)
}

/// The descendant of a cell at a resolution that stands at a position, as H3's `childPosToCell`
/// returns it.
pub(crate) fn child_pos_to_cell(
    position: u64,
    index: Option<u64>,
    res: i32,
) -> Result<Cell, H3Error>
    ensures { result ≡ for_value (λ h. child_pos_to_cell position h res) (index_given index) }
{
    let index = index_given(index)?;
    h3_functions::child_pos_to_cell(position, index, res)
}

/// Writes for each cell listed on the input, or with each row, its descendants at a resolution.
pub(crate) fn cells_to_children<R: Source, W: Sink>(
    alloc: Global,
    res: i32,
    rows: &Option<RowOptions>,
    input: &mut R,
    out: &mut W,
) -> Result<(), RunError>
    ensures { EndsLines (rows_form rows.now (codes "cellToChildren"))
        (children_for res) (source_use R.left R.has_failed input.old input.new) result
        (sink_use W.taken W.has_failed out.old out.new) }
{
    answer_listed_lines(
        alloc,
        rows,
        "cellToChildren",
        &ChildrenOf { res },
        input,
        out,
    )
}
