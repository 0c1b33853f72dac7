//! H3's functions on lists of cells.

ghost use Rattle.h3_lines.specs.Answer.{cell_lines, printed, written};
ghost use Rattle.h3_lines.specs.Write.{Writes, sink_use};
ghost use Rattle.h3_functions.specs.Sets.{compact_cells, uncompact_cells};
ghost use Rattle.h3_set.specs.Compacted.{compacted};

use crate::listed::ListFunction;
use crate::uncompacted_lines::DescendantLines;
use h3_index::Cell;
use h3_lines::{AnswerError, RunError, write_cells_lines, write_lines};
use h3_regions::unite;
use h3_set::{compact_in_place, resolution_below_all};
use h3_streams::Sink;

/// Writes the compacted list of the cells, which is made in their own memory.
fn write_compacted<W: Sink>(cells: &mut [Cell], out: &mut W) -> Result<(), RunError>
    ensures { Writes (printed cell_lines (compact_cells cells.old)) result
        (sink_use W.taken W.has_failed out.old out.new) }
{
    match compact_in_place(cells) {
        Ok(count) => write_lines(out, cells[..count].iter().copied()),
        Err(error) => Err(RunError::Error(AnswerError::Call(error))),
    }
}

/// The compacted list of the cells. H3's `compactCells` takes cells of one resolution; here they may
/// have any.
#[derive(Drop)]
pub(crate) struct CompactList;

impl ListFunction for CompactList {
    ghost answer_of = { λ f cells. printed cell_lines (compact_cells cells) };

    fn write<W: Sink>(self, cells: &mut [Cell], out: &mut W) -> Result<(), RunError> {
        write_compacted(cells, out)
    }
}

/// Writes the cells of a resolution below the cells.
fn write_uncompacted<W: Sink>(cells: &[Cell], res: i32, out: &mut W) -> Result<(), RunError>
    ensures { Writes (printed cell_lines (uncompact_cells res cells.now)) result
        (sink_use W.taken W.has_failed out.old out.new) }
{
    match resolution_below_all(cells, res) {
        Ok(r) => write_cells_lines(out, &DescendantLines { res: r }, cells),
        Err(error) => Err(RunError::Error(AnswerError::Call(error))),
    }
}

/// The cells of a resolution below the cells, as H3's `uncompactCells` computes them.
#[derive(Drop)]
pub(crate) struct UncompactList {
    pub(crate) res: i32,
}

impl ListFunction for UncompactList {
    ghost answer_of = { λ f cells. printed cell_lines (uncompact_cells f.res cells) };

    fn write<W: Sink>(self, cells: &mut [Cell], out: &mut W) -> Result<(), RunError> {
        write_uncompacted(cells, self.res, out)
    }
}

/// Writes the compacted list of what the cells of a list cover, which is made in the list's own
/// memory.
fn write_united<W: Sink>(cells: &mut [Cell], out: &mut W) -> Result<(), RunError>
    ensures { Writes (written (cell_lines (compacted cells.old))) result
        (sink_use W.taken W.has_failed out.old out.new) }
{
    let count = unite(cells);
    write_lines(out, cells[..count].iter().copied())
}

/// The region of the cells: the compacted list of what they cover. They may repeat and overlap one
/// another.
#[derive(Drop)]
pub(crate) struct UniteList;

impl ListFunction for UniteList {
    ghost answer_of = { λ f cells. written (cell_lines (compacted cells)) };

    fn write<W: Sink>(self, cells: &mut [Cell], out: &mut W) -> Result<(), RunError> {
        write_united(cells, out)
    }
}
