//! How many cells the cells of a list uncompact to.

ghost use Rattle.std.proofs.Common.{◌∙◌, refl};
ghost use Rattle.std.specs.Prelude.{◌≡◌, ◌≤◌, ◌/◌, ◌^◌, false, List, IfSome};
ghost use Rattle.h3_index.specs.Cell.{Address};
ghost use Rattle.h3_index.specs.Count.{resolution_of};
ghost use Rattle.h3_lines.specs.Answer.{number_line, printed};
ghost use Rattle.h3_lines.specs.List.{itself};
ghost use Rattle.h3_lines.specs.Reads.{source_use};
ghost use Rattle.h3_lines.specs.Write.{Writes, sink_use};
ghost use Rattle.h3_functions.specs.Sets.{uncompact_cells_size};
ghost use Rattle.h3_command.specs.Rows.{list_form};
ghost use Rattle.h3_command.specs.Run.{EndsNumberedList};
ghost use Rattle.h3_command.specs.Sizes.{IsSizeOf, SizesMore, sizes_none, sizes_then};

use crate::listed::take_listed;
use h3_index::{Cell, H3Error, resolution_from};
use h3_lines::{CellJob, Fault, RunError, write_result};
use h3_requests::RowOptions;
use h3_streams::{Sink, Source};
use h3_tree::children_size;
use std::alloc::Global;

/// How many cells of a resolution the cells taken so far uncompact to.
#[derive(Drop)]
struct Size {
    res: u8,

    /// Whether a cell was finer than the resolution. What the total is then means nothing.
    finer: bool,

    total: u128,
    ghost at_most_fifteen: { res ≤ 15 },
}

impl CellJob for Size {
    // Each cell adds less than 2^64 to the total.
    ghost count = { λ s. s.total / 2 ^ 64 };

    ghost taken = { λ s cells t. (t.res ≡ s.res) ×
        SizesMore s.res s.finer s.total cells t.finer t.total };

    #[inline(always)]
    fn take(&mut self, cell: Cell, _place: Option<usize>) -> Result<(), Fault> {
        match children_size(cell, i32::from(self.res)) {
            Ok(size) => self.total += u128::from(size),
            Err(_) => self.finer = true,
        }
        Ok(())
    }

    ghost none_taken = { λ s. (refl, sizes_none s.res s.finer s.total) };

    ghost taken_then = { λ s t u xs ys p q. (
      q.0 ∙ p.0,
      sizes_then s.res t.res _ _ _ _ _ _ xs ys p.0 p.1 q.1,
    ) };
}

/// No cell taken. Where the resolution is outside 0 to 15, another stands for it.
fn nothing_taken(res: i32) -> Size
    ensures res { IfSome (resolution_of res) (λ r. result.res ≡ r) }
    ensures finer { result.finer ≡ false }
    ensures total { result.total ≡ 0 }
{
    Size {
        res: resolution_from(res).unwrap_or(15),
        finer: false,
        total: 0,
    }
}

/// How many cells of a resolution the cells taken uncompact to. `ResDomain` where the resolution is
/// outside 0 to 15, and then `ResMismatch` where a cell is finer.
fn judged(size: &Size, res: i32) -> Result<u128, H3Error>
    ensures { (cells : List Address)
        → IfSome (resolution_of res) (λ r. IsSizeOf r cells size.now.finer size.now.total)
        → result ≡ uncompact_cells_size res cells }
{
    resolution_from(res)?;
    if size.finer {
        return Err(H3Error::ResMismatch);
    }
    Ok(size.total)
}

/// Writes how many cells of a resolution the cells listed on the input, or those of its rows,
/// uncompact to, as H3's `uncompactCellsSize` counts them. The list is read to its end before the
/// resolution is judged, as `uncompactCells` does.
#[inline(never)]
pub(crate) fn uncompact_cells_size<R: Source, W: Sink>(
    alloc: Global,
    res: i32,
    rows: &Option<RowOptions>,
    input: &mut R,
    out: &mut W,
) -> Result<(), RunError>
    ensures { EndsNumberedList itself (list_form rows.now)
        (λ cells. printed number_line (uncompact_cells_size res cells))
        (source_use R.left R.has_failed input.old input.new) result
        (sink_use W.taken W.has_failed out.old out.new) }
{
    let size = take_listed(alloc, nothing_taken(res), rows, input)?;
    write_result(out, judged(&size, res))
}
