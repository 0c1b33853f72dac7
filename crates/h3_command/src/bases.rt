//! The cells of resolution 0, and the pentagons of a resolution, on lines.

ghost use Rattle.h3_functions.specs.Resolutions.{get_pentagons, get_res0_cells};
ghost use Rattle.h3_lines.specs.Answer.{cell_lines, printed, written};
ghost use Rattle.h3_lines.specs.Write.{Writes, sink_use};

use h3_functions::{get_pentagons, get_res0_cells};
use h3_lines::{RunError, write_lines};
use h3_streams::Sink;

/// Writes the cells of resolution 0.
pub(crate) fn write_res0_cells<W: Sink>(out: &mut W) -> Result<(), RunError>
    ensures { Writes (written (cell_lines get_res0_cells)) result
        (sink_use W.taken W.has_failed out.old out.new) }
{
    write_lines(out, get_res0_cells())
}

/// Writes the pentagons of a resolution, or returns the error of `get_pentagons`.
pub(crate) fn write_pentagons<W: Sink>(res: i32, out: &mut W) -> Result<(), RunError>
    ensures { Writes (printed cell_lines (get_pentagons res)) result
        (sink_use W.taken W.has_failed out.old out.new) }
{
    write_lines(out, get_pentagons(res)?)
}
