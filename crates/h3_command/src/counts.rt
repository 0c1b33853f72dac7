//! How many cells of a list lie in each of zones.

ghost use Rattle.std.proofs.Common.{◌∙◌, refl};
ghost use Rattle.std.specs.Prelude.{◌≡◌, ◌+◌, List, length, sum};
ghost use Rattle.h3_index.specs.Cell.{Address};
ghost use Rattle.h3_regions.specs.Counting.{AreCounts};
ghost use Rattle.h3_regions.specs.Zones.{IsZones};
ghost use Rattle.h3_lines.specs.List.{itself};
ghost use Rattle.h3_lines.specs.Reads.{source_use};
ghost use Rattle.h3_lines.specs.Write.{Writes, sink_use};
ghost use Rattle.h3_lines.specs.declared.run_error.CellFile.TheVariants as kind_of_file;
ghost use Rattle.h3_command.specs.Answer.ListRequest.{of_numbered};
ghost use Rattle.h3_command.specs.Answer.Request.{after_file};
ghost use Rattle.h3_command.specs.Files.{counts_answer};
ghost use Rattle.h3_command.specs.Rows.{file_form, list_form};
ghost use Rattle.h3_command.specs.Run.{Ends, EndsNumberedList};
ghost use Rattle.h3_command.specs.Counts.{CountsMore, counts_none, counts_then};

use crate::count_lines::CountLines;
use crate::files::{look_ahead, read_file, table_of};
use crate::listed::take_listed;
use h3_index::Cell;
use h3_lines::{CellFile, CellJob, Fault, LINES, RunError, write_lines};
use h3_regions::laws::zones_are_lawful;
use h3_regions::{TabledZones, Zones, count_next};
use h3_requests::{RowOptions, Tables};
use h3_streams::{Sink, Source};
use std::alloc::Global;

/// How many of the cells taken so far lie in each zone, and how many in none.
#[derive(Drop)]
struct Tally<'z> {
    zones: Zones<'z>,
    counts: Vec<u64>,
    others: u64,
    place: usize,
    tabled: TabledZones<'z>,
    ghost size: { length counts.items ≡ length zones },
}

impl<'z> CellJob for Tally<'z> {
    ghost count = { λ t. sum t.counts.items + t.others };

    ghost taken = { λ t cells u. (u.zones ≡ t.zones) ×
        CountsMore t.zones t.counts.items t.others cells u.counts.items u.others };

    #[inline(always)]
    fn take(&mut self, cell: Cell, place: Option<usize>) -> Result<(), Fault> {
        self.place = place.unwrap_or(self.place);
        self.others = count_next(
            &self.zones,
            cell,
            &mut self.counts,
            self.others,
            &mut self.place,
        );
        Ok(())
    }

    #[inline(always)]
    fn look_for(&self, cell: Cell) -> Option<usize> {
        Some(self.tabled.look_for(cell.raw(), self.place))
    }

    #[inline(always)]
    fn looks_ahead(&self) -> bool {
        true
    }

    #[inline(always)]
    fn look_ahead(&self, indexes: &[u64]) -> Option<[usize; LINES]> {
        look_ahead(&self.tabled, indexes, self.place)
    }

    ghost none_taken = { λ t. (refl, counts_none t.zones t.counts.items t.others) };

    ghost taken_then = { λ t u v xs ys p q. (
      q.0 ∙ p.0,
      counts_then t.zones u.zones _ _ _ _ _ _ xs ys p.0 p.1 q.1,
    ) };
}

/// Writes a line for each of zones in ascending order, with its count, and then one with the number
/// of others.
fn write_counts<W: Sink>(
    zones: &Zones,
    counts: &[u64],
    others: u64,
    out: &mut W,
) -> Result<(), RunError>
    requires { length counts.now ≡ length zones.now }
    ensures { (cells : List Address) → AreCounts zones.now cells counts.now others
        → Writes (counts_answer zones.now cells) result
        (sink_use W.taken W.has_failed out.old out.new) }
{
    write_lines(out, CountLines::new(zones, counts, others))
}

/// Writes how many of the cells listed on the input, or of those of its rows, lie in each of zones in
/// order, and how many in none.
pub(crate) fn answer_counts<R: Source, W: Sink>(
    alloc: Global,
    rows: &Option<RowOptions>,
    zones: &[Cell],
    input: &mut R,
    out: &mut W,
) -> Result<(), RunError>
    requires { IsZones zones.now }
    ensures { EndsNumberedList itself (list_form rows.now) (counts_answer zones.now)
        (source_use R.left R.has_failed input.old input.new) result
        (sink_use W.taken W.has_failed out.old out.new) }
{
    zones_are_lawful();
    let in_order = Zones::over(zones);
    let table = table_of(alloc, &in_order)?;
    let counts = vec![in alloc; 0u64; zones.len()].map_err(|_| RunError::Fault(Fault::Memory))?;
    let tally = Tally {
        zones: Zones::over(zones),
        counts,
        others: 0,
        place: 0,
        tabled: TabledZones::over(&in_order, &table),
    };
    let tally = take_listed(alloc, tally, rows, input)?;
    write_counts(&in_order, &tally.counts, tally.others, out)
}

/// Reads a file of zones, and then writes how many of the cells of a list, or of those of its rows, lie in each
/// of them, and how many in none.
// Inlined, its blocks would take their place on the stack while the caller runs another command.
#[inline(never)]
pub(crate) fn counts_over_file<R: Source, T: Source, W: Sink>(
    alloc: Global,
    tables: &Tables,
    input: &mut R,
    file: &mut T,
    out: &mut W,
) -> Result<(), RunError>
    ensures { Ends (after_file kind_of_file.Zones (file_form tables.now)
        (λ zones. of_numbered itself (list_form tables.now.list) (counts_answer zones)))
        (source_use R.left R.has_failed input.old input.new)
        (source_use T.left T.has_failed file.old file.new) result
        (sink_use W.taken W.has_failed out.old out.new) }
{
    zones_are_lawful();
    let zones = read_file(alloc, CellFile::Zones, &tables.file, file)?;
    answer_counts(alloc, &tables.list, &zones, input, out)
}
