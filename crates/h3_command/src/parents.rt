//! How many cells of a list have each ancestor at a resolution.

ghost use Rattle.std.specs.Prelude.{◌≡◌, ◌<◌, ◌≤◌, ◌++◌, All, IfOk, IsPermutation, List, OnErr, codes, length, map, option_map, take};
ghost use Rattle.std.specs.List.{flat_map};
ghost use Rattle.std.specs.List.Sorted.{IsNonDecreasingBy};
ghost use Rattle.h3_index.specs.Cell.{Address, IsCell, number_of};
ghost use Rattle.h3_lines.specs.Answer.{written};
ghost use Rattle.h3_lines.specs.Answering.{FailsPush, Moves};
ghost use Rattle.h3_lines.specs.Reads.{source_use};
ghost use Rattle.h3_lines.specs.Write.{Writes, sink_use};
ghost use Rattle.h3_command.specs.AreaCounts.{count_row, counts_table};
ghost use Rattle.h3_command.specs.ParentRuns.{IsRun};
ghost use Rattle.h3_command.specs.Parents.{cell_title, parent_at, parent_counts, parent_counts_answer};
ghost use Rattle.h3_command.specs.Rows.{list_form_as};
ghost use Rattle.h3_command.specs.Run.{EndsNumberedList};

use crate::area_counts::{put_header, put_row};
use crate::listed::take_listed_as;
use crate::rows::between_parts;
use h3_functions::cell_to_parent;
use h3_index::laws::numbers_are_unique;
use h3_index::{Cell, H3Error, index_bytes};
use h3_lines::{BLOCK, CellOf, RunError, write_answer};
use h3_regions::laws::zones_are_lawful;
use h3_requests::RowOptions;
use h3_streams::{Sink, Source, StreamFault};
use std::alloc::Global;

/// What is taken for an index: the ancestor of its cell at a resolution, as `cell_to_parent` returns it.
#[derive(Drop)]
pub(crate) struct ParentAt {
    pub(crate) res: i32,
}

impl CellOf for ParentAt {
    ghost says = { λ p. parent_at p.res };

    fn cell_of(&self, index: u64) -> Result<Option<Cell>, H3Error> {
        let parent = cell_to_parent(index, self.res)?;
        Ok(Some(parent))
    }
}

/// What has a cell.
pub(crate) trait HasCell {
    /// The cell.
    ghost cell_of: { Self → Address };

    /// The cell.
    fn cell(&self) -> Cell
        ensures { result ≡ cell_of self.now };
}

impl HasCell for Cell {
    ghost cell_of = { λ c. c };

    #[inline(always)]
    fn cell(&self) -> Cell {
        *self
    }
}

/// Shows that the cells of all items are valid, for proofs. It has no effect.
pub(crate) fn have_cells<T: HasCell>(items: &[T])
    ensures { All (λ t. IsCell (T.cell_of t)) items.now }
{
    for item in items {
        let _raw = item.cell().raw();
    }
}

/// Puts items in ascending order of their cells' numbers, which is that of the texts.
pub(crate) fn put_in_order<T: HasCell>(items: &mut [T])
    ensures same { IsPermutation items.old items.new }
    ensures in_order { IsNonDecreasingBy (λ t. number_of (T.cell_of t)) items.new }
{
    items.sort_unstable_by_key(|item: &T| item.cell().raw());
}

/// The place after the last of the items that have the cell of the one at a place and stand together.
pub(crate) fn run_end<T: HasCell>(items: &[T], place: usize) -> usize
    requires { place < length items.now }
    ensures { IsRun (map T.cell_of items.now) place result }
{
    let number = items[place].cell().raw();
    let mut end = place + 1;
    while end < items.len() && items[end].cell().raw() == number {
        end += 1;
    }
    end
}

/// Puts a row for each of cells in order, with how many of them it is, after the bytes held back in a block,
/// which end at `end`, and returns where they end then.
fn put_counts<W: Sink>(
    out: &mut W,
    block: &mut [u8; BLOCK],
    end: usize,
    separator: u8,
    cells: &[Cell],
) -> Result<usize, StreamFault>
    requires within { end ≤ BLOCK }
    requires in_order { IsNonDecreasingBy number_of cells.now }
    ensures within { IfOk result (λ last. last ≤ BLOCK) }
    ensures ok { IfOk result (λ last. Moves W.taken W.has_failed
        (take end block.old ++ flat_map (count_row separator) (parent_counts cells.now))
        (take last block.new) out.old out.new) }
    ensures err { OnErr result (FailsPush
        (take end block.old ++ flat_map (count_row separator) (parent_counts cells.now))
        (sink_use W.taken W.has_failed out.old out.new)) }
{
    let mut last = end;
    let mut place = 0;
    while place < cells.len() {
        let next = run_end(cells, place);
        let (text, size) = index_bytes(cells[place].raw());
        let count = (next - place) as u64;
        last = put_row(out, block, last, separator, &text[..size], count)?;
        place = next;
    }
    Ok(last)
}

/// Writes how many of cells in order each is: a header, if there is a title, and a row for each.
// Inlined, its block would take its place on the stack while the caller runs another writer.
#[inline(never)]
fn write_ordered<W: Sink>(
    separator: u8,
    title: Option<&[u8]>,
    cells: &[Cell],
    out: &mut W,
) -> Result<(), RunError>
    requires { IsNonDecreasingBy number_of cells.now }
    ensures { Writes (written (counts_table separator (option_map (λ t. t.now) title.entry)
        (parent_counts cells.now))) result (sink_use W.taken W.has_failed out.old out.new) }
{
    let mut block = [0; BLOCK];
    let mut end = put_header(out, &mut block, separator, title)?;
    end = put_counts(out, &mut block, end, separator, cells)?;
    write_answer(out, &block[..end])
}

/// Writes how many places of a list each of its cells has, in ascending order. The cells are put in order for it.
fn write_parent_counts<W: Sink>(
    separator: u8,
    title: Option<&[u8]>,
    cells: &mut [Cell],
    out: &mut W,
) -> Result<(), RunError>
    ensures { Writes (written (counts_table separator (option_map (λ t. t.now) title.entry)
        (parent_counts cells.old))) result (sink_use W.taken W.has_failed out.old out.new) }
{
    numbers_are_unique();
    zones_are_lawful();
    have_cells(cells);
    put_in_order(cells);
    write_ordered(separator, title, cells, out)
}

/// The title of the column of ancestors, if a list has rows with a header.
fn cell_title(rows: &Option<RowOptions>) -> Option<&'static [u8]>
    ensures { option_map (λ t. t.now) result ≡ cell_title rows.now }
{
    match rows {
        None => None,
        Some(options) => {
            if options.has_header {
                Some(b"cell")
            } else {
                None
            }
        }
    }
}

/// Reads a list, and writes for each ancestor of its cells at a resolution, in ascending order, how many of the
/// cells have it. It takes 8 bytes for each cell.
// Inlined, its blocks would take their place on the stack while `perform_over_list` runs another command.
#[inline(never)]
pub(crate) fn count_by_parents<R: Source, W: Sink>(
    alloc: Global,
    res: i32,
    rows: &Option<RowOptions>,
    input: &mut R,
    out: &mut W,
) -> Result<(), RunError>
    ensures { EndsNumberedList (parent_at res) (list_form_as (parent_at res) rows.now)
        (parent_counts_answer rows.now)
        (source_use R.left R.has_failed input.old input.new) result
        (sink_use W.taken W.has_failed out.old out.new) }
{
    let mut cells = take_listed_as(alloc, ParentAt { res }, Vec::new(alloc), rows, input)?;
    write_parent_counts(between_parts(rows), cell_title(rows), &mut cells, out)
}
