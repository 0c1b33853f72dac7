//! How many rows of a list have each ancestor at a resolution, and what the numbers in these rows add up to.

ghost use Rattle.std.specs.Prelude.{◌≡◌, ◌-◌, ◌<◌, ◌≤◌, ◌^◌, ◌++◌, IfOk, List, OnErr, codes, drop, length, map, option_map, take, true};
ghost use Rattle.std.specs.List.{flat_map};
ghost use Rattle.std.specs.List.Sorted.{IsNonDecreasingBy};
ghost use Rattle.h3_index.specs.Cell.{Address, number_of};
ghost use Rattle.h3_lines.specs.Answer.{written};
ghost use Rattle.h3_lines.specs.Answering.{FailsPush, Moves};
ghost use Rattle.h3_lines.specs.Reads.{source_use};
ghost use Rattle.h3_lines.specs.Write.{Writes, sink_use};
ghost use Rattle.h3_numbers.specs.Sum.{sum_count, sum_units, total};
ghost use Rattle.h3_requests.specs.Rows.{is_counted};
ghost use Rattle.h3_rows.specs.Named.{table_as};
ghost use Rattle.h3_rows.specs.declared.table.FieldContent.TheVariants as content;
ghost use Rattle.h3_command.specs.ParentEntries.{AmountsMore, amounts_none, amounts_of, amounts_then};
ghost use Rattle.h3_command.specs.ParentSums.{parent_sums, parent_sums_answer};
ghost use Rattle.h3_command.specs.Parents.{parent_at};
ghost use Rattle.h3_command.specs.Run.{EndsEntries, WritesUnlessMemory};
ghost use Rattle.h3_command.specs.SumTables.{sum_row, sums_table};

use crate::area_sums::{amount_in, sum_title, titles_if};
use crate::parents::{HasCell, ParentAt, have_cells, put_in_order, run_end};
use crate::sum_rows::{put_row, put_titles};
use h3_index::laws::numbers_are_unique;
use h3_index::{Cell, index_bytes};
use h3_lines::{BLOCK, Fault, RunError, write_answer};
use h3_numbers::laws::totals_are_lawful;
use h3_numbers::{Number, Sum};
use h3_regions::laws::zones_are_lawful;
use h3_requests::{CellField, RowOptions};
use h3_rows::{FieldContent, NamedJob, take_named_cells_as};
use h3_streams::{Sink, Source, StreamFault};
use std::alloc::Global;

/// How many cells may be added up.
const MANY: usize = 0x4000_0000_0000_0000;

/// The cells of the rows taken so far, each with the number in its row.
#[derive(Drop)]
struct Amounts {
    pairs: Vec<(Cell, Number)>,
    quotes: bool,
    title: Option<Vec<u8>>,
    alloc: Global,
}

impl NamedJob for Amounts {
    ghost count = { λ t. 0 };

    ghost taken = { λ t entries u. AmountsMore t.quotes u.quotes t.pairs.items u.pairs.items
        (option_map (λ b. b.items) t.title) (option_map (λ b. b.items) u.title) entries };

    #[inline(always)]
    fn take(
        &mut self,
        cell: Option<Cell>,
        field: &[u8],
        known: Option<Number>,
        _row: u64,
    ) -> Result<(), RunError> {
        let Some(cell) = cell else {
            return match Vec::from_slice(self.alloc, field) {
                Ok(title) => {
                    self.title = Some(title);
                    Ok(())
                }
                Err(_) => Err(RunError::Fault(Fault::Memory)),
            };
        };
        let number = amount_in(known, self.quotes, field);
        match self.pairs.push((cell, number)) {
            Ok(()) => Ok(()),
            Err(_) => Err(RunError::Fault(Fault::Memory)),
        }
    }

    ghost none_taken = { λ t. amounts_none t.quotes t.pairs.items (option_map (λ b. b.items) t.title) };

    ghost taken_then = { λ t u v xs ys p q. amounts_then _ _ _ _ _ _ _ _ _ xs ys p q };
}

impl HasCell for (Cell, Number) {
    ghost cell_of = { λ p. p.0 };

    #[inline(always)]
    fn cell(&self) -> Cell {
        self.0
    }
}

/// The sum of the numbers from one place to another.
fn run_sum(pairs: &[(Cell, Number)], from: usize, to: usize) -> Sum
    requires in_order { from ≤ to }
    requires within { to ≤ length pairs.now }
    requires few { length pairs.now ≤ MANY }
    ensures count { sum_count result ≡ to - from }
    ensures units { sum_units result
        ≡ total (map (λ a. a.1) (take (to - from) (drop from (amounts_of pairs.now)))) }
{
    totals_are_lawful();
    let mut sum = Sum::new();
    for place in from..to {
        sum = sum.plus(pairs[place].1);
    }
    sum
}

/// Puts a row for each cell of pairs in order, with how many of them have it and what their numbers add up to,
/// after the bytes held back in a block, which end at `end`, and returns where they end then.
fn put_sums<W: Sink>(
    out: &mut W,
    block: &mut [u8; BLOCK],
    end: usize,
    separator: u8,
    pairs: &[(Cell, Number)],
) -> Result<usize, StreamFault>
    requires within { end ≤ BLOCK }
    requires in_order { IsNonDecreasingBy (λ p. number_of p.0) pairs.now }
    requires few { length pairs.now ≤ MANY }
    ensures within { IfOk result (λ last. last ≤ BLOCK) }
    ensures ok { IfOk result (λ last. Moves W.taken W.has_failed
        (take end block.old ++ flat_map (sum_row separator) (parent_sums (amounts_of pairs.now)))
        (take last block.new) out.old out.new) }
    ensures err { OnErr result (FailsPush
        (take end block.old ++ flat_map (sum_row separator) (parent_sums (amounts_of pairs.now)))
        (sink_use W.taken W.has_failed out.old out.new)) }
{
    let mut last = end;
    let mut place = 0;
    while place < pairs.len() {
        let next = run_end(pairs, place);
        let (text, size) = index_bytes(pairs[place].0.raw());
        let sum = run_sum(pairs, place, next);
        last = put_row(out, block, last, separator, &text[..size], sum)?;
        place = next;
    }
    Ok(last)
}

/// Writes the table of pairs in order: the titles, if there are any, and a row for each cell.
// Inlined, its block would take its place on the stack while the caller runs another writer.
#[inline(never)]
fn write_ordered<W: Sink>(
    separator: u8,
    titles: Option<(&[u8], &[u8])>,
    pairs: &[(Cell, Number)],
    out: &mut W,
) -> Result<(), RunError>
    requires in_order { IsNonDecreasingBy (λ p. number_of p.0) pairs.now }
    requires few { length pairs.now ≤ MANY }
    ensures { Writes (written (sums_table separator (option_map (λ t. (t.0.now, t.1.now)) titles.entry)
        (parent_sums (amounts_of pairs.now)))) result
        (sink_use W.taken W.has_failed out.old out.new) }
{
    let mut block = [0; BLOCK];
    let mut end = put_titles(out, &mut block, separator, titles)?;
    end = put_sums(out, &mut block, end, separator, pairs)?;
    write_answer(out, &block[..end])
}

/// Writes how many of pairs have each cell, in ascending order, and what their numbers add up to. The pairs are
/// put in order for it. `Fault::Memory` if there are more than 2^62.
fn write_parent_sums<W: Sink>(
    separator: u8,
    titles: Option<(&[u8], &[u8])>,
    pairs: &mut [(Cell, Number)],
    out: &mut W,
) -> Result<(), RunError>
    ensures { WritesUnlessMemory (written (sums_table separator
        (option_map (λ t. (t.0.now, t.1.now)) titles.entry) (parent_sums (amounts_of pairs.old)))) result
        (sink_use W.taken W.has_failed out.old out.new) }
{
    if pairs.len() > MANY {
        return Err(RunError::Fault(Fault::Memory));
    }
    numbers_are_unique();
    zones_are_lawful();
    totals_are_lawful();
    have_cells(pairs);
    put_in_order(pairs);
    write_ordered(separator, titles, pairs, out)
}

/// Reads a list of rows, and writes for each ancestor of their cells at a resolution, in ascending order, how many
/// of the rows have it, and what the numbers in these add up to. It takes 24 bytes for each row.
// Inlined, its blocks would take their place on the stack while `perform_over_list` runs another command.
#[inline(never)]
pub(crate) fn sum_by_parents<R: Source, W: Sink>(
    alloc: Global,
    res: i32,
    list: &RowOptions,
    field: &CellField,
    input: &mut R,
    out: &mut W,
) -> Result<(), RunError>
    requires { is_counted field.now ≡ true }
    ensures { EndsEntries (table_as (parent_at res) list.now field.now content.Number)
        (parent_sums_answer list.now)
        (source_use R.left R.has_failed input.old input.new) result
        (sink_use W.taken W.has_failed out.old out.new) }
{
    let none = Amounts {
        pairs: Vec::new(alloc),
        quotes: list.quotes,
        title: None,
        alloc,
    };
    let parent = ParentAt { res };
    let number = FieldContent::Number;
    let mut amounts = take_named_cells_as(alloc, parent, none, list, field, number, input)?;
    let titles = titles_if(list.has_header, b"cell", sum_title(&amounts.title));
    write_parent_sums(list.separator, titles, &mut amounts.pairs, out)
}
