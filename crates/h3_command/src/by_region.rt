//! One list for each value of a field, each cut by a region: what the cells of the value's rows and the
//! region both cover, or what the cells cover and the region does not. A list may have more cells than its
//! value, so the lists are made behind one another before the first is written. The region's errors come
//! first, as of `read_file`, and then those of the list.

ghost use Rattle.std.specs.Prelude.{◌≡◌, ◌+◌, ◌<◌, ◌≤◌, ◌++◌, All, IfErr, IfOk, List, OnOk, Ok, ℕ, length, option_map, replicate, true};
ghost use Rattle.h3_index.specs.Cell.{Address};
ghost use Rattle.h3_set.specs.Compacted.{compacted};
ghost use Rattle.h3_regions.specs.Region.{IsRegion};
ghost use Rattle.h3_requests.specs.Rows.{is_counted};
ghost use Rattle.h3_lines.specs.Reads.{source_use};
ghost use Rattle.h3_lines.specs.Write.{sink_use};
ghost use Rattle.h3_lines.specs.declared.run_error.CellFile.TheVariants as kind_of_file;
ghost use Rattle.h3_lines.specs.declared.run_error.Fault.TheVariants.{Memory};
ghost use Rattle.h3_lines.specs.declared.run_error.RunError.TheVariants as refusal;
ghost use Rattle.h3_rows.specs.Areas.{names_in};
ghost use Rattle.h3_rows.specs.Named.{table_of};
ghost use Rattle.h3_rows.specs.declared.table.FieldContent.TheVariants.{Text};
ghost use Rattle.h3_command.specs.Answer.{combined_request};
ghost use Rattle.h3_command.specs.Answer.Request.{after_file};
ghost use Rattle.h3_command.specs.By.{by_answer, lists_answer};
ghost use Rattle.h3_command.specs.ByValue.{AreApart};
ghost use Rattle.h3_command.specs.Combination.{AreCut, IsCutBehind, IsRegionOf, combined};
ghost use Rattle.h3_command.specs.Rows.{file_form};
ghost use Rattle.h3_command.specs.Run.{Ends, EndsEntries, EndsOfList, WritesUnlessMemory};
ghost use Rattle.h3_command.specs.declared.files.Combination.TheVariants as combination;

use crate::by::{empty_parts, title_if, write_lists};
use crate::by_value::divide_cells;
use crate::files::{Combination, Combine, left_of_region, read_file, slots_for};
use crate::listed::answer_whole_numbered;
use crate::sets::UniteList;
use h3_index::Cell;
use h3_lines::{CellFile, Fault, RunError};
use h3_regions::laws::coverages_decide_combinations;
use h3_regions::{Region, intersect, order_by_number};
use h3_requests::{CellField, RowOptions, Tables};
use h3_rows::laws::areas_divide_cells;
use h3_rows::{Names, read_areas};
use h3_streams::{Sink, Source};
use std::alloc::Global;

/// Puts the cells of a region behind others, in ascending order. `Fault::Memory` if there is no memory
/// for them.
fn put_ascending(made: &mut Vec<Cell>, cells: &[Cell]) -> Result<(), RunError>
    requires { IsRegion cells.now }
    ensures ok { OnOk result (made.new.items ≡ made.old.items ++ compacted cells.now) }
    ensures err { IfErr result (λ e. e ≡ refusal.Fault Memory) }
{
    let begin = made.len();
    match made.extend_from_slice(cells) {
        Ok(()) => {
            order_by_number(&mut made[begin..]);
            Ok(())
        }
        Err(_) => Err(RunError::Fault(Fault::Memory)),
    }
}

/// How many slots are used to make lists of these cells, or of some of them, and a region.
fn slots_needed(kind: Combination, cells: &[Cell], region: &Region) -> usize
    ensures { kind ≡ combination.Shared → length cells.now + length region.now ≤ result }
{
    match kind {
        Combination::Shared => cells.len() + region.cells().len(),
        Combination::Left => 0,
    }
}

/// Puts what is made of a value's cells and a region behind the lists of other values.
/// `Fault::Memory` if there is no memory for it.
fn cut_value(
    alloc: Global,
    kind: Combination,
    region: &Region,
    cells: &mut [Cell],
    slots: &mut [Cell],
    made: &mut Vec<Cell>,
) -> Result<(), RunError>
    requires room { kind ≡ combination.Shared → length cells.old + length region.now ≤ length slots.old }
    ensures ok { OnOk result (IsCutBehind kind region.now cells.old made.old.items made.new.items) }
    ensures err { IfErr result (λ e. e ≡ refusal.Fault Memory) }
{
    coverages_decide_combinations();
    let own = Region::of(cells);
    match kind {
        Combination::Shared => {
            let shared = intersect(&own, region, slots);
            put_ascending(made, shared.cells())
        }
        Combination::Left => {
            let left = left_of_region(alloc, &own, region)?;
            put_ascending(made, &left)
        }
    }
}

/// Makes the list of each value, of its own part of the cells, one behind another, and makes the parts
/// those of the lists. `Fault::Memory` if there is no memory for them.
fn cut_lists(
    alloc: Global,
    kind: Combination,
    region: &Region,
    cells: &mut [Cell],
    parts: &mut [(usize, usize)],
) -> Result<Vec<Cell>, RunError>
    requires { AreApart (length parts.old) (length cells.old) parts.old }
    ensures cut { IfOk result (λ made. AreCut kind region.now cells.old parts.old (length parts.old)
        made.items parts.new) }
    ensures err { IfErr result (λ e. e ≡ refusal.Fault Memory) }
{
    let mut slots = slots_for(alloc, slots_needed(kind, cells, region))?;
    let mut made = Vec::new(alloc);
    for k in 0..parts.len() {
        let (start, end) = parts[k];
        let begin = made.len();
        cut_value(
            alloc,
            kind,
            region,
            &mut cells[start..end],
            &mut slots,
            &mut made,
        )?;
        parts[k] = (begin, made.len());
    }
    Ok(made)
}

/// Puts the cells of each value together, makes the list of each, and then writes them.
fn write_divided<W: Sink>(
    alloc: Global,
    kind: Combination,
    region: &Region,
    separator: u8,
    title: Option<&[u8]>,
    names: &Names,
    pairs: &[(Cell, u32)],
    cells: &mut [Cell],
    parts: &mut [(usize, usize)],
    out: &mut W,
) -> Result<(), RunError>
    requires small { All (λ p. p.1 < length names.now.spans.items) pairs.now }
    requires room { length cells.old ≡ length pairs.now }
    requires size { length parts.old ≡ length names.now.spans.items }
    requires zeros { parts.old ≡ replicate (length parts.old) (0, 0) }
    ensures { (listed : List Address) (rows : List ℕ) → IsRegionOf listed region.now
        → WritesUnlessMemory (lists_answer separator (option_map (λ t. t.now) title.entry)
        (λ cells. Ok (combined kind listed cells))
        (names_in names.now.bytes.items names.now.spans.items) rows pairs.now) result
        (sink_use W.taken W.has_failed out.old out.new) }
{
    divide_cells(pairs, parts, cells);
    let made = cut_lists(alloc, kind, region, cells, parts)?;
    // each list is made: it is written as it is, as the union of a value's cells
    write_lists(&UniteList, separator, title, names, &made, parts, out)
}

/// Writes the header, if there is a title, and then for each value what is made of its cells and a
/// region. `Fault::Memory` if there is no memory for the lists.
fn write_cut<W: Sink>(
    alloc: Global,
    kind: Combination,
    region: &Region,
    separator: u8,
    title: Option<&[u8]>,
    names: &Names,
    pairs: &[(Cell, u32)],
    out: &mut W,
) -> Result<(), RunError>
    requires { All (λ p. p.1 < length names.now.spans.items) pairs.now }
    ensures { (listed : List Address) (rows : List ℕ) → IsRegionOf listed region.now
        → WritesUnlessMemory (lists_answer separator (option_map (λ t. t.now) title.entry)
        (λ cells. Ok (combined kind listed cells))
        (names_in names.now.bytes.items names.now.spans.items) rows pairs.now) result
        (sink_use W.taken W.has_failed out.old out.new) }
{
    let mut cells = slots_for(alloc, pairs.len())?;
    let mut parts = empty_parts(alloc, names.spans.len())?;
    write_divided(
        alloc, kind, region, separator, title, names, pairs, &mut cells, &mut parts, out,
    )
}

/// Reads a list of rows, and writes for each value of a field what is made of the cells of the rows that
/// have the value, and a region.
fn answer_cut<R: Source, W: Sink>(
    alloc: Global,
    kind: Combination,
    region: &Region,
    rows: &RowOptions,
    field: &CellField,
    input: &mut R,
    out: &mut W,
) -> Result<(), RunError>
    requires { is_counted field.now ≡ true }
    ensures { (listed : List Address) → IsRegionOf listed region.now
        → EndsEntries (table_of rows.now field.now Text)
        (by_answer rows.now (λ cells. Ok (combined kind listed cells)))
        (source_use R.left R.has_failed input.old input.new) result
        (sink_use W.taken W.has_failed out.old out.new) }
{
    areas_divide_cells();
    let table = read_areas(alloc, rows, field, input)?;
    let title = title_if(rows.has_header, &table.title);
    write_cut(
        alloc,
        kind,
        region,
        rows.separator,
        title,
        &table.names,
        &table.cells,
        out,
    )
}

/// Writes what is made of the cells of a region's file and those of a list, or, if a field divides its rows,
/// those of each value.
fn answer_with_region<R: Source, W: Sink>(
    alloc: Global,
    kind: Combination,
    tables: &Tables,
    cells: &mut [Cell],
    input: &mut R,
    out: &mut W,
) -> Result<(), RunError>
    ensures { EndsOfList (combined_request tables.now (combined kind) cells.old)
        (source_use R.left R.has_failed input.old input.new) result
        (sink_use W.taken W.has_failed out.old out.new) }
{
    match (&tables.by, &tables.list) {
        (Some(field), Some(rows)) => {
            let region = Region::of(cells);
            answer_cut(alloc, kind, &region, rows, field, input, out)
        }
        _ => {
            let function = Combine {
                alloc,
                kind,
                others: cells,
            };
            answer_whole_numbered(alloc, function, &tables.list, input, out)
        }
    }
}

/// Reads the file of a region, and then writes what is made of the region and the cells of a list, or, if
/// a field divides its rows, those of each value.
// Inlined, its blocks would take their place on the stack while the caller runs another command.
#[inline(never)]
pub(crate) fn answer_combined<R: Source, T: Source, W: Sink>(
    alloc: Global,
    kind: Combination,
    tables: &Tables,
    input: &mut R,
    file: &mut T,
    out: &mut W,
) -> Result<(), RunError>
    ensures { Ends (after_file kind_of_file.Region (file_form tables.now) (combined_request tables.now (combined kind)))
        (source_use R.left R.has_failed input.old input.new)
        (source_use T.left T.has_failed file.old file.new) result
        (sink_use W.taken W.has_failed out.old out.new) }
{
    let mut cells = read_file(alloc, CellFile::Region, &tables.file, file)?;
    answer_with_region(alloc, kind, tables, &mut cells, input, out)
}
