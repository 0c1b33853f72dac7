//! One list for each value of a field: what a command answers to the cells of the value's rows.

ghost use Rattle.std.specs.Prelude.{◌≡◌, true, ◌+◌, ◌<◌, ◌≤◌, ◌++◌, ◌∷◌, [], ℕ, All, List, IfOk, IfErr, OnErr, Option, get_or, length, map, option_map, replicate, take};
ghost use Rattle.std.specs.List.{flat_map, range_with_len};
ghost use Rattle.h3_lines.specs.Answer.{written};
ghost use Rattle.h3_lines.specs.Answering.{FailsPush, Moves};
ghost use Rattle.h3_lines.specs.Write.{Writes, sink_use};
ghost use Rattle.h3_lines.specs.declared.run_error.Fault.TheVariants.{Memory};
ghost use Rattle.h3_lines.specs.declared.run_error.RunError.TheVariants as refusal;
ghost use Rattle.h3_command.specs.Answer.{by_request};
ghost use Rattle.h3_command.specs.Answer.ListRequest.{of_numbered, of_whole};
ghost use Rattle.h3_command.specs.By.{by_answer, lists_answer, title_if, title_row, value_lines};
ghost use Rattle.h3_command.specs.ByValue.{AreApart, part_of};
ghost use Rattle.h3_rows.specs.Areas.{names_in};
ghost use Rattle.h3_command.specs.Rows.{list_form};
ghost use Rattle.h3_command.specs.Run.{EndsEntries, EndsOfList, WritesUnlessMemory};
ghost use Rattle.h3_lines.specs.List.{itself};
ghost use Rattle.h3_lines.specs.Reads.{source_use};
ghost use Rattle.h3_requests.specs.Rows.{is_counted};
ghost use Rattle.h3_rows.specs.Named.{table_of};
ghost use Rattle.h3_rows.specs.declared.table.FieldContent.TheVariants.{Text};

use crate::area_counts::{hold, put_name};
use crate::by_lists::{ListOfValue, make_lists};
use crate::by_value::divide_cells;
use crate::files::slots_for;
use crate::listed::{ListFunction, answer_whole, answer_whole_numbered};
use h3_index::Cell;
use h3_lines::{AnswerError, BLOCK, Fault, RowError, RunError, write_answer};
use h3_requests::{CellField, RowOptions, Tables};
use h3_rows::laws::areas_divide_cells;
use h3_rows::{Names, read_areas};
use h3_streams::{Sink, Source, StreamFault};
use std::alloc::Global;

/// So many parts, all empty. `Fault::Memory` if there is no memory for them.
pub(crate) fn empty_parts(alloc: Global, count: usize) -> Result<Vec<(usize, usize)>, RunError>
    ensures ok { IfOk result (λ parts. parts.items ≡ replicate count (0, 0)) }
    ensures err { IfErr result (λ e. e ≡ refusal.Fault Memory) }
{
    match vec![in alloc; (0usize, 0usize); count] {
        Ok(parts) => Ok(parts),
        Err(_) => Err(RunError::Fault(Fault::Memory)),
    }
}

/// Puts the header, if there is a title, into an empty block, and returns where it ends.
fn put_title<W: Sink>(
    separator: u8,
    title: Option<&[u8]>,
    out: &mut W,
    block: &mut [u8; BLOCK],
) -> Result<usize, StreamFault>
    ensures within { IfOk result (λ at. at ≤ BLOCK) }
    ensures ok { IfOk result (λ at.
        Moves W.taken W.has_failed (title_row separator (option_map (λ t. t.now) title.entry))
        (take at block.new) out.old out.new) }
    ensures err { OnErr result (FailsPush (title_row separator (option_map (λ t. t.now) title.entry))
        (sink_use W.taken W.has_failed out.old out.new)) }
{
    let Some(title) = title else {
        return Ok(0);
    };
    let at = put_name(out, block, 0, title, separator)?;
    Ok(hold(block, at, b"cell", b'\n'))
}

/// Puts the list of each value, of which the parts of the cells are made ready, after the bytes held
/// back in a block, which end at `end`, and returns where they end then.
fn put_lists<F: ListOfValue, W: Sink>(
    function: &F,
    separator: u8,
    names: &Names,
    cells: &[Cell],
    parts: &[(usize, usize)],
    out: &mut W,
    block: &mut [u8; BLOCK],
    end: usize,
) -> Result<usize, StreamFault>
    requires within { end ≤ BLOCK }
    requires size { length parts.now ≡ length names.now.spans.items }
    requires apart { AreApart (length parts.now) (length cells.now) parts.now }
    requires ready { (n : ℕ) → n < length parts.now
        → F.ready function.now (part_of cells.now (get_or parts.now n (0, 0))) }
    ensures within { IfOk result (λ last. last ≤ BLOCK) }
    ensures ok { IfOk result (λ last. Moves W.taken W.has_failed
        (take end block.old ++ flat_map (λ n. value_lines separator
        (get_or (names_in names.now.bytes.items names.now.spans.items) n [])
        (F.listed function.now (part_of cells.now (get_or parts.now n (0, 0)))))
        (range_with_len 0 (length parts.now)))
        (take last block.new) out.old out.new) }
    ensures err { OnErr result (FailsPush
        (take end block.old ++ flat_map (λ n. value_lines separator
        (get_or (names_in names.now.bytes.items names.now.spans.items) n [])
        (F.listed function.now (part_of cells.now (get_or parts.now n (0, 0)))))
        (range_with_len 0 (length parts.now)))
        (sink_use W.taken W.has_failed out.old out.new)) }
{
    let mut last = end;
    for number in 0..parts.len() {
        let name = names.get(number).unwrap_or(b"");
        let (start, stop) = parts[number];
        last = function.put(separator, name, &cells[start..stop], out, block, last)?;
    }
    Ok(last)
}

/// Writes the header, if there is a title, and then the list of each value, of which the parts of the
/// cells are made ready.
// Inlined, its block would take its place on the stack while the caller runs another writer.
#[inline(never)]
pub(crate) fn write_lists<F: ListOfValue, W: Sink>(
    function: &F,
    separator: u8,
    title: Option<&[u8]>,
    names: &Names,
    cells: &[Cell],
    parts: &[(usize, usize)],
    out: &mut W,
) -> Result<(), RunError>
    requires size { length parts.now ≡ length names.now.spans.items }
    requires apart { AreApart (length parts.now) (length cells.now) parts.now }
    requires ready { (n : ℕ) → n < length parts.now
        → F.ready function.now (part_of cells.now (get_or parts.now n (0, 0))) }
    ensures { Writes (written (title_row separator (option_map (λ t. t.now) title.entry)
        ++ flat_map (λ n. value_lines separator
        (get_or (names_in names.now.bytes.items names.now.spans.items) n [])
        (F.listed function.now (part_of cells.now (get_or parts.now n (0, 0)))))
        (range_with_len 0 (length parts.now)))) result
        (sink_use W.taken W.has_failed out.old out.new) }
{
    let mut block = [0; BLOCK];
    let mut end = put_title(separator, title, out, &mut block)?;
    end = put_lists(
        function, separator, names, cells, parts, out, &mut block, end,
    )?;
    write_answer(out, &block[..end])
}

/// Puts the cells of each value together, makes the list of each, and then writes them; or returns the
/// error of the first one that is refused, at the first row of its value.
fn write_divided<F: ListOfValue, W: Sink>(
    function: &F,
    separator: u8,
    title: Option<&[u8]>,
    names: &Names,
    rows: &[u64],
    pairs: &[(Cell, u32)],
    cells: &mut [Cell],
    parts: &mut [(usize, usize)],
    out: &mut W,
) -> Result<(), RunError>
    requires small { All (λ p. p.1 < length names.now.spans.items) pairs.now }
    requires rows { length rows.now ≡ length names.now.spans.items }
    requires room { length cells.old ≡ length pairs.now }
    requires size { length parts.old ≡ length names.now.spans.items }
    requires zeros { parts.old ≡ replicate (length parts.old) (0, 0) }
    ensures { Writes (lists_answer separator (option_map (λ t. t.now) title.entry)
        (F.list_of function.now) (names_in names.now.bytes.items names.now.spans.items)
        rows.now pairs.now) result (sink_use W.taken W.has_failed out.old out.new) }
{
    divide_cells(pairs, parts, cells);
    match make_lists(function, cells, parts) {
        Ok(()) => write_lists(function, separator, title, names, cells, parts, out),
        Err((k, error)) => Err(RunError::Error(AnswerError::AtRow(rows[k], RowError::Call(error)))),
    }
}

/// Writes the list of each value of the cells, or returns the error of the first one that is refused, at
/// the first row of its value. `Fault::Memory` if there is no memory for the lists.
pub(crate) fn write_by_value<F: ListOfValue, W: Sink>(
    alloc: Global,
    function: &F,
    separator: u8,
    title: Option<&[u8]>,
    names: &Names,
    rows: &[u64],
    pairs: &[(Cell, u32)],
    out: &mut W,
) -> Result<(), RunError>
    requires small { All (λ p. p.1 < length names.now.spans.items) pairs.now }
    requires rows { length rows.now ≡ length names.now.spans.items }
    ensures { WritesUnlessMemory (lists_answer separator (option_map (λ t. t.now) title.entry)
        (F.list_of function.now) (names_in names.now.bytes.items names.now.spans.items)
        rows.now pairs.now) result (sink_use W.taken W.has_failed out.old out.new) }
{
    let mut cells = slots_for(alloc, pairs.len())?;
    let mut parts = empty_parts(alloc, names.spans.len())?;
    write_divided(
        function, separator, title, names, rows, pairs, &mut cells, &mut parts, out,
    )
}

/// The title of the values' field in the header, if the list has a header: empty if the header lacks
/// that field.
pub(crate) fn title_if(has_header: bool, title: &Option<Vec<u8>>) -> Option<&[u8]>
    ensures { option_map (λ t. t.now) result
        ≡ title_if has_header (option_map (λ t. t.items) title.now) }
{
    if !has_header {
        return None;
    }
    match title {
        Some(title) => Some(title),
        None => Some(b""),
    }
}

/// Reads a list of rows, and writes for each value of a field what a command answers to the cells of
/// the rows that have the value.
// Inlined, its blocks would take their place on the stack while the caller runs another command.
#[inline(never)]
pub(crate) fn answer_by<F: ListOfValue, R: Source, W: Sink>(
    alloc: Global,
    function: &F,
    rows: &RowOptions,
    field: &CellField,
    input: &mut R,
    out: &mut W,
) -> Result<(), RunError>
    requires { is_counted field.now ≡ true }
    ensures { EndsEntries (table_of rows.now field.now Text) (by_answer rows.now (F.list_of function.now))
        (source_use R.left R.has_failed input.old input.new) result
        (sink_use W.taken W.has_failed out.old out.new) }
{
    areas_divide_cells();
    let table = read_areas(alloc, rows, field, input)?;
    let title = title_if(rows.has_header, &table.title);
    write_by_value(
        alloc,
        function,
        rows.separator,
        title,
        &table.names,
        &table.rows,
        &table.cells,
        out,
    )
}

/// Writes what a command answers to the cells of a list, or, if a field divides its rows, to those of
/// each value. An error of a bare list is reported without its line.
pub(crate) fn answer_lists<F: ListFunction + ListOfValue + Drop, R: Source, W: Sink>(
    alloc: Global,
    function: F,
    tables: &Tables,
    input: &mut R,
    out: &mut W,
) -> Result<(), RunError>
    ensures { EndsOfList (by_request tables.now.by tables.now.list (F.list_of function)
        (of_whole (list_form tables.now.list) (F.answer_of function)))
        (source_use R.left R.has_failed input.old input.new) result
        (sink_use W.taken W.has_failed out.old out.new) }
{
    match (&tables.by, &tables.list) {
        (Some(field), Some(rows)) => answer_by(alloc, &function, rows, field, input, out),
        _ => answer_whole(alloc, function, &tables.list, input, out),
    }
}

/// The same, where an error of a bare list is reported with its line.
pub(crate) fn answer_numbered_lists<F: ListFunction + ListOfValue + Drop, R: Source, W: Sink>(
    alloc: Global,
    function: F,
    tables: &Tables,
    input: &mut R,
    out: &mut W,
) -> Result<(), RunError>
    ensures { EndsOfList (by_request tables.now.by tables.now.list (F.list_of function)
        (of_numbered itself (list_form tables.now.list) (F.answer_of function)))
        (source_use R.left R.has_failed input.old input.new) result
        (sink_use W.taken W.has_failed out.old out.new) }
{
    match (&tables.by, &tables.list) {
        (Some(field), Some(rows)) => answer_by(alloc, &function, rows, field, input, out),
        _ => answer_whole_numbered(alloc, function, &tables.list, input, out),
    }
}
