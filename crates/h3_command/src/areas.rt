//! Tables of zones with names, and the name of the area of each cell of a list, or the names of its areas if
//! these may overlap. The table is read, and its areas judged, before standard input is read.
//!
//! Its first row with an error is `AnswerError::FileAtRow`; a column that its header does not have, or has
//! twice, is `AnswerError::FileColumn`; areas of which two overlap, if they may not, are
//! `AnswerError::File` with `DuplicateInput`; and `Fault::Read` and `Fault::Memory` are as of `read_areas`.

ghost use Rattle.std.specs.Prelude.{◌≡◌, ◌≤◌, ℕ, Bool, false, All, List, length, Err, IfOk, IfErr, codes, string_bytes, option_map, unwrap_or};
ghost use Rattle.h3_streams.specs.Stream.{HasLeft};
ghost use Rattle.h3_lines.specs.Pieces.{Uncut};
ghost use Rattle.h3_lines.specs.Reads.{source_use};
ghost use Rattle.h3_lines.specs.Write.{sink_use};
ghost use Rattle.h3_lines.specs.declared.run_error.Fault.TheVariants.{Memory};
ghost use Rattle.h3_lines.specs.declared.run_error.RunError.TheVariants as refusal;
ghost use Rattle.h3_rows.specs.Areas.{names_in};
ghost use Rattle.h3_rows.specs.Named.{Entry, names_table};
ghost use Rattle.h3_command.specs.AreaTable.{EndsWithAreas, HoldsAreas, ReadsAreas};
ghost use Rattle.h3_command.specs.Areas.{area_answer, name_answer};
ghost use Rattle.h3_command.specs.Rows.{area_form, text_form};
ghost use Rattle.h3_command.specs.Run.{EndsLines, EndsOverAreas, RefusesAreas};

use crate::area_names::{AreaOf, AreasOf};
use crate::files::{in_file, slots_for, table_of};
use crate::rows::{answer_listed_several, answer_listed_texts};
use crate::short_names::short_names;
use h3_index::Cell;
use h3_lines::{AnswerError, CellFile, Fault, RunError};
use h3_regions::laws::areas_are_lawful;
use h3_regions::{ApartAreas, Areas, TabledZones, Zones};
use h3_requests::{AreaOptions, RowOptions};
use h3_rows::laws::areas_divide_cells;
use h3_rows::{AreaTable, Names, read_areas};
use h3_streams::{Sink, Source};
use std::alloc::Global;

/// Reads a table of zones with names.
pub(crate) fn read_table<T: Source>(
    alloc: Global,
    options: &AreaOptions,
    file: &mut T,
) -> Result<AreaTable, RunError>
    ensures table { IfOk result (λ table. (bytes : List ℕ) × HasLeft (T.left file.old) bytes ×
        (entries : List Entry) ×
        ReadsAreas (names_table options.now.table) bytes
        (source_use T.left T.has_failed file.old file.new) entries ×
        HoldsAreas options.now.table.rows.quotes entries table) }
    ensures refused { IfErr result (λ e. (bytes : List ℕ) × HasLeft (T.left file.old) bytes ×
        ((overlapping : Bool) → RefusesAreas overlapping (names_table options.now.table) bytes
        (source_use T.left T.has_failed file.old file.new) (Err e))) }
{
    match read_areas(alloc, &options.table.rows, &options.table.name, file) {
        Ok(table) => Ok(table),
        Err(refusal) => Err(in_file(CellFile::Zones, refusal)),
    }
}

/// The name of the new column, unless another is given: that of the column of names in the header of a
/// table, `zone` if there is none.
pub(crate) fn name_of_column(title: &Option<Vec<u8>>) -> &[u8]
    ensures { result.now ≡ unwrap_or (option_map (λ t. t.items) title.now) (codes "zone") }
{
    match title {
        Some(title) => title,
        None => b"zone",
    }
}

/// Writes the name of the area of each listed cell, or each row with it. No two areas overlap.
fn answer_apart<R: Source, W: Sink>(
    alloc: Global,
    rows: &Option<RowOptions>,
    column: &[u8],
    areas: ApartAreas,
    names: &Names,
    none: &[u8],
    input: &mut R,
    out: &mut W,
) -> Result<(), RunError>
    requires lines { All (λ name. Uncut 10 names.now.quotes false name false)
        (names_in names.now.bytes.items names.now.spans.items) }
    requires line { Uncut 10 names.now.quotes false none.now false }
    ensures { EndsLines (text_form rows.now names.now.quotes column.now)
        (name_answer none.now (names_in names.now.bytes.items names.now.spans.items) areas.entry)
        (source_use R.left R.has_failed input.old input.new) result
        (sink_use W.taken W.has_failed out.old out.new) }
{
    let zones = Zones::over(areas.cells());
    let table = table_of(alloc, &zones)?;
    let tabled = TabledZones::over(&zones, &table);
    let short = short_names(alloc, names)?;
    let function = AreaOf {
        areas,
        tabled,
        names,
        short: &short,
        none,
    };
    answer_listed_texts(alloc, rows, column, &function, input, out)
}

/// So many numbers. `Fault::Memory` where there is none for them.
pub(crate) fn numbers_for(alloc: Global, count: usize) -> Result<Vec<u32>, RunError>
    ensures ok { IfOk result (λ numbers. length numbers.items ≡ count) }
    ensures err { IfErr result (λ e. e ≡ refusal.Fault Memory) }
{
    match vec![in alloc; 0; count] {
        Ok(numbers) => Ok(numbers),
        Err(_) => Err(RunError::Fault(Fault::Memory)),
    }
}

/// Writes the names of the areas of each listed cell, or each row once with each. There must be as many
/// numbers as pairs.
fn answer_several<R: Source, W: Sink>(
    alloc: Global,
    rows: &Option<RowOptions>,
    column: &[u8],
    areas: Areas,
    names: &Names,
    none: &[u8],
    numbers: &mut [u32],
    input: &mut R,
    out: &mut W,
) -> Result<(), RunError>
    requires lines { All (λ name. Uncut 10 names.now.quotes false name false)
        (names_in names.now.bytes.items names.now.spans.items) }
    requires line { Uncut 10 names.now.quotes false none.now false }
    requires room { length areas ≤ length numbers.old }
    ensures { EndsLines (text_form rows.now names.now.quotes column.now)
        (name_answer none.now (names_in names.now.bytes.items names.now.spans.items) areas.entry)
        (source_use R.left R.has_failed input.old input.new) result
        (sink_use W.taken W.has_failed out.old out.new) }
{
    let function = AreasOf { areas, names, none };
    answer_listed_several(alloc, rows, column, &function, numbers, input, out)
}

/// Writes the names of the areas of each listed cell, or each row once with each, unless two areas overlap
/// and may not. If no two overlap, a cell's area is looked up by a table.
fn answer_areas<R: Source, W: Sink>(
    alloc: Global,
    options: &AreaOptions,
    rows: &Option<RowOptions>,
    table: &mut AreaTable,
    input: &mut R,
    out: &mut W,
) -> Result<(), RunError>
    requires lines { All (λ name. Uncut 10 table.old.names.quotes false name false)
        (names_in table.old.names.bytes.items table.old.names.spans.items) }
    requires line { Uncut 10 table.old.names.quotes false (string_bytes options.now.none) false }
    ensures { (entries : List Entry) → HoldsAreas options.now.table.rows.quotes entries table.old
        → EndsWithAreas options.now.overlapping options.now rows.now entries
        (source_use R.left R.has_failed input.old input.new) result
        (sink_use W.taken W.has_failed out.old out.new) }
{
    areas_are_lawful();
    let mut slots = slots_for(alloc, table.cells.len())?;
    let column = name_of_column(&table.title);
    let none = options.none.as_bytes();
    match ApartAreas::of(&mut table.cells, &mut slots) {
        Ok(areas) => answer_apart(alloc, rows, column, areas, &table.names, none, input, out),
        Err(refused) => {
            if !options.overlapping {
                return Err(RunError::Error(AnswerError::File(CellFile::Zones, refused.error)));
            }
            let pairs = refused.pairs;
            let mut numbers = numbers_for(alloc, pairs.len())?;
            let areas = Areas::of(pairs);
            answer_several(
                alloc,
                rows,
                column,
                areas,
                &table.names,
                none,
                &mut numbers,
                input,
                out,
            )
        }
    }
}

/// Reads a table of zones with names, and then writes the names of the areas of each listed cell, or each
/// row once with each.
// Inlined, its blocks would take their place on the stack while the caller runs another command.
#[inline(never)]
pub(crate) fn answer_over_areas<R: Source, T: Source, W: Sink>(
    alloc: Global,
    options: &AreaOptions,
    rows: &Option<RowOptions>,
    input: &mut R,
    file: &mut T,
    out: &mut W,
) -> Result<(), RunError>
    ensures { EndsOverAreas options.now.overlapping (names_table options.now.table)
        (λ entries. EndsLines (area_form rows.now options.now.table.rows.quotes entries)
        (area_answer options.now.table.rows.quotes (string_bytes options.now.none) entries)
        (source_use R.left R.has_failed input.old input.new) result
        (sink_use W.taken W.has_failed out.old out.new))
        (source_use R.left R.has_failed input.old input.new)
        (source_use T.left T.has_failed file.old file.new) result
        (sink_use W.taken W.has_failed out.old out.new) }
{
    areas_divide_cells();
    let mut table = read_table(alloc, options, file)?;
    answer_areas(alloc, options, rows, &mut table, input, out)
}
