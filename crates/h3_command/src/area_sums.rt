//! How many rows of a list have their cells in each of the areas of a table of zones with names, and what
//! the numbers in these rows add up to.

ghost use Rattle.std.specs.Prelude.{◌≡◌, ◌+◌, ◌<◌, ◌≤◌, ℕ, true, All, List, IfErr, IfOk, IfSome, None, Some, length, option_map, pos, string_bytes, unwrap_or, codes};
ghost use Rattle.h3_index.specs.Cell.{Address};
ghost use Rattle.h3_requests.specs.Rows.{is_counted};
ghost use Rattle.h3_lines.specs.Answer.{written};
ghost use Rattle.h3_lines.specs.Reads.{source_use};
ghost use Rattle.h3_lines.specs.Write.{sink_use};
ghost use Rattle.h3_lines.specs.declared.run_error.Fault.TheVariants.{Memory};
ghost use Rattle.h3_lines.specs.declared.run_error.RunError.TheVariants as refusal;
ghost use Rattle.h3_numbers.specs.Number.{number_units};
ghost use Rattle.h3_numbers.specs.Sum.{sum_count, sum_units};
ghost use Rattle.h3_rows.specs.Areas.{area_cells, names_in};
ghost use Rattle.h3_rows.specs.Named.{Entry, IsNumberOf, names_table, table_of};
ghost use Rattle.h3_rows.specs.declared.table.FieldContent.TheVariants as content;
ghost use Rattle.h3_command.specs.AreaCounts.{has_header};
ghost use Rattle.h3_command.specs.AreaTable.{EndsJudged, HoldsAreas};
ghost use Rattle.h3_command.specs.Areas.{overlap_error};
ghost use Rattle.h3_command.specs.Run.{EndsEntries, EndsOverAreas};
ghost use Rattle.h3_command.specs.SumAnswers.{amount_in, amounts_among, area_sums, area_sums_answer, sum_titles};
ghost use Rattle.h3_command.specs.SumEntries.{SumsMore, sums_none, sums_then};
ghost use Rattle.h3_command.specs.SumRows.{titles_of};
ghost use Rattle.h3_command.specs.SumTables.{sums_table};

use crate::areas::{name_of_column, numbers_for, read_table};
use crate::files::{slots_for, table_of};
use crate::sum_rows::{RowNames, SumForm, write_sums};
use crate::sum_tally::{Apart, FindAreas, Overlapping, add_amount};
use h3_index::Cell;
use h3_lines::{AnswerError, CellFile, Fault, RunError};
use h3_numbers::laws::clones_are_equal;
use h3_numbers::{Number, Sum};
use h3_regions::laws::areas_are_lawful;
use h3_regions::{ApartAreas, Areas, TabledZones, Zones};
use h3_requests::{AreaOptions, CellField, RowOptions};
use h3_rows::laws::areas_divide_cells;
use h3_rows::{AreaTable, FieldContent, NamedJob, Names, field_number, take_named_cells};
use h3_streams::{Sink, Source};
use std::alloc::Global;

/// The number in a field of a row that is read, which may be known already, and 0 for a text that is none.
#[inline(always)]
pub(crate) fn amount_in(known: Option<Number>, quotes: bool, field: &[u8]) -> Number
    requires { IfSome known (IsNumberOf field.now) }
    ensures { number_units result ≡ amount_in quotes field.now }
{
    let read = match known {
        Some(_) => known,
        None => field_number(quotes, field),
    };
    match read {
        Some(number) => number,
        None => Number::zero(),
    }
}

/// How many of the rows taken so far have their cells in each area and in none, and what their numbers add
/// up to.
#[derive(Drop)]
struct SumTally<F: FindAreas> {
    finder: F,
    numbers: Vec<u32>,
    sums: Vec<Sum>,
    none: Sum,
    taken: u64,
    quotes: bool,
    title: Option<Vec<u8>>,
    alloc: Global,
    ghost room: { F.room finder ≤ length numbers.items },
    ghost small: { All (λ p. p.1 < length sums.items) (F.areas finder) },
    ghost few: { All (λ s. sum_count s ≤ taken) sums.items },
    ghost few_none: { sum_count none ≤ taken },
}

impl<F: FindAreas> NamedJob for SumTally<F> {
    ghost count = { λ t. t.taken };

    ghost taken = { λ t entries u. SumsMore (F.areas t.finder) (F.areas u.finder) t.quotes u.quotes
        t.sums.items t.none u.sums.items u.none
        (option_map (λ b. b.items) t.title) (option_map (λ b. b.items) u.title) entries };

    #[inline(always)]
    fn take(
        &mut self,
        cell: Option<Cell>,
        field: &[u8],
        known: Option<Number>,
        _row: u64,
    ) -> Result<(), RunError> {
        let Some(cell) = cell else {
            return match Vec::from_slice(self.alloc, field) {
                Ok(title) => {
                    self.title = Some(title);
                    Ok(())
                }
                Err(_) => Err(RunError::Fault(Fault::Memory)),
            };
        };
        let number = amount_in(known, self.quotes, field);
        add_amount(
            &mut self.finder,
            cell,
            number,
            &mut self.numbers,
            &mut self.sums,
            &mut self.none,
            self.taken,
        );
        self.taken += 1;
        Ok(())
    }

    ghost none_taken = { λ t. sums_none (F.areas t.finder) t.quotes t.sums.items t.none
        (option_map (λ b. b.items) t.title) };

    ghost taken_then = { λ t u v xs ys p q. sums_then _ _ _ _ _ _ _ _ _ _ _ _ _ _ _ xs ys p q };
}

impl RowNames for Names {
    ghost names = { λ n. names_in n.bytes.items n.spans.items };

    fn count(&self) -> usize {
        self.spans.len()
    }

    fn name(&self, number: usize) -> &[u8] {
        self.get(number).unwrap_or(b"")
    }
}

/// The title of the column of sums: that of the column of numbers in the header of a list, `sum` if there is
/// none.
pub(crate) fn sum_title(title: &Option<Vec<u8>>) -> &[u8]
    ensures { result.now ≡ unwrap_or (option_map (λ b. b.items) title.now) (codes "sum") }
{
    match title {
        Some(title) => title,
        None => b"sum",
    }
}

/// Whether a table of sums has a header: if the table of zones has one, or the list.
fn is_headed(options: &AreaOptions, list: &RowOptions) -> bool
    ensures { result ≡ has_header options.now (Some list.now) }
{
    options.table.rows.has_header || list.has_header
}

/// How the table of the sums of areas is written, with this title of the column of names.
fn area_form<'a>(options: &'a AreaOptions, list: &RowOptions, title: &'a [u8]) -> SumForm<'a>
    ensures separator { result.separator ≡ options.now.table.rows.separator }
    ensures header { result.has_header ≡ has_header options.now (Some list.now) }
    ensures title { result.title.now ≡ title.now }
    ensures none { result.none.now ≡ string_bytes options.now.none }
{
    SumForm {
        separator: options.table.rows.separator,
        has_header: is_headed(options, list),
        title,
        none: options.none.as_bytes(),
    }
}

/// The titles of the columns of names and of sums, if there is a header.
pub(crate) fn titles_if<'a>(
    has_header: bool,
    names: &'a [u8],
    sums: &'a [u8],
) -> Option<(&'a [u8], &'a [u8])>
    ensures { option_map (λ t. (t.0.now, t.1.now)) result ≡ titles_of has_header names.now sums.now }
{
    if has_header {
        Some((names, sums))
    } else {
        None
    }
}

/// So many sums of no numbers. `Fault::Memory` if there is no memory for them.
fn sums_for(alloc: Global, count: usize) -> Result<Vec<Sum>, RunError>
    ensures size { IfOk result (λ sums. length sums.items ≡ count) }
    ensures counts { IfOk result (λ sums. All (λ s. sum_count s ≡ 0) sums.items) }
    ensures units { IfOk result (λ sums. All (λ s. sum_units s ≡ pos 0) sums.items) }
    ensures err { IfErr result (λ e. e ≡ refusal.Fault Memory) }
{
    clones_are_equal();
    match vec![in alloc; Sum::new(); count] {
        Ok(sums) => Ok(sums),
        Err(_) => Err(RunError::Fault(Fault::Memory)),
    }
}

/// Writes how many of the rows of a list have their cells in each area and in none, and what their numbers
/// add up to, beside the names of the areas. There has to be room for so many numbers where areas are looked
/// for.
pub(crate) fn sum_found<R: Source, W: Sink, F: FindAreas + Drop, N: RowNames>(
    alloc: Global,
    form: &SumForm,
    list: &RowOptions,
    field: &CellField,
    names: &N,
    finder: F,
    room: usize,
    input: &mut R,
    out: &mut W,
) -> Result<(), RunError>
    requires counted { is_counted field.now ≡ true }
    requires room { F.room finder ≤ room }
    requires small { All (λ p. p.1 < length (N.names names.now)) (F.areas finder) }
    ensures { EndsEntries (table_of list.now field.now content.Number)
        (λ rows. written (sums_table form.now.separator
        (sum_titles form.now.has_header form.now.title.now rows)
        (area_sums form.now.none.now (N.names names.now) (F.areas finder)
        (amounts_among list.now.quotes rows))))
        (source_use R.left R.has_failed input.old input.new) result
        (sink_use W.taken W.has_failed out.old out.new) }
{
    let numbers = numbers_for(alloc, room)?;
    let sums = sums_for(alloc, names.count())?;
    let tally = SumTally {
        finder,
        numbers,
        sums,
        none: Sum::new(),
        taken: 0,
        quotes: list.quotes,
        title: None,
        alloc,
    };
    let tally = take_named_cells(alloc, tally, list, field, FieldContent::Number, input)?;
    let titles = titles_if(form.has_header, form.title, sum_title(&tally.title));
    let none = (form.none, tally.none);
    write_sums(form.separator, titles, names, &tally.sums, none, out)
}

/// Writes how many of the rows of a list have their cells in each area and in none, and what their numbers
/// add up to, unless two areas overlap and may not. If no two overlap, a cell's area is looked up by a table.
fn sum_areas<R: Source, W: Sink>(
    alloc: Global,
    options: &AreaOptions,
    list: &RowOptions,
    field: &CellField,
    table: &mut AreaTable,
    input: &mut R,
    out: &mut W,
) -> Result<(), RunError>
    requires counted { is_counted field.now ≡ true }
    requires small { All (λ p. p.1 < length table.old.names.spans.items) table.old.cells.items }
    ensures { (zones : List Entry) → HoldsAreas options.now.table.rows.quotes zones table.old
        → EndsJudged (overlap_error options.now.overlapping
        (area_cells options.now.table.rows.quotes zones))
        (EndsEntries (table_of list.now field.now content.Number)
        (area_sums_answer options.now list.now zones)
        (source_use R.left R.has_failed input.old input.new) result
        (sink_use W.taken W.has_failed out.old out.new))
        (source_use R.left R.has_failed input.old input.new) result
        (sink_use W.taken W.has_failed out.old out.new) }
{
    areas_are_lawful();
    let mut slots = slots_for(alloc, table.cells.len())?;
    let title = name_of_column(&table.title);
    let form = area_form(options, list, title);
    let names = &table.names;
    match ApartAreas::of(&mut table.cells, &mut slots) {
        Ok(areas) => {
            let zones = Zones::over(areas.cells());
            let places = table_of(alloc, &zones)?;
            let finder = Apart {
                areas,
                tabled: TabledZones::over(&zones, &places),
                place: 0,
            };
            sum_found(alloc, &form, list, field, names, finder, 1, input, out)
        }
        Err(refused) => {
            if !options.overlapping {
                return Err(RunError::Error(AnswerError::File(CellFile::Zones, refused.error)));
            }
            let pairs = refused.pairs;
            let room = pairs.len();
            let areas = Areas::of(pairs);
            let finder = Overlapping { areas };
            sum_found(alloc, &form, list, field, names, finder, room, input, out)
        }
    }
}

/// Reads a table of zones with names, and then writes how many of the rows of a list have their cells in
/// each area and in none, and what the numbers in these rows add up to.
// Inlined, its blocks would take their place on the stack while the caller runs another command.
#[inline(never)]
pub(crate) fn sum_over_areas<R: Source, T: Source, W: Sink>(
    alloc: Global,
    options: &AreaOptions,
    list: &RowOptions,
    field: &CellField,
    input: &mut R,
    file: &mut T,
    out: &mut W,
) -> Result<(), RunError>
    requires { is_counted field.now ≡ true }
    ensures { EndsOverAreas options.now.overlapping (names_table options.now.table)
        (λ zones. EndsEntries (table_of list.now field.now content.Number)
        (area_sums_answer options.now list.now zones)
        (source_use R.left R.has_failed input.old input.new) result
        (sink_use W.taken W.has_failed out.old out.new))
        (source_use R.left R.has_failed input.old input.new)
        (source_use T.left T.has_failed file.old file.new) result
        (sink_use W.taken W.has_failed out.old out.new) }
{
    areas_divide_cells();
    let mut table = read_table(alloc, options, file)?;
    sum_areas(alloc, options, list, field, &mut table, input, out)
}
