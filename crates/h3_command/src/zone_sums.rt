//! How many rows of a list have their cells in each of zones without names, and what the numbers in these
//! rows add up to.

ghost use Rattle.std.specs.Prelude.{◌≡◌, ◌<◌, ◌≤◌, ◌^◌, ℕ, true, All, IfErr, IfOk, List, codes, length};
ghost use Rattle.h3_index.specs.Cell.{Address};
ghost use Rattle.h3_lines.specs.Answer.{written};
ghost use Rattle.h3_lines.specs.Reads.{source_use};
ghost use Rattle.h3_lines.specs.Write.{sink_use};
ghost use Rattle.h3_lines.specs.declared.run_error.CellFile.TheVariants as kind_of_file;
ghost use Rattle.h3_lines.specs.declared.run_error.Fault.TheVariants.{Memory};
ghost use Rattle.h3_lines.specs.declared.run_error.RunError.TheVariants as refusal;
ghost use Rattle.h3_requests.specs.Rows.{is_counted};
ghost use Rattle.h3_rows.specs.Named.{table_of};
ghost use Rattle.h3_rows.specs.declared.table.FieldContent.TheVariants as content;
ghost use Rattle.h3_set.specs.Coverage.{IsApart};
ghost use Rattle.h3_command.specs.Rows.{list_form};
ghost use Rattle.h3_command.specs.Run.{EndsEntries, EndsOverFile};
ghost use Rattle.h3_command.specs.SumAnswers.{amounts_among, sum_titles};
ghost use Rattle.h3_command.specs.SumTables.{sums_table};
ghost use Rattle.h3_command.specs.ZoneSums.{zone_sums_answer, zones_have_header};
ghost use Rattle.h3_command.specs.ZoneTally.{placed, sums_of_zones, texts_in, zone_texts};

use crate::area_sums::sum_found;
use crate::files::{read_file, slots_for, table_of};
use crate::sum_rows::{RowNames, SumForm};
use crate::sum_tally::Apart;
use h3_index::{Cell, index_bytes};
use h3_lines::{CellFile, Fault, RunError};
use h3_regions::laws::{areas_are_lawful, zones_are_lawful};
use h3_regions::{ApartAreas, TabledZones, Zones, order_by_number};
use h3_requests::{CellField, RowOptions};
use h3_set::laws::coverages_decide_lists;
use h3_streams::{Sink, Source};
use std::alloc::Global;

/// The texts of zones, each in the first bytes of a block.
#[derive(Drop)]
struct ZoneTexts {
    blocks: Vec<([u8; 16], usize)>,
    ghost within: { All (λ b. b.1 ≤ 16) blocks.items },
}

impl RowNames for ZoneTexts {
    ghost names = { λ t. texts_in t.blocks.items };

    fn count(&self) -> usize {
        self.blocks.len()
    }

    fn name(&self, number: usize) -> &[u8] {
        let block = &self.blocks[number];
        &block.0[..block.1]
    }
}

/// Writes the texts of zones into as many blocks.
fn write_texts(zones: &[Cell], blocks: &mut [([u8; 16], usize)])
    requires { length zones.now ≡ length blocks.old }
    ensures texts { texts_in blocks.new ≡ zone_texts zones.now }
    ensures within { All (λ b. b.1 ≤ 16) blocks.new }
{
    for i in 0..zones.len() {
        blocks[i] = index_bytes(zones[i].raw());
    }
}

/// The texts of zones. `Fault::Memory` if there is no memory for them.
fn texts_of(alloc: Global, zones: &[Cell]) -> Result<ZoneTexts, RunError>
    ensures ok { IfOk result (λ texts. texts_in texts.blocks.items ≡ zone_texts zones.now) }
    ensures err { IfErr result (λ e. e ≡ refusal.Fault Memory) }
{
    match vec![in alloc; ([0; 16], 0); zones.len()] {
        Ok(blocks) => {
            let mut blocks = blocks;
            write_texts(zones, &mut blocks);
            Ok(ZoneTexts { blocks })
        }
        Err(_) => Err(RunError::Fault(Fault::Memory)),
    }
}

/// Writes each zone with its place into as many pairs.
fn write_places(zones: &[Cell], pairs: &mut [(Cell, u32)])
    requires size { length zones.now ≡ length pairs.old }
    requires few { length zones.now < 2 ^ 32 }
    ensures { pairs.new ≡ placed 0 zones.now }
{
    for i in 0..zones.len() {
        pairs[i] = (zones[i], i as u32);
    }
}

/// Each zone with its place. `Fault::Memory` if there is no memory for them, or there are 2^32 zones or
/// more.
fn with_places(alloc: Global, zones: &[Cell]) -> Result<Vec<(Cell, u32)>, RunError>
    ensures ok { IfOk result (λ pairs. pairs.items ≡ placed 0 zones.now) }
    ensures err { IfErr result (λ e. e ≡ refusal.Fault Memory) }
{
    if zones.len() > 0xffff_ffff {
        return Err(RunError::Fault(Fault::Memory));
    }
    match vec![in alloc; (Cell::in_base(0), 0); zones.len()] {
        Ok(pairs) => {
            let mut pairs = pairs;
            write_places(zones, &mut pairs);
            Ok(pairs)
        }
        Err(_) => Err(RunError::Fault(Fault::Memory)),
    }
}

/// Whether a table of sums has a header: if the zones are in a table that has one, or the list has one.
fn is_headed(file: &Option<RowOptions>, list: &RowOptions) -> bool
    ensures { result ≡ zones_have_header file.now list.now }
{
    match file {
        None => list.has_header,
        Some(rows) => rows.has_header || list.has_header,
    }
}

/// How the table of the sums of zones is written.
fn zone_form<'a>(file: &Option<RowOptions>, list: &RowOptions) -> SumForm<'a>
    ensures separator { result.separator ≡ list.now.separator }
    ensures header { result.has_header ≡ zones_have_header file.now list.now }
    ensures title { result.title.now ≡ codes "zone" }
    ensures none { result.none.now ≡ codes "0" }
{
    SumForm {
        separator: list.separator,
        has_header: is_headed(file, list),
        title: b"zone",
        none: b"0",
    }
}

/// Writes how many of the rows of a list have their cells in each of zones, in this order, and in none, and
/// what their numbers add up to.
fn sum_zones<R: Source, W: Sink>(
    alloc: Global,
    file: &Option<RowOptions>,
    list: &RowOptions,
    field: &CellField,
    zones: &[Cell],
    input: &mut R,
    out: &mut W,
) -> Result<(), RunError>
    requires counted { is_counted field.now ≡ true }
    requires apart { IsApart zones.now }
    ensures { EndsEntries (table_of list.now field.now content.Number)
        (λ rows. written (sums_table list.now.separator
        (sum_titles (zones_have_header file.now list.now) (codes "zone") rows)
        (sums_of_zones zones.now (amounts_among list.now.quotes rows))))
        (source_use R.left R.has_failed input.old input.new) result
        (sink_use W.taken W.has_failed out.old out.new) }
{
    areas_are_lawful();
    let texts = texts_of(alloc, zones)?;
    let mut pairs = with_places(alloc, zones)?;
    let mut slots = slots_for(alloc, pairs.len())?;
    let form = zone_form(file, list);
    match ApartAreas::of(&mut pairs, &mut slots) {
        Ok(areas) => {
            let zones = Zones::over(areas.cells());
            let places = table_of(alloc, &zones)?;
            let finder = Apart {
                areas,
                tabled: TabledZones::over(&zones, &places),
                place: 0,
            };
            sum_found(alloc, &form, list, field, &texts, finder, 1, input, out)
        }
        Err(_) => unreachable!(),
    }
}

/// Reads a file of zones without names, and then writes how many of the rows of a list have their cells in
/// each zone, in ascending order, and in none, and what the numbers in these rows add up to.
// Inlined, its blocks would take their place on the stack while the caller runs another command.
#[inline(never)]
pub(crate) fn sum_over_zones<R: Source, T: Source, W: Sink>(
    alloc: Global,
    file_rows: &Option<RowOptions>,
    list: &RowOptions,
    field: &CellField,
    input: &mut R,
    file: &mut T,
    out: &mut W,
) -> Result<(), RunError>
    requires { is_counted field.now ≡ true }
    ensures { EndsOverFile kind_of_file.Zones (list_form file_rows.now)
        (λ zones. EndsEntries (table_of list.now field.now content.Number)
        (zone_sums_answer file_rows.now list.now zones)
        (source_use R.left R.has_failed input.old input.new) result
        (sink_use W.taken W.has_failed out.old out.new))
        (source_use R.left R.has_failed input.old input.new)
        (source_use T.left T.has_failed file.old file.new) result
        (sink_use W.taken W.has_failed out.old out.new) }
{
    zones_are_lawful();
    coverages_decide_lists();
    let mut zones = read_file(alloc, CellFile::Zones, file_rows, file)?;
    order_by_number(&mut zones);
    sum_zones(alloc, file_rows, list, field, &zones, input, out)
}
