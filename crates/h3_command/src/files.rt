//! Files of cells, that of a region or of zones, and what is answered over the cells of one.
//!
//! A file is bare, a cell on each line, or has rows, of which one field has the cell. For a file of
//! either kind: its first faulty line is `AnswerError::FileAt`, and its first row with an error
//! `AnswerError::FileAtRow`; a column that is not one field of its header is `AnswerError::FileColumn`;
//! zones of which two overlap are `AnswerError::File` with `DuplicateInput`; and `Fault::Read` and
//! `Fault::Memory` are as of `read_numbered_cells` and `take_row_cells`.

ghost use Rattle.std.specs.Prelude.{◌≡◌, ◌<◌, ◌↔◌, ℕ, List, length, None, Err, IfOk, IfErr, IfSome, IsPermutation, OnOk, codes};
ghost use Rattle.std.specs.Result.{result_err};
ghost use Rattle.h3_index.specs.Cell.{Address};
ghost use Rattle.h3_streams.specs.Stream.{HasLeft};
ghost use Rattle.h3_set.specs.Compacted.{compacted};
ghost use Rattle.h3_set.specs.Coverage.{IsCovered};
ghost use Rattle.h3_regions.specs.Algebra.{difference, intersection};
ghost use Rattle.h3_regions.specs.Region.{IsRegion};
ghost use Rattle.h3_regions.specs.Zones.{IsZones};
ghost use Rattle.h3_lines.specs.Answer.{cell_lines, written};
ghost use Rattle.h3_lines.specs.Reads.{source_use};
ghost use Rattle.h3_lines.specs.Write.{Writes, sink_use};
ghost use Rattle.h3_lines.specs.declared.run_error.CellFile.TheVariants as kind_of_file;
ghost use Rattle.h3_lines.specs.declared.run_error.Fault.TheVariants.{Memory};
ghost use Rattle.h3_lines.specs.declared.run_error.RunError.TheVariants as refusal;
ghost use Rattle.h3_command.specs.Answer.ListRequest.{of_lines};
ghost use Rattle.h3_command.specs.Answer.Request.{after_file};
ghost use Rattle.h3_command.specs.Combination.{AreArranged, combined, combined_answer, region_answer, in_file};
ghost use Rattle.h3_command.specs.Files.{cell_to_zone, covered_answer, error_of_file, file_error, is_covered_cell, zone_answer};
ghost use Rattle.h3_command.specs.Rows.{file_form, list_form, rows_form};
ghost use Rattle.h3_command.specs.Run.{Ends, EndsLines, GivesFile, RefusesFile};

use crate::listed::{ListFunction, read_numbered};
use crate::required::cell_given;
use crate::rows::answer_listed;
use h3_index::{Cell, H3Error};
use h3_lines::{
    AnswerError, AnswerLine, BLOCK, CellFile, Fault, LINES, RunError, put_result, write_lines,
};
use h3_regions::laws::{coverages_decide_combinations, zones_are_lawful};
use h3_regions::{
    Region, TabledZones, Zones, intersect, order_by_number, order_zones, subtract, write_table,
};
use h3_requests::{RowOptions, Tables};
use h3_streams::{Sink, Source};
use std::alloc::Global;

/// An error of a file's list, with the file's kind.
fn error_of_file(file: CellFile, error: AnswerError) -> AnswerError
    ensures { result ≡ error_of_file file error }
{
    match error {
        AnswerError::At(line, error) => AnswerError::FileAt(file, line, error),
        AnswerError::AtRow(row, error) => AnswerError::FileAtRow(file, row, error),
        AnswerError::Column(error) => AnswerError::FileColumn(file, error),
        other => other,
    }
}

/// Adds the file's kind to an error of its list.
pub(crate) fn in_file(file: CellFile, refusal: RunError) -> RunError
    ensures { result ≡ in_file file refusal }
{
    match refusal {
        RunError::Error(error) => RunError::Error(error_of_file(file, error)),
        fault => fault,
    }
}

/// Puts the cells of a file in the order in which they are used: zones as `order_zones` does. Those of
/// a region stay as they are.
fn arrange(kind: CellFile, cells: &mut [Cell]) -> Result<(), H3Error>
    ensures refused { result_err result ≡ file_error kind cells.old }
    ensures arranged { OnOk result (AreArranged kind cells.old cells.new) }
{
    match kind {
        CellFile::Region => Ok(()),
        CellFile::Zones => order_zones(cells),
    }
}

/// Reads a file of cells, bare or of rows, and judges and arranges them as a whole.
pub(crate) fn read_file<T: Source>(
    alloc: Global,
    kind: CellFile,
    rows: &Option<RowOptions>,
    file: &mut T,
) -> Result<Vec<Cell>, RunError>
    ensures cells { IfOk result (λ cells. (bytes : List ℕ) × HasLeft (T.left file.old) bytes ×
        (listed : List Address) ×
        GivesFile kind (list_form rows.now) bytes
        (source_use T.left T.has_failed file.old file.new) listed ×
        AreArranged kind listed cells.items) }
    ensures refused { IfErr result (λ e. (bytes : List ℕ) × HasLeft (T.left file.old) bytes ×
        RefusesFile kind (list_form rows.now) bytes
        (source_use T.left T.has_failed file.old file.new) (Err e)) }
{
    match read_numbered(alloc, rows, file) {
        Ok(cells) => {
            let mut cells = cells;
            match arrange(kind, &mut cells) {
                Ok(()) => Ok(cells),
                Err(error) => Err(RunError::Error(AnswerError::File(kind, error))),
            }
        }
        Err(refusal) => Err(in_file(kind, refusal)),
    }
}

/// What is made of the cells of a list and those of a file.
#[derive(Clone, Copy)]
pub(crate) enum Combination {
    /// What both cover.
    Shared,

    /// What the list covers and the file does not.
    Left,
}

/// A copy of cells. `Fault::Memory` where there is none for it.
pub(crate) fn copied(alloc: Global, cells: &[Cell]) -> Result<Vec<Cell>, RunError>
    ensures ok { IfOk result (λ copy. copy.items ≡ cells.now) }
    ensures err { IfErr result (λ e. e ≡ refusal.Fault Memory) }
{
    match cells.to_vec(alloc) {
        Ok(copy) => Ok(copy),
        Err(_) => Err(RunError::Fault(Fault::Memory)),
    }
}

/// Slots for so many cells. `Fault::Memory` where there is none for them.
pub(crate) fn slots_for(alloc: Global, count: usize) -> Result<Vec<Cell>, RunError>
    ensures ok { IfOk result (λ slots. length slots.items ≡ count) }
    ensures err { IfErr result (λ e. e ≡ refusal.Fault Memory) }
{
    match vec![in alloc; Cell::in_base(0); count] {
        Ok(slots) => Ok(slots),
        Err(_) => Err(RunError::Fault(Fault::Memory)),
    }
}

/// The region of what two lists both cover, in post order. `Fault::Memory` where there is none for
/// it.
fn shared_cells(
    alloc: Global,
    cells: &mut [Cell],
    others: &mut [Cell],
) -> Result<Vec<Cell>, RunError>
    ensures ok { IfOk result (λ shared.
        compacted shared.items ≡ intersection cells.old others.old) }
    ensures region { IfOk result (λ shared. IsRegion shared.items) }
    ensures err { IfErr result (λ e. e ≡ refusal.Fault Memory) }
{
    coverages_decide_combinations();
    let cells = Region::of(cells);
    let others = Region::of(others);
    let room = cells.cells().len() + others.cells().len();
    let mut slots = slots_for(alloc, room)?;
    let shared = intersect(&cells, &others, &mut slots);
    copied(alloc, shared.cells())
}

/// The cells of the region that one region covers and another does not, where that has at most so
/// many cells. `Fault::Memory` where there is none for it.
fn left_within(
    alloc: Global,
    cells: &Region,
    others: &Region,
    room: usize,
) -> Result<Option<Vec<Cell>>, RunError>
    ensures region { IfOk result (λ left. IfSome left (λ l. IsRegion l.items)) }
    ensures covers { IfOk result (λ left. IfSome left (λ l. (x : Address)
        → IsCovered l.items 15 x
        ↔ (IsCovered cells.now 15 x × (¬ IsCovered others.now 15 x)))) }
    ensures none { IfOk result (λ left. left ≡ None
        → room < length (difference cells.now others.now)) }
    ensures err { IfErr result (λ e. e ≡ refusal.Fault Memory) }
{
    // for the proof: that its cells are valid
    let _ = others.cells();
    let mut slots = slots_for(alloc, room)?;
    match subtract(cells, others, &mut slots) {
        Some(left) => {
            let left = copied(alloc, left.cells())?;
            Ok(Some(left))
        }
        None => Ok(None),
    }
}

/// The cells of the region that one region covers and another does not. `Fault::Memory` where there is
/// none for it.
pub(crate) fn left_of_region(
    alloc: Global,
    cells: &Region,
    others: &Region,
) -> Result<Vec<Cell>, RunError>
    ensures covers { IfOk result (λ left. (x : Address) → IsCovered left.items 15 x
        ↔ (IsCovered cells.now 15 x × (¬ IsCovered others.now 15 x))) }
    ensures region { IfOk result (λ left. IsRegion left.items) }
    ensures err { IfErr result (λ e. e ≡ refusal.Fault Memory) }
{
    let mut room = cells.cells().len();
    loop {
        match left_within(alloc, cells, others, room)? {
            Some(left) => return Ok(left),
            None => {
                let more = room.checked_add(room.max(1));
                room = more.ok_or(RunError::Fault(Fault::Memory))?;
            }
        }
    }
}

/// The region of what one list covers and another does not, in post order. `Fault::Memory` where
/// there is none for it.
fn left_cells(alloc: Global, cells: &mut [Cell], others: &mut [Cell]) -> Result<Vec<Cell>, RunError>
    ensures ok { IfOk result (λ left. compacted left.items ≡ difference cells.old others.old) }
    ensures region { IfOk result (λ left. IsRegion left.items) }
    ensures err { IfErr result (λ e. e ≡ refusal.Fault Memory) }
{
    coverages_decide_combinations();
    let cells = Region::of(cells);
    let others = Region::of(others);
    left_of_region(alloc, &cells, &others)
}

/// The region that is made of the cells of a list and those of a file, in post order.
fn combined_cells(
    alloc: Global,
    kind: Combination,
    cells: &mut [Cell],
    others: &mut [Cell],
) -> Result<Vec<Cell>, RunError>
    ensures ok { IfOk result (λ made. compacted made.items ≡ combined kind others.old cells.old) }
    ensures region { IfOk result (λ made. IsRegion made.items) }
    ensures err { IfErr result (λ e. e ≡ refusal.Fault Memory) }
{
    match kind {
        Combination::Shared => shared_cells(alloc, cells, others),
        Combination::Left => left_cells(alloc, cells, others),
    }
}

/// Writes the cells of a region in ascending order.
fn write_region<W: Sink>(cells: &mut [Cell], out: &mut W) -> Result<(), RunError>
    requires { IsRegion cells.old }
    ensures { Writes (written (cell_lines (compacted cells.old))) result
        (sink_use W.taken W.has_failed out.old out.new) }
{
    order_by_number(cells);
    write_lines(out, cells.iter().copied())
}

/// What is made of the cells of a list and those of a file.
#[derive(Drop)]
pub(crate) struct Combine<'c> {
    pub(crate) alloc: Global,
    pub(crate) kind: Combination,
    pub(crate) others: &'c mut [Cell],
}

impl<'c> ListFunction for Combine<'c> {
    ghost answer_of = { λ f. combined_answer f.kind f.others.now };

    fn write<W: Sink>(self, cells: &mut [Cell], out: &mut W) -> Result<(), RunError> {
        let mut made = combined_cells(self.alloc, self.kind, cells, self.others)?;
        write_region(&mut made, out)
    }
}

/// Whether a region covers the cell with an index, looked for from where the last cell's member of
/// it was found. `Failed` where there is no index, and `CellInvalid` where no cell has it.
#[inline(always)]
fn is_covered_cell(region: &Region, index: Option<u64>, place: &mut usize) -> Result<bool, H3Error>
    ensures { result ≡ is_covered_cell region.now index }
{
    zones_are_lawful();
    let cell = cell_given(index)?;
    Ok(region.zones().zone_near(cell, place).is_some())
}

/// The zone of the cell with an index, looked for from where the last cell's was found. Errors as of
/// `is_covered_cell`.
#[inline(always)]
fn cell_to_zone(
    zones: &Zones,
    index: Option<u64>,
    place: &mut usize,
) -> Result<Option<Cell>, H3Error>
    ensures { result ≡ cell_to_zone zones.now index }
{
    let cell = cell_given(index)?;
    Ok(zones.zone_near(cell, place))
}

/// The most places of a table of zones: 256 KiB, which most second-level caches hold. More would make
/// no look-up much faster that has to wait for the zones' memory.
const TABLE: usize = 65_536;

/// A table that makes the search for a zone short. `Fault::Memory` where there is none for it.
pub(crate) fn table_of(alloc: Global, zones: &Zones) -> Result<Vec<u32>, RunError>
    ensures { IfErr result (λ e. e ≡ refusal.Fault Memory) }
{
    let room = zones.cells().len().saturating_mul(4).min(TABLE);
    let mut table = vec![in alloc; 0u32; room].map_err(|_| RunError::Fault(Fault::Memory))?;
    write_table(zones, &mut table);
    Ok(table)
}

/// The places at which the zones of the next cells, those with these indexes, are looked for; `None`
/// if they are looked for from the last place, as `are_near` says, or if there is one alone.
#[inline(always)]
pub(crate) fn look_ahead(
    zones: &TabledZones,
    indexes: &[u64],
    place: usize,
) -> Option<[usize; LINES]> {
    if indexes.len() < 2 || zones.zones().are_near(indexes, place) {
        None
    } else {
        Some(zones.look_ahead(indexes))
    }
}

/// Whether a region covers a cell, of which `answer_each` writes the answers.
#[derive(Drop)]
struct CoveredBy<'r> {
    region: Region<'r>,
    tabled: TabledZones<'r>,
}

impl<'r> AnswerLine for CoveredBy<'r> {
    ghost answer_of = { λ f. region_answer f.region };

    #[inline(always)]
    fn put(
        &self,
        index: Option<u64>,
        place: &mut usize,
        block: &mut [u8; BLOCK],
        at: usize,
    ) -> Result<usize, H3Error> {
        put_result(is_covered_cell(&self.region, index, place), block, at)
    }

    #[inline(always)]
    fn looks_ahead(&self) -> bool {
        true
    }

    #[inline(always)]
    fn look_for(&self, index: u64, place: usize) -> usize {
        self.tabled.look_for(index, place)
    }

    #[inline(always)]
    fn look_ahead(&self, indexes: &[u64], place: usize) -> Option<[usize; LINES]> {
        look_ahead(&self.tabled, indexes, place)
    }
}

/// The zone of a cell, of which `answer_each` writes the answers.
#[derive(Drop)]
struct ZoneOf<'z> {
    zones: Zones<'z>,
    tabled: TabledZones<'z>,
}

impl<'z> AnswerLine for ZoneOf<'z> {
    ghost answer_of = { λ f. zone_answer f.zones };

    #[inline(always)]
    fn put(
        &self,
        index: Option<u64>,
        place: &mut usize,
        block: &mut [u8; BLOCK],
        at: usize,
    ) -> Result<usize, H3Error> {
        put_result(cell_to_zone(&self.zones, index, place), block, at)
    }

    #[inline(always)]
    fn looks_ahead(&self) -> bool {
        true
    }

    #[inline(always)]
    fn look_for(&self, index: u64, place: usize) -> usize {
        self.tabled.look_for(index, place)
    }

    #[inline(always)]
    fn look_ahead(&self, indexes: &[u64], place: usize) -> Option<[usize; LINES]> {
        look_ahead(&self.tabled, indexes, place)
    }
}

/// Writes for each cell listed on the input, or with each row, whether the region of some cells
/// covers it.
pub(crate) fn answer_covered<R: Source, W: Sink>(
    alloc: Global,
    rows: &Option<RowOptions>,
    cells: &mut [Cell],
    input: &mut R,
    out: &mut W,
) -> Result<(), RunError>
    ensures { EndsLines (rows_form rows.now (codes "isCovered"))
        (covered_answer cells.old) (source_use R.left R.has_failed input.old input.new) result
        (sink_use W.taken W.has_failed out.old out.new) }
{
    zones_are_lawful();
    let region = Region::of(cells);
    let table = table_of(alloc, &region.zones())?;
    let tabled = TabledZones::over(&region.zones(), &table);
    let function = CoveredBy { region, tabled };
    answer_listed(alloc, rows, "isCovered", &function, input, out)
}

/// Writes the zone of each cell listed on the input, or with each row, of zones in order.
pub(crate) fn answer_zones<R: Source, W: Sink>(
    alloc: Global,
    rows: &Option<RowOptions>,
    zones: &[Cell],
    input: &mut R,
    out: &mut W,
) -> Result<(), RunError>
    requires { IsZones zones.now }
    ensures { EndsLines (rows_form rows.now (codes "zone"))
        (zone_answer zones.now) (source_use R.left R.has_failed input.old input.new) result
        (sink_use W.taken W.has_failed out.old out.new) }
{
    let zones = Zones::over(zones);
    let table = table_of(alloc, &zones)?;
    let tabled = TabledZones::over(&zones, &table);
    answer_listed(alloc, rows, "zone", &ZoneOf { zones, tabled }, input, out)
}

/// Reads the file of a region, and then writes for each cell of a list, or with each row, whether the region
/// covers it.
// Inlined, its blocks would take their place on the stack while the caller runs another command.
#[inline(never)]
pub(crate) fn covered_over_file<R: Source, T: Source, W: Sink>(
    alloc: Global,
    tables: &Tables,
    input: &mut R,
    file: &mut T,
    out: &mut W,
) -> Result<(), RunError>
    ensures { Ends (after_file kind_of_file.Region (file_form tables.now)
        (λ region. of_lines (rows_form tables.now.list (codes "isCovered")) (covered_answer region)))
        (source_use R.left R.has_failed input.old input.new)
        (source_use T.left T.has_failed file.old file.new) result
        (sink_use W.taken W.has_failed out.old out.new) }
{
    let mut cells = read_file(alloc, CellFile::Region, &tables.file, file)?;
    answer_covered(alloc, &tables.list, &mut cells, input, out)
}

/// Reads a file of zones, and then writes the zone of each cell of a list, or with each row.
// Inlined, as the one above.
#[inline(never)]
pub(crate) fn zones_over_file<R: Source, T: Source, W: Sink>(
    alloc: Global,
    tables: &Tables,
    input: &mut R,
    file: &mut T,
    out: &mut W,
) -> Result<(), RunError>
    ensures { Ends (after_file kind_of_file.Zones (file_form tables.now)
        (λ zones. of_lines (rows_form tables.now.list (codes "zone")) (zone_answer zones)))
        (source_use R.left R.has_failed input.old input.new)
        (source_use T.left T.has_failed file.old file.new) result
        (sink_use W.taken W.has_failed out.old out.new) }
{
    zones_are_lawful();
    let zones = read_file(alloc, CellFile::Zones, &tables.file, file)?;
    answer_zones(alloc, &tables.list, &zones, input, out)
}
