//! How many cells of a list lie in each of the areas of a table of zones with names.

ghost use Rattle.std.proofs.Common.{◌∙◌, refl};
ghost use Rattle.std.specs.Prelude.{◌≡◌, ◌+◌, ◌<◌, ◌≤◌, ◌++◌, ◌∷◌, [], ℕ, All, Bool, List, IfOk, OnErr, length, map, sum, take, None, Some, option_map, string_bytes, if◌then◌else◌};
ghost use Rattle.std.specs.List.{flat_map};
ghost use Rattle.h3_index.specs.Cell.{Address};
ghost use Rattle.h3_lines.specs.Answer.{written};
ghost use Rattle.h3_lines.specs.Answering.{FailsPush, Moves};
ghost use Rattle.h3_lines.specs.List.{itself};
ghost use Rattle.h3_lines.specs.Reads.{source_use};
ghost use Rattle.h3_lines.specs.Write.{Writes, sink_use};
ghost use Rattle.h3_rows.specs.Areas.{area_cells, names_in};
ghost use Rattle.h3_rows.specs.Named.{Entry, names_table};
ghost use Rattle.h3_command.specs.AreaCounts.{area_counts, area_counts_answer, count_row, counts_table, has_header, header_row};
ghost use Rattle.h3_command.specs.AreaTable.{EndsJudged, HoldsAreas};
ghost use Rattle.h3_command.specs.AreaTally.{AreaCountsMore, area_counts_none, area_counts_then, named_counts};
ghost use Rattle.h3_command.specs.Areas.{overlap_error};
ghost use Rattle.h3_command.specs.Rows.{list_form};
ghost use Rattle.h3_command.specs.Run.{EndsNumberedList, EndsOverAreas};

use crate::areas::{name_of_column, numbers_for, read_table};
use crate::files::{look_ahead, slots_for, table_of};
use crate::listed::take_listed;
use crate::overlap_tally::OverlapTally;
use h3_index::Cell;
use h3_lines::{
    AnswerError, BLOCK, CellFile, CellJob, Fault, LINES, Line, RunError, write_all, write_answer,
};
use h3_regions::laws::areas_are_lawful;
use h3_regions::{ApartAreas, Areas, TabledZones, Zones, count_next_in_areas};
use h3_requests::{AreaOptions, RowOptions};
use h3_rows::laws::areas_divide_cells;
use h3_rows::{AreaTable, Names};
use h3_streams::{Sink, Source, StreamFault};
use std::alloc::Global;

/// How many of the cells taken so far lie in each area, and how many in none.
#[derive(Drop)]
struct AreaTally<'a> {
    areas: ApartAreas<'a>,
    counts: Vec<u64>,
    none: u64,
    place: usize,
    tabled: TabledZones<'a>,
    ghost small: { All (λ p. p.1 < length counts.items) areas },
}

impl<'a> CellJob for AreaTally<'a> {
    ghost count = { λ t. sum t.counts.items + t.none };

    ghost taken = { λ t cells u. (u.areas ≡ t.areas) ×
        AreaCountsMore t.areas t.counts.items t.none cells u.counts.items u.none };

    #[inline(always)]
    fn take(&mut self, cell: Cell, place: Option<usize>) -> Result<(), Fault> {
        self.place = place.unwrap_or(self.place);
        self.none = count_next_in_areas(
            &self.areas,
            cell,
            &mut self.counts,
            self.none,
            &mut self.place,
        );
        Ok(())
    }

    #[inline(always)]
    fn look_for(&self, cell: Cell) -> Option<usize> {
        Some(self.tabled.look_for(cell.raw(), self.place))
    }

    #[inline(always)]
    fn looks_ahead(&self) -> bool {
        true
    }

    #[inline(always)]
    fn look_ahead(&self, indexes: &[u64]) -> Option<[usize; LINES]> {
        look_ahead(&self.tabled, indexes, self.place)
    }

    ghost none_taken = { λ t. (refl, area_counts_none t.areas t.counts.items t.none) };

    ghost taken_then = { λ t u v xs ys p q. (
      q.0 ∙ p.0,
      area_counts_then t.areas u.areas _ _ _ _ _ _ xs ys p.0 p.1 q.1,
    ) };
}

/// Puts bytes and one more after them into a block from the byte `at` on, and returns where they end.
pub(crate) fn hold(block: &mut [u8; BLOCK], at: usize, bytes: &[u8], last: u8) -> usize
    requires { at + length bytes.now + 1 ≤ BLOCK }
    ensures end { result ≡ at + length bytes.now + 1 }
    ensures held { take result block.new ≡ take at block.old ++ (bytes.now ++ last ∷ []) }
{
    let end = at + bytes.len();
    block[at..end].copy_from_slice(bytes);
    block[end] = last;
    end + 1
}

/// Puts a name and a byte after the bytes held back in a block, which end at `end`, and returns where
/// they end then: with room for a count after them. If there is too little room, what is held back is
/// written, and then a name that is longer than a block.
pub(crate) fn put_name<W: Sink>(
    out: &mut W,
    block: &mut [u8; BLOCK],
    end: usize,
    name: &[u8],
    last: u8,
) -> Result<usize, StreamFault>
    requires { end ≤ BLOCK }
    ensures room { IfOk result (λ at. at + 112 ≤ BLOCK) }
    ensures ok { IfOk result (λ at.
        Moves W.taken W.has_failed (take end block.old ++ (name.now ++ last ∷ []))
        (take at block.new) out.old out.new) }
    ensures err { OnErr result (FailsPush (take end block.old ++ (name.now ++ last ∷ []))
        (sink_use W.taken W.has_failed out.old out.new)) }
{
    if name.len() < (BLOCK - end).saturating_sub(112) {
        return Ok(hold(block, end, name, last));
    }
    write_all(out, &block[..end])?;
    if name.len() < BLOCK - 112 {
        return Ok(hold(block, 0, name, last));
    }
    write_all(out, name)?;
    block[0] = last;
    Ok(1)
}

/// Puts the row of a name and a count after the bytes held back in a block, which end at `end`, and
/// returns where they end then.
pub(crate) fn put_row<W: Sink>(
    out: &mut W,
    block: &mut [u8; BLOCK],
    end: usize,
    separator: u8,
    name: &[u8],
    count: u64,
) -> Result<usize, StreamFault>
    requires { end ≤ BLOCK }
    ensures within { IfOk result (λ at. at ≤ BLOCK) }
    ensures ok { IfOk result (λ at.
        Moves W.taken W.has_failed (take end block.old ++ count_row separator (name.now, count))
        (take at block.new) out.old out.new) }
    ensures err { OnErr result (FailsPush (take end block.old ++ count_row separator (name.now, count))
        (sink_use W.taken W.has_failed out.old out.new)) }
{
    let at = put_name(out, block, end, name, separator)?;
    Ok(count.put(block, at))
}

/// Puts the header of a table of counts, if there is a title, into an empty block, and returns where it
/// ends.
pub(crate) fn put_header<W: Sink>(
    out: &mut W,
    block: &mut [u8; BLOCK],
    separator: u8,
    title: Option<&[u8]>,
) -> Result<usize, StreamFault>
    ensures within { IfOk result (λ at. at ≤ BLOCK) }
    ensures ok { IfOk result (λ at.
        Moves W.taken W.has_failed (header_row separator (option_map (λ t. t.now) title.entry))
        (take at block.new) out.old out.new) }
    ensures err { OnErr result (FailsPush (header_row separator (option_map (λ t. t.now) title.entry))
        (sink_use W.taken W.has_failed out.old out.new)) }
{
    let Some(title) = title else {
        return Ok(0);
    };
    let at = put_name(out, block, 0, title, separator)?;
    Ok(hold(block, at, b"count", b'\n'))
}

/// Puts the row of each name with its count after the bytes held back in a block, which end at `end`,
/// and returns where they end then.
fn put_rows<W: Sink>(
    out: &mut W,
    block: &mut [u8; BLOCK],
    end: usize,
    separator: u8,
    names: &Names,
    counts: &[u64],
) -> Result<usize, StreamFault>
    requires within { end ≤ BLOCK }
    requires size { length counts.now ≡ length names.now.spans.items }
    ensures within { IfOk result (λ last. last ≤ BLOCK) }
    ensures ok { IfOk result (λ last. Moves W.taken W.has_failed
        (take end block.old ++ flat_map (count_row separator)
        (named_counts (names_in names.now.bytes.items names.now.spans.items) counts.now (length counts.now)))
        (take last block.new) out.old out.new) }
    ensures err { OnErr result (FailsPush
        (take end block.old ++ flat_map (count_row separator)
        (named_counts (names_in names.now.bytes.items names.now.spans.items) counts.now (length counts.now)))
        (sink_use W.taken W.has_failed out.old out.new)) }
{
    let mut last = end;
    for number in 0..counts.len() {
        let name = names.get(number).unwrap_or(b"");
        last = put_row(out, block, last, separator, name, counts[number])?;
    }
    Ok(last)
}

/// Writes a table of counts: the header, if there is a title, each name with its count, and then a text
/// for none with its own.
// Inlined, its block would take its place on the stack while the caller runs another writer.
#[inline(never)]
fn write_area_counts<W: Sink>(
    separator: u8,
    title: Option<&[u8]>,
    names: &Names,
    counts: &[u64],
    none: (&[u8], u64),
    out: &mut W,
) -> Result<(), RunError>
    requires { length counts.now ≡ length names.now.spans.items }
    ensures { Writes (written (counts_table separator (option_map (λ t. t.now) title.entry)
        (named_counts (names_in names.now.bytes.items names.now.spans.items) counts.now (length counts.now)
        ++ (none.entry.0.now, none.entry.1) ∷ []))) result
        (sink_use W.taken W.has_failed out.old out.new) }
{
    let mut block = [0; BLOCK];
    let mut end = put_header(out, &mut block, separator, title)?;
    end = put_rows(out, &mut block, end, separator, names, counts)?;
    end = put_row(out, &mut block, end, separator, none.0, none.1)?;
    write_answer(out, &block[..end])
}

/// Whether a table of counts has a header: if the table of zones has one, or the list.
fn has_header(options: &AreaOptions, list: &Option<RowOptions>) -> bool
    ensures { result ≡ has_header options.now list.now }
{
    match list {
        None => options.table.rows.has_header,
        Some(rows) => options.table.rows.has_header || rows.has_header,
    }
}

/// The title in the header of a table of counts, if it has a header.
fn header_title<'a>(
    options: &AreaOptions,
    list: &Option<RowOptions>,
    title: &'a [u8],
) -> Option<&'a [u8]>
    ensures { option_map (λ t. t.now) result
        ≡ (if has_header options.now list.now then Some title.now else None) }
{
    if has_header(options, list) {
        Some(title)
    } else {
        None
    }
}

/// Writes how many of the listed cells, or of those of the rows, lie in each area, of areas of which no
/// two overlap, and how many in none.
fn count_apart<R: Source, W: Sink>(
    alloc: Global,
    options: &AreaOptions,
    list: &Option<RowOptions>,
    title: &[u8],
    names: &Names,
    areas: ApartAreas,
    input: &mut R,
    out: &mut W,
) -> Result<(), RunError>
    requires { All (λ p. p.1 < length names.now.spans.items) areas }
    ensures { EndsNumberedList itself (list_form list.now)
        (λ cells. written (counts_table options.now.table.rows.separator
        (if has_header options.now list.now then Some title.now else None)
        (area_counts (string_bytes options.now.none)
        (names_in names.now.bytes.items names.now.spans.items) areas.entry cells)))
        (source_use R.left R.has_failed input.old input.new) result
        (sink_use W.taken W.has_failed out.old out.new) }
{
    let zones = Zones::over(areas.cells());
    let table = table_of(alloc, &zones)?;
    let size = names.spans.len();
    let counts = vec![in alloc; 0u64; size].map_err(|_| RunError::Fault(Fault::Memory))?;
    let tally = AreaTally {
        areas,
        counts,
        none: 0,
        place: 0,
        tabled: TabledZones::over(&zones, &table),
    };
    let tally = take_listed(alloc, tally, list, input)?;
    let title = header_title(options, list, title);
    let none = (options.none.as_bytes(), tally.none);
    write_area_counts(
        options.table.rows.separator,
        title,
        names,
        &tally.counts,
        none,
        out,
    )
}

/// As `count_apart`, of areas that may overlap: a cell counts in each of its areas. There has to be room for
/// so many numbers where areas are looked for.
fn count_in_each<R: Source, W: Sink>(
    alloc: Global,
    options: &AreaOptions,
    list: &Option<RowOptions>,
    title: &[u8],
    names: &Names,
    areas: Areas,
    room: usize,
    input: &mut R,
    out: &mut W,
) -> Result<(), RunError>
    requires room { length areas ≤ room }
    requires small { All (λ p. p.1 < length names.now.spans.items) areas }
    ensures { EndsNumberedList itself (list_form list.now)
        (λ cells. written (counts_table options.now.table.rows.separator
        (if has_header options.now list.now then Some title.now else None)
        (area_counts (string_bytes options.now.none)
        (names_in names.now.bytes.items names.now.spans.items) areas.entry cells)))
        (source_use R.left R.has_failed input.old input.new) result
        (sink_use W.taken W.has_failed out.old out.new) }
{
    let numbers = numbers_for(alloc, room)?;
    let many = names.spans.len();
    let counts = vec![in alloc; 0u64; many].map_err(|_| RunError::Fault(Fault::Memory))?;
    let tally = OverlapTally {
        areas,
        numbers,
        counts,
        none: 0,
        taken: 0,
    };
    let tally = take_listed(alloc, tally, list, input)?;
    let title = header_title(options, list, title);
    let others = (options.none.as_bytes(), tally.none);
    write_area_counts(
        options.table.rows.separator,
        title,
        names,
        &tally.counts,
        others,
        out,
    )
}

/// Writes how many of the listed cells, or of those of the rows, lie in each area, and how many in none,
/// unless two areas overlap and may not. If no two overlap, a cell's area is looked up by a table.
fn count_areas<R: Source, W: Sink>(
    alloc: Global,
    options: &AreaOptions,
    list: &Option<RowOptions>,
    table: &mut AreaTable,
    input: &mut R,
    out: &mut W,
) -> Result<(), RunError>
    requires { All (λ p. p.1 < length table.old.names.spans.items) table.old.cells.items }
    ensures { (entries : List Entry) → HoldsAreas options.now.table.rows.quotes entries table.old
        → EndsJudged (overlap_error options.now.overlapping
        (area_cells options.now.table.rows.quotes entries))
        (EndsNumberedList itself (list_form list.now) (area_counts_answer options.now list.now entries)
        (source_use R.left R.has_failed input.old input.new) result
        (sink_use W.taken W.has_failed out.old out.new))
        (source_use R.left R.has_failed input.old input.new) result
        (sink_use W.taken W.has_failed out.old out.new) }
{
    areas_are_lawful();
    let mut slots = slots_for(alloc, table.cells.len())?;
    let title = name_of_column(&table.title);
    match ApartAreas::of(&mut table.cells, &mut slots) {
        Ok(areas) => count_apart(alloc, options, list, title, &table.names, areas, input, out),
        Err(refused) => {
            if !options.overlapping {
                return Err(RunError::Error(AnswerError::File(CellFile::Zones, refused.error)));
            }
            let pairs = refused.pairs;
            let room = pairs.len();
            let areas = Areas::of(pairs);
            count_in_each(
                alloc,
                options,
                list,
                title,
                &table.names,
                areas,
                room,
                input,
                out,
            )
        }
    }
}

/// Reads a table of zones with names, and then writes how many of the listed cells, or of those of the
/// rows, lie in each area, and how many in none.
// Inlined, its blocks would take their place on the stack while the caller runs another command.
#[inline(never)]
pub(crate) fn count_over_areas<R: Source, T: Source, W: Sink>(
    alloc: Global,
    options: &AreaOptions,
    list: &Option<RowOptions>,
    input: &mut R,
    file: &mut T,
    out: &mut W,
) -> Result<(), RunError>
    ensures { EndsOverAreas options.now.overlapping (names_table options.now.table)
        (λ entries. EndsNumberedList itself (list_form list.now)
        (area_counts_answer options.now list.now entries)
        (source_use R.left R.has_failed input.old input.new) result
        (sink_use W.taken W.has_failed out.old out.new))
        (source_use R.left R.has_failed input.old input.new)
        (source_use T.left T.has_failed file.old file.new) result
        (sink_use W.taken W.has_failed out.old out.new) }
{
    areas_divide_cells();
    let mut table = read_table(alloc, options, file)?;
    count_areas(alloc, options, list, &mut table, input, out)
}
