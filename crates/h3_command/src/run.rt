//! Running a command.

ghost use Rattle.std.specs.Prelude.{◌≡◌, false, true};
ghost use Rattle.h3_lines.specs.Reads.{source_use};
ghost use Rattle.h3_lines.specs.Write.{sink_use};
ghost use Rattle.h3_rows.specs.Areas.{NamesStandOnce};
ghost use Rattle.h3_rows.specs.Laws.{FieldsAreKept, HeaderStands, MarksAreKept, OutputReadsBack, RowsAreWhole, RowsGiveBack, RowsStand, RowsStandUntil};
ghost use Rattle.h3_command.specs.AreaCounts.{AreaCountsPrintedAddUp};
ghost use Rattle.h3_command.specs.AreaSums.{AreaSumsInParts};
ghost use Rattle.h3_command.specs.SumAnswers.{AreaSumsPrintedAddUp};
ghost use Rattle.h3_requests.specs.Rows.{is_counted_if};
ghost use Rattle.h3_command.specs.Answer.{area_counts_request, parents_request, reads_list, reads_table, request, request_of, summed, zone_counts_request};
ghost use Rattle.h3_command.specs.Files.{CountsPrintedAddUp};
ghost use Rattle.h3_command.specs.Join.{CellsGetTheirNames, NamesAreOfRows, NamesDiffer, OneNameEach, OthersGetNone};
ghost use Rattle.h3_command.specs.NewColumns.{AnswersAreWords, ErrorNamesAreFields, ErrorNamesAreKept, NamesAreKept, RowsStandOnce, TitlesAreFields, WordPairsAreKept, WordPairsAreUncut, WordsAreFields, WordsAreKept};
ghost use Rattle.h3_command.specs.ParentSums.{ParentSumsPrintedAddUp};
ghost use Rattle.h3_command.specs.Parents.{ParentsPrintedOnce};
ghost use Rattle.h3_command.specs.Run.{Ends, EndsOfList, Runs};
ghost use Rattle.h3_command.specs.ZoneSums.{ZoneSumsPrintedAddUp};

use crate::area_counts::count_over_areas;
use crate::area_sums::sum_over_areas;
use crate::areas::answer_over_areas;
use crate::bases::{write_pentagons, write_res0_cells};
use crate::by::{answer_lists, answer_numbered_lists};
use crate::by_region::answer_combined;
use crate::children::{cell_to_children, cells_to_children, child_pos_to_cell};
use crate::counts::counts_over_file;
use crate::edges::*;
use crate::files::Combination::*;
use crate::files::{covered_over_file, zones_over_file};
use crate::laws::{
    answers_are_fields, area_counts_add_up, area_sums_add_up, cells_get_their_names,
    parents_add_up, zone_sums_add_up,
};
use crate::parent_sums::sum_by_parents;
use crate::parents::count_by_parents;
use crate::per_index::write_answer_for;
use crate::rows::answer_function;
use crate::sets::*;
use crate::sizes::uncompact_cells_size;
use crate::table_lists::*;
use crate::table_query::over_table;
use crate::walks::*;
use crate::zone_sums::sum_over_zones;
use h3_functions::get_num_cells;
use h3_lines::{RunError, report, write_result};
use h3_regions::laws::counts_add_up;
use h3_requests::Command::*;
use h3_requests::{AreaOptions, CellField, Command, RowOptions, Tables};
use h3_rows::laws::answers_stand_beside;
use h3_streams::{Sink, Source};
use std::alloc::Global;

/// Counts the cells of a list by the areas of a table, and adds up the numbers in a field of its rows, if it
/// has rows, and that is asked.
fn count_by_areas<R: Source, T: Source, W: Sink>(
    alloc: Global,
    areas: &AreaOptions,
    rows: &Option<RowOptions>,
    field: &Option<CellField>,
    input: &mut R,
    table: &mut T,
    out: &mut W,
) -> Result<(), RunError>
    requires { is_counted_if field.now ≡ true }
    ensures { Ends (area_counts_request areas.now rows.now (summed rows.now field.now))
        (source_use R.left R.has_failed input.old input.new)
        (source_use T.left T.has_failed table.old table.new) result
        (sink_use W.taken W.has_failed out.old out.new) }
{
    match rows {
        None => count_over_areas(alloc, areas, rows, input, table, out),
        Some(list) => match field {
            None => count_over_areas(alloc, areas, rows, input, table, out),
            Some(field) => sum_over_areas(alloc, areas, list, field, input, table, out),
        },
    }
}

/// Counts the cells of a list by zones without names, and adds up the numbers in a field of its rows, if it
/// has rows, and that is asked.
fn count_by_zones<R: Source, T: Source, W: Sink>(
    alloc: Global,
    tables: &Tables,
    input: &mut R,
    table: &mut T,
    out: &mut W,
) -> Result<(), RunError>
    ensures { Ends (zone_counts_request tables.now (summed tables.now.list tables.now.sum))
        (source_use R.left R.has_failed input.old input.new)
        (source_use T.left T.has_failed table.old table.new) result
        (sink_use W.taken W.has_failed out.old out.new) }
{
    match (&tables.list, &tables.sum) {
        (Some(list), Some(field)) => {
            sum_over_zones(alloc, &tables.file, list, field, input, table, out)
        }
        _ => counts_over_file(alloc, tables, input, table, out),
    }
}

/// Counts the cells of a list by their ancestors at a resolution, and adds up the numbers in a field of its
/// rows, if it has rows, and that is asked.
fn count_in_parents<R: Source, W: Sink>(
    alloc: Global,
    res: i32,
    tables: &Tables,
    input: &mut R,
    out: &mut W,
) -> Result<(), RunError>
    ensures { EndsOfList (parents_request res tables.now.list (summed tables.now.list tables.now.sum))
        (source_use R.left R.has_failed input.old input.new) result
        (sink_use W.taken W.has_failed out.old out.new) }
{
    match &tables.list {
        None => count_by_parents(alloc, res, &tables.list, input, out),
        Some(list) => match &tables.sum {
            None => count_by_parents(alloc, res, &tables.list, input, out),
            Some(field) => sum_by_parents(alloc, res, list, field, input, out),
        },
    }
}

/// Does what a command asks that reads a file or a table and then a list, up to the line on standard
/// error.
fn perform_over_file_and_list<R: Source, T: Source, W: Sink>(
    alloc: Global,
    command: &Command,
    tables: &Tables,
    input: &mut R,
    table: &mut T,
    out: &mut W,
) -> Result<(), RunError>
    requires list { reads_list (request_of tables.now command.now) ≡ true }
    requires table { reads_table (request_of tables.now command.now) ≡ true }
    ensures { Ends (request_of tables.now command.now) (source_use R.left R.has_failed input.old input.new)
        (source_use T.left T.has_failed table.old table.new) result
        (sink_use W.taken W.has_failed out.old out.new) }
{
    let rows = &tables.list;
    match *command {
        IntersectCells => answer_combined(alloc, Shared, tables, input, table, out),
        SubtractCells => answer_combined(alloc, Left, tables, input, table, out),
        AreCoveredCells => covered_over_file(alloc, tables, input, table, out),
        CellsToZones => match &tables.areas {
            None => zones_over_file(alloc, tables, input, table, out),
            Some(areas) => answer_over_areas(alloc, areas, rows, input, table, out),
        },
        CountCellsInZones => match &tables.areas {
            None => count_by_zones(alloc, tables, input, table, out),
            Some(areas) => count_by_areas(alloc, areas, rows, &tables.sum, input, table, out),
        },
        GridDisksUnsafe { k } => grid_disks_unsafe(alloc, k, rows, input, table, out),
        GridDisksDistancesUnsafe { k } => {
            grid_disks_distances_unsafe(alloc, k, rows, input, table, out)
        }
        GridRingsUnsafe { k } => grid_rings_unsafe(alloc, k, rows, input, table, out),
        GetDirectedEdgeDestinations => {
            get_directed_edge_destinations(alloc, rows, input, table, out)
        }
        _ => unreachable!(),
    }
}

/// Does what a command about a list asks, up to the line on standard error.
fn perform_over_list<R: Source, T: Source, W: Sink>(
    alloc: Global,
    command: &Command,
    tables: &Tables,
    input: &mut R,
    table: &mut T,
    out: &mut W,
) -> Result<(), RunError>
    requires { reads_list (request_of tables.now command.now) ≡ true }
    ensures ends { Ends (request_of tables.now command.now) (source_use R.left R.has_failed input.old input.new)
        (source_use T.left T.has_failed table.old table.new) result
        (sink_use W.taken W.has_failed out.old out.new) }
    ensures table_kept { reads_table (request_of tables.now command.now) ≡ false → table.new ≡ table.old }
{
    let rows = &tables.list;
    match *command {
        ForEach(function) => answer_function(alloc, rows, function, input, out),
        CellsToChildren { res } => cells_to_children(alloc, res, rows, input, out),
        CompactCells => answer_lists(alloc, CompactList, tables, input, out),
        UncompactCells { res } => answer_lists(alloc, UncompactList { res }, tables, input, out),
        UncompactCellsSize { res } => uncompact_cells_size(alloc, res, rows, input, out),
        UniteCells => answer_numbered_lists(alloc, UniteList, tables, input, out),
        CountCellsInParents { res } => count_in_parents(alloc, res, tables, input, out),
        _ => perform_over_file_and_list(alloc, command, tables, input, table, out),
    }
}

/// Does what a command asks, up to the line on standard error.
fn perform<R: Source, T: Source, W: Sink>(
    alloc: Global,
    command: &Command,
    tables: &Tables,
    input: &mut R,
    table: &mut T,
    out: &mut W,
) -> Result<(), RunError>
    ensures ends { Ends (request_of tables.now command.now) (source_use R.left R.has_failed input.old input.new)
        (source_use T.left T.has_failed table.old table.new) result
        (sink_use W.taken W.has_failed out.old out.new) }
    ensures input_kept { reads_list (request_of tables.now command.now) ≡ false → input.new ≡ input.old }
    ensures table_kept { reads_table (request_of tables.now command.now) ≡ false → table.new ≡ table.old }
{
    match *command {
        ForOne(function, index) => write_answer_for(function, index, out),
        GetNumCells { res } => write_result(out, get_num_cells(res)),
        GetRes0Cells => write_res0_cells(out),
        GetPentagons { res } => write_pentagons(res, out),
        CellToChildren { cell, res } => cell_to_children(cell, res, out),
        ChildPosToCell {
            position,
            cell,
            res,
        } => write_result(out, child_pos_to_cell(position, cell, res)),
        GridDiskUnsafe { cell, k } => over_table(alloc, grid_disk_unsafe(cell, k), table, out),
        GridDiskDistancesUnsafe { cell, k } => over_table(
            alloc,
            grid_disk_distances_unsafe(cell, k),
            table,
            out,
        ),
        GridRingUnsafe { cell, k } => over_table(alloc, grid_ring_unsafe(cell, k), table, out),
        AreNeighborCells { cell, to } => over_table(
            alloc,
            are_neighbor_cells(cell, to),
            table,
            out,
        ),
        CellsToDirectedEdge { cell, to } => over_table(
            alloc,
            cells_to_directed_edge(cell, to),
            table,
            out,
        ),
        GetDirectedEdgeDestination { edge } => over_table(
            alloc,
            get_directed_edge_destination(edge),
            table,
            out,
        ),
        _ => perform_over_list(alloc, command, tables, input, table, out),
    }
}

/// Like [`run`], but reads the list, and the file of cells, as rows if `tables` says how these are
/// read and written. A command that answers line by line then writes each row of the list
/// with the answer to its own cell beside it. One that answers about its list as a whole takes the cells
/// of the rows as the list; or, if `tables.by` says which field divides the rows, it writes such an
/// answer for each of the field's values. Of the rows of a file the cells are taken; or, by `cellsToZones` and
/// `countCellsInZones`, the cells with their names, if `tables.areas` says how these are read. Then two areas that
/// overlap are an error before the list is read, unless they may. `cellsToZones` answers a cell with the name of its
/// area; or, if they may overlap, with the names of its areas, the one with the coarsest cell above it first.
pub fn run_over<R: Source, T: Source, W: Sink, E: Sink>(
    alloc: Global,
    command: &Command,
    tables: &Tables,
    input: &mut R,
    table: &mut T,
    out: &mut W,
    err: &mut E,
) -> u8
    // What it writes where nothing fails, and how else it may end.
    ensures runs { Runs (request_of tables.now command.now) result (record {
      input = source_use R.left R.has_failed input.old input.new;
      table = source_use T.left T.has_failed table.old table.new;
      out = sink_use W.taken W.has_failed out.old out.new;
      err = sink_use E.taken E.has_failed err.old err.new;
    }) }

    // What is left alone: a source that the command does not read, and `err` where the status is 0.
    ensures input_kept { reads_list (request_of tables.now command.now) ≡ false → input.new ≡ input.old }
    ensures table_kept { reads_table (request_of tables.now command.now) ≡ false → table.new ≡ table.old }
    ensures err_kept { result ≡ 0 → err.new ≡ err.old }

    // A law, whatever the command: what is printed of the counts of zones adds up to the list.
    ensures counts { CountsPrintedAddUp }

    // The same of the counts of areas, and of the sums of numbers; and the sums of parts add up to those of the
    // whole.
    ensures area_counts { AreaCountsPrintedAddUp }
    ensures area_sums { AreaSumsPrintedAddUp }
    ensures sums_in_parts { AreaSumsInParts }

    // The same of the counts and sums of zones without names.
    ensures zone_sums { ZoneSumsPrintedAddUp }

    // The same of the counts and sums by ancestors, of which each is printed once, in ascending order.
    ensures parents { ParentsPrintedOnce }
    ensures parent_sums { ParentSumsPrintedAddUp }

    // Laws, whatever the rows: each stands in the output with the answers to its own cell, up to the row
    // that ends the answer, and the rows are the list again, as are the fields of a row without the new
    // one. A header stands whole before the new names. Read again, the output has these rows and no
    // others.
    ensures stand { RowsStand }
    ensures until { RowsStandUntil }
    ensures header { HeaderStands }
    ensures give { RowsGiveBack }
    ensures whole { RowsAreWhole }
    ensures marks { MarksAreKept }
    ensures back { OutputReadsBack }
    ensures kept { FieldsAreKept }

    // Laws, whatever the command: an answer to a cell is lines or an error, a row stands once for each
    // of its lines, and each is one field, or two; so is the name of an error, unless an underscore
    // separates fields.
    ensures words { AnswersAreWords }
    ensures once { RowsStandOnce }
    ensures words_uncut { WordsAreFields }
    ensures pairs_uncut { WordPairsAreUncut }
    ensures fields { WordsAreKept }
    ensures pairs { WordPairsAreKept }
    ensures errors_uncut { ErrorNamesAreFields }
    ensures errors { ErrorNamesAreKept }

    // Laws of the zones with names: a cell gets the name of each row of the table that covers it, each once
    // and no other, one if no two areas overlap; and what is written for none if no row does. Where the list
    // is cut as the table is, a name is one field beside its row; and so is the name that the new column gets
    // of the table.
    ensures join { CellsGetTheirNames }
    ensures of_rows { NamesAreOfRows }
    ensures differ { NamesDiffer }
    ensures one_name { OneNameEach }
    ensures others { OthersGetNone }
    ensures once_named { NamesStandOnce }
    ensures titles { TitlesAreFields }
    ensures names { NamesAreKept }
{
    counts_add_up();
    answers_stand_beside();
    answers_are_fields();
    cells_get_their_names();
    area_counts_add_up();
    area_sums_add_up();
    zone_sums_add_up();
    parents_add_up();
    let ending = perform(alloc, command, tables, input, table, out);
    report(err, ending)
}

/// Runs a command: writes its answer to `out`, or an error line to `err`, and returns the exit
/// status: 0 where the answer is written, 1 for an H3 error, out of memory included, 3 for an error
/// of the base cell table, and 4 for a read or a write that failed.
///
/// A command on a list of cells reads it from `input`, and one on a table reads that from `table`,
/// once the indexes of its words are valid. A command on a file of cells, that of a region or of
/// zones, reads it from `table`, and judges it as a whole, and then reads `input`, which is left
/// alone where the file is refused. One on a list and a table does the same with the table. The
/// others read neither and take no memory. Where a walk over a table is refused on its way, the lines
/// of the cells before that stand on `out`, but none of a walk around a cell of a list.
///
/// After a write that failed, a beginning of the answer stands on `out`. After a read that failed,
/// or where memory is refused, nothing does, but of a command that answers line by line: where a
/// read of its list fails, the answers to the lines that ended before. A source that is not at its
/// end after 2^40 reads counts as one that failed. A standard error that fails changes no status.
pub fn run<R: Source, T: Source, W: Sink, E: Sink>(
    alloc: Global,
    command: &Command,
    input: &mut R,
    table: &mut T,
    out: &mut W,
    err: &mut E,
) -> u8
    // What it writes where nothing fails, and how else it may end.
    ensures runs { Runs (request command.now) result (record {
      input = source_use R.left R.has_failed input.old input.new;
      table = source_use T.left T.has_failed table.old table.new;
      out = sink_use W.taken W.has_failed out.old out.new;
      err = sink_use E.taken E.has_failed err.old err.new;
    }) }

    // What is left alone: a source that the command does not read, and `err` where the status is 0.
    ensures input_kept { reads_list (request command.now) ≡ false → input.new ≡ input.old }
    ensures table_kept { reads_table (request command.now) ≡ false → table.new ≡ table.old }
    ensures err_kept { result ≡ 0 → err.new ≡ err.old }

    // A law, whatever the command: what is printed of the counts of zones adds up to the list.
    ensures counts { CountsPrintedAddUp }
{
    let tables = Tables {
        list: None,
        sum: None,
        by: None,
        file: None,
        areas: None,
    };
    run_over(alloc, command, &tables, input, table, out, err)
}
