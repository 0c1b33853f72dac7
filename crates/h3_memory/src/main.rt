//! Runs commands over streams in fixed arrays, and prints the status of each and what it wrote: a
//! list of 49 cells that compact to one, one of mixed resolutions, a disk over a table in format 1,
//! an edge over one in format 2, the resolution of each cell of a list, a list of cells that
//! overlap, united, the five commands over that list and a file of cells, its counts by their ancestors, of
//! a cell that is listed its children, its disk, and of an edge the cell that it leads to, and the zones of
//! that list over a table of cells, by themselves and by name, and its counts by these names; and rows that
//! are added up by zones or ancestors, or divided by a field.
//! `tests/command/memory` refuses each allocation of it in turn.
#![tactic(auto)]

use arrayvec::ArrayVec;
use h3_command::run::run_over;
use h3_fakes::{bases_file, table_file};
use h3_requests::{
    AreaOptions, CellField, Command, IndexFunction, RowOptions, TableOptions, Tables,
};
use h3_streams::Streamed;
use h3_table::vectors::TestTable;
use itoa::Buffer;
use std::alloc::Global;
use std::io::{self, Write};

/// The descendants of 8029fffffffffff at resolution 2.
const LIST: &str = "822807fffffffff\n82280ffffffffff\n822817fffffffff\n82281ffffffffff\n\
     822827fffffffff\n82282ffffffffff\n822837fffffffff\n822847fffffffff\n\
     82284ffffffffff\n822857fffffffff\n82285ffffffffff\n822867fffffffff\n\
     82286ffffffffff\n822877fffffffff\n822887fffffffff\n82288ffffffffff\n\
     822897fffffffff\n82289ffffffffff\n8228a7fffffffff\n8228affffffffff\n\
     8228b7fffffffff\n8228c7fffffffff\n8228cffffffffff\n8228d7fffffffff\n\
     8228dffffffffff\n8228e7fffffffff\n8228effffffffff\n8228f7fffffffff\n\
     822907fffffffff\n82290ffffffffff\n822917fffffffff\n82291ffffffffff\n\
     822927fffffffff\n82292ffffffffff\n822937fffffffff\n822947fffffffff\n\
     82294ffffffffff\n822957fffffffff\n82295ffffffffff\n822967fffffffff\n\
     82296ffffffffff\n822977fffffffff\n822987fffffffff\n82298ffffffffff\n\
     822997fffffffff\n82299ffffffffff\n8229a7fffffffff\n8229affffffffff\n\
     8229b7fffffffff\n";

/// The children of 85283473fffffff, and the six other children of its parent, 8428347ffffffff.
const MIXED: &str = "862834707ffffff\n86283470fffffff\n862834717ffffff\n86283471fffffff\n\
     862834727ffffff\n86283472fffffff\n862834737ffffff\n85283463fffffff\n\
     85283467fffffff\n8528346bfffffff\n8528346ffffffff\n85283477fffffff\n\
     8528347bfffffff\n";

/// Three children of 8428347ffffffff, that cell, and two of the children again.
const OVERLAPPING: &str = "85283463fffffff\n85283467fffffff\n8528346bfffffff\n\
     8428347ffffffff\n85283463fffffff\n85283467fffffff\n";

/// A cell.
const ONE: &str = "85283473fffffff\n";

/// An edge that leaves it.
const EDGE: &str = "115283473fffffff\n";

/// A child of 8428347ffffffff, and a cell apart from it: a region, and zones.
const APART: &str = "85283463fffffff\n8009fffffffffff\n";

/// The same as a table, in whose second field the cells are.
const ROWS: &str = "a,85283463fffffff\n\"b, c\",8009fffffffffff\n";

/// A table of zones that overlap: a child of 8428347ffffffff, and that cell.
const NESTED: &str = "a,85283463fffffff\nb,8428347ffffffff\n";

/// Rows of two cells of that table, with numbers in the first field.
const NUMBERED: &str = "1.5,85283463fffffff\n-2,8428347ffffffff\n";

/// Rows of three cells, with two values in the first field.
const VALUED: &str = "x,85283463fffffff\ny,8009fffffffffff\nx,85283467fffffff\n";

/// How the rows of that table are read.
fn row_options() -> RowOptions {
    RowOptions {
        field: CellField::Number(2),
        has_header: false,
        separator: b',',
        quotes: true,
        name: None,
        keeps_going: false,
        shows_errors: false,
        is_ragged: false,
    }
}

/// How the areas of that table are read, whose names are in its first field.
fn area_options(alloc: Global, overlapping: bool) -> AreaOptions {
    AreaOptions {
        table: TableOptions {
            rows: row_options(),
            name: CellField::Number(1),
        },
        none: String::new(alloc),
        overlapping,
    }
}

/// Prints how many bytes these are, after a name, and then the bytes.
fn print_bytes<W: Write>(name: &str, bytes: &[u8], to: &mut W) -> io::Result<()> {
    let mut number = Buffer::new();
    to.write_all(name.as_bytes())?;
    to.write_all(number.format(bytes.len()).as_bytes())?;
    to.write_all(b"\n")?;
    to.write_all(bytes)
}

/// Runs a command over a list and a file, and prints its status, its output and its line on
/// standard error.
fn print_run<W: Write>(
    alloc: Global,
    command: &Command,
    tables: &Tables,
    reads: (&str, &str),
    to: &mut W,
) -> io::Result<()> {
    let (list, file) = reads;
    let mut input = Streamed::new(list.as_bytes());
    let mut table = Streamed::new(file.as_bytes());
    let mut out = Streamed::new(ArrayVec::<u8, 256>::new());
    let mut err = Streamed::new(ArrayVec::<u8, 64>::new());
    let status = run_over(
        alloc, command, tables, &mut input, &mut table, &mut out, &mut err,
    );
    let mut number = Buffer::new();
    to.write_all(b"status ")?;
    to.write_all(number.format(status).as_bytes())?;
    to.write_all(b"\n")?;
    print_bytes("out ", out.into_inner().as_slice(), to)?;
    print_bytes("err ", err.into_inner().as_slice(), to)
}

/// How tables are read of which the file of zones has rows with names, or with cells alone, if `areas` is
/// `None`.
fn file_tables(areas: Option<AreaOptions>) -> Tables {
    Tables {
        list: None,
        sum: None,
        by: None,
        file: match &areas {
            None => Some(row_options()),
            Some(_) => None,
        },
        areas,
    }
}

/// How a list of rows is read, of which a second field has numbers, beside zones with names; or values, if
/// `areas` is `None`.
fn list_tables(areas: Option<AreaOptions>) -> Tables {
    let second = Some(CellField::Number(1));
    let (sum, by) = match &areas {
        None => (None, second),
        Some(_) => (second, None),
    };
    Tables {
        list: Some(row_options()),
        sum,
        by,
        file: None,
        areas,
    }
}

/// How a list of rows is read, of which a second field has numbers, beside no file.
fn sum_tables() -> Tables {
    Tables {
        list: Some(row_options()),
        sum: Some(CellField::Number(1)),
        by: None,
        file: None,
        areas: None,
    }
}

/// Runs commands over tables, and prints what they print.
fn print_tables<W: Write>(alloc: Global, to: &mut W) -> io::Result<()> {
    let zones = Command::CellsToZones;
    let counts = Command::CountCellsInZones;
    let reads = (OVERLAPPING, ROWS);
    print_run(alloc, &zones, &file_tables(None), reads, to)?;
    let named = file_tables(Some(area_options(alloc, false)));
    print_run(alloc, &zones, &named, reads, to)?;
    print_run(alloc, &counts, &named, reads, to)?;
    let nested = file_tables(Some(area_options(alloc, true)));
    print_run(alloc, &zones, &nested, (OVERLAPPING, NESTED), to)?;
    let summed = list_tables(Some(area_options(alloc, false)));
    print_run(alloc, &counts, &summed, (NUMBERED, ROWS), to)?;
    let values = list_tables(None);
    print_run(alloc, &Command::UniteCells, &values, (VALUED, ""), to)?;
    let parents = Command::CountCellsInParents { res: 4 };
    print_run(alloc, &parents, &sum_tables(), (NUMBERED, ""), to)
}

fn main(rt: HostRuntime) -> io::Result<()> {
    let cell = Some(0x85283473fffffff);
    let to = Some(0x85283477fffffff);
    let file = table_file(TestTable::Plain);
    let bases = bases_file(TestTable::Plain);
    let disk = Command::GridDiskUnsafe { cell, k: 1 };
    let edge = Command::CellsToDirectedEdge { cell, to };
    let runs = [
        (Command::CompactCells, (LIST, "")),
        (Command::CompactCells, (MIXED, "")),
        (disk, ("", file.as_str())),
        (edge, ("", bases.as_str())),
        (Command::ForEach(IndexFunction::GetResolution), (MIXED, "")),
        (Command::UniteCells, (OVERLAPPING, "")),
        (Command::IntersectCells, (OVERLAPPING, APART)),
        (Command::SubtractCells, (OVERLAPPING, APART)),
        (Command::AreCoveredCells, (OVERLAPPING, APART)),
        (Command::CellsToZones, (OVERLAPPING, APART)),
        (Command::CountCellsInZones, (OVERLAPPING, APART)),
        (Command::CountCellsInParents { res: 4 }, (OVERLAPPING, "")),
        (Command::CellsToChildren { res: 6 }, (ONE, "")),
        (Command::GridDisksUnsafe { k: 1 }, (ONE, file.as_str())),
        (Command::GetDirectedEdgeDestinations, (EDGE, file.as_str())),
    ];
    let mut stdout = rt.stdout();
    let bare = Tables {
        list: None,
        sum: None,
        by: None,
        file: None,
        areas: None,
    };
    for (command, reads) in &runs {
        print_run(rt.alloc(), command, &bare, *reads, &mut stdout)?;
    }
    print_tables(rt.alloc(), &mut stdout)
}
