//! Lists of rows of which a second field is read: numbers that are added up by areas or zones, and values that
//! divide the list; and the names of areas that overlap, and their counts.

ghost use Rattle.std.specs.Prelude.{◌≡◌, IfOk};

use crate::expected::expect_row;
use crate::files::{FileRow, PIECES, WELL, over_tables};
use h3_requests::{AreaOptions, CellField, Command, RowOptions, TableOptions, Tables};
use std::alloc::{AllocError, Global};

/// What is asked of tables whose headers name a cell `cell`.
#[derive(Clone, Copy)]
enum Asked {
    /// The sums of the column `amount` of the list, by areas.
    Sums,

    /// The same, of areas that may overlap.
    SumsOfOverlapping,

    /// The areas, which may overlap, or their counts.
    Overlapping,

    /// The sums of the column `amount` of the list, by zones without names in a bare file.
    SumsOfZones,

    /// The same, of zones in a table.
    SumsOfZoneTable,

    /// The sums of the second field of a list without a header, by zones in a bare file.
    SumsOfFields,

    /// The same, of zones in a table.
    SumsOfFieldsByTable,

    /// A list for each value of the column `zone`.
    Values,

    /// The same, of a region in a table too.
    ValuesOverTable,
}

/// The options of rows of a table with a header, in which quotes count.
fn rows(alloc: Global) -> Result<RowOptions, AllocError>
    ensures { IfOk result (λ rows. rows.separator ≡ 44) }
{
    Ok(RowOptions {
        field: CellField::Column(String::from_str(alloc, "cell")?),
        has_header: true,
        separator: b',',
        quotes: true,
        name: None,
        keeps_going: false,
        shows_errors: false,
        is_ragged: false,
    })
}

/// The options of rows without a header, whose cells are in the first field.
fn fields() -> RowOptions {
    RowOptions {
        field: CellField::Number(1),
        has_header: false,
        separator: b',',
        quotes: true,
        name: None,
        keeps_going: false,
        shows_errors: false,
        is_ragged: false,
    }
}

/// The options of a list whose numbers are added up by zones without names, and of these zones' table, if
/// they are in one.
fn zone_tables(alloc: Global, asked: Asked) -> Result<Tables, AllocError> {
    let file = match asked {
        Asked::SumsOfZoneTable | Asked::SumsOfFieldsByTable => Some(rows(alloc)?),
        _ => None,
    };
    match asked {
        Asked::SumsOfFields | Asked::SumsOfFieldsByTable => Ok(Tables {
            list: Some(fields()),
            sum: Some(CellField::Number(2)),
            by: None,
            file,
            areas: None,
        }),
        _ => Ok(Tables {
            list: Some(rows(alloc)?),
            sum: Some(CellField::Column(String::from_str(alloc, "amount")?)),
            by: None,
            file,
            areas: None,
        }),
    }
}

/// How a table of areas is read, whose names are in the column `zone`.
fn areas(alloc: Global, overlapping: bool) -> Result<AreaOptions, AllocError> {
    Ok(AreaOptions {
        table: TableOptions {
            rows: rows(alloc)?,
            name: CellField::Column(String::from_str(alloc, "zone")?),
        },
        none: String::new(alloc),
        overlapping,
    })
}

/// The options of both tables.
fn tables(alloc: Global, asked: Asked) -> Result<Tables, AllocError> {
    let list = Some(rows(alloc)?);
    match asked {
        Asked::Values => Ok(Tables {
            list,
            sum: None,
            by: Some(CellField::Column(String::from_str(alloc, "zone")?)),
            file: None,
            areas: None,
        }),
        Asked::ValuesOverTable => Ok(Tables {
            list,
            sum: None,
            by: Some(CellField::Column(String::from_str(alloc, "zone")?)),
            file: Some(rows(alloc)?),
            areas: None,
        }),
        Asked::Overlapping => Ok(Tables {
            list,
            sum: None,
            by: None,
            file: None,
            areas: Some(areas(alloc, true)?),
        }),
        Asked::Sums | Asked::SumsOfOverlapping => Ok(Tables {
            list,
            sum: Some(CellField::Column(String::from_str(alloc, "amount")?)),
            by: None,
            file: None,
            areas: Some(areas(alloc, matches!(asked, Asked::SumsOfOverlapping))?),
        }),
        _ => zone_tables(alloc, asked),
    }
}

/// Two areas, one of which has two rows with one name, and one without a cell.
const ZONES: &str =
    "zone,cell\nnorth,85283473fffffff\n\"south, old\",85283477fffffff\nnorth,85283473fffffff\nnone,\n";

/// The same, and an area with the parent of these cells.
const NESTED: &str =
    "zone,cell\nnorth,85283473fffffff\n\"south, old\",85283477fffffff\nall,8428347ffffffff\n";

/// Zones, of which the coarsest comes first by number, and last in post order.
const LISTED: &str = "85283477fffffff\n85283473fffffff\n802bfffffffffff\n";

/// Rows of points: one in each area, one in none, and one without a cell.
const POINTS: &str =
    "id,cell,amount\n1,85283473fffffff,1.50\n2,85283477fffffff,2\n3,8528340ffffffff,-0.5\n4,,7\n";

/// Areas that a region cuts: one has a cell and its parent, one no cell.
const PARTS: &str = "zone,cell\nnorth,85283473fffffff\n\"south, old\",85283477fffffff\nnone,\n\
     north,8428347ffffffff\nwest,8528340ffffffff\n";

/// Tables, lists, and what is written.
static ANSWERED: [(Asked, FileRow); 32] = [
    (
        Asked::Sums,
        (
            Command::CountCellsInZones,
            ZONES,
            POINTS,
            "zone,count,amount\nnorth,1,1.5\n\"south, old\",1,2\n,1,-0.5\n",
            "",
        ),
    ),
    (
        Asked::Sums,
        (
            Command::CountCellsInZones,
            ZONES,
            "cell,amount\n85283473fffffff,0.1\n85283473fffffff,0.2\n85283473fffffff,-0.3\n",
            "zone,count,amount\nnorth,3,0\n\"south, old\",0,0\n,0,0\n",
            "",
        ),
    ),
    (
        Asked::Sums,
        (
            Command::CountCellsInZones,
            ZONES,
            "cell,amount\n85283473fffffff,\n8528340ffffffff,-1.25\n8528340ffffffff,-2\n85283477fffffff,0.125\n",
            "zone,count,amount\nnorth,1,0\n\"south, old\",1,0.125\n,2,-3.25\n",
            "",
        ),
    ),
    (
        Asked::Sums,
        (
            Command::CountCellsInZones,
            ZONES,
            "cell,amount\n85283473fffffff,1\n8528340ffffffff,.\n",
            "",
            "line 3: sum: not a number\n",
        ),
    ),
    (
        Asked::Sums,
        (
            Command::CountCellsInZones,
            ZONES,
            "cell,amount\nxyz,.\n",
            "",
            "line 2: error 1: E_FAILED: not an index\n",
        ),
    ),
    (
        Asked::Sums,
        (
            Command::CountCellsInZones,
            NESTED,
            POINTS,
            "",
            "zones: error 10: E_DUPLICATE_INPUT\n",
        ),
    ),
    (
        Asked::SumsOfOverlapping,
        (
            Command::CountCellsInZones,
            NESTED,
            POINTS,
            "zone,count,amount\nnorth,1,1.5\n\"south, old\",1,2\nall,2,3.5\n,1,-0.5\n",
            "",
        ),
    ),
    (
        Asked::Overlapping,
        (
            Command::CellsToZones,
            NESTED,
            "cell\n85283473fffffff\n85283477fffffff\n8528340ffffffff\n",
            "cell,zone\n85283473fffffff,all\n85283473fffffff,north\n85283477fffffff,all\n\
             85283477fffffff,\"south, old\"\n8528340ffffffff,\n",
            "",
        ),
    ),
    (
        Asked::Overlapping,
        (
            Command::CellsToZones,
            "zone,cell\nb,85283473fffffff\na,85283473fffffff\nb,8428347ffffffff\nb,85283477fffffff\n",
            "cell\n85283473fffffff\n85283477fffffff\n",
            "cell,zone\n85283473fffffff,b\n85283473fffffff,a\n85283477fffffff,b\n",
            "",
        ),
    ),
    (
        Asked::Overlapping,
        (
            Command::CountCellsInZones,
            NESTED,
            POINTS,
            "zone,count\nnorth,1\n\"south, old\",1\nall,2\n,1\n",
            "",
        ),
    ),
    (
        Asked::Overlapping,
        (
            Command::CountCellsInZones,
            "zone,cell\nb,85283473fffffff\na,85283473fffffff\nb,8428347ffffffff\nb,85283477fffffff\n",
            "cell\n85283473fffffff\n\n85283477fffffff\n85283473fffffff\n8009fffffffffff\n",
            "zone,count\nb,3\na,2\n,1\n",
            "",
        ),
    ),
    (
        Asked::SumsOfZones,
        (
            Command::CountCellsInZones,
            LISTED,
            POINTS,
            "zone,count,amount\n802bfffffffffff,0,0\n85283473fffffff,1,1.5\n85283477fffffff,1,2\n0,1,-0.5\n",
            "",
        ),
    ),
    (
        Asked::SumsOfZones,
        (
            Command::CountCellsInZones,
            "",
            POINTS,
            "zone,count,amount\n0,3,3\n",
            "",
        ),
    ),
    (
        Asked::SumsOfZones,
        (
            Command::CountCellsInZones,
            "85283477fffffff\n8428347ffffffff\n",
            "xyz\n",
            "",
            "zones: error 10: E_DUPLICATE_INPUT\n",
        ),
    ),
    (
        Asked::SumsOfZones,
        (
            Command::CountCellsInZones,
            LISTED,
            "cell,amount\n85283473fffffff,1\n8528340ffffffff,1e3\n",
            "",
            "line 3: sum: not a number\n",
        ),
    ),
    (
        Asked::SumsOfZoneTable,
        (
            Command::CountCellsInZones,
            "zone,cell\nnorth,8428347ffffffff\nnorth,8528340ffffffff\nnone,\n",
            POINTS,
            "zone,count,amount\n8428347ffffffff,2,3.5\n8528340ffffffff,1,-0.5\n0,0,0\n",
            "",
        ),
    ),
    (
        Asked::SumsOfFields,
        (
            Command::CountCellsInZones,
            "8428347ffffffff\n",
            "85283473fffffff,0.1\n85283477fffffff,0.2\n862834737ffffff,-0.3\n8528340ffffffff,\n",
            "8428347ffffffff,3,0\n0,1,0\n",
            "",
        ),
    ),
    (
        Asked::SumsOfFieldsByTable,
        (
            Command::CountCellsInZones,
            "cell\n8428347ffffffff\n",
            "85283473fffffff,0.1\n8528340ffffffff,-7\n",
            "zone,count,sum\n8428347ffffffff,1,0.1\n0,1,-7\n",
            "",
        ),
    ),
    (
        Asked::Values,
        (
            Command::UniteCells,
            "",
            "zone,cell\nnorth,85283473fffffff\n\"south, old\",85283477fffffff\nnone,\n\
             \"north\",8428347ffffffff\nwest,8528340ffffffff\n",
            "zone,cell\nnorth,8428347ffffffff\n\"south, old\",85283477fffffff\nwest,8528340ffffffff\n",
            "",
        ),
    ),
    (
        Asked::Values,
        (
            Command::CompactCells,
            "",
            "zone,cell\nb,8528340ffffffff\na,85283477fffffff\nb,8009fffffffffff\na,85283473fffffff\n",
            "zone,cell\nb,8009fffffffffff\nb,8528340ffffffff\na,85283473fffffff\na,85283477fffffff\n",
            "",
        ),
    ),
    (
        Asked::Values,
        (
            Command::CompactCells,
            "",
            "zone,cell\nb,8528340ffffffff\na,85283477fffffff\na,8428347ffffffff\n",
            "",
            "line 3: error 10: E_DUPLICATE_INPUT\n",
        ),
    ),
    (
        Asked::Values,
        (
            Command::UncompactCells { res: 5 },
            "",
            "zone,cell\na,85283477fffffff\nb,8428347ffffffff\na,8528340ffffffff\n",
            "zone,cell\na,85283477fffffff\na,8528340ffffffff\nb,85283463fffffff\nb,85283467fffffff\n\
             b,8528346bfffffff\nb,8528346ffffffff\nb,85283473fffffff\nb,85283477fffffff\nb,8528347bfffffff\n",
            "",
        ),
    ),
    (
        Asked::Values,
        (
            Command::UncompactCells { res: 5 },
            "",
            "zone,cell\na,85283477fffffff\nb,862834707ffffff\n",
            "",
            "line 3: error 12: E_RES_MISMATCH\n",
        ),
    ),
    (
        Asked::Values,
        (
            Command::UniteCells,
            "",
            "zone,cell\na,85283477fffffff\nb,xyz\n",
            "",
            "line 3: error 1: E_FAILED: not an index\n",
        ),
    ),
    (
        Asked::Values,
        (
            Command::IntersectCells,
            "85283473fffffff\r\n862834777ffffff\n",
            PARTS,
            "zone,cell\nnorth,85283473fffffff\nnorth,862834777ffffff\n\"south, old\",862834777ffffff\n",
            "",
        ),
    ),
    (
        Asked::Values,
        (
            Command::SubtractCells,
            "85283473fffffff",
            PARTS,
            "zone,cell\nnorth,85283463fffffff\nnorth,85283467fffffff\nnorth,8528346bfffffff\n\
             north,8528346ffffffff\nnorth,85283477fffffff\nnorth,8528347bfffffff\n\
             \"south, old\",85283477fffffff\nwest,8528340ffffffff\n",
            "",
        ),
    ),
    (
        Asked::Values,
        (
            Command::SubtractCells,
            "8428347ffffffff\n",
            PARTS,
            "zone,cell\nwest,8528340ffffffff\n",
            "",
        ),
    ),
    (
        Asked::Values,
        (Command::IntersectCells, "", PARTS, "zone,cell\n", ""),
    ),
    (
        Asked::Values,
        (
            Command::SubtractCells,
            "85283473fffffff\nxyz\n",
            "zone,cell\nnorth,xyz\n",
            "",
            "region: line 2: error 1: E_FAILED\n",
        ),
    ),
    (
        Asked::Values,
        (
            Command::IntersectCells,
            "85283473fffffff\n",
            "zone,cell\nnorth,85283473fffffff\nwest,xyz\n",
            "",
            "line 3: error 1: E_FAILED: not an index\n",
        ),
    ),
    (
        Asked::ValuesOverTable,
        (
            Command::IntersectCells,
            "cell,zone\n8528340ffffffff,a\n,\n85283477fffffff,b\n",
            PARTS,
            "zone,cell\nnorth,85283477fffffff\n\"south, old\",85283477fffffff\nwest,8528340ffffffff\n",
            "",
        ),
    ),
    (
        Asked::ValuesOverTable,
        (
            Command::SubtractCells,
            "cell,zone\n85283473fffffff,a\nxyz,b\n",
            PARTS,
            "",
            "region: line 3: error 1: E_FAILED: not an index\n",
        ),
    ),
];

/// Whether a row is answered, in pieces of each size; an answer about the list as a whole with one flush.
fn answers(alloc: Global, asked: Asked, row: &FileRow) -> Result<bool, AllocError> {
    let status = u8::from(!row.4.is_empty());
    let tables = tables(alloc, asked)?;
    for most in &PIECES {
        let run = over_tables(alloc, row, Some(&tables), *most, WELL);
        let flushed = matches!(asked, Asked::Overlapping)
            || run.out.flushes() == u64::from(row.4.is_empty());
        if !flushed || !run.is(row.3, row.4, status) {
            return Ok(false);
        }
    }
    Ok(true)
}

#[test]
fn second_fields_are_added_up_or_divide_the_list(rt: HostRuntime) {
    for (number, (asked, row)) in ANSWERED.iter().enumerate() {
        let right = answers(rt.alloc(), *asked, row);
        expect_row(&rt, number, matches!(right, Ok(true)));
    }
}
