//! Commands over tables in format 2.

use super::without_last;
use crate::cases::{BESIDE, HEXAGON, PENTAGON_LINE, Row, first_wrong_over, refuses_table};
use crate::expected::{expect, expect_all};
use h3_directions::Direction;
use h3_fakes::bases_file;
use h3_grid::step;
use h3_index::Cell;
use h3_requests::Command;
use h3_streams::Streamed;
use h3_table::BaseTable;
use h3_table::vectors::TestTable;
use std::alloc::Global;

/// A disk around a cell of resolution 0.
const CENTRE_DISK: Row = (
    Command::GridDiskUnsafe {
        cell: Some(0x803dfffffffffff),
        k: 1,
    },
    "803dfffffffffff\n8055fffffffffff\n8053fffffffffff\n803bfffffffffff\n\
     8025fffffffffff\n8027fffffffffff\n803ffffffffffff\n",
    "",
);

/// Walks over the plain table: whole ones, and two that are refused on their way.
static PLAIN_WALKS: [Row; 7] = [
    (
        Command::GridDiskUnsafe {
            cell: HEXAGON,
            k: 1,
        },
        "85283473fffffff\n85283447fffffff\n8528347bfffffff\n85283463fffffff\n\
         85283477fffffff\n8528340ffffffff\n8528340bfffffff\n",
        "",
    ),
    (
        Command::GridDiskUnsafe {
            cell: HEXAGON,
            k: 0,
        },
        "85283473fffffff\n",
        "",
    ),
    (
        Command::GridDiskDistancesUnsafe {
            cell: HEXAGON,
            k: 0,
        },
        "85283473fffffff 0\n",
        "",
    ),
    CENTRE_DISK,
    (
        Command::GridRingUnsafe {
            cell: HEXAGON,
            k: 1,
        },
        "8528340bfffffff\n85283447fffffff\n8528347bfffffff\n85283463fffffff\n\
         85283477fffffff\n8528340ffffffff\n",
        "",
    ),
    (
        Command::GridDiskUnsafe { cell: BESIDE, k: 1 },
        "800bfffffffffff\n8023fffffffffff\n8021fffffffffff\n",
        PENTAGON_LINE,
    ),
    (
        Command::GridRingUnsafe { cell: BESIDE, k: 1 },
        "800dfffffffffff\n8023fffffffffff\n8021fffffffffff\n",
        PENTAGON_LINE,
    ),
];

#[test]
fn walks_over_the_plain_table_are_answered(rt: HostRuntime) {
    let plain = bases_file(TestTable::Plain);
    let row = first_wrong_over(rt.alloc(), &plain, &PLAIN_WALKS);
    expect_all(&rt, row, PLAIN_WALKS.len());
}

/// Walks over the twisted table.
static TWISTED_WALKS: [Row; 2] = [
    CENTRE_DISK,
    (
        Command::GridDiskUnsafe {
            cell: Some(0x813d3ffffffffff),
            k: 1,
        },
        "813d3ffffffffff\n81547ffffffffff\n813dbffffffffff\n813c3ffffffffff\n\
         813d7ffffffffff\n813e7ffffffffff\n813efffffffffff\n",
        "",
    ),
];

#[test]
fn walks_over_the_twisted_table_are_answered(rt: HostRuntime) {
    let twisted = bases_file(TestTable::Twisted);
    let row = first_wrong_over(rt.alloc(), &twisted, &TWISTED_WALKS);
    expect_all(&rt, row, TWISTED_WALKS.len());
}

/// Where a step in the direction I leads from 813d3ffffffffff, and its turns.
fn step_over(alloc: Global, table: TestTable) -> Option<(u64, u8)> {
    let file = bases_file(table);
    let mut source = Streamed::new(file.as_bytes());
    let table = BaseTable::read(alloc, &mut source).ok()?;
    let cell = Cell::new(0x813d3ffffffffff).ok()?;
    let (reached, turns) = step(&table, cell, Direction::I, 0).ok()?;
    Some((reached.raw(), turns))
}

/// Whether a step leads to this cell with these turns.
fn leads(reached: Option<(u64, u8)>, cell: u64, turns: u8) -> bool {
    match reached {
        Some(step) => step.0 == cell && step.1 == turns,
        None => false,
    }
}

#[test]
fn steps_cross_into_turned_frames(rt: HostRuntime) {
    let plain = step_over(rt.alloc(), TestTable::Plain);
    expect(&rt, "plain", leads(plain, 0x813ebffffffffff, 0));
    let twisted = step_over(rt.alloc(), TestTable::Twisted);
    expect(&rt, "twisted", leads(twisted, 0x813efffffffffff, 1));
}

/// The records of the other format under each header.
static MIXED_FILES: [&str; 2] = [
    "base,k,j,jk,i,ik,ij,rk,rj,rjk,ri,rik,rij\n0,1,110,0\n",
    "base,dir,to,rot\n0,110,11,121,1,111,12,0,0,0,0,0,0\n",
];

#[test]
fn tables_are_refused(rt: HostRuntime) {
    let command = Command::GridDiskUnsafe {
        cell: HEXAGON,
        k: 1,
    };
    let file = bases_file(TestTable::Plain);
    let short = without_last(file.as_str());
    expect(
        &rt,
        "short",
        refuses_table(rt.alloc(), short, command, "table: missing\n"),
    );
    let skew = bases_file(TestTable::Skew);
    expect(
        &rt,
        "skew",
        refuses_table(rt.alloc(), &skew, command, "table: corner 0 1\n"),
    );
    for file in &MIXED_FILES {
        expect(
            &rt,
            file,
            refuses_table(rt.alloc(), file, command, "table: form 2\n"),
        );
    }
}
