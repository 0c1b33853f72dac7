//! Commands on disks and rings.

use crate::cases::{
    BESIDE, HEXAGON, PENTAGON, PENTAGON_LINE, Row, answers_row_over, first_wrong_over, index_of,
    refuses, refuses_table,
};
use crate::expected::{expect, expect_all, expect_row};
use crate::table_files::without_last;
use h3_fakes::{changed_file, open_file, table_file};
use h3_requests::Command;
use h3_table::vectors::TestTable;

/// A cell of resolution 0 without pentagons within 2 steps.
const CENTRE: Option<u64> = Some(0x803dfffffffffff);

/// A hexagon in a pentagon base cell.
const IN_PENTAGON_BASE: Option<u64> = Some(0x8108bffffffffff);

/// The disk of radius 1 around the cell of many tests.
const INSIDE: &str = "85283473fffffff\n85283447fffffff\n8528347bfffffff\n85283463fffffff\n\
                      85283477fffffff\n8528340ffffffff\n8528340bfffffff\n";

/// The disk of radius 1 around the cell of resolution 0.
const CENTRES: &str = "803dfffffffffff\n8055fffffffffff\n8053fffffffffff\n803bfffffffffff\n\
                       8025fffffffffff\n8027fffffffffff\n803ffffffffffff\n";

/// The disk of radius 2 around it, with the distances.
const CENTRE_DISTANCES: &str =
    "803dfffffffffff 0\n8055fffffffffff 1\n8053fffffffffff 1\n803bfffffffffff 1\n\
     8025fffffffffff 1\n8027fffffffffff 1\n803ffffffffffff 1\n8057fffffffffff 2\n\
     806dfffffffffff 2\n806bfffffffffff 2\n8069fffffffffff 2\n8051fffffffffff 2\n\
     8039fffffffffff 2\n8023fffffffffff 2\n800dfffffffffff 2\n800ffffffffffff 2\n\
     8011fffffffffff 2\n8029fffffffffff 2\n8041fffffffffff 2\n";

/// The ring of radius 2 around it.
const CENTRE_RING: &str = "8041fffffffffff\n8057fffffffffff\n806dfffffffffff\n806bfffffffffff\n\
     8069fffffffffff\n8051fffffffffff\n8039fffffffffff\n8023fffffffffff\n\
     800dfffffffffff\n800ffffffffffff\n8011fffffffffff\n8029fffffffffff\n";

/// The beginning of a disk that meets a pentagon.
const DISK_BEGUN: &str = "800bfffffffffff\n8023fffffffffff\n8021fffffffffff\n";

/// The line for a radius below 0.
const DOMAIN: &str = "error 2: E_DOMAIN\n";

/// Walks over the plain table: whole ones, and those that are refused on their way or before it.
static PLAIN_WALKS: [Row; 21] = [
    (
        Command::GridDiskUnsafe {
            cell: HEXAGON,
            k: 1,
        },
        INSIDE,
        "",
    ),
    (
        Command::GridDiskUnsafe {
            cell: HEXAGON,
            k: 0,
        },
        "85283473fffffff\n",
        "",
    ),
    (Command::GridDiskUnsafe { cell: CENTRE, k: 1 }, CENTRES, ""),
    (
        Command::GridDiskDistancesUnsafe {
            cell: HEXAGON,
            k: 0,
        },
        "85283473fffffff 0\n",
        "",
    ),
    (
        Command::GridDiskDistancesUnsafe { cell: CENTRE, k: 2 },
        CENTRE_DISTANCES,
        "",
    ),
    (
        Command::GridRingUnsafe {
            cell: HEXAGON,
            k: 1,
        },
        "8528340bfffffff\n85283447fffffff\n8528347bfffffff\n85283463fffffff\n\
         85283477fffffff\n8528340ffffffff\n",
        "",
    ),
    (
        Command::GridRingUnsafe { cell: CENTRE, k: 2 },
        CENTRE_RING,
        "",
    ),
    // refused on their way
    (
        Command::GridDiskUnsafe { cell: BESIDE, k: 1 },
        DISK_BEGUN,
        PENTAGON_LINE,
    ),
    (
        Command::GridDiskUnsafe {
            cell: BESIDE,
            k: i32::MAX,
        },
        DISK_BEGUN,
        PENTAGON_LINE,
    ),
    (
        Command::GridDiskDistancesUnsafe { cell: BESIDE, k: 1 },
        "800bfffffffffff 0\n8023fffffffffff 1\n8021fffffffffff 1\n",
        PENTAGON_LINE,
    ),
    (
        Command::GridRingUnsafe { cell: BESIDE, k: 1 },
        "800dfffffffffff\n8023fffffffffff\n8021fffffffffff\n",
        PENTAGON_LINE,
    ),
    (
        Command::GridRingUnsafe {
            cell: BESIDE,
            k: i32::MAX,
        },
        "",
        PENTAGON_LINE,
    ),
    // refused before they begin, or not
    (
        Command::GridDiskUnsafe {
            cell: PENTAGON,
            k: 0,
        },
        "",
        PENTAGON_LINE,
    ),
    (
        Command::GridDiskDistancesUnsafe {
            cell: PENTAGON,
            k: 0,
        },
        "",
        PENTAGON_LINE,
    ),
    (
        Command::GridRingUnsafe {
            cell: PENTAGON,
            k: 0,
        },
        "8009fffffffffff\n",
        "",
    ),
    (
        Command::GridDiskUnsafe {
            cell: IN_PENTAGON_BASE,
            k: 0,
        },
        "8108bffffffffff\n",
        "",
    ),
    (
        Command::GridDiskUnsafe {
            cell: IN_PENTAGON_BASE,
            k: 1,
        },
        "",
        PENTAGON_LINE,
    ),
    (
        Command::GridRingUnsafe {
            cell: IN_PENTAGON_BASE,
            k: 1,
        },
        "",
        PENTAGON_LINE,
    ),
    (
        Command::GridDiskUnsafe {
            cell: PENTAGON,
            k: -1,
        },
        "",
        DOMAIN,
    ),
    (
        Command::GridDiskDistancesUnsafe {
            cell: HEXAGON,
            k: -1,
        },
        "",
        DOMAIN,
    ),
    (
        Command::GridRingUnsafe {
            cell: PENTAGON,
            k: -1,
        },
        "",
        DOMAIN,
    ),
];

#[test]
fn walks_over_the_plain_table_are_answered(rt: HostRuntime) {
    let plain = table_file(TestTable::Plain);
    let row = first_wrong_over(rt.alloc(), &plain, &PLAIN_WALKS);
    expect_all(&rt, row, PLAIN_WALKS.len());
}

/// Walks over the twisted table.
static TWISTED_WALKS: [Row; 4] = [
    (Command::GridDiskUnsafe { cell: CENTRE, k: 1 }, CENTRES, ""),
    (
        Command::GridDiskUnsafe {
            cell: Some(0x813d3ffffffffff),
            k: 1,
        },
        "813d3ffffffffff\n81547ffffffffff\n813dbffffffffff\n813c3ffffffffff\n\
         813d7ffffffffff\n813e7ffffffffff\n813efffffffffff\n",
        "",
    ),
    (
        Command::GridDiskDistancesUnsafe { cell: CENTRE, k: 2 },
        CENTRE_DISTANCES,
        "",
    ),
    (
        Command::GridRingUnsafe { cell: CENTRE, k: 2 },
        CENTRE_RING,
        "",
    ),
];

#[test]
fn walks_over_the_twisted_table_are_answered(rt: HostRuntime) {
    let twisted = table_file(TestTable::Twisted);
    let row = first_wrong_over(rt.alloc(), &twisted, &TWISTED_WALKS);
    expect_all(&rt, row, TWISTED_WALKS.len());
}

/// A ring that does not close.
static OPEN_RING: Row = (
    Command::GridRingUnsafe {
        cell: Some(0x8001fffffffffff),
        k: 2,
    },
    "8005fffffffffff\n8007fffffffffff\n800bfffffffffff\n800dfffffffffff\n\
     800ffffffffffff\n8011fffffffffff\n8013fffffffffff\n8015fffffffffff\n\
     8017fffffffffff\n8019fffffffffff\n801bfffffffffff\n801ffffffffffff\n",
    PENTAGON_LINE,
);

#[test]
fn a_ring_that_does_not_close_is_refused_after_its_cells(rt: HostRuntime) {
    let open = open_file();
    expect(
        &rt,
        "an open ring",
        answers_row_over(rt.alloc(), &open, &OPEN_RING),
    );
}

/// The disk of radius 1 around the cell of many tests.
const DISK: Command = Command::GridDiskUnsafe {
    cell: HEXAGON,
    k: 1,
};

#[test]
fn tables_are_refused(rt: HostRuntime) {
    let alloc = rt.alloc();
    let plain = table_file(TestTable::Plain);
    let short = without_last(plain.as_str());
    expect(
        &rt,
        "short",
        refuses_table(alloc, short, DISK, "table: missing\n"),
    );
    let turned = changed_file(TestTable::Plain, 1, 110, 1);
    expect(
        &rt,
        "turned",
        refuses_table(alloc, &turned, DISK, "table: reversal 0 1\n"),
    );
    let skew = table_file(TestTable::Skew);
    expect(
        &rt,
        "skew",
        refuses_table(alloc, &skew, DISK, "table: corner 0 1\n"),
    );
    let twice = changed_file(TestTable::Plain, 2, 110, 0);
    expect(
        &rt,
        "twice",
        refuses_table(alloc, &twice, DISK, "table: neighbours 0\n"),
    );
}

/// Files, and the lines that refuse them.
static SHORT_FILES: [(&str, &str); 3] = [
    ("base,dir,to,rot\n4,1,0,0\n", "table: range 2\n"),
    ("", "table: form 1\n"),
    (
        "base,dir,to,rot\n0,1,110,0\n0,1,110,0\n",
        "table: repeated 3\n",
    ),
];

#[test]
fn short_tables_are_refused(rt: HostRuntime) {
    for (file, line) in &SHORT_FILES {
        expect(&rt, line, refuses_table(rt.alloc(), file, DISK, line));
    }
}

/// Walks that are refused before they begin, if their table is not.
static WALKS_TO_REFUSE: [Command; 3] = [
    Command::GridDiskUnsafe {
        cell: PENTAGON,
        k: -1,
    },
    Command::GridDiskDistancesUnsafe {
        cell: PENTAGON,
        k: 0,
    },
    Command::GridRingUnsafe {
        cell: IN_PENTAGON_BASE,
        k: 1,
    },
];

#[test]
fn the_table_is_judged_before_the_walk(rt: HostRuntime) {
    for (row, command) in WALKS_TO_REFUSE.iter().enumerate() {
        let refused = refuses_table(rt.alloc(), "", *command, "table: form 1\n");
        expect_row(&rt, row, refused);
    }
}

/// Words that are no cells.
static NO_CELLS: [(&str, &str); 2] = [
    ("xyz", "error 1: E_FAILED\n"),
    ("81087ffffffffff", "error 5: E_CELL_INVALID\n"),
];

#[test]
fn the_index_is_judged_before_the_table(rt: HostRuntime) {
    for (word, line) in &NO_CELLS {
        let cell = index_of(word);
        let refused = refuses(rt.alloc(), Command::GridDiskUnsafe { cell, k: -1 }, line)
            && refuses(
                rt.alloc(),
                Command::GridDiskDistancesUnsafe { cell, k: -1 },
                line,
            )
            && refuses(rt.alloc(), Command::GridRingUnsafe { cell, k: -1 }, line);
        expect(&rt, word, refused);
    }
}
