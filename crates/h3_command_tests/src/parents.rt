//! The cells of a bare list counted by their ancestors at a resolution.

use crate::cases::{Reads, answers};
use crate::expected::expect_row;
use h3_requests::Command;

/// Resolutions and bare lists, and their counts or the error.
static BARE: [(i32, &str, &str, &str); 20] = [
    (
        4,
        "85283473fffffff\n85283477fffffff\n8528340ffffffff\n85283473fffffff\n",
        "8428341ffffffff 1\n8428347ffffffff 3\n",
        "",
    ),
    // the ancestor of a cell at its own resolution is the cell
    (
        5,
        "85283477fffffff\n\n \t0X85283473FFFFFFF \r\n85283477fffffff",
        "85283473fffffff 1\n85283477fffffff 2\n",
        "",
    ),
    // cells of several resolutions, within each other
    (
        4,
        "8f2834700000000\n8428347ffffffff\n862834707ffffff\n8928308280fffff\n85283473fffffff\n",
        "8428309ffffffff 1\n8428347ffffffff 4\n",
        "",
    ),
    (
        0,
        "85283473fffffff\n820837fffffffff\n85283447fffffff\n8009fffffffffff\n",
        "8009fffffffffff 2\n8029fffffffffff 2\n",
        "",
    ),
    (
        1,
        "8108bffffffffff\n820837fffffffff\n81083ffffffffff\n",
        "81083ffffffffff 2\n8108bffffffffff 1\n",
        "",
    ),
    (
        15,
        "8f2834700000001\n8f2834700000000\n8f2834700000001\n",
        "8f2834700000000 1\n8f2834700000001 2\n",
        "",
    ),
    // no cells
    (4, "", "", ""),
    (4, "\n \t\r\n\n", "", ""),
    (16, "", "", ""),
    (-1, "\n\n", "", ""),
    // no resolution
    (
        16,
        "\n85283473fffffff\n",
        "",
        "line 2: error 4: E_RES_DOMAIN\n",
    ),
    (
        -1,
        "85283473fffffff\nxyz\n",
        "",
        "line 1: error 4: E_RES_DOMAIN\n",
    ),
    (
        i32::MAX,
        "8009fffffffffff",
        "",
        "line 1: error 4: E_RES_DOMAIN\n",
    ),
    (
        16,
        "xyz\n85283473fffffff\n",
        "",
        "line 1: error 1: E_FAILED\n",
    ),
    // the first line that is faulty, or has a coarser cell
    (
        4,
        "85283473fffffff\n\n832834fffffffff\n85283473fffffff\n",
        "",
        "line 3: error 12: E_RES_MISMATCH\n",
    ),
    (
        4,
        "85283473fffffff\n832834fffffffff\nxyz\n",
        "",
        "line 2: error 12: E_RES_MISMATCH\n",
    ),
    (
        4,
        "85283473fffffff\nxyz\n832834fffffffff\n",
        "",
        "line 2: error 1: E_FAILED\n",
    ),
    (
        15,
        "81087ffffffffff\n8e2834700000007\n",
        "",
        "line 1: error 5: E_CELL_INVALID\n",
    ),
    (
        15,
        "8f2834700000000\n8e2834700000007",
        "",
        "line 2: error 12: E_RES_MISMATCH\n",
    ),
    (
        1,
        "8009fffffffffff\n",
        "",
        "line 1: error 12: E_RES_MISMATCH\n",
    ),
];

/// The bytes of a pull of a list.
static PULLS: [usize; 6] = [1, 2, 63, 64, 65, 65536];

#[test]
fn cells_are_counted_by_their_ancestors(rt: HostRuntime) {
    for (number, (res, list, output, line)) in BARE.iter().enumerate() {
        let command = Command::CountCellsInParents { res: *res };
        let list = Reads::List(list);
        let right = answers(rt.alloc(), command, list, output, line, &PULLS);
        expect_row(&rt, number, right);
    }
}
