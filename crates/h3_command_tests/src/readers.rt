//! Commands over a reader that fails.

use crate::cases::{
    BELOW_BASE_20, Case, EDGE_CASES, HEXAGON, LIST_CASES, PLAIN_CASES, Reads, WALK_CASES, whole,
};
use crate::expected::{expect, expect_at, expect_row};
use h3_fakes::{Faults, NO_FAULT, bases_file, table_file};
use h3_requests::Command;
use h3_table::vectors::TestTable;
use std::alloc::Global;
use std::process::Abort;

/// Whether the whole answer is given, in as many pulls as that takes.
fn is_answered(alloc: Global, case: &Case<'_>, most: usize, faults: Faults) -> bool {
    let run = case.read(alloc, most, faults);
    run.is(case.output, case.line, case.status) && run.pulls == case.pulls(most)
}

/// Whether a read fault is reported, nothing is written, and no pull is made after it.
pub fn stops_at_fault(alloc: Global, case: &Case<'_>, most: usize, faults: Faults) -> bool {
    let run = case.read(alloc, most, faults);
    run.is("", "fault: read\n", 4)
        && run.out.calls() == 0
        && run.pulls == faults.first().saturating_add(1)
}

/// Whether a fault at each pull is met, whether it passes or not, and none after the last pull.
fn meets_each_fault(alloc: Global, case: &Case<'_>, most: usize) -> bool {
    let pulls = case.pulls(most);
    for pull in 0..pulls {
        let stops = stops_at_fault(alloc, case, most, Faults::From(pull))
            && stops_at_fault(alloc, case, most, Faults::Once(pull));
        if !stops {
            return false;
        }
    }
    is_answered(alloc, case, most, Faults::From(pulls)) && is_answered(alloc, case, most, NO_FAULT)
}

#[test]
fn a_plain_command_reads_nothing(rt: HostRuntime) {
    for (row, case) in PLAIN_CASES.iter().enumerate() {
        expect_row(&rt, row, is_answered(rt.alloc(), case, 1, NO_FAULT));
    }
}

/// Whether a list in pieces of each of these sizes meets each fault of its reader.
fn meets_each_fault_of_a_list(alloc: Global, case: &Case<'_>) -> bool {
    meets_each_fault(alloc, case, 1)
        && meets_each_fault(alloc, case, 2)
        && meets_each_fault(alloc, case, 63)
        && meets_each_fault(alloc, case, 65536)
}

#[test]
fn a_list_whose_read_fails_is_a_read_fault(rt: HostRuntime) {
    for (row, case) in LIST_CASES.iter().enumerate() {
        expect_row(&rt, row, meets_each_fault_of_a_list(rt.alloc(), case));
    }
}

#[test]
fn a_long_list_that_is_read_byte_by_byte_may_fail_at_each(rt: HostRuntime) {
    let list = Reads::List(BELOW_BASE_20);
    let case = whole(Command::CompactCells, list, "8029fffffffffff\n");
    expect(&rt, "a long list", meets_each_fault(rt.alloc(), &case, 1));
}

/// Whether a command over a table meets each fault of its reader.
fn meets_each_fault_of_a_table(alloc: Global, file: &str, case: &Case<'_>) -> bool {
    let case = case.on_table(file);
    meets_each_fault(alloc, &case, 61)
        && meets_each_fault(alloc, &case, 4096)
        && is_answered(alloc, &case, 1, NO_FAULT)
}

/// Fails unless each of these commands over a table meets each fault of its reader.
fn expect_each_fault(rt: &impl Abort, alloc: Global, what: &str, file: &str, cases: &[Case<'_>]) {
    for (row, case) in cases.iter().enumerate() {
        let right = meets_each_fault_of_a_table(alloc, file, case);
        expect_at(rt, what, row as u64, right);
    }
}

#[test]
fn a_table_whose_read_fails_is_a_read_fault(rt: HostRuntime) {
    let file = table_file(TestTable::Plain);
    expect_each_fault(&rt, rt.alloc(), "walk", file.as_str(), &WALK_CASES);
    expect_each_fault(&rt, rt.alloc(), "edge", file.as_str(), &EDGE_CASES);
}

#[test]
fn a_table_that_is_read_byte_by_byte_may_fail_at_each(rt: HostRuntime) {
    let file = bases_file(TestTable::Plain);
    let [case, ..] = WALK_CASES;
    let case = case.on_table(file.as_str());
    for pull in 0..case.pulls(1) {
        let stops = stops_at_fault(rt.alloc(), &case, 1, Faults::From(pull));
        expect_at(&rt, "pull", pull, stops);
    }
    expect(&rt, "no fault", is_answered(rt.alloc(), &case, 1, NO_FAULT));
}

/// Tables with a faulty record before others, and one the first fault of which is at its end.
static FAULTY: [(&str, &str); 6] = [
    ("base,dir,to\n0,1,110,0\n", "table: form 1\n"),
    ("base,dir,to,rot\n0,1,110\n0,2,11,0\n", "table: form 2\n"),
    ("base,dir,to,rot\n4,1,0,0\n0,2,11,0\n", "table: range 2\n"),
    (
        "base,dir,to,rot\n0,1,110,0\n0,1,110,0\n0,2,11,0\n",
        "table: repeated 3\n",
    ),
    (
        "base,k,j,jk,i,ik,ij,rk,rj,rjk,ri,rik,rij\n0,1,110,0\n0,2,11,0\n",
        "table: form 2\n",
    ),
    ("base,dir,to,rot\n0,1,110,0\n0,2,11,0\n", "table: missing\n"),
];

#[test]
fn a_read_fault_comes_before_the_refusal_of_a_table(rt: HostRuntime) {
    for (file, line) in &FAULTY {
        let case = Case {
            command: Command::GridDiskUnsafe {
                cell: HEXAGON,
                k: 1,
            },
            reads: Reads::Table(file),
            output: "",
            line,
            status: 3,
        };
        let right = meets_each_fault(rt.alloc(), &case, 1)
            && meets_each_fault(rt.alloc(), &case, 2)
            && meets_each_fault(rt.alloc(), &case, 4096);
        expect(&rt, file, right);
    }
}
