//! Runs of commands, for tests. They have no contract: a test compares what a run leaves behind with
//! a row, and the contracts of `h3_command` would be in each goal about what calls it.
#![tactic(auto)]

use h3_command::run;
use h3_requests::{Command, Tables};
use h3_streams::{Sink, Source};
use std::alloc::Global;

/// Runs a command, as `run` of `h3_command` does, and returns the exit status.
pub fn run_command<R: Source, T: Source, W: Sink, E: Sink>(
    alloc: Global,
    command: &Command,
    input: &mut R,
    table: &mut T,
    out: &mut W,
    err: &mut E,
) -> u8 {
    run::run(alloc, command, input, table, out, err)
}

/// Runs a command over a list and a file of cells that may have rows, as `run_over` of `h3_command` does,
/// and returns the exit status.
pub fn run_over_rows<R: Source, T: Source, W: Sink, E: Sink>(
    alloc: Global,
    command: &Command,
    tables: &Tables,
    input: &mut R,
    table: &mut T,
    out: &mut W,
    err: &mut E,
) -> u8 {
    run::run_over(alloc, command, tables, input, table, out, err)
}
