//! Streams that fail, and rows, for tests, and files of tables, for these and for `h3_memory`. They
//! take no memory.
#![tactic(auto)]

mod rows;
mod streams;
mod tables;

pub use rows::{differ, holds};
pub use streams::{Faults, FaultySink, FaultySource, NO_FAULT, pulls_of, pulls_to_end};
pub use tables::{TableFile, bases_file, changed_file, open_file, table_file};
