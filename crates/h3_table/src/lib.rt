//! The table of the base cells' neighbors: its file, its checks and its links. [`vectors`] has the test
//! tables.
#![tactic(auto)]

mod bytes;
mod checks;
mod fields;
mod format;
mod format_one;
mod format_two;
pub mod laws;
mod links;
mod records;
mod scan;
mod table;
pub mod vectors;

pub use table::BaseTable;
