//! What the program `h3` can be asked for: the commands, with what their words parse as.
#![tactic(auto)]

mod command;
pub mod laws;
mod rows;

pub use command::{Command, IndexFunction};
pub use rows::{AreaOptions, CellField, RowOptions, TableOptions, Tables, is_separator};
