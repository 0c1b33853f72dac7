//! The six directions of the grid, and the errors of a base cell table, which name base cells and
//! directions.
#![tactic(auto)]

mod direction;
mod error;
pub mod laws;

pub use direction::{DIRECTIONS, Direction};
pub use error::TableError;
