//! The arithmetic of the hexagonal grid of H3: turns, carries, digit lists, and the sums of a cell
//! and a direction.
#![tactic(auto)]

mod carries;
mod class;
mod digits;
mod direction;
pub mod laws;
mod moved;

pub use class::{Class, carry};
pub use digits::Digits;
pub use direction::{edge_direction, turn};
pub use moved::{Moved, add, add_at};
