//! H3 indexes: cells, directed edges, the texts of indexes, and errors.
#![tactic(auto)]

mod cell;
mod count;
mod display;
mod edge;
mod error;
pub mod laws;
mod text;

pub use cell::{Cell, Siblings, is_pentagon_base};
pub use count::{num_cells, pentagon, res0_cell, resolution_from};
pub use edge::Edge;
pub use error::H3Error;
pub use text::{
    index_bytes, is_blank_text, put_cell_line, put_children_lines, read_index, read_plain,
    read_trimmed, write_index,
};
