//! H3's functions over indexes: a cell or an edge is made of each index first, and where no cell
//! or edge has it, that is the error.
#![tactic(auto)]

mod bases;
mod disk_cells;
mod edges;
mod hierarchy;
mod inspection;
pub mod laws;
mod outcome;
mod resolutions;

pub use bases::{BaseCells, Pentagons};
pub use disk_cells::DiskCells;
pub use edges::{edge_from, origin_to_directed_edges};
pub use hierarchy::{cell_to_children, cell_to_parent, child_pos_to_cell};
pub use inspection::cell_from;
pub use outcome::{Outcome, function_name, outcome_of};
pub use resolutions::{get_num_cells, get_pentagons, get_res0_cells};
