//! H3 cells, their hierarchy, sets and zones of them, and the grid: the public API of the library's
//! crates under one name.
//!
//! [`Cell`] and [`Edge`] are indexes; [`parent`], [`children`] and [`child_pos`] move in the
//! hierarchy; [`compact_cells`], [`uncompact`] and [`unite`] work on lists; [`Region`] and [`Zones`]
//! look cells up; [`Disk`], [`Ring`] and [`edges_of`] walk over a [`BaseTable`].
//!
//! # Examples
//!
//! ```
//! use h3::{Cell, H3Error, parent};
//!
//! fn parent_of(index: u64) -> Result<Cell, H3Error> {
//!     parent(Cell::new(index)?, 4)
//! }
//! ```
#![tactic(auto)]

pub use h3_directions::{DIRECTIONS, Direction, TableError};
pub use h3_grid::{
    Disk, Edges, Ring, are_neighbors, disk_len, edge_between, edge_destination, edges_of, step,
};
pub use h3_index::{
    Cell, Edge, H3Error, index_bytes, num_cells, pentagon, read_index, res0_cell, write_index,
};
pub use h3_lines::read_cells;
pub use h3_regions::{
    Region, ZoneIndex, Zones, count, count_indexed, find_overlap, intersect, join, join_indexed,
    order_by_number, order_zones, subtract, unite,
};
pub use h3_set::{Compaction, Uncompact, compact_cells, compact_in_place, has_overlap, uncompact};
pub use h3_streams::{CountedReader, Sink, Source, StreamFault, Streamed};
pub use h3_table::BaseTable;
pub use h3_tree::{
    Children, center_child, child_at, child_pos, children, children_at, children_size, last_child,
    parent,
};
