//! Sets of H3 cells, given as lists: compaction and uncompaction.
#![tactic(auto)]

mod closing;
mod compact;
mod iter;
pub mod laws;
mod merge;
mod order;
mod rounds;
mod survey;
mod uncompaction;

pub use closing::compact_apart;
pub use compact::{compact_cells, compact_in_order, compact_in_place};
pub use iter::Uncompact;
pub use order::{has_overlap, put_in_order};
pub use rounds::Compaction;
pub use uncompaction::{resolution_below_all, uncompact};
