//! The hierarchy of H3 cells: parents, children and positions among them.
#![tactic(auto)]

mod ancestors;
mod base_seven;
mod descendants;
mod iter;
pub mod laws;
mod positions;
mod post_order;
mod powers;
mod sibling_groups;

pub use ancestors::parent;
pub use descendants::{
    center_child, children, children_at, children_size, last_child, resolution_below,
    sibling_groups_at,
};
pub use iter::Children;
pub use positions::{child_at, child_pos};
pub use post_order::post_order_key;
pub use sibling_groups::SiblingGroups;
