//! Regions, zones and areas: sets of H3 cells, what two of them share, and which of them other cells
//! lie in. Nothing here allocates.
#![tactic(auto)]

mod ahead;
mod apart;
mod area_counting;
mod areas;
mod counting;
mod difference;
mod intersection;
mod joining;
pub mod laws;
mod order;
mod overlap;
mod region;
mod unions;
mod zone_index;
mod zone_table;
mod zones;

pub use ahead::AHEAD;
pub use apart::{ApartAreas, RefusedAreas};
pub use area_counting::{count_in_areas, count_in_overlapping_areas, count_next_in_areas};
pub use areas::Areas;
pub use counting::{count, count_indexed, count_next, count_of};
pub use difference::subtract;
pub use intersection::intersect;
pub use joining::{join, join_indexed};
pub use overlap::find_overlap;
pub use region::Region;
pub use unions::unite;
pub use zone_index::ZoneIndex;
pub use zone_table::{TabledZones, write_table};
pub use zones::{RefusedCells, Zones, order_by_number, order_zones};
