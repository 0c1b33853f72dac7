//! The commands of the program `h3`, and how they run over streams.
#![tactic(auto)]

mod area_counts;
mod area_names;
mod area_sums;
mod areas;
mod bases;
mod by;
mod by_lists;
mod by_region;
mod by_sets;
mod by_value;
mod children;
mod count_lines;
mod counts;
mod edges;
mod files;
pub mod laws;
mod listed;
mod long;
mod overlap_tally;
mod parent_sums;
mod parents;
mod per_index;
mod required;
mod rows;
pub mod run;
mod sets;
mod short_names;
mod sizes;
mod sum_rows;
mod sum_tally;
mod table_lists;
mod table_query;
mod uncompacted_lines;
mod walks;
mod zone_sums;
