//! H3's functions for C, each over the library's function of its name. Every export has the prefix
//! `h3w_`. `include/h3whole.h` declares them, and says what a caller has to keep to.
#![tactic(auto)]

mod areas;
mod column;
mod descendants;
mod disks;
mod edges;
mod functions;
mod hierarchy;
mod inspection;
mod lists;
mod outcome;
mod overlapping;
mod regions;
mod resolutions;
mod sets;
mod starts;
mod tables;
mod texts;
mod version;
mod walks;
mod zones;
