//! The tests of `h3_index`, `h3_lattice`, `h3_tree`, `h3_set`, `h3_regions` and `h3_grid`, a file for
//! each subject.
#![tactic(auto)]

#[cfg(test)]
mod areas;
#[cfg(test)]
mod cells;
#[cfg(test)]
mod chart;
#[cfg(test)]
mod edges;
#[cfg(test)]
mod expected;
#[cfg(test)]
mod grid;
#[cfg(test)]
mod hierarchy;
#[cfg(test)]
mod leaves;
#[cfg(test)]
mod regions;
#[cfg(test)]
mod rows;
#[cfg(test)]
mod sets;
#[cfg(test)]
mod sums;
#[cfg(test)]
mod texts;
#[cfg(test)]
mod zoned;
#[cfg(test)]
mod zones;
