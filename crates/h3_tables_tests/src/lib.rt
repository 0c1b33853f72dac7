//! The tests of `h3_command` over rows, regions, zones and areas, also over streams that fail.
#![tactic(auto)]

#[cfg(test)]
mod area_counts;
#[cfg(test)]
mod expected;
#[cfg(test)]
mod file_faults;
#[cfg(test)]
mod files;
#[cfg(test)]
mod parent_counts;
#[cfg(test)]
mod second_fields;
#[cfg(test)]
mod tables_of_cells;
#[cfg(test)]
mod tables_of_names;
