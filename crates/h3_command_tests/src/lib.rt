//! The tests of `h3_command` over words, lists and base cell tables, also over streams that fail.
#![tactic(auto)]

#[cfg(test)]
mod cases;
#[cfg(test)]
mod edges;
#[cfg(test)]
mod expected;
#[cfg(test)]
mod lists;
#[cfg(test)]
mod parents;
#[cfg(test)]
mod plural_faults;
#[cfg(test)]
mod plural_flushes;
#[cfg(test)]
mod plural_pages;
#[cfg(test)]
mod plurals;
#[cfg(test)]
mod readers;
#[cfg(test)]
mod runs;
#[cfg(test)]
mod table_files;
#[cfg(test)]
mod walks;
#[cfg(test)]
mod writers;
