//! The tests of `h3_table`, and of what it stands on beside cells: streams, and the errors of the
//! library.
#![tactic(auto)]

#[cfg(test)]
mod errors;
#[cfg(test)]
mod expected;
#[cfg(test)]
mod format_two;
#[cfg(test)]
mod streams;
#[cfg(test)]
mod table;
