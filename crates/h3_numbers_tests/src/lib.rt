//! The tests of `h3_numbers`: numbers that are read, sums and their texts.
#![tactic(auto)]

#[cfg(test)]
mod expected;
#[cfg(test)]
mod model;
#[cfg(test)]
mod reading;
#[cfg(test)]
mod sums;
