//! The tests of `h3_lines`: lists that are read, lines that are written, and errors; and of the tables of
//! `h3_rows`.
#![tactic(auto)]

#[cfg(test)]
mod amounts;
#[cfg(test)]
mod areas;
#[cfg(test)]
mod expected;
#[cfg(test)]
mod reading;
#[cfg(test)]
mod refusals;
#[cfg(test)]
mod texts;
#[cfg(test)]
mod writing;
