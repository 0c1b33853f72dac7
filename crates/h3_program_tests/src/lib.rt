//! The tests of `h3_program`, and those of `h3_command` whose commands are read from the words of
//! a command line.
#![tactic(auto)]

#[cfg(test)]
mod expected;
#[cfg(test)]
mod line_runs;
#[cfg(test)]
mod listed_rows;
#[cfg(test)]
mod program;
#[cfg(test)]
mod retried;
#[cfg(test)]
mod table_lists;
