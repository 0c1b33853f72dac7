//! The words of a command line: the commands with their options, as `clap` takes them, and what the
//! words of a command line ask for.
#![tactic(auto)]

mod commands;
mod entry;
mod help;
mod options;
mod rows;
mod table;
mod words;

pub use options::CommandFile;
pub use words::{ArgsError, ListKind, Words, list_of, read_words};
