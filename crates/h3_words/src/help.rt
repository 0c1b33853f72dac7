//! What help says of the commands.

ghost use Rattle.std.specs.Prelude.{◌≡◌, false};
ghost use Rattle.clap.specs.Words.{app_of, new_app};
ghost use Rattle.clap.specs.declared.builder.command.Command.TheViews.{out-Command};
ghost use Rattle.h3_words.specs.Commands.{word_of};

use crate::commands::word;
use crate::entry::texts_of;
use crate::table::commands;
use clap::Command as Parser;
use h3_requests::Command;
use std::alloc::Global;

// The help of the program: each row's line goes to those of its part, and in the end all parts are put together.
macro_rules! help {
    (
        [$($own:literal)*] $hierarchy:tt $table:tt $edges:tt $lists:tt;
        $command:tt [cells $line:literal] $entry:tt;
        $($rest:tt)*
    ) => {
        help!([$($own)* $line] $hierarchy $table $edges $lists; $($rest)*)
    };
    (
        $cells:tt [$($own:literal)*] $table:tt $edges:tt $lists:tt;
        $command:tt [hierarchy $line:literal] $entry:tt;
        $($rest:tt)*
    ) => {
        help!($cells [$($own)* $line] $table $edges $lists; $($rest)*)
    };
    (
        $cells:tt $hierarchy:tt [$($own:literal)*] $edges:tt $lists:tt;
        $command:tt [table $line:literal] $entry:tt;
        $($rest:tt)*
    ) => {
        help!($cells $hierarchy [$($own)* $line] $edges $lists; $($rest)*)
    };
    (
        $cells:tt $hierarchy:tt $table:tt [$($own:literal)*] $lists:tt;
        $command:tt [edges $line:literal] $entry:tt;
        $($rest:tt)*
    ) => {
        help!($cells $hierarchy $table [$($own)* $line] $lists; $($rest)*)
    };
    (
        $cells:tt $hierarchy:tt $table:tt $edges:tt [$($own:literal)*];
        $command:tt [lists $line:literal] $entry:tt;
        $($rest:tt)*
    ) => {
        help!($cells $hierarchy $table $edges [$($own)* $line]; $($rest)*)
    };
    ([$($cells:literal)*] [$($hierarchy:literal)*] [$($table:literal)*] [$($edges:literal)*] [$($lists:literal)*];) => {
        concat!(
            "Inspect, traverse and compact H3 cells\n\nUsage: h3 <COMMAND>\n",
            "\nCells:\n",
            $("  ", $cells, "\n",)*
            "\nHierarchy:\n",
            $("  ", $hierarchy, "\n",)*
            "\nWith a table of base cells, made by h3-table:\n",
            $("  ", $table, "\n",)*
            "\nDirected edges:\n",
            $("  ", $edges, "\n",)*
            "\nLists on standard input, one index a line:\n",
            $("  ", $lists, "\n",)*
            "\nOptions:\n\
            \x20 -h, --help     Print help\n\
            \x20 -V, --version  Print the version\n\n\
            Errors, on standard error:\n\
            \x20 error 13: E_MEMORY_ALLOC         out of memory, in any command; status 1\n\
            \x20 line 2: error 5: E_CELL_INVALID  the first faulty line of a list; status 1\n\
            \x20 table: form 1                    the file of --table is not a table; status 3\n\
            \x20 table: open                      it cannot be opened; status 3\n\
            \x20 fault: read                      a read failed; status 4\n\n\
            A - for a file means a file of that name. No file can be the pipe of the list.\n\
            The options, the errors and an example of a command: h3 COMMAND --help\n\
            Of a CSV file: h3 cellsToParents -r 4 --csv --column cell < trips.csv"
        )
    };
}

/// What `h3 --help` prints: the commands by what they are for, in lines of at most 80 characters.
pub(crate) const HELP: &str = commands!(help! [] [] [] [] [];);

/// What the help of a command begins with, the usage of the command in the table, and what its help ends with.
fn parts_of_help(command: Command) -> (&'static str, &'static str, &'static str) {
    let (about, rest) = texts_of(command).split_once('\n').unwrap_or(("", ""));
    let (usage, notes) = rest.split_once('\n').unwrap_or(("", ""));
    (about, usage, notes)
}

/// The usage of a command in the table, or its word if that has none.
pub(crate) fn list_usage(command: Command) -> &'static str {
    let (_, usage, _) = parts_of_help(command);
    if usage.is_empty() {
        return word(command);
    }
    usage
}

/// The command with its texts of help, and without its options.
pub(crate) fn described<'a>(alloc: Global, command: Command) -> Parser<'a>
    ensures app { app_of result ≡ new_app (word_of command) }
    ensures local { (out-Command result).has_globals ≡ false }
{
    let (about, usage, notes) = parts_of_help(command);
    let parser = Parser::new(alloc, word(command))
        .about(about)
        .after_help(notes);
    if usage.is_empty() {
        return parser;
    }
    parser.override_usage(usage)
}
