//! The entry of each command in their table: its word and options, and what help says of it.

ghost use Rattle.std.specs.Prelude.{◌≡◌};
ghost use Rattle.h3_words.specs.Commands.{entry_of, options_of, word_of};

use crate::options::CommandOption::{self, *};
use crate::table::{commands, with_line_options, with_list_options};
use h3_requests::{Command, IndexFunction};

/// A command: its word and its options.
#[derive(Drop)]
pub(crate) struct Entry<'a> {
    /// The word that names the command.
    pub(crate) word: &'a str,

    /// The options that the command has.
    pub(crate) options: &'static [CommandOption],
}

// A value that counts for nothing, for a field of a `Command`.
macro_rules! blank {
    (cell) => {
        None
    };
    (to) => {
        None
    };
    (edge) => {
        None
    };
    (res) => {
        0
    };
    (k) => {
        0
    };
    (position) => {
        0
    };
}

// The commands of all rows, with blank values.
macro_rules! blank_commands {
    ($(
        (
            $command:ident $({ $($field:ident),* })?
            $(($function:ident $({ $($given:ident),* })?) $(of $index:ident)?)?
        )
        $line:tt $entry:tt;
    )*) => {
        &[$(
            Command::$command
                $({ $($field: blank!($field)),* })?
                $((IndexFunction::$function $({ $($given: blank!($given)),* })? $(, blank!($index))?))?
        ),*]
    };
}

/// A command of each name, in the order of their table. It stands for all commands of that name: its
/// values are blank.
pub(crate) static COMMANDS: &[Command] = commands!(blank_commands!);

// A part of a row.
macro_rules! part {
    (word { word: $word:expr, $($rest:tt)* }) => {
        $word
    };
    (options { word: $word:expr, options: $options:expr, $($rest:tt)* }) => {
        $options
    };
    (texts {
        word: $word:expr,
        options: $options:expr,
        about: $about:literal,
        notes: $notes:literal,
        usage: $usage:literal,
    }) => {
        concat!($about, "\n", $usage, "\n", $notes)
    };
}

// That part of the row of a command.
macro_rules! part_of_command {
    ($value:ident $part:ident; $(
        (
            $command:ident $({ $($field:ident),* })?
            $(($function:ident $({ $($given:ident),* })?) $(of $index:ident)?)?
        )
        $line:tt $entry:tt;
    )*) => {
        match $value {
            $(Command::$command
                $({ $($field: _),* })?
                $((IndexFunction::$function $({ $($given: _),* })?, ..))? => part!($part $entry)),*
        }
    };
}

/// The word that names a command, as its row of the table has it.
fn word_of<'a>(command: Command) -> &'a str
    ensures { result.now ≡ word_of command }
{
    commands!(part_of_command! command word;)
}

/// The options that a command has, as its row of the table has them.
fn options_of(command: Command) -> &'static [CommandOption]
    ensures { result.now ≡ options_of command }
{
    commands!(part_of_command! command options;)
}

/// A command's word and options, as its row of the table has them.
pub(crate) fn entry_of<'a>(command: Command) -> Entry<'a>
    ensures { record {
      word = result.word.now;
      options = result.options.now;
    } ≡ entry_of command }
{
    Entry {
        word: word_of(command),
        options: options_of(command),
    }
}

/// What the help of a command says, as its row of the table has it, in lines: what it begins with; the usage of a
/// command that reads a list, or whose usage would be too long, and else an empty line; and, in all further lines, what
/// it ends with, which is its errors, in the order they are checked, and an example.
pub(crate) fn texts_of(command: Command) -> &'static str {
    commands!(part_of_command! command texts;)
}
