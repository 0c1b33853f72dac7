//! The commands, and the command line that `clap` parses.

ghost use Rattle.std.specs.Prelude.{◌≡◌, Option, IfOk, find, false, option_map, pos, string_bytes};
ghost use Rattle.std.specs.Str.{bytes_eq};
ghost use Rattle.clap.specs.Words.{Text, app_of, found_of, shape_of};
ghost use Rattle.clap.specs.declared.builder.command.Command.TheViews.{out-Command};
ghost use Rattle.h3_words.specs.Commands.{Index, Number, app_with, commands, entry_of, has_option, options_of, shape_for, values_of_command, word_of};
ghost use Rattle.h3_words.specs.Values.{AreFound, AreRead, HasFile, HasPath, IsRead};
ghost use Rattle.h3_words.specs.declared.options.CommandOption.{CommandOption};

use crate::entry::{COMMANDS, entry_of};
use crate::help::{HELP, described};
use crate::options::CommandFile;
use crate::options::CommandOption::{self, *};
use crate::table::commands;
use clap::{ArgMatches, Command as Parser};
use h3_requests::{Command, IndexFunction};
use std::alloc::{AllocError, Global};

// A command with the values of its fields, each read by the function of its name.
macro_rules! filled_command {
    ($value:ident $matches:ident; $(
        (
            $command:ident $({ $($field:ident),* })?
            $(($function:ident $({ $($given:ident),* })?) $(of $index:ident)?)?
        )
        $line:tt $entry:tt;
    )*) => {
        match $value {
            $(Command::$command
                $({ $($field: _),* })?
                $((IndexFunction::$function $({ $($given: _),* })?, ..))?
            => Command::$command
                $({ $($field: $field($matches)),* })?
                $((IndexFunction::$function $({ $($given: $given($matches)),* })? $(, $index($matches))?))?),*
        }
    };
}

/// The index of the cell that a parse found.
fn cell(matches: &ArgMatches<'_>) -> Option<u64>
    ensures { IsRead (found_of matches.now) (Index CommandOption.Cell result) }
{
    Cell.index(matches)
}

/// The index of the second cell that a parse found.
fn to(matches: &ArgMatches<'_>) -> Option<u64>
    ensures { IsRead (found_of matches.now) (Index CommandOption.To result) }
{
    To.index(matches)
}

/// The index of the edge that a parse found.
fn edge(matches: &ArgMatches<'_>) -> Option<u64>
    ensures { IsRead (found_of matches.now) (Index CommandOption.Edge result) }
{
    Edge.index(matches)
}

/// The resolution that a parse found.
fn res(matches: &ArgMatches<'_>) -> i32
    ensures { IsRead (found_of matches.now) (Number CommandOption.Resolution result) }
{
    Resolution.number(matches) as i32
}

/// The radius that a parse found.
fn k(matches: &ArgMatches<'_>) -> i32
    ensures { IsRead (found_of matches.now) (Number CommandOption.Radius result) }
{
    Radius.number(matches) as i32
}

/// The position that a parse found.
fn position(matches: &ArgMatches<'_>) -> u64
    ensures { IsRead (found_of matches.now) (Number CommandOption.Position (pos result)) }
{
    Position.number(matches) as u64
}

/// The word that names the command.
pub(crate) fn word<'a>(command: Command) -> &'a str
    ensures { result.now ≡ word_of command }
{
    entry_of(command).word
}

/// The options that the command has.
pub(crate) fn options(command: Command) -> &'static [CommandOption]
    ensures { result.now ≡ options_of command }
{
    entry_of(command).options
}

/// The command that the word names.
pub(crate) fn named_by(name: &str) -> Option<Command>
    ensures { result ≡ find (λ command. bytes_eq (word_of command) name.now) commands }
{
    COMMANDS
        .iter()
        .copied()
        .find(|command| word(*command) == name)
}

/// The command as `clap` takes it.
pub(crate) fn parser_of<'a>(alloc: Global, command: Command) -> Result<Parser<'a>, AllocError>
    ensures shape { IfOk result (λ parser. shape_of parser ≡ shape_for command) }
    ensures local { IfOk result (λ parser. (out-Command parser).has_globals ≡ false) }
{
    let mut parser = described(alloc, command);
    for option in options(command) {
        parser = parser.arg(option.argument(alloc))?;
    }
    Ok(parser)
}

/// The command with the values that a parse found.
pub(crate) fn filled(command: Command, matches: &ArgMatches<'_>) -> Command
    ensures named { entry_of result ≡ entry_of command }
    ensures values { AreRead command (found_of matches.now) (values_of_command result) }
{
    commands!(filled_command! command matches;)
}

/// Whether the command has the option.
pub(crate) fn has_option(command: Command, option: CommandOption) -> bool
    ensures { result ≡ has_option command option }
{
    options(command).iter().any(|own| own.id() == option.id())
}

/// The path that the option is given, where the command has the option.
///
/// [`AllocError`] where there is no memory for the path.
fn path(
    alloc: Global,
    command: Command,
    option: CommandOption,
    matches: &ArgMatches<'_>,
) -> Result<Option<String>, AllocError>
    ensures { IfOk result (λ path. (text : CommandOption → Option Text) →
        AreFound command text (found_of matches.now)
        → HasPath text command option (option_map string_bytes path)) }
{
    if !has_option(command, option) {
        return Ok(None);
    }
    match matches.get_str(option.id()) {
        Some(path) => Ok(Some(String::from_str(alloc, path)?)),
        None => Ok(None),
    }
}

/// The file that the words name, where the command has an option for one.
///
/// [`AllocError`] where there is no memory for its path.
pub(crate) fn file(
    alloc: Global,
    command: Command,
    matches: &ArgMatches<'_>,
) -> Result<Option<CommandFile>, AllocError>
    ensures { IfOk result (λ file. (text : CommandOption → Option Text) →
        AreFound command text (found_of matches.now) → HasFile text command file) }
{
    if let Some(path) = path(alloc, command, Table, matches)? {
        return Ok(Some(CommandFile::Table(path)));
    }
    if let Some(path) = path(alloc, command, Region, matches)? {
        return Ok(Some(CommandFile::Region(path)));
    }
    match path(alloc, command, Zones, matches)? {
        Some(path) => Ok(Some(CommandFile::Zones(path))),
        None => Ok(None),
    }
}

/// The command line that has these commands, as `clap` takes it.
pub(crate) fn command_line<'a>(
    alloc: Global,
    commands: &[Command],
) -> Result<Parser<'a>, AllocError>
    ensures { IfOk result (λ parser. app_of parser ≡ app_with commands.now) }
{
    let mut parser = Parser::new(alloc, "h3")
        .override_help(HELP)
        .subcommand_required(true)
        .disable_help_subcommand(true);
    for command in commands {
        parser = parser.subcommand(parser_of(alloc, *command)?)?;
    }
    Ok(parser)
}
