//! The words of a command line.

ghost use Rattle.std.specs.Prelude.{◌≡◌, [], true, false, drop, ◌↔◌, IfOk, IfErr, IfSome, IsSome, None, OnOk, Option, Some, is_some, map, string_bytes};
ghost use Rattle.clap.specs.Words.{Text, fault_of, found_of, kind_of};
ghost use Rattle.h3_words.specs.Call.{IsPlainCall};
ghost use Rattle.h3_words.specs.Commands.{app, command_of, entry_of, has_option, values_of_command};
ghost use Rattle.h3_words.specs.Faults.{IsFaultOf, IsRefusalOf, IsReportedAs};
ghost use Rattle.h3_words.specs.Given.{given};
ghost use Rattle.h3_words.specs.Parse.{ParsesAs};
ghost use Rattle.h3_words.specs.Rows.{HasTables, found_texts, rows_agree};
ghost use Rattle.h3_words.specs.Values.{AreFound, AreRead, AsksFor, HasFile, IsAccepted};
ghost use Rattle.h3_words.specs.Version.{asks_version};
ghost use Rattle.h3_words.specs.declared.options.CommandOption.{CommandOption};
ghost use Rattle.h3_words.specs.declared.words.ListKind.TheVariants.{Rows};
ghost use Rattle.h3_words.specs.declared.words.ArgsError.TheVariants.{Memory};

use crate::commands::{command_line, file, filled, has_option, named_by};
use crate::entry::COMMANDS;
use crate::help::list_usage;
use crate::options::{CommandFile, CommandOption, OPTIONS};
use crate::rows::{rows_agree, rows_fault, tables};
use clap::ArgMatches;
use clap::error::ErrorKind;
use h3_requests::{Command, Tables};
use std::alloc::{AllocError, Global};

/// What the words of a command line parse as.
#[derive(Drop)]
pub struct Words {
    /// The command with its values.
    pub command: Command,

    /// The file that the command names, where it has an option for one.
    pub file: Option<CommandFile>,

    /// How the rows of the list and of the file are read and written, if these have rows.
    pub tables: Tables,
}

/// Why there is no command to run.
#[derive(Debug, Drop)]
pub enum ArgsError {
    /// Help was asked for: its text.
    Help(String),

    /// The version was asked for.
    Version,

    /// The command line is invalid: the text that says why.
    Usage(String),

    /// Out of memory.
    Memory,
}

impl From<AllocError> for ArgsError {
    ghost from_gives = { λ _ fault. fault ≡ Memory };

    fn from(_error: AllocError) -> ArgsError {
        ArgsError::Memory
    }
}

impl ArgsError {
    /// The error that `clap` found in the words, taken as those of these commands, with its text.
    fn from_parse(
        alloc: Global,
        error: clap::Error,
        commands: &[Command],
        words: &[String],
    ) -> ArgsError
        ensures { IsReportedAs (kind_of error) result }
    {
        if error.kind() == ErrorKind::OutOfMemory {
            return ArgsError::Memory;
        }
        match text_of(alloc, &error, commands, words) {
            Ok(text) => match error.kind() {
                ErrorKind::DisplayHelp => ArgsError::Help(text),
                _ => ArgsError::Usage(text),
            },
            Err(_) => ArgsError::Memory,
        }
    }
}

/// Whether a word is a negative whole number.
fn is_negative(word: &str) -> bool {
    match word.strip_prefix('-') {
        Some(digits) => !digits.is_empty() && digits.bytes().all(|byte| byte.is_ascii_digit()),
        None => false,
    }
}

/// Whether a word is the name of an option that takes a number.
fn names_a_number(word: &str) -> bool {
    OPTIONS.iter().any(|option| option.is_number_named_by(word))
}

/// The words, with each negative number that follows the name of an option that takes a number put
/// into one word with that name, as `-r=-1`.
fn with_negatives_joined(alloc: Global, words: &[String]) -> Result<Vec<String>, AllocError> {
    let mut joined = Vec::new(alloc);
    let mut name = "";
    for word in words {
        if is_negative(word.as_str()) && names_a_number(name) {
            joined.pop();
            joined.push(format!(in alloc; "{name}={word}")?)?;
        } else {
            joined.push(String::from_str(alloc, word.as_str())?)?;
        }
        name = word.as_str();
    }
    Ok(joined)
}

/// The text of an error that `clap` found in the words, taken as those of these commands. It takes a
/// negative number for an option that there is not, so where one stands in the place of a number, the
/// text is that of the number.
fn text_of(
    alloc: Global,
    error: &clap::Error,
    commands: &[Command],
    words: &[String],
) -> Result<String, AllocError> {
    if error.kind() == ErrorKind::UnknownArgument {
        let joined = with_negatives_joined(alloc, words)?;
        let parser = command_line(alloc, commands)?;
        if let Err(of_number) = parser.try_get_matches_from(joined.as_slice()) {
            match of_number.kind() {
                ErrorKind::ValueValidation => return format!(in alloc; "{of_number}"),
                ErrorKind::OutOfMemory => return Err(AllocError),
                _ => (),
            }
        }
    }
    format!(in alloc; "{error}")
}

/// Whether the word after the program's name asks for the version.
fn asks_for_version(words: &[String]) -> bool
    ensures { result ≡ asks_version (map string_bytes words.now) }
{
    match words.get(1) {
        Some(word) => matches!(word.as_str(), "-V" | "--version"),
        None => false,
    }
}

/// The command that the word after the program's name names.
fn named_command(words: &[String]) -> Option<Command>
    ensures { result ≡ command_of (map string_bytes words.now) }
{
    named_by(words.get(1)?.as_str())
}

/// Why the words, of which the second names no command, ask for none.
fn without_command(alloc: Global, words: &[String]) -> ArgsError
    requires unnamed { command_of (map string_bytes words.now) ≡ None }
    ensures { IsFaultOf (fault_of app (map string_bytes words.now)) result }
{
    let parser = match command_line(alloc, COMMANDS) {
        Ok(parser) => parser,
        Err(_) => return ArgsError::Memory,
    };
    match parser.try_get_matches_from(words) {
        Ok(_) => unreachable!(),
        Err(error) => ArgsError::from_parse(alloc, error, COMMANDS, words),
    }
}

/// The words of a command, of which a parse found these values.
///
/// [`AllocError`] where there is no memory for a path or a name.
fn words_of(alloc: Global, command: Command, inner: &ArgMatches<'_>) -> Result<Words, AllocError>
    ensures named { IfOk result (λ words. entry_of words.command ≡ entry_of command) }
    ensures values { IfOk result (λ words.
        AreRead command (found_of inner.now) (values_of_command words.command)) }
    ensures file { IfOk result (λ words. (text : CommandOption → Option Text) →
        AreFound command text (found_of inner.now) → HasFile text command words.file) }
    ensures tables { IfOk result (λ words. rows_agree (found_texts (found_of inner.now)) ≡ true
        → ((option : CommandOption) → IsAccepted option (found_texts (found_of inner.now) option))
        → HasTables (found_texts (found_of inner.now)) words.tables) }
{
    Ok(Words {
        command: filled(command, inner),
        file: file(alloc, command, inner)?,
        tables: tables(alloc, inner)?,
    })
}

/// Parses the words of the command, which the second of them names. `clap` is given no other
/// command: it would look at none, and what it builds of all takes most of a call's time.
fn parse_command(alloc: Global, command: Command, words: &[String]) -> Result<Words, ArgsError>
    requires named { command_of (map string_bytes words.now) ≡ Some command }
    ensures read { IfOk result (AsksFor (map string_bytes words.now)) }
    ensures accepted { OnOk result (fault_of app (map string_bytes words.now) ≡ []) }
    ensures agreed { OnOk result
        (rows_agree (λ option. given option (drop 2 (map string_bytes words.now))) ≡ true) }
    ensures taken { IsPlainCall (map string_bytes words.now)
        → IfErr result (λ fault. fault ≡ Memory) }
    ensures faults { IfErr result (IsRefusalOf (map string_bytes words.now)) }
{
    let parser = command_line(alloc, &[command])?;
    let matches = match parser.try_get_matches_from(words) {
        Ok(matches) => matches,
        Err(error) => return Err(ArgsError::from_parse(alloc, error, &[command], words)),
    };
    let Some((_, inner)) = matches.subcommand() else {
        unreachable!()
    };
    if !rows_agree(inner) {
        return Err(ArgsError::Usage(rows_fault(alloc, list_usage(command), inner)?));
    }
    Ok(words_of(alloc, command, inner)?)
}

/// Parses the words of a command line that does not ask for the version.
fn parse_words(alloc: Global, words: &[String]) -> Result<Words, ArgsError>
    ensures read { IfOk result (AsksFor (map string_bytes words.now)) }
    ensures accepted { OnOk result (fault_of app (map string_bytes words.now) ≡ []) }
    ensures agreed { OnOk result
        (rows_agree (λ option. given option (drop 2 (map string_bytes words.now))) ≡ true) }
    ensures taken { IsPlainCall (map string_bytes words.now)
        → IfErr result (λ fault. fault ≡ Memory) }
    ensures faults { IfErr result (IsRefusalOf (map string_bytes words.now)) }
{
    match named_command(words) {
        Some(name) => parse_command(alloc, name, words),
        None => Err(without_command(alloc, words)),
    }
}

/// Parses the words of a command line, of which the first is the program's name.
///
/// # Errors
///
/// - [`ArgsError::Version`] if the second word is `-V` or `--version`, whatever follows.
/// - [`ArgsError::Help`] if the words ask for help.
/// - [`ArgsError::Usage`] if the command line is invalid: it is not a command with each option that it
///   requires, none twice, each value in range, and those of rows with what they go with.
/// - [`ArgsError::Memory`] if there is no memory for the parse.
pub fn read_words(alloc: Global, words: Vec<String>) -> Result<Words, ArgsError>
    ensures { ParsesAs (map string_bytes words.items) result }
{
    if asks_for_version(words.as_slice()) {
        return Err(ArgsError::Version);
    }
    parse_words(alloc, words.as_slice())
}

/// What a command reads on standard input.
#[derive(Clone, Copy, PartialEq, Eq)]
pub enum ListKind {
    /// Cells, one a line.
    Cells,

    /// Edges, one a line.
    Edges,

    /// Rows.
    Rows,
}

/// What these words have a command read on standard input; `None` if it reads no list: it has no `--field`.
pub fn list_of(words: &Words) -> Option<ListKind>
    ensures list { is_some result ≡ has_option words.now.command CommandOption.Field }
    ensures rows { IfSome result (λ list. list ≡ Rows ↔ IsSome words.now.tables.list) }
{
    if !has_option(words.command, CommandOption::Field) {
        return None;
    }
    if words.tables.list.is_some() {
        return Some(ListKind::Rows);
    }
    if list_usage(words.command).ends_with("< edges") {
        return Some(ListKind::Edges);
    }
    Some(ListKind::Cells)
}
