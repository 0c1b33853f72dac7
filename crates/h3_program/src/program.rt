//! The whole program but for what only the system can give: words, the standard streams, and files.

ghost use Rattle.std.specs.Prelude.{◌≡◌, map, string_bytes, Result};
ghost use Rattle.h3_lines.specs.Reads.{source_use};
ghost use Rattle.h3_lines.specs.Write.{sink_use};
ghost use Rattle.h3_command.specs.Answer.{request_of};
ghost use Rattle.h3_words.specs.Parse.{ParsesAs};
ghost use Rattle.h3_words.specs.declared.words.Words.{Words};
ghost use Rattle.h3_words.specs.declared.words.ArgsError.{ArgsError};
ghost use Rattle.h3_program.specs.Program.{Follows, RunsCommand, RunsOnceReady, WritesLine, open_line};

use crate::before_run::BeforeRun;
use crate::file::OpenFile;
use h3_command::run::run_over;
use h3_lines::{Fault, RunError, report, write_all, write_answer};
use h3_streams::{Sink, Source};
use h3_words::{ArgsError, CommandFile, Words, read_words};
use std::alloc::Global;

/// What `h3 --version` prints.
const VERSION_LINE: &str = "h3 1.3.0\n";

/// The exit status where the list cannot be read, or the file cannot be opened.
const CANNOT_OPEN: u8 = 3;

/// The line on standard error of a file that cannot be opened, by its kind.
fn open_line(file: &CommandFile) -> &'static str
    ensures { result.now ≡ open_line file.now }
{
    match file {
        CommandFile::Table(_) => "table: open\n",
        CommandFile::Region(_) => "region: open\n",
        CommandFile::Zones(_) => "zones: open\n",
    }
}

/// Writes the line that says why the list cannot be read, or the file cannot be opened, and returns the
/// exit status of that.
fn report_unopened<E: Sink>(line: &str, err: &mut E) -> u8
    ensures status { result ≡ 3 }
    ensures line { WritesLine line.now (sink_use E.taken E.has_failed err.old err.new) }
{
    let _ = write_all(err, line.as_bytes());
    CANNOT_OPEN
}

/// Runs a command, and returns the exit status. Its file is opened first, if it has one; where that
/// fails, nothing is run.
fn run_command<R: Source, F: OpenFile, W: Sink, E: Sink>(
    alloc: Global,
    words: &Words,
    input: &mut R,
    file: &mut F,
    out: &mut W,
    err: &mut E,
) -> u8
    ensures err_kept { result ≡ 0 → err.new ≡ err.old }
    ensures runs { RunsCommand (record {
      opens = F.opens;
      fails_to_open = F.fails_to_open;
      as_source = source_use F.left F.has_failed;
    }) words.now.file (request_of words.now.tables words.now.command) result
        (record { old = input.old; new = input.new })
        (record { old = file.old; new = file.new }) (record {
          input = source_use R.left R.has_failed input.old input.new;
          table = source_use F.left F.has_failed file.old file.new;
          out = sink_use W.taken W.has_failed out.old out.new;
          err = sink_use E.taken E.has_failed err.old err.new;
        }) }
{
    match &words.file {
        None => run_over(alloc, &words.command, &words.tables, input, file, out, err),
        Some(named) => match file.open(named.path()) {
            Ok(()) => run_over(alloc, &words.command, &words.tables, input, file, out, err),
            Err(_) => report_unopened(open_line(named), err),
        },
    }
}

/// Has a command's list made ready, and runs the command; where its list cannot be made ready, nothing is
/// opened or run, and the line that says why goes to `err`.
fn run_once_ready<R: Source, B: BeforeRun<R>, F: OpenFile, W: Sink, E: Sink>(
    alloc: Global,
    words: &Words,
    before: &mut B,
    input: &mut R,
    file: &mut F,
    out: &mut W,
    err: &mut E,
) -> u8
    ensures err_kept { result ≡ 0 → err.new ≡ err.old }
    ensures runs { RunsOnceReady (record {
      readies = B.readies before.old;
      refuses = B.refuses before.old;
    }) (record {
      opens = F.opens;
      fails_to_open = F.fails_to_open;
      as_source = source_use F.left F.has_failed;
    }) words.now result
        (record { old = input.old; new = input.new })
        (record { old = file.old; new = file.new }) (record {
          input = source_use R.left R.has_failed input.old input.new;
          table = source_use F.left F.has_failed file.old file.new;
          out = sink_use W.taken W.has_failed out.old out.new;
          err = sink_use E.taken E.has_failed err.old err.new;
        }) }
{
    match before.ready(words, input) {
        Ok(()) => run_command(alloc, words, input, file, out, err),
        Err(line) => report_unopened(line, err),
    }
}

/// Runs the command that the words of a command line parse as, and returns the exit status. Help
/// and the version go to `out`; the text of an invalid command line goes to `err`, with status 2.
///
/// Once the words are parsed, `before` makes the list ready. If it cannot, its line goes to `err`, with status 3.
/// Then the file of a command that names one is opened, before anything else is looked at. Where it cannot be
/// opened, the line `table: open`, `region: open` or `zones: open`, by its kind, goes to `err`, with status 3.
pub fn run_words<R: Source, B: BeforeRun<R>, F: OpenFile, W: Sink, E: Sink>(
    alloc: Global,
    words: Vec<String>,
    before: &mut B,
    input: &mut R,
    file: &mut F,
    out: &mut W,
    err: &mut E,
) -> u8
    ensures err_kept { result ≡ 0 → err.new ≡ err.old }
    ensures follows { (parsed : Result Words ArgsError)
        × ParsesAs (map string_bytes words.items) parsed
        × Follows (record {
          readies = B.readies before.old;
          refuses = B.refuses before.old;
        }) (record {
          opens = F.opens;
          fails_to_open = F.fails_to_open;
          as_source = source_use F.left F.has_failed;
        }) parsed result
        (record { old = input.old; new = input.new })
        (record { old = file.old; new = file.new }) (record {
          input = source_use R.left R.has_failed input.old input.new;
          table = source_use F.left F.has_failed file.old file.new;
          out = sink_use W.taken W.has_failed out.old out.new;
          err = sink_use E.taken E.has_failed err.old err.new;
        }) }
{
    match read_words(alloc, words) {
        Ok(words) => run_once_ready(alloc, &words, before, input, file, out, err),
        Err(ArgsError::Help(text)) => report(err, write_answer(out, text.as_bytes())),
        Err(ArgsError::Version) => report(err, write_answer(out, VERSION_LINE.as_bytes())),
        Err(ArgsError::Usage(text)) => {
            let _ = write_all(err, text.as_bytes());
            2
        }
        Err(ArgsError::Memory) => report(err, Err(RunError::Fault(Fault::Memory))),
    }
}
