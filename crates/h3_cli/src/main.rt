//! The command `h3`.
#![tactic(auto)]

use h3_index::H3Error;
use h3_lines::{AnswerError, Fault, RunError, report, write_all};
use h3_program::{BeforeRun, NamedFile, Retried, SystemFiles, run_words};
use h3_streams::{Sink, Source, StreamFault, Streamed};
use h3_words::{CommandFile, ListKind, Words, list_of};
use std::alloc::Global;
use std::fs::File;
use std::io::{ErrorKind, IsTerminal};
use std::os::unix::fs::{FileTypeExt, MetadataExt};
use std::process::ExitCode;
use std::rt::{Env, Files};
use std::{env, fs};

/// The words of the command line, where the system gives them.
fn given_words<R: Env + AllocGlobal>(rt: &R) -> Result<Vec<String>, RunError> {
    let words = match env::args(rt) {
        Ok(words) => words,
        Err(error) if error.kind() == ErrorKind::OutOfMemory => {
            return Err(RunError::Fault(Fault::Memory));
        }
        Err(_) => return Err(RunError::Error(AnswerError::Call(H3Error::Failed))),
    };
    words
        .collect(rt.alloc())
        .map_err(|_| RunError::Fault(Fault::Memory))
}

/// What is said at a terminal before a command reads its list.
fn notice(list: ListKind) -> &'static str {
    match list {
        ListKind::Cells => "h3: reading cells from standard input, one a line\n",
        ListKind::Edges => "h3: reading edges from standard input, one a line\n",
        ListKind::Rows => "h3: reading rows from standard input\n",
    }
}

/// Standard input, of which a line says that it is read, once its first bytes are to be read.
#[derive(Drop)]
struct Announced<R: Source, E: Sink> {
    input: R,
    line: Option<&'static str>,
    said: E,
}

impl<R: Source, E: Sink> Source for Announced<R, E> {
    ghost left = { λ list. R.left list.input };

    ghost has_failed = { λ list. R.has_failed list.input };

    fn pull(&mut self, buf: &mut [u8]) -> Result<usize, StreamFault> {
        if let Some(line) = self.line.take() {
            let _ = write_all(&mut self.said, line.as_bytes());
        }
        self.input.pull(buf)
    }
}

/// Whether the file at a path is the pipe that standard input is: what is read of the one is then
/// lost to the other.
fn is_input<S: Files<File = File>>(rt: &S, path: &str) -> bool {
    match (fs::metadata(rt, "/dev/stdin"), fs::metadata(rt, path)) {
        (Ok(input), Ok(file)) => {
            input.file_type().is_fifo() && input.dev() == file.dev() && input.ino() == file.ino()
        }
        _ => false,
    }
}

/// The error line of a command that would read its list and its file from one pipe; `None` where it
/// would not.
fn input_twice<S: Files<File = File>>(rt: &S, asked: &Words) -> Option<&'static str> {
    let file = asked.file.as_ref()?;
    list_of(asked)?;
    if !is_input(rt, file.path()) {
        return None;
    }
    match file {
        CommandFile::Table(_) => Some("table: standard input is the list\n"),
        CommandFile::Region(_) => Some("region: standard input is the list\n"),
        CommandFile::Zones(_) => Some("zones: standard input is the list\n"),
    }
}

/// Whether a command reads a file, and none is at the path.
fn is_file_missing<S: Files<File = File>>(rt: &S, asked: &Words) -> bool {
    match asked.file.as_ref() {
        Some(file) => !fs::exists(rt, file.path()).unwrap_or(false),
        None => false,
    }
}

/// A folder in the place of a standard input that is closed, where one is: the next file to be
/// opened would take that place, and be read as the list. Each read of a folder fails.
fn closed_input<S: Files<File = File>>(rt: &S) -> Option<File> {
    match fs::exists(rt, "/dev/stdin") {
        Ok(true) => None,
        _ => fs::open(rt, "/").ok(),
    }
}

/// What is looked at once the words are parsed, before anything is read.
#[derive(Drop)]
struct Preparation<'a, S: Files<File = File>> {
    rt: &'a S,
    is_terminal: bool,
    /// What takes the place of a standard input that is closed.
    folder: Option<File>,
}

impl<'a, S: Files<File = File>, R: Source, E: Sink> BeforeRun<Announced<R, E>>
    for Preparation<'a, S> {
    ghost use Rattle.std.specs.Prelude.{◌≡◌, ⊤};

    // Nothing is done to the list itself.
    ghost readies = { λ _ _ old new. new.input ≡ old.input };

    ghost refuses = { λ _ _ _. ⊤ };

    fn ready(&mut self, words: &Words, input: &mut Announced<R, E>) -> Result<(), &'static str> {
        if let Some(line) = input_twice(self.rt, words) {
            return Err(line);
        }
        if self.is_terminal {
            input.line = list_of(words).map(notice);
        }
        // (a missing file may be standard input itself, closed: the folder would then be opened for it)
        if !is_file_missing(self.rt, words) {
            self.folder = closed_input(self.rt);
        }
        Ok(())
    }
}

/// Runs the command that the words ask for over the streams and the file that they name. Where the
/// user has to type a list, `said` gets a line that says so.
fn start<S: Env + Files<File = File> + AllocGlobal, R: Source + Drop, W: Sink, E: Sink + Drop>(
    rt: &S,
    is_terminal: bool,
    input: R,
    out: &mut W,
    err: &mut E,
    said: E,
) -> u8 {
    let words = match given_words(rt) {
        Ok(words) => words,
        Err(refusal) => return report(err, Err(refusal)),
    };
    let mut input = Announced {
        input,
        line: None,
        said,
    };
    let mut before = Preparation {
        rt,
        is_terminal,
        folder: None,
    };
    let files = SystemFiles(rt);
    let mut file = NamedFile::new(&files);
    run_words(
        rt.alloc(),
        words,
        &mut before,
        &mut input,
        &mut file,
        out,
        err,
    )
}

fn main(rt: HostRuntime) -> ExitCode {
    let input = Streamed::new(Retried::new(rt.stdin()));
    let mut out = Streamed::new(Retried::new(rt.stdout()));
    let mut err = Streamed::new(Retried::new(rt.stderr()));
    // (a line that is said before a list is read is no part of what errors are written to)
    let said = Streamed::new(Retried::new(rt.stderr()));
    ExitCode::from(start(
        &rt,
        rt.stdin().is_terminal(),
        input,
        &mut out,
        &mut err,
        said,
    ))
}
