//! Runs of command lines. They have no contract: a test compares what a run leaves behind with a row,
//! and the contract of `run_words` would be in each goal about what calls it.

use h3_program::{BeforeRun, OpenFile, run_words};
use h3_streams::{Sink, Source};
use h3_words::Words;
use std::alloc::Global;

/// Why a list cannot be read.
pub const REFUSAL: &str = "region: standard input is the list\n";

/// A list that needs nothing before a run, but may be one that cannot be read.
#[derive(Drop)]
struct Preparation {
    refuses: bool,
}

impl<R: Source> BeforeRun<R> for Preparation {
    ghost use Rattle.std.specs.Prelude.{⊤};

    ghost readies = { λ _ _ _ _. ⊤ };

    ghost refuses = { λ _ _ _. ⊤ };

    fn ready(&mut self, _words: &Words, _input: &mut R) -> Result<(), &'static str> {
        if self.refuses { Err(REFUSAL) } else { Ok(()) }
    }
}

/// Runs the words of a command line, as `main` does, and returns the exit status. If it is refused, its list cannot be
/// read.
pub fn run_line<R: Source, F: OpenFile, W: Sink, E: Sink>(
    alloc: Global,
    words: Vec<String>,
    refuses: bool,
    input: &mut R,
    file: &mut F,
    out: &mut W,
    err: &mut E,
) -> u8 {
    let mut before = Preparation { refuses };
    run_words(alloc, words, &mut before, input, file, out, err)
}
