//! What is done between the parse of the words and the run.

ghost use Rattle.std.specs.Prelude.{List, ℕ, IfErr, OnOk};
ghost use Rattle.h3_lines.specs.Reads.{source_use};
ghost use Rattle.h3_program.specs.Program.{IsUnread};
ghost use Rattle.h3_words.specs.declared.words.Words.{Words};

use h3_streams::Source;
use h3_words::Words;

/// What a program does once it knows what the words ask, and before it does that.
pub trait BeforeRun<R: Source> {
    /// From the first state of the list it was made ready for the words, which left it in the second one.
    ghost readies: { Self → Words → R → R → Type 0 };

    /// The list cannot be read for the words, as this line says.
    ghost refuses: { Self → Words → List ℕ → Type 0 };

    /// Makes the list ready for what the words ask, of which nothing is read yet.
    ///
    /// The line that says why the list cannot be read, if it cannot.
    fn ready(&mut self, words: &Words, input: &mut R) -> Result<(), &'static str>
        ensures ok { OnOk result (readies self.old words.now input.old input.new) }
        ensures err { IfErr result (λ line. refuses self.old words.now line.now) }
        ensures unread { IsUnread (source_use R.left R.has_failed input.old input.new) };
}
