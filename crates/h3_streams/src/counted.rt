//! A source with a limit on the number of its reads.

ghost use Rattle.std.specs.Prelude.{◌≡◌, ◌≢◌, ◌≤◌, ◌+◌, ◌⊎◌, true, length, IfOk, OnOk, OnErr};
ghost use Rattle.std.specs.Io.KnownBytes.{Keeps};
ghost use Rattle.h3_streams.specs.Stream.{Pulls};

use crate::stream::{Source, StreamFault};

/// A source that may be read a given number of times. The number is given once, when it is made.
#[derive(Drop)]
pub struct CountedReader<'a, R> {
    source: &'a mut R,
    reads_left: u64,
}

impl<'a, R: Source> CountedReader<'a, R> {
    ghost use Rattle.h3_streams.specs.Counted.{IsOver, KeepsSource, reads_allowed, source_of};

    /// A reader of a source that may be read at most this many times.
    pub fn new(source: &'a mut R, limit: u64) -> CountedReader<'a, R>
        ensures source { source_of result ≡ source.old }
        ensures same { IsOver result source.entry }
        ensures limit { reads_allowed result ≡ limit }
    {
        CountedReader {
            source,
            reads_left: limit,
        }
    }

    /// How many reads are still allowed.
    pub fn reads_left(&self) -> u64
        ensures { result ≡ reads_allowed self.now }
    {
        self.reads_left
    }

    /// Reads once, to the front of a page, and returns the number of bytes read.
    ///
    /// # Errors
    ///
    /// A [`StreamFault`] if the read fails, which counts as a read too, or if no read is left: then
    /// none is made. Neither takes bytes of the source.
    pub fn read(&mut self, page: &mut [u8]) -> Result<usize, StreamFault>
        ensures bound { IfOk result (λ n. n ≤ length page.new) }
        ensures bytes { IfOk result (λ n.
            Pulls (R.left (source_of self.old)) (R.left (source_of self.new)) page.new n) }
        ensures counted { OnOk result (reads_allowed self.new + 1 ≡ reads_allowed self.old) }
        ensures less { reads_allowed self.old ≢ 0
            → reads_allowed self.new + 1 ≡ reads_allowed self.old }
        ensures spent { reads_allowed self.old ≡ 0 → source_of self.new ≡ source_of self.old }
        ensures ok { OnOk result
            (R.has_failed (source_of self.new) ≡ R.has_failed (source_of self.old)) }
        ensures refused { OnErr result
            (Keeps (R.left (source_of self.old)) (R.left (source_of self.new))) }
        ensures err { OnErr result
            ((reads_allowed self.old ≡ 0) ⊎ (R.has_failed (source_of self.new) ≡ true)) }
        ensures same { KeepsSource self.old self.new }
    {
        if self.reads_left == 0 {
            return Err(StreamFault);
        }
        self.reads_left -= 1;
        self.source.pull(page)
    }
}
