//! Streams of bytes that may fail. A contract can say which bytes one has left, or has taken.

ghost use Rattle.std.specs.Prelude.{◌≡◌, ◌≤◌, ◌<◌, ℕ, Bool, true, false, List, length, take, Option, IfOk, OnOk, OnErr};
ghost use Rattle.std.specs.Io.KnownBytes.{Appends, Keeps};
ghost use Rattle.h3_streams.specs.Stream.{Pulls, KeepsOrHides};
ghost use Rattle.h3_streams.specs.Streamed.{streamed_inner, streamed_failed};

use std::io::{Read, Write};
use thiserror::Error;

/// A stream failed.
#[derive(Clone, Copy, Debug, PartialEq, Eq, Error)]
#[error("the stream failed")]
pub struct StreamFault;

/// What bytes are taken from: a file, standard input, or bytes in memory.
pub trait Source {
    /// The bytes left, where they are known.
    ghost left: { Self → Option (List ℕ) };

    /// Whether a call has failed.
    ghost has_failed: { Self → Bool };

    /// Reads the next bytes into the front of a buffer, and returns how many they are: none only at
    /// the end of the bytes, or where the buffer is empty. A failure takes none.
    fn pull(&mut self, buf: &mut [u8]) -> Result<usize, StreamFault>
        ensures bound { IfOk result (λ n. n ≤ length buf.new) }
        ensures bytes { IfOk result (λ n. Pulls (left self.old) (left self.new) buf.new n) }
        ensures ok { OnOk result (has_failed self.new ≡ has_failed self.old) }
        ensures refused { OnErr result (Keeps (left self.old) (left self.new)) }
        ensures err { OnErr result (has_failed self.new ≡ true) };
}

/// What bytes are given to: a file, standard output, or a buffer in memory.
pub trait Sink {
    /// The bytes taken, where they are known.
    ghost taken: { Self → Option (List ℕ) };

    /// Whether a call has failed.
    ghost has_failed: { Self → Bool };

    /// Writes bytes, and returns how many were taken from their front: at least one, unless there
    /// are none. A failure takes none.
    fn push(&mut self, bytes: &[u8]) -> Result<usize, StreamFault>
        ensures bound { IfOk result (λ n. n ≤ length bytes.now) }
        ensures some { IfOk result (λ n. 0 < length bytes.now → 0 < n) }
        ensures bytes { IfOk result (λ n.
            Appends (taken self.old) (taken self.new) (take n bytes.now)) }
        ensures ok { OnOk result (has_failed self.new ≡ has_failed self.old) }
        ensures refused { OnErr result (Keeps (taken self.old) (taken self.new)) }
        ensures err { OnErr result (has_failed self.new ≡ true) };

    /// Passes on the bytes that were taken and held back. After a failure they may be lost: then
    /// the bytes are no longer known.
    fn flush(&mut self) -> Result<(), StreamFault>
        ensures bytes { OnOk result (Keeps (taken self.old) (taken self.new)) }
        ensures ok { OnOk result (has_failed self.new ≡ has_failed self.old) }
        ensures refused { OnErr result (KeepsOrHides (taken self.old) (taken self.new)) }
        ensures err { OnErr result (has_failed self.new ≡ true) };
}

/// A reader as a [`Source`], or a writer as a [`Sink`].
///
/// Each call is passed on once. A write that takes no byte of a buffer that is not empty is a
/// failure. The stream allocates nothing.
#[derive(Drop)]
pub struct Streamed<T> {
    inner: T,
    failed: bool,
}

impl<T> Streamed<T> {
    /// The stream over a reader or a writer. It has not failed.
    pub fn new(inner: T) -> Self
        ensures inner { streamed_inner result ≡ inner }
        ensures failed { streamed_failed result ≡ false }
    {
        Streamed {
            inner,
            failed: false,
        }
    }

    /// Whether a call failed.
    pub fn failed(&self) -> bool
        ensures { result ≡ streamed_failed self.now }
    {
        self.failed
    }

    /// The reader or the writer.
    pub fn into_inner(self) -> T
        ensures { result ≡ streamed_inner self }
    {
        self.inner
    }
}

/// Records that a call failed.
fn fault(failed: &mut bool) -> StreamFault
    ensures { failed.new ≡ true }
{
    *failed = true;
    StreamFault
}

impl<T: Read> Source for Streamed<T> {
    ghost left = { λ s. T.remaining (streamed_inner s) };

    ghost has_failed = { streamed_failed };

    /// Reads the next bytes into the front of a buffer, and returns how many they are: none only at
    /// the end of the bytes, or where the buffer is empty. A failure takes none.
    fn pull(&mut self, buf: &mut [u8]) -> Result<usize, StreamFault> {
        match self.inner.read(buf) {
            Ok(n) => Ok(n),
            Err(_) => Err(fault(&mut self.failed)),
        }
    }
}

impl<T: Write> Sink for Streamed<T> {
    ghost taken = { λ s. T.contents (streamed_inner s) };

    ghost has_failed = { streamed_failed };

    fn push(&mut self, bytes: &[u8]) -> Result<usize, StreamFault> {
        match self.inner.write(bytes) {
            Ok(n) if n > 0 || bytes.is_empty() => Ok(n),
            _ => Err(fault(&mut self.failed)),
        }
    }

    fn flush(&mut self) -> Result<(), StreamFault> {
        match self.inner.flush() {
            Ok(()) => Ok(()),
            Err(_) => Err(fault(&mut self.failed)),
        }
    }
}
