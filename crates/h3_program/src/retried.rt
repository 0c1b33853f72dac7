//! Readers and writers whose interrupted calls are tried again.

ghost use Rattle.std.specs.Prelude.{◌≡◌, ◌≢◌, IfErr};
ghost use Rattle.std.specs.Io.{ReadsAtMost, WritesAtMost};
ghost use Rattle.std.specs.Io.KnownBytes.{Keeps, ReadConsumes, WriteAppends};
ghost use Rattle.std.specs.IoError.{error_kind};
ghost use Rattle.h3_program.specs.Retried.{retried_inner};

use std::io;
use std::io::{ErrorKind, Read, Write};

/// A reader or a writer that makes a call again where a signal interrupted it, as std's own loops
/// do.
///
/// Any other error is returned as it is. A call that is interrupted 2^64 - 1 times fails with
/// [`ErrorKind::TimedOut`]. The contracts say that no call returns an interruption, and not that it
/// is made again.
#[derive(Drop)]
pub struct Retried<T> {
    inner: T,
}

impl<T> Retried<T> {
    /// Wraps a reader or a writer.
    pub fn new(inner: T) -> Self
        ensures { retried_inner result ≡ inner }
    {
        Retried { inner }
    }
}

/// The error of a call that was interrupted each time that it was made.
fn too_many_tries() -> io::Error
    ensures { error_kind result ≡ ErrorKind.TimedOut }
{
    io::Error::from(ErrorKind::TimedOut)
}

impl<T: Read> Read for Retried<T> {
    ghost remaining = { λ r. T.remaining (retried_inner r) };

    fn read(&mut self, buf: &mut [u8]) -> io::Result<usize>
        ensures bound { ReadsAtMost result buf.new }
        ensures bytes { ReadConsumes (T.remaining (retried_inner self.old))
            (T.remaining (retried_inner self.new)) result buf.new }
        ensures retried { IfErr result (λ error. error_kind error ≢ ErrorKind.Interrupted) }
    {
        for _ in 0..u64::MAX {
            match self.inner.read(buf) {
                Err(error) if error.kind() == ErrorKind::Interrupted => {}
                ended => return ended,
            }
        }
        Err(too_many_tries())
    }
}

impl<T: Write> Write for Retried<T> {
    ghost contents = { λ r. T.contents (retried_inner r) };

    fn write(&mut self, bytes: &[u8]) -> io::Result<usize>
        ensures bound { WritesAtMost result bytes.now }
        ensures bytes { WriteAppends (T.contents (retried_inner self.old))
            (T.contents (retried_inner self.new)) result bytes.now }
        ensures retried { IfErr result (λ error. error_kind error ≢ ErrorKind.Interrupted) }
    {
        for _ in 0..u64::MAX {
            match self.inner.write(bytes) {
                Err(error) if error.kind() == ErrorKind::Interrupted => {}
                ended => return ended,
            }
        }
        Err(too_many_tries())
    }

    fn flush(&mut self) -> io::Result<()>
        ensures bytes { Keeps (T.contents (retried_inner self.old))
            (T.contents (retried_inner self.new)) }
        ensures retried { IfErr result (λ error. error_kind error ≢ ErrorKind.Interrupted) }
    {
        for _ in 0..u64::MAX {
            match self.inner.flush() {
                Err(error) if error.kind() == ErrorKind::Interrupted => {}
                ended => return ended,
            }
        }
        Err(too_many_tries())
    }
}
