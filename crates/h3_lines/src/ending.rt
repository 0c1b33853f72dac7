//! The line of an error, and the exit status.

ghost use Rattle.std.specs.Prelude.{◌≡◌};
ghost use Rattle.h3_lines.specs.Write.{Reports, sink_use};

use crate::run_error::RunError;
use crate::write::write_all;
use h3_streams::Sink;

/// Writes the error line of an ending, if it has one, and returns the exit status. A standard error
/// that fails changes no status.
pub fn report<E: Sink>(err: &mut E, ending: Result<(), RunError>) -> u8
    ensures reported { Reports ending result (sink_use E.taken E.has_failed err.old err.new) }
    ensures err_kept { result ≡ 0 → err.new ≡ err.old }
{
    match ending {
        Ok(()) => 0,
        Err(refusal) => {
            let line = refusal.line();
            let _ = write_all(err, line.as_str().as_bytes());
            refusal.status()
        }
    }
}
