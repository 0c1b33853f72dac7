//! Why a list stops at a line.

ghost use Rattle.std.specs.Prelude.{◌≡◌};
ghost use Rattle.h3_lines.specs.declared.run_error.Fault.TheVariants.{Write};

use crate::run_error::{AnswerError, Fault, RunError};
use h3_index::H3Error;
use h3_streams::StreamFault;

/// Why a list stops at a line. Each line may return it, so it is two bytes: it leaves out which line that
/// is, unlike [`RunError`].
#[derive(Clone, Copy)]
pub(crate) enum Stop {
    /// The line has an H3 error.
    Refused(H3Error),

    /// A write failed, or there is no memory.
    Fault(Fault),
}

impl Stop {
    ghost use Rattle.h3_lines.specs.Stop.{stopped_at};

    /// Why the run ends, if it stops at the line with this number.
    #[cold]
    pub(crate) fn at(self, number: u64) -> RunError
        ensures { result ≡ stopped_at number self }
    {
        match self {
            Stop::Refused(error) => RunError::Error(AnswerError::At(number, error)),
            Stop::Fault(fault) => RunError::Fault(fault),
        }
    }
}

impl From<StreamFault> for Stop {
    ghost use Rattle.h3_lines.specs.declared.stop.Stop.TheVariants as stop;

    /// A write fault: failures of sources are not converted by this.
    ghost from_gives = { λ _ s. s ≡ stop.Fault Write };

    fn from(_fault: StreamFault) -> Stop {
        Stop::Fault(Fault::Write)
    }
}

impl From<Fault> for Stop {
    ghost use Rattle.h3_lines.specs.declared.stop.Stop.TheVariants as stop;

    ghost from_gives = { λ f s. s ≡ stop.Fault f };

    fn from(fault: Fault) -> Stop {
        Stop::Fault(fault)
    }
}
