//! The files of the system.

ghost use Rattle.std.specs.Prelude.{⊤};

use crate::file::{OpenFault, OpenFiles};
use crate::retried::Retried;
use h3_streams::Streamed;
use std::fs;
use std::rt::Files;

/// The files of the system, each of which is read as [`Retried`] reads.
///
/// No clause says which file is at a path, or which bytes it has: that the one that is opened is the
/// one at the path rests on [`fs::open`].
#[derive(Drop)]
pub struct SystemFiles<'a, R: Files>(pub &'a R);

impl<'a, R: Files> OpenFiles for SystemFiles<'a, R> {
    type File = Streamed<Retried<R::File>>;

    ghost bytes_at = { λ _ _ _. ⊤ };

    ghost fails_at = { λ _ _. ⊤ };

    fn open(&self, path: &str) -> Result<Self::File, OpenFault> {
        match fs::open(self.0, path) {
            Ok(file) => Ok(Streamed::new(Retried::new(file))),
            Err(_) => Err(OpenFault),
        }
    }
}
