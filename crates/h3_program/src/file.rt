//! The file that a command names, which is opened by its path.

ghost use Rattle.std.specs.Prelude.{◌≡◌, ◌≤◌, List, ℕ, Option, None, true, false, length, IsErr, IfOk, OnOk, OnErr};
ghost use Rattle.std.specs.Io.KnownBytes.{Keeps};
ghost use Rattle.h3_streams.specs.Stream.{Pulls};

use h3_streams::{Source, StreamFault};

/// A file cannot be opened.
#[derive(Debug, Drop)]
pub struct OpenFault;

/// Files that are opened by their paths, in memory or of the system.
pub trait OpenFiles {
    /// A file that is open.
    type File: Source + Drop;

    /// A file is at this path, and has these bytes, where they are known.
    ghost bytes_at: { Self → List ℕ → Option (List ℕ) → Type 0 };

    /// The file at this path may be one that cannot be opened.
    ghost fails_at: { Self → List ℕ → Type 0 };

    /// Opens the file at a path, of which nothing is read yet.
    ///
    /// An error where it cannot be opened, for whatever cause.
    fn open(&self, path: &str) -> Result<Self::File, OpenFault>
        ensures ok { IfOk result (λ file. bytes_at self.now path.now (Self.File.left file)) }
        ensures err { OnErr result (fails_at self.now path.now) };
}

/// A file that is opened by its path. From then on it is the source of the file's bytes.
pub trait OpenFile: Source {
    /// The second state comes right after an opening of this path that succeeds.
    ghost opens: { Self → List ℕ → Self → Type 0 };

    /// The second state comes right after an opening of this path that fails.
    ghost fails_to_open: { Self → List ℕ → Self → Type 0 };

    /// Opens the file at a path, of which nothing is read yet.
    ///
    /// An error where it cannot be opened, for whatever cause.
    fn open(&mut self, path: &str) -> Result<(), OpenFault>
        ensures ok { OnOk result (opens self.old path.now self.new) }
        ensures err { OnErr result (fails_to_open self.old path.now self.new) };
}

/// One of these files, once it is opened. To read it before is a failure.
#[derive(Drop)]
pub struct NamedFile<'a, O: OpenFiles> {
    files: &'a O,
    file: Option<O::File>,
    failed: bool,
}

impl<'a, O: OpenFiles> NamedFile<'a, O> {
    ghost use Rattle.h3_program.specs.NamedFile.{named_failed, named_file, named_files};

    /// A file among these. It is not opened yet, and has not failed.
    pub fn new(files: &'a O) -> Self
        ensures files { named_files result ≡ files.now }
        ensures unopened { named_file result ≡ None }
        ensures failed { named_failed result ≡ false }
    {
        NamedFile {
            files,
            file: None,
            failed: false,
        }
    }
}

impl<'a, O: OpenFiles> Source for NamedFile<'a, O> {
    ghost use Rattle.h3_program.specs.NamedFile.{named_failed, named_file, named_left};

    ghost left = { λ file. named_left O.File.left file };

    ghost has_failed = { λ file. named_failed file };

    fn pull(&mut self, buf: &mut [u8]) -> Result<usize, StreamFault>
        ensures bound { IfOk result (λ n. n ≤ length buf.new) }
        ensures bytes { IfOk result (λ n.
            Pulls (named_left O.File.left self.old) (named_left O.File.left self.new) buf.new n) }
        ensures ok { OnOk result (named_failed self.new ≡ named_failed self.old) }
        ensures refused { OnErr result
            (Keeps (named_left O.File.left self.old) (named_left O.File.left self.new)) }
        ensures err { OnErr result (named_failed self.new ≡ true) }
        ensures unopened { named_file self.old ≡ None → IsErr result }
    {
        let read = match &mut self.file {
            Some(file) => file.pull(buf),
            None => Err(StreamFault),
        };
        match read {
            Ok(n) => Ok(n),
            Err(fault) => {
                self.failed = true;
                Err(fault)
            }
        }
    }
}

impl<'a, O: OpenFiles> OpenFile for NamedFile<'a, O> {
    ghost use Rattle.h3_program.specs.NamedFile.{IsOpenedAt, named_files};

    ghost opens = { λ old path new. IsOpenedAt O.File.left O.bytes_at old path new };

    ghost fails_to_open = { λ old path new. (new ≡ old) × O.fails_at (named_files old) path };

    fn open(&mut self, path: &str) -> Result<(), OpenFault> {
        match self.files.open(path) {
            Ok(file) => {
                self.file = Some(file);
                Ok(())
            }
            Err(fault) => Err(fault),
        }
    }
}
