//! Opening files by their names, tried again where a signal interrupted it.

ghost use Rattle.std.specs.Prelude.{◌≡◌, ℕ, List, Result};
ghost use Rattle.cts_io.specs.Vocabulary.{Error, AnswersOpen, Tried};

use crate::device::StartFault;
use crate::stream::ByteReader;
use std::io::ErrorKind;
use std::rt::Files;
use std::{fs, io};

/// What opens files by calls that may be interrupted. Each file system of std is one.
pub trait FileOpener {
    /// An opened file, which is read from its first byte on.
    type File: ByteReader + Drop;

    /// What a call with a name may answer, with the opener after it.
    ghost opens: { List ℕ → Self → Result Self.File Error → Self → Type 0 };

    /// One call.
    ///
    /// # Errors
    ///
    /// The file isn't opened, or a signal interrupted the call, or there is no memory for it.
    fn open_once(&mut self, name: &str) -> io::Result<Self::File>
        ensures call { opens name.now self.old result self.new };
}

impl<R: Files> FileOpener for &R {
    type File = R::File;

    // std doesn't say which file it opens: this one line is trusted.
    ghost opens = { λ _ old _ new. new ≡ old };

    fn open_once(&mut self, name: &str) -> io::Result<R::File> {
        fs::open(*self, name)
    }
}

/// Opens the file of a name. A call that a signal interrupted is tried again.
///
/// # Errors
///
/// `NoMemory` where the opener has no memory for it; `Failed` at any other error, and after
/// 2^64 - 1 interrupted calls.
pub fn open_file<O: FileOpener>(opener: &mut O, name: &str) -> Result<O::File, StartFault>
    ensures denoted { Tried (O.opens name.now) AnswersOpen opener.old result opener.new }
{
    for _try in 0..u64::MAX {
        match opener.open_once(name) {
            Ok(file) => return Ok(file),
            Err(error) if error.kind() == ErrorKind::Interrupted => {}
            Err(error) if error.kind() == ErrorKind::OutOfMemory => {
                return Err(StartFault::NoMemory);
            }
            Err(_) => return Err(StartFault::Failed),
        }
    }
    Err(StartFault::Failed)
}
