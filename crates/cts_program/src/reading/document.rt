//! A kind of file that a command reads, and reading one. It fails where the file can't be read, is
//! too long or has a fault, or for want of memory.

ghost use Rattle.std.specs.Prelude.{◌≡◌, ◌⊎◌, ℕ, List, IfOk, IfErr};
ghost use Rattle.cts_program.specs.Vocabulary.{Failure, FileKind, Means, Refuses, IsShortFile, IsRead, IsStep, IsUnread, OrMemory, Told};

use cts_io::{Inputs, ReadWhole, read_whole};
use failure_lines::{Failure, FileKind};
use std::alloc::Global;

// The most bytes that a file may have.
const FILE_LIMIT: usize = 16_777_216;

/// A kind of file, with what the files before it tell.
pub trait Document {
    /// What the file tells.
    type Value: Drop;

    // Its kind, what is told before it, and what is told with it.
    ghost kind: { Self → FileKind };

    ghost before: { Self → Told };

    ghost after: { Self → Self.Value → Told };

    // What reading it wants of what is told, and what its value keeps besides.
    ghost ready: { Self → Type 0 };

    ghost keeps: { Self → Self.Value → Type 0 };

    /// The kind of the file.
    fn file_kind(&self) -> FileKind
        ensures { result ≡ kind self.now };

    /// What the bytes of the file tell, or the first fault that they have.
    fn read(self, alloc: Global, bytes: &[u8]) -> Result<Self::Value, Failure>
        requires ready { ready self }
        requires short { IsShortFile bytes.now }
        ensures means { IfOk result (λ value.
            Means (kind self) (before self) bytes.now (after self value)) }
        ensures keeps { IfOk result (keeps self) }
        ensures refuses { IfErr result
            (OrMemory (Refuses (kind self) (before self) bytes.now)) };
}

/// What the file of this name tells. It has at most 16 MiB.
pub fn read_document<D: Document + Drop, I: Inputs>(
    alloc: Global,
    inputs: &mut I,
    document: D,
    file: &str,
) -> Result<D::Value, Failure>
    requires { D.ready document }
    ensures step { IsStep (I.holds inputs.old) (I.holds inputs.new) (I.faults inputs.old)
        (I.faults inputs.new)
        (λ value. IsRead (I.holds inputs.old file.now) (D.kind document) (D.before document)
        (D.after document value))
        (IsUnread (I.holds inputs.old file.now) (I.faults inputs.old file.now)
        (I.faults inputs.new file.now) (D.kind document) (D.before document)) result }
    ensures keeps { IfOk result (D.keeps document) }
{
    let kind = document.file_kind();
    match read_whole(alloc, inputs, file, FILE_LIMIT) {
        Ok(bytes) => document.read(alloc, &bytes),
        Err(ReadWhole::Failed) => Err(Failure::ReadFault(kind)),
        Err(ReadWhole::TooLong) => Err(Failure::TooLong(kind)),
        Err(ReadWhole::NoMemory) => Err(Failure::NoMemory),
    }
}
