//! The calls on streams of std, each tried again where a signal interrupted it.

ghost use Rattle.std.specs.Prelude.{◌≡◌, ◌≤◌, ◌<◌, ℕ, List, length, Option, Result, Ok, IfOk};
ghost use Rattle.cts_io.specs.Vocabulary.{ReadsAtMost, WritesAtMost, ReadConsumes, WriteAppends, Error, AnswersRead, AnswersWrite, Tried};

use crate::device::Failed;
use std::io;
use std::io::{ErrorKind, Read, Write};

/// What is read by calls that may be interrupted. Each reader of std is one.
pub trait ByteReader {
    /// The bytes that are left, where they are given.
    ghost remaining: { Self → Option (List ℕ) };

    /// What a call with a buffer may answer, with the reader and the buffer after it.
    ghost reads: { Self × List ℕ → Result ℕ Error → Self × List ℕ → Type 0 };

    /// One call.
    ///
    /// # Errors
    ///
    /// The reader failed, or a signal interrupted the call.
    fn read_once(&mut self, into: &mut [u8]) -> io::Result<usize>
        ensures within { ReadsAtMost result into.new }
        ensures bytes { ReadConsumes (remaining self.old) (remaining self.new) result into.new }
        ensures call { reads (self.old, into.old) result (self.new, into.new) };
}

impl<R: Read> ByteReader for R {
    ghost remaining = { R.remaining };

    ghost reads = { λ old answer new.
        ReadConsumes (R.remaining old.0) (R.remaining new.0) answer new.1 };

    fn read_once(&mut self, into: &mut [u8]) -> io::Result<usize> {
        self.read(into)
    }
}

/// What is written by calls that may be interrupted. Each writer of std is one.
pub trait ByteWriter {
    /// The bytes that are written, where they are given.
    ghost contents: { Self → Option (List ℕ) };

    /// What a call with a piece may answer, with the writer after it.
    ghost writes: { List ℕ → Self → Result ℕ Error → Self → Type 0 };

    /// One call.
    ///
    /// # Errors
    ///
    /// The writer failed, or a signal interrupted the call.
    fn write_once(&mut self, piece: &[u8]) -> io::Result<usize>
        ensures within { WritesAtMost result piece.now }
        ensures bytes { WriteAppends (contents self.old) (contents self.new) result piece.now }
        ensures call { writes piece.now self.old result self.new };
}

impl<W: Write> ByteWriter for W {
    ghost contents = { W.contents };

    ghost writes = { λ piece old answer new.
        WriteAppends (W.contents old) (W.contents new) answer piece };

    fn write_once(&mut self, piece: &[u8]) -> io::Result<usize> {
        self.write(piece)
    }
}

/// Reads the next bytes of a stream into the start of a buffer, and gives how many: 0 only where
/// nothing is left or the buffer has no room. A call that a signal interrupted is tried again.
///
/// # Errors
///
/// Exactly at an error of the stream that is no interruption, which takes nothing, and after
/// 2^64 - 1 interrupted calls.
pub fn read_next<R: ByteReader>(stream: &mut R, into: &mut [u8]) -> Result<usize, Failed>
    ensures within { IfOk result (λ n. n ≤ length into.new) }
    ensures bytes { ReadConsumes (R.remaining stream.old) (R.remaining stream.new) result into.new }
    ensures denoted { Tried R.reads AnswersRead (stream.old, into.old) result
        (stream.new, into.new) }
{
    for _try in 0..u64::MAX {
        match stream.read_once(into) {
            Ok(count) => return Ok(count),
            Err(error) if error.kind() == ErrorKind::Interrupted => {}
            Err(_) => return Err(Failed),
        }
    }
    Err(Failed)
}

/// Writes a prefix of a piece to a stream, and gives how many bytes. A piece of no bytes makes no
/// call. A call that a signal interrupted is tried again.
///
/// # Errors
///
/// Exactly at an error of the stream that is no interruption, where it takes nothing of the piece,
/// and after 2^64 - 1 interrupted calls. Nothing is written then.
pub fn write_prefix<W: ByteWriter>(stream: &mut W, piece: &[u8]) -> Result<usize, Failed>
    ensures within { IfOk result (λ n. n ≤ length piece.now) }
    ensures some { 0 < length piece.now → IfOk result (λ n. 0 < n) }
    ensures none { length piece.now ≡ 0 → (result ≡ Ok 0) × (stream.new ≡ stream.old) }
    ensures bytes { WriteAppends (W.contents stream.old) (W.contents stream.new) result piece.now }
    ensures denoted { 0 < length piece.now
        → Tried (W.writes piece.now) AnswersWrite stream.old result stream.new }
{
    if piece.is_empty() {
        return Ok(0);
    }
    for _try in 0..u64::MAX {
        match stream.write_once(piece) {
            Ok(0) => return Err(Failed),
            Ok(taken) => return Ok(taken),
            Err(error) if error.kind() == ErrorKind::Interrupted => {}
            Err(_) => return Err(Failed),
        }
    }
    Err(Failed)
}
