//! Whole files and whole texts over devices that give and take pieces.

ghost use Rattle.std.specs.Prelude.{◌≡◌, ◌≤◌, ◌<◌, ◌+◌, ◌-◌, ℕ, List, [], length, take, drop, Some, OnOk, OnErr, IfOk, IsErrOf};
ghost use Rattle.cts_io.specs.Vocabulary.{Rose, appended, WritesPrefix, NoMemory, read_fault_of};

use crate::device::{Failed, Inputs, Sink, StartFault};
use std::alloc::{AllocError, Global};

/// Why a file wasn't read whole.
#[derive(Clone, Copy, Debug, PartialEq, Eq)]
pub enum ReadWhole {
    /// The device failed.
    Failed,
    /// The file has more bytes than the limit.
    TooLong,
    /// Memory was refused.
    NoMemory,
}

impl From<AllocError> for ReadWhole {
    ghost from_gives = { λ _ fault. fault ≡ NoMemory };

    fn from(_refused: AllocError) -> ReadWhole {
        ReadWhole::NoMemory
    }
}

impl From<StartFault> for ReadWhole {
    ghost from_gives = { λ start fault. fault ≡ read_fault_of start };

    fn from(start: StartFault) -> ReadWhole {
        match start {
            StartFault::Failed => ReadWhole::Failed,
            StartFault::NoMemory => ReadWhole::NoMemory,
        }
    }
}

/// Reads a file from its first byte to its last. Each take but the last gives at least one byte,
/// and no take asks for more than is missing to limit + 1 bytes, so it ends after at most limit + 1
/// takes. Memory is taken for the bytes of the file alone.
///
/// # Errors
///
/// `Failed` where the device failed or has no file of that name, `TooLong` where the file has more
/// bytes than the limit, and `NoMemory` where there is none for its start or its bytes.
pub fn read_whole<I: Inputs>(
    alloc: Global,
    inputs: &mut I,
    name: &str,
    limit: usize,
) -> Result<Vec<u8>, ReadWhole>
    requires { limit ≤ 16777216 }
    ensures ok { IfOk result (λ bytes. (held : List ℕ) → I.holds inputs.old name.now ≡ Some held
        → bytes.items ≡ held) }
    // A file that is read isn't started again.
    ensures rest { IfOk result (λ _. (held : List ℕ) → I.holds inputs.old name.now ≡ Some held
        → I.left inputs.new ≡ Some []) }
    ensures within { IfOk result (λ bytes. length bytes.items ≤ limit) }
    ensures too_long { IsErrOf result ReadWhole.TooLong → (held : List ℕ)
        → I.holds inputs.old name.now ≡ Some held → limit < length held }
    // Nothing after limit + 1 bytes is read.
    ensures stops { IsErrOf result ReadWhole.TooLong → (held : List ℕ)
        → I.holds inputs.old name.now ≡ Some held
        → I.left inputs.new ≡ Some (drop (limit + 1) held) }
    ensures failed { IsErrOf result ReadWhole.Failed
        → Rose (I.faults inputs.old name.now) (I.faults inputs.new name.now) }
    ensures files { (file : List ℕ) → I.holds inputs.new file ≡ I.holds inputs.old file }
    ensures counts { (file : List ℕ) → I.faults inputs.old file ≤ I.faults inputs.new file }
    // Every answer but `Failed` says that no device failed on the way.
    ensures stays { ¬ IsErrOf result ReadWhole.Failed
        → (file : List ℕ) → I.faults inputs.new file ≡ I.faults inputs.old file }
{
    inputs.start(name)?;
    let mut bytes = Vec::new(alloc);
    let mut buffer = [0u8; 8192];
    loop {
        let room = buffer.len().min(limit + 1 - bytes.len());
        let Ok(taken) = inputs.take(name, &mut buffer[..room]) else {
            return Err(ReadWhole::Failed);
        };
        if taken == 0 {
            return Ok(bytes);
        }
        if limit - bytes.len() < taken {
            return Err(ReadWhole::TooLong);
        }
        bytes.extend_from_slice(&buffer[..taken])?;
    }
}

/// Writes all bytes, each turn offering what isn't written yet. It takes no memory.
///
/// # Errors
///
/// The device failed; a prefix of the bytes is written then.
pub fn write_whole<S: Sink>(sink: &mut S, bytes: &[u8]) -> Result<(), Failed>
    ensures ok { OnOk result (S.written sink.new ≡ appended (S.written sink.old) bytes.now) }
    ensures err { OnErr result (WritesPrefix (S.written sink.old) bytes.now (S.written sink.new)) }
    ensures failed { OnErr result (Rose (S.faults sink.old) (S.faults sink.new)) }
    ensures count { S.faults sink.old ≤ S.faults sink.new }
    ensures stays { OnOk result (S.faults sink.new ≡ S.faults sink.old) }
{
    let mut rest = bytes;
    while !rest.is_empty() {
        let taken = sink.write(rest)?;
        rest = rest.split_at(taken).1;
    }
    Ok(())
}
