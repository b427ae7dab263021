ghost use Rattle.std.specs.Prelude.{◌≡◌};
ghost use Rattle.bench_reader.specs.declared.fault.BenchFault.TheVariants as fault;

use cts_base::{Listed, Name, NoMemory};
use std::alloc::{AllocError, AllocFailed};

/// A limit of this project on netlists.
#[derive(Clone, Copy, Debug, PartialEq, Eq)]
pub enum Which {
    /// 255 bytes of a name.
    Name,
    /// 65,536 signals.
    Signals,
    /// 4,096 registers.
    Registers,
    /// 262,144 inputs of gates in all.
    Inputs,
}

/// Why a netlist is refused. Lines are counted from 1. The first five are judged line by line, and
/// the first faulty line is named, with the first of them that it has; then come `Undefined`,
/// `NoRegisters` and `CombLoop`, in this order.
#[derive(Debug, Drop)]
pub enum BenchFault {
    /// The line has no form of the format.
    BadLine(u32),
    /// The word after `=` is no kind.
    UnknownKind(u32),
    /// The kind has another number of inputs: NOT, BUFF and DFF have 1, any other 1 to 1,024.
    WrongInputs(u32),
    /// An earlier line defines the same name.
    SignalTwice(u32),
    /// The line passes a limit: the first in the order of `Which`.
    TooLarge(u32, Which),
    /// The first line that uses a name which no line defines.
    Undefined(u32),
    /// Some gates read one another in a ring: the names of one, each of a gate that reads the one
    /// before. The first has the lowest number of them, and reads the last.
    CombLoop(Listed<Name>),
    /// No line defines a register.
    NoRegisters,
    /// Memory was refused.
    NoMemory,
}

impl From<NoMemory> for BenchFault {
    ghost from_gives = { λ _ given. given ≡ fault.NoMemory };

    fn from(_refused: NoMemory) -> BenchFault {
        BenchFault::NoMemory
    }
}

impl From<AllocError> for BenchFault {
    ghost from_gives = { λ _ given. given ≡ fault.NoMemory };

    fn from(_refused: AllocError) -> BenchFault {
        BenchFault::NoMemory
    }
}

impl<T: Drop> From<AllocFailed<T>> for BenchFault {
    ghost from_gives = { λ _ given. given ≡ fault.NoMemory };

    fn from(_refused: AllocFailed<T>) -> BenchFault {
        BenchFault::NoMemory
    }
}
