ghost use Rattle.std.specs.Prelude.{◌≡◌};
ghost use Rattle.gate_order.specs.declared.fault.LevelFault.TheVariants as fault;

use cts_base::{Listed, NoMemory};
use std::alloc::{AllocError, AllocFailed};

/// Why the gates of a circuit have no order.
#[derive(Debug, Drop)]
pub enum LevelFault {
    /// Some gates read one another in a ring: the numbers of one, each of a gate that reads the one
    /// before. The first is the lowest, and reads the last.
    Loop(Listed<u32>),
    /// Memory was refused.
    NoMemory,
}

impl From<NoMemory> for LevelFault {
    ghost from_gives = { λ _ given. given ≡ fault.NoMemory };

    fn from(_refused: NoMemory) -> LevelFault {
        LevelFault::NoMemory
    }
}

impl From<AllocError> for LevelFault {
    ghost from_gives = { λ _ given. given ≡ fault.NoMemory };

    fn from(_refused: AllocError) -> LevelFault {
        LevelFault::NoMemory
    }
}

impl<T: Drop> From<AllocFailed<T>> for LevelFault {
    ghost from_gives = { λ _ given. given ≡ fault.NoMemory };

    fn from(_refused: AllocFailed<T>) -> LevelFault {
        LevelFault::NoMemory
    }
}
