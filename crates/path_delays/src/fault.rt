ghost use Rattle.std.specs.Prelude.{◌≡◌};
ghost use Rattle.path_delays.specs.declared.fault.PairFault.TheVariants as fault;

use cts_base::NoMemory;
use std::alloc::AllocFailed;

/// Why the delays of a circuit's pairs aren't listed.
#[derive(Clone, Copy, Debug, PartialEq, Eq)]
pub enum PairFault {
    /// More than 1,048,576 pairs of registers are joined by paths.
    TooManyPairs,
    /// Memory was refused.
    NoMemory,
}

impl From<NoMemory> for PairFault {
    ghost from_gives = { λ _ given. given ≡ fault.NoMemory };

    fn from(_refused: NoMemory) -> PairFault {
        PairFault::NoMemory
    }
}

impl<T: Drop> From<AllocFailed<T>> for PairFault {
    ghost from_gives = { λ _ given. given ≡ fault.NoMemory };

    fn from(_refused: AllocFailed<T>) -> PairFault {
        PairFault::NoMemory
    }
}
