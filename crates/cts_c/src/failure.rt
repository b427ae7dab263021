//! Why a call has no answer.

ghost use Rattle.std.specs.Prelude.{◌≡◌};
ghost use Rattle.cts_c.specs.declared.failure.Failure.TheVariants as failures;
ghost use Rattle.cts_c.specs.Statuses.{failure_status, refusal_failure, pair_failure, IsFailure};

use cts_base::NoMemory;
use cts_engine::{Refusal, SynthFault};

/// Why a call has no answer.
#[derive(Clone, Copy, Debug, Drop, PartialEq, Eq)]
pub enum Failure {
    /// The texts are refused.
    Refused,
    /// Memory was refused.
    NoMemory,
}

impl Failure {
    /// The program's exit status.
    pub fn status(self) -> u32
        ensures value { result ≡ failure_status self }
        ensures kind { IsFailure result }
    {
        match self {
            Failure::Refused => 3,
            Failure::NoMemory => 6,
        }
    }
}

impl From<Refusal> for Failure {
    ghost from_gives = { λ refusal failure. failure ≡ refusal_failure refusal };

    fn from(refusal: Refusal) -> Failure {
        match refusal {
            Refusal::NoMemory => Failure::NoMemory,
            _ => Failure::Refused,
        }
    }
}

impl From<SynthFault> for Failure {
    ghost from_gives = { λ fault failure. failure ≡ pair_failure fault };

    fn from(fault: SynthFault) -> Failure {
        match fault {
            SynthFault::TooManyPairs => Failure::Refused,
            SynthFault::NoMemory => Failure::NoMemory,
        }
    }
}

impl From<NoMemory> for Failure {
    ghost from_gives = { λ _ failure. failure ≡ failures.NoMemory };

    fn from(_refused: NoMemory) -> Failure {
        Failure::NoMemory
    }
}
