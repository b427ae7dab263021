ghost use Rattle.std.specs.Prelude.{◌≡◌};
ghost use Rattle.cts_engine.specs.declared.refusals.Refusal.TheVariants as refusals;
ghost use Rattle.cts_engine.specs.Accepted.{bench_refusal_of, tech_refusal_of, places_refusal_of};

use bench_reader::BenchFault;
use cts_base::NoMemory;
use delay_tables::TechFault;
use place_reader::PlaceFault;

/// Why the texts of a problem are refused: the first of them that has a fault, with its fault. None
/// of the faults is want of memory.
#[derive(Debug, Drop)]
pub enum Refusal {
    /// The netlist is refused.
    Bench(BenchFault),
    /// The delay table is refused.
    Tech(TechFault),
    /// The placement is refused.
    Places(PlaceFault),
    /// Memory was refused.
    NoMemory,
}

impl From<BenchFault> for Refusal {
    ghost from_gives = { λ fault refusal. refusal ≡ bench_refusal_of fault };

    fn from(fault: BenchFault) -> Refusal {
        match fault {
            BenchFault::NoMemory => Refusal::NoMemory,
            _ => Refusal::Bench(fault),
        }
    }
}

impl From<TechFault> for Refusal {
    ghost from_gives = { λ fault refusal. refusal ≡ tech_refusal_of fault };

    fn from(fault: TechFault) -> Refusal {
        match fault {
            TechFault::NoMemory => Refusal::NoMemory,
            _ => Refusal::Tech(fault),
        }
    }
}

impl From<PlaceFault> for Refusal {
    ghost from_gives = { λ fault refusal. refusal ≡ places_refusal_of fault };

    fn from(fault: PlaceFault) -> Refusal {
        match fault {
            PlaceFault::NoMemory => Refusal::NoMemory,
            _ => Refusal::Places(fault),
        }
    }
}

impl From<NoMemory> for Refusal {
    ghost from_gives = { λ _ refusal. refusal ≡ refusals.NoMemory };

    fn from(_refused: NoMemory) -> Refusal {
        Refusal::NoMemory
    }
}
