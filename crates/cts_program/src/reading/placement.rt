//! Why a placement is refused, as it is reported.

ghost use Rattle.std.specs.Prelude.{◌≡◌, ◌<◌, ℕ, length, IfOk};
ghost use Rattle.failure_lines.specs.declared.failure.Failure.TheVariants as failures;
ghost use Rattle.failure_lines.specs.declared.file_kind.FileKind.TheVariants as kinds;
ghost use Rattle.failure_lines.specs.declared.words.Words.TheVariants as words;
ghost use Rattle.cts_program.specs.Vocabulary.{place_failure_of, OrMemory};

use cts_base::{Listed, Name, NoMemory};
use cts_model::Circuit;
use failure_lines::Failure::{self, Refused};
use failure_lines::FileKind::Placement;
use failure_lines::Words::{Line, Nothing, Number, Register};
use place_reader::PlaceFault;
use std::alloc::Global;

/// The failure where a placement of the circuit's registers has this fault.
pub fn placement_failure(alloc: Global, circuit: &Circuit, fault: PlaceFault) -> Failure
    requires { (register : ℕ) → fault ≡ PlaceFault.NoPlace register
        → register < length circuit.now.registers }
    ensures { OrMemory (λ failure. failure ≡ place_failure_of circuit.now fault) result }
{
    match fault {
        PlaceFault::BadLine(line) => Refused(Placement, 1, Line(line)),
        PlaceFault::BadNumber(line, fault) => Refused(Placement, 2, Number(line, fault)),
        PlaceFault::PlaceTwice(line) => Refused(Placement, 3, Line(line)),
        PlaceFault::NoPlace(register) => {
            no_place(alloc, circuit.register_name(register as usize))
        }
        PlaceFault::NoSource => Refused(Placement, 5, Nothing),
        PlaceFault::NoMemory => Failure::NoMemory,
    }
}

// The failure where the register of this name has no place.
fn no_place(alloc: Global, name: &[u8]) -> Failure
    ensures { OrMemory (λ failure. failure
        ≡ failures.Refused kinds.Placement 4 (words.Register name.now)) result }
{
    match copied(alloc, name) {
        Ok(name) => Refused(Placement, 4, Register(name)),
        Err(_) => Failure::NoMemory,
    }
}

/// The same bytes once more.
pub fn copied(alloc: Global, name: &[u8]) -> Result<Name, NoMemory>
    ensures { IfOk result (λ copy. copy ≡ name.now) }
{
    Ok(Listed::from_vec(Vec::from_slice(alloc, name)?))
}
