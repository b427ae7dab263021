ghost use Rattle.std.specs.Prelude.{◌≡◌, ℕ, List, IfOk, IfErr, nat_lt, position};
ghost use Rattle.gate_order.specs.Vocabulary.{IsLoop, IsTopologicalOrder, ShowsLoop, IsLevelsOf};

use crate::loop_search::named_loop;
use crate::sorting::{Sorting, sorted};
use crate::{LevelFault, Levels};
use cts_base::NoMemory;
use cts_model::Circuit;
use std::alloc::Global;

/// Orders the gates of a circuit.
///
/// # Errors
///
/// `Loop` where some form a loop, whichever is named, or `NoMemory` where memory is refused.
pub fn levels(alloc: Global, circuit: &Circuit) -> Result<Levels, LevelFault>
    ensures order { IfOk result (IsTopologicalOrder circuit.now.signals) }
    ensures acyclic { IfOk result (λ _. (loop : List ℕ) → IsLoop circuit.now.signals loop → ⊥) }
    ensures looped { IfErr result (ShowsLoop circuit.now.signals) }
{
    let Sorting { waiting, order } = sorted(alloc, circuit)?;
    match first_left_waiting(waiting.as_slice()) {
        None => Ok(Levels::from_vec(order)),
        Some(start) => {
            let gates = named_loop(alloc, circuit, waiting.as_slice(), start as u32)?;
            Err(LevelFault::Loop(gates))
        }
    }
}

/// Orders the gates of a circuit of which none read one another in a ring.
///
/// # Errors
///
/// Memory was refused.
pub fn levels_of(alloc: Global, circuit: &Circuit) -> Result<Levels, NoMemory>
    requires { (loop : List ℕ) → IsLoop circuit.now.signals loop → ⊥ }
    ensures { IfOk result (IsLevelsOf circuit.now) }
{
    match levels(alloc, circuit) {
        Ok(levels) => Ok(levels),
        Err(LevelFault::Loop(_)) => unreachable!(),
        Err(LevelFault::NoMemory) => Err(NoMemory),
    }
}

// The first signal that still waits for others.
fn first_left_waiting(waiting: &[u32]) -> Option<usize>
    ensures { result ≡ position (λ number. nat_lt 0 number) waiting.now }
{
    waiting.iter().position(|number| *number > 0)
}
