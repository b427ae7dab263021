ghost use Rattle.std.specs.Prelude.{◌↔◌, ℕ, List, IfOk, IfErr};
ghost use Rattle.cts_engine.specs.Vocabulary.{JoinsMoreThan, IsLoop, IsMarginPeriod, HasNoPath, IsMarginOutcome, IsSmallOutcome, IsUnboundedOutcome, ShowsTooMany};

use crate::SynthFault;
use crate::period::constraints_at;
use constraints::constraints_of;
use cts_base::Fraction;
use cts_model::{Circuit, Tech};
use gate_order::levels_of;
use outcomes::MarginOutcome;
use path_delays::pair_delays;
use safety_margin::{Margin, greatest_margin};
use std::alloc::Global;

/// The greatest margin of a circuit at a period, whenever the clock reaches each register, in
/// ticks.
///
/// # Errors
///
/// More than 1,048,576 pairs of registers are joined by paths, or memory was refused.
pub fn margin_of(
    alloc: Global,
    circuit: &Circuit,
    tech: &Tech,
    period: Fraction,
) -> Result<MarginOutcome, SynthFault>
    requires acyclic { (loop : List ℕ) → IsLoop circuit.now.signals loop → ⊥ }
    requires period { IsMarginPeriod period }
    ensures ok { IfOk result (IsMarginOutcome circuit.now tech.now period) }
    ensures unbounded { IfOk result (λ outcome.
        IsUnboundedOutcome outcome ↔ HasNoPath circuit.now) }
    ensures small { IfOk result IsSmallOutcome }
    ensures few { IfOk result (λ _. JoinsMoreThan circuit.now 1048576 → ⊥) }
    ensures many { IfErr result (ShowsTooMany circuit.now) }
{
    let levels = levels_of(alloc, circuit)?;
    let pairs = pair_delays(alloc, circuit, &levels, tech)?;
    let constraints = constraints_of(alloc, &pairs, tech)?;
    let registers = circuit.registers.len();
    match greatest_margin(alloc, registers, &constraints, period)? {
        Margin::Found {
            value,
            cycle,
            schedule,
        } => Ok(MarginOutcome::Found {
            value,
            cycle: constraints_at(alloc, &constraints, &cycle)?,
            schedule,
        }),
        Margin::Unbounded => Ok(MarginOutcome::Unbounded),
    }
}
