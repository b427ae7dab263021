ghost use Rattle.std.specs.Prelude.{ℕ, List, IfOk, IfErr};
ghost use Rattle.cts_engine.specs.Vocabulary.{IsZeroSkew, HasSmallDelays, JoinsMoreThan, IsLoop, ShowsTooMany};

use crate::SynthFault;
use cts_model::{Circuit, Tech, ZeroSkew};
use gate_order::levels_of;
use path_delays::pair_delays;
use std::alloc::Global;
use timing_report::zero_skew;

/// The least period of a circuit where the clock reaches all registers at once, in ticks.
///
/// # Errors
///
/// More than 1,048,576 pairs of registers are joined by paths, or memory was refused.
pub fn zero_of(alloc: Global, circuit: &Circuit, tech: &Tech) -> Result<ZeroSkew, SynthFault>
    requires { (loop : List ℕ) → IsLoop circuit.now.signals loop → ⊥ }
    ensures ok { IfOk result (IsZeroSkew circuit.now tech.now) }
    ensures small { IfOk result HasSmallDelays }
    ensures few { IfOk result (λ _. JoinsMoreThan circuit.now 1048576 → ⊥) }
    ensures many { IfErr result (ShowsTooMany circuit.now) }
{
    let levels = levels_of(alloc, circuit)?;
    let pairs = pair_delays(alloc, circuit, &levels, tech)?;
    Ok(zero_skew(&pairs, tech))
}
