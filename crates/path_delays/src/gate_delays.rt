ghost use Rattle.std.specs.Prelude.{◌≡◌, ◌<◌, IsTrue, IfOk, length, map};
ghost use Rattle.path_delays.specs.Vocabulary.{is_valid, gate_sums};

use crate::sums::Sums;
use cts_base::NoMemory;
use cts_model::{Circuit, Signal, Tech};
use std::alloc::Global;

/// The least and the greatest delay of each signal that is a gate, and 0 for the others.
pub(crate) fn gate_delays(
    alloc: Global,
    circuit: &Circuit,
    tech: &Tech,
) -> Result<Vec<Sums>, NoMemory>
    ensures { IfOk result
        (λ delays. delays.items ≡ map (gate_sums tech.now) circuit.now.signals) }
{
    let mut delays = Vec::new(alloc);
    for signal in circuit.signals.as_slice() {
        delays.push(gate_delay(tech, signal))?;
    }
    Ok(delays)
}

/// The least and the greatest delay of a signal, 0 if it is no gate.
pub(crate) fn gate_delay(tech: &Tech, signal: &Signal) -> Sums
    requires { IsTrue (is_valid signal.now.kind (length signal.now.fan_in)) }
    ensures { result ≡ gate_sums tech.now signal.now }
{
    if !signal.kind.is_gate() {
        return Sums {
            least: 0,
            greatest: 0,
        };
    }
    let delay = tech.delay_of(signal.kind);
    let inputs = signal.fan_in.len();
    Sums {
        least: delay.least_of(inputs),
        greatest: delay.greatest_of(inputs),
    }
}
