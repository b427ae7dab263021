ghost use Rattle.std.specs.Prelude.{◌≡◌, ◌<◌, ◌++◌, if◌then◌else◌, [], ◌∷◌, IfOk, OnOk, length};
ghost use Rattle.path_delays.specs.Vocabulary.{AreLaunchedBy, AreInputs, AreWithin};
ghost use Rattle.cts_model.specs.netlist.Kinds as kinds;
ghost use Rattle.path_delays.specs.Carrying as carrying;

use crate::sums::Sums;
use cts_base::NoMemory;
use cts_model::{Circuit, Kind, Tech};
use std::alloc::Global;

/// The primary inputs, in their order.
pub(crate) fn input_signals(alloc: Global, circuit: &Circuit) -> Result<Vec<u32>, NoMemory>
    ensures { IfOk result (λ inputs. AreInputs circuit.now inputs.items) }
{
    let mut inputs = Vec::new(alloc);
    for (number, signal) in circuit.signals.as_slice().iter().enumerate() {
        push_input(&mut inputs, signal.kind, number as u32)?;
    }
    Ok(inputs)
}

// Puts a signal's number last, if it is an input.
fn push_input(inputs: &mut Vec<u32>, kind: Kind, number: u32) -> Result<(), NoMemory>
    ensures { OnOk result (inputs.new.items
        ≡ inputs.old.items ++ (if kinds.is_input kind then number ∷ [] else [])) }
{
    if is_input(kind) {
        inputs.push(number)?;
    }
    Ok(())
}

/// The signals that a register launches: its own, or for the host each input.
pub(crate) fn launched<'a>(circuit: &'a Circuit, inputs: &'a [u32], from: usize) -> &'a [u32]
    requires inputs { AreInputs circuit.now inputs.now }
    requires from { from < length circuit.now.registers }
    ensures { AreLaunchedBy circuit.now from result.now }
{
    if is_host(circuit.register_signal(from).kind) {
        inputs
    } else {
        &circuit.registers.as_slice()[from..from + 1]
    }
}

/// The sums to what a register launches.
pub(crate) fn start_sums(tech: &Tech) -> Sums
    ensures sums { result ≡ carrying.start_sums tech.now }
    ensures within { AreWithin 1000000 result }
{
    Sums {
        least: tech.least as i64,
        greatest: tech.greatest as i64,
    }
}

// Whether it is the host.
fn is_host(kind: Kind) -> bool
    ensures { result ≡ kinds.is_host kind }
{
    matches!(kind, Kind::Host)
}

// Whether it is a primary input.
fn is_input(kind: Kind) -> bool
    ensures { result ≡ kinds.is_input kind }
{
    matches!(kind, Kind::Input)
}
