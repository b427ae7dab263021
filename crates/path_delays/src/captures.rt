ghost use Rattle.std.specs.Prelude.{◌≡◌, ◌++◌, IfOk, OnOk, length, map};
ghost use Rattle.path_delays.specs.Captured.{AreAllCaptures, AreCapturedBelow, AreCapturersOf};

use crate::number_set::NumberSet;
use cts_base::NoMemory;
use cts_model::Circuit;
use gate_order::Groups;
use std::alloc::Global;

/// The registers that capture each signal. One pass over what the registers capture.
pub(crate) fn capturers(alloc: Global, circuit: &Circuit) -> Result<Groups, NoMemory>
    ensures { IfOk result (AreCapturersOf circuit.now) }
{
    let pairs = captures(alloc, circuit)?;
    Groups::of(alloc, circuit.signals.len(), pairs.as_slice())
}

/// The signals that some register captures.
pub(crate) fn captured_signals(alloc: Global, circuit: &Circuit) -> Result<NumberSet, NoMemory>
    ensures { IfOk result (λ set.
        AreCapturedBelow circuit.now (length circuit.now.registers) set.words.items) }
{
    let mut signals = NumberSet::new(alloc, circuit.signals.len() as u32)?;
    for register in 0..circuit.registers.len() {
        signals.insert_all(circuit.register_signal(register).fan_in.as_slice());
    }
    Ok(signals)
}

// The pairs of a signal and a register that captures it, register by register.
fn captures(alloc: Global, circuit: &Circuit) -> Result<Vec<(u32, u32)>, NoMemory>
    ensures { IfOk result (λ pairs.
        AreAllCaptures circuit.now (length circuit.now.registers) pairs.items) }
{
    let mut pairs = Vec::new(alloc);
    for register in 0..circuit.registers.len() {
        let captured = circuit.register_signal(register).fan_in.as_slice();
        push_captured(&mut pairs, register as u32, captured)?;
    }
    Ok(pairs)
}

// Puts the pair of each signal that a register captures and the register last.
fn push_captured(
    pairs: &mut Vec<(u32, u32)>,
    register: u32,
    captured: &[u32],
) -> Result<(), NoMemory>
    ensures { OnOk result
        (pairs.new.items ≡ pairs.old.items ++ map (λ signal. (signal, register)) captured.now) }
{
    for signal in captured {
        pairs.push((*signal, register))?;
    }
    Ok(())
}
