ghost use Rattle.std.specs.Prelude.{◌≡◌, [], ◌∷◌, ◌++◌, IfOk, OnOk, length};
ghost use Rattle.gate_order.specs.GateReads.{AreReads, is_gate_at, reads_among, reads_by};

use cts_base::NoMemory;
use cts_model::{Circuit, Signal};
use std::alloc::Global;

/// The pairs of a gate that is read and a gate that reads it, one for each input that is a gate.
/// One pass over the inputs of all gates.
pub(crate) fn gate_reads(alloc: Global, circuit: &Circuit) -> Result<Vec<(u32, u32)>, NoMemory>
    ensures { IfOk result
        (λ pairs. AreReads circuit.now.signals (length circuit.now.signals) pairs.items) }
{
    let signals = circuit.signals.as_slice();
    let mut pairs = Vec::new(alloc);
    for (number, signal) in signals.iter().enumerate() {
        push_reads(&mut pairs, signals, signal, number as u32)?;
    }
    Ok(pairs)
}

/// Whether the signal of this number is a gate.
pub(crate) fn is_gate_at(signals: &[Signal], number: u32) -> bool
    ensures { result ≡ is_gate_at signals.now number }
{
    match signals.get(number as usize) {
        Some(signal) => signal.kind.is_gate(),
        None => false,
    }
}

// Puts the pairs of a signal last, if it is a gate.
fn push_reads(
    pairs: &mut Vec<(u32, u32)>,
    signals: &[Signal],
    signal: &Signal,
    number: u32,
) -> Result<(), NoMemory>
    ensures { OnOk result
        (pairs.new.items ≡ pairs.old.items ++ reads_by signals.now signal.now number) }
{
    if !signal.kind.is_gate() {
        return Ok(());
    }
    for input in signal.fan_in.as_slice() {
        push_read(pairs, signals, *input, number)?;
    }
    Ok(())
}

// Puts the pair of an input and its gate last, if the input is a gate.
fn push_read(
    pairs: &mut Vec<(u32, u32)>,
    signals: &[Signal],
    input: u32,
    gate: u32,
) -> Result<(), NoMemory>
    ensures { OnOk result
        (pairs.new.items ≡ pairs.old.items ++ reads_among signals.now gate (input ∷ [])) }
{
    if !is_gate_at(signals, input) {
        return Ok(());
    }
    pairs.push((input, gate))?;
    Ok(())
}
