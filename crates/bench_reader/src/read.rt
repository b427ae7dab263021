ghost use Rattle.std.specs.Prelude.{◌≡◌, ◌≤◌, ◌<◌, ◌⊎◌, length, All, IfOk, IfErr, MatchResult};
ghost use Rattle.bench_reader.specs.Vocabulary.{IsFaultOf, HasNoHost, BenchFault, netlist_fault, AcceptsNetlist, RefusesNetlist, names_of_signals, DenotesCircuit};

use crate::BenchFault;
use crate::circuit_parts::{CircuitParts, read_parts};
use crate::reading::read_statements;
use cts_base::{Listed, Name, NoMemory};
use cts_model::Circuit;
use gate_order::{LevelFault, levels};
use std::alloc::Global;

/// Reads a netlist in the ISCAS'89 `.bench` format. The circuit has no host.
///
/// # Errors
///
/// The first fault of the text, or `NoMemory` where memory is refused.
pub fn read_bench(alloc: Global, bytes: &[u8]) -> Result<Circuit, BenchFault>
    requires { length bytes.now ≤ 16777216 }
    // The circuit that the bytes tell, or their fault; memory is free, and which ring is named.
    ensures told { MatchResult result (AcceptsNetlist bytes.now)
        (λ fault. RefusesNetlist bytes.now fault ⊎ (fault ≡ BenchFault.NoMemory)) }
    ensures hostless { IfOk result HasNoHost }
{
    let circuit = circuit_of_lines(alloc, bytes)?;
    match levels(alloc, &circuit) {
        Ok(_) => Ok(circuit),
        Err(LevelFault::Loop(gates)) => {
            let names = signal_names(alloc, &circuit, gates.as_slice())?;
            Err(BenchFault::CombLoop(names))
        }
        Err(LevelFault::NoMemory) => Err(BenchFault::NoMemory),
    }
}

// The circuit that the lines tell, or the first fault but a ring: gates may still read one another
// in one.
fn circuit_of_lines(alloc: Global, bytes: &[u8]) -> Result<Circuit, BenchFault>
    requires { length bytes.now ≤ 16777216 }
    ensures denoted { IfOk result (DenotesCircuit bytes.now) }
    ensures refused { IfErr result (IsFaultOf BenchFault.NoMemory (netlist_fault bytes.now)) }
{
    let reading = read_statements(alloc, bytes)?;
    let CircuitParts {
        signals,
        registers,
        outputs,
    } = read_parts(alloc, &reading)?;
    if registers.is_empty() {
        return Err(BenchFault::NoRegisters);
    }
    let outputs = Listed::from_vec(Vec::from_slice(alloc, outputs.as_slice())?);
    Ok(Circuit {
        signals,
        registers,
        outputs,
    })
}

// The names of these signals, in order.
fn signal_names(alloc: Global, circuit: &Circuit, numbers: &[u32]) -> Result<Listed<Name>, NoMemory>
    requires { All (λ number. number < length circuit.now.signals) numbers.now }
    ensures { IfOk result
        (λ names. names ≡ names_of_signals circuit.now.signals numbers.now) }
{
    let mut names = Listed::new(alloc);
    for number in numbers {
        let signal = &circuit.signals.as_slice()[*number as usize];
        let name = Vec::from_slice(alloc, signal.name.as_slice())?;
        names.push(Listed::from_vec(name))?;
    }
    Ok(names)
}
