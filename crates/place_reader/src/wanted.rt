ghost use Rattle.std.specs.Prelude.{◌≡◌, ◌<◌, length, Some, slice_get, IfOk};
ghost use Rattle.place_reader.specs.Vocabulary.{register_nodes, wanted_nodes, AreSameNames};

use cts_base::NoMemory;
use cts_model::{Circuit, Kind};
use name_set::{HashKey, NameSet};
use std::alloc::Global;

/// The nodes that are to have a place.
pub(crate) fn wanted_nodes<'a>(
    alloc: Global,
    circuit: &'a Circuit,
    source: &'a [u8],
    host: &'a [u8],
) -> Result<NameSet<'a>, NoMemory>
    ensures { IfOk result
        (λ names. AreSameNames names (wanted_nodes circuit.now source.now host.now)) }
{
    let mut names = NameSet::new(alloc, HashKey::of_registers(circuit));
    for register in 0..circuit.registers.len() {
        names.insert(register_node(circuit, host, register))?;
    }
    names.insert(source)?;
    Ok(names)
}

/// The name of the node where a register stands.
pub(crate) fn register_node<'a>(circuit: &'a Circuit, host: &'a [u8], register: usize) -> &'a [u8]
    requires { register < length circuit.now.registers }
    ensures { slice_get (register_nodes circuit.now host.now) register ≡ Some result.now }
{
    let signal = circuit.register_signal(register);
    if matches!(signal.kind, Kind::Host) {
        host
    } else {
        signal.name.as_slice()
    }
}
