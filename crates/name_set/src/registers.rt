ghost use Rattle.std.specs.Prelude.{◌≡◌, IfOk};
ghost use Rattle.name_set.specs.RegisterNames.{register_names};

use crate::{HashKey, NameSet};
use cts_base::NoMemory;
use cts_model::Circuit;
use std::alloc::Global;

/// The names of a circuit's registers, in order: each has the register's number. The host's is
/// `(host)`.
///
/// # Errors
///
/// There is no memory for the names.
pub fn register_names(alloc: Global, circuit: &Circuit) -> Result<NameSet<'_>, NoMemory>
    ensures { IfOk result (λ names. names ≡ register_names circuit.now) }
{
    let mut names = NameSet::new(alloc, HashKey::of_registers(circuit));
    for register in 0..circuit.registers.len() {
        names.insert(circuit.register_name(register))?;
    }
    Ok(names)
}
