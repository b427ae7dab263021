ghost use Rattle.std.specs.Prelude.{IfOk};
ghost use Rattle.cts_model.specs.netlist.Hosts.{HasNoHost, IsWithHost};

use crate::{Circuit, FanIn, Kind, Signal};
use cts_base::{Listed, NoMemory};
use std::alloc::Global;

/// The circuit with the host as its last signal and register. The host captures the primary
/// outputs, in order.
///
/// # Errors
///
/// `NoMemory` where memory is refused; the given circuit is dropped then.
pub fn with_host(alloc: Global, circuit: Circuit) -> Result<Circuit, NoMemory>
    requires { HasNoHost circuit }
    ensures { IfOk result (IsWithHost circuit) }
{
    let Circuit {
        mut signals,
        mut registers,
        outputs,
    } = circuit;
    let host = Signal {
        name: Listed::from_vec(Vec::from_slice(alloc, b"(host)")?),
        kind: Kind::Host,
        fan_in: FanIn::from_slice(alloc, outputs.as_slice())?,
    };
    registers.push(signals.len() as u32)?;
    signals.push(host)?;
    Ok(Circuit {
        signals,
        registers,
        outputs,
    })
}
