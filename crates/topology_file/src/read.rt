ghost use Rattle.std.specs.Prelude.{◌≡◌, ◌≤◌, ◌⊎◌, length, Ok, Err, IfOk};
ghost use Rattle.topology_file.specs.Vocabulary.{IsToldBy, IsTopologyText, topology_in, Topology, TopologyFault};

use crate::TopologyFault;
use crate::joining::Joining;
use cts_base::read_lines;
use cts_model::{Circuit, Topology};
use std::alloc::Global;

/// Reads the topology of a clock tree to the registers of a circuit. Each line that isn't blank has
/// the node that a merge makes and the two that it joins, in either order, as `7 4 2`; the topology
/// has the lower of the two first. It goes over the bytes once.
///
/// # Errors
///
/// The first fault of the text, or `NoMemory` where memory is refused.
pub fn read_topology(
    alloc: Global,
    bytes: &[u8],
    circuit: &Circuit,
) -> Result<Topology, TopologyFault>
    requires { length bytes.now ≤ 16777216 }
    // Ok comes exactly where the lines are those of a topology, which is given; memory alone is free.
    ensures ok { IfOk result (IsTopologyText (length circuit.now.registers) bytes.now) }
    ensures accepted { (topology : Topology)
        → IsTopologyText (length circuit.now.registers) bytes.now topology
        → (result ≡ Ok topology) ⊎ (result ≡ Err TopologyFault.NoMemory) }
    // Else their first fault comes, but for want of memory.
    ensures told { IsToldBy TopologyFault.NoMemory
        (topology_in bytes.now (length circuit.now.registers)) result }
{
    let mut joining = Joining::new(alloc, circuit.registers.len())?;
    let next = read_lines(&mut joining, bytes)?;
    joining.topology().ok_or(TopologyFault::Missing(next))
}
