ghost use Rattle.std.specs.Prelude.{◌≡◌, ◌↔◌, IsTrue, Any};
ghost use Rattle.cts_model.specs.netlist.UsedKinds.{AreUsedKinds};

use crate::{Circuit, Kind};

/// Which gate kinds occur in a circuit, in the order of `Kind`. It takes no memory.
pub fn used_kinds(circuit: &Circuit) -> [bool; 8]
    ensures { AreUsedKinds circuit.now.signals result }
{
    [
        uses(circuit, Kind::And),
        uses(circuit, Kind::Nand),
        uses(circuit, Kind::Or),
        uses(circuit, Kind::Nor),
        uses(circuit, Kind::Not),
        uses(circuit, Kind::Xor),
        uses(circuit, Kind::Xnor),
        uses(circuit, Kind::Buff),
    ]
}

fn uses(circuit: &Circuit, kind: Kind) -> bool
    ensures { IsTrue result ↔ Any (λ signal. signal.kind ≡ kind) circuit.now.signals }
{
    circuit
        .signals
        .as_slice()
        .iter()
        .any(|signal| signal.kind == kind)
}
