ghost use Rattle.std.specs.Prelude.{◌≡◌};
ghost use Rattle.topology_file.specs.declared.fault.TopologyFault.TheVariants as fault;

use cts_base::NoMemory;

/// Why a topology is refused. Lines are counted from 1, and the first faulty line is named, with
/// the first fault that it has in the order `Extra`, `BadLine`, `NotOpen`.
#[derive(Clone, Copy, Debug, PartialEq, Eq)]
pub enum TopologyFault {
    /// The line isn't three whole numbers, or the first isn't the node that is due.
    BadLine(u32),
    /// The line joins a node with itself, one that isn't made yet or one that is joined already.
    NotOpen(u32),
    /// The text ends before all sinks are joined: the number that the next line would have.
    Missing(u32),
    /// All sinks are joined before this line, and it isn't blank.
    Extra(u32),
    /// Memory was refused.
    NoMemory,
}

impl From<NoMemory> for TopologyFault {
    ghost from_gives = { λ _ given. given ≡ fault.NoMemory };

    fn from(_refused: NoMemory) -> TopologyFault {
        TopologyFault::NoMemory
    }
}
