ghost use Rattle.std.specs.Prelude.{◌≡◌};
ghost use Rattle.place_reader.specs.declared.fault.PlaceFault.TheVariants as fault;

use cts_base::{NoMemory, NumberFault};

/// Why a placement is refused. Lines are counted from 1. The first three are judged line by line,
/// and the first faulty line is named, with the first of them that it has; then come `NoPlace` and
/// `NoSource`, in this order.
#[derive(Clone, Copy, Debug, PartialEq, Eq)]
pub enum PlaceFault {
    /// The line hasn't the form of a node's line.
    BadLine(u32),
    /// x, or else y, of a wanted node is refused as a number.
    BadNumber(u32, NumberFault),
    /// An earlier line places the same wanted node.
    PlaceTwice(u32),
    /// No line places this register, the first of such.
    NoPlace(u32),
    /// No line places the source.
    NoSource,
    /// Memory was refused.
    NoMemory,
}

impl From<NoMemory> for PlaceFault {
    ghost from_gives = { λ _ given. given ≡ fault.NoMemory };

    fn from(_refused: NoMemory) -> PlaceFault {
        PlaceFault::NoMemory
    }
}
