use crate::{FanIn, Kind};
use cts_base::Listed;

/// A signal of a netlist, as the line that defines it says.
#[derive(Debug, Drop)]
pub struct Signal {
    /// The bytes of its name.
    pub name: Listed<u8>,
    /// What defines it.
    pub kind: Kind,
    /// The numbers of the signals that it reads, in the order of the line.
    pub fan_in: FanIn,
}
