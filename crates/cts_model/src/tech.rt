ghost use Rattle.cts_model.specs.table.Tables.{IsTable};

use cts_base::{Listed, Name};
use std::alloc::Global;

/// The delays of a gate kind, in ticks.
#[derive(Clone, Copy, Debug, PartialEq, Eq)]
pub struct GateDelay {
    /// Whether the table gives this kind. If not, the four numbers are 0.
    pub given: bool,
    /// The least delay at one input.
    pub least: i128,
    /// The greatest delay at one input.
    pub greatest: i128,
    /// What each input after the first adds to the least delay.
    pub least_per_input: i128,
    /// What each input after the first adds to the greatest delay.
    pub greatest_per_input: i128,
}

/// A delay table. Times are in ticks.
#[derive(Debug, Drop)]
pub struct Tech {
    /// The wire's delay per length unit is this fraction of ticks, in lowest terms.
    pub wire_num: i128,
    /// The denominator of that fraction.
    pub wire_den: i128,
    /// The name of the node where the clock comes from, empty if the table gives none.
    pub source: Name,
    /// How long before the capturing edge a register's input must stand still.
    pub setup: i128,
    /// How long after the capturing edge it must stand still.
    pub hold: i128,
    /// The least delay of a register, from its edge to its output.
    pub least: i128,
    /// The greatest delay of a register.
    pub greatest: i128,
    /// The name of the node where the host stands, empty if the table gives none.
    pub host: Name,
    /// No period may be less.
    pub floor: i128,
    /// The gate kinds in the order of `Kind`.
    pub gates: [GateDelay; 8],
    pub ghost valid: { IsTable wire_num wire_den setup hold least greatest floor gates },
}

impl Tech {
    ghost use Rattle.cts_model.specs.table.PlainTable.{IsPlainTable};

    /// The built-in table: wires of one tick per length unit, registers with setup 2, hold 1 and
    /// delay 3, gates of one tick, no floor, no source and no host. It takes no memory.
    pub fn plain(alloc: Global) -> Tech
        ensures { IsPlainTable result }
    {
        let one_tick = GateDelay {
            given: true,
            least: 1,
            greatest: 1,
            least_per_input: 0,
            greatest_per_input: 0,
        };
        Tech {
            wire_num: 1,
            wire_den: 1,
            source: Listed::new(alloc),
            setup: 2,
            hold: 1,
            least: 3,
            greatest: 3,
            host: Listed::new(alloc),
            floor: 0,
            gates: [one_tick; 8],
        }
    }
}
