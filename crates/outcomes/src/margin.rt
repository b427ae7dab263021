use cts_base::{Fraction, Listed};
use cts_model::{Constraint, Schedule};

/// What every setup and hold inequality of a circuit has to spare at a period.
#[derive(Debug, Drop)]
pub enum MarginOutcome {
    /// The greatest margin that some arrivals spare over every path.
    Found {
        /// In ticks. It may be negative.
        value: Fraction,
        /// Constraints that lead from a register back to it, and that spare no more.
        cycle: Listed<Constraint>,
        /// The least arrivals from 0 on that spare it, over the least common multiple of the
        /// denominators of the period and the value.
        schedule: Schedule,
    },
    /// Every margin is spared, as no path joins two registers.
    Unbounded,
}
