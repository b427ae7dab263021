use cts_base::{Fraction, Listed};
use cts_model::{Constraint, PeriodShow, ZeroSkew};

/// The least clock period of a circuit, in ticks.
#[derive(Debug, Drop)]
pub enum PeriodOutcome {
    /// Some arrivals meet this period, and none a smaller one.
    Found {
        /// The least period where the clock reaches all registers at once.
        zero: ZeroSkew,
        period: Fraction,
        /// What shows that no period is less.
        shown: PeriodShow,
    },
    /// No arrivals meet any period: constraints that lead from a register back to it show it.
    Never {
        cycle: Listed<Constraint>,
    },
}
