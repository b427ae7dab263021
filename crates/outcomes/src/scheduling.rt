use cts_base::{Fraction, Listed};
use cts_model::{Constraint, PeriodShow, Schedule, Slack, ZeroSkew};

/// When the clock is to reach each register of a circuit, in ticks.
#[derive(Debug, Drop)]
pub enum ScheduleOutcome {
    /// Some arrivals meet this period, and none a smaller one.
    Found {
        /// The least period where the clock reaches all registers at once.
        zero: ZeroSkew,
        period: Fraction,
        /// What shows that no period is less.
        shown: PeriodShow,
        /// The least arrivals from 0 on that meet the period.
        schedule: Schedule,
        /// What each register has to spare at these arrivals.
        slacks: Listed<Slack>,
    },
    /// No arrivals meet any period: constraints that lead from a register back to it show it.
    Never {
        cycle: Listed<Constraint>,
    },
}
