//! What the timing and the tree of a circuit come to: the outcomes that are answered and printed.
#![tactic(auto)]

mod margin;
mod period;
mod scheduling;
mod synthesis;

pub use margin::MarginOutcome;
pub use period::PeriodOutcome;
pub use scheduling::ScheduleOutcome;
pub use synthesis::Outcome;
