//! From a circuit and its delays to what the program answers: each step of the timing in its order.
#![tactic(auto)]

mod acceptance;
mod clock_tree;
mod cycle_paths;
mod margin;
mod period;
mod refusals;
mod scheduling;
mod session;
mod sink_times;
mod synthesis;
mod times;
mod wires;
mod zero;

pub use acceptance::{Denoted, accept, accept_circuit, accept_table, hosted};
pub use margin::margin_of;
pub use outcomes::{MarginOutcome, Outcome, PeriodOutcome, ScheduleOutcome};
pub use path_delays::PairFault as SynthFault;
pub use period::period_of;
pub use refusals::Refusal;
pub use scheduling::schedule_of;
pub use session::{SessionOutcome, move_register, session_of};
pub use synthesis::{synthesize, synthesize_with};
pub use zero::zero_of;
