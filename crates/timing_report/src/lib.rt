//! What the delays of pairs of registers ask of the clock where it reaches all registers at once,
//! and what registers have to spare where it reaches them by a schedule.
#![tactic(auto)]

mod equal_arrivals;
mod slack;

pub use equal_arrivals::zero_skew;
pub use slack::slacks;
