//! The greatest ratio of the cycles of constraints between registers, and the cycle that shows it:
//! the least clock period that the constraints admit is one.
#![tactic(auto)]

mod cycle;
mod measure;
mod period;
mod policy;
mod raise;
mod ratio;
mod ring;
mod search;
mod shown;
mod sums;
mod trials;

pub use measure::Measure;
pub use period::{Period, least_period, least_period_in};
pub use ratio::{Ratio, greatest_ratio};
