//! The least arrivals at which registers meet constraints between them at a period, and why.
#![tactic(auto)]

mod arrivals;
mod least;
mod reach;
mod tails;
mod tight;

pub use least::{least_arrivals, least_schedule, least_schedule_in};
pub use tight::leads;
