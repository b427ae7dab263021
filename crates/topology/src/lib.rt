//! Which clusters of sinks a clock tree merges, the cheapest first.
#![tactic(auto)]

mod axis;
mod live;
mod merging;
mod ordered;
mod pair;
mod queue;

pub use merging::greedy;
