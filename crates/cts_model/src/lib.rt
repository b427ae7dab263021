//! The circuit, the delay table and the definitions of timing that every layer speaks of.
#![tactic(auto)]

mod circuit;
mod constraint;
mod coordinates;
mod fan_in;
mod gate_delay;
mod grid;
mod host;
mod kind;
pub mod laws;
mod period;
mod place;
mod problem;
mod report;
mod schedule;
mod signal;
mod tech;
mod timing;
mod tree;
mod usage;

pub use circuit::Circuit;
pub use constraint::Constraint;
pub use coordinates::read_point;
pub use fan_in::FanIn;
pub use grid::{Grid, product};
pub use host::with_host;
pub use kind::Kind;
pub use period::PeriodShow;
pub use place::{Places, Point, Sink, Uv, half, manhattan, to_uv};
pub use problem::Problem;
pub use report::{Report, Version};
pub use schedule::{Lead, Schedule, Slack};
pub use signal::Signal;
pub use tech::{GateDelay, Tech};
pub use timing::{PairDelay, ZeroSkew};
pub use tree::{Merge, Show, Topology, Tree, Wire, total_length};
pub use usage::used_kinds;
