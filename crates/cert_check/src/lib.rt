//! Checks a report: accepts it exactly where it shows that its period, its schedule and its wire
//! are the least, whoever made it.
#![tactic(auto)]

mod checking;
mod climb;
mod cycle;
mod delay;
mod down;
mod drawn;
mod edges;
mod given_path;
mod item;
mod judge;
mod leads;
mod of_circuit;
mod path;
mod period;
mod reaches;
mod shape;
mod shaped;
mod shows;
mod slacks;
mod verdict;

pub use checking::check;
pub use verdict::{Reason, Subject, Verdict};
