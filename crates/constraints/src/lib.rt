//! The constraints that the paths of a circuit put on the arrivals at its registers.
#![tactic(auto)]

mod of_pairs;

pub use of_pairs::constraints_of;
