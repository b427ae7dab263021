//! Reads netlists in the ISCAS'89 `.bench` format.
#![tactic(auto)]

mod circuit_parts;
mod definitions;
mod fault;
mod input_list;
mod kinds;
mod read;
mod reading;
mod said;
mod statement;
mod tally;
mod token;

pub use fault::{BenchFault, Which};
pub use read::read_bench;
