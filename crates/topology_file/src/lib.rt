//! Reads topology files: which two nodes each merge of a clock tree joins.
#![tactic(auto)]

mod entry;
mod fault;
mod joining;
mod read;

pub use fault::TopologyFault;
pub use read::read_topology;
