//! Reads delay tables in TOML.
#![tactic(auto)]

mod document;
mod fault;
mod fraction;
mod keys;
mod names;
mod order;
mod read;
mod table;
mod walk;

pub use fault::TechFault;
pub use read::read_tech;
