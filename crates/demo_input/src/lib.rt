//! Input for a demonstration: a netlist, a delay table and a placement.
#![tactic(auto)]

mod inputs;
mod name;
mod netlist;
mod placement;
mod table;
mod texts;

pub use inputs::demo;
pub use texts::Demo;
