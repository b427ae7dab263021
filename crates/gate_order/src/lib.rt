//! Orders the gates of a netlist, or names a loop that they form, and groups values by their keys.
#![tactic(auto)]

mod fault;
mod gate_reads;
mod groups;
mod level_list;
mod loop_search;
mod order;
mod sorting;

pub use fault::LevelFault;
pub use groups::Groups;
pub use level_list::Levels;
pub use order::{levels, levels_of};
