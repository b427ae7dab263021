//! Finds the delays over all paths between the registers of a netlist, and when what the registers
//! launch arrives.
#![tactic(auto)]

mod between;
mod captures;
mod capturing;
mod cycle_paths;
mod extreme_path;
mod fault;
mod gate_delays;
mod lane_table;
mod lanes;
mod launching;
mod narrow_lanes;
mod network;
mod number_set;
mod pair;
mod pairs;
mod path_search;
mod reach;
mod row;
mod single_calls;
mod sums;
mod sweep;
mod walk;
mod window;

pub use fault::PairFault;
pub use gate_order::{LevelFault, Levels, levels};
pub use pair::pair_delay;
pub use path_search::Paths;
pub use single_calls::{delays_between, pair_delays, path_of};
pub use sweep::arrivals;
pub use window::Window;
