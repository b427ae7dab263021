//! Where the nodes of a clock tree stand and how long its edges are, from the source down.
#![tactic(auto)]

mod source;
mod top_down;

pub use top_down::place;
