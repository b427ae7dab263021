//! The drawn wire of a tree edge: straight or with one bend, and with a detour where it is longer.
#![tactic(auto)]

mod detour;
mod edge;
mod shape;

pub use edge::wire;
