//! Tests on the public calls of the crates that make a clock tree, a file for each crate.
#![tactic(auto)]

#[cfg(test)]
mod merge_tests;
#[cfg(test)]
mod place_down_tests;
#[cfg(test)]
mod rect_tests;
#[cfg(test)]
mod same;
#[cfg(test)]
mod session_tests;
#[cfg(test)]
mod topology_tests;
#[cfg(test)]
mod trees;
#[cfg(test)]
mod wire_tests;
