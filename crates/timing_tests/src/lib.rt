//! Tests on the public calls of the crates of the timing and of `cts_engine`, a file for each
//! crate.
#![tactic(auto)]

#[cfg(test)]
mod acceptance_tests;
#[cfg(test)]
mod arrival_tests;
#[cfg(test)]
mod circuits;
#[cfg(test)]
mod constraint_lists;
#[cfg(test)]
mod constraint_tests;
#[cfg(test)]
mod corner_lists;
#[cfg(test)]
mod corner_tests;
#[cfg(test)]
mod delay_tests;
#[cfg(test)]
mod engine_tests;
#[cfg(test)]
mod leads_tests;
#[cfg(test)]
mod pair_tests;
#[cfg(test)]
mod period_tests;
#[cfg(test)]
mod same;
#[cfg(test)]
mod schedule_tests;
