//! Tests on the public calls of the crates that read and write: numbers, lines, devices, netlists,
//! tables, placements, topologies and moves, a file for each crate.
#![tactic(auto)]

#[cfg(test)]
mod base_tests;
#[cfg(test)]
mod bench_tests;
#[cfg(test)]
mod command_tests;
#[cfg(test)]
mod demo_tests;
#[cfg(test)]
mod device_tests;
#[cfg(test)]
mod fraction_tests;
#[cfg(test)]
mod held_files;
#[cfg(test)]
mod io_tests;
#[cfg(test)]
mod model_tests;
#[cfg(test)]
mod moves_file_tests;
#[cfg(test)]
mod number_tests;
#[cfg(test)]
mod place_tests;
#[cfg(test)]
mod same;
#[cfg(test)]
mod spelling_tests;
#[cfg(test)]
mod table_tests;
#[cfg(test)]
mod topology_file_tests;
