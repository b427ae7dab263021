//! Tests on the public calls of the crates of reports.
#![tactic(auto)]

#[cfg(test)]
mod cases;
#[cfg(test)]
mod same;
#[cfg(test)]
mod text_tests;
