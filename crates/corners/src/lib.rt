//! One list of constraints that serves the delay tables of several corners, and the least period
//! and the least schedule that do.
#![tactic(auto)]

mod fold;
mod list_of_corner;
mod lists;
mod outcome;

pub use fold::Combined;
pub use lists::combine;
pub use outcome::{CornersOutcome, corners_of};
