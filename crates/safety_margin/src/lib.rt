//! The greatest margin that every setup and hold inequality has to spare at a given period.
#![tactic(auto)]

mod margin;
mod ratio;
mod sparing;

pub use margin::{Margin, greatest_margin};
