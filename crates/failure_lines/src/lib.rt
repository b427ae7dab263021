//! Why the program doesn't do what a call asks for: the exit status of each failure, and its line
//! on the error output.
#![tactic(auto)]

mod failure;
mod file_kind;
mod line;
mod pieces;
mod refusals;
mod words;

pub use failure::Failure;
pub use file_kind::FileKind;
pub use refusals::{Fault, tech_failure};
pub use words::Words;
