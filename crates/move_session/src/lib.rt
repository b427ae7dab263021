//! Moves of registers, read from a text, and clock trees that are kept up to date with them.
#![tactic(auto)]

mod fault;
mod moves;
mod moving;
mod read;
mod session;
mod way_up;

pub use fault::MovesFault;
pub use moves::Move;
pub use read::read_moves;
pub use session::Session;
