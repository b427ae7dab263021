//! Reads placements in the Bookshelf `.pl` format.
#![tactic(auto)]

mod entry;
mod fault;
mod placing;
mod read;
mod tail;
mod wanted;

pub use fault::PlaceFault;
pub use read::read_places;
