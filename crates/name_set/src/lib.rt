//! Names and their numbers, and those of a circuit's registers.
#![tactic(auto)]

mod hash_key;
mod name_bytes;
mod name_set;
mod registers;

pub use hash_key::HashKey;
pub use name_set::NameSet;
pub use registers::register_names;
