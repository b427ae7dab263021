//! The words of a call of the program, and the command that they mean.
#![tactic(auto)]

mod command;
mod parse;
mod plain_words;
mod table;

pub use command::{Command, WordsFault, read_command};
pub use table::{Choice, Form, ValueKind};
