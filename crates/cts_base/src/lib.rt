//! Lists, lines, words and numbers: what every text of the clock tree synthesizer is made of.
#![tactic(auto)]

mod divisor;
mod fraction;
mod line_format;
mod line_walk;
mod listed;
mod no_memory;
mod number;
mod text;
mod word_walk;

pub use divisor::gcd;
pub use fraction::{Fraction, push_fraction, push_quotient};
pub use line_format::{LineFormat, read_lines};
pub use line_walk::{Line, Lines};
pub use listed::{Listed, Name};
pub use no_memory::NoMemory;
pub use number::{NumberFault, Quotient, read_fraction, read_micro, read_quotient, read_whole};
pub use text::{before_comment, lines, words};
pub use word_walk::Words;
