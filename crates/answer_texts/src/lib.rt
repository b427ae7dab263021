//! The text of each command's answer, and how an answer ends. Calls fail for want of memory alone.
#![tactic(auto)]

mod answer;
mod arrivals;
mod cornering;
mod margin;
mod period;
mod registers;
mod scheduling;
mod summary;
mod tree;
mod zero;

pub use answer::{Answer, Ending};
pub use cornering::corners_answer;
pub use margin::margin_text;
pub use period::period_answer;
pub use scheduling::schedule_answer;
pub use summary::summary_text;
pub use tree::tree_answer;
pub use zero::zero_text;
