//! The report of a clock tree as a text.
#![tactic(auto)]

mod assembly;
mod cursor;
mod fault;
mod field;
mod judging;
pub mod laws;
mod line;
mod period;
mod reader;
mod report;
mod rules;
mod scan;
mod sections;
mod timing;
mod timing_values;
mod tree;
mod tree_values;

pub use fault::ReportFault;
pub use line::{push_constraint, push_count, push_line, push_line_for, push_value};
pub use period::{push_cycle, push_period, push_show};
pub use reader::read_report;
pub use report::write_report;
pub use timing::push_register;
pub use tree::{push_total, push_wire_length};
