//! What a command reads: its files in their order, each judged as soon as it is read, and what they
//! denote.

mod circuit;
mod corner_tables;
mod document;
mod documents;
mod placement;
mod problem;

pub use circuit::read_circuit;
pub use corner_tables::{Corners, read_corners};
pub use document::{Document, read_document};
pub use documents::{DelayTable, MovesOf, Netlist, Placement, ReportOf, TopologyOf};
pub use placement::copied;
pub use problem::read_problem;
