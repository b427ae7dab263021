//! Rectangles at 45 degrees to the axes: the points within a distance of a point are one.
#![tactic(auto)]

mod cluster;
mod interval;
pub mod laws;
mod rect;
mod turn;

pub use cluster::Cluster;
pub use cts_model::to_uv;
pub use rect::Rect;
pub use turn::to_point;
