//! Values of registers that constraints raise until all are satisfied: the relaxation that the
//! search for a period, a margin and a schedule share.
#![tactic(auto)]

mod follow;
mod gains;
mod policy;
mod relaxation;
mod rounds;
mod strong;
mod turns;
mod waiting;

pub use gains::Gains;
pub use relaxation::Relaxation;
pub use rounds::Rounds;
