//! How far each node of a clock tree reaches and where it may stand, from the sinks up.
#![tactic(auto)]

mod bottom_up;
mod end;
mod ends;
mod nodes;
mod settled;
mod side;
mod work;

pub use bottom_up::merge;
pub use end::End;
pub use ends::Ends;
pub use work::Work;
