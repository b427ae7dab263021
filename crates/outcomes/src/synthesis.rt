use cts_base::Listed;
use cts_model::{Constraint, Report};

/// The clock tree of a problem.
#[derive(Debug, Drop)]
pub enum Outcome {
    /// The least period, the least schedule that meets it, and the tree with the least wire for its
    /// topology that realises the schedule.
    Done(Report),
    /// No arrivals meet any period: constraints that lead from a register back to it show it.
    Never(Listed<Constraint>),
}
