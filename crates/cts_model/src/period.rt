use crate::Constraint;
use cts_base::Listed;

/// What shows that a period is the least that any arrivals allow.
#[derive(Debug, Drop)]
pub enum PeriodShow {
    /// Constraints that lead from a register back to it, in order.
    Cycle(Listed<Constraint>),
    /// The floor of the table: no period may be less.
    Floor,
}
