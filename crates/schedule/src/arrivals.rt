ghost use Rattle.std.specs.Prelude.{◌↔◌, IsTrue, length};
ghost use Rattle.schedule.specs.Vocabulary.{IsSmallConstraint, IsTight, IsGiven};

use crate::least::gains_of;
use cts_base::Fraction;
use cts_model::Constraint;

/// Arrivals at a period, and constraints between their registers.
#[derive(Clone, Copy)]
pub(crate) struct Arrivals<'a> {
    pub(crate) constraints: &'a [Constraint],
    pub(crate) at: &'a [i128],
    pub(crate) period: Fraction,
    pub(crate) ghost given: { IsGiven constraints.now period at.now },
}

impl Arrivals<'_> {
    /// Whether the head's arrival is just what the constraint asks.
    pub(crate) fn has_tight(&self, constraint: &Constraint) -> bool
        requires { IsSmallConstraint (length self.now.at.now) constraint.now }
        ensures { IsTrue result ↔ IsTight self.now.period self.now.at.now constraint.now }
    {
        let gain = gains_of(self.period).gain(constraint);
        self.at[constraint.head as usize] - self.at[constraint.tail as usize] == gain
    }
}
