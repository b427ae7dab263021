use crate::gains::Gains;
use cts_model::Constraint;

/// Of how many constraints one is looked at where a look at some is enough.
const EACH: usize = 61;

/// The least weights of constraints that can raise a register while values lie so near one another:
/// between values that are `x` apart none raises one that gains `-x` or less.
#[derive(Clone, Copy, Debug)]
pub(crate) struct Strong {
    setup: i128,
    hold: i128,
}

impl Strong {
    /// Those between values that are at most so far apart, over the scale of the gains.
    pub(crate) fn within(gains: Gains, apart: i128) -> Strong {
        Strong {
            setup: gains.setup.wrapping_sub(apart) / gains.scale,
            hold: gains.hold.wrapping_sub(apart) / gains.scale,
        }
    }

    /// Whether a constraint is one.
    pub(crate) fn has(&self, constraint: &Constraint) -> bool {
        let least = if constraint.setup {
            self.setup
        } else {
            self.hold
        };
        constraint.weight >= least
    }

    /// Whether at most an eighth of the constraints are, by a look at some.
    pub(crate) fn are_few(&self, constraints: &[Constraint]) -> bool {
        let looked_at = constraints.iter().step_by(EACH);
        let strong = looked_at.filter(|constraint| self.has(constraint)).count();
        strong <= constraints.len() / EACH / 8
    }
}

/// The most that a constraint gains, by a look at some, or 0 where none gains that much.
pub(crate) fn greatest_gain(constraints: &[Constraint], gains: Gains) -> i128 {
    let looked_at = constraints.iter().step_by(EACH);
    let gained = looked_at.map(|constraint| {
        let due = if constraint.setup {
            gains.setup
        } else {
            gains.hold
        };
        let asked = gains.scale.wrapping_mul(constraint.weight);
        asked.wrapping_sub(due)
    });
    gained.max().unwrap_or(0).max(0)
}
