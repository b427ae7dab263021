ghost use Rattle.std.specs.Prelude.{◌≡◌, ◌^◌, ◌↔◌, IsTrue, pos, ◌*ℤ◌, ◌<ℤ◌};
ghost use Rattle.cts_model.specs.Vocabulary.{IsBelow};

use crate::cycle::Cycle;
use crate::measure::Measure;
use cts_base::Fraction;

/// What the constraints of a cycle sum to in a measure.
#[derive(Clone, Copy)]
pub(crate) struct Sums {
    /// What they weigh.
    pub(crate) weight: i128,
    /// How often they count.
    pub(crate) count: i128,
    pub(crate) ghost weight_small: { IsBelow (2 ^ 63) weight },
    pub(crate) ghost count_small: { IsBelow (2 ^ 63) count },
}

impl Sums {
    ghost use Rattle.critical_cycle.specs.Vocabulary.{constraints_at, cycle_count, cycle_weight};

    /// The sums of a cycle.
    pub(crate) fn of(measure: Measure, cycle: &Cycle<'_>) -> Sums
        ensures weight { result.weight ≡ cycle_weight measure
            (constraints_at cycle.now.constraints.now cycle.now.places.now) }
        ensures count { result.count ≡ pos (cycle_count measure
            (constraints_at cycle.now.constraints.now cycle.now.places.now)) }
    {
        let mut ticks = 0;
        let mut setups = 0;
        for place in cycle.places {
            let constraint = &cycle.constraints[*place as usize];
            ticks += constraint.weight;
            setups += if constraint.setup { 1 } else { 0 };
        }
        let every = cycle.places.len() as i128;
        Sums {
            weight: product(measure.scale, ticks) - product(measure.period, setups),
            count: if measure.every { every } else { setups },
        }
    }

    /// Whether the constraints weigh more than they count at the ratio.
    pub(crate) fn exceed(self, ratio: Fraction) -> bool
        requires num { IsBelow (2 ^ 63) ratio.num }
        requires den { IsBelow (2 ^ 63) ratio.den }
        ensures { IsTrue result ↔ ((self.count *ℤ ratio.num) <ℤ (self.weight *ℤ ratio.den)) }
    {
        product(self.count, ratio.num()) < product(self.weight, ratio.den())
    }
}

/// The product of two numbers.
pub(crate) fn product(a: i128, b: i128) -> i128
    requires a { IsBelow (2 ^ 63) a }
    requires b { IsBelow (2 ^ 63) b }
    ensures value { result ≡ a *ℤ b }
    ensures small { IsBelow (2 ^ 126) result }
{
    a * b
}
