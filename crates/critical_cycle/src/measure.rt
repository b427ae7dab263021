ghost use Rattle.critical_cycle.specs.RatioSizes.{IsMeasure};

use crate::sums::product;
use cts_base::Fraction;
use relaxation::Gains;

/// What a search weighs and counts. A constraint weighs its weight in ticks times the scale, less
/// the period where it is a setup constraint. A setup constraint counts once, a hold constraint
/// only where every constraint counts. The ratio of a cycle is its weight over its count.
#[derive(Clone, Copy, Debug, PartialEq, Eq)]
pub struct Measure {
    /// From 1 to 10,000.
    pub scale: i128,
    /// In ticks over the scale, from 0 on and below 10^15.
    pub period: i128,
    /// Whether hold constraints count too.
    pub every: bool,
    pub ghost valid: { IsMeasure scale period },
}

impl Measure {
    ghost use Rattle.std.specs.Prelude.{◌≡◌, pos, if◌then◌else◌};
    ghost use Rattle.critical_cycle.specs.Measures.{CanTry, IsTrialAt};

    /// The trial of a ratio.
    pub(crate) fn trial(self, ratio: Fraction) -> Gains
        requires { CanTry self ratio }
        ensures { IsTrialAt self ratio result }
    {
        Gains {
            scale: product(ratio.den(), self.scale),
            setup: product(ratio.den(), self.period) + ratio.num(),
            hold: self.counted_by_hold(ratio),
        }
    }

    // What a hold constraint counts at the ratio.
    fn counted_by_hold(self, ratio: Fraction) -> i128
        ensures { result ≡ (if self.every then ratio.num else pos 0) }
    {
        if self.every { ratio.num() } else { 0 }
    }
}
