ghost use Rattle.safety_margin.specs.Vocabulary.{IsBelowAll, IsMarginAt, IsMarginPeriod, IsMeasureAt, IsSmallRatio};

use crate::sparing::product;
use critical_cycle::Measure;
use cts_base::Fraction;

/// What constraints weigh at a period: what they ask for. Each counts once.
pub(crate) fn measure_at(period: Fraction) -> Measure
    requires { IsMarginPeriod period }
    ensures { IsMeasureAt period result }
{
    Measure {
        scale: period.den(),
        period: period.num(),
        every: true,
    }
}

/// A ratio below that of any constraint.
pub(crate) fn below_all(period: Fraction) -> Fraction
    requires { IsMarginPeriod period }
    ensures { IsBelowAll period result }
{
    Fraction::of(-(product(period.den(), 100_000_000_000) + period.num()), 1)
}

/// The margin that a cycle of this ratio spares for each of its constraints.
pub(crate) fn margin_at(period: Fraction, ratio: Fraction) -> Fraction
    requires period { IsMarginPeriod period }
    requires ratio { IsSmallRatio period.den period.num ratio.num ratio.den }
    ensures { IsMarginAt period ratio result }
{
    Fraction::of(-ratio.num(), product(ratio.den(), period.den()))
}
