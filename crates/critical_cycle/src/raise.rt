ghost use Rattle.critical_cycle.specs.Vocabulary.{CanTry, IsRaise, constraints_at};

use crate::cycle::Cycle;
use crate::measure::Measure;
use crate::shown::Shown;
use crate::sums::Sums;
use cts_base::Fraction;

/// What the cycle with constraints at these places shows where a ratio is the first: nothing, its
/// own ratio if that is greater, or that no ratio is enough.
pub(crate) fn raise_by(measure: Measure, ratio: Fraction, cycle: &Cycle<'_>) -> Shown
    requires { CanTry measure ratio }
    ensures { IsRaise measure ratio (constraints_at cycle.now.constraints.now cycle.now.places.now)
        result }
{
    let sums = Sums::of(measure, cycle);
    if !sums.exceed(ratio) {
        return Shown::First;
    }
    if sums.count == 0 {
        return Shown::Never;
    }
    Shown::Value(Fraction::of(sums.weight, sums.count))
}
