ghost use Rattle.std.specs.Prelude.{MatchOption};
ghost use Rattle.critical_cycle.specs.ShownRatios.{IsGreatestShown, IsNeverAtAll};

use cts_base::Fraction;

/// What a search for the greatest ratio has shown so far.
#[derive(Clone, Copy, Debug)]
pub(crate) enum Shown {
    /// No cycle has a greater ratio than the first.
    First,
    /// A cycle has this ratio.
    Value(Fraction),
    /// No ratio is enough for a cycle.
    Never,
}

impl Shown {
    /// The greatest ratio shown, if some ratio may be enough.
    pub(crate) fn ratio(self, first: Fraction) -> Option<Fraction>
        ensures { MatchOption result (IsNeverAtAll self) (IsGreatestShown first self) }
    {
        match self {
            Shown::First => Some(first),
            Shown::Value(value) => Some(value),
            Shown::Never => None,
        }
    }
}
