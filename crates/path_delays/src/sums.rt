ghost use Rattle.std.specs.Prelude.{◌≡◌};
ghost use Rattle.path_delays.specs.Vocabulary.{AreBounded, AreWithin, delay_limit, merged_sums, no_sums, some_sums, sums_through, extreme_of};

/// The least and the greatest sum of delays along what leads from a register to a signal, in ticks.
#[derive(Clone, Copy, Debug, PartialEq, Eq)]
pub(crate) struct Sums {
    pub(crate) least: i64,
    pub(crate) greatest: i64,
}

impl Sums {
    /// No sums yet: merged with others it gives those.
    pub(crate) fn none() -> Sums
        ensures { result ≡ no_sums }
    {
        Sums {
            least: 1_000_000_000_000,
            greatest: -1_000_000_000_000,
        }
    }

    /// The sums, if there are any.
    pub(crate) fn some(self) -> Option<Sums>
        ensures { result ≡ some_sums self }
    {
        if self.greatest < 0 { None } else { Some(self) }
    }

    /// The sums after one more gate.
    pub(crate) fn through(self, delay: Sums) -> Sums
        requires sums { AreBounded delay_limit self }
        requires delay { AreWithin delay_limit delay }
        ensures { result ≡ sums_through self delay }
    {
        Sums {
            least: self.least + delay.least,
            greatest: self.greatest + delay.greatest,
        }
    }

    /// The least and the greatest of both.
    pub(crate) fn merged(self, other: Sums) -> Sums
        ensures { result ≡ merged_sums self other }
    {
        Sums {
            least: self.least.min(other.least),
            greatest: self.greatest.max(other.greatest),
        }
    }

    /// The greatest or the least.
    pub(crate) fn extreme(self, greatest: bool) -> i64
        ensures { result ≡ extreme_of greatest self }
    {
        if greatest { self.greatest } else { self.least }
    }
}
