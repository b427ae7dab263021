ghost use Rattle.std.specs.Prelude.{◌≡◌, ◌+◌, ◌*◌, ◌^◌, ℕ, pos, ◌+ℤ◌, ◌*ℤ◌, nat_abs};
ghost use Rattle.path_delays.specs.Vocabulary.{IsBelow, IsWithin, AreWithin, IsWindowBelow, either_window, merged_windows, window_after};

use crate::sums::Sums;

/// When what is launched comes to a place, in ticks over a scale.
#[derive(Clone, Copy, Debug, PartialEq, Eq)]
pub struct Window {
    /// The first time at which any of it comes.
    pub earliest: i128,
    /// The last time.
    pub latest: i128,
}

/// What times in ticks are over.
#[derive(Clone, Copy)]
pub(crate) struct Scale {
    pub(crate) den: i128,
    pub(crate) ghost small: { IsWithin 1 4097 den },
}

impl Window {
    /// The window after a delay in ticks.
    pub(crate) fn suffix(self, delay: Sums, scale: Scale) -> Window
        requires window { IsWindowBelow (2 * 10 ^ 19) self }
        requires delay { AreWithin 2024000 delay }
        ensures suffix { result ≡ window_after (nat_abs scale.den) delay self }
        ensures small { (bound : ℕ) → IsWindowBelow bound self
            → IsWindowBelow (bound + 10 ^ 10) result }
    {
        Window {
            earliest: scale.later(self.earliest, delay.least),
            latest: scale.later(self.latest, delay.greatest),
        }
    }

    /// From the earlier to the later of both.
    pub(crate) fn merged(self, other: Window) -> Window
        ensures { result ≡ merged_windows self other }
    {
        Window {
            earliest: self.earliest.min(other.earliest),
            latest: self.latest.max(other.latest),
        }
    }

    /// From the earlier to the later of both, or the one that there is.
    pub(crate) fn either(known: Option<Window>, found: Option<Window>) -> Option<Window>
        ensures { result ≡ either_window known found }
    {
        match (known, found) {
            (Some(known), Some(found)) => Some(known.merged(found)),
            (None, found) => found,
            (known, None) => known,
        }
    }
}

impl Scale {
    // A time, and a delay in ticks after it.
    fn later(self, time: i128, delay: i64) -> i128
        requires time { IsBelow (2 * 10 ^ 19) time }
        requires delay { IsWithin 0 2024000 delay }
        ensures later { result ≡ (time +ℤ (pos (nat_abs self.den) *ℤ delay)) }
        ensures small { (bound : ℕ) → IsBelow bound time → IsBelow (bound + 10 ^ 10) result }
    {
        time + self.den * i128::from(delay)
    }
}
