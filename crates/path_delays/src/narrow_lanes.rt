ghost use Rattle.std.specs.Prelude.{◌≡◌, pos, ◌+ℤ◌, ◌≤ℤ◌};
ghost use Rattle.path_delays.specs.Vocabulary.{int_min, int_max, IsWithin, narrow_limit, wide_lanes};

use crate::lanes::{LANES, Lane};
use crate::row::Row;
use crate::sums::Sums;

/// The least sum of 32 bits that stands for none, and below it the greatest.
const FAR: i32 = 1 << 30;

/// What the sums that stand for none are further away in 64 bits.
const FURTHER: i64 = 1_000_000_000_000 - (1 << 30);

/// A sum of 32 bits, in ticks.
#[derive(Clone, Copy, Debug)]
pub(crate) struct Ticks {
    ticks: i32,
}

impl Ticks {
    // The lesser of both.
    fn lesser(self, other: Ticks) -> Ticks
        ensures { result.ticks ≡ int_min self.ticks other.ticks }
    {
        Ticks {
            ticks: self.ticks.min(other.ticks),
        }
    }

    // The greater of both.
    fn greater(self, other: Ticks) -> Ticks
        ensures { result.ticks ≡ int_max self.ticks other.ticks }
    {
        Ticks {
            ticks: self.ticks.max(other.ticks),
        }
    }

    // The sum after a delay.
    fn after(self, delay: Ticks) -> Ticks
        requires sum { self.ticks ≤ℤ pos 1610612735 }
        requires delay { IsWithin 0 536870911 delay.ticks }
        ensures { result.ticks ≡ self.ticks +ℤ delay.ticks }
    {
        Ticks {
            ticks: self.ticks + delay.ticks,
        }
    }
}

// A sum that 32 bits hold.
fn narrow(ticks: i64) -> Ticks
    requires { IsWithin 0 536870911 ticks }
    ensures { result.ticks ≡ ticks }
{
    Ticks {
        ticks: ticks as i32,
    }
}

/// The sums to a signal from several registers, in a lane each, where the greatest delays of all
/// gates together, and a million ticks for the register, are at most 2^29 - 1: the least sums of
/// all lanes side by side, and the greatest.
#[derive(Clone, Copy, Debug)]
pub(crate) struct NarrowLanes {
    least: [Ticks; 16],
    greatest: [Ticks; 16],
}

impl Row for NarrowLanes {
    ghost wide = { wide_lanes };

    ghost limit = { narrow_limit };

    fn none() -> NarrowLanes {
        NarrowLanes {
            least: [Ticks { ticks: FAR }; 16],
            greatest: [Ticks { ticks: -FAR }; 16],
        }
    }

    fn in_lane(&self, lane: Lane) -> Option<Sums> {
        let greatest = i64::from(self.greatest[lane.number].ticks);
        if greatest < 0 {
            return None;
        }
        let least = i64::from(self.least[lane.number].ticks);
        let least = if least < i64::from(FAR) {
            least
        } else {
            least + FURTHER
        };
        Some(Sums { least, greatest })
    }

    fn filled(&self) -> [bool; 16] {
        let mut filled = [false; LANES];
        for lane in 0..LANES {
            filled[lane] = self.greatest[lane].ticks >= 0;
        }
        filled
    }

    fn join(&mut self, lane: Lane, sums: Sums) {
        self.least[lane.number] = self.least[lane.number].lesser(narrow(sums.least));
        self.greatest[lane.number] = self.greatest[lane.number].greater(narrow(sums.greatest));
    }

    fn pass(&mut self, delay: Sums) {
        let least = narrow(delay.least);
        let greatest = narrow(delay.greatest);
        for lane in 0..LANES {
            self.least[lane] = self.least[lane].after(least);
            self.greatest[lane] = self.greatest[lane].after(greatest);
        }
    }

    // Within the step over a gate this becomes a few instructions for all lanes; a call of its own
    // takes them one by one.
    #[inline(always)]
    fn merge(&mut self, other: &NarrowLanes) {
        for lane in 0..LANES {
            self.least[lane] = self.least[lane].lesser(other.least[lane]);
            self.greatest[lane] = self.greatest[lane].greater(other.greatest[lane]);
        }
    }
}
