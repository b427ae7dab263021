ghost use Rattle.std.specs.Prelude.{◌<◌, ◌≤◌, ◌+◌, length};

use crate::row::Row;
use crate::sums::Sums;

/// From how many registers a walk goes at once.
pub(crate) const LANES: usize = 16;

/// A lane of a walk.
#[derive(Clone, Copy)]
pub(crate) struct Lane {
    pub(crate) number: usize,
    pub(crate) ghost low: { number < 16 },
}

/// Up to sixteen items, for each of which a walk has a lane.
#[derive(Drop)]
pub(crate) struct Block<'a, T> {
    pub(crate) items: &'a [T],
    pub(crate) ghost few: { length items.now ≤ 16 },
}

/// The sums to a signal from several registers, in a lane each.
#[derive(Clone, Copy, Debug)]
pub(crate) struct Lanes {
    pub(crate) sums: [Sums; 16],
}

/// The sums in each lane, where there are any.
#[derive(Clone, Copy, Debug)]
pub(crate) struct LaneSums {
    pub(crate) sums: [Option<Sums>; 16],
}

impl Row for Lanes {
    ghost use Rattle.path_delays.specs.SumParts.{delay_limit};

    ghost wide = { λ lanes. lanes };

    ghost limit = { delay_limit };

    fn none() -> Lanes {
        Lanes {
            sums: [Sums::none(); 16],
        }
    }

    fn in_lane(&self, lane: Lane) -> Option<Sums> {
        self.sums[lane.number].some()
    }

    fn filled(&self) -> [bool; 16] {
        let mut filled = [false; LANES];
        for lane in 0..LANES {
            filled[lane] = self.sums[lane].greatest >= 0;
        }
        filled
    }

    fn join(&mut self, lane: Lane, sums: Sums) {
        self.sums[lane.number] = self.sums[lane.number].merged(sums);
    }

    fn pass(&mut self, delay: Sums) {
        for lane in 0..LANES {
            self.sums[lane] = self.sums[lane].through(delay);
        }
    }

    // Within the step over a gate this becomes a few instructions for all lanes; a call of its own
    // takes them one by one.
    #[inline(always)]
    fn merge(&mut self, other: &Lanes) {
        for lane in 0..LANES {
            self.sums[lane] = self.sums[lane].merged(other.sums[lane]);
        }
    }
}

/// Where a block of up to sixteen ends that begins at a place below the number of all.
pub(crate) fn block_end(first: usize, count: usize) -> usize
    requires { first < count }
    ensures after { first < result }
    ensures within { result ≤ count }
    ensures few { result ≤ first + 16 }
{
    first + (count - first).min(LANES)
}
