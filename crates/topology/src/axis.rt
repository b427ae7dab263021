ghost use Rattle.std.specs.Prelude.{◌≡◌, ◌<◌, ◌≤◌, length};
ghost use Rattle.topology.specs.Vocabulary.{IsBelow, AreTreeSinks, bound, high_on, low_on};

use cts_base::NoMemory;
use cts_model::Sink;
use std::alloc::Global;
use tilted_rect::Cluster;

/// What clusters may stand in order by: merging two costs no less than they are apart on any axis.
#[derive(Clone, Copy, PartialEq, Eq)]
pub(crate) enum Axis {
    /// The rotated coordinate `u` of the region.
    U,
    /// The rotated coordinate `v` of the region.
    V,
    /// The reach, a single number.
    Reach,
}

impl Axis {
    /// Where a cluster begins.
    pub(crate) fn low(self, cluster: &Cluster) -> i128
        ensures value { result ≡ low_on self cluster.now }
        ensures below { IsBelow bound result }
    {
        match self {
            Axis::U => cluster.region.ulo,
            Axis::V => cluster.region.vlo,
            Axis::Reach => cluster.reach,
        }
    }

    /// Where a cluster ends.
    pub(crate) fn high(self, cluster: &Cluster) -> i128
        ensures value { result ≡ high_on self cluster.now }
        ensures below { IsBelow bound result }
    {
        match self {
            Axis::U => cluster.region.uhi,
            Axis::V => cluster.region.vhi,
            Axis::Reach => cluster.reach,
        }
    }

    /// The axis on which the fewest pairs of sinks are near: no further apart than about the root of
    /// their number span in the middle of the axis where that is the most. All sinks count, and one
    /// that is far away counts as one. Any axis serves.
    pub(crate) fn sparsest(alloc: Global, sinks: &[Sink]) -> Result<Axis, NoMemory>
        requires { AreTreeSinks sinks.now }
    {
        let u = Axis::U.lows(alloc, sinks)?;
        let v = Axis::V.lows(alloc, sinks)?;
        let reach = Axis::Reach.lows(alloc, sinks)?;
        let near = spacing(alloc, &u)?;
        let near = near.max(spacing(alloc, &v)?);
        let near = near.max(spacing(alloc, &reach)?);
        let on_u = near_pairs(&u, near);
        let on_v = near_pairs(&v, near);
        Ok(fewest(on_u, on_v, near_pairs(&reach, near)))
    }

    // Where the clusters of the sinks begin, ascending.
    fn lows(self, alloc: Global, sinks: &[Sink]) -> Result<Vec<i128>, NoMemory>
        requires { AreTreeSinks sinks.now }
    {
        let mut lows = Vec::new(alloc);
        for sink in sinks {
            lows.push(self.low(&Cluster::of(*sink)))?;
        }
        lows.sort_unstable();
        Ok(lows)
    }
}

// The axis with the fewest pairs.
fn fewest(on_u: u64, on_v: u64, on_reach: u64) -> Axis {
    if on_reach < on_u.min(on_v) {
        Axis::Reach
    } else if on_v < on_u {
        Axis::V
    } else {
        Axis::U
    }
}

// The middle one of the distances that so many of the ascending numbers span as the root of how
// many there are, or somewhat fewer.
fn spacing(alloc: Global, lows: &[i128]) -> Result<u128, NoMemory> {
    let apart = 1 << (lows.len().max(1).ilog2() / 2);
    let mut spans = Vec::new(alloc);
    for place in apart..lows.len() {
        spans.push(lows[place].abs_diff(lows[place - apart]))?;
    }
    spans.sort_unstable();
    Ok(spans.get(spans.len() / 2).copied().unwrap_or(0))
}

// How many pairs of ascending numbers are no further apart than that.
fn near_pairs(lows: &[i128], near: u128) -> u64 {
    let mut pairs = 0u64;
    let mut from = 0;
    for place in 0..lows.len() {
        from = first_near(lows, from, place, near);
        pairs = pairs.saturating_add((place - from) as u64);
    }
    pairs
}

// The first place from there on whose number is as near to that at the last one.
fn first_near(lows: &[i128], from: usize, last: usize, near: u128) -> usize
    requires { last < length lows.now }
    ensures { result ≤ last }
{
    for place in from..last {
        if lows[last].abs_diff(lows[place]) <= near {
            return place;
        }
    }
    last
}
