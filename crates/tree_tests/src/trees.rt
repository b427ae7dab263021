ghost use Rattle.std.specs.Prelude.{◌≡◌, ◌+◌, ◌<◌, ◌^◌, length, IsTrue};
ghost use Rattle.cts_model.specs.Vocabulary.{IsBelow, IsMultipleOf, AreTreeSinks, IsTreeSink, IsLive, IsMerge, IsTopology};

use crate::same::made;
use cts_base::Listed;
use cts_model::{Merge, Sink, Topology, Uv};
use std::alloc::Global;
use std::process::Abort;

// The number, which a sink may have as a coordinate or an offset.
fn step(rt: &impl Abort, number: i128) -> i128
    ensures below { IsBelow (10 ^ 31) result }
    ensures multiple { IsMultipleOf 8 result }
    ensures same { result ≡ number }
{
    assert!(rt; number < 10_000_000_000_000_000_000_000_000_000_000);
    assert!(rt; number > -10_000_000_000_000_000_000_000_000_000_000);
    assert!(rt; number % 8 == 0);
    number
}

/// A sink at these rotated coordinates, with its offset, in grid steps.
pub(crate) fn sink(rt: &impl Abort, place: (i128, i128, i128)) -> Sink
    ensures { IsTreeSink result }
{
    let (u, v, offset) = place;
    Sink {
        at: Uv {
            u: step(rt, u),
            v: step(rt, v),
        },
        offset: step(rt, offset),
    }
}

/// The sinks at these places, with these offsets.
pub(crate) fn sinks_of(rt: &impl Abort, alloc: Global, places: &[(i128, i128, i128)]) -> Vec<Sink>
    ensures sinks { AreTreeSinks result.items }
    ensures count { length result.items ≡ length places.now }
{
    assert!(rt; places.len() >= 1);
    assert!(rt; places.len() <= 4097);
    let mut sinks = Vec::new(alloc);
    for place in places {
        made(rt, sinks.push(sink(rt, *place)));
    }
    sinks
}

// Whether a node is there, and no merge joins it.
fn is_live(sinks: usize, merges: &[Merge], node: u32) -> bool
    requires { sinks + length merges.now < 2 ^ 32 }
    ensures { IsTrue result → IsLive sinks merges.now node }
{
    (node as usize) < sinks + merges.len()
        && merges
            .iter()
            .all(|merge| merge.first != node && merge.second != node)
}

// The merge of two live nodes.
fn joining(rt: &impl Abort, sinks: usize, earlier: &[Merge], nodes: (u32, u32)) -> Merge
    requires { sinks + length earlier.now < 2 ^ 32 }
    ensures { IsMerge sinks earlier.now result }
{
    let (first, second) = nodes;
    assert!(rt; first < second);
    assert!(rt; is_live(sinks, earlier, first));
    assert!(rt; is_live(sinks, earlier, second));
    Merge { first, second }
}

/// The topology with these merges.
pub(crate) fn topology_of(
    rt: &impl Abort,
    alloc: Global,
    sinks: usize,
    merges: &[(u32, u32)],
) -> Topology
    ensures topology { IsTopology sinks result.merges }
    ensures count { length result.merges ≡ length merges.now }
{
    assert!(rt; merges.len() <= 4096);
    assert!(rt; sinks == merges.len() + 1);
    let mut joined = Listed::new(alloc);
    for nodes in merges {
        let merge = joining(rt, sinks, joined.as_slice(), *nodes);
        made(rt, joined.push(merge));
    }
    Topology { merges: joined }
}
