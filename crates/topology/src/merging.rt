ghost use Rattle.std.specs.Prelude.{◌≡◌, ◌+◌, ◌<◌, ◌^◌, List, [], length, IfOk, IfSome, IsNone};
ghost use Rattle.topology.specs.Vocabulary.{Sink, IsGreedy, AreTreeSinks, Pair, AreFirstSinks, AreKept, IsCheapestPair, IsMerging, IsPair, IsSwept};

use crate::axis::Axis;
use crate::ordered::Ordered;
use crate::pair::{Pair, costs_nothing};
use crate::queue::Queue;
use cts_base::{Listed, NoMemory};
use cts_model::{Merge, Sink, Topology};
use std::alloc::Global;
use tilted_rect::Cluster;

/// The topology that merges, again and again, the two clusters whose merging costs the least wire.
/// Of pairs that cost as much it merges that of the lower first node, and then of the lower second.
/// The clusters stand in order on the axis (`u`, `v`, reach) on which the fewest pairs of sinks are
/// near. A search looks at those that are near enough on it alone, and what it finds is kept until
/// a merge breaks it up. Sinks at one place with one offset cost nothing to merge: one sweep does
/// that first. Edahiro, "A Clustering-Based Optimization Algorithm in Zero-Skew Routings", 1993.
///
/// # Errors
///
/// There is no memory. Nothing else is refused.
pub fn greedy(alloc: Global, sinks: &[Sink]) -> Result<Topology, NoMemory>
    requires { AreTreeSinks sinks.now }
    ensures greedy { IfOk result (λ topology. IsGreedy sinks.now topology.merges) }
{
    let mut queue = Queue::new(alloc);
    let mut merges = Listed::new(alloc);
    let mut clusters = swept(alloc, sinks, &mut queue, &mut merges)?;
    for _merge in merges.len() + 1..sinks.len() {
        let pair = cheapest(&clusters, &mut queue).unwrap();
        merges.push(pair.merge())?;
        clusters = clusters.join(&pair)?;
        queue.push_found(clusters.nearest(clusters.count() - 1))?;
    }
    Ok(Topology { merges })
}

// The clusters that are left once all that cost nothing to merge are merged. These merges are put
// into the list, and the cheapest pair of each node into the queue.
fn swept(
    alloc: Global,
    sinks: &[Sink],
    queue: &mut Queue,
    merges: &mut Listed<Merge>,
) -> Result<Ordered, NoMemory>
    requires sinks { AreTreeSinks sinks.now }
    requires queue { queue.old ≡ [] }
    requires merges { merges.old ≡ [] }
    ensures { IfOk result (λ clusters. IsMerging sinks.now merges.new clusters.live queue.new) }
{
    let mut clusters = sink_clusters(alloc, sinks)?;
    let mut node = 0;
    while node < clusters.count() {
        clusters = sweep(clusters, queue, merges, node)?;
        node += 1;
    }
    clusters.live.early = clusters.count();
    Ok(clusters)
}

// A cluster for each sink alone, in order.
fn sink_clusters(alloc: Global, sinks: &[Sink]) -> Result<Ordered, NoMemory>
    requires { AreTreeSinks sinks.now }
    ensures { IfOk result
        (λ clusters. AreFirstSinks sinks.now (length sinks.now) clusters.live) }
{
    let mut clusters = Ordered::new(alloc, Axis::sparsest(alloc, sinks)?);
    for sink in sinks {
        clusters = clusters.add(Cluster::of(*sink))?;
    }
    Ok(clusters)
}

// Merges a node with the first later one where that costs nothing, and else keeps its cheapest
// pair.
fn sweep(
    clusters: Ordered,
    queue: &mut Queue,
    merges: &mut Listed<Merge>,
    node: u32,
) -> Result<Ordered, NoMemory>
    requires { length clusters.live.keys + 1 < 2 ^ 32 }
    ensures { IfOk result (λ next. (sinks : List Sink)
        → IsSwept sinks merges.old clusters.live queue.old node
        → IsSwept sinks merges.new next.live queue.new (node + 1)) }
{
    let found = clusters.nearest(node);
    if !costs_nothing(&found) {
        queue.push_found(found)?;
        return Ok(clusters);
    }
    let pair = found.unwrap();
    merges.push(pair.merge())?;
    clusters.join(&pair)
}

// The pair that is to be merged next. Pairs that were broken up by a merge are renewed where they
// come first.
fn cheapest(clusters: &Ordered, queue: &mut Queue) -> Option<Pair>
    requires { AreKept clusters.now.live queue.old }
    ensures found { IfSome result (IsCheapestPair clusters.now.live) }
    ensures none { IsNone result → (pair : Pair) → ¬ IsPair clusters.now.live pair }
    ensures kept { AreKept clusters.now.live queue.new }
{
    while let Some(pair) = queue.first() {
        if clusters.live.has(&pair) {
            return Some(pair);
        }
        queue.replace_first(clusters.nearest(clusters.live.owner(&pair)));
    }
    None
}
