ghost use Rattle.std.specs.Prelude.{◌≡◌, ◌^◌, List, [], ◌∷◌, ◌+ℤ◌, ◌-ℤ◌, ◌≤ℤ◌};
ghost use Rattle.cts_model.specs.Vocabulary.{IsBelow, IsMultipleOf};
ghost use Rattle.tilted_rect.specs.Clusters.{HasTreeSinks};

use crate::Rect;
use cts_model::{Sink, half};

/// What merging needs of the sinks below a node.
#[derive(Clone, Copy, Debug, PartialEq, Eq)]
pub struct Cluster {
    /// How long the wire from the node down to any of its sinks is, with that sink's offset.
    pub reach: i128,
    /// Where the node may stand.
    pub region: Rect,
    pub ghost below: { IsBelow (10 ^ 32) reach },
    pub ghost multiple: { IsMultipleOf 4 reach },
    pub ghost sinks: { ∥ HasTreeSinks reach region ∥₁ },
}

impl Cluster {
    ghost use Rattle.tilted_rect.specs.Vocabulary.{Sink, IsDoubleReach, IsUnion, IsTreeSink, IsGrown, IsCluster, cost_of};

    /// The cluster of a sink alone. It takes no memory.
    pub fn of(sink: Sink) -> Cluster
        requires { IsTreeSink sink }
        ensures alone { IsCluster (sink ∷ []) result }
    {
        Cluster {
            reach: sink.offset,
            region: Rect::point(sink.at),
        }
    }

    /// What the wire of a tree grows by where two clusters are merged. It takes no memory.
    pub fn cost(&self, other: &Cluster) -> i128
        ensures value { result ≡ cost_of self.now other.now }
        ensures reach { (first second both : List Sink) → IsUnion first second both
            → IsCluster first self.now → IsCluster second other.now
            → IsDoubleReach both (self.now.reach +ℤ other.now.reach +ℤ result) }
        ensures below { IsBelow (10 ^ 34) result }
    {
        let gap = self.region.gap(other.region);
        gap.max(self.reach - other.reach)
            .max(other.reach - self.reach)
    }

    /// The cluster of the sinks of two clusters. It takes no memory.
    pub fn joined(&self, other: &Cluster) -> Cluster
        ensures both { (first second both : List Sink) → IsUnion first second both
            → IsCluster first self.now → IsCluster second other.now → IsCluster both result }
    {
        let reach = self.joined_reach(other);
        let common = self.grown_to(reach).meet(other.grown_to(reach));
        Cluster {
            reach,
            region: common.unwrap(),
        }
    }

    // The reach of the sinks of two clusters.
    fn joined_reach(&self, other: &Cluster) -> i128
        ensures both { (first second both : List Sink) → IsUnion first second both
            → IsCluster first self.now → IsCluster second other.now
            → IsDoubleReach both (result +ℤ result) }
        ensures below { IsBelow (10 ^ 32) result }
        ensures multiple { IsMultipleOf 4 result }
        ensures least { self.now.reach ≤ℤ result }
        ensures other_least { other.now.reach ≤ℤ result }
    {
        half(self.reach + other.reach + self.cost(other))
    }

    // Where a node with that reach may stand above the sinks.
    fn grown_to(&self, reach: i128) -> Rect
        requires below { IsBelow (10 ^ 32) reach }
        requires multiple { IsMultipleOf 4 reach }
        requires least { self.now.reach ≤ℤ reach }
        ensures { IsGrown self.now.region (reach -ℤ self.now.reach) result }
    {
        self.region.grown(reach - self.reach)
    }
}
