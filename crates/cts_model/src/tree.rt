ghost use Rattle.std.specs.Prelude.{◌≡◌, ◌≤◌, ◌^◌, pos, All, length, slice_index_or};
ghost use Rattle.cts_model.specs.placement.Points.{IsBelow};
ghost use Rattle.cts_model.specs.tree.Embeddings.{total_length};

use crate::Point;
use cts_base::Listed;

/// Two nodes that get a common parent.
#[derive(Clone, Copy, Debug, PartialEq, Eq)]
pub struct Merge {
    /// The one with the lower number.
    pub first: u32,
    /// The other.
    pub second: u32,
}

/// Which nodes are merged. With n sinks the nodes below n are the sinks, by their registers'
/// numbers, and the merge at place k makes the node n + k. The last node made is the root, whose
/// edge comes from the source, node 2n - 1.
#[derive(Debug, Drop)]
pub struct Topology {
    /// The merges, in the order in which they are made.
    pub merges: Listed<Merge>,
}

/// What shows that no tree has a lower reach at a node.
#[derive(Clone, Copy, Debug, PartialEq, Eq)]
pub enum Show {
    /// Two sinks of a merge, the lower number first: half of their span is the reach.
    Pair(u32, u32),
    /// A sink whose distance from the source, with its offset, is the source's reach.
    Sink(u32),
    /// The source's reach is that of the root.
    Root,
}

/// The nodes of a tree, in grid steps.
#[derive(Debug, Drop)]
pub struct Tree {
    /// Of each node how long the wire down to any of its sinks is, with that sink's offset.
    pub reach: Listed<i128>,
    /// Where each node stands.
    pub place: Listed<Point>,
    /// How long the edge down to each node but the source is.
    pub length: Listed<i128>,
}

/// A drawn wire: the points where it begins, bends and ends.
#[derive(Clone, Copy, Debug, PartialEq, Eq)]
pub struct Wire {
    /// The points in the order of the wire, in grid steps. Those past `used` are (0, 0).
    pub corners: [Point; 5],
    /// How many of them the wire has.
    pub used: u8,
}

/// How long the edges of a tree are together, in grid steps. It takes no memory.
pub fn total_length(lengths: &[i128]) -> i128
    requires few { length lengths.now ≤ 8193 }
    requires small { All (IsBelow (10 ^ 32)) lengths.now }
    ensures value { result ≡ total_length (λ node. slice_index_or lengths.now node (pos 0))
        (length lengths.now) }
    ensures below { IsBelow (10 ^ 36) result }
{
    let mut total = 0;
    for length in lengths {
        total += *length;
    }
    total
}
