ghost use Rattle.std.specs.Prelude.{◌<◌, ◌+◌, length};
ghost use Rattle.place_down.specs.Vocabulary.{AreTreeSinks, IsTopology, IsMerged, IsFit, IsSettled, CanSettle, IsSettledBelow, StandFrom, StaysAbove, HasTreeNumbers, IsPlacedTree, IsTreeSource, StaysMerged};

use crate::source::top_of;
use cts_model::{Sink, Topology, Uv, to_uv};
use merge_up::Work;

/// Gives the nodes of a merged tree their places, and its edges their lengths: first the source,
/// then the root, then the two nodes of each merge, from the last merge to the first. It takes no
/// memory.
pub fn place(work: &mut Work, sinks: &[Sink], topology: &Topology, source: Uv)
    requires sinks { AreTreeSinks sinks.now }
    requires topology { IsTopology (length sinks.now) topology.now.merges }
    requires merged { IsMerged sinks.now topology.now.merges work.old }
    requires source { IsTreeSource source }
    ensures tree { IsPlacedTree sinks.now topology.now.merges source work.new.tree
        work.new.shows }
    ensures numbers { HasTreeNumbers work.new.tree }
    ensures settled { IsSettled work.new }
    ensures stays { StaysMerged work.old work.new }
    ensures merged { IsMerged sinks.now topology.now.merges work.new }
    ensures fit { IsFit work.new }
{
    let root = (2 * sinks.len() - 2) as u32;
    let top = top_of(sinks, source, work.reach(root));
    work.settle_source(source, top.reach, top.show);
    settle_below(work, root, top.reach, source);
    settle_merges(work, sinks, topology);
}

// From the last merge to the first.
fn settle_merges(work: &mut Work, sinks: &[Sink], topology: &Topology)
    requires sinks { AreTreeSinks sinks.now }
    requires topology { IsTopology (length sinks.now) topology.now.merges }
    requires stand { StandFrom sinks.now topology.now.merges (length topology.now.merges) work.old }
    ensures stand { StandFrom sinks.now topology.now.merges 0 work.new }
    ensures stays { StaysAbove work.old work.new }
{
    let mut place = topology.merges.len();
    while place > 0 {
        place -= 1;
        settle_joined(work, sinks, topology, place);
    }
}

// The two nodes that a merge joins.
fn settle_joined(work: &mut Work, sinks: &[Sink], topology: &Topology, place: usize)
    requires sinks { AreTreeSinks sinks.now }
    requires topology { IsTopology (length sinks.now) topology.now.merges }
    requires within { place < length topology.now.merges }
    requires stand { StandFrom sinks.now topology.now.merges (place + 1) work.old }
    ensures stand { StandFrom sinks.now topology.now.merges place work.new }
    ensures stays { StaysAbove work.old work.new }
{
    let merge = topology.merges.as_slice()[place];
    let parent = (sinks.len() + place) as u32;
    let reach = work.reach(parent);
    let at = to_uv(work.place(parent));
    settle_below(work, merge.first, reach, at);
    settle_below(work, merge.second, reach, at);
}

// A node below a parent that stands there and has that reach.
fn settle_below(work: &mut Work, node: u32, reach: i128, at: Uv)
    requires { CanSettle node reach at work.old }
    ensures { IsSettledBelow node reach at work.old work.new }
{
    let length = reach - work.reach(node);
    let found = work.region(node).nearest(at);
    work.settle(node, found, length);
}
