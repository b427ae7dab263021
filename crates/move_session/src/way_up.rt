ghost use Rattle.std.specs.Prelude.{◌≡◌, ℕ, ◌<◌, ◌+◌, ◌-◌, ◌^◌, min, length};
ghost use Rattle.move_session.specs.Vocabulary.{AreTreeSinks, IsTopology, IsMerged, KeepsAllEnds, KeepsEnds, IsFit, IsMergedBeside, IsStep, merges_above};

use cts_model::{Sink, Topology};
use merge_up::Work;

/// Renews the merges that have a sink below them, from the sink up to the root. A node's parent
/// stands later in the list than the node, so each merge is looked at once. It takes no memory.
pub(crate) fn renew_above(work: &mut Work, sinks: &[Sink], topology: &Topology, register: u32)
    requires sinks { AreTreeSinks sinks.now }
    requires topology { IsTopology (length sinks.now) topology.now.merges }
    requires register { register < length sinks.now }
    requires fit { IsFit work.old }
    requires beside { IsMergedBeside sinks.now topology.now.merges register work.old }
    ensures merged { IsMerged sinks.now topology.now.merges work.new }
    ensures kept { KeepsAllEnds sinks.now topology.now.merges work.new }
    ensures room { work.new.room ≡ work.old.room }
    ensures renewals { work.new.renewals ≡ min (work.old.renewals
        + merges_above (length sinks.now) topology.now.merges register) (2 ^ 64 - 1) }
{
    let mut node = register;
    for place in 0..topology.merges.len() {
        node = renew_joining(work, sinks, topology, place, node);
    }
}

// Renews the merge at a place if it joins the node, and answers what to look for from there on.
fn renew_joining(
    work: &mut Work,
    sinks: &[Sink],
    topology: &Topology,
    place: usize,
    node: u32,
) -> u32
    requires sinks { AreTreeSinks sinks.now }
    requires topology { IsTopology (length sinks.now) topology.now.merges }
    requires count { work.old.sinks ≡ length sinks.now }
    requires within { place < length topology.now.merges }
    requires kept { (lower : ℕ) → lower < place
        → KeepsEnds sinks.now topology.now.merges work.old lower }
    ensures { IsStep sinks.now topology.now.merges place node work.old work.new result }
{
    let merge = topology.merges.as_slice()[place];
    if merge.first != node && merge.second != node {
        return node;
    }
    let parent = (sinks.len() + place) as u32;
    work.renew_from_kept(sinks, topology, parent);
    parent
}
