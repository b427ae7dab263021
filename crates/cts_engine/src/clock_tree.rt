ghost use Rattle.std.specs.Prelude.{IfOk, length};
ghost use Rattle.cts_engine.specs.Vocabulary.{AreTreeSinks, IsTopology, IsTreeSource, IsClockTree, IsMadeTree};

use crate::wires::wires_of;
use cts_base::{Listed, NoMemory};
use cts_model::{Show, Sink, Topology, Tree, Uv, Wire, total_length};
use merge_up::{Work, merge};
use place_down::place;
use std::alloc::Global;

/// The tree of a topology, as a report has it.
#[derive(Drop)]
pub(crate) struct ClockTree {
    pub(crate) tree: Tree,
    pub(crate) shows: Listed<Show>,
    pub(crate) wires: Listed<Wire>,
    pub(crate) total: i128,
}

/// The tree of a topology over sinks, embedded with the least wire, and its drawn wires.
pub(crate) fn tree_with(
    alloc: Global,
    sinks: &[Sink],
    topology: &Topology,
    source: Uv,
) -> Result<ClockTree, NoMemory>
    requires sinks { AreTreeSinks sinks.now }
    requires topology { IsTopology (length sinks.now) topology.now.merges }
    requires source { IsTreeSource source }
    ensures { IfOk result (IsClockTree sinks.now topology.now.merges source) }
{
    let (tree, shows) = placed(alloc, sinks, topology, source)?;
    let wires = wires_of(alloc, sinks.len(), topology, &tree)?;
    let total = total_length(tree.length.as_slice());
    Ok(ClockTree {
        tree,
        shows,
        wires,
        total,
    })
}

// The tree of a topology, with what shows its reaches.
fn placed(
    alloc: Global,
    sinks: &[Sink],
    topology: &Topology,
    source: Uv,
) -> Result<(Tree, Listed<Show>), NoMemory>
    requires sinks { AreTreeSinks sinks.now }
    requires topology { IsTopology (length sinks.now) topology.now.merges }
    requires source { IsTreeSource source }
    ensures { IfOk result (λ parts.
        IsMadeTree sinks.now topology.now.merges source parts.0 parts.1) }
{
    let mut work = Work::with_room(alloc, sinks.len())?;
    merge(&mut work, sinks, topology);
    place(&mut work, sinks, topology, source);
    Ok(work.into_parts())
}
