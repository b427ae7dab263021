ghost use Rattle.std.specs.Prelude.{◌≡◌, ◌<◌, ◌≤◌, ◌+◌, ◌*◌, All, IfOk, length};
ghost use Rattle.cts_engine.specs.Vocabulary.{embedding_of, IsSmallWire, IsTopology, AreDrawn, CanDraw, CanDrawEdge, IsEdgeDrawn};

use cts_base::{Listed, NoMemory};
use cts_model::{Point, Topology, Tree, Wire};
use std::alloc::Global;
use wire_detours::wire;

/// The drawn wire of each edge of a tree over so many sinks, by its lower node.
pub(crate) fn wires_of(
    alloc: Global,
    sinks: usize,
    topology: &Topology,
    tree: &Tree,
) -> Result<Listed<Wire>, NoMemory>
    requires few { sinks ≤ 4097 }
    requires topology { IsTopology sinks topology.now.merges }
    requires tree { CanDraw sinks topology.now.merges tree.now }
    ensures drawn { IfOk result
        (AreDrawn sinks topology.now.merges (embedding_of tree.now)) }
    ensures small { IfOk result (All IsSmallWire) }
    ensures all { IfOk result (λ wires. length wires + 1 ≡ 2 * sinks) }
{
    let mut wires = Listed::from_vec(vec![in alloc; no_wire(); 2 * sinks - 1]?);
    let mut parent = sinks;
    for merge in topology.merges.as_slice() {
        draw(&mut wires, tree, merge.first as usize, parent);
        draw(&mut wires, tree, merge.second as usize, parent);
        parent += 1;
    }
    draw(&mut wires, tree, 2 * sinks - 2, 2 * sinks - 1);
    Ok(wires)
}

// The wire of no length where both coordinates are 0.
fn no_wire() -> Wire
    ensures { IsSmallWire result }
{
    Wire {
        corners: [Point { x: 0, y: 0 }; 5],
        used: 1,
    }
}

// Draws the edge from a node's parent to the node.
fn draw(wires: &mut Listed<Wire>, tree: &Tree, node: usize, parent: usize)
    requires edge { CanDrawEdge tree.now node parent }
    requires node { node < length wires.old }
    ensures { IsEdgeDrawn tree.now node parent wires.old wires.new }
{
    let places = tree.place.as_slice();
    let wire = wire(places[parent], places[node], tree.length.as_slice()[node]);
    wires.set(node, wire);
}
