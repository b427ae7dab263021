ghost use Rattle.std.specs.Prelude.{◌≡◌, ◌<◌, true, false, IfOk, length, replicate, slice_set};

use cts_base::NoMemory;
use std::alloc::Global;
use std::marker::Model;

/// Which nodes have their places. To forget them takes no time where none has.
#[derive(Drop)]
pub(crate) struct Settled {
    nodes: Vec<bool>,
    // Whether there may be any.
    some: bool,
}

impl Model for Settled {
    ghost use Rattle.std.specs.Prelude.{List, Bool};
    ghost use Rattle.merge_up.specs.SettledNodes.{nodes_of, IsNoneUnlessSome};

    ghost Value = { List Bool };

    ghost view = { nodes_of };

    ghost invariant = { IsNoneUnlessSome };
}

impl Settled {
    /// Room for that many nodes, of which none has its place.
    pub(crate) fn with_room(alloc: Global, nodes: usize) -> Result<Settled, NoMemory>
        ensures { IfOk result (λ settled. settled ≡ replicate nodes false) }
    {
        Ok(Settled {
            nodes: vec![in alloc; false; nodes]?,
            some: false,
        })
    }

    /// The node has its place.
    pub(crate) fn settle(&mut self, node: usize)
        requires { node < length self.old }
        ensures { self.new ≡ slice_set self.old node true }
    {
        self.nodes[node] = true;
        self.some = true;
    }

    /// No node has its place.
    pub(crate) fn forget(&mut self)
        ensures { self.new ≡ replicate (length self.old) false }
    {
        if self.some {
            self.nodes.fill(false);
            self.some = false;
        }
    }
}
