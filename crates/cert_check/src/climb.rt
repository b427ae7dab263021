//! Which sinks are below a node of a tree, by a climb from each.

ghost use Rattle.std.specs.Prelude.{◌<◌, ◌+◌, ◌*◌, ◌↔◌, IsTrue, Contains, length};
ghost use Rattle.cts_model.specs.Vocabulary.{IsParent, numbers_below};

use crate::shaped::ShapedTree;

impl ShapedTree<'_> {
    /// Whether a sink is at or below a node: whether the climb from it comes to that node.
    pub(crate) fn has_below(&self, node: usize, register: usize) -> bool
        requires node { node + 1 < 2 * length self.now.judge.sinks.now }
        requires register { register < length self.now.judge.sinks.now }
        ensures { IsTrue result ↔ Contains (numbers_below (length self.now.judge.sinks.now)
            self.now.judge.report.now.topology.merges node) register }
    {
        let mut at = register;
        while at < node {
            at = self.parent_of(at);
        }
        at == node
    }

    /// Where the edge down to a node comes from.
    pub(crate) fn parent_of(&self, node: usize) -> usize
        requires { node < length self.now.parents.items }
        ensures parent { IsParent (length self.now.judge.sinks.now)
            self.now.judge.report.now.topology.merges node result }
        ensures above { node < result }
        ensures stands { result < 2 * length self.now.judge.sinks.now }
    {
        self.parents[node] as usize
    }
}
