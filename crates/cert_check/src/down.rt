ghost use Rattle.std.specs.Prelude.{◌≡◌, ◌*◌, ◌^◌, ◌+ℤ◌, ◌-ℤ◌, ◌↔◌, All, IfOk, IsTrue, length};
ghost use Rattle.cts_model.specs.Vocabulary.{AreWiresDown, IsBelow, number_at};

use crate::shaped::ShapedTree;
use cts_base::NoMemory;
use std::alloc::Global;

impl ShapedTree<'_> {
    /// How long the wire is from the source down to each node. One pass over the nodes.
    pub(crate) fn wires_down(&self, alloc: Global) -> Result<Vec<i128>, NoMemory>
        ensures wires { IfOk result (λ wires. AreWiresDown (length self.now.judge.sinks.now)
            self.now.judge.report.now.topology.merges
            (number_at self.now.judge.report.now.tree.length) (number_at wires.items)) }
        ensures all { IfOk result
            (λ wires. length wires.items ≡ 2 * length self.now.judge.sinks.now) }
        ensures small { IfOk result (λ wires. All (IsBelow (10 ^ 36)) wires.items) }
    {
        let lengths = self.judge.report.tree.length.as_slice();
        let mut wires = vec![in alloc; 0; 2 * self.judge.sinks.len()]?;
        for done in 0..lengths.len() {
            let node = lengths.len() - 1 - done;
            let parent = self.parent_of(node);
            wires[node] = sum(wires[parent], lengths[node]);
        }
        Ok(wires)
    }
}

/// The sum of two lengths.
pub(crate) fn sum(one: i128, other: i128) -> i128
    requires one { IsBelow (10 ^ 36) one }
    requires other { IsBelow (10 ^ 36) other }
    ensures { result ≡ one +ℤ other }
{
    one + other
}

/// How much longer one length is than another.
pub(crate) fn difference(one: i128, other: i128) -> i128
    requires one { IsBelow (10 ^ 36) one }
    requires other { IsBelow (10 ^ 36) other }
    ensures { result ≡ one -ℤ other }
{
    one - other
}

/// Whether two lengths are the same.
pub(crate) fn are_same(one: i128, other: i128) -> bool
    ensures { IsTrue result ↔ (one ≡ other) }
{
    one == other
}
