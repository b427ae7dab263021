ghost use Rattle.std.specs.Prelude.{◌≤◌, IfOk, length};
ghost use Rattle.cert_check.specs.Vocabulary.{IsTopology, AreParents};

use crate::judge::Judge;
use cts_base::NoMemory;
use cts_model::Merge;
use std::alloc::Global;

/// A report whose merges are a topology over its sinks, as it is judged.
#[derive(Drop)]
pub(crate) struct ShapedTree<'a> {
    pub(crate) judge: Judge<'a>,
    /// The parent of each node by the nodes' numbers. The source has none.
    pub(crate) parents: Vec<u32>,
    pub(crate) ghost are: { AreParents (length judge.sinks.now)
        judge.report.now.topology.merges parents.items },
}

impl Judge<'_> {
    /// The parent of each node of a topology over the sinks, by the nodes' numbers.
    pub(crate) fn parents_of(&self, alloc: Global, merges: &[Merge]) -> Result<Vec<u32>, NoMemory>
        requires { IsTopology (length self.now.sinks.now) merges.now }
        ensures { IfOk result
            (λ parents. AreParents (length self.now.sinks.now) merges.now parents.items) }
    {
        let sinks = self.sinks.len();
        let mut parents = vec![in alloc; 0; 2 * sinks - 1]?;
        let mut parent = sinks as u32;
        for merge in merges {
            parents[merge.first as usize] = parent;
            parents[merge.second as usize] = parent;
            parent += 1;
        }
        parents[2 * sinks - 2] = parent;
        Ok(parents)
    }
}
