ghost use Rattle.std.specs.Prelude.{◌≡◌, ◌↔◌, ◌<◌, ◌≤◌, ◌+◌, ◌*◌, IfOk, IsTrue, length};
ghost use Rattle.cert_check.specs.Vocabulary.{IsTopology, source_of, rotated, TreeShape, Judges, JudgesOnce, IsOfUnmarked, JoinsAt, StandsAt, Shaped, tree_of};

use crate::judge::Judge;
use crate::verdict::{Reason, Stop};
use cts_model::{Merge, Point, Uv, to_uv};
use std::alloc::Global;

impl Judge<'_> {
    /// Whether each node is as the topology and the given places have it.
    pub(crate) fn judge_shape(&self, alloc: Global) -> Result<(), Stop>
        ensures shape { Judges (2 * length self.now.sinks.now) (Shaped self.now) TreeShape result }
        ensures topology { IfOk result (λ done. IsTopology (length self.now.sinks.now)
            self.now.report.now.topology.merges) }
    {
        self.judge_sinks()?;
        self.judge_merges(alloc)?;
        self.judge_source()
    }

    // Whether each sink is at its given place.
    fn judge_sinks(&self) -> Result<(), Stop>
        ensures { Judges (length self.now.sinks.now)
            (StandsAt self.now.sinks.now (tree_of self.now)) TreeShape result }
    {
        for register in 0..self.sinks.len() {
            if !self.stands(register, self.sinks[register].at) {
                return Err(Stop::At(Reason::TreeShape(register as u32)));
            }
        }
        Ok(())
    }

    // Whether each of the merges joins two nodes that are there and that none before it joined, the
    // lower number first.
    fn judge_merges(&self, alloc: Global) -> Result<(), Stop>
        ensures { Judges (length self.now.report.now.topology.merges)
            (JoinsAt (length self.now.sinks.now) self.now.report.now.topology.merges)
            (λ place. TreeShape (length self.now.sinks.now + place)) result }
    {
        let sinks = self.sinks.len();
        let merges = self.report.topology.merges.as_slice();
        let mut joined = vec![in alloc; false; 2 * sinks]?;
        for place in 0..merges.len() {
            let merge = merges[place];
            if !is_of_unmarked(merge, sinks + place, joined.as_slice()) {
                return Err(Stop::At(Reason::TreeShape((sinks + place) as u32)));
            }
            joined[merge.first as usize] = true;
            joined[merge.second as usize] = true;
        }
        Ok(())
    }

    // Whether the source is at its given place.
    fn judge_source(&self) -> Result<(), Stop>
        ensures { JudgesOnce (rotated ((tree_of self.now).place
            (source_of (length self.now.sinks.now))) ≡ self.now.source)
            (TreeShape (source_of (length self.now.sinks.now))) result }
    {
        let last = 2 * self.sinks.len() - 1;
        if self.stands(last, self.source) {
            Ok(())
        } else {
            Err(Stop::At(Reason::TreeShape(last as u32)))
        }
    }

    // Whether a node is the point with these rotated coordinates.
    fn stands(&self, node: usize, at: Uv) -> bool
        requires { node < 2 * length self.now.sinks.now }
        ensures { IsTrue result ↔ (rotated ((tree_of self.now).place node) ≡ at) }
    {
        to_uv(self.report.tree.place.as_slice()[node]) == at
    }
}

// Whether a merge joins two of so many nodes that aren't marked, the lower number first.
fn is_of_unmarked(merge: Merge, made: usize, marks: &[bool]) -> bool
    requires { made ≤ length marks.now }
    ensures { IsTrue result ↔ IsOfUnmarked made marks.now merge }
{
    merge.first < merge.second
        && (merge.second as usize) < made
        && !marks[merge.first as usize]
        && !marks[merge.second as usize]
}
