ghost use Rattle.std.specs.Prelude.{◌<◌, ◌↔◌, IsTrue, length};
ghost use Rattle.cert_check.specs.Vocabulary.{Drawn, LongEnough, TooShort, WireSum, Judges};

use crate::drawn::is_drawn;
use crate::shaped::ShapedTree;
use crate::verdict::{Reason, Stop};
use cts_model::manhattan;

impl ShapedTree<'_> {
    /// Whether each edge is as long as the way between its ends, or longer.
    pub(crate) fn judge_lengths(&self) -> Result<(), Stop>
        ensures { Judges (length self.now.judge.report.now.tree.length)
            (LongEnough self.now.judge) TooShort result }
    {
        for edge in 0..self.parents.len() {
            if !self.is_long_enough(edge) {
                return Err(Stop::At(Reason::TooShort(edge as u32)));
            }
        }
        Ok(())
    }

    // Whether an edge is as long as the way between its ends, or longer.
    fn is_long_enough(&self, edge: usize) -> bool
        requires { edge < length self.now.parents.items }
        ensures { IsTrue result ↔ LongEnough self.now.judge edge }
    {
        let tree = &self.judge.report.tree;
        let places = tree.place.as_slice();
        let from = places[self.parent_of(edge)];
        manhattan(from, places[edge]) <= tree.length.as_slice()[edge]
    }

    /// Whether the points of each edge are those of a wire of its length between its ends.
    pub(crate) fn judge_wires(&self) -> Result<(), Stop>
        ensures { Judges (length self.now.judge.report.now.tree.length) (Drawn self.now.judge)
            WireSum result }
    {
        for edge in 0..self.parents.len() {
            if !self.is_drawn_edge(edge) {
                return Err(Stop::At(Reason::WireSum(edge as u32)));
            }
        }
        Ok(())
    }

    // Whether the points of an edge are those of a wire of its length between its ends.
    fn is_drawn_edge(&self, edge: usize) -> bool
        requires { edge < length self.now.parents.items }
        ensures { IsTrue result ↔ Drawn self.now.judge edge }
    {
        let tree = &self.judge.report.tree;
        let places = tree.place.as_slice();
        let wire = &self.judge.report.wires.as_slice()[edge];
        let from = places[self.parent_of(edge)];
        is_drawn(wire, from, places[edge], tree.length.as_slice()[edge])
    }
}
