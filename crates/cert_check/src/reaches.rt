ghost use Rattle.std.specs.Prelude.{◌≡◌, ◌<◌, ◌*◌, ◌^◌, ◌↔◌, IsTrue, All, length};
ghost use Rattle.cert_check.specs.Vocabulary.{AreWiresDown, embedding_of, total_length, total_wire, IsBelow, number_at, IsTopology, HasReach, Skewed, SkewDiffers, Unshown, Judges, Total, JudgesOnce};

use crate::down::{are_same, difference};
use crate::judge::Judge;
use crate::shaped::ShapedTree;
use crate::verdict::{Reason, Stop};
use cts_model::total_length;
use std::alloc::Global;

/// A report with how long the wire is from the source of its tree down to each node.
#[derive(Clone, Copy)]
struct WiredTree<'a> {
    judge: Judge<'a>,
    wires: &'a [i128],
    ghost topology: { IsTopology (length judge.sinks.now)
        judge.report.now.topology.merges },
    ghost down: { AreWiresDown (length judge.sinks.now) judge.report.now.topology.merges
        (number_at judge.report.now.tree.length) (number_at wires.now) },
    ghost all: { length wires.now ≡ 2 * length judge.sinks.now },
    ghost small: { All (IsBelow (10 ^ 36)) wires.now },
}

impl WiredTree<'_> {
    // Whether the wires down to a register and to the first one differ as their offsets do.
    fn is_skewed(&self, register: usize) -> bool
        requires { register < length self.now.judge.sinks.now }
        ensures { IsTrue result ↔ Skewed self.now.judge register }
    {
        let first = self.judge.sinks[0];
        let sink = self.judge.sinks[register];
        let wire = difference(self.wires[register], self.wires[0]);
        are_same(wire, difference(first.offset, sink.offset))
    }
}

impl ShapedTree<'_> {
    /// Whether the wires down to each register and to the first one differ as scheduled.
    pub(crate) fn judge_skews(&self, alloc: Global) -> Result<(), Stop>
        ensures { Judges (length self.now.judge.sinks.now) (Skewed self.now.judge) SkewDiffers
            result }
    {
        let wires = self.wires_down(alloc)?;
        let tree = WiredTree {
            judge: self.judge,
            wires: wires.as_slice(),
        };
        for register in 0..self.judge.sinks.len() {
            if !tree.is_skewed(register) {
                return Err(Stop::At(Reason::SkewDiffers(register as u32)));
            }
        }
        Ok(())
    }

    /// Whether the reach of each merge and of the source is shown.
    pub(crate) fn judge_reaches(&self) -> Result<(), Stop>
        ensures { Judges (2 * length self.now.judge.sinks.now) (HasReach self.now.judge) Unshown
            result }
    {
        let sinks = self.judge.sinks.len();
        for place in 0..sinks {
            if !self.is_reach_shown(place) {
                return Err(Stop::At(Reason::Unshown((sinks + place) as u32)));
            }
        }
        Ok(())
    }
}

impl Judge<'_> {
    /// Whether the printed wire is the sum of the lengths.
    pub(crate) fn judge_total(&self) -> Result<(), Stop>
        ensures { JudgesOnce (self.now.report.now.total ≡ total_wire (length self.now.sinks.now)
            (embedding_of self.now.report.now.tree)) Total result }
    {
        if total_length(self.report.tree.length.as_slice()) == self.report.total {
            Ok(())
        } else {
            Err(Stop::At(Reason::Total))
        }
    }
}
