ghost use Rattle.std.specs.Prelude.{◌≡◌, ◌<◌, ◌+◌, ◌⊎◌, ℕ, IfSome, IsNone, length};
ghost use Rattle.cts_model.specs.Vocabulary.{AreTreeSinks, IsTopology};

use crate::end::End;
use crate::ends::Ends;
use crate::side::Side;
use crate::work::Work;
use cts_model::{Merge, Sink};

/// The nodes of a topology over the sinks, by what a room holds of them.
#[derive(Clone, Copy)]
pub(crate) struct Nodes<'a> {
    pub(crate) sinks: &'a [Sink],
    pub(crate) merges: &'a [Merge],
    pub(crate) work: &'a Work,
    pub(crate) ghost are_sinks: { AreTreeSinks sinks.now },
    pub(crate) ghost topology: { IsTopology (length sinks.now) merges.now },
    pub(crate) ghost count: { work.now.sinks ≡ length sinks.now },
}

impl Nodes<'_> {
    ghost use Rattle.merge_up.specs.Vocabulary.{numbers_below, HoldsMerge, KeepsEnds, AreEnds, IsEnd, IsSoFar, far_to};

    /// The furthest sinks of a node, as they are kept.
    pub(crate) fn kept_ends(&self, node: u32) -> Ends
        requires { node < length self.now.sinks.now + length self.now.merges.now }
        ensures { ((place : ℕ) → node ≡ length self.now.sinks.now + place
            → KeepsEnds self.now.sinks.now self.now.merges.now self.now.work.now place)
            → AreEnds self.now.sinks.now
            (numbers_below (length self.now.sinks.now) self.now.merges.now node) result }
    {
        let place = node as usize;
        if place < self.sinks.len() {
            Ends::of(node, self.sinks[place])
        } else {
            self.work.kept()[place - self.sinks.len()]
        }
    }

    /// The furthest sinks of a node, by its region and its reach.
    pub(crate) fn found_ends(&self, node: u32) -> Ends
        requires node { node < length self.now.sinks.now + length self.now.merges.now }
        requires held { (place : ℕ) → node ≡ length self.now.sinks.now + place
            → HoldsMerge self.now.sinks.now self.now.merges.now self.now.work.now place }
        ensures { AreEnds self.now.sinks.now
            (numbers_below (length self.now.sinks.now) self.now.merges.now node) result }
    {
        let place = node as usize;
        if place < self.sinks.len() {
            return Ends::of(node, self.sinks[place]);
        }
        let place = place - self.sinks.len();
        Ends {
            high_u: self.found_end(place, Side::HighU),
            low_u: self.found_end(place, Side::LowU),
            high_v: self.found_end(place, Side::HighV),
            low_v: self.found_end(place, Side::LowV),
        }
    }

    // The furthest sink of a merge to a side.
    fn found_end(&self, place: usize, side: Side) -> End
        requires within { place < length self.now.merges.now }
        requires held { HoldsMerge self.now.sinks.now self.now.merges.now self.now.work.now place }
        ensures { IsEnd self.now.sinks.now (numbers_below (length self.now.sinks.now)
            self.now.merges.now (length self.now.sinks.now + place)) (far_to side) result }
    {
        let node = (self.sinks.len() + place) as u32;
        let far = side.furthest(self.work.region(node), self.work.reach(node));
        End {
            sink: self.find(side, far, node).unwrap(),
            far,
        }
    }

    // A sink of a node that is so far to a side. Of two nodes the one is looked at first for which
    // the same sink is kept as the furthest as for the node above them: where such a sink is as far
    // still, the way leads straight down to it.
    fn find(&self, side: Side, far: i128, node: u32) -> Option<u32>
        requires { node < length self.now.sinks.now + length self.now.merges.now }
        ensures found { IfSome result (IsSoFar self.now.sinks.now
            (numbers_below (length self.now.sinks.now) self.now.merges.now node) side far) }
        ensures none { IsNone result → (register : ℕ) → IsSoFar self.now.sinks.now
            (numbers_below (length self.now.sinks.now) self.now.merges.now node) side far register
            → ⊥ }
    {
        let place = node as usize;
        if place < self.sinks.len() {
            return if side.far(self.sinks[place]) == far {
                Some(node)
            } else {
                None
            };
        }
        let place = place - self.sinks.len();
        let wanted = side.sink_of(&self.work.kept()[place]);
        let (next, other) = self.in_order(side, self.merges[place], wanted);
        let found = self.find(side, far, next);
        if found.is_some() {
            return found;
        }
        self.find(side, far, other)
    }

    // The two nodes of a merge, first the one for which the wanted sink is kept, if it is one.
    fn in_order(&self, side: Side, merge: Merge, wanted: u32) -> (u32, u32)
        requires { merge.first < length self.now.sinks.now + length self.now.merges.now }
        ensures { (result ≡ (merge.first, merge.second)) ⊎ (result ≡ (merge.second, merge.first)) }
    {
        if self.kept_sink(side, merge.first) == wanted {
            (merge.first, merge.second)
        } else {
            (merge.second, merge.first)
        }
    }

    // The sink that is kept as the furthest of a node.
    fn kept_sink(&self, side: Side, node: u32) -> u32
        requires { node < length self.now.sinks.now + length self.now.merges.now }
    {
        let place = node as usize;
        if place < self.sinks.len() {
            node
        } else {
            side.sink_of(&self.work.kept()[place - self.sinks.len()])
        }
    }
}
