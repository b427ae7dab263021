ghost use Rattle.std.specs.Prelude.{◌≡◌, ◌<◌, ◌≤◌, ◌+◌, ◌*◌, ◌^◌, ◌↔◌, ◌+ℤ◌, IsTrue, IsSomeAnd, Some, length, slice_get};
ghost use Rattle.cert_check.specs.Vocabulary.{IsBelow, IsUvBelow, apart, rotated_distance, span, ShowsAmong, number_at, ShowsMerge, ShowsSource, numbers_below, root_of, source_of, HasReach, IsSmallSink, IsMergeShown, IsReachOver, IsSourceShown};

use crate::down::{are_same, difference, sum};
use crate::item::item_at;
use crate::judge::Judge;
use crate::shaped::ShapedTree;
use cts_model::{Show, Sink, Uv};

impl ShapedTree<'_> {
    /// Whether the reach of the merge at a place, or after the last of the source, is that of each
    /// node below it with the length of that one's edge, and its show gives it.
    pub(crate) fn is_reach_shown(&self, place: usize) -> bool
        requires { place < length self.now.judge.sinks.now }
        ensures { IsTrue result
            ↔ HasReach self.now.judge (length self.now.judge.sinks.now + place) }
    {
        if place < self.judge.report.topology.merges.len() {
            self.is_merge_shown(place)
        } else {
            self.judge.is_source_shown()
        }
    }

    // Whether a merge's reach is that of both nodes that it joins, and its show gives it.
    fn is_merge_shown(&self, place: usize) -> bool
        requires { place < length self.now.judge.report.now.topology.merges }
        ensures { IsTrue result
            ↔ IsMergeShown self.now.judge.sinks.now self.now.judge.report.now place }
    {
        let merge = item_at(self.judge.report.topology.merges.as_slice(), place);
        let node = self.judge.sinks.len() + place;
        self.judge.is_reach_over(node, merge.first as usize)
            && self.judge.is_reach_over(node, merge.second as usize)
            && self.shows_merge(place)
    }

    // Whether the show of a merge is two sinks below its node, in order, whose span is twice its
    // reach.
    fn shows_merge(&self, place: usize) -> bool
        requires { place < length self.now.judge.report.now.topology.merges }
        ensures { IsTrue result ↔ IsSomeAnd (slice_get self.now.judge.report.now.shows place)
            (ShowsMerge self.now.judge.sinks.now (numbers_below (length self.now.judge.sinks.now)
            self.now.judge.report.now.topology.merges
            (length self.now.judge.sinks.now + place))
            (number_at self.now.judge.report.now.tree.reach
            (length self.now.judge.sinks.now + place))) }
    {
        let sinks = self.judge.sinks;
        let node = sinks.len() + place;
        let reach = self.judge.reach(node);
        match self.judge.show(place) {
            Show::Pair(first, second) => {
                first <= second
                    && self.has_below(node, first as usize)
                    && self.has_below(node, second as usize)
                    && is_half_of_span(reach, sinks[first as usize], sinks[second as usize])
            }
            Show::Sink(_) => false,
            Show::Root => false,
        }
    }
}

impl Judge<'_> {
    // Whether the source's reach is that of the root, and its show gives it.
    fn is_source_shown(&self) -> bool
        ensures { IsTrue result
            ↔ IsSourceShown self.now.sinks.now self.now.source self.now.report.now }
    {
        let source = 2 * self.sinks.len() - 1;
        self.is_reach_over(source, source - 1) && self.shows_source()
    }

    // Whether the edge down to a node is as long as its reach and that of the node above differ.
    fn is_reach_over(&self, node: usize, below: usize) -> bool
        requires node { node < 2 * length self.now.sinks.now }
        requires below { below + 1 < 2 * length self.now.sinks.now }
        ensures { IsTrue result ↔ IsReachOver self.now.report.now.tree node below }
    {
        let length = self.report.tree.length.as_slice()[below];
        are_same(length, difference(self.reach(node), self.reach(below)))
    }

    // The reach of a node.
    fn reach(&self, node: usize) -> i128
        requires { node < 2 * length self.now.sinks.now }
        ensures value { result ≡ number_at self.now.report.now.tree.reach node }
        ensures small { IsBelow (10 ^ 32) result }
    {
        self.report.tree.reach.as_slice()[node]
    }

    // Whether the show of the source gives its reach: by a sink, or by the root's.
    fn shows_source(&self) -> bool
        ensures { IsTrue result ↔ IsSomeAnd
            (slice_get self.now.report.now.shows (length self.now.report.now.topology.merges))
            (ShowsSource self.now.sinks.now self.now.source
            (number_at self.now.report.now.tree.reach (root_of (length self.now.sinks.now)))
            (number_at self.now.report.now.tree.reach (source_of (length self.now.sinks.now)))) }
    {
        let nodes = 2 * self.sinks.len();
        let reach = self.reach(nodes - 1);
        match self.show(self.sinks.len() - 1) {
            Show::Pair(_, _) => false,
            Show::Sink(register) => is_reach_from(
                reach,
                self.source,
                self.sinks[register as usize],
            ),
            Show::Root => are_same(reach, self.reach(nodes - 2)),
        }
    }

    // The show at a place.
    fn show(&self, place: usize) -> Show
        requires { place < length self.now.sinks.now }
        ensures found { slice_get self.now.report.now.shows place ≡ Some result }
        ensures among { ShowsAmong (length self.now.sinks.now) result }
    {
        *item_at(self.report.shows.as_slice(), place)
    }
}

// Whether twice a reach is the span of two sinks.
fn is_half_of_span(reach: i128, one: Sink, other: Sink) -> bool
    requires reach { IsBelow (10 ^ 32) reach }
    requires one { IsSmallSink one }
    requires other { IsSmallSink other }
    ensures { IsTrue result ↔ ((reach +ℤ reach) ≡ span one other) }
{
    let offsets = sum(one.offset, other.offset);
    are_same(
        sum(reach, reach),
        sum(offsets, rotated_distance(one.at, other.at)),
    )
}

// Whether a reach is a sink's offset and its distance from the source.
fn is_reach_from(reach: i128, source: Uv, sink: Sink) -> bool
    requires source { IsUvBelow (10 ^ 31) source }
    requires sink { IsSmallSink sink }
    ensures { IsTrue result ↔ (reach ≡ sink.offset +ℤ rotated_distance source sink.at) }
{
    are_same(reach, sum(sink.offset, rotated_distance(source, sink.at)))
}

// The distance of two points by their rotated coordinates.
fn rotated_distance(one: Uv, other: Uv) -> i128
    requires one { IsUvBelow (10 ^ 31) one }
    requires other { IsUvBelow (10 ^ 31) other }
    ensures value { result ≡ rotated_distance one other }
    ensures below { IsBelow (10 ^ 32) result }
{
    apart(one.u, other.u).max(apart(one.v, other.v))
}

// How far two numbers are apart.
fn apart(one: i128, other: i128) -> i128
    requires one { IsBelow (10 ^ 31) one }
    requires other { IsBelow (10 ^ 31) other }
    ensures value { result ≡ apart one other }
    ensures below { IsBelow (10 ^ 32) result }
{
    (one - other).max(other - one)
}
