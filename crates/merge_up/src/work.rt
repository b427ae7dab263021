ghost use Rattle.std.specs.Prelude.{◌≡◌, ℕ, ◌++◌, ◌≤◌, ◌<◌, ◌+◌, ◌*◌, ◌-◌, ◌^◌, List, length, IfOk, IsSomeAnd, slice_get, Some};

use crate::ends::Ends;
use crate::nodes::Nodes;
use crate::settled::Settled;
use cts_base::{Listed, NoMemory};
use cts_model::{Point, Show, Sink, Topology, Tree, Uv};
use std::alloc::Global;
use std::marker::Model;
use tilted_rect::{Rect, to_point};

/// The room in which trees are made and renewed.
#[derive(Drop)]
pub struct Work {
    // How many sinks the last merge had, 0 before any.
    sinks: usize,
    // The lists keep the length that the room asks; entries past the nodes of the last merge don't
    // count.
    tree: Tree,
    // Of each node.
    regions: Listed<Rect>,
    // Of each merge the furthest sinks, as they were when it was made.
    ends: Listed<Ends>,
    // Of each merge, and then the source's.
    shows: Listed<Show>,
    settled: Settled,
    renewals: u64,
}

impl Model for Work {
    ghost use Rattle.merge_up.specs.Works.{WorkState};

    ghost Value = { WorkState };

    ghost use Rattle.merge_up.specs.Views.{state_of, HasEntries};

    ghost view = { state_of };

    ghost invariant = { HasEntries };
}

impl Work {
    ghost use Rattle.merge_up.specs.Vocabulary.{Point, Sink, Merge, IsUvBelow, IsUvMultipleOf, AreTreeSinks, IsTreeSink, IsTopology, numbers_below, Holds, HoldsJoined, KeepsJoined, IsFresh, IsRenewed, IsSinkSet, IsNodeSettled, IsSourcePlaced, AreEnds, cut, IsFit, IsSettled};

    /// Room for that many sinks. No later call takes memory.
    ///
    /// # Errors
    ///
    /// `NoMemory` where memory is refused.
    pub fn with_room(alloc: Global, sinks: usize) -> Result<Work, NoMemory>
        requires some { 1 ≤ sinks }
        requires few { sinks ≤ 4097 }
        ensures { IfOk result (IsFresh sinks) }
    {
        let origin = Uv { u: 0, v: 0 };
        let sink = Sink {
            at: origin,
            offset: 0,
        };
        Ok(Work {
            sinks: 0,
            regions: Listed::from_vec(vec![in alloc; Rect::point(origin); 2 * sinks - 1]?),
            ends: Listed::from_vec(vec![in alloc; Ends::of(0, sink); sinks - 1]?),
            shows: Listed::from_vec(vec![in alloc; Show::Root; sinks]?),
            tree: tree_with_room(alloc, 2 * sinks)?,
            settled: Settled::with_room(alloc, 2 * sinks)?,
            renewals: 0,
        })
    }

    /// The reach of a node; a sink's is its offset.
    pub fn reach(&self, node: u32) -> i128
        requires { node < 2 * self.now.sinks - 1 }
        ensures value { slice_get self.now.tree.reach node ≡ Some result }
        ensures fit { IsFit self.now }
    {
        self.tree.reach.as_slice()[node as usize]
    }

    /// Where a node may stand; a sink's is its place.
    pub fn region(&self, node: u32) -> Rect
        requires { node < 2 * self.now.sinks - 1 }
        ensures value { slice_get self.now.regions node ≡ Some result }
        ensures fit { IsFit self.now }
    {
        self.regions.as_slice()[node as usize]
    }

    /// Where a node stands by now.
    pub fn place(&self, node: u32) -> Point
        requires { node < 2 * self.now.sinks }
        ensures value { slice_get self.now.tree.place node ≡ Some result }
        ensures fit { IsFit self.now }
    {
        self.tree.place.as_slice()[node as usize]
    }

    /// How many merges were renewed; 2^64 - 1 for more.
    pub fn renewals(&self) -> u64
        ensures { result ≡ self.now.renewals }
    {
        self.renewals
    }

    /// Gives a node its place, and its edge a length. It takes no memory.
    pub fn settle(&mut self, node: u32, at: Uv, length: i128)
        requires node { node < 2 * self.old.sinks - 1 }
        requires within { IsSomeAnd (slice_get self.old.regions node)
            (λ region. Holds region 1 at) }
        requires multiple { IsUvMultipleOf 4 at }
        ensures { IsNodeSettled node at length self.old self.new }
    {
        let node = node as usize;
        self.tree.place.set(node, to_point(at));
        self.tree.length.set(node, length);
        self.settled.settle(node);
    }

    /// Gives the source its place, its reach and what shows it. It takes no memory.
    pub fn settle_source(&mut self, at: Uv, reach: i128, show: Show)
        requires merged { 1 ≤ self.old.sinks }
        requires below { IsUvBelow (10 ^ 31) at }
        requires multiple { IsUvMultipleOf 8 at }
        ensures { IsSourcePlaced at reach show self.old self.new }
    {
        let source = 2 * self.sinks - 1;
        self.tree.place.set(source, to_point(at));
        self.tree.reach.set(source, reach);
        self.shows.set(self.sinks - 1, show);
        self.settled.settle(source);
    }

    /// The tree. Where there is room for more sinks than the last merge had, its lists go on after
    /// what they hold of the nodes.
    pub fn tree(&self) -> &Tree
        requires { IsSettled self.now }
        ensures nodes { cut self.now.sinks result.now ≡ self.now.tree }
        ensures whole { self.now.sinks ≡ self.now.room → result.now ≡ self.now.tree }
    {
        &self.tree
    }

    /// The tree, and the shows of its merges in order and then the source's. It takes no memory.
    pub fn into_parts(self) -> (Tree, Listed<Show>)
        requires { IsSettled self }
        ensures { result ≡ (self.tree, self.shows) }
    {
        let sinks = self.sinks;
        let mut tree = self.tree;
        let mut shows = self.shows;
        tree.reach.truncate(2 * sinks);
        tree.place.truncate(2 * sinks);
        tree.length.truncate(2 * sinks - 1);
        shows.truncate(sinks);
        (tree, shows)
    }

    /// Sets a sink's reach and region. It takes no memory.
    pub fn set_sink(&mut self, register: u32, sink: Sink)
        requires register { register < self.old.sinks }
        requires sink { IsTreeSink sink }
        ensures { IsSinkSet register sink self.old self.new }
    {
        let register = register as usize;
        self.tree.reach.set(register, sink.offset);
        self.regions.set(register, Rect::point(sink.at));
        self.settled.forget();
    }

    /// Makes a merge's reach, region and show anew from those of the two nodes that it joins. It
    /// takes no memory. Where the sinks that were kept as the furthest below it are so still, none
    /// is searched for.
    pub fn renew(&mut self, sinks: &[Sink], topology: &Topology, node: u32)
        requires sinks { AreTreeSinks sinks.now }
        requires topology { IsTopology (length sinks.now) topology.now.merges }
        requires count { self.old.sinks ≡ length sinks.now }
        requires merge { length sinks.now ≤ node }
        requires made { node < length sinks.now + length topology.now.merges }
        requires joined { HoldsJoined sinks.now topology.now.merges self.old node }
        ensures { IsRenewed sinks.now topology.now.merges (node - length sinks.now)
            self.old self.new }
    {
        let place = node as usize - sinks.len();
        let merges = topology.merges.as_slice();
        let nodes = Nodes {
            sinks,
            merges,
            work: self,
        };
        let merge = merges[place];
        let first = nodes.found_ends(merge.first);
        let second = nodes.found_ends(merge.second);
        self.hold(place, first, second);
    }

    /// Makes a merge anew as `renew` does, by the sinks that are kept as the furthest below the two
    /// nodes that it joins. It takes the same time whatever hangs below them, and no memory.
    pub fn renew_from_kept(&mut self, sinks: &[Sink], topology: &Topology, node: u32)
        requires sinks { AreTreeSinks sinks.now }
        requires topology { IsTopology (length sinks.now) topology.now.merges }
        requires count { self.old.sinks ≡ length sinks.now }
        requires merge { length sinks.now ≤ node }
        requires made { node < length sinks.now + length topology.now.merges }
        requires kept { KeepsJoined sinks.now topology.now.merges self.old node }
        ensures { IsRenewed sinks.now topology.now.merges (node - length sinks.now)
            self.old self.new }
    {
        let place = node as usize - sinks.len();
        let merges = topology.merges.as_slice();
        let nodes = Nodes {
            sinks,
            merges,
            work: self,
        };
        let merge = merges[place];
        let first = nodes.kept_ends(merge.first);
        let second = nodes.kept_ends(merge.second);
        self.hold(place, first, second);
    }

    // Holds of a merge what the furthest sinks of the two nodes that it joins say.
    fn hold(&mut self, place: usize, first: Ends, second: Ends)
        requires { place + 1 < self.old.sinks }
        ensures { (sinks : List Sink) (merges : List Merge) (one other : List ℕ)
            → self.old.sinks ≡ length sinks
            → numbers_below (length sinks) merges (length sinks + place) ≡ one ++ other
            → AreEnds sinks one first → AreEnds sinks other second
            → IsRenewed sinks merges place self.old self.new }
    {
        let node = self.sinks + place;
        let ends = first.joined(second);
        let (reach, region) = ends.reach_and_region();
        self.tree.reach.set(node, reach);
        self.regions.set(node, region);
        self.ends.set(place, ends);
        self.shows.set(place, ends.show());
        self.settled.forget();
        self.renewals = self.renewals.saturating_add(1);
    }

    /// The furthest sinks that are kept of each merge.
    pub(crate) fn kept(&self) -> &[Ends]
        ensures value { result.now ≡ self.now.ends }
        ensures fit { IsFit self.now }
    {
        self.ends.as_slice()
    }

    /// From here on the lists are of the nodes over that many sinks.
    pub(crate) fn begin(&mut self, sinks: usize)
        requires { sinks ≤ self.old.room }
        ensures room { self.new.room ≡ self.old.room }
        ensures count { self.new.sinks ≡ sinks }
        ensures renewals { self.new.renewals ≡ self.old.renewals }
        ensures fit { IsFit self.new }
    {
        self.sinks = sinks;
    }
}

// The lists of a tree over so many nodes, the source among them.
fn tree_with_room(alloc: Global, nodes: usize) -> Result<Tree, NoMemory>
    requires { 1 ≤ nodes }
    ensures reaches { IfOk result (λ tree. length tree.reach ≡ nodes) }
    ensures places { IfOk result (λ tree. length tree.place ≡ nodes) }
    ensures lengths { IfOk result (λ tree. length tree.length + 1 ≡ nodes) }
{
    Ok(Tree {
        reach: Listed::from_vec(vec![in alloc; 0i128; nodes]?),
        place: Listed::from_vec(vec![in alloc; Point { x: 0, y: 0 }; nodes]?),
        length: Listed::from_vec(vec![in alloc; 0i128; nodes - 1]?),
    })
}
