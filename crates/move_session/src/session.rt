use crate::way_up::renew_above;
use cts_base::{Listed, NoMemory};
use cts_model::{Point, Sink, Topology, Uv, total_length};
use merge_up::{Work, merge};
use place_down::place;
use std::alloc::Global;
use std::marker::Model;

/// A clock tree whose sinks may move while its merges are kept. What it answers is at any time what
/// merging and placing its sinks anew would give. Places and lengths are in grid steps.
#[derive(Drop)]
pub struct Session {
    sinks: Listed<Sink>,
    topology: Topology,
    source: Uv,
    work: Work,
}

impl Model for Session {
    ghost use Rattle.move_session.specs.Sessions.{SessionState};

    ghost Value = { SessionState };

    ghost use Rattle.move_session.specs.SessionViews.{state_of, IsUpToDate};

    ghost view = { state_of };

    ghost invariant = { IsUpToDate };
}

ghost use Rattle.std.specs.Prelude.{◌≡◌, ◌<◌, ◌+◌, ◌*◌, ◌-◌, ◌^◌, min, IfOk, length};
ghost use Rattle.move_session.specs.Vocabulary.{IsLeastWire, RealisesOffsets, embedding_of, total_wire, IsBelow, IsUvBelow, IsUvMultipleOf, AreTreeSinks, IsTreeSink, IsTopology, merges_above, StandsFor, moved_sink, moved_sinks, IsTreeSource, reach_in};

impl Session {
    /// The tree of a topology over sinks. Each merge is made once.
    ///
    /// # Errors
    ///
    /// There is no memory for its lists.
    pub fn open(
        alloc: Global,
        sinks: &[Sink],
        topology: &Topology,
        source: Uv,
    ) -> Result<Session, NoMemory>
        requires sinks { AreTreeSinks sinks.now }
        requires topology { IsTopology (length sinks.now) topology.now.merges }
        requires source { IsTreeSource source }
        ensures stands { IfOk result (StandsFor sinks.now topology.now.merges source) }
        ensures renewals { IfOk result
            (λ session. session.renewals ≡ length topology.now.merges) }
    {
        let merges = Listed::from_vec(Vec::from_slice(alloc, topology.merges.as_slice())?);
        let own = Listed::from_vec(Vec::from_slice(alloc, sinks)?);
        let mut work = Work::with_room(alloc, sinks.len())?;
        merge(&mut work, sinks, topology);
        place(&mut work, sinks, topology, source);
        Ok(Session {
            sinks: own,
            topology: Topology { merges },
            source,
            work,
        })
    }

    /// Moves a register's sink. It renews the merges from the sink up to the root, also where the
    /// sink stays at its place, and then places all nodes. It takes no memory.
    pub fn move_sink(&mut self, register: u32, to: Uv)
        requires register { register < length self.old.sinks }
        requires below { IsUvBelow (10 ^ 31) to }
        requires multiple { IsUvMultipleOf 8 to }
        // That sink's place alone changes in what the session stands for.
        ensures stands { StandsFor (moved_sinks self.old.sinks register to) self.old.merges
            self.old.source self.new }
        // Each merge that has the sink below it is renewed once, and no other merge is.
        ensures renewals { self.new.renewals ≡ min (self.old.renewals
            + merges_above (length self.old.sinks) self.old.merges register) (2 ^ 64 - 1) }
    {
        let sink = moved_sink(self.sinks.as_slice(), register, to);
        self.sinks.set(register as usize, sink);
        self.work.set_sink(register, sink);
        let sinks = self.sinks.as_slice();
        renew_above(&mut self.work, sinks, &self.topology, register);
        place(&mut self.work, sinks, &self.topology, self.source);
    }

    /// The reach of a node; a sink's is its offset.
    pub fn reach(&self, node: u32) -> i128
        requires { node < 2 * length self.now.sinks }
        ensures { result ≡ reach_in self.now.tree node }
    {
        self.work.tree().reach.as_slice()[node as usize]
    }

    /// Where a node stands.
    pub fn place(&self, node: u32) -> Point
        requires { node < 2 * length self.now.sinks }
        ensures { result ≡ (embedding_of self.now.tree).place node }
    {
        self.work.place(node)
    }

    /// How long the edge down to a node is.
    pub fn length(&self, node: u32) -> i128
        requires { node < 2 * length self.now.sinks - 1 }
        ensures { result ≡ (embedding_of self.now.tree).length node }
    {
        self.work.tree().length.as_slice()[node as usize]
    }

    /// How long all edges are together.
    pub fn total(&self) -> i128
        ensures value { result ≡ total_wire (length self.now.sinks) (embedding_of self.now.tree) }
        ensures below { IsBelow (10 ^ 36) result }
        ensures stands { StandsFor self.now.sinks self.now.merges self.now.source self.now }
        ensures realises { RealisesOffsets 1 self.now.sinks self.now.merges
            (embedding_of self.now.tree) }
        // No embedding of the topology that realises the offsets has less wire.
        ensures least { IsLeastWire self.now.sinks self.now.merges self.now.source result }
    {
        total_length(self.work.tree().length.as_slice())
    }

    /// How many merges were made, by `open` and by moves; 2^64 - 1 for more.
    pub fn renewals(&self) -> u64
        ensures { result ≡ self.now.renewals }
    {
        self.work.renewals()
    }
}

// A register's sink at another place.
fn moved_sink(sinks: &[Sink], register: u32, to: Uv) -> Sink
    requires sinks { AreTreeSinks sinks.now }
    requires register { register < length sinks.now }
    requires below { IsUvBelow (10 ^ 31) to }
    requires multiple { IsUvMultipleOf 8 to }
    ensures value { result ≡ moved_sink sinks.now register to }
    ensures sink { IsTreeSink result }
{
    Sink {
        at: to,
        offset: sinks[register as usize].offset,
    }
}
