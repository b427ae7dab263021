ghost use Rattle.std.specs.Prelude.{◌≡◌, ◌<◌, ◌*◌, ◌^◌, Some, IfOk, if◌then◌else◌, length};
ghost use Rattle.path_delays.specs.Vocabulary.{Lanes, AreWithin, delay_limit, rows_of, narrow_limit, CanHandOn, HasReachRoom, HasRoomAt, IsCleared, IsHanded, IsHandedOn, IsMarked, IsSameRoom, lanes_at, limit_of, sums_at};

use crate::lane_table::LaneTable;
use crate::lanes::Lane;
use crate::network::Network;
use crate::number_set::NumberSet;
use crate::sums::Sums;
use cts_base::NoMemory;
use std::alloc::Global;

/// What a walk has reached so far.
#[derive(Drop)]
pub(crate) struct Reach {
    /// The signals that are reached.
    pub(crate) reached: NumberSet,
    /// The sums to each of them.
    pub(crate) lanes: LaneTable,
    /// The ranks of the gates that are reached and haven't handed on their sums.
    pub(crate) waiting: NumberSet,
}

impl Reach {
    /// Nothing reached yet, with room for so many signals and gates, of a short network or another.
    pub(crate) fn new(
        alloc: Global,
        signals: u32,
        gates: u32,
        short: bool,
    ) -> Result<Reach, NoMemory>
        ensures lanes { IfOk result (λ reach. length (rows_of reach.lanes) ≡ signals) }
        ensures limit { IfOk result
            (λ reach. limit_of reach ≡ (if short then narrow_limit else delay_limit)) }
        ensures reached { IfOk result (λ reach. signals < 64 * length reach.reached.words.items) }
        ensures waiting { IfOk result (λ reach. gates < 64 * length reach.waiting.words.items) }
        ensures small { gates < 2 ^ 31
            → IfOk result (λ reach. 64 * length reach.waiting.words.items < 2 ^ 32) }
        ensures clear { IfOk result IsCleared }
    {
        Ok(Reach {
            reached: NumberSet::new(alloc, signals)?,
            lanes: LaneTable::new(alloc, signals as usize, short)?,
            waiting: NumberSet::new(alloc, gates)?,
        })
    }

    /// Forgets what was reached.
    pub(crate) fn clear(&mut self)
        ensures room { IsSameRoom self.old self.new }
        ensures clear { IsCleared self.new }
    {
        self.reached.clear();
        self.waiting.clear();
    }

    /// The sums to a signal in a lane, if it is reached there.
    pub(crate) fn sums_at(&self, lane: Lane, signal: u32) -> Option<Sums>
        ensures { result ≡ sums_at self.now lane.number signal }
    {
        if !self.reached.contains(signal) {
            return None;
        }
        self.lanes.sums(signal as usize, lane)
    }

    /// Reaches a signal in a lane.
    pub(crate) fn mark(&mut self, lane: Lane, signal: u32, sums: Sums)
        requires room { HasRoomAt signal self.old }
        requires sums { AreWithin (limit_of self.old) sums }
        ensures { IsMarked lane.number signal sums self.old self.new }
    {
        let first = !self.reached.contains(signal);
        self.reached.insert(signal);
        self.lanes.join(signal as usize, lane, sums, first);
    }

    /// Hands the sums to a signal to each gate that reads it.
    pub(crate) fn hand_on(&mut self, network: &Network, signal: u32)
        requires { CanHandOn network.now signal self.old }
        ensures on { IsHandedOn network.now signal self.old self.new }
        ensures room { HasReachRoom network.now self.new }
    {
        for gate in network.readers.group(signal as usize) {
            self.hand_to(network, signal, *gate);
        }
    }

    // Hands the sums to a signal to a gate: it keeps the least and the greatest of those that come.
    fn hand_to(&mut self, network: &Network, signal: u32, gate: u32)
        requires signal { CanHandOn network.now signal self.old }
        requires gate { gate < length network.now.ranks.items }
        ensures { (given : Lanes) → lanes_at self.old signal ≡ Some given
            → IsHanded network.now given gate self.old self.new }
    {
        let delay = network.delays[gate as usize];
        if self.reached.contains(gate) {
            self.lanes.merge(signal as usize, gate as usize, delay);
        } else {
            self.reached.insert(gate);
            self.lanes.pass(signal as usize, gate as usize, delay);
            self.waiting.insert(network.ranks[gate as usize]);
        }
    }
}
