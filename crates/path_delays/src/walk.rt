ghost use Rattle.std.specs.Prelude.{◌≡◌, ◌<◌, ◌≤◌, ◌+◌, ◌-◌, ℕ, false, None, All, IfOk, IsTrue, length, slice_index_or};
ghost use Rattle.path_delays.specs.Vocabulary.{AreMerged, IsBounded, IsLevelsOf, has_number, HasReach, HaveReachBetween, IsRoomFor, sums_to, IsNetworkOf, HasReachRoom, HaveReachedUpTo, IsCleared, IsSpreadBelow};

use crate::lanes::{Block, LANES, Lane, LaneSums, block_end};
use crate::launching::{launched, start_sums};
use crate::network::Network;
use crate::number_set::NumberSet;
use crate::reach::Reach;
use crate::sums::Sums;
use cts_base::NoMemory;
use cts_model::{Circuit, Tech};
use gate_order::Levels;
use std::alloc::Global;

/// Up to sixteen registers of a circuit, from which a walk goes in a lane each.
#[derive(Clone, Copy)]
pub(crate) struct Launches<'a> {
    pub(crate) circuit: &'a Circuit,
    pub(crate) tech: &'a Tech,
    pub(crate) registers: &'a [u32],
    pub(crate) ghost few: { length registers.now ≤ 16 },
    pub(crate) ghost within: { All (λ from. from < length circuit.now.registers) registers.now },
}

/// Room for walks from registers, used again from walk to walk.
#[derive(Drop)]
pub(crate) struct Walk {
    network: Network,
    reach: Reach,
    /// The highest rank of the signals that registers capture.
    top: u32,
}

impl Walk {
    /// Room for walks over a circuit.
    pub(crate) fn new(
        alloc: Global,
        circuit: &Circuit,
        levels: &Levels,
        tech: &Tech,
    ) -> Result<Walk, NoMemory>
        requires { IsLevelsOf circuit.now levels.now }
        ensures { IfOk result (IsRoomFor circuit.now tech.now) }
    {
        let network = Network::new(alloc, circuit, levels, tech)?;
        let signals = circuit.signals.len() as u32;
        let gates = levels.gates().len() as u32;
        let reach = Reach::new(alloc, signals, gates, network.is_short())?;
        let top = network.captured_top(circuit);
        Ok(Walk {
            network,
            reach,
            top,
        })
    }

    /// Walks from up to sixteen registers, from one number on, to all that they reach and that a
    /// register captures, each in a lane. It tells the number after theirs, and takes no memory.
    /// Gates above all that is captured are left out.
    pub(crate) fn walk_block(&mut self, circuit: &Circuit, tech: &Tech, first: usize) -> usize
        requires first { first < length circuit.now.registers }
        requires room { IsRoomFor circuit.now tech.now self.old }
        ensures room { IsRoomFor circuit.now tech.now self.new }
        ensures after { first < result }
        ensures within { result ≤ length circuit.now.registers }
        ensures few { result ≤ first + 16 }
        ensures reach { (from : ℕ) → first ≤ from → from < result
            → HasReach circuit.now tech.now from (from - first) self.new }
        ensures bounded { IsBounded self.new.reach }
    {
        let end = block_end(first, circuit.registers.len());
        let mut registers = [0; LANES];
        for from in first..end {
            registers[from - first] = from as u32;
        }
        let launches = Launches {
            circuit,
            tech,
            registers: &registers[..end - first],
        };
        self.reach.reach_up_to(&self.network, &launches, self.top);
        end
    }

    /// Walks from the first of each of up to sixteen pairs of registers, each in a lane, up to the
    /// highest rank of what the second ones capture. It takes no memory.
    pub(crate) fn walk_between(
        &mut self,
        circuit: &Circuit,
        tech: &Tech,
        pairs: &Block<'_, (u32, u32)>,
    )
        requires room { IsRoomFor circuit.now tech.now self.old }
        requires pairs { All (λ pair. (pair.0 < length circuit.now.registers)
            × (pair.1 < length circuit.now.registers)) pairs.now.items.now }
        ensures reach { HaveReachBetween circuit.now tech.now pairs.now.items.now self.new }
        ensures room { IsRoomFor circuit.now tech.now self.new }
    {
        let mut registers = [0; LANES];
        let mut top = 0;
        for (lane, pair) in pairs.items.iter().enumerate() {
            registers[lane] = pair.0;
            let captured = circuit.register_signal(pair.1 as usize).fan_in.as_slice();
            top = self.network.top_of(top, captured);
        }
        let from = Launches {
            circuit,
            tech,
            registers: &registers[..pairs.items.len()],
        };
        self.reach.reach_up_to(&self.network, &from, top);
    }

    /// The signals that any register reaches.
    pub(crate) fn reached(&self) -> &NumberSet
        ensures { result.now ≡ self.now.reach.reached }
    {
        &self.reach.reached
    }

    /// The sums to a signal from the register in a lane, `None` where that doesn't reach it.
    pub(crate) fn sums(&self, lane: Lane, signal: u32) -> Option<Sums>
        ensures { result ≡ sums_to self.now lane.number signal }
    {
        self.reach.sums_at(lane, signal)
    }

    /// The sums to a signal that some register reaches, from the one in a lane, `None` where that
    /// one doesn't reach it.
    pub(crate) fn held_sums(&self, lane: Lane, signal: u32) -> Option<Sums>
        requires { IsTrue (has_number self.now.reach.reached.words.items signal) }
        ensures { result ≡ sums_to self.now lane.number signal }
    {
        self.reach.lanes.sums(signal as usize, lane)
    }

    /// In each lane the least and the greatest of the sums to some signals.
    pub(crate) fn merged_sums(&self, signals: &[u32]) -> LaneSums
        requires { IsBounded self.now.reach }
        ensures { AreMerged self.now signals.now result }
    {
        self.reach.lanes.merged(&self.reach.reached, signals)
    }

    /// False only in lanes whose register doesn't reach the signal.
    pub(crate) fn lanes_to(&self, signal: u32) -> [bool; 16]
        ensures { (lane : ℕ) → lane < 16 → slice_index_or result lane false ≡ false
            → sums_to self.now lane signal ≡ None }
    {
        self.reach.lanes.filled(signal as usize)
    }
}

impl Reach {
    // Reaches what registers reach up to a rank: what each launches hands on its sums, and then
    // each gate when no lower rank waits.
    fn reach_up_to(&mut self, network: &Network, from: &Launches<'_>, top: u32)
        requires network { IsNetworkOf from.now.circuit.now from.now.tech.now network.now }
        requires room { HasReachRoom network.now self.old }
        ensures reach { HaveReachedUpTo from.now.circuit.now from.now.tech.now network.now
            from.now.registers.now top self.new }
        ensures room { HasReachRoom network.now self.new }
        ensures bounded { IsBounded self.new }
    {
        self.clear();
        self.launch_all(network, from);
        let mut rank = 1;
        while let Some(next) = self.waiting.take_lowest(rank) {
            if next > top {
                return;
            }
            self.hand_on(network, network.order[next as usize - 1]);
            rank = next + 1;
        }
    }

    // What each of the registers launches hands on its sums.
    fn launch_all(&mut self, network: &Network, from: &Launches<'_>)
        requires network { IsNetworkOf from.now.circuit.now from.now.tech.now network.now }
        requires room { HasReachRoom network.now self.old }
        requires clear { IsCleared self.old }
        ensures launched { IsSpreadBelow from.now.circuit.now from.now.tech.now network.now
            from.now.registers.now (length from.now.registers.now) 1 self.new }
        ensures room { HasReachRoom network.now self.new }
    {
        for lane in 0..from.registers.len() {
            self.launch(network, from, Lane { number: lane });
        }
    }

    // What the register of a lane launches hands on its sums.
    fn launch(&mut self, network: &Network, from: &Launches<'_>, lane: Lane)
        requires network { IsNetworkOf from.now.circuit.now from.now.tech.now network.now }
        requires room { HasReachRoom network.now self.old }
        requires lane { lane.number < length from.now.registers.now }
        requires launched { IsSpreadBelow from.now.circuit.now from.now.tech.now network.now
            from.now.registers.now lane.number 1 self.old }
        ensures launched { IsSpreadBelow from.now.circuit.now from.now.tech.now network.now
            from.now.registers.now (lane.number + 1) 1 self.new }
        ensures room { HasReachRoom network.now self.new }
    {
        let sums = start_sums(from.tech);
        let register = from.registers[lane.number] as usize;
        for signal in launched(from.circuit, network.inputs.as_slice(), register) {
            self.mark(lane, *signal, sums);
            self.hand_on(network, *signal);
        }
    }
}
