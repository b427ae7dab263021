ghost use Rattle.std.specs.Prelude.{◌≡◌, ◌<◌, ◌≤◌, ◌+◌, ◌++◌, ℕ, true, IfOk, OnOk, All, length, sum_by};
ghost use Rattle.path_delays.specs.Vocabulary.{IsLevelsOf, AreWithin, delay_limit, most_of, rank_at, narrow_limit, AreAllReads, AreCapturedUpTo, AreRanks, IsNetworkOf, all_reads_by};

use crate::gate_delays::gate_delays;
use crate::launching::input_signals;
use crate::sums::Sums;
use cts_base::NoMemory;
use cts_model::{Circuit, Signal, Tech};
use gate_order::{Groups, Levels};
use std::alloc::Global;

/// What walks over a circuit go by.
#[derive(Drop)]
pub(crate) struct Network {
    /// The gates that read each signal, each as often as it reads it.
    pub(crate) readers: Groups,
    /// The gates, each after those that it reads.
    pub(crate) order: Vec<u32>,
    /// For each signal its place in the order, counted from 1, or 0 where it is no gate.
    pub(crate) ranks: Vec<u32>,
    /// The least and the greatest delay of each gate.
    pub(crate) delays: Vec<Sums>,
    /// The primary inputs.
    pub(crate) inputs: Vec<u32>,
}

impl Network {
    /// The network of a circuit: passes over its inputs and its gates.
    pub(crate) fn new(
        alloc: Global,
        circuit: &Circuit,
        levels: &Levels,
        tech: &Tech,
    ) -> Result<Network, NoMemory>
        requires { IsLevelsOf circuit.now levels.now }
        ensures network { IfOk result (IsNetworkOf circuit.now tech.now) }
        ensures order { IfOk result (λ network. network.order.items ≡ levels.now) }
    {
        let signals = circuit.signals.len();
        let pairs = Network::all_reads(alloc, circuit)?;
        let readers = Groups::of(alloc, signals, pairs.as_slice())?;
        let order = Vec::from_slice(alloc, levels.gates())?;
        let ranks = Network::ranks(alloc, circuit, levels)?;
        let delays = gate_delays(alloc, circuit, tech)?;
        let inputs = input_signals(alloc, circuit)?;
        Ok(Network {
            readers,
            order,
            ranks,
            delays,
            inputs,
        })
    }

    /// True only where the greatest delays of all gates together, and a million ticks for the
    /// register, are at most 2^29 - 1, so that lanes of 32 bits hold the sums along each path.
    pub(crate) fn is_short(&self) -> bool
        requires { All (AreWithin delay_limit) self.now.delays.items }
        ensures { result ≡ true → 1000000 + sum_by most_of self.now.delays.items ≤ narrow_limit }
    {
        let mut left = 535_870_911_i64;
        for delay in self.delays.as_slice() {
            let most = delay.least.max(delay.greatest);
            if most > left {
                return false;
            }
            left -= most;
        }
        true
    }

    /// The highest rank of the signals that the registers of a circuit capture. One pass over
    /// these.
    pub(crate) fn captured_top(&self, circuit: &Circuit) -> u32
        ensures { (register : ℕ) → AreCapturedUpTo circuit.now self.now register result }
    {
        let mut top = 0;
        for register in 0..circuit.registers.len() {
            let captured = circuit.register_signal(register).fan_in.as_slice();
            top = self.top_of(top, captured);
        }
        top
    }

    /// The highest of a rank and those of some signals.
    pub(crate) fn top_of(&self, rank: u32, signals: &[u32]) -> u32
        ensures rank { rank ≤ result }
        ensures signals { All (λ signal. rank_at self.now signal ≤ result) signals.now }
    {
        let mut top = rank;
        for signal in signals {
            top = higher(top, self.rank(*signal));
        }
        top
    }

    // The rank of a signal.
    fn rank(&self, signal: u32) -> u32
        ensures { result ≡ rank_at self.now signal }
    {
        match self.ranks.get(signal as usize) {
            Some(rank) => *rank,
            None => 0,
        }
    }

    // The pairs of a signal that is read and a gate that reads it, one for each input of a gate.
    fn all_reads(alloc: Global, circuit: &Circuit) -> Result<Vec<(u32, u32)>, NoMemory>
        ensures { IfOk result (λ pairs.
            AreAllReads circuit.now.signals (length circuit.now.signals) pairs.items) }
    {
        let mut pairs = Vec::new(alloc);
        for (number, signal) in circuit.signals.as_slice().iter().enumerate() {
            Network::push_inputs(&mut pairs, signal, number as u32)?;
        }
        Ok(pairs)
    }

    // Puts the pairs of a signal last, if it is a gate.
    fn push_inputs(
        pairs: &mut Vec<(u32, u32)>,
        signal: &Signal,
        number: u32,
    ) -> Result<(), NoMemory>
        ensures { OnOk result
            (pairs.new.items ≡ pairs.old.items ++ all_reads_by signal.now number) }
    {
        if !signal.kind.is_gate() {
            return Ok(());
        }
        for input in signal.fan_in.as_slice() {
            pairs.push((*input, number))?;
        }
        Ok(())
    }

    // The place of each gate in the order of the levels, counted from 1, and 0 for what is no gate.
    fn ranks(alloc: Global, circuit: &Circuit, levels: &Levels) -> Result<Vec<u32>, NoMemory>
        requires { IsLevelsOf circuit.now levels.now }
        ensures { IfOk result (λ ranks. AreRanks circuit.now.signals levels.now ranks.items) }
    {
        let mut ranks = vec![in alloc; 0u32; circuit.signals.len()]?;
        for (place, gate) in levels.gates().iter().enumerate() {
            ranks[*gate as usize] = place as u32 + 1;
        }
        Ok(ranks)
    }
}

// The higher of two ranks.
fn higher(first: u32, second: u32) -> u32
    ensures first { first ≤ result }
    ensures second { second ≤ result }
{
    first.max(second)
}
