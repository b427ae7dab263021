ghost use Rattle.std.specs.Prelude.{◌≡◌, ◌++◌, ◌∷◌, [], ◌<◌, ◌^◌, ◌==◌, ◌&&◌, ℕ, All, IfOk, OnOk, if◌then◌else◌, length, slice_index, count_by};
ghost use Rattle.gate_order.specs.Vocabulary.{AreIdleGates, AreReleased, CanRelease, IsReleased, IsSorted, is_gate_at};

use crate::gate_reads::{gate_reads, is_gate_at};
use crate::groups::Groups;
use cts_base::NoMemory;
use cts_model::Circuit;
use std::alloc::Global;

/// Gates in the order in which they stop waiting for the gates that they read.
#[derive(Drop)]
pub(crate) struct Sorting {
    /// For each signal how many of its inputs are gates that it still waits for.
    pub(crate) waiting: Vec<u32>,
    /// The gates that wait for none.
    pub(crate) order: Vec<u32>,
}

/// Sorts the gates of a circuit, up to those that wait for one another. Kahn, "Topological sorting
/// of large networks", 1962. It goes over the signals and their inputs a fixed number of times.
pub(crate) fn sorted(alloc: Global, circuit: &Circuit) -> Result<Sorting, NoMemory>
    ensures { IfOk result
        (λ sorting. IsSorted circuit.now.signals sorting.waiting.items sorting.order.items) }
{
    let signals = circuit.signals.len();
    let pairs = gate_reads(alloc, circuit)?;
    let readers = Groups::of(alloc, signals, pairs.as_slice())?;
    let waiting = waiting_counts(alloc, signals, pairs.as_slice())?;
    let order = idle_gates(alloc, circuit, waiting.as_slice())?;
    let mut sorting = Sorting { waiting, order };
    let mut taken = 0;
    while taken < sorting.order.len() {
        let gate = sorting.order[taken];
        sorting.release_all(readers.group(gate as usize))?;
        taken += 1;
    }
    Ok(sorting)
}

// How many pairs have each number second: for how many inputs a signal waits.
fn waiting_counts(alloc: Global, signals: usize, pairs: &[(u32, u32)]) -> Result<Vec<u32>, NoMemory>
    requires numbers { All (λ pair. pair.1 < signals) pairs.now }
    requires few { length pairs.now < 2 ^ 32 }
    ensures len { IfOk result (λ counts. length counts.items ≡ signals) }
    ensures each { IfOk result (λ counts. (number : ℕ)
        → slice_index counts.items number ≡ count_by (λ pair. pair.1 == number) pairs.now) }
{
    let mut counts = vec![in alloc; 0u32; signals]?;
    for pair in pairs {
        counts[pair.1 as usize] += 1;
    }
    Ok(counts)
}

// The gates that wait for none from the start.
fn idle_gates(alloc: Global, circuit: &Circuit, waiting: &[u32]) -> Result<Vec<u32>, NoMemory>
    requires { length waiting.now ≡ length circuit.now.signals }
    ensures { IfOk result
        (λ order. AreIdleGates circuit.now.signals waiting.now (length waiting.now) order.items) }
{
    let mut order = Vec::new(alloc);
    for number in 0..waiting.len() {
        push_idle(&mut order, circuit, waiting, number as u32)?;
    }
    Ok(order)
}

// Puts a signal last, if it is a gate that waits for none.
fn push_idle(
    order: &mut Vec<u32>,
    circuit: &Circuit,
    waiting: &[u32],
    number: u32,
) -> Result<(), NoMemory>
    requires { number < length waiting.now }
    ensures { OnOk result (order.new.items ≡ order.old.items
        ++ (if is_gate_at circuit.now.signals number && (slice_index waiting.now number == 0)
        then number ∷ [] else [])) }
{
    if !is_gate_at(circuit.signals.as_slice(), number) || waiting[number as usize] > 0 {
        return Ok(());
    }
    order.push(number)?;
    Ok(())
}

impl Sorting {
    // Has each reader of a gate wait for one gate less.
    fn release_all(&mut self, readers: &[u32]) -> Result<(), NoMemory>
        requires { CanRelease readers.now self.old.waiting.items }
        ensures { OnOk result (AreReleased readers.now self.old.waiting.items
            self.old.order.items self.new.waiting.items self.new.order.items) }
    {
        for reader in readers {
            self.release(*reader)?;
        }
        Ok(())
    }

    // Has a gate wait for one gate less. Where it waits for none now, it comes last in the order.
    fn release(&mut self, gate: u32) -> Result<(), NoMemory>
        requires { 0 < slice_index self.old.waiting.items gate }
        ensures { OnOk result (IsReleased gate self.old.waiting.items
            self.old.order.items self.new.waiting.items self.new.order.items) }
    {
        let waiting = self.waiting[gate as usize] - 1;
        self.waiting[gate as usize] = waiting;
        if waiting > 0 {
            return Ok(());
        }
        self.order.push(gate)?;
        Ok(())
    }
}
