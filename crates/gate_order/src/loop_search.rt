ghost use Rattle.std.specs.Prelude.{◌≡◌, ◌<◌, ◌≤◌, ◌+◌, ◌++◌, ℕ, length, take, drop, Some, slice_get, slice_index, nat_lt, find, All, Contains, IfOk};
ghost use Rattle.gate_order.specs.Vocabulary.{IsNamedLoop, Reads, AllWait};

use cts_base::{Listed, NoMemory};
use cts_model::Circuit;
use std::alloc::Global;

// A ring among the signals that wait, by its gates from the lowest number on. From a gate the walk
// goes to one that it reads and that waits too, until it comes back to a gate that it went through.
pub(crate) fn named_loop(
    alloc: Global,
    circuit: &Circuit,
    waiting: &[u32],
    start: u32,
) -> Result<Listed<u32>, NoMemory>
    requires wait { AllWait circuit.now.signals waiting.now }
    requires start { 0 < slice_index waiting.now start }
    ensures { IfOk result (IsNamedLoop circuit.now.signals) }
{
    let mut seen = vec![in alloc; false; waiting.len()]?;
    let mut path = Vec::new(alloc);
    let mut gate = start;
    while !seen[gate as usize] {
        seen[gate as usize] = true;
        path.push(gate)?;
        gate = waiting_input(circuit, waiting, gate);
    }
    path.reverse();
    path.truncate(place_of(&path, gate) + 1);
    turn_to_lowest(&mut path);
    Ok(Listed::from_vec(path))
}

// The first input of a gate that waits too.
fn waiting_input(circuit: &Circuit, waiting: &[u32], gate: u32) -> u32
    requires wait { AllWait circuit.now.signals waiting.now }
    requires waits { 0 < slice_index waiting.now gate }
    ensures reads { Reads circuit.now.signals gate result }
    ensures waits { 0 < slice_index waiting.now result }
{
    let signal = &circuit.signals.as_slice()[gate as usize];
    first_waiting(waiting, signal.fan_in.as_slice()).unwrap()
}

// The first of these signals that waits.
fn first_waiting(waiting: &[u32], numbers: &[u32]) -> Option<u32>
    ensures { result ≡ find (λ number. nat_lt 0 (slice_index waiting.now number)) numbers.now }
{
    numbers
        .iter()
        .copied()
        .find(|number| waits(waiting, *number))
}

// Whether the number that a signal has there isn't 0.
fn waits(waiting: &[u32], number: u32) -> bool
    ensures { result ≡ nat_lt 0 (slice_index waiting.now number) }
{
    0 < waiting.get(number as usize).copied().unwrap_or(0)
}

// Turns a ring so that its lowest number comes first.
fn turn_to_lowest(ring: &mut [u32])
    requires { 0 < length ring.old }
    ensures rotated { (place : ℕ) × (ring.new ≡ drop place ring.old ++ take place ring.old) }
    ensures lowest { All (λ gate. slice_index ring.new 0 ≤ gate) ring.new }
{
    ring.rotate_left(place_of_lowest(ring));
}

// The place of the lowest number.
fn place_of_lowest(ring: &[u32]) -> usize
    requires { 0 < length ring.now }
    ensures within { result < length ring.now }
    ensures lowest { All (λ gate. slice_index ring.now result ≤ gate) ring.now }
{
    let lowest = ring.iter().copied().min().unwrap();
    place_of(ring, lowest)
}

// The first place of a gate.
fn place_of(gates: &[u32], gate: u32) -> usize
    requires { Contains gates.now gate }
    ensures within { result < length gates.now }
    ensures holds { slice_get gates.now result ≡ Some gate }
{
    gates.iter().position(|passed| *passed == gate).unwrap()
}
