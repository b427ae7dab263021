ghost use Rattle.std.specs.Prelude.{◌≡◌, ◌<◌, ◌≤◌, ◌^◌, All, IsTrue, Some, length, slice_get, slice_index_or, if◌then◌else◌};
ghost use Rattle.cert_check.specs.Vocabulary.{props, is_gate, is_valid, IsGate, IsBelow, IsWithin, gate_delay_by, through_by};

use crate::item::item_at;
use cts_model::{Circuit, Signal, Tech};

/// The gates that a path goes through, and the delays of a table.
#[derive(Clone, Copy)]
pub(crate) struct Gates<'a> {
    pub(crate) circuit: &'a Circuit,
    pub(crate) tech: &'a Tech,
    pub(crate) gates: &'a [u32],
    pub(crate) ghost each: { All (IsGate circuit.now.signals) gates.now } by { Prim.hlevel props },
    pub(crate) ghost few: { length gates.now ≤ 65536 },
}

impl Gates<'_> {
    /// Their greatest or their least delays, added up.
    pub(crate) fn through(&self, greatest: bool) -> i128
        ensures value { result ≡ through_by greatest self.now.circuit.now self.now.tech.now
            self.now.gates.now }
        ensures small { IsBelow (2 ^ 81) result }
    {
        let mut sum = 0;
        for place in 0..self.gates.len() {
            sum += i128::from(self.delay_at(place, greatest));
        }
        sum
    }

    // The greatest or the least delay of the gate at a place.
    fn delay_at(&self, place: usize, greatest: bool) -> i64
        requires { place < length self.now.gates.now }
        ensures { result ≡ gate_delay_by greatest self.now.tech.now
            (slice_get self.now.circuit.now.signals (slice_index_or self.now.gates.now place 0)) }
    {
        let gate = self.gates[place] as usize;
        let signal = item_at(self.circuit.signals.as_slice(), gate);
        gate_delay(self.tech, signal, greatest)
    }
}

/// The greatest or the least delay of a register.
pub(crate) fn register_delay(tech: &Tech, greatest: bool) -> i128
    ensures value { result ≡ (if greatest then tech.now.greatest else tech.now.least) }
    ensures small { IsWithin 0 1000000 result }
{
    if greatest { tech.greatest } else { tech.least }
}

// The greatest or the least delay of a gate.
fn gate_delay(tech: &Tech, signal: &Signal, greatest: bool) -> i64
    requires valid_inputs { IsTrue (is_valid signal.now.kind (length signal.now.fan_in)) }
    requires gate { IsTrue (is_gate signal.now.kind) }
    ensures { result ≡ gate_delay_by greatest tech.now (Some signal.now) }
{
    let delay = tech.delay_of(signal.kind);
    let inputs = signal.fan_in.len();
    if greatest {
        delay.greatest_of(inputs)
    } else {
        delay.least_of(inputs)
    }
}
