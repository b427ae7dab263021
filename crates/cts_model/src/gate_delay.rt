//! How long a gate delays, by the table's row of its kind.

ghost use Rattle.std.specs.Prelude.{◌≡◌, ◌≤◌, ◌<◌, ◌-◌, ◌+ℤ◌, ◌*ℤ◌, pos, IsTrue};
ghost use Rattle.cts_model.specs.netlist.Kinds.{is_gate, place_of};
ghost use Rattle.cts_model.specs.table.Tables.{IsGateDelay, IsWithin};
ghost use Rattle.cts_model.specs.timing.Delays.{delay_of};

use crate::kind::Kind;
use crate::tech::{GateDelay, Tech};

impl Tech {
    /// What the table says of a gate kind. It takes no memory.
    pub fn delay_of(&self, kind: Kind) -> &GateDelay
        requires { IsTrue (is_gate kind) }
        ensures of_kind { result.now ≡ delay_of self.now kind }
        ensures valid { IsGateDelay result.now }
    {
        &self.gates[place_of(kind)]
    }
}

impl GateDelay {
    /// The least delay of a gate with so many inputs, in ticks. It takes no memory.
    pub fn least_of(&self, inputs: usize) -> i64
        requires valid { IsGateDelay self.now }
        requires few { inputs ≤ 1024 }
        ensures { result ≡ self.now.least +ℤ (self.now.least_per_input *ℤ pos (inputs - 1)) }
    {
        summed(self.least, self.least_per_input, inputs.saturating_sub(1))
    }

    /// The greatest delay of a gate with so many inputs, in ticks. It takes no memory.
    pub fn greatest_of(&self, inputs: usize) -> i64
        requires valid { IsGateDelay self.now }
        requires few { inputs ≤ 1024 }
        ensures { result
            ≡ self.now.greatest +ℤ (self.now.greatest_per_input *ℤ pos (inputs - 1)) }
    {
        summed(
            self.greatest,
            self.greatest_per_input,
            inputs.saturating_sub(1),
        )
    }
}

// A gate's delay: that at one input, and what each further input adds.
fn summed(first: i128, per_input: i128, further: usize) -> i64
    requires first { IsWithin 0 1000000 first }
    requires per_input { IsWithin 0 1000 per_input }
    requires few { further ≤ 1024 }
    ensures { result ≡ first +ℤ (per_input *ℤ pos further) }
{
    (first + per_input * further as i128) as i64
}

// The place of a gate kind in a table.
fn place_of(kind: Kind) -> usize
    requires { IsTrue (is_gate kind) }
    ensures of_kind { result ≡ place_of kind }
    ensures within { result < 8 }
{
    kind as usize
}
