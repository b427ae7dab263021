//! What the lines of a report are judged by.

ghost use Rattle.std.specs.Prelude.{◌≡◌, IfOk, length};
ghost use Rattle.report_text.specs.Vocabulary.{register_names, signal_names, register_name, signal_name, IsNumberOf, IsSmallScale, scale_in};

use crate::field::Scale;
use crate::timing::signal_name;
use cts_base::NoMemory;
use cts_model::{Circuit, Grid};
use name_set::{HashKey, NameSet};
use std::alloc::Global;

/// What the lines of a report are judged by: a circuit, the names of its registers and of its
/// signals, and how fine its numbers are.
#[derive(Clone, Copy)]
pub(crate) struct Rules<'a> {
    pub alloc: Global,
    pub circuit: &'a Circuit,
    pub registers: &'a NameSet<'a>,
    pub signals: &'a NameSet<'a>,
    pub scale: Scale,
    ghost registered: { registers.now ≡ register_names circuit.now },
    ghost named: { signals.now ≡ signal_names circuit.now },
    ghost small: { IsSmallScale scale },
}

impl<'a> Rules<'a> {
    /// The same rules with the steps of a grid and of its period.
    pub(crate) fn on_grid(self, grid: Grid) -> Rules<'a>
        ensures circuit { result.circuit.now ≡ self.entry.circuit.now }
        ensures scale { result.scale ≡ scale_in grid.entry.tech.now grid.entry.period }
    {
        Rules {
            alloc: self.alloc,
            circuit: self.circuit,
            registers: self.registers,
            signals: self.signals,
            scale: scale_of(grid),
        }
    }

    /// The number of the register of that name. `None` says that no register has it.
    pub(crate) fn register(&self, name: &[u8]) -> Option<u32>
        ensures { IsNumberOf (register_name self.now.circuit.now)
            (length self.now.circuit.now.registers) name.now result }
    {
        self.registers.number_of(name)
    }

    /// The number of the signal of that name. `None` says that no signal has it.
    pub(crate) fn signal(&self, name: &[u8]) -> Option<u32>
        ensures { IsNumberOf (signal_name self.now.circuit.now)
            (length self.now.circuit.now.signals) name.now result }
    {
        self.signals.number_of(name)
    }
}

/// The names of the signals, in order.
pub(crate) fn signal_names(alloc: Global, circuit: &Circuit) -> Result<NameSet<'_>, NoMemory>
    ensures { IfOk result (λ names. names ≡ signal_names circuit.now) }
{
    let mut names = NameSet::new(alloc, HashKey::of_signals(circuit));
    for signal in 0..circuit.signals.len() {
        names.insert(signal_name(circuit, signal))?;
    }
    Ok(names)
}

// The steps of a grid and of its period.
fn scale_of(grid: Grid) -> Scale
    ensures value { result ≡ scale_in grid.entry.tech.now grid.entry.period }
    ensures small { IsSmallScale result }
{
    Scale {
        den: grid.period.den(),
        grid: grid.steps_of_unit(),
    }
}
