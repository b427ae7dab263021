ghost use Rattle.cts_model.specs.netlist.Circuits.{IsCircuit};

use crate::Signal;
use cts_base::Listed;

/// A sequential netlist. Signals are numbered from 0 in the order of the lines that define them,
/// and registers from 0 in the order of theirs.
#[derive(Debug, Drop)]
pub struct Circuit {
    /// The signals by their numbers.
    pub signals: Listed<Signal>,
    /// The signal number of each register.
    pub registers: Listed<u32>,
    /// The signal number of each primary output, in the order of the first mentions.
    pub outputs: Listed<u32>,
    pub ghost valid: { IsCircuit signals registers outputs },
}

impl Circuit {
    ghost use Rattle.std.specs.Prelude.{◌≡◌, ◌<◌, length, Some};
    ghost use Rattle.cts_model.specs.netlist.Paths.{register_signal, register_name};

    /// The signal that a register is.
    pub fn register_signal(&self, register: usize) -> &Signal
        requires { register < length self.now.registers }
        ensures { register_signal self.now register ≡ Some result.now }
    {
        let number = self.registers.as_slice()[register];
        &self.signals.as_slice()[number as usize]
    }

    /// The bytes of a register's name. The host is named `(host)`.
    pub fn register_name(&self, register: usize) -> &[u8]
        requires { register < length self.now.registers }
        ensures { result.now ≡ register_name self.now register }
    {
        self.register_signal(register).name.as_slice()
    }
}
