ghost use Rattle.std.specs.Prelude.{◌≡◌, ◌<◌, ◌↔◌, All, IsTrue, length};
ghost use Rattle.cert_check.specs.Vocabulary.{Captures, IsPath, Launches, Reads, LeadsTo};

use crate::given_path::ShownPath;
use crate::item::item_at;
use cts_model::{Circuit, Kind};

impl ShownPath<'_> {
    /// Whether its signals are a path from the one register to the other.
    pub(crate) fn is_path(&self) -> bool
        ensures { IsTrue result
            ↔ IsPath self.now.circuit.now self.now.from self.now.to self.now.path.now }
    {
        match self.path {
            [] => false,
            [first, gates @ ..] => self.launches(*first) && self.leads_on(*first, gates),
        }
    }

    // Whether gates each read the one before, from a signal on, and the register captures the last.
    fn leads_on(&self, first: u32, gates: &[u32]) -> bool
        requires { All (λ number. number < length self.now.circuit.now.signals) gates.now }
        ensures { IsTrue result ↔ LeadsTo self.now.circuit.now first gates.now self.now.to }
    {
        let mut last = first;
        for gate in gates {
            if !reads(self.circuit, *gate, last) {
                return false;
            }
            last = *gate;
        }
        self.captures(last)
    }

    // Whether the register where it ends captures a signal.
    fn captures(&self, number: u32) -> bool
        ensures { IsTrue result ↔ Captures self.now.circuit.now self.now.to number }
    {
        let register = self.circuit.register_signal(self.to as usize);
        register.fan_in.as_slice().contains(&number)
    }

    // Whether the register where it begins launches a signal.
    fn launches(&self, number: u32) -> bool
        requires { number < length self.now.circuit.now.signals }
        ensures { IsTrue result ↔ Launches self.now.circuit.now self.now.from number }
    {
        let register = self.from as usize;
        if matches!(self.circuit.register_signal(register).kind, Kind::Host) {
            let signal = item_at(self.circuit.signals.as_slice(), number as usize);
            matches!(signal.kind, Kind::Input)
        } else {
            *item_at(self.circuit.registers.as_slice(), register) == number
        }
    }
}

// Whether a signal is a gate that reads another.
fn reads(circuit: &Circuit, gate: u32, read: u32) -> bool
    requires { gate < length circuit.now.signals }
    ensures { IsTrue result ↔ Reads circuit.now.signals gate read }
{
    let signal = item_at(circuit.signals.as_slice(), gate as usize);
    signal.kind.is_gate() && signal.fan_in.as_slice().contains(&read)
}
