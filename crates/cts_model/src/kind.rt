ghost use Rattle.std.specs.Prelude.{◌≡◌};
ghost use Rattle.cts_model.specs.netlist.Kinds as kinds;

/// What defines a signal: one of the eight gates, a primary input, a register or the host.
#[derive(Clone, Copy, Debug, PartialEq, Eq)]
pub enum Kind {
    And,
    Nand,
    Or,
    Nor,
    Not,
    Xor,
    Xnor,
    /// A buffer.
    Buff,
    /// A primary input.
    Input,
    /// A register, which the format calls a D flip-flop.
    Dff,
    /// The host, a register that stands for what is outside of the netlist: primary inputs come
    /// from it, and primary outputs go to it. No line defines it.
    Host,
}

impl Kind {
    /// Whether it is one of the eight gates.
    pub fn is_gate(self) -> bool
        ensures { result ≡ kinds.is_gate self }
    {
        !matches!(self, Kind::Input | Kind::Dff | Kind::Host)
    }

    /// Whether it is a register: a D flip-flop or the host.
    pub fn is_register(self) -> bool
        ensures { result ≡ kinds.is_register self }
    {
        matches!(self, Kind::Dff | Kind::Host)
    }
}
