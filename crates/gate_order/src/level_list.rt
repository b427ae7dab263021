ghost use Rattle.std.specs.Prelude.{◌≡◌, ℕ, List};

use std::marker::Model;

/// The gates of a circuit, in an order in which each comes after the gates that it reads.
#[derive(Drop)]
pub struct Levels {
    gates: Vec<u32>,
}

impl Model for Levels {
    ghost Value = { List ℕ };

    ghost view = { λ levels. levels.gates.items };
}

impl Levels {
    /// The order that a vector has. It takes no memory.
    pub(crate) fn from_vec(gates: Vec<u32>) -> Levels
        ensures { result ≡ gates.items }
    {
        Levels { gates }
    }

    /// The signal numbers of the gates in this order. It takes no memory.
    pub fn gates(&self) -> &[u32]
        ensures { result.now ≡ self.now }
    {
        self.gates.as_slice()
    }
}
