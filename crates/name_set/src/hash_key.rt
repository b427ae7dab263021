use cts_model::Circuit;
use std::hash::{BuildHasher, DefaultHasher, FoldHasher, Hasher};

/// What names are hashed under: 64 bits that SipHash-1-3 makes of all that whoever picks the names
/// could pick. So names that collide under one text don't under another. No clause says which bits:
/// they decide only how long a look-up takes.
#[derive(Clone, Copy)]
pub struct HashKey {
    start: FoldHasher,
}

impl HashKey {
    /// The key of the names that a text defines. It goes over the bytes once.
    pub fn of_text(text: &[u8]) -> HashKey {
        let mut digest = DefaultHasher::new();
        digest.write(text);
        HashKey::of_digest(digest.finish())
    }

    /// The key of the names of a circuit's signals. It goes over their bytes once.
    pub fn of_signals(circuit: &Circuit) -> HashKey {
        let mut digest = DefaultHasher::new();
        for signal in circuit.signals.as_slice() {
            digest.write(signal.name.as_slice());
            digest.write_u8(b'\n');
        }
        HashKey::of_digest(digest.finish())
    }

    /// The key of the names of a circuit's registers. It goes over their bytes once.
    pub fn of_registers(circuit: &Circuit) -> HashKey {
        let mut digest = DefaultHasher::new();
        for register in 0..circuit.registers.len() {
            digest.write(circuit.register_name(register));
            digest.write_u8(b'\n');
        }
        HashKey::of_digest(digest.finish())
    }

    fn of_digest(digest: u64) -> HashKey {
        let mut start = FoldHasher::default();
        start.write_u64(digest);
        HashKey { start }
    }
}

impl BuildHasher for HashKey {
    type Hasher = FoldHasher;

    ghost build_hasher = { λ key. key.start };

    fn build_hasher(&self) -> FoldHasher {
        self.start
    }
}
