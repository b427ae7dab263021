ghost use Rattle.std.specs.Prelude.{◌≡◌, ◌<◌, ◌++◌, ℕ, All, List, OnOk, length};
ghost use Rattle.path_delays.specs.Vocabulary.{AreDelaysBetween};

use crate::lanes::{Block, Lane};
use crate::pair::{captured_sums, joined_pair};
use crate::path_search::Paths;
use cts_base::NoMemory;
use cts_model::PairDelay;

impl Paths<'_> {
    /// Appends the delays of up to sixteen pairs: one walk between them.
    pub(crate) fn push_delays(
        &mut self,
        delays: &mut Vec<Option<PairDelay>>,
        pairs: &Block<'_, (u32, u32)>,
    ) -> Result<(), NoMemory>
        requires { All (λ pair. (pair.0 < length self.old.circuit.registers)
            × (pair.1 < length self.old.circuit.registers)) pairs.now.items.now }
        ensures same { self.new ≡ self.old }
        ensures delays { OnOk result ((passed : List (ℕ × ℕ))
            → AreDelaysBetween self.old.circuit self.old.tech passed delays.old.items
            → AreDelaysBetween self.old.circuit self.old.tech (passed ++ pairs.now.items.now)
            delays.new.items) }
    {
        self.walk.walk_between(self.circuit, self.tech, pairs);
        for (lane, pair) in pairs.items.iter().enumerate() {
            let captured = self
                .circuit
                .register_signal(pair.1 as usize)
                .fan_in
                .as_slice();
            let sums = captured_sums(&self.walk, Lane { number: lane }, captured);
            delays.push(joined_pair(pair.0, pair.1, sums))?;
        }
        Ok(())
    }
}
