ghost use Rattle.std.specs.Prelude.{◌≡◌, ◌<◌, ◌==◌, ℕ, false, None, if◌then◌else◌, slice_index_or};
ghost use Rattle.path_delays.specs.Vocabulary.{Lanes, AllBounded, lane_of, AreWithin, merged_sums, no_sums, some_sums, sums_through};

use crate::lanes::Lane;
use crate::sums::Sums;

/// The sums to a signal from several registers, in a lane each.
pub(crate) trait Row: Copy {
    /// The same sums in lanes of 64 bits.
    ghost wide: { Self → Lanes };

    /// They hold sums up to this many ticks.
    ghost limit: { ℕ };

    /// No sums in any lane.
    fn none() -> Self
        ensures { (lane : ℕ) → lane < 16 → lane_of (wide result) lane ≡ no_sums };

    /// The sums in a lane, if there are any.
    fn in_lane(&self, lane: Lane) -> Option<Sums>
        ensures { result ≡ some_sums (lane_of (wide self.now) lane.number) };

    /// False in lanes that have no sums.
    fn filled(&self) -> [bool; 16]
        ensures { (lane : ℕ) → lane < 16 → slice_index_or result lane false ≡ false
            → some_sums (lane_of (wide self.now) lane) ≡ None };

    /// In one lane the least and the greatest of both.
    fn join(&mut self, lane: Lane, sums: Sums)
        requires { AreWithin limit sums }
        ensures { (other : ℕ) → other < 16 → lane_of (wide self.new) other
            ≡ (if other == lane.number then merged_sums (lane_of (wide self.old) other) sums
            else lane_of (wide self.old) other) };

    /// Becomes the sums after one more gate.
    fn pass(&mut self, delay: Sums)
        requires sums { AllBounded limit (wide self.old) }
        requires delay { AreWithin limit delay }
        ensures { (lane : ℕ) → lane < 16 → lane_of (wide self.new) lane
            ≡ sums_through (lane_of (wide self.old) lane) delay };

    /// In each lane the least and the greatest of both.
    fn merge(&mut self, other: &Self)
        ensures { (lane : ℕ) → lane < 16 → lane_of (wide self.new) lane
            ≡ merged_sums (lane_of (wide self.old) lane) (lane_of (wide other.now) lane) };
}
