ghost use Rattle.std.specs.Prelude.{◌≡◌, ◌<◌, ◌≤◌, ◌^◌, ℕ, All, length, slice_index};
ghost use Rattle.critical_cycle.specs.Vocabulary.{IsBelow, AreWithin, tail_at};

use cts_model::Constraint;

/// A cycle of constraints, by their places in a list.
#[derive(Clone, Copy)]
pub(crate) struct Cycle<'a> {
    pub(crate) constraints: &'a [Constraint],
    pub(crate) places: &'a [u32],
    pub(crate) ghost within: { AreWithin constraints.now places.now },
    pub(crate) ghost few: { length places.now ≤ 4097 },
    pub(crate) ghost small: { All (λ constraint. IsBelow (10 ^ 11) constraint.weight)
        constraints.now },
}

impl Cycle<'_> {
    /// Where the constraint with the lowest tail stands in the cycle.
    pub(crate) fn place_of_lowest(&self) -> usize
        requires { 0 < length self.now.places.now }
        ensures within { result < length self.now.places.now }
        ensures lowest { (other : ℕ) → other < length self.now.places.now
            → tail_at self.now.constraints.now (slice_index self.now.places.now result)
            ≤ tail_at self.now.constraints.now (slice_index self.now.places.now other) }
    {
        let mut lowest = 0;
        for place in 0..self.places.len() {
            lowest = self.lower_of(lowest, place);
        }
        lowest
    }

    // Which of two constraints of the cycle has the lower tail.
    fn lower_of(&self, first: usize, second: usize) -> usize
        requires first { first < length self.now.places.now }
        requires second { second < length self.now.places.now }
        ensures within { result < length self.now.places.now }
        ensures first { tail_at self.now.constraints.now (slice_index self.now.places.now result)
            ≤ tail_at self.now.constraints.now (slice_index self.now.places.now first) }
        ensures second { tail_at self.now.constraints.now (slice_index self.now.places.now result)
            ≤ tail_at self.now.constraints.now (slice_index self.now.places.now second) }
    {
        if self.tail_of(first) <= self.tail_of(second) {
            first
        } else {
            second
        }
    }

    // The tail of a constraint of the cycle.
    fn tail_of(&self, turn: usize) -> u32
        requires { turn < length self.now.places.now }
        ensures { result ≡ tail_at self.now.constraints.now (slice_index self.now.places.now turn) }
    {
        self.constraints[self.places[turn] as usize].tail
    }
}
