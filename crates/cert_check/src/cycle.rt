ghost use Rattle.std.specs.Prelude.{◌≡◌, ◌<◌, ◌↔◌, All, IsTrue, length};
ghost use Rattle.cert_check.specs.Vocabulary.{HoldsTogether, next_place, AreTailsBefore, CycleBroken, Judges, Together};

use crate::item::item_at;
use crate::judge::Judge;
use crate::verdict::{Reason, Stop};
use cts_model::Constraint;
use std::alloc::Global;

impl Judge<'_> {
    /// Whether the cycle holds together at each place.
    pub(crate) fn judge_joins(&self, alloc: Global) -> Result<(), Stop>
        ensures { Judges (length self.now.cycle.now) (Together self.now) CycleBroken result }
    {
        let mut seen = vec![in alloc; false; self.problem.circuit.registers.len()]?;
        for place in 0..self.cycle.len() {
            if !holds_together(self.cycle, place, seen.as_slice()) {
                return Err(Stop::At(Reason::CycleBroken(place as u32)));
            }
            let tail = item_at(self.cycle, place).tail;
            seen[tail as usize] = true;
        }
        Ok(())
    }
}

// Whether a cycle holds together at a place, by the registers where those before begin.
fn holds_together(cycle: &[Constraint], place: usize, seen: &[bool]) -> bool
    requires tails { All (λ constraint. constraint.tail < length seen.now) cycle.now }
    requires place { place < length cycle.now }
    requires seen { AreTailsBefore cycle.now place seen.now }
    ensures { IsTrue result ↔ HoldsTogether cycle.now place }
{
    let constraint = item_at(cycle, place);
    let next = item_at(cycle, next_place(cycle.len(), place));
    constraint.head == next.tail && !seen[constraint.tail as usize]
}

// The place after one in a round of so many.
fn next_place(places: usize, place: usize) -> usize
    requires { place < places }
    ensures next { result ≡ next_place places place }
    ensures within { result < places }
{
    if place + 1 == places { 0 } else { place + 1 }
}
