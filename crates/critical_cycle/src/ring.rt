ghost use Rattle.std.specs.Prelude.{◌≡◌, ◌<◌, ℕ, ℤ, pos, ◌<ℤ◌, List, length, drop, Some};
ghost use Rattle.critical_cycle.specs.Vocabulary.{AreParents, AreSmallConstraints, AreWithin, Constraint, EndsClimb, Gains, IsCycle, constraints_at, parent_of, total_gain};

use cts_model::Constraint;

/// Goes up the parents from a register until back at it. The places of these constraints come last
/// in the list, in the order in which they lead; where they begin is the answer.
pub(crate) fn go_round(
    places: &mut [u32],
    constraints: &[Constraint],
    parents: &[u32],
    start: u32,
) -> usize
    requires room { length places.old ≡ length parents.now }
    requires small { AreSmallConstraints (length parents.now) constraints.now }
    requires heads { (register : ℕ) (parent : Constraint)
        → parent_of constraints.now parents.now register ≡ Some parent → parent.head ≡ register }
    requires climb { EndsClimb constraints.now parents.now start }
    ensures len { length places.new ≡ length places.old }
    ensures some { result < length places.new }
    ensures within { AreWithin constraints.now (drop result places.new) }
    ensures cycle { IsCycle (constraints_at constraints.now (drop result places.new)) }
    ensures gains { (trial : Gains) (values : List ℤ)
        → AreParents constraints.now trial values parents.now
        → pos 0 <ℤ total_gain trial (constraints_at constraints.now (drop result places.new)) }
{
    let mut at = places.len();
    let mut register = start;
    loop {
        let place = parents[register as usize];
        at -= 1;
        places[at] = place;
        register = constraints[place as usize].tail;
        if register == start {
            return at;
        }
    }
}
