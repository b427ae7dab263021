ghost use Rattle.std.specs.Prelude.{◌≡◌, ◌≤◌, ◌↔◌, ℕ, ℤ, length, All, IfOk};
ghost use Rattle.cts_model.specs.declared.circuit.Circuit.{Circuit};
ghost use Rattle.cts_model.specs.Vocabulary.{Meets, ListsPairs, IsSmallPair, Satisfies, IsConstraintOf, AreSmallConstraints};
ghost use Rattle.constraints.specs.PairConstraints.{setup_constraint, hold_constraint, constraints_of_pairs, AreFewPairs};

use cts_base::{Listed, NoMemory};
use cts_model::{Constraint, PairDelay, Tech};
use std::alloc::Global;

/// What the delays of pairs ask of the arrivals at their registers, in ticks: of each pair in order
/// its setup constraint and then its hold constraint. It goes once over the pairs.
///
/// # Errors
///
/// There is no memory for the list, 64 bytes for each pair.
pub fn constraints_of(
    alloc: Global,
    pairs: &Listed<PairDelay>,
    tech: &Tech,
) -> Result<Listed<Constraint>, NoMemory>
    requires { All IsSmallPair pairs.now }
    ensures value { IfOk result
        (λ constraints. constraints ≡ constraints_of_pairs tech.now pairs.now) }
    ensures each { IfOk result (λ constraints. (circuit : Circuit)
        → ListsPairs circuit tech.now pairs.now
        → All (IsConstraintOf circuit tech.now) constraints) }
    ensures meets { IfOk result (λ constraints. (circuit : Circuit)
        → ListsPairs circuit tech.now pairs.now → (scale : ℕ) (period : ℤ) (arrival : ℕ → ℤ)
        → Satisfies constraints scale period arrival
        ↔ Meets circuit tech.now scale period arrival) }
    ensures small { IfOk result (λ constraints. (registers : ℕ)
        → AreFewPairs registers pairs.now → AreSmallConstraints registers constraints) }
    ensures registers { IfOk result (λ constraints. (circuit : Circuit)
        → ListsPairs circuit tech.now pairs.now → length pairs.now ≤ 1048576
        → AreSmallConstraints (length circuit.registers) constraints) }
{
    let mut constraints = Vec::with_capacity(alloc, pairs.len().saturating_mul(2))?;
    for pair in pairs.as_slice() {
        let setup = setup_constraint(pair, tech);
        let hold = hold_constraint(pair, tech);
        constraints.push(setup)?;
        constraints.push(hold)?;
    }
    Ok(Listed::from_vec(constraints))
}

// What the greatest delay asks.
fn setup_constraint(pair: &PairDelay, tech: &Tech) -> Constraint
    requires { IsSmallPair pair.now }
    ensures { result ≡ setup_constraint tech.now.setup pair.now }
{
    Constraint {
        setup: true,
        tail: pair.from,
        head: pair.to,
        weight: pair.greatest + tech.setup,
    }
}

// What the least delay asks.
fn hold_constraint(pair: &PairDelay, tech: &Tech) -> Constraint
    requires { IsSmallPair pair.now }
    ensures { result ≡ hold_constraint tech.now.hold pair.now }
{
    Constraint {
        setup: false,
        tail: pair.to,
        head: pair.from,
        weight: tech.hold - pair.least,
    }
}
