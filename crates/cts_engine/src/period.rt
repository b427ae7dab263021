ghost use Rattle.std.specs.Prelude.{◌≡◌, ◌↔◌, ℕ, List, IfOk, IfErr};
ghost use Rattle.cts_engine.specs.Vocabulary.{HasNoPeriod, JoinsMoreThan, IsLoop, AreWithin, constraints_at, ArePairs, ShowsTooMany, HasSmallZero, IsPeriodOutcome, IsTiming};
ghost use Rattle.outcomes.specs.PeriodOutcomes.{BeginsLowest, IsNeverOutcome};

use crate::SynthFault;
use constraints::constraints_of;
use critical_cycle::{Period, least_period};
use cts_base::{Fraction, Listed, NoMemory};
use cts_model::{Circuit, Constraint, PairDelay, PeriodShow, Tech};
use gate_order::levels_of;
use outcomes::PeriodOutcome;
use path_delays::pair_delays;
use std::alloc::Global;
use timing_report::zero_skew;

/// The least period of a circuit, whenever the clock reaches each register, in ticks.
///
/// # Errors
///
/// More than 1,048,576 pairs of registers are joined by paths, or memory was refused.
pub fn period_of(alloc: Global, circuit: &Circuit, tech: &Tech) -> Result<PeriodOutcome, SynthFault>
    requires { (loop : List ℕ) → IsLoop circuit.now.signals loop → ⊥ }
    ensures ok { IfOk result (IsPeriodOutcome circuit.now tech.now) }
    ensures lowest { IfOk result BeginsLowest }
    ensures small { IfOk result HasSmallZero }
    ensures never { IfOk result (λ outcome. IsNeverOutcome outcome
        ↔ HasNoPeriod circuit.now tech.now) }
    ensures few { IfOk result (λ _. JoinsMoreThan circuit.now 1048576 → ⊥) }
    ensures many { IfErr result (ShowsTooMany circuit.now) }
{
    let levels = levels_of(alloc, circuit)?;
    let pairs = pair_delays(alloc, circuit, &levels, tech)?;
    let zero = zero_skew(&pairs, tech);
    match timing_of(alloc, circuit, tech, &pairs)? {
        Timing::Never { cycle } => Ok(PeriodOutcome::Never { cycle }),
        Timing::Found { period, shown, .. } => Ok(PeriodOutcome::Found {
            zero,
            period,
            shown,
        }),
    }
}

/// What comes of the least period of a circuit, without that at equal arrivals.
#[derive(Drop)]
pub(crate) enum Timing {
    /// The least period, what shows it, and the constraints of the circuit.
    Found {
        period: Fraction,
        shown: PeriodShow,
        constraints: Listed<Constraint>,
    },
    /// Constraints that forbid every period.
    Never {
        cycle: Listed<Constraint>,
    },
}

/// The least period of a circuit with these joined pairs.
pub(crate) fn timing_of(
    alloc: Global,
    circuit: &Circuit,
    tech: &Tech,
    pairs: &Listed<PairDelay>,
) -> Result<Timing, NoMemory>
    requires { ArePairs circuit.now tech.now pairs.now }
    ensures { IfOk result (IsTiming circuit.now tech.now) }
{
    let constraints = constraints_of(alloc, pairs, tech)?;
    match least_period(alloc, circuit.registers.len(), &constraints, tech.floor)? {
        Period::Cycle { value, cycle } => Ok(Timing::Found {
            period: value,
            shown: PeriodShow::Cycle(constraints_at(alloc, &constraints, &cycle)?),
            constraints,
        }),
        Period::Floor => Ok(Timing::Found {
            period: Fraction::of(tech.floor, 1),
            shown: PeriodShow::Floor,
            constraints,
        }),
        Period::Never { cycle } => Ok(Timing::Never {
            cycle: constraints_at(alloc, &constraints, &cycle)?,
        }),
    }
}

/// The constraints at these places of a list.
pub(crate) fn constraints_at(
    alloc: Global,
    constraints: &Listed<Constraint>,
    places: &Listed<u32>,
) -> Result<Listed<Constraint>, NoMemory>
    requires { AreWithin constraints.now places.now }
    ensures { IfOk result (λ listed. listed ≡ constraints_at constraints.now places.now) }
{
    let mut listed = Listed::new(alloc);
    for place in places.as_slice() {
        listed.push(constraints.as_slice()[*place as usize])?;
    }
    Ok(listed)
}
