ghost use Rattle.std.specs.Prelude.{◌↔◌, ℕ, List, IfOk, IfErr};
ghost use Rattle.cts_engine.specs.Vocabulary.{HasNoPeriod, JoinsMoreThan, IsLoop, ShowsTooMany, HasSmallTimes, IsScheduleOutcome, period_outcome};
ghost use Rattle.outcomes.specs.PeriodOutcomes.{BeginsLowest, IsNeverOutcome};

use crate::SynthFault;
use crate::period::{Timing, timing_of};
use cts_model::{Circuit, Tech};
use gate_order::levels_of;
use outcomes::ScheduleOutcome;
use path_delays::pair_delays;
use schedule::least_schedule;
use std::alloc::Global;
use timing_report::{slacks, zero_skew};

/// The least schedule of a circuit at its least period, in ticks.
///
/// # Errors
///
/// More than 1,048,576 pairs of registers are joined by paths, or memory was refused.
pub fn schedule_of(
    alloc: Global,
    circuit: &Circuit,
    tech: &Tech,
) -> Result<ScheduleOutcome, SynthFault>
    requires { (loop : List ℕ) → IsLoop circuit.now.signals loop → ⊥ }
    ensures ok { IfOk result (IsScheduleOutcome circuit.now tech.now) }
    ensures lowest { IfOk result (λ outcome. BeginsLowest (period_outcome outcome)) }
    ensures small { IfOk result HasSmallTimes }
    ensures never { IfOk result (λ outcome.
        IsNeverOutcome (period_outcome outcome) ↔ HasNoPeriod circuit.now tech.now) }
    ensures few { IfOk result (λ _. JoinsMoreThan circuit.now 1048576 → ⊥) }
    ensures many { IfErr result (ShowsTooMany circuit.now) }
{
    let levels = levels_of(alloc, circuit)?;
    let pairs = pair_delays(alloc, circuit, &levels, tech)?;
    let zero = zero_skew(&pairs, tech);
    let timing = timing_of(alloc, circuit, tech, &pairs)?;
    drop(pairs);
    match timing {
        Timing::Never { cycle } => Ok(ScheduleOutcome::Never { cycle }),
        Timing::Found {
            period,
            shown,
            constraints,
        } => {
            let registers = circuit.registers.len();
            let schedule = least_schedule(alloc, registers, &constraints, period)?;
            let slacks = slacks(alloc, circuit, &levels, tech, &schedule, period)?;
            Ok(ScheduleOutcome::Found {
                zero,
                period,
                shown,
                schedule,
                slacks,
            })
        }
    }
}
