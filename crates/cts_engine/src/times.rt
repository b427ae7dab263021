ghost use Rattle.std.specs.Prelude.{◌≡◌, IfOk};
ghost use Rattle.cts_engine.specs.Vocabulary.{IsLevelsOf, AreTimes, HasLeastPeriod};

use crate::cycle_paths::cycle_paths;
use cts_base::{Fraction, Listed, NoMemory};
use cts_model::{Constraint, Lead, PeriodShow, Problem, Schedule, Slack};
use gate_order::Levels;
use path_delays::Paths;
use schedule::{leads, least_schedule};
use std::alloc::Global;
use timing_report::slacks;

/// The times of a report: the least schedule at its period, and what shows it and the period.
#[derive(Drop)]
pub(crate) struct Times {
    pub(crate) paths: Listed<Listed<u32>>,
    pub(crate) schedule: Schedule,
    pub(crate) slacks: Listed<Slack>,
    pub(crate) leads: Listed<Lead>,
}

/// The times at the least period of a problem's circuit, which these constraints have.
pub(crate) fn times_of(
    alloc: Global,
    problem: &Problem,
    levels: &Levels,
    paths: &mut Paths,
    constraints: &Listed<Constraint>,
    period: Fraction,
    shown: &PeriodShow,
) -> Result<Times, NoMemory>
    requires levels { IsLevelsOf problem.now.circuit levels.now }
    requires paths { paths.old
        ≡ record { circuit = problem.now.circuit; tech = problem.now.tech } }
    requires period { HasLeastPeriod problem.now.circuit problem.now.tech constraints.now period
        shown.now }
    ensures { IfOk result (AreTimes problem.now.circuit problem.now.tech period shown.now) }
{
    let Problem { circuit, tech, .. } = problem;
    let registers = circuit.registers.len();
    let paths = cycle_paths(alloc, paths, shown)?;
    let schedule = least_schedule(alloc, registers, constraints, period)?;
    let slacks = slacks(alloc, circuit, levels, tech, &schedule, period)?;
    let leads = leads(alloc, registers, constraints, period, &schedule)?;
    Ok(Times {
        paths,
        schedule,
        slacks,
        leads,
    })
}
