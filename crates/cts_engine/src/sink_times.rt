ghost use Rattle.std.specs.Prelude.{◌≡◌, IfOk, IfErr};
ghost use Rattle.cts_engine.specs.Vocabulary.{JoinsMoreThan, IsLevelsOf, ShowsTooMany, HasLeastPeriod, AreTimedSinks, IsSinkOutcome, StartsLowest};

use crate::SynthFault;
use crate::period::{Timing, timing_of};
use crate::times::{Times, times_of};
use cts_base::{Fraction, Listed, NoMemory};
use cts_model::{Constraint, Grid, PeriodShow, Problem, Sink};
use gate_order::{Levels, levels_of};
use path_delays::Paths;
use std::alloc::Global;

/// The registers of a problem as the sinks of a tree, and the times that give their offsets.
#[derive(Drop)]
pub(crate) struct TimedSinks {
    pub(crate) period: Fraction,
    pub(crate) shown: PeriodShow,
    pub(crate) times: Times,
    pub(crate) sinks: Listed<Sink>,
}

/// What a problem asks of a tree over its registers.
#[derive(Drop)]
pub(crate) enum SinkOutcome {
    /// Sinks that are the registers at the least period, with the offsets of the least schedule.
    Found(TimedSinks),
    /// No arrivals meet any period: constraints that lead from a register back to it show it.
    Never(Listed<Constraint>),
}

/// The sinks of a problem, or what forbids every period.
pub(crate) fn timed_sinks(alloc: Global, problem: &Problem) -> Result<SinkOutcome, SynthFault>
    ensures ok { IfOk result (IsSinkOutcome problem.now) }
    ensures lowest { IfOk result StartsLowest }
    ensures few { IfOk result (λ _. JoinsMoreThan problem.now.circuit 1048576 → ⊥) }
    ensures many { IfErr result (ShowsTooMany problem.now.circuit) }
{
    let levels = levels_of(alloc, &problem.circuit)?;
    let mut paths = Paths::new(alloc, &problem.circuit, &levels, &problem.tech)?;
    let pairs = paths.pair_delays(alloc)?;
    let timing = timing_of(alloc, &problem.circuit, &problem.tech, &pairs)?;
    drop(pairs);
    match timing {
        Timing::Never { cycle } => Ok(SinkOutcome::Never(cycle)),
        Timing::Found {
            period,
            shown,
            constraints,
        } => {
            let timed = sinks_at(
                alloc,
                problem,
                &levels,
                &mut paths,
                &constraints,
                period,
                shown,
            )?;
            Ok(SinkOutcome::Found(timed))
        }
    }
}

// The sinks of a problem at the least period of its circuit, which these constraints have.
fn sinks_at(
    alloc: Global,
    problem: &Problem,
    levels: &Levels,
    paths: &mut Paths,
    constraints: &Listed<Constraint>,
    period: Fraction,
    shown: PeriodShow,
) -> Result<TimedSinks, NoMemory>
    requires levels { IsLevelsOf problem.now.circuit levels.now }
    requires paths { paths.old
        ≡ record { circuit = problem.now.circuit; tech = problem.now.tech } }
    requires period { HasLeastPeriod problem.now.circuit problem.now.tech constraints.now period
        shown }
    ensures ok { IfOk result (AreTimedSinks problem.now) }
    ensures shown { IfOk result (λ timed. timed.shown ≡ shown) }
{
    let times = times_of(alloc, problem, levels, paths, constraints, period, &shown)?;
    let places = problem.places.registers.as_slice();
    let grid = Grid {
        period,
        tech: &problem.tech,
    };
    let sinks = grid.sinks(alloc, places, times.schedule.at.as_slice())?;
    Ok(TimedSinks {
        period,
        shown,
        times,
        sinks,
    })
}
