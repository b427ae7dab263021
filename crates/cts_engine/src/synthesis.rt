ghost use Rattle.std.specs.Prelude.{◌≡◌, ◌↔◌, IfOk, IfErr, length};
ghost use Rattle.cts_engine.specs.Vocabulary.{HasNoPeriod, JoinsMoreThan, sinks_in, IsTopology, ShowsTooMany, AreTimedSinks, IsReportWith, IsOutcome, IsOutcomeWith, IsShownOutcome};
ghost use Rattle.outcomes.specs.SynthesisOutcomes.{BeginsLowest, IsNeverOutcome};

use crate::SynthFault;
use crate::clock_tree::tree_with;
use crate::sink_times::{SinkOutcome, TimedSinks, timed_sinks};
use cts_base::{Listed, NoMemory};
use cts_model::{Grid, Problem, Report, Topology, Version};
use outcomes::Outcome;
use std::alloc::Global;
use topology::greedy;

/// The clock tree of a problem, with what shows that its period, its schedule and its wire are the
/// least.
///
/// # Errors
///
/// More than 1,048,576 pairs of registers are joined by paths, or memory was refused.
pub fn synthesize(alloc: Global, problem: &Problem) -> Result<Outcome, SynthFault>
    ensures ok { IfOk result (IsOutcome problem.now) }
    ensures shown { IfOk result (IsShownOutcome problem.now) }
    ensures lowest { IfOk result BeginsLowest }
    ensures never { IfOk result (λ outcome.
        IsNeverOutcome outcome ↔ HasNoPeriod problem.now.circuit problem.now.tech) }
    ensures few { IfOk result (λ _. JoinsMoreThan problem.now.circuit 1048576 → ⊥) }
    ensures many { IfErr result (ShowsTooMany problem.now.circuit) }
{
    match timed_sinks(alloc, problem)? {
        SinkOutcome::Never(cycle) => Ok(Outcome::Never(cycle)),
        SinkOutcome::Found(timed) => {
            let topology = greedy(alloc, timed.sinks.as_slice())?;
            let report = report_with(alloc, problem, timed, topology)?;
            Ok(Outcome::Done(report))
        }
    }
}

/// The clock tree of a problem with a given topology, whether or not another has less wire, with
/// what shows that its period and its schedule are the least, and its wire the least for this
/// topology.
///
/// # Errors
///
/// More than 1,048,576 pairs of registers are joined by paths, or memory was refused.
pub fn synthesize_with(
    alloc: Global,
    problem: &Problem,
    topology: &Topology,
) -> Result<Outcome, SynthFault>
    requires { IsTopology (length problem.now.circuit.registers) topology.now.merges }
    ensures ok { IfOk result (IsOutcomeWith problem.now topology.now) }
    ensures shown { IfOk result (IsShownOutcome problem.now) }
    ensures lowest { IfOk result BeginsLowest }
    ensures never { IfOk result (λ outcome.
        IsNeverOutcome outcome ↔ HasNoPeriod problem.now.circuit problem.now.tech) }
    ensures few { IfOk result (λ _. JoinsMoreThan problem.now.circuit 1048576 → ⊥) }
    ensures many { IfErr result (ShowsTooMany problem.now.circuit) }
{
    match timed_sinks(alloc, problem)? {
        SinkOutcome::Never(cycle) => Ok(Outcome::Never(cycle)),
        SinkOutcome::Found(timed) => {
            let given = copied(alloc, topology)?;
            let report = report_with(alloc, problem, timed, given)?;
            Ok(Outcome::Done(report))
        }
    }
}

// The same topology once more.
fn copied(alloc: Global, topology: &Topology) -> Result<Topology, NoMemory>
    ensures { IfOk result (λ copy. copy ≡ topology.now) }
{
    let mut merges = Vec::new(alloc);
    merges.extend_from_slice(topology.merges.as_slice())?;
    Ok(Topology {
        merges: Listed::from_vec(merges),
    })
}

// The report of a problem with a topology over its sinks.
fn report_with(
    alloc: Global,
    problem: &Problem,
    timed: TimedSinks,
    topology: Topology,
) -> Result<Report, NoMemory>
    requires timed { AreTimedSinks problem.now timed }
    requires topology { IsTopology (length timed.sinks) topology.merges }
    ensures ok { IfOk result (IsReportWith problem.now topology) }
    ensures shown { IfOk result (λ report. report.shown ≡ timed.shown) }
    ensures sinks { IfOk result (λ report. sinks_in problem.now report ≡ timed.sinks) }
{
    let TimedSinks {
        period,
        shown,
        times,
        sinks,
    } = timed;
    let grid = Grid {
        period,
        tech: &problem.tech,
    };
    let source = grid.rotated(problem.places.source);
    let tree = tree_with(alloc, sinks.as_slice(), &topology, source)?;
    Ok(Report {
        version: Version::Second,
        period,
        shown,
        paths: times.paths,
        schedule: times.schedule,
        slacks: times.slacks,
        leads: times.leads,
        grid: grid.steps_of_unit(),
        topology,
        tree: tree.tree,
        shows: tree.shows,
        wires: tree.wires,
        total: tree.total,
    })
}
