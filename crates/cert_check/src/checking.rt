ghost use Rattle.std.specs.Prelude.{◌≡◌, ◌↔◌, IfOk};
ghost use Rattle.cert_check.specs.Vocabulary.{IsOfSize, IsWithinBounds, ShowsWhatItSays, IsShown, ShowsLeast, cycle_of, Verdict, Decides, HasPaths, HasSlacks, JudgedTree, IsVerdict, IsVerdictBy};

use crate::Verdict;
use crate::judge::Judge;
use crate::shaped::ShapedTree;
use crate::verdict::Stop;
use cts_base::NoMemory;
use cts_model::{Constraint, Grid, PeriodShow, Problem, Report, Slack, laws};
use gate_order::levels_of;
use path_delays::Paths;
use std::alloc::Global;
use timing_report::slacks;

/// What a report of a problem comes to. Beside passes over the circuit and the report it takes a
/// walk for each sixteen constraints of the cycle, and of the leads; a look through the inputs of
/// each gate on a printed path; and a climb up the tree from each sink that shows a merge's reach.
///
/// # Errors
///
/// `NoMemory` where memory is refused.
pub fn check(alloc: Global, problem: &Problem, report: &Report) -> Result<Verdict, NoMemory>
    requires size { IsOfSize problem.now.circuit report.now }
    requires bounds { IsWithinBounds problem.now.tech report.now }
    // The verdict is that of the first judgement that doesn't hold, at its first place.
    ensures verdict { IfOk result (IsVerdict problem.now report.now) }
    // A report is shown exactly where each judgement holds, which is where all that it says is so;
    // then its period, its schedule and its wire are the least.
    ensures shown { IfOk result
        (λ verdict. (verdict ≡ Verdict.Shown) ↔ IsShown problem.now report.now) }
    ensures said { IfOk result
        (λ verdict. (verdict ≡ Verdict.Shown) ↔ ShowsWhatItSays problem.now report.now) }
    ensures least { IfOk result
        (λ verdict. verdict ≡ Verdict.Shown → ShowsLeast problem.now report.now) }
{
    laws::reports();
    let (circuit, tech) = (&problem.circuit, &problem.tech);
    let schedule = &report.schedule;
    let levels = levels_of(alloc, circuit)?;
    let grid = Grid {
        period: report.period,
        tech,
    };
    let places = problem.places.registers.as_slice();
    let sinks = grid.sinks(alloc, places, schedule.at.as_slice())?;
    let judge = Judge {
        problem,
        report,
        cycle: cycle_of(&report.shown),
        sinks: sinks.as_slice(),
        source: grid.rotated(problem.places.source),
    };
    let slacks = slacks(alloc, circuit, &levels, tech, schedule, report.period)?;
    let mut paths = Paths::new(alloc, circuit, &levels, tech)?;
    match judge_all(alloc, &judge, &mut paths, slacks.as_slice()) {
        Ok(()) => Ok(Verdict::Shown),
        Err(Stop::At(reason)) => Ok(Verdict::Not(reason)),
        Err(Stop::NoMemory) => Err(NoMemory),
    }
}

// All judgements, in their order.
fn judge_all(alloc: Global, judge: &Judge, paths: &mut Paths, slacks: &[Slack]) -> Result<(), Stop>
    requires paths { HasPaths judge.now paths.old }
    requires slacks { HasSlacks judge.now slacks.now }
    ensures { Decides (IsVerdictBy judge.now.problem.now judge.now.report.now judge.now.cycle.now
        judge.now.sinks.now judge.now.source) result }
{
    judge.judge_floor()?;
    judge.judge_joins(alloc)?;
    judge.judge_constraints(alloc, paths)?;
    judge.judge_value()?;
    judge.judge_schedule(slacks)?;
    judge.judge_shape(alloc)?;
    let merges = judge.report.topology.merges.as_slice();
    let tree = ShapedTree {
        judge: *judge,
        parents: judge.parents_of(alloc, merges)?,
    };
    judge_tree(alloc, &tree)?;
    judge.judge_slacks(slacks)?;
    judge.judge_paths()?;
    judge.judge_leads(alloc, paths)
}

// The edges of a tree whose nodes are judged, its skews, its reaches and its wire.
fn judge_tree(alloc: Global, tree: &ShapedTree) -> Result<(), Stop>
    ensures { Decides
        (λ verdict. JudgedTree tree.now.judge verdict (verdict ≡ Verdict.Shown)) result }
{
    tree.judge_lengths()?;
    tree.judge_wires()?;
    tree.judge_skews(alloc)?;
    tree.judge_reaches()?;
    tree.judge.judge_total()
}

// The constraints of the cycle that is shown, and none for the floor.
fn cycle_of(shown: &PeriodShow) -> &[Constraint]
    ensures { result.now ≡ cycle_of shown.now }
{
    match shown {
        PeriodShow::Cycle(cycle) => cycle.as_slice(),
        PeriodShow::Floor => &[],
    }
}
