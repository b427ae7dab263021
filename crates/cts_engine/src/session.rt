ghost use Rattle.std.specs.Prelude.{◌≡◌, ◌≤◌, ◌<◌, ◌^◌, ◌↔◌, List, length, slice_set, unsigned_abs, IfOk, IfErr};
ghost use Rattle.cts_engine.specs.Vocabulary.{Fraction, Point, Problem, Schedule, Tech, Merge, HasNoPeriod, JoinsMoreThan, IsPointBelow, IsUvBelow, IsUvMultipleOf, rotated, grid_of, on_grid, steps_of_micro, ShowsTooMany, ForbidsFromLowest, HasSmallGrid, IsGrid, IsNeverSession, IsSessionOutcome, StandsAt};

use crate::SynthFault;
use crate::sink_times::{SinkOutcome, timed_sinks};
use cts_base::Listed;
use cts_model::{Constraint, Grid, Point, Problem, Uv, product, to_uv};
use move_session::Session;
use std::alloc::Global;
use topology::greedy;

/// A problem's clock tree whose sinks may move, or what forbids every period.
#[derive(Drop)]
pub enum SessionOutcome {
    /// The tree over the registers with the least schedule at the least period, with the greedy
    /// topology and from the given source.
    Found {
        session: Session,
        /// How many grid steps, in which the session's places and lengths are, a length unit has.
        grid: i128,
    },
    /// No arrivals meet any period: constraints that lead from a register back to it show it.
    Never(Listed<Constraint>),
}

/// The clock tree of a problem as a session, in which sinks may move while its merges are kept. The
/// period, the schedule and the topology are those of `synthesize`.
///
/// # Errors
///
/// More than 1,048,576 pairs of registers are joined by paths, or memory was refused.
pub fn session_of(alloc: Global, problem: &Problem) -> Result<SessionOutcome, SynthFault>
    ensures ok { IfOk result (IsSessionOutcome problem.now) }
    ensures small { IfOk result HasSmallGrid }
    ensures lowest { IfOk result ForbidsFromLowest }
    ensures never { IfOk result (λ outcome.
        IsNeverSession outcome ↔ HasNoPeriod problem.now.circuit problem.now.tech) }
    ensures few { IfOk result (λ _. JoinsMoreThan problem.now.circuit 1048576 → ⊥) }
    ensures many { IfErr result (ShowsTooMany problem.now.circuit) }
{
    match timed_sinks(alloc, problem)? {
        SinkOutcome::Never(cycle) => Ok(SessionOutcome::Never(cycle)),
        SinkOutcome::Found(timed) => {
            let sinks = timed.sinks.as_slice();
            let topology = greedy(alloc, sinks)?;
            let grid = Grid {
                period: timed.period,
                tech: &problem.tech,
            };
            let source = grid.rotated(problem.places.source);
            let session = Session::open(alloc, sinks, &topology, source)?;
            Ok(SessionOutcome::Found {
                session,
                grid: grid.steps_of_unit(),
            })
        }
    }
}

/// Moves a register of a problem's session to a place in micros, where a length unit has so many
/// grid steps. It takes no memory.
pub fn move_register(session: &mut Session, grid: i128, register: u32, at: Point)
    requires register { register < length session.old.sinks }
    requires grid { IsGrid grid }
    requires near { IsPointBelow 1000000000000001 at }
    // That register's place alone changes in what the session stands for.
    ensures stands { (problem : Problem) (period : Fraction) (schedule : Schedule)
        (merges : List Merge) (places : List Point)
        → StandsAt problem period schedule merges grid places session.old
        → StandsAt problem period schedule merges grid (slice_set places register at) session.new }
    ensures count { length session.new.sinks ≡ length session.old.sinks }
{
    session.move_sink(register, sink_place(grid, at));
}

// A place in micros as a sink has it, where a length unit has so many grid steps.
fn sink_place(grid: i128, at: Point) -> Uv
    requires grid { IsGrid grid }
    requires near { IsPointBelow 1000000000000001 at }
    ensures value { (period : Fraction) (tech : Tech) → grid ≡ grid_of period tech
        → result ≡ rotated (on_grid period tech at) }
    ensures below { IsUvBelow (10 ^ 31) result }
    ensures multiple { IsUvMultipleOf 8 result }
{
    let steps = steps_in(grid);
    to_uv(Point {
        x: product(steps, at.x),
        y: product(steps, at.y),
    })
}

// How many grid steps a micro has, where a length unit has so many.
fn steps_in(grid: i128) -> i128
    requires { IsGrid grid }
    ensures value { (period : Fraction) (tech : Tech) → grid ≡ grid_of period tech
        → result ≡ steps_of_micro period tech }
    ensures small { unsigned_abs result ≤ 100000000000 }
{
    grid / 1_000_000
}
