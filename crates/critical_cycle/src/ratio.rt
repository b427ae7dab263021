ghost use Rattle.std.specs.Prelude.{◌≡◌, ◌<◌, ◌++◌, ℕ, IfOk, drop, length, take};
ghost use Rattle.critical_cycle.specs.Vocabulary.{AreSmallConstraints, AreWithin, CanTry, IsFromLowest, IsRatioOf, IsSettled, constraints_at};

use crate::cycle::Cycle;
use crate::measure::Measure;
use crate::policy::Policy;
use crate::search::Search;
use crate::shown::Shown;
use crate::trials::Trials;
use cts_base::{Fraction, Listed, NoMemory};
use cts_model::Constraint;
use relaxation::{Relaxation, Rounds};
use std::alloc::Global;

/// The greatest ratio of the cycles of constraints, at or above a first one. It is the least ratio
/// at which some arrivals satisfy the constraints.
#[derive(Debug, Drop)]
pub enum Ratio {
    /// A cycle has a greater ratio than the first.
    Cycle {
        /// The greatest.
        value: Fraction,
        /// The places of its constraints in the list, in the order in which they lead, from the
        /// one with the lowest tail on.
        cycle: Listed<u32>,
    },
    /// The first ratio is enough for every cycle.
    First,
    /// A cycle weighs more than 0 and never counts, so no ratio is enough for it.
    Never {
        /// The places of its constraints, as for a cycle with the greatest ratio.
        cycle: Listed<u32>,
    },
}

/// The greatest ratio of the cycles of constraints in a measure, at or above a first one. Policy
/// iteration finds the ratio, and a relaxation by it shows that no cycle has a greater one, and
/// else goes on from there. Howard, "Dynamic Programming and Markov Processes", 1960; Lawler,
/// "Combinatorial Optimization", 1976, section 3.13.
///
/// # Errors
///
/// There is no memory for the lists, 64 bytes for each register and 4 for each constraint.
pub fn greatest_ratio(
    alloc: Global,
    registers: usize,
    constraints: &Listed<Constraint>,
    measure: Measure,
    first: Fraction,
) -> Result<Ratio, NoMemory>
    requires small { AreSmallConstraints registers constraints.now }
    requires first { CanTry measure first }
    ensures ratio { IfOk result (IsRatioOf measure constraints.now first) }
{
    let list = constraints.as_slice();
    let places = vec![in alloc; 0u32; registers]?;
    let mut search = Search::at_first(list, measure, first, places);
    search.look_at_short_cycles();
    let rounds = Rounds::new(alloc, registers, list, search.trial)?;
    let mut policy = Policy { search, rounds };
    policy.iterate();
    let Policy { search, rounds } = policy;
    let relaxation = rounds.relaxation;
    Ok(settled(Trials { search, relaxation }))
}

/// The same without policy iteration, in lists with an entry for each register that may hold any.
/// One of them becomes the cycle. It takes no memory.
pub(crate) fn greatest_ratio_in(
    values: Listed<i128>,
    parents: Listed<u32>,
    cycle: Listed<u32>,
    constraints: &Listed<Constraint>,
    measure: Measure,
    first: Fraction,
) -> Ratio
    requires parents { length parents ≡ length values }
    requires cycle { length cycle ≡ length values }
    requires small { AreSmallConstraints (length values) constraints.now }
    requires first { CanTry measure first }
    ensures ratio { IsRatioOf measure constraints.now first result }
{
    let list = constraints.as_slice();
    let mut search = Search::at_first(list, measure, first, cycle.into_vec());
    search.look_at_short_cycles();
    let relaxation = Relaxation::from_zero(list, values.into_vec(), parents.into_vec());
    settled(Trials { search, relaxation })
}

// What a search shows once it has settled: a ratio that isn't enough is raised.
fn settled(trials: Trials<'_>) -> Ratio
    ensures { IsRatioOf trials.entry.search.measure trials.entry.search.constraints.now
        trials.entry.search.first result }
{
    let mut trials = trials;
    while let Some(register) = trials.settle() {
        trials = trials.raise(register);
    }
    ratio_of(trials.search)
}

// What a search that has settled shows.
fn ratio_of(search: Search<'_>) -> Ratio
    requires { IsSettled search.measure search.constraints.now search.first search.shown }
    ensures { IsRatioOf search.entry.measure search.entry.constraints.now search.entry.first
        result }
{
    match search.shown {
        Shown::First => Ratio::First,
        Shown::Value(value) => Ratio::Cycle {
            value,
            cycle: cycle_of(search.places, search.start, search.constraints),
        },
        Shown::Never => Ratio::Never {
            cycle: cycle_of(search.places, search.start, search.constraints),
        },
    }
}

// The cycle whose places come last in the list, from the lowest tail on.
fn cycle_of(places: Vec<u32>, start: usize, constraints: &[Constraint]) -> Listed<u32>
    requires small { AreSmallConstraints (length places.items) constraints.now }
    requires start { start < length places.items }
    requires within { AreWithin constraints.now (drop start places.items) }
    ensures rotated { (turn : ℕ) × (result
        ≡ drop turn (drop start places.items) ++ take turn (drop start places.items)) }
    ensures lowest { IsFromLowest (constraints_at constraints.now result) }
{
    let mut cycle = places;
    let len = cycle.len() - start;
    cycle.rotate_left(start);
    cycle.truncate(len);
    let turn = Cycle {
        constraints,
        places: cycle.as_slice(),
    };
    let lowest = turn.place_of_lowest();
    cycle.rotate_left(lowest);
    Listed::from_vec(cycle)
}
