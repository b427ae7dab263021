ghost use Rattle.std.specs.Prelude.{◌≡◌, ◌↔◌, IfOk, length};
ghost use Rattle.critical_cycle.specs.Vocabulary.{AreSmallConstraints, HasForbidding, HasSmallValue, IsFloor, IsLeastPeriodOf, IsNeverPeriod, IsPeriodOf, IsSmallFloor, period_of};

use crate::measure::Measure;
use crate::ratio::{Ratio, greatest_ratio, greatest_ratio_in};
use cts_base::{Fraction, Listed, NoMemory};
use cts_model::Constraint;
use std::alloc::Global;

/// The least period that constraints admit, at or above a floor.
#[derive(Debug, Drop)]
pub enum Period {
    /// The constraints on a cycle ask for a longer period than the floor.
    Cycle {
        /// In ticks.
        value: Fraction,
        /// The places of these constraints in the list, in the order in which they lead, from the
        /// one with the lowest tail on.
        cycle: Listed<u32>,
    },
    /// The floor is long enough.
    Floor,
    /// The constraints on a cycle ask for time and never count the period.
    Never {
        /// The places of these constraints, as for a critical cycle.
        cycle: Listed<u32>,
    },
}

/// The least period, at or above a floor in ticks, at which some arrivals satisfy the constraints.
/// The lists have an entry for each register, which may be any. They serve the search, and the last
/// of them becomes the cycle. It takes no memory.
pub fn least_period_in(
    values: Listed<i128>,
    parents: Listed<u32>,
    cycle: Listed<u32>,
    constraints: &Listed<Constraint>,
    floor: i128,
) -> Period
    requires parents { length parents ≡ length values }
    requires cycle { length cycle ≡ length values }
    requires small { AreSmallConstraints (length values) constraints.now }
    requires floor { IsSmallFloor floor }
    ensures period { IsPeriodOf constraints.now floor result }
    ensures never { IsNeverPeriod result ↔ HasForbidding constraints.now }
    ensures floor { IsFloor result ↔ IsLeastPeriodOf constraints.now floor floor 1 }
    ensures small { HasSmallValue result }
{
    let first = Fraction::of(floor, 1);
    period_of(greatest_ratio_in(values, parents, cycle, constraints, PERIOD, first))
}

/// The same in lists of its own, after policy iteration.
///
/// # Errors
///
/// There is no memory for the lists, 64 bytes for each register and 4 for each constraint.
pub fn least_period(
    alloc: Global,
    registers: usize,
    constraints: &Listed<Constraint>,
    floor: i128,
) -> Result<Period, NoMemory>
    requires small { AreSmallConstraints registers constraints.now }
    requires floor { IsSmallFloor floor }
    ensures period { IfOk result (IsPeriodOf constraints.now floor) }
    ensures never { IfOk result (λ period. IsNeverPeriod period ↔ HasForbidding constraints.now) }
    ensures floor { IfOk result (λ period. IsFloor period
        ↔ IsLeastPeriodOf constraints.now floor floor 1) }
    ensures small { IfOk result HasSmallValue }
{
    let first = Fraction::of(floor, 1);
    let ratio = greatest_ratio(alloc, registers, constraints, PERIOD, first)?;
    Ok(period_of(ratio))
}

// What the greatest ratio is as a period.
fn period_of(ratio: Ratio) -> Period
    ensures { result ≡ period_of ratio }
{
    match ratio {
        Ratio::Cycle { value, cycle } => Period::Cycle { value, cycle },
        Ratio::First => Period::Floor,
        Ratio::Never { cycle } => Period::Never { cycle },
    }
}

// A cycle asks for its weights in ticks over the number of its setup constraints.
const PERIOD: Measure = Measure {
    scale: 1,
    period: 0,
    every: false,
};
