ghost use Rattle.std.specs.Prelude.{◌≡◌, ◌^◌, All, IfOk, length, nat_abs};
ghost use Rattle.schedule.specs.Vocabulary.{AdmitsGains, AreGainsOf, AreLeastArrivalsBy, AreSmallConstraints, AreWithinWeights, CanRaise, IsAdmittedBy, IsBelow, IsLeastScheduleOf, IsSmallPeriod};

use cts_base::{Fraction, Listed, NoMemory};
use cts_model::{Constraint, Schedule};
use relaxation::{Gains, Relaxation, Rounds};
use std::alloc::Global;

/// The least arrivals that satisfy the constraints at a period in ticks. The list has an entry for
/// each register, which may be any, and becomes the schedule's. It sweeps over the constraints
/// until a sweep changes nothing, and takes no memory.
pub fn least_schedule_in(
    at: Listed<i128>,
    constraints: &Listed<Constraint>,
    period: Fraction,
) -> Schedule
    requires small { AreSmallConstraints (length at) constraints.now }
    requires period { IsSmallPeriod period }
    requires admitted { IsAdmittedBy constraints.now period }
    ensures den { result.den ≡ period.den }
    ensures registers { length result.at ≡ length at }
    ensures least { IsLeastScheduleOf constraints.now period.num (nat_abs period.den) result.at }
    ensures bound { AreWithinWeights constraints.now (nat_abs period.den) result.at }
    ensures small { All (IsBelow (10 ^ 19)) result.at }
{
    let relaxation = Relaxation::without_parents(constraints.as_slice(), at.into_vec());
    let at = settled(relaxation, gains_of(period));
    Schedule {
        den: period.den(),
        at,
    }
}

/// The same in lists of its own, raised along parents before the sweeps.
///
/// # Errors
///
/// There is no memory for the lists, 60 bytes for each register and 4 for each constraint.
pub fn least_schedule(
    alloc: Global,
    registers: usize,
    constraints: &Listed<Constraint>,
    period: Fraction,
) -> Result<Schedule, NoMemory>
    requires small { AreSmallConstraints registers constraints.now }
    requires period { IsSmallPeriod period }
    requires admitted { IsAdmittedBy constraints.now period }
    ensures den { IfOk result (λ schedule. schedule.den ≡ period.den) }
    ensures registers { IfOk result (λ schedule. length schedule.at ≡ registers) }
    ensures least { IfOk result (λ schedule. IsLeastScheduleOf constraints.now period.num
        (nat_abs period.den) schedule.at) }
    ensures bound { IfOk result (λ schedule. AreWithinWeights constraints.now (nat_abs period.den)
        schedule.at) }
    ensures small { IfOk result (λ schedule. All (IsBelow (10 ^ 19)) schedule.at) }
{
    let at = least_arrivals(alloc, registers, constraints, gains_of(period))?;
    Ok(Schedule {
        den: period.den(),
        at,
    })
}

/// The least arrivals from 0 on that satisfy the constraints by their gains.
///
/// # Errors
///
/// There is no memory for the lists, 60 bytes for each register and 4 for each constraint.
pub fn least_arrivals(
    alloc: Global,
    registers: usize,
    constraints: &Listed<Constraint>,
    gains: Gains,
) -> Result<Listed<i128>, NoMemory>
    requires small { AreSmallConstraints registers constraints.now }
    requires admitted { AdmitsGains constraints.now gains }
    ensures registers { IfOk result (λ at. length at ≡ registers) }
    ensures least { IfOk result (AreLeastArrivalsBy constraints.now gains) }
    ensures small { IfOk result (All (IsBelow (2 ^ 93))) }
{
    let mut rounds = Rounds::new(alloc, registers, constraints.as_slice(), gains)?;
    rounds.raise(gains);
    Ok(settled(rounds.relaxation, gains))
}

// The arrivals once sweeps have raised them until the constraints are satisfied.
fn settled(relaxation: Relaxation<'_>, gains: Gains) -> Listed<i128>
    requires { CanRaise relaxation.constraints.now gains relaxation.values.items }
    ensures registers { length result ≡ length relaxation.entry.values.items }
    ensures least { AreLeastArrivalsBy relaxation.entry.constraints.now gains result }
    ensures small { All (IsBelow (2 ^ 93)) result }
{
    let mut relaxation = relaxation;
    relaxation.satisfy(gains);
    Listed::from_vec(relaxation.values)
}

/// What constraints ask at a period, over its denominator.
pub(crate) fn gains_of(period: Fraction) -> Gains
    requires { IsSmallPeriod period }
    ensures { AreGainsOf period result }
{
    Gains {
        scale: period.den(),
        setup: period.num(),
        hold: 0,
    }
}
