ghost use Rattle.std.specs.Prelude.{◌≡◌, ◌^◌, ◌*ℤ◌, IfOk};
ghost use Rattle.safety_margin.specs.Vocabulary.{AreGainsAt, AreSmallConstraints, CanSpare, IsBelow, IsMarginPeriod, IsShare, IsSmallMargin, IsSmallSparing, IsSparingSchedule, Spares};

use cts_base::{Fraction, Listed, NoMemory};
use cts_model::{Constraint, Schedule};
use relaxation::Gains;
use schedule::least_arrivals;
use std::alloc::Global;

/// The least schedule that spares a margin at a period. It takes 60 bytes for each register and 4
/// for each constraint.
pub(crate) fn sparing_schedule(
    alloc: Global,
    registers: usize,
    constraints: &Listed<Constraint>,
    period: Fraction,
    value: Fraction,
) -> Result<Schedule, NoMemory>
    requires small { AreSmallConstraints registers constraints.now }
    requires period { IsMarginPeriod period }
    requires value { IsSmallMargin value }
    requires spared { CanSpare constraints.now period value }
    ensures sparing { IfOk result (IsSparingSchedule registers (Spares constraints.now) period
        value) }
    ensures small { IfOk result IsSmallSparing }
{
    let gains = gains_at(period, value, share_of(period, value));
    let at = least_arrivals(alloc, registers, constraints, gains)?;
    Ok(Schedule {
        den: gains.scale,
        at,
    })
}

// The denominator of a period over that of a value, in lowest terms: its parts are what the other
// denominator takes to become the least common multiple.
fn share_of(period: Fraction, value: Fraction) -> Fraction
    requires period { IsMarginPeriod period }
    requires value { IsSmallMargin value }
    ensures { IsShare period value result }
{
    Fraction::of(period.den(), value.den())
}

// The gains that constraints have at a period where each is to spare a value.
fn gains_at(period: Fraction, value: Fraction, share: Fraction) -> Gains
    requires period { IsMarginPeriod period }
    requires value { IsSmallMargin value }
    requires share { IsShare period value share }
    ensures { AreGainsAt period value share result }
{
    let spared = product(value.num(), share.num());
    Gains {
        scale: product(period.den(), share.den()),
        setup: product(period.num(), share.den()) - spared,
        hold: -spared,
    }
}

/// The product of two numbers.
pub(crate) fn product(a: i128, b: i128) -> i128
    requires a { IsBelow (2 ^ 64) a }
    requires b { IsBelow (2 ^ 40) b }
    ensures value { result ≡ a *ℤ b }
    ensures small { IsBelow (2 ^ 105) result }
{
    a * b
}
