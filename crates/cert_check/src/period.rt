ghost use Rattle.std.specs.Prelude.{◌≡◌, ◌≤◌, ◌↔◌, ◌^◌, IsTrue, All, length, pos, ◌-ℤ◌, ◌*ℤ◌, ◌≤ℤ◌};
ghost use Rattle.cert_check.specs.Vocabulary.{count_of, total_count, total_weight, GivesPeriod, IsFromFloor, IsBelow, HasSmallWeight, IsSmallPeriod, BelowFloor, CycleValue, JudgesOnce};

use crate::down::are_same;
use crate::judge::Judge;
use crate::verdict::{Reason, Stop};
use cts_model::{Constraint, PeriodShow, product};

impl Judge<'_> {
    /// Whether the period isn't below the floor of the delay table.
    pub(crate) fn judge_floor(&self) -> Result<(), Stop>
        ensures { JudgesOnce (IsFromFloor self.now.problem.now.tech self.now.report.now.period)
            BelowFloor result }
    {
        let period = self.report.period;
        if product(self.problem.tech.floor, period.den()) <= period.num() {
            Ok(())
        } else {
            Err(Stop::At(Reason::BelowFloor))
        }
    }

    /// Whether what is shown gives the period.
    pub(crate) fn judge_value(&self) -> Result<(), Stop>
        ensures { JudgesOnce (GivesPeriod self.now.problem.now.tech self.now.report.now.period
            self.now.report.now.shown) CycleValue result }
    {
        if self.gives_period() {
            Ok(())
        } else {
            Err(Stop::At(Reason::CycleValue))
        }
    }

    // Whether what is shown gives the period.
    fn gives_period(&self) -> bool
        ensures { IsTrue result ↔ GivesPeriod self.now.problem.now.tech self.now.report.now.period
            self.now.report.now.shown }
    {
        let period = self.report.period;
        match &self.report.shown {
            PeriodShow::Cycle(_) => self.is_worth(),
            PeriodShow::Floor => period.num() == self.problem.tech.floor
                && are_same(period.den(), 1),
        }
    }

    // Whether the cycle counts the period, and its weights sum to that count of it.
    fn is_worth(&self) -> bool
        ensures { IsTrue result ↔ ((pos 1 ≤ℤ pos (total_count self.now.cycle.now))
            × ((self.now.report.now.period.den *ℤ total_weight self.now.cycle.now)
            ≡ (self.now.report.now.period.num *ℤ pos (total_count self.now.cycle.now)))) }
    {
        let mut weight = 0;
        let mut count = 0;
        for constraint in self.cycle {
            weight += constraint.weight;
            count += count_of(constraint);
        }
        count >= 1 && are_same(self.asked(weight, count), 0)
    }

    /// How much later a weight and so many periods ask an arrival to be, in ticks over the period's
    /// denominator.
    pub(crate) fn asked(&self, weight: i128, count: i128) -> i128
        requires weight { IsBelow (10 ^ 16) weight }
        requires count { IsBelow (10 ^ 16) count }
        ensures { result ≡ (self.now.report.now.period.den *ℤ weight)
            -ℤ (self.now.report.now.period.num *ℤ count) }
    {
        let period = self.report.period;
        product(period.den(), weight) - product(period.num(), count)
    }
}

/// How often a constraint counts the period.
pub(crate) fn count_of(constraint: &Constraint) -> i128
    ensures value { result ≡ pos (count_of constraint.now) }
    ensures small { IsBelow 2 result }
{
    if constraint.setup { 1 } else { 0 }
}
