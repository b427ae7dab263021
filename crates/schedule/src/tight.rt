ghost use Rattle.std.specs.Prelude.{◌≡◌, ◌≤◌, ℕ, Contains, IfOk, length, nat_abs};
ghost use Rattle.schedule.specs.Vocabulary.{AreSmallConstraints, EachLead, IsAdmittedBy, IsLeastScheduleOf, IsSmallPeriod, depth_of, lead_at};

use crate::arrivals::Arrivals;
use crate::reach::Reach;
use crate::tails::TightByTail;
use cts_base::{Fraction, Listed, NoMemory};
use cts_model::{Constraint, Lead, Schedule};
use std::alloc::Global;

/// What shows of each register that its arrival in the least schedule can't be earlier. It takes
/// memory for each register and a number for each constraint, and looks at each constraint once, at
/// those that are tight once more when their tail is taken. Registers are taken in the order in
/// which they are reached, those at 0 first.
///
/// # Errors
///
/// There is no memory for the leads.
pub fn leads(
    alloc: Global,
    registers: usize,
    constraints: &Listed<Constraint>,
    period: Fraction,
    schedule: &Schedule,
) -> Result<Listed<Lead>, NoMemory>
    requires small { AreSmallConstraints registers constraints.now }
    requires period { IsSmallPeriod period }
    requires admitted { IsAdmittedBy constraints.now period }
    requires den { schedule.now.den ≡ period.den }
    requires registers { length schedule.now.at ≡ registers }
    requires least { IsLeastScheduleOf constraints.now period.num (nat_abs period.den)
        schedule.now.at }
    ensures registers { IfOk result (λ leads. length leads ≡ registers) }
    ensures each { IfOk result (EachLead (Contains constraints.now) period schedule.now.at) }
    ensures low { IfOk result (λ leads. (register : ℕ)
        → depth_of (lead_at leads register) ≤ registers) }
{
    let arrivals = Arrivals {
        constraints: constraints.as_slice(),
        at: schedule.at.as_slice(),
        period,
    };
    let mut reach = Reach::start(alloc, &arrivals)?;
    reach.reach_all(&TightByTail::of(alloc, arrivals)?)?;
    Ok(Listed::from_vec(reach.leads))
}

/// How many constraints a lead takes.
pub(crate) fn depth_of(lead: &Lead) -> u32
    ensures { result ≡ depth_of lead.now }
{
    match lead {
        Lead::Zero => 0,
        Lead::Tight { depth, .. } => *depth,
    }
}
