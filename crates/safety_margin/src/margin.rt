ghost use Rattle.std.specs.Prelude.{◌↔◌, IfOk};
ghost use Rattle.safety_margin.specs.Vocabulary.{AreSmallConstraints, HasNoCycle, HasSmallSparing, IsMarginOf, IsMarginPeriod, IsUnbounded};

use crate::ratio::{below_all, margin_at, measure_at};
use crate::sparing::sparing_schedule;
use critical_cycle::{Ratio, greatest_ratio};
use cts_base::{Fraction, Listed, NoMemory};
use cts_model::{Constraint, Schedule};
use std::alloc::Global;

/// What every setup and hold constraint has to spare at a period.
#[derive(Debug, Drop)]
pub enum Margin {
    /// The greatest margin that some arrivals spare.
    Found {
        /// In ticks. It may be negative.
        value: Fraction,
        /// The places in the list of the constraints of a cycle that spares no more, in the order
        /// in which they lead, from the one with the lowest tail on.
        cycle: Listed<u32>,
        /// The least arrivals that spare it, over the least common multiple of the denominators of
        /// the period and the value.
        schedule: Schedule,
    },
    /// Every margin is spared by some arrivals, as the constraints have no cycle.
    Unbounded,
}

/// The greatest margin at a period in ticks that some arrivals spare, the cycle that shows it, and
/// the least schedule that spares it. Fishburn, "Clock Skew Optimization", 1990.
///
/// # Errors
///
/// There is no memory for the lists, at most 64 bytes for each register and 4 for each
/// constraint.
pub fn greatest_margin(
    alloc: Global,
    registers: usize,
    constraints: &Listed<Constraint>,
    period: Fraction,
) -> Result<Margin, NoMemory>
    requires small { AreSmallConstraints registers constraints.now }
    requires period { IsMarginPeriod period }
    ensures margin { IfOk result (IsMarginOf registers constraints.now period) }
    ensures unbounded { IfOk result (λ margin. IsUnbounded margin ↔ HasNoCycle constraints.now) }
    ensures small { IfOk result HasSmallSparing }
{
    let measure = measure_at(period);
    match greatest_ratio(alloc, registers, constraints, measure, below_all(period))? {
        Ratio::Cycle {
            value: ratio,
            cycle,
        } => {
            let value = margin_at(period, ratio);
            let schedule = sparing_schedule(alloc, registers, constraints, period, value)?;
            Ok(Margin::Found {
                value,
                cycle,
                schedule,
            })
        }
        Ratio::First => Ok(Margin::Unbounded),
        Ratio::Never { .. } => unreachable!(),
    }
}
