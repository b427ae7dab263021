ghost use Rattle.std.specs.Prelude.{◌≤◌, ◌↔◌, ℕ, List, IfOk, IfErr, length};
ghost use Rattle.corners.specs.Vocabulary.{JoinsMoreThan, IsLoop, IsSmallFloor, ShowsTooMany, HasNoCommonPeriod, AreCommonConstraints, IsGreatestOf, HasLowestFirst, HasSmallCommonTimes, IsCornersOutcome, IsNeverCommon};

use crate::Combined;
use crate::list_of_corner::combined_by;
use critical_cycle::{Period, least_period};
use cts_base::{Fraction, Listed, NoMemory};
use cts_model::{Circuit, Constraint, PeriodShow, Schedule, Tech};
use gate_order::levels_of;
use path_delays::PairFault;
use schedule::least_schedule;
use std::alloc::Global;

/// The least clock period that one list of arrivals meets at several corners, in ticks.
#[derive(Debug, Drop)]
pub enum CornersOutcome {
    /// Some arrivals meet this period at each corner, and none a smaller one.
    Found {
        period: Fraction,
        /// What shows that no period is less.
        shown: PeriodShow,
        /// For each constraint of the cycle that shows it the first corner, from 0, at which it has
        /// the greatest weight. With the floor there is none.
        corner: Listed<u32>,
        /// The least arrivals from 0 on that meet the period at each corner.
        schedule: Schedule,
    },
    /// No arrivals meet any period at each corner: constraints that lead from a register back to it
    /// show it.
    Never {
        cycle: Listed<Constraint>,
        /// The corner of each of them, as for a critical cycle.
        corner: Listed<u32>,
    },
}

/// The least period and the least schedule of a circuit that serve the delay tables of 1 to 16
/// corners, in ticks. The gates are put in order once; pair delays are found corner by corner and
/// dropped, so the memory is that of two lists whatever the number of corners.
///
/// # Errors
///
/// More than 1,048,576 pairs are joined, or there is no memory.
pub fn corners_of(
    alloc: Global,
    circuit: &Circuit,
    techs: &Listed<Tech>,
) -> Result<CornersOutcome, PairFault>
    requires acyclic { (loop : List ℕ) → IsLoop circuit.now.signals loop → ⊥ }
    requires some { 1 ≤ length techs.now }
    requires corners { length techs.now ≤ 16 }
    ensures ok { IfOk result (IsCornersOutcome circuit.now techs.now) }
    ensures lowest { IfOk result HasLowestFirst }
    ensures small { IfOk result HasSmallCommonTimes }
    ensures never { IfOk result (λ outcome.
        IsNeverCommon outcome ↔ HasNoCommonPeriod circuit.now techs.now) }
    ensures few { IfOk result (λ _. JoinsMoreThan circuit.now 1048576 → ⊥) }
    ensures many { IfErr result (ShowsTooMany circuit.now) }
{
    let techs = techs.as_slice();
    let levels = levels_of(alloc, circuit)?;
    let combined = combined_by(alloc, circuit, &levels, techs)?;
    Ok(outcome(alloc, circuit, techs, &combined)?)
}

// The outcome where this is what all corners ask together.
fn outcome(
    alloc: Global,
    circuit: &Circuit,
    techs: &[Tech],
    combined: &Combined,
) -> Result<CornersOutcome, NoMemory>
    requires some { 1 ≤ length techs.now }
    requires common { AreCommonConstraints circuit.now techs.now combined.now }
    ensures ok { IfOk result (IsCornersOutcome circuit.now techs.now) }
    ensures lowest { IfOk result HasLowestFirst }
    ensures small { IfOk result HasSmallCommonTimes }
    ensures never { IfOk result (λ outcome.
        IsNeverCommon outcome ↔ HasNoCommonPeriod circuit.now techs.now) }
{
    let asked = &combined.constraints;
    let floor = greatest_floor(techs);
    let registers = circuit.registers.len();
    match least_period(alloc, registers, asked, floor)? {
        Period::Cycle { value, cycle } => {
            let named = combined.at(alloc, cycle.as_slice())?;
            Ok(CornersOutcome::Found {
                period: value,
                shown: PeriodShow::Cycle(named.constraints),
                corner: named.corner,
                schedule: least_schedule(alloc, registers, asked, value)?,
            })
        }
        Period::Floor => {
            let period = Fraction::of(floor, 1);
            Ok(CornersOutcome::Found {
                period,
                shown: PeriodShow::Floor,
                corner: Listed::new(alloc),
                schedule: least_schedule(alloc, registers, asked, period)?,
            })
        }
        Period::Never { cycle } => {
            let named = combined.at(alloc, cycle.as_slice())?;
            Ok(CornersOutcome::Never {
                cycle: named.constraints,
                corner: named.corner,
            })
        }
    }
}

// The greatest of the corners' floors.
fn greatest_floor(techs: &[Tech]) -> i128
    requires { 1 ≤ length techs.now }
    ensures greatest { IsGreatestOf techs.now result }
    ensures small { IsSmallFloor result }
{
    let mut greatest = techs[0].floor;
    for tech in techs {
        greatest = greatest.max(tech.floor);
    }
    greatest
}
