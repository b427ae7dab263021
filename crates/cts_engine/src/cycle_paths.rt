ghost use Rattle.std.specs.Prelude.{IfOk};
ghost use Rattle.cts_engine.specs.Vocabulary.{ArePathsOf, IsConstraintOf, IsShownBy};

use cts_base::{Listed, NoMemory};
use cts_model::PeriodShow;
use path_delays::Paths;
use std::alloc::Global;

/// A path for each constraint of what shows a period, if a cycle does. Those for which there is no
/// room after the earlier ones are empty.
pub(crate) fn cycle_paths(
    alloc: Global,
    paths: &mut Paths,
    shown: &PeriodShow,
) -> Result<Listed<Listed<u32>>, NoMemory>
    requires { IsShownBy (IsConstraintOf paths.old.circuit paths.old.tech) shown.now }
    ensures { IfOk result (ArePathsOf paths.old.circuit paths.old.tech shown.now) }
{
    match shown {
        PeriodShow::Floor => Ok(Listed::new(alloc)),
        PeriodShow::Cycle(cycle) => paths.of_constraints(alloc, cycle.as_slice()),
    }
}
