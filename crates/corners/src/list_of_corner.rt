ghost use Rattle.std.specs.Prelude.{◌≤◌, IfOk, IfErr, length};
ghost use Rattle.corners.specs.Vocabulary.{JoinsMoreThan, IsLevelsOf, ShowsTooMany, AreCommonConstraints, AreConstraintsBy};

use crate::Combined;
use constraints::constraints_of;
use cts_base::Listed;
use cts_model::{Circuit, Constraint, Tech};
use gate_order::Levels;
use path_delays::{PairFault, pair_delays};
use std::alloc::Global;

/// What the tables of several corners ask together. The delays of a corner are dropped before those
/// of the next are found, so it takes memory for two lists whatever the number of corners.
pub(crate) fn combined_by(
    alloc: Global,
    circuit: &Circuit,
    levels: &Levels,
    techs: &[Tech],
) -> Result<Combined, PairFault>
    requires levels { IsLevelsOf circuit.now levels.now }
    requires some { 1 ≤ length techs.now }
    requires corners { length techs.now ≤ 16 }
    ensures ok { IfOk result (AreCommonConstraints circuit.now techs.now) }
    ensures few { IfOk result (λ _. JoinsMoreThan circuit.now 1048576 → ⊥) }
    ensures many { IfErr result (ShowsTooMany circuit.now) }
{
    let first = constraints_by(alloc, circuit, levels, &techs[0])?;
    let mut combined = Combined::first(alloc, first)?;
    for corner in 1..techs.len() {
        let next = constraints_by(alloc, circuit, levels, &techs[corner])?;
        combined.include(corner as u32, next.as_slice());
    }
    Ok(combined)
}

// What the table of one corner asks.
fn constraints_by(
    alloc: Global,
    circuit: &Circuit,
    levels: &Levels,
    tech: &Tech,
) -> Result<Listed<Constraint>, PairFault>
    requires { IsLevelsOf circuit.now levels.now }
    ensures ok { IfOk result (AreConstraintsBy circuit.now tech.now) }
    ensures few { IfOk result (λ _. JoinsMoreThan circuit.now 1048576 → ⊥) }
    ensures many { IfErr result (ShowsTooMany circuit.now) }
{
    let pairs = pair_delays(alloc, circuit, levels, tech)?;
    Ok(constraints_of(alloc, &pairs, tech)?)
}
