ghost use Rattle.std.specs.Prelude.{◌<◌, length, All, IfErr, IfOk};
ghost use Rattle.path_delays.specs.Vocabulary.{JoinsMoreThan, IsLevelsOf, IsExtremeIfAny, AreDelaysBetween, ArePairs, ShowsTooMany, pair_limit};

use crate::PairFault;
use crate::path_search::Paths;
use cts_base::{Listed, NoMemory};
use cts_model::{Circuit, PairDelay, Tech};
use gate_order::Levels;
use std::alloc::Global;

/// The delays of all pairs of registers that paths join, by the register that launches and then by
/// the one that captures. Who asks for more than this makes one `Paths` for all of it.
///
/// # Errors
///
/// `TooManyPairs` where more than 1,048,576 pairs are joined, `NoMemory` where memory is refused.
pub fn pair_delays(
    alloc: Global,
    circuit: &Circuit,
    levels: &Levels,
    tech: &Tech,
) -> Result<Listed<PairDelay>, PairFault>
    requires { IsLevelsOf circuit.now levels.now }
    ensures ok { IfOk result (ArePairs circuit.now tech.now) }
    ensures few { IfOk result (λ _. JoinsMoreThan circuit.now pair_limit → ⊥) }
    ensures many { IfErr result (ShowsTooMany circuit.now) }
{
    let mut paths = Paths::new(alloc, circuit, levels, tech)?;
    paths.pair_delays(alloc)
}

/// The delays of pairs of registers, one pair after the other, over all paths between the two.
/// `None` stands exactly where no path joins them. One walk for sixteen pairs, from the first of
/// each up to what the second ones capture, in the same room.
///
/// # Errors
///
/// `NoMemory` where memory is refused.
pub fn delays_between(
    alloc: Global,
    circuit: &Circuit,
    levels: &Levels,
    tech: &Tech,
    pairs: &[(u32, u32)],
) -> Result<Listed<Option<PairDelay>>, NoMemory>
    requires levels { IsLevelsOf circuit.now levels.now }
    requires pairs { All (λ pair. (pair.0 < length circuit.now.registers)
        × (pair.1 < length circuit.now.registers)) pairs.now }
    ensures { IfOk result (AreDelaysBetween circuit.now tech.now pairs.now) }
{
    let mut paths = Paths::new(alloc, circuit, levels, tech)?;
    paths.delays_between(alloc, pairs)
}

/// The signals of a path from one register to another with the greatest delay of all, or with the
/// least. `None` comes exactly where no path joins them; which path of several is free.
///
/// # Errors
///
/// `NoMemory` where memory is refused.
pub fn path_of(
    alloc: Global,
    circuit: &Circuit,
    levels: &Levels,
    tech: &Tech,
    from: u32,
    to: u32,
    greatest: bool,
) -> Result<Option<Listed<u32>>, NoMemory>
    requires levels { IsLevelsOf circuit.now levels.now }
    requires from { from < length circuit.now.registers }
    requires to { to < length circuit.now.registers }
    ensures { IfOk result (IsExtremeIfAny circuit.now tech.now from to greatest) }
{
    let mut paths = Paths::new(alloc, circuit, levels, tech)?;
    paths.path_of(alloc, from, to, greatest)
}
