ghost use Rattle.std.specs.Prelude.{◌≡◌, ◌<◌, ℕ, List, length, Contains, IfOk};
ghost use Rattle.path_delays.specs.Vocabulary.{Circuit, Tech, IsLevelsOf, Walk, ReachesEach, sums_to, AreCapturedBy, AreExtremesIfAny, StandsAt, either_sums, IsJoinedBy};

use crate::lanes::{Block, Lane};
use crate::sums::Sums;
use crate::walk::Walk;
use cts_base::NoMemory;
use cts_model::{Circuit, PairDelay, Tech};
use gate_order::Levels;
use std::alloc::Global;

/// The delays from one register to another over all paths between the two. `None` comes exactly
/// where no path joins them.
///
/// # Errors
///
/// `NoMemory` where memory is refused.
pub fn pair_delay(
    alloc: Global,
    circuit: &Circuit,
    levels: &Levels,
    tech: &Tech,
    from: u32,
    to: u32,
) -> Result<Option<PairDelay>, NoMemory>
    requires levels { IsLevelsOf circuit.now levels.now }
    requires from { from < length circuit.now.registers }
    requires to { to < length circuit.now.registers }
    ensures { IfOk result (IsJoinedBy circuit.now tech.now from to) }
{
    let mut walk = Walk::new(alloc, circuit, levels, tech)?;
    let pairs = Block {
        items: &[(from, to)],
    };
    walk.walk_between(circuit, tech, &pairs);
    let captured = circuit.register_signal(to as usize).fan_in.as_slice();
    Ok(joined_pair(from, to, captured_sums(&walk, Lane { number: 0 }, captured)))
}

/// The delays from one register to another, of what a walk found at the signals that this captures.
pub(crate) fn joined_pair(from: u32, to: u32, found: Option<Sums>) -> Option<PairDelay>
    ensures { (circuit : Circuit) (tech : Tech) (lane : ℕ) (walk : Walk) (captured : List ℕ)
        → AreCapturedBy circuit to captured → ReachesEach circuit tech from lane captured walk
        → AreExtremesIfAny (StandsAt (sums_to walk lane) (Contains captured)) found
        → IsJoinedBy circuit tech from to result }
{
    let sums = found?;
    Some(PairDelay {
        from,
        to,
        least: i128::from(sums.least),
        greatest: i128::from(sums.greatest),
    })
}

/// The least and the greatest of what a walk found at some signals in a lane.
pub(crate) fn captured_sums(walk: &Walk, lane: Lane, signals: &[u32]) -> Option<Sums>
    ensures { AreExtremesIfAny (StandsAt (sums_to walk.now lane.number) (Contains signals.now))
        result }
{
    if let [signal] = signals {
        return walk.sums(lane, *signal);
    }
    let mut captured = None;
    for signal in signals {
        captured = either(captured, walk.sums(lane, *signal));
    }
    captured
}

// The least and the greatest of both, or the one that there is.
fn either(known: Option<Sums>, found: Option<Sums>) -> Option<Sums>
    ensures { result ≡ either_sums known found }
{
    match (known, found) {
        (Some(known), Some(found)) => Some(known.merged(found)),
        (None, found) => found,
        (known, None) => known,
    }
}
