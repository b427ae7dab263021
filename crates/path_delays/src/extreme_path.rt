ghost use Rattle.std.specs.Prelude.{◌≡◌, ◌<◌, ◌↔◌, ℕ, length, Contains, IfOk, IsTrue, IsSomeAnd};
ghost use Rattle.path_delays.specs.Vocabulary.{Tech, Reads, HasRanksOf, HasReachBetween, IsExtremeIfAny, IsFurthestIfAny, extreme_of};

use crate::lanes::Lane;
use crate::pair::captured_sums;
use crate::sums::Sums;
use crate::walk::Walk;
use cts_base::{Listed, NoMemory};
use cts_model::Circuit;
use std::alloc::Global;

/// A path from the register in a lane of a walk to another, which the walk went up to.
pub(crate) fn path_back(
    walk: &Walk,
    alloc: Global,
    circuit: &Circuit,
    lane: Lane,
    to: u32,
    greatest: bool,
) -> Result<Option<Listed<u32>>, NoMemory>
    requires ranks { HasRanksOf circuit.now walk.now }
    requires to { to < length circuit.now.registers }
    ensures { IfOk result (λ found. (tech : Tech) (from : ℕ)
        → HasReachBetween circuit.now tech from to lane.number walk.now
        → IsExtremeIfAny circuit.now tech from to greatest found) }
{
    let captured = circuit.register_signal(to as usize).fan_in.as_slice();
    let Some(last) = furthest(walk, lane, captured, greatest) else {
        return Ok(None);
    };
    let mut path = vec![in alloc; last]?;
    let mut signal = last;
    while let Some(read) = furthest_read(walk, circuit, lane, signal, greatest) {
        path.push(read)?;
        signal = read;
    }
    path.reverse();
    Ok(Some(Listed::from_vec(path)))
}

// Of the signals that a gate reads the one that a walk found furthest in a lane.
fn furthest_read(
    walk: &Walk,
    circuit: &Circuit,
    lane: Lane,
    gate: u32,
    greatest: bool,
) -> Option<u32>
    requires { gate < length circuit.now.signals }
    ensures { IsFurthestIfAny walk.now lane.number (Reads circuit.now.signals gate) greatest
        result }
{
    let signal = &circuit.signals.as_slice()[gate as usize];
    if signal.kind.is_gate() {
        furthest(walk, lane, signal.fan_in.as_slice(), greatest)
    } else {
        None
    }
}

// The first of some signals that a walk found furthest in a lane.
fn furthest(walk: &Walk, lane: Lane, signals: &[u32], greatest: bool) -> Option<u32>
    ensures { IsFurthestIfAny walk.now lane.number (Contains signals.now) greatest result }
{
    let sums = captured_sums(walk, lane, signals)?;
    for signal in signals {
        if fits(walk.sums(lane, *signal), sums, greatest) {
            return Some(*signal);
        }
    }
    None
}

// Whether what a walk found at a signal is the extreme of these sums.
fn fits(found: Option<Sums>, sums: Sums, greatest: bool) -> bool
    ensures { IsTrue result ↔ IsSomeAnd found (λ entry.
        extreme_of greatest entry ≡ extreme_of greatest sums) }
{
    match found {
        None => false,
        Some(entry) => entry.extreme(greatest) == sums.extreme(greatest),
    }
}
