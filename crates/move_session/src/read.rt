ghost use Rattle.std.specs.Prelude.{◌≤◌, length};
ghost use Rattle.move_session.specs.Vocabulary.{IsToldBy, moves_in};

use crate::moving::Moving;
use crate::{Move, MovesFault};
use cts_base::{Listed, read_lines};
use cts_model::Circuit;
use std::alloc::Global;

/// Reads moves of a circuit's registers. Each line that isn't blank has the name of a register and
/// the two coordinates of its new place, as `G7 2 3.5`; the host is named `(host)`. At most 10,000
/// are taken. It goes over the bytes once, and finds a name by a map.
///
/// # Errors
///
/// The first faulty line with its first fault, or `NoMemory` where there is none for the names or
/// the moves.
#[tactic(auto, unfolding(crate::specs::Moves::moves_in))]
pub fn read_moves(
    alloc: Global,
    bytes: &[u8],
    circuit: &Circuit,
) -> Result<Listed<Move>, MovesFault>
    requires { length bytes.now ≤ 16777216 }
    ensures { IsToldBy MovesFault.NoMemory (moves_in bytes.now circuit.now) result }
{
    let mut moving = Moving::new(alloc, circuit)?;
    read_lines(&mut moving, bytes)?;
    Ok(moving.moves)
}
