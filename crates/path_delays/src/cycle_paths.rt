ghost use Rattle.std.specs.Prelude.{◌≡◌, ◌<◌, ◌≤◌, All, IfOk, length};
ghost use Rattle.path_delays.specs.Vocabulary.{Tech, IsConstraintOf, FitsRoom, IsPathWithin, IsReachedAlong, AreReachedAlong, KeepsPaths, pair_of, HasRanksOf, IsRoomFor};

use crate::extreme_path::path_back;
use crate::lanes::{Block, LANES, Lane};
use crate::path_search::Paths;
use crate::walk::Walk;
use cts_base::{Listed, NoMemory};
use cts_model::{Circuit, Constraint, Tech};
use std::alloc::Global;

impl Paths<'_> {
    /// Puts the paths of up to sixteen constraints last, as far as there is room for so many
    /// signals. It tells the room that is left.
    pub(crate) fn push_paths(
        &mut self,
        paths: &mut Listed<Listed<u32>>,
        alloc: Global,
        block: &Block<'_, Constraint>,
        room: usize,
    ) -> Result<usize, NoMemory>
        requires { All (IsConstraintOf self.old.circuit self.old.tech) block.now.items.now }
        ensures paths { IfOk result (KeepsPaths self.old.circuit self.old.tech
            block.now.items.now room paths.old paths.new) }
        ensures same { self.new ≡ self.old }
    {
        walk_along(&mut self.walk, self.circuit, self.tech, block, room);
        let mut left = room;
        for (lane, constraint) in block.items.iter().enumerate() {
            let lane = Lane { number: lane };
            let path = path_within(&self.walk, alloc, self.circuit, lane, constraint, left)?;
            left -= path.len();
            paths.push(path)?;
        }
        Ok(left)
    }
}

// Walks along the paths of up to sixteen constraints, if there is any room.
fn walk_along(
    walk: &mut Walk,
    circuit: &Circuit,
    tech: &Tech,
    block: &Block<'_, Constraint>,
    room: usize,
)
    requires room { IsRoomFor circuit.now tech.now walk.old }
    requires each { All (IsConstraintOf circuit.now tech.now) block.now.items.now }
    ensures reach { 0 < room → AreReachedAlong circuit.now tech.now block.now.items.now walk.new }
    ensures room { IsRoomFor circuit.now tech.now walk.new }
{
    if room == 0 {
        return;
    }
    let mut pairs = [(0, 0); LANES];
    for (lane, constraint) in block.items.iter().enumerate() {
        pairs[lane] = pair_of(constraint);
    }
    let pairs = Block {
        items: &pairs[..block.items.len()],
    };
    walk.walk_between(circuit, tech, &pairs);
}

// The path of the constraint in a lane, if there is room for so many signals, and else none.
// Without any room none is looked for.
fn path_within(
    walk: &Walk,
    alloc: Global,
    circuit: &Circuit,
    lane: Lane,
    constraint: &Constraint,
    room: usize,
) -> Result<Listed<u32>, NoMemory>
    requires ranks { HasRanksOf circuit.now walk.now }
    requires to { (pair_of constraint.now).1 < length circuit.now.registers }
    ensures path { IfOk result (λ path. (tech : Tech)
        → IsConstraintOf circuit.now tech constraint.now
        → (0 < room → IsReachedAlong circuit.now tech constraint.now lane.number walk.now)
        → IsPathWithin circuit.now tech constraint.now room path) }
    ensures few { IfOk result (λ path. length path ≤ room) }
{
    if room == 0 {
        return Ok(Listed::new(alloc));
    }
    let to = pair_of(constraint).1;
    match path_back(walk, alloc, circuit, lane, to, constraint.setup)? {
        Some(whole) => Ok(kept(alloc, whole, room)),
        None => Ok(Listed::new(alloc)),
    }
}

// The path, if there is room for so many signals, and else none.
fn kept(alloc: Global, whole: Listed<u32>, room: usize) -> Listed<u32>
    ensures fits { FitsRoom whole room result }
    ensures few { length result ≤ room }
{
    if whole.len() <= room {
        whole
    } else {
        Listed::new(alloc)
    }
}

// The register that launches along a constraint's paths, and the one that captures.
fn pair_of(constraint: &Constraint) -> (u32, u32)
    ensures { result ≡ pair_of constraint.now }
{
    if constraint.setup {
        (constraint.tail, constraint.head)
    } else {
        (constraint.head, constraint.tail)
    }
}
