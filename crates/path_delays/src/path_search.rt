ghost use Rattle.std.specs.Prelude.{◌≡◌, ◌<◌, All, IfErr, IfOk, length};
ghost use Rattle.path_delays.specs.Vocabulary.{ArePathsWithin, IsConstraintOf, JoinsMoreThan, IsLevelsOf, IsExtremeIfAny, AreDelaysBetween, ArePairs, ShowsTooMany, pair_limit};

use crate::PairFault;
use crate::capturing::Capturing;
use crate::extreme_path::path_back;
use crate::lanes::{Block, Lane, block_end};
use crate::pairs::PairList;
use crate::walk::Walk;
use cts_base::{Listed, NoMemory};
use cts_model::{Circuit, Constraint, PairDelay, Tech};
use gate_order::Levels;
use std::alloc::Global;
use std::marker::Model;

/// How many signals the paths of a cycle have together, at most.
const MAX_SIGNALS: usize = 4_096;

/// The paths of a circuit and their delays, looked for in the same room.
#[derive(Drop)]
pub struct Paths<'a> {
    pub(crate) circuit: &'a Circuit,
    pub(crate) tech: &'a Tech,
    pub(crate) walk: Walk,
}

impl<'a> Model for Paths<'a> {
    ghost use Rattle.path_delays.specs.TimedCircuits.{TimedCircuit};
    ghost use Rattle.path_delays.specs.WalkParts.{IsRoomFor};

    ghost Value = { TimedCircuit };

    ghost view = { λ paths. record { circuit = paths.circuit.now; tech = paths.tech.now } };

    ghost invariant = { λ paths. IsRoomFor paths.circuit.now paths.tech.now paths.walk };
}

impl<'a> Paths<'a> {
    /// The paths of a circuit. Which gates read each signal is listed once, for all of them.
    ///
    /// # Errors
    ///
    /// `NoMemory` where memory is refused.
    pub fn new(
        alloc: Global,
        circuit: &'a Circuit,
        levels: &Levels,
        tech: &'a Tech,
    ) -> Result<Paths<'a>, NoMemory>
        requires { IsLevelsOf circuit.now levels.now }
        ensures { IfOk result (λ paths.
            paths ≡ record { circuit = circuit.now; tech = tech.now }) }
    {
        let walk = Walk::new(alloc, circuit, levels, tech)?;
        Ok(Paths {
            circuit,
            tech,
            walk,
        })
    }

    /// The delays of all pairs of registers that paths join, by the register that launches and then
    /// by the one that captures. One walk for sixteen registers that launch.
    ///
    /// # Errors
    ///
    /// `TooManyPairs` where more than 1,048,576 pairs are joined, `NoMemory` where memory is
    /// refused.
    pub fn pair_delays(&mut self, alloc: Global) -> Result<Listed<PairDelay>, PairFault>
        ensures ok { IfOk result (ArePairs self.old.circuit self.old.tech) }
        ensures few { IfOk result (λ _. JoinsMoreThan self.old.circuit pair_limit → ⊥) }
        ensures many { IfErr result (ShowsTooMany self.old.circuit) }
        ensures same { self.new ≡ self.old }
    {
        let mut capturing = Capturing::new(alloc, self.circuit)?;
        let mut pairs = PairList {
            list: Vec::new(alloc),
        };
        let mut first = 0;
        while first < self.circuit.registers.len() {
            first = self.push_block(&mut pairs, &mut capturing, first)?;
        }
        Ok(Listed::from_vec(pairs.list))
    }

    /// The delays of pairs of registers, one pair after the other, over all paths between the two.
    /// `None` stands exactly where no path joins them. One walk for sixteen pairs, from the first
    /// of each up to what the second ones capture.
    ///
    /// # Errors
    ///
    /// `NoMemory` where memory is refused.
    pub fn delays_between(
        &mut self,
        alloc: Global,
        pairs: &[(u32, u32)],
    ) -> Result<Listed<Option<PairDelay>>, NoMemory>
        requires { All (λ pair. (pair.0 < length self.old.circuit.registers)
            × (pair.1 < length self.old.circuit.registers)) pairs.now }
        ensures delays { IfOk result
            (AreDelaysBetween self.old.circuit self.old.tech pairs.now) }
        ensures same { self.new ≡ self.old }
    {
        let mut delays = Vec::new(alloc);
        let mut first = 0;
        while first < pairs.len() {
            let end = block_end(first, pairs.len());
            let block = Block {
                items: &pairs[first..end],
            };
            self.push_delays(&mut delays, &block)?;
            first = end;
        }
        Ok(Listed::from_vec(delays))
    }

    /// The signals of a path from one register to another with the greatest delay of all, or with
    /// the least. `None` comes exactly where no path joins them; which path of several is free.
    ///
    /// # Errors
    ///
    /// `NoMemory` where memory is refused.
    pub fn path_of(
        &mut self,
        alloc: Global,
        from: u32,
        to: u32,
        greatest: bool,
    ) -> Result<Option<Listed<u32>>, NoMemory>
        requires from { from < length self.old.circuit.registers }
        requires to { to < length self.old.circuit.registers }
        ensures path { IfOk result
            (IsExtremeIfAny self.old.circuit self.old.tech from to greatest) }
        ensures same { self.new ≡ self.old }
    {
        let pairs = Block {
            items: &[(from, to)],
        };
        self.walk.walk_between(self.circuit, self.tech, &pairs);
        path_back(
            &self.walk,
            alloc,
            self.circuit,
            Lane { number: 0 },
            to,
            greatest,
        )
    }

    /// For each of some constraints a path that gives its weight: of a setup constraint one with
    /// the greatest delay of all, of a hold constraint one with the least. They have 4,096 signals
    /// at most: a path for which there is no room after the earlier ones is empty. One walk for
    /// sixteen constraints, and none without room.
    ///
    /// # Errors
    ///
    /// `NoMemory` where memory is refused.
    pub fn of_constraints(
        &mut self,
        alloc: Global,
        constraints: &[Constraint],
    ) -> Result<Listed<Listed<u32>>, NoMemory>
        requires { All (IsConstraintOf self.old.circuit self.old.tech) constraints.now }
        ensures paths { IfOk result
            (ArePathsWithin self.old.circuit self.old.tech 4096 constraints.now) }
        ensures same { self.new ≡ self.old }
    {
        let mut paths = Listed::new(alloc);
        let mut room = MAX_SIGNALS;
        let mut first = 0;
        while first < constraints.len() {
            let end = block_end(first, constraints.len());
            let block = Block {
                items: &constraints[first..end],
            };
            room = self.push_paths(&mut paths, alloc, &block, room)?;
            first = end;
        }
        Ok(paths)
    }
}
