ghost use Rattle.std.specs.Prelude.{◌≡◌, ◌<◌, ◌↔◌, ◌^◌, All, IfOk, IfSome, IsSomeAnd, IsTrue, length, map};
ghost use Rattle.cert_check.specs.Vocabulary.{IsOfCircuit, IsSmallPair, IsBelow, IsBetweenRegisters, AreDelaysBetween, pair_of, weight_by, NotOfCircuit, Judges, HasPaths, OfCircuit};

use crate::judge::Judge;
use crate::verdict::{Reason, Stop};
use cts_base::{Listed, NoMemory};
use cts_model::{Constraint, PairDelay, Tech};
use path_delays::Paths;
use std::alloc::Global;

impl Judge<'_> {
    /// Whether the constraint at each place of the cycle is one of the circuit.
    pub(crate) fn judge_constraints(&self, alloc: Global, paths: &mut Paths) -> Result<(), Stop>
        requires { HasPaths self.now paths.old }
        ensures judges { Judges (length self.now.cycle.now) (OfCircuit self.now) NotOfCircuit
            result }
        ensures paths { HasPaths self.now paths.new }
    {
        let delays = self.delays_of(alloc, paths, self.cycle)?;
        for place in 0..self.cycle.len() {
            if !self.is_given(self.cycle, delays.as_slice(), place) {
                return Err(Stop::At(Reason::NotOfCircuit(place as u32)));
            }
        }
        Ok(())
    }

    /// What joins the pair of each constraint. One walk for sixteen of them, from the registers
    /// that launch along their paths.
    pub(crate) fn delays_of(
        &self,
        alloc: Global,
        paths: &mut Paths,
        constraints: &[Constraint],
    ) -> Result<Listed<Option<PairDelay>>, NoMemory>
        requires paths { HasPaths self.now paths.old }
        requires among { All (IsBetweenRegisters (length self.now.problem.now.circuit.registers))
            constraints.now }
        ensures delays { IfOk result (AreDelaysBetween self.now.problem.now.circuit
            self.now.problem.now.tech (map pair_of constraints.now)) }
        ensures paths { HasPaths self.now paths.new }
    {
        let pairs = pairs_of(alloc, constraints)?;
        paths.delays_between(alloc, pairs.as_slice())
    }

    /// Whether the constraint at a place, if there is one, is one of the circuit, by what joins the
    /// pairs.
    pub(crate) fn is_given(
        &self,
        constraints: &[Constraint],
        delays: &[Option<PairDelay>],
        place: usize,
    ) -> bool
        requires { AreDelaysBetween self.now.problem.now.circuit self.now.problem.now.tech
            (map pair_of constraints.now) delays.now }
        ensures { IsTrue result ↔ IsOfCircuit self.now.problem.now.circuit
            self.now.problem.now.tech constraints.now place }
    {
        place >= constraints.len()
            || gives_weight(&self.problem.tech, &constraints[place], delays[place])
    }
}

// The pair of each constraint.
fn pairs_of(alloc: Global, constraints: &[Constraint]) -> Result<Vec<(u32, u32)>, NoMemory>
    ensures { IfOk result (λ pairs. pairs.items ≡ map pair_of constraints.now) }
{
    Ok(
        constraints
            .iter()
            .map(|constraint| pair_of(*constraint))
            .collect(alloc)?,
    )
}

/// The register that launches along a constraint's paths, and the one that captures.
pub(crate) fn pair_of(constraint: Constraint) -> (u32, u32)
    ensures { result ≡ pair_of constraint }
{
    if constraint.setup {
        (constraint.tail, constraint.head)
    } else {
        (constraint.head, constraint.tail)
    }
}

// Whether what joins a constraint's pair gives it its weight.
fn gives_weight(tech: &Tech, constraint: &Constraint, joined: Option<PairDelay>) -> bool
    requires { IfSome joined IsSmallPair }
    ensures { IsTrue result ↔ IsSomeAnd joined (λ delays.
        weight_by tech.now constraint.now.setup delays ≡ constraint.now.weight) }
{
    match joined {
        Some(delays) => weight_by(tech, constraint.setup, delays) == constraint.weight,
        None => false,
    }
}

// The weight that the delays of a pair give a setup or a hold constraint.
fn weight_by(tech: &Tech, setup: bool, delays: PairDelay) -> i128
    requires { IsSmallPair delays }
    ensures value { result ≡ weight_by tech.now setup delays }
    ensures small { IsBelow (10 ^ 12) result }
{
    if setup {
        delays.greatest + tech.setup
    } else {
        tech.hold - delays.least
    }
}
