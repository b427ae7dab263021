ghost use Rattle.std.specs.Prelude.{◌≡◌, ◌⊎◌, ◌<◌, ◌≤◌, ◌↔◌, ◌^◌, [], All, IsTrue, drop, length};
ghost use Rattle.cert_check.specs.Vocabulary.{Second, GivesWeight, IsGate, IsBelow, delay_by, pair_of, path_weight, PathBroken, Judges, GivenPath};

use crate::delay::{Gates, register_delay};
use crate::item::item_at;
use crate::judge::Judge;
use crate::of_circuit::pair_of;
use crate::verdict::{Reason, Stop};
use cts_model::{Circuit, Constraint, Tech};

impl Judge<'_> {
    /// Whether the path at each place of the cycle, if it is printed, gives the constraint its
    /// weight.
    pub(crate) fn judge_paths(&self) -> Result<(), Stop>
        ensures { Judges (length self.now.cycle.now) (λ place. self.now.report.now.version ≡ Second
            → GivenPath self.now place) PathBroken result }
    {
        for place in 0..self.report.paths.len() {
            if !self.is_given_path(place) {
                return Err(Stop::At(Reason::PathBroken(place as u32)));
            }
        }
        Ok(())
    }

    // Whether the path at a place gives the constraint there its weight.
    fn is_given_path(&self, place: usize) -> bool
        requires { place < length self.now.report.now.paths }
        ensures { IsTrue result ↔ GivenPath self.now place }
    {
        let constraint = *item_at(self.cycle, place);
        let (from, to) = pair_of(constraint);
        let shown = ShownPath {
            circuit: &self.problem.circuit,
            tech: &self.problem.tech,
            constraint,
            from,
            to,
            path: item_at(self.report.paths.as_slice(), place).as_slice(),
        };
        shown.is_given()
    }
}

/// A path that is shown for a constraint.
#[derive(Clone, Copy)]
pub(crate) struct ShownPath<'a> {
    pub(crate) circuit: &'a Circuit,
    tech: &'a Tech,
    constraint: Constraint,
    /// The register that launches along the constraint's paths.
    pub(crate) from: u32,
    /// The register that captures.
    pub(crate) to: u32,
    pub(crate) path: &'a [u32],
    ghost pair: { (from, to) ≡ pair_of constraint },
    pub(crate) ghost launches: { from < length circuit.now.registers },
    pub(crate) ghost captures: { to < length circuit.now.registers },
    pub(crate) ghost numbers: { All (λ number. number < length circuit.now.signals) path.now },
    ghost short: { length path.now ≤ 65536 },
}

impl ShownPath<'_> {
    // Whether it gives the constraint its weight, if it is printed.
    fn is_given(&self) -> bool
        ensures { IsTrue result ↔ ((self.now.path.now ≡ []) ⊎ GivesWeight self.now.circuit.now
            self.now.tech.now self.now.constraint self.now.path.now) }
    {
        self.path.is_empty() || self.gives_weight()
    }

    // Whether it gives the constraint its weight.
    fn gives_weight(&self) -> bool
        ensures { IsTrue result ↔ GivesWeight self.now.circuit.now self.now.tech.now
            self.now.constraint self.now.path.now }
    {
        self.is_path() && self.weight() == self.constraint.weight
    }

    // The greatest delay of the path and the setup time, or the hold time less the least delay.
    fn weight(&self) -> i128
        requires { All (IsGate self.now.circuit.now.signals) (drop 1 self.now.path.now) }
        ensures value { result ≡ path_weight self.now.circuit.now self.now.tech.now
            self.now.constraint.setup self.now.path.now }
        ensures small { IsBelow (10 ^ 38) result }
    {
        let setup = self.constraint.setup;
        let delay = self.delay(setup);
        if setup {
            delay + self.tech.setup
        } else {
            self.tech.hold - delay
        }
    }

    // The greatest or the least delay of the path, in ticks.
    fn delay(&self, greatest: bool) -> i128
        requires { All (IsGate self.now.circuit.now.signals) (drop 1 self.now.path.now) }
        ensures value { result ≡ delay_by greatest self.now.circuit.now self.now.tech.now
            self.now.path.now }
        ensures small { IsBelow (10 ^ 25) result }
    {
        let first = register_delay(self.tech, greatest);
        match self.path {
            [] => first,
            [_, gates @ ..] => {
                let gates = Gates {
                    circuit: self.circuit,
                    tech: self.tech,
                    gates,
                };
                first + gates.through(greatest)
            }
        }
    }
}
