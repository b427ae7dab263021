ghost use Rattle.std.specs.Prelude.{◌≡◌, ◌<◌, ◌^◌, ℕ, pos, [], None, All, IfSome, MatchOption, length, replicate, slice_set};
ghost use Rattle.cts_model.specs.Vocabulary.{IsBelow, AreSmallConstraints};
ghost use Rattle.relaxation.specs.Places.{place_at};

use crate::gains::Gains;
use cts_model::Constraint;

/// The parent of a register without one. No list of constraints has a place with this number.
const NO_PARENT: u32 = u32::MAX;

/// Values of registers that are raised until constraints hold, in the order of the list and against
/// it by turns. Bellman, "On a routing problem", 1958; with parents that show where no values will
/// do: Cherkassky and Goldberg, "Negative-cycle detection algorithms", 1999.
#[derive(Drop)]
pub struct Relaxation<'a> {
    /// The constraints.
    pub constraints: &'a [Constraint],
    /// A value for each register, in ticks over the scale of the gains.
    pub values: Vec<i128>,
    /// For each register the place of the constraint that raised it last, or a number that is no
    /// place. The list is empty where no parents are kept.
    pub parents: Vec<u32>,
    pub ghost small: { AreSmallConstraints (length values.items) constraints.now },
}

impl<'a> Relaxation<'a> {
    ghost use Rattle.relaxation.specs.Vocabulary.{AdmitsGains, SatisfiesGains, ReachesUp, value_of, IsFarUp, IsFromZero, IsSmallConstraint, GivesNoMore, IsOffer, IsRelaxed, AreRaised, IsSweep};

    /// Values of 0 that keep no parents, in a list that may hold any. It takes no memory.
    pub fn without_parents(constraints: &'a [Constraint], values: Vec<i128>) -> Relaxation<'a>
        requires { AreSmallConstraints (length values.items) constraints.now }
        ensures zero { IsFromZero constraints.now (length values.items) result }
        ensures parents { result.parents.items ≡ [] }
    {
        let parents = Vec::new(*values.allocator());
        Relaxation::from_zero(constraints, values, parents)
    }

    /// Values of 0 and no parents, in lists that may hold any. It takes no memory.
    pub fn from_zero(
        constraints: &'a [Constraint],
        values: Vec<i128>,
        parents: Vec<u32>,
    ) -> Relaxation<'a>
        requires { AreSmallConstraints (length values.items) constraints.now }
        ensures zero { IsFromZero constraints.now (length values.items) result }
        ensures parents { length result.parents.items ≡ length parents.items }
    {
        let mut values = values;
        let mut parents = parents;
        values.fill(0);
        parents.fill(NO_PARENT);
        Relaxation {
            constraints,
            values,
            parents,
        }
    }

    /// Brings the values from the scale of the last gains to that of the next, rounded down
    /// and cut in size. Any values will do. It takes no memory.
    pub fn rescale(&mut self, last: Gains, next: Gains)
        ensures values { length self.new.values.items ≡ length self.old.values.items }
        ensures parents { self.new.parents.items ≡ self.old.parents.items }
        ensures small { All (IsBelow (2 ^ 88)) self.new.values.items }
        ensures constraints { self.new.constraints.now ≡ self.old.constraints.now }
    {
        for register in 0..self.values.len() {
            let value = self.values[register];
            self.values[register] = rescaled(value, last, next);
        }
    }

    /// Sweeps over the constraints, forwards and backwards by turns, until a sweep changes nothing
    /// or as many parents as there are registers stand above the register that it changed last. The
    /// register at their top is answered; where some values satisfy the constraints there is none.
    /// Parents of before are forgotten. It makes at most a sweep for each register, and takes no
    /// memory.
    pub fn settle(&mut self, gains: Gains) -> Option<u32>
        requires parents { length self.old.parents.items ≡ length self.old.values.items }
        requires small { All (IsBelow (2 ^ 94)) self.old.values.items }
        ensures settled { MatchOption result
            (SatisfiesGains self.old.constraints.now gains 1 (value_of self.new.values.items))
            (IsFarUp self.old.constraints.now gains self.new) }
        ensures admitted { AdmitsGains self.old.constraints.now gains → result ≡ None }
        ensures raised { AreRaised self.old.constraints.now gains self.old.values.items
            self.new.values.items }
        ensures parents { length self.new.parents.items ≡ length self.old.parents.items }
        ensures constraints { self.new.constraints.now ≡ self.old.constraints.now }
    {
        self.parents.fill(NO_PARENT);
        let mut sweeps = 0;
        while let Some(changed) = self.sweep(gains, sweeps) {
            if let Some(register) = self.climb(changed) {
                return Some(register);
            }
            sweeps += 1;
        }
        None
    }

    /// Sweeps over constraints that some values satisfy, forwards and backwards by turns, until a
    /// sweep changes nothing. It needs no parents, makes at most a sweep for each register, and
    /// takes no memory.
    pub fn satisfy(&mut self, gains: Gains)
        requires small { All (IsBelow (2 ^ 94)) self.old.values.items }
        requires admitted { AdmitsGains self.old.constraints.now gains }
        ensures satisfied { SatisfiesGains self.old.constraints.now gains 1
            (value_of self.new.values.items) }
        ensures raised { AreRaised self.old.constraints.now gains self.old.values.items
            self.new.values.items }
    {
        let mut before = 0;
        while self.sweep(gains, before).is_some() {
            before += 1;
        }
    }

    /// The register to which as many steps up the parents lead as there are registers, if there are
    /// so many parents. It takes no memory.
    pub fn climb(&self, from: u32) -> Option<u32>
        requires parents { length self.now.parents.items ≡ length self.now.values.items }
        requires from { from < length self.now.values.items }
        ensures reaches { MatchOption result
            ((to : ℕ) → ReachesUp self.now.constraints.now self.now.parents.items from to → ⊥)
            (ReachesUp self.now.constraints.now self.now.parents.items from) }
        ensures within { IfSome result (λ register. register < length self.now.values.items) }
    {
        let mut register = from;
        for _step in 0..self.parents.len() {
            let parent = self.parents[register as usize];
            register = self.constraints.get(parent as usize)?.tail;
        }
        Some(register)
    }

    /// One sweep, forwards where the number of sweeps before it is even. The register that changed
    /// last is answered. It takes no memory.
    pub fn sweep(&mut self, gains: Gains, before: usize) -> Option<u32>
        requires { All (IsBelow (2 ^ 114)) self.old.values.items }
        ensures { IsSweep self.old.constraints.now gains self.old result self.new }
    {
        let forwards = before % 2 == 0;
        let places = self.constraints.len();
        let mut changed = None;
        for turn in 0..places {
            let place = place_at(turn, places, forwards);
            changed = self.relax(place, gains).or(changed);
        }
        changed
    }

    /// Raises the head of a constraint to what the constraint gives it, if that is more. The head
    /// is answered where it changed.
    pub(crate) fn relax(&mut self, place: usize, gains: Gains) -> Option<u32>
        requires place { place < length self.old.constraints.now }
        requires small { All (IsBelow (2 ^ 115)) self.old.values.items }
        ensures { IsRelaxed self.old.constraints.now gains place self.old result self.new }
    {
        let constraint = &self.constraints[place];
        let offer = self.offered(constraint, gains)?;
        let head = constraint.head;
        self.values[head as usize] = offer;
        self.keep_parent(head, place as u32);
        Some(head)
    }

    /// What a constraint gives its head, if that is more than the head has.
    pub(crate) fn offered(&self, constraint: &Constraint, gains: Gains) -> Option<i128>
        requires constraint { IsSmallConstraint (length self.now.values.items) constraint.now }
        requires small { All (IsBelow (2 ^ 115)) self.now.values.items }
        ensures { MatchOption result (GivesNoMore gains self.now.values.items constraint.now)
            (IsOffer gains self.now.values.items constraint.now) }
    {
        let offer = self.values[constraint.tail as usize] + gains.gain(constraint);
        (offer > self.values[constraint.head as usize]).then_some(offer)
    }

    // Gives a register a parent, where parents are kept.
    fn keep_parent(&mut self, register: u32, place: u32)
        ensures values { self.new.values.items ≡ self.old.values.items }
        ensures parents { self.new.parents.items ≡ slice_set self.old.parents.items register place }
        ensures constraints { self.new.constraints.now ≡ self.old.constraints.now }
    {
        if let Some(parent) = self.parents.get_mut(register as usize) {
            *parent = place;
        }
    }
}

/// The place that a sweep comes to after so many others.
pub(crate) fn place_at(turn: usize, places: usize, forwards: bool) -> usize
    requires { turn < places }
    ensures place { result ≡ place_at turn places forwards }
    ensures within { result < places }
{
    if forwards { turn } else { places - 1 - turn }
}

// A value at another scale, rounded down and cut to a size below 2^88. Rounded down, values satisfy
// every constraint that they satisfy unrounded, since gains are whole.
fn rescaled(value: i128, last: Gains, next: Gains) -> i128
    ensures { IsBelow (2 ^ 88) result }
{
    let kept = cut(value);
    if next.scale == last.scale || kept == 0 {
        return kept;
    }
    cut((kept * next.scale).div_euclid(last.scale))
}

/// The nearest value whose size is below 2^88.
pub(crate) fn cut(value: i128) -> i128
    ensures { IsBelow (2 ^ 88) result }
{
    value.clamp(-LIMIT, LIMIT)
}

// The greatest value whose size is below 2^88.
const LIMIT: i128 = (1 << 88) - 1;
