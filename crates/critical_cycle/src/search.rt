ghost use Rattle.std.specs.Prelude.{◌≡◌, ◌<◌, ◌≤◌, false, IsTrue, drop, length};
ghost use Rattle.cts_model.specs.Vocabulary.{AreSmallConstraints};
ghost use Rattle.critical_cycle.specs.Measures.{CanTry};
ghost use Rattle.critical_cycle.specs.OneShown.{shown_prop};
ghost use Rattle.critical_cycle.specs.ShownRatios.{IsShown};

use crate::cycle::Cycle;
use crate::measure::Measure;
use crate::raise::raise_by;
use crate::shown::Shown;
use cts_base::Fraction;
use cts_model::Constraint;
use relaxation::Gains;

/// A search for the greatest ratio of a cycle, from the first ratio upwards.
#[derive(Drop)]
pub(crate) struct Search<'a> {
    pub(crate) constraints: &'a [Constraint],
    pub(crate) measure: Measure,
    pub(crate) first: Fraction,
    /// The ratio that is tried.
    pub(crate) ratio: Fraction,
    /// Its trial.
    pub(crate) trial: Gains,
    /// An entry for each register. The places of the cycle that shows the ratio come last.
    pub(crate) places: Vec<u32>,
    /// Where they begin.
    pub(crate) start: usize,
    pub(crate) shown: Shown,
    pub(crate) ghost small: { AreSmallConstraints (length places.items) constraints.now },
    pub(crate) ghost within: { start ≤ length places.items },
    pub(crate) ghost can: { CanTry measure first },
    pub(crate) ghost shows: { IsShown measure constraints.now first (drop start places.items)
        shown } by { shown_prop _ _ _ _ _ },
}

impl<'a> Search<'a> {
    ghost use Rattle.critical_cycle.specs.Vocabulary.{AreWithin, CloseACycle, IsAtShown, IsCycle, IsNeverAtAll, IsSameSearch, IsSearchFor, constraints_at};

    /// The search at the first ratio, before anything else is shown, in a list that may hold any
    /// numbers. It takes no memory.
    pub(crate) fn at_first(
        constraints: &'a [Constraint],
        measure: Measure,
        first: Fraction,
        places: Vec<u32>,
    ) -> Search<'a>
        requires small { AreSmallConstraints (length places.items) constraints.now }
        requires first { CanTry measure first }
        ensures search { IsSearchFor constraints.now measure first result }
        ensures places { length result.places.items ≡ length places.items }
    {
        let start = places.len();
        Search {
            constraints,
            measure,
            first,
            ratio: first,
            trial: measure.trial(first),
            places,
            start,
            shown: Shown::First,
        }
    }

    /// Looks at each constraint whether it closes a cycle alone or with the next one, and shows the
    /// greatest ratio of these cycles. Two are looked at closely where they gain something at the
    /// ratio that was shown last.
    pub(crate) fn look_at_short_cycles(&mut self)
        ensures { IsSameSearch self.old self.new }
    {
        let constraints = self.constraints;
        for (place, constraint) in constraints.iter().enumerate() {
            if constraint.tail == constraint.head {
                self.consider(&[place as u32]);
            }
            let Some(next) = constraints.get(place + 1) else {
                return;
            };
            if Search::close_a_cycle(constraint, next) && self.gain_together(constraint, next) {
                self.consider(&[place as u32, place as u32 + 1]);
                self.try_shown();
            }
        }
    }

    /// Takes the trial of the greatest ratio shown, if some ratio may be enough.
    pub(crate) fn try_shown(&mut self) -> bool
        ensures same { IsSameSearch self.old self.new }
        ensures shown { self.new.shown ≡ self.old.shown }
        ensures reached { IsTrue result → IsAtShown self.new }
        ensures never { result ≡ false → IsNeverAtAll self.new.shown }
    {
        let Some(ratio) = self.shown.ratio(self.first) else {
            return false;
        };
        self.ratio = ratio;
        self.trial = self.measure.trial(ratio);
        true
    }

    // Whether two constraints lead to one another's tail, two different registers.
    fn close_a_cycle(first: &Constraint, second: &Constraint) -> bool
        ensures { IsTrue result → CloseACycle first.now second.now }
    {
        first.head == second.tail && second.head == first.tail && first.tail != second.tail
    }

    // Whether a setup and a hold constraint may gain something in all. It is a hint, asked of other
    // pairs too.
    fn gain_together(&self, first: &Constraint, second: &Constraint) -> bool {
        let weight = first.weight.wrapping_add(second.weight);
        weight.wrapping_mul(self.trial.scale) > self.trial.setup.wrapping_add(self.trial.hold)
    }

    /// Puts the cycle last in the list where its ratio is greater than what is shown.
    pub(crate) fn consider(&mut self, cycle: &[u32])
        requires within { AreWithin self.old.constraints.now cycle.now }
        requires cycle { IsCycle (constraints_at self.old.constraints.now cycle.now) }
        requires few { length cycle.now ≤ length self.old.places.items }
        ensures { IsSameSearch self.old self.new }
    {
        let Some(ratio) = self.shown.ratio(self.first) else {
            return;
        };
        let considered = Cycle {
            constraints: self.constraints,
            places: cycle,
        };
        let shown = raise_by(self.measure, ratio, &considered);
        if let Shown::First = shown {
            return;
        }
        self.start = put_last(&mut self.places, cycle);
        self.shown = shown;
    }
}

// Puts a cycle last in the list. Where it begins is the answer.
fn put_last(places: &mut [u32], cycle: &[u32]) -> usize
    requires { length cycle.now ≤ length places.old }
    ensures len { length places.new ≡ length places.old }
    ensures start { result ≤ length places.new }
    ensures last { drop result places.new ≡ cycle.now }
{
    let start = places.len() - cycle.len();
    let (_before, last) = places.split_at_mut(start);
    last.copy_from_slice(cycle);
    start
}
