ghost use Rattle.std.specs.Prelude.{◌≡◌, ◌<◌, MatchOption, length};
ghost use Rattle.critical_cycle.specs.ShownRatios.{IsSettled, raises_left};

use crate::cycle::Cycle;
use crate::raise::raise_by;
use crate::ring::go_round;
use crate::search::Search;
use relaxation::Relaxation;

/// A search whose ratios are tried by a relaxation.
#[derive(Drop)]
pub(crate) struct Trials<'a> {
    pub(crate) search: Search<'a>,
    pub(crate) relaxation: Relaxation<'a>,
    pub(crate) ghost constraints: { relaxation.constraints.now ≡ search.constraints.now },
    pub(crate) ghost registers: { length relaxation.values.items ≡ length search.places.items },
    pub(crate) ghost parents: { length relaxation.parents.items ≡ length search.places.items },
}

impl<'a> Trials<'a> {
    ghost use Rattle.critical_cycle.specs.Searches.{IsAtRing, IsSameSearch};

    /// Tries the greatest ratio shown. The answer is a register far up the parents where it isn't
    /// enough.
    pub(crate) fn settle(&mut self) -> Option<u32>
        ensures same { IsSameSearch self.old.search self.new.search }
        ensures shown { self.new.search.shown ≡ self.old.search.shown }
        ensures settled { MatchOption result
            (IsSettled self.new.search.measure self.new.search.constraints.now
            self.new.search.first self.new.search.shown)
            (IsAtRing self.new) }
    {
        let last = self.search.trial;
        if !self.search.try_shown() {
            return None;
        }
        self.relaxation.rescale(last, self.search.trial);
        self.relaxation.settle(self.search.trial)
    }

    /// Goes round the ring that a register far up the parents stands on. It shows a greater ratio,
    /// or that none is enough.
    pub(crate) fn raise(self, register: u32) -> Trials<'a>
        requires { IsAtRing self register }
        ensures same { IsSameSearch self.entry.search result.search }
        ensures less { raises_left self.entry.search.measure self.entry.search.first
            result.search.shown < raises_left self.entry.search.measure self.entry.search.first
            self.entry.search.shown }
    {
        let Trials { search, relaxation } = self;
        let mut search = search;
        let mut places = search.places;
        let parents = relaxation.parents.as_slice();
        let start = go_round(&mut places, search.constraints, parents, register);
        let cycle = Cycle {
            constraints: search.constraints,
            places: places.split_at(start).1,
        };
        search.shown = raise_by(search.measure, search.ratio, &cycle);
        search.places = places;
        search.start = start;
        Trials { search, relaxation }
    }
}
