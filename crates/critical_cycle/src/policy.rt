ghost use Rattle.std.specs.Prelude.{◌≡◌, ◌<◌, length};

use crate::ring::go_round;
use crate::search::Search;
use relaxation::Rounds;

/// The most rounds of policy iteration.
const ROUNDS: u32 = 256;

/// Policy iteration: rings of parents show greater ratios, and where none does, values rise along
/// parents and by registers that hand theirs on in turn.
#[derive(Drop)]
pub(crate) struct Policy<'a> {
    pub(crate) search: Search<'a>,
    pub(crate) rounds: Rounds<'a>,
    pub(crate) ghost constraints: { rounds.relaxation.constraints.now ≡ search.constraints.now },
    pub(crate) ghost registers: { length rounds.relaxation.values.items
        ≡ length search.places.items },
}

impl Policy<'_> {
    ghost use Rattle.critical_cycle.specs.Searches.{IsSameSearch};

    /// Goes on until no register waits, or else for so many rounds as take little time.
    pub(crate) fn iterate(&mut self)
        ensures { IsSameSearch self.old.search self.new.search }
    {
        if !self.search.try_shown() {
            return;
        }
        self.rounds.choose_parents(self.search.trial);
        for round in 0..ROUNDS {
            if self.rounds.are_through(self.search.trial) || !self.improve(round % 2 == 0) {
                return;
            }
        }
    }

    // One round, if some ratio may be enough: the rings of parents that gain raise the ratio, or
    // else registers have values by their parents and hand them on, in a sweep forwards or
    // backwards.
    fn improve(&mut self, forwards: bool) -> bool
        ensures { IsSameSearch self.old.search self.new.search }
    {
        let last = self.search.trial;
        if !self.take_rings() {
            self.rounds.take_round(self.search.trial, forwards);
            return true;
        }
        self.rounds.rescale(last, self.search.trial);
        self.search.try_shown()
    }

    // Shows the greatest ratio of the rings of parents, and takes its trial, where it is greater
    // than what is shown. It tells whether it is.
    fn take_rings(&mut self) -> bool
        ensures { IsSameSearch self.old.search self.new.search }
    {
        for ring in 0..self.rounds.marks.len() {
            let Some(register) = self.rounds.gaining_ring(self.search.trial) else {
                return ring > 0;
            };
            self.take_ring(register);
            if !self.search.try_shown() {
                return true;
            }
        }
        true
    }

    // Shows the ring of parents above the register where its ratio is greater than what is shown.
    fn take_ring(&mut self, register: u32)
        requires { register < length self.old.rounds.marks.items }
        ensures { IsSameSearch self.old.search self.new.search }
    {
        if !self.rounds.relaxation.have_own_heads() {
            return;
        }
        if let Some(top) = self.rounds.relaxation.climb(register) {
            let rounds = &mut self.rounds;
            let relaxation = &rounds.relaxation;
            let parents = relaxation.parents.as_slice();
            let start = go_round(&mut rounds.marks, relaxation.constraints, parents, top);
            self.search.consider(rounds.marks.split_at(start).1);
        }
    }
}
