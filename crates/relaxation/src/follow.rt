ghost use Rattle.std.specs.Prelude.{◌≡◌, ◌<◌, IfSome, length};
ghost use Rattle.relaxation.specs.Rounds.{AreSameRounds, HasRisen};

use crate::gains::Gains;
use crate::policy::STANDS;
use crate::relaxation::place_at;
use crate::rounds::Rounds;

/// No register hands on a value above this one.
const CAP: i128 = 1 << 93;

impl Rounds<'_> {
    /// Raises values along parents, and by registers that hand theirs on in turn, until no register
    /// waits or there were as many rounds as there are registers. A pass takes memory for those whose
    /// turn comes, and does with what it gets.
    pub fn raise(&mut self, gains: Gains)
        ensures { HasRisen gains self.old self.new }
    {
        for round in 0..self.relaxation.values.len() {
            if self.are_through(gains) {
                return;
            }
            self.follow_parents(gains);
            self.take_turns(gains, round % 2 == 0);
        }
    }

    /// Gives each register a value by its parents, from new ones where each register waits, and
    /// lets those that wait hand theirs on, many by one sweep, forwards or not, or else in a pass,
    /// which takes memory for those whose turn comes, and does with what it gets.
    pub fn take_round(&mut self, gains: Gains, forwards: bool)
        ensures { AreSameRounds self.old self.new }
    {
        self.turns
            .choose_at_first_turn(self.relaxation.constraints, gains);
        self.lower();
        self.follow_parents(gains);
        self.take_turns(gains, forwards);
    }

    // Raises each register by its parent, after the registers above it up the parents, so a long
    // way of parents is gone in whatever order they stand. Each mark becomes, for a register that
    // was passed on a way up, 1 more than the register passed before it, or than itself where the
    // way begins; else 0. A register that is raised waits. It passes each register once, but for
    // those that stand.
    fn follow_parents(&mut self, gains: Gains)
        ensures { HasRisen gains self.old self.new }
    {
        forget_marks(&mut self.marks);
        for register in 0..self.marks.len() {
            if let Some(top) = self.top_above(register as u32) {
                self.raise_down(gains, top);
            }
        }
    }

    // Goes up the parents from a register that wasn't passed, and links each register to the one
    // passed before it. The last that wasn't passed is answered.
    fn top_above(&mut self, from: u32) -> Option<u32>
        requires { from < length self.old.marks.items }
        ensures within { IfSome result (λ top. top < length self.new.marks.items) }
        ensures relaxation { self.new.relaxation ≡ self.old.relaxation }
    {
        let mut top = None;
        let mut before = from;
        let mut register = from;
        for _step in 0..self.marks.len() {
            if self.marks[register as usize] != 0 {
                return top;
            }
            self.marks[register as usize] = before.wrapping_add(1);
            top = Some(register);
            before = register;
            let Some(parent) = self.parent(register) else {
                return top;
            };
            register = parent.tail;
        }
        top
    }

    // Raises the registers from the top of a way down to where it began, each by its parent.
    fn raise_down(&mut self, gains: Gains, top: u32)
        requires { top < length self.old.marks.items }
        ensures { HasRisen gains self.old self.new }
    {
        let mut register = top;
        for _step in 0..self.marks.len() {
            let place = self.relaxation.parents[register as usize] as usize;
            let _raised = self.offer(gains, place);
            let below = self.marks[register as usize].wrapping_sub(1);
            if below == register || below as usize >= self.marks.len() {
                return;
            }
            register = below;
        }
    }

    // Lets the registers that wait hand their values on: in one sweep over the list, or in a pass of
    // turns. A register that is raised waits. With parents: Cherkassky and Goldberg, "Negative-cycle
    // detection algorithms", 1999.
    fn take_turns(&mut self, gains: Gains, forwards: bool)
        ensures { HasRisen gains self.old self.new }
    {
        if self.turns.is_sweep_quicker() {
            self.hand_all_on(gains, forwards)
        } else {
            self.hand_on_by_turns(gains)
        }
    }

    // Relaxes all constraints, in the order of the list or against it.
    fn hand_all_on(&mut self, gains: Gains, forwards: bool)
        ensures { HasRisen gains self.old self.new }
    {
        self.turns.begin_sweep();
        let places = self.relaxation.constraints.len();
        for turn in 0..places {
            let place = place_at(turn, places, forwards);
            let constraint = &self.relaxation.constraints[place];
            if self.relaxation.offered(constraint, gains).is_some() {
                let _raised = self.offer(gains, place);
            }
        }
        self.turns.waiting.have_handed_on(&self.relaxation);
    }

    // One pass: the registers that wait, and those that they raise, hand their values on in turn,
    // each once.
    fn hand_on_by_turns(&mut self, gains: Gains)
        ensures { HasRisen gains self.old self.new }
    {
        self.turns.link_at_first(self.relaxation.constraints);
        self.turns.waiting.begin_pass(&self.relaxation);
        for _turn in 0..self.marks.len() {
            let Some(register) = self.turns.waiting.next(&self.relaxation) else {
                return;
            };
            self.hand_on(gains, register as usize);
        }
    }

    // Relaxes each constraint that leads from a register. The heads that it raises have turns too.
    fn hand_on(&mut self, gains: Gains, from: usize)
        ensures { HasRisen gains self.old self.new }
    {
        let mut next = self.turns.last_from(from);
        for _step in 0..self.relaxation.constraints.len() {
            let Some(place) = next else {
                return;
            };
            if let Some(head) = self.offer(gains, place) {
                self.turns.waiting.call(head, &self.relaxation);
            }
            next = self.turns.before(place);
        }
    }

    // Raises the head of the constraint at a place, if there is one that gives it more. The head
    // waits then, and is answered. A tail above the cap hands nothing on.
    fn offer(&mut self, gains: Gains, place: usize) -> Option<u32>
        ensures { HasRisen gains self.old self.new }
    {
        let Some(constraint) = self.relaxation.constraints.get(place) else {
            return None;
        };
        if self.relaxation.values[constraint.tail as usize] > CAP {
            return None;
        }
        let raised = self.relaxation.relax(place, gains);
        self.turns.waiting.let_wait(raised);
        raised
    }
}

// Forgets all marks but those of registers whose values stand.
fn forget_marks(marks: &mut [u32])
    ensures { length marks.new ≡ length marks.old }
{
    for mark in marks.iter_mut() {
        if *mark != STANDS {
            *mark = 0;
        }
    }
}
