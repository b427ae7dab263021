//! Policy iteration: each register keeps one constraint that leads to it, and rings of these raise
//! the ratio. Howard, "Dynamic Programming and Markov Processes", 1960; for the ratios of cycles
//! Dasdan, "Experimental analysis of the fastest optimum cycle ratio and mean algorithms", 2004.

ghost use Rattle.std.specs.Prelude.{◌<◌, IsTrue, IfSome, length};
ghost use Rattle.relaxation.specs.Parents.{HaveOwnHeads};
ghost use Rattle.relaxation.specs.Rounds.{AreSameRounds};

use crate::gains::Gains;
use crate::relaxation::{Relaxation, cut};
use crate::rounds::Rounds;

/// The mark of a register whose value stands.
pub(crate) const STANDS: u32 = u32::MAX;

/// Less than any constraint gains.
const NO_GAIN: i128 = -(1 << 80);

impl Relaxation<'_> {
    /// Whether each parent leads to the register that it is a parent of.
    pub fn have_own_heads(&self) -> bool
        ensures { IsTrue result → HaveOwnHeads self.now.constraints.now self.now.parents.items }
    {
        self.parents.iter().enumerate().all(|(register, place)| {
            let parent = self.constraints.get(*place as usize);
            parent.is_none_or(|parent| parent.head as usize == register)
        })
    }
}

impl Rounds<'_> {
    /// Makes the constraint that gains most of those that are to be linked and lead to a register
    /// its parent, and links these where they are few. All values become 0.
    pub fn choose_parents(&mut self, gains: Gains)
        ensures { AreSameRounds self.old self.new }
    {
        let strong = self.turns.strong;
        if strong.is_some() {
            self.turns.begin_links(self.relaxation.constraints.len());
        }
        let relaxation = &mut self.relaxation;
        relaxation.values.fill(NO_GAIN);
        for (place, constraint) in relaxation.constraints.iter().enumerate() {
            if strong.is_none_or(|strong| strong.has(constraint)) {
                self.prefer(gains, place);
                if strong.is_some() {
                    self.turns.link_one(constraint.tail, place as u32 + 1);
                }
            }
        }
        let relaxation = &mut self.relaxation;
        relaxation.values.fill(0);
    }

    /// A register on a ring of parents whose gains come to more than 0. Where there is none, a
    /// register of each ring is marked.
    pub fn gaining_ring(&mut self, gains: Gains) -> Option<u32>
        ensures within { IfSome result (λ register. register < length self.new.marks.items) }
        ensures same { AreSameRounds self.old self.new }
    {
        self.marks.fill(0);
        for register in 0..self.marks.len() {
            if let Some(top) = self.new_ring(register as u32) {
                if self.ring_gain(gains, top) > 0 {
                    return Some(top);
                }
                self.marks[top as usize] = STANDS;
            }
        }
        None
    }

    /// Lowers each register that has a parent and isn't marked as standing, so that it rises again
    /// by its parent, where each register waits. Values are cut in size.
    pub(crate) fn lower(&mut self)
        ensures { AreSameRounds self.old self.new }
    {
        if !self.turns.waiting.are_all() {
            return;
        }
        for register in 0..self.marks.len() {
            let stands = self.marks[register] == STANDS;
            let lowest = self.turns.lowest();
            let relaxation = &mut self.relaxation;
            let place = relaxation.parents[register] as usize;
            let falls = place < relaxation.constraints.len() && !stands;
            let value = relaxation.values[register];
            relaxation.values[register] = cut(if falls { lowest } else { value });
        }
    }

    // Makes a constraint its head's parent if it gains more than the head's value, which becomes
    // that gain.
    fn prefer(&mut self, gains: Gains, place: usize)
        ensures { AreSameRounds self.old self.new }
    {
        let relaxation = &mut self.relaxation;
        let Some(constraint) = relaxation.constraints.get(place) else {
            return;
        };
        let gain = gains.gain(constraint);
        let head = constraint.head as usize;
        if gain > relaxation.values[head] {
            relaxation.values[head] = gain;
            relaxation.parents[head] = place as u32;
        }
    }

    // Goes up the parents from a register and marks all that aren't marked. It ends at a register
    // that it marked itself where a ring is new.
    fn new_ring(&mut self, from: u32) -> Option<u32>
        requires { from < length self.old.marks.items }
        ensures within { IfSome result (λ register. register < length self.new.marks.items) }
        ensures same { AreSameRounds self.old self.new }
    {
        let own = from.wrapping_add(1);
        let mut register = from;
        for _step in 0..=self.marks.len() {
            let mark = self.marks[register as usize];
            if mark == own {
                return Some(register);
            }
            if mark != 0 {
                return None;
            }
            self.marks[register as usize] = own;
            register = self.parent(register)?.tail;
        }
        None
    }

    // What the constraints of the ring gain on which the register stands.
    fn ring_gain(&self, gains: Gains, top: u32) -> i128 {
        let mut gain = 0i128;
        let mut register = top;
        for _step in 0..self.marks.len() {
            let Some(parent) = self.parent(register) else {
                return gain;
            };
            gain = gain.wrapping_add(gains.gain(parent));
            register = parent.tail;
            if register == top {
                return gain;
            }
        }
        gain
    }
}
