ghost use Rattle.std.specs.Prelude.{◌<◌, ◌+◌, IfOk, OnOk, length, slice_index_or};
ghost use Rattle.cts_model.specs.declared.constraint.Constraint.{Constraint};
ghost use Rattle.schedule.specs.Vocabulary.{IsTight};

use crate::arrivals::Arrivals;
use crate::tails::TightByTail;
use crate::tight::depth_of;
use cts_base::NoMemory;
use cts_model::Lead;
use std::alloc::Global;

/// The registers that tight constraints reach from those at 0.
#[derive(Drop)]
pub(crate) struct Reach {
    // Whether each register is reached.
    reached: Vec<bool>,
    /// The lead of each that is reached.
    pub(crate) leads: Vec<Lead>,
    // Those that are reached, in the order in which they were.
    queue: Vec<u32>,
}

impl Reach {
    ghost use Rattle.schedule.specs.Reaching.{IsAdded, IsGrown, IsHanded, IsReached, IsReaching, IsWhole};

    /// Reaches the registers at 0.
    pub(crate) fn start(alloc: Global, arrivals: &Arrivals<'_>) -> Result<Reach, NoMemory>
        ensures { IfOk result (IsReaching arrivals.now (length arrivals.now.at.now)) }
    {
        let registers = arrivals.at.len();
        let mut reach = Reach {
            reached: vec![in alloc; false; registers]?,
            leads: vec![in alloc; Lead::Zero; registers]?,
            queue: Vec::new(alloc),
        };
        for register in 0..registers {
            reach.start_at(arrivals, register)?;
        }
        Ok(reach)
    }

    // Reaches a register if it is at 0.
    fn start_at(&mut self, arrivals: &Arrivals<'_>, register: usize) -> Result<(), NoMemory>
        requires within { register < length arrivals.now.at.now }
        requires reaching { IsReaching arrivals.now register self.old }
        ensures { OnOk result (IsReaching arrivals.now (register + 1) self.new) }
    {
        if arrivals.at[register] != 0 {
            return Ok(());
        }
        self.add(register as u32, Lead::Zero)
    }

    // Gives a register its lead.
    fn add(&mut self, register: u32, lead: Lead) -> Result<(), NoMemory>
        requires flags { register < length self.old.reached.items }
        requires leads { register < length self.old.leads.items }
        ensures { OnOk result (IsAdded register lead self.old self.new) }
    {
        self.queue.push(register)?;
        self.reached[register as usize] = true;
        self.leads[register as usize] = lead;
        Ok(())
    }

    /// Takes each register that is reached in turn, and hands leads on from it.
    pub(crate) fn reach_all(&mut self, tight: &TightByTail<'_>) -> Result<(), NoMemory>
        requires { IsReaching tight.now.arrivals (length tight.now.arrivals.at.now) self.old }
        ensures { OnOk result (IsWhole tight.now.arrivals self.new) }
    {
        let mut taken = 0;
        while taken < self.queue.len() {
            let register = self.queue[taken];
            self.hand_on(tight, register)?;
            taken += 1;
        }
        Ok(())
    }

    // Hands a lead on by each tight constraint that leads from a register.
    fn hand_on(&mut self, tight: &TightByTail<'_>, register: u32) -> Result<(), NoMemory>
        requires reaching { IsReaching tight.now.arrivals (length tight.now.arrivals.at.now)
            self.old }
        requires reached { IsReached self.old register }
        requires within { register < length tight.now.arrivals.at.now }
        ensures { OnOk result (IsHanded tight.now.arrivals register 0 self.old self.new) }
    {
        let mut mark = tight.last[register as usize];
        while mark > 0 {
            let place = mark as usize - 1;
            self.offer(&tight.arrivals, place)?;
            mark = tight.before[place];
        }
        Ok(())
    }

    // Hands a lead on by a tight constraint, if its head has none.
    fn offer(&mut self, arrivals: &Arrivals<'_>, place: usize) -> Result<(), NoMemory>
        requires place { place < length arrivals.now.constraints.now }
        requires reaching { IsReaching arrivals.now (length arrivals.now.at.now) self.old }
        requires tail { (default : Constraint)
            → IsReached self.old (slice_index_or arrivals.now.constraints.now place default).tail }
        requires tight { (default : Constraint) → IsTight arrivals.now.period arrivals.now.at.now
            (slice_index_or arrivals.now.constraints.now place default) }
        ensures { OnOk result (IsGrown arrivals.now place self.old self.new) }
    {
        let constraint = arrivals.constraints[place];
        if self.reached[constraint.head as usize] {
            return Ok(());
        }
        let depth = depth_of(&self.leads[constraint.tail as usize]) + 1;
        self.add(constraint.head, Lead::Tight { depth, constraint })
    }
}
