use crate::gains::Gains;
use crate::relaxation::Relaxation;
use crate::strong::{Strong, greatest_gain};
use crate::waiting::Waiting;
use cts_base::NoMemory;
use cts_model::Constraint;
use std::alloc::Global;

/// How many constraints registers have where most may never raise one, and they lie far apart.
const MANY: usize = 64;

/// How many times the greatest gain values are thought to lie apart.
const TIMES: i128 = 2;

/// How many sweeps are taken at most. One against the order in which registers rise may settle a
/// single one.
const SWEEPS: u32 = 6;

/// Whose turn it is to raise others: the registers that wait to hand their values on, with the
/// constraints that lead from each.
#[derive(Drop)]
pub(crate) struct Turns {
    // For each register 1 more than the place of the last linked constraint that leads from it, or
    // 0, and for each the same of the linked one before it that has its tail, once some are linked.
    last_from: Vec<u32>,
    before: Vec<u32>,
    // Whether those to be linked are chosen for the turns.
    chosen: bool,
    /// Which are to be linked, where not all are.
    pub(crate) strong: Option<Strong>,
    // How far apart values may lie, in ticks, for no other constraint to raise one.
    spread: i128,
    pub(crate) waiting: Waiting,
    // How many registers there are, and whether they have many constraints.
    registers: usize,
    many: bool,
    // How many sweeps were taken.
    sweeps: u32,
}

impl Turns {
    /// Each register waits, and no constraint is linked yet.
    ///
    /// # Errors
    ///
    /// There is no memory for the lists, 36 bytes for each register and 4 for each constraint.
    pub(crate) fn new(
        alloc: Global,
        relaxation: &Relaxation<'_>,
        gains: Gains,
    ) -> Result<Turns, NoMemory> {
        let registers = relaxation.values.len();
        let constraints = relaxation.constraints;
        let mut turns = Turns {
            last_from: vec![in alloc; 0u32; registers]?,
            before: Vec::with_capacity(alloc, constraints.len())?,
            chosen: false,
            strong: None,
            spread: 0,
            waiting: Waiting::new(alloc, registers)?,
            registers,
            many: constraints.len() / MANY >= registers,
            sweeps: 0,
        };
        turns.choose_at_first(constraints, gains);
        Ok(turns)
    }

    /// Chooses the constraints to link anew before the first turn, if none are linked yet.
    pub(crate) fn choose_at_first_turn(&mut self, constraints: &[Constraint], gains: Gains) {
        if !self.chosen {
            self.choose_at_first(constraints, gains);
            self.chosen = true;
        }
    }

    /// Links the constraints that are chosen, if none are linked yet.
    pub(crate) fn link_at_first(&mut self, constraints: &[Constraint]) {
        if self.before.is_empty() {
            self.link(constraints);
        }
    }

    /// Whether no register waits, and no constraint that isn't linked raises one. Where values that
    /// are from 0 on lie too far apart for that, more are linked, and each register waits.
    pub(crate) fn are_through(&mut self, relaxation: &Relaxation<'_>, gains: Gains) -> bool {
        if self.waiting.count() > 0 {
            return false;
        }
        let greatest = relaxation.values.iter().copied().max().unwrap_or(0);
        if self.strong.is_none() || greatest / gains.scale <= self.spread {
            return true;
        }
        self.choose_within(relaxation.constraints, gains, greatest.wrapping_mul(2));
        self.link(relaxation.constraints);
        self.waiting.let_all_wait();
        false
    }

    /// The value from which registers rise by their parents: 0 where not all constraints are
    /// linked, so that values lie near one another.
    pub(crate) fn lowest(&self) -> i128 {
        if self.strong.is_some() { 0 } else { i128::MIN }
    }

    // Chooses the constraints to link by how far apart values are thought to lie at first: by a
    // look at some constraints, or without limit where registers have few.
    fn choose_at_first(&mut self, constraints: &[Constraint], gains: Gains) {
        let apart = if self.many {
            greatest_gain(constraints, gains).wrapping_mul(TIMES)
        } else {
            i128::MAX
        };
        self.choose_within(constraints, gains, apart);
    }

    // Chooses the constraints that can raise a register while no values lie further apart, where
    // these are few, and else all.
    fn choose_within(&mut self, constraints: &[Constraint], gains: Gains, apart: i128) {
        let strong = Strong::within(gains, apart);
        self.strong = strong.are_few(constraints).then_some(strong);
        self.spread = apart / gains.scale;
    }

    // Links the constraints that are chosen.
    fn link(&mut self, constraints: &[Constraint]) {
        self.begin_links(constraints.len());
        let strong = self.strong;
        let mut mark = 0u32;
        for constraint in constraints {
            mark = mark.wrapping_add(1);
            if strong.is_none_or(|strong| strong.has(constraint)) {
                self.link_one(constraint.tail, mark);
            }
        }
    }

    /// Takes all links away, before so many constraints are linked. There is room for them.
    pub(crate) fn begin_links(&mut self, constraints: usize) {
        self.chosen = true;
        self.last_from.fill(0);
        let _room = self.before.resize(constraints, 0);
    }

    /// Links a constraint that leads from a register. The mark is 1 more than its place.
    pub(crate) fn link_one(&mut self, tail: u32, mark: u32) {
        let last = self.last_from.get_mut(tail as usize);
        let before = self.before.get_mut(mark.wrapping_sub(1) as usize);
        if let (Some(last), Some(before)) = (last, before) {
            *before = *last;
            *last = mark;
        }
    }

    /// Whether all constraints are to be linked, and so many registers wait that a sweep is quicker
    /// than their turns, while few were taken: half of them, or 1 of 32 where their constraints lie
    /// far apart.
    pub(crate) fn is_sweep_quicker(&self) -> bool {
        let part = if self.many { 32 } else { 2 };
        let many_wait = self.waiting.count() >= self.registers / part;
        self.strong.is_none() && self.sweeps < SWEEPS && many_wait
    }

    /// Begins a sweep, in which each register hands its value on.
    pub(crate) fn begin_sweep(&mut self) {
        self.sweeps = self.sweeps.wrapping_add(1);
        self.waiting.clear();
    }

    /// The place of the last linked constraint that leads from a register.
    pub(crate) fn last_from(&self, register: usize) -> Option<usize> {
        Some(self.last_from.get(register)?.checked_sub(1)? as usize)
    }

    /// The place of the linked constraint before one that leads from the same register.
    pub(crate) fn before(&self, place: usize) -> Option<usize> {
        Some(self.before.get(place)?.checked_sub(1)? as usize)
    }
}
