ghost use Rattle.std.specs.Prelude.{◌≡◌, ◌<◌, ◌^◌, All, IfOk, IfSome, length};
ghost use Rattle.cts_model.specs.Vocabulary.{IsBelow, AreSmallConstraints};

use crate::gains::Gains;
use crate::relaxation::Relaxation;
use crate::turns::Turns;
use cts_base::NoMemory;
use cts_model::Constraint;
use std::alloc::Global;

/// A relaxation with parents whose values rise in rounds, also along the parents, and by registers
/// that hand theirs on in turn.
#[derive(Drop)]
pub struct Rounds<'a> {
    /// The values, with room above them.
    pub relaxation: Relaxation<'a>,
    /// Whose turn it is.
    pub(crate) turns: Turns,
    /// A mark for each register, or a link to another.
    pub marks: Vec<u32>,
    pub ghost parents: { length relaxation.parents.items ≡ length relaxation.values.items },
    pub ghost marked: { length marks.items ≡ length relaxation.values.items },
    pub ghost small: { All (IsBelow (2 ^ 94)) relaxation.values.items },
}

impl<'a> Rounds<'a> {
    ghost use Rattle.relaxation.specs.Vocabulary.{IsFromZero, AreSameRounds};

    /// Values of 0 and no parents, where each register waits.
    ///
    /// # Errors
    ///
    /// There is no memory for the lists, 60 bytes for each register and 4 for each constraint.
    pub fn new(
        alloc: Global,
        registers: usize,
        constraints: &'a [Constraint],
        gains: Gains,
    ) -> Result<Rounds<'a>, NoMemory>
        requires { AreSmallConstraints registers constraints.now }
        ensures { IfOk result (λ rounds. IsFromZero constraints.now registers rounds.relaxation) }
    {
        let values = vec![in alloc; 0i128; registers]?;
        let parents = vec![in alloc; 0u32; registers]?;
        let marks = vec![in alloc; 0u32; registers]?;
        let relaxation = Relaxation::from_zero(constraints, values, parents);
        let turns = Turns::new(alloc, &relaxation, gains)?;
        Ok(Rounds {
            relaxation,
            turns,
            marks,
        })
    }

    /// Brings the values from the scale of the last gains to that of the next, rounded down
    /// and cut in size. At a greater ratio they satisfy what they satisfied. It takes no memory.
    pub fn rescale(&mut self, last: Gains, next: Gains)
        ensures { AreSameRounds self.old self.new }
    {
        self.relaxation.rescale(last, next);
        self.turns.waiting.have_handed_on(&self.relaxation);
    }

    /// Whether no register waits, and no constraint that isn't linked raises one. Where values that
    /// are from 0 on lie too far apart for that, more are linked, and each register waits.
    pub fn are_through(&mut self, gains: Gains) -> bool
        ensures { self.new.relaxation ≡ self.old.relaxation }
    {
        self.turns.are_through(&self.relaxation, gains)
    }

    /// The parent of a register, if it has one.
    pub(crate) fn parent(&self, register: u32) -> Option<&'a Constraint>
        ensures small { IfSome result (λ parent. IsBelow (10 ^ 11) parent.now.weight) }
        ensures within { IfSome result (λ parent. parent.now.tail < length self.now.marks.items) }
    {
        let place = self.relaxation.parents.get(register as usize)?;
        self.relaxation.constraints.get(*place as usize)
    }
}
