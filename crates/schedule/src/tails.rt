ghost use Rattle.std.specs.Prelude.{◌≡◌, IfOk, length};
ghost use Rattle.schedule.specs.Tails.{AreTightByTail};

use crate::arrivals::Arrivals;
use cts_base::NoMemory;
use std::alloc::Global;

/// The tight constraints that lead from each register, from the last of a list to the first.
#[derive(Drop)]
pub(crate) struct TightByTail<'a> {
    pub(crate) arrivals: Arrivals<'a>,
    /// For each register 1 more than the place of the last one that leads from it, or 0.
    pub(crate) last: Vec<u32>,
    /// For each that is tight 1 more than the place of the one before it that has its tail, or 0.
    pub(crate) before: Vec<u32>,
    pub(crate) ghost linked: { AreTightByTail arrivals (length arrivals.constraints.now) last.items
        before.items },
}

impl<'a> TightByTail<'a> {
    /// Goes over the constraints once.
    pub(crate) fn of(alloc: Global, arrivals: Arrivals<'a>) -> Result<TightByTail<'a>, NoMemory>
        ensures { IfOk result (λ tight. tight.arrivals ≡ arrivals.entry) }
    {
        let mut last = vec![in alloc; 0u32; arrivals.at.len()]?;
        let mut before = vec![in alloc; 0u32; arrivals.constraints.len()]?;
        for place in 0..arrivals.constraints.len() {
            let constraint = &arrivals.constraints[place];
            if arrivals.has_tight(constraint) {
                let tail = constraint.tail as usize;
                before[place] = last[tail];
                last[tail] = place as u32 + 1;
            }
        }
        Ok(TightByTail {
            arrivals,
            last,
            before,
        })
    }
}
