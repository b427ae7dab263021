// Which calls of a device in memory fail.
ghost use Rattle.std.specs.Prelude.{◌≡◌, ◌≤◌};
ghost use Rattle.cts_io.specs.Plan.{PlanState, fresh_plan, fails_next, after_call, with_fault};

use std::marker::Model;

// The calls that fail, and how many were made and failed.
#[derive(Debug, Drop)]
pub(crate) struct Plan {
    fails: Vec<u64>,
    calls: u64,
    faults: u64,
}

impl Model for Plan {
    ghost Value = { PlanState };

    ghost view = { λ plan. record {
      fails = plan.fails.items;
      calls = plan.calls;
      faults = plan.faults;
    } };
}

impl Plan {
    // A plan before its first call.
    pub(crate) fn new(fails: Vec<u64>) -> Plan
        ensures { result ≡ fresh_plan fails.items }
    {
        Plan {
            fails,
            calls: 0,
            faults: 0,
        }
    }

    // Counts a call, and says whether it is one of those that fail.
    pub(crate) fn call_fails(&mut self) -> bool
        ensures fails { result ≡ fails_next self.old }
        ensures counted { self.new ≡ after_call self.old }
    {
        self.calls = self.calls.saturating_add(1);
        self.fails.contains(&self.calls)
    }

    pub(crate) fn count_fault(&mut self)
        ensures counted { self.new ≡ with_fault self.old }
        ensures no_less { self.old.faults ≤ self.new.faults }
    {
        self.faults = self.faults.saturating_add(1);
    }
}
