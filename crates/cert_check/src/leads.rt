ghost use Rattle.std.specs.Prelude.{◌≡◌, ◌<◌, ◌≤◌, ◌+◌, ◌↔◌, ◌^◌, ◌∷◌, [], IfOk, IsTrue, length};
ghost use Rattle.cert_check.specs.Vocabulary.{Second, count_of, IsLedBy, IsTight, depth_of, lead_at, IsBelow, IsSmallLead, LeadsAmong, arrival_of, Earliest, HasPaths, FitsLeads, IsTested, constraint_of, tight_constraints, NotLeast, Judges};

use crate::down::are_same;
use crate::judge::Judge;
use crate::period::count_of;
use crate::verdict::{Reason, Stop};
use cts_base::NoMemory;
use cts_model::{Constraint, Lead};
use path_delays::Paths;
use std::alloc::Global;

impl Judge<'_> {
    /// Whether, where leads are printed, each arrival is from 0 on and its lead shows that none is
    /// earlier.
    pub(crate) fn judge_leads(&self, alloc: Global, paths: &mut Paths) -> Result<(), Stop>
        requires { HasPaths self.now paths.old }
        ensures { Judges (length self.now.problem.now.circuit.registers)
            (λ register. self.now.report.now.version ≡ Second → Earliest self.now register)
            NotLeast result }
    {
        let leads = self.report.leads.as_slice();
        if leads.is_empty() {
            return Ok(());
        }
        let constraints = tight_constraints(alloc, leads)?;
        let delays = self.delays_of(alloc, paths, constraints.as_slice())?;
        let mut tight = 0;
        for register in 0..leads.len() {
            let given = self.is_given(constraints.as_slice(), delays.as_slice(), tight);
            if !self.is_earliest(register, given) {
                return Err(Stop::At(Reason::NotLeast(register as u32)));
            }
            tight += constraint_count(leads[register]);
        }
        Ok(())
    }

    // Whether a register's arrival isn't below 0, and its lead shows that none is earlier, where a
    // test says whether the lead's constraint is one of the circuit.
    fn is_earliest(&self, register: usize, given: bool) -> bool
        requires register { register < length self.now.report.now.leads }
        requires given { IsTested self.now.problem.now.circuit self.now.problem.now.tech
            (lead_at self.now.report.now.leads register) given }
        ensures { IsTrue result ↔ Earliest self.now register }
    {
        let arrival = self.arrival(register);
        match self.lead(register) {
            Lead::Zero => arrival == 0,
            Lead::Tight { depth, constraint } => {
                arrival >= 0 && self.is_led(register, depth - 1, &constraint, given)
            }
        }
    }

    // Whether a tight constraint leads to a register from one whose lead takes so many, where a
    // test says whether it is one of the circuit.
    fn is_led(&self, register: usize, before: u32, constraint: &Constraint, given: bool) -> bool
        requires { FitsLeads (length self.now.report.now.leads)
            (length self.now.report.now.schedule.at) constraint.now }
        ensures { IsTrue result ↔ IsLedBy (λ _. IsTrue given) self.now.report.now.period
            self.now.report.now.schedule.at self.now.report.now.leads register (1 + before)
            constraint.now }
    {
        let last = self.lead(constraint.tail as usize);
        given
            && constraint.head as usize == register
            && self.is_tight(constraint)
            && depth_of(last) == before
    }

    // The lead of a register.
    fn lead(&self, register: usize) -> Lead
        requires { register < length self.now.report.now.leads }
        ensures value { result ≡ lead_at self.now.report.now.leads register }
        ensures small { IsSmallLead result }
        ensures among { LeadsAmong (length self.now.report.now.leads) result }
        ensures all { length self.now.report.now.leads
            ≡ length self.now.report.now.schedule.at }
    {
        self.report.leads.as_slice()[register]
    }

    // Whether the head's arrival is just what a constraint asks.
    fn is_tight(&self, constraint: &Constraint) -> bool
        requires { FitsLeads (length self.now.report.now.leads)
            (length self.now.report.now.schedule.at) constraint.now }
        ensures { IsTrue result ↔ IsTight self.now.report.now.period
            self.now.report.now.schedule.at constraint.now }
    {
        let head = self.arrival(constraint.head as usize);
        let tail = self.arrival(constraint.tail as usize);
        let asked = self.asked(constraint.weight, count_of(constraint));
        are_same(head - tail, asked)
    }

    // The arrival at a register.
    fn arrival(&self, register: usize) -> i128
        requires { register < length self.now.report.now.schedule.at }
        ensures value { result ≡ arrival_of self.now.report.now.schedule.at register }
        ensures small { IsBelow (10 ^ 19) result }
    {
        self.report.schedule.at.as_slice()[register]
    }
}

// The constraints of tight leads.
fn tight_constraints(alloc: Global, leads: &[Lead]) -> Result<Vec<Constraint>, NoMemory>
    ensures { IfOk result (λ constraints. constraints.items ≡ tight_constraints leads.now) }
{
    Ok(
        leads
            .iter()
            .filter_map(|lead| constraint_of(*lead))
            .collect(alloc)?,
    )
}

// The constraint of a lead, if it has one.
fn constraint_of(lead: Lead) -> Option<Constraint>
    ensures { result ≡ constraint_of lead }
{
    match lead {
        Lead::Zero => None,
        Lead::Tight { constraint, .. } => Some(constraint),
    }
}

// How many constraints a lead has.
fn constraint_count(lead: Lead) -> usize
    ensures value { result ≡ length (tight_constraints (lead ∷ [])) }
    ensures small { result ≤ 1 }
{
    match lead {
        Lead::Zero => 0,
        Lead::Tight { .. } => 1,
    }
}

// How many constraints a lead takes.
fn depth_of(lead: Lead) -> u32
    ensures { result ≡ depth_of lead }
{
    match lead {
        Lead::Zero => 0,
        Lead::Tight { depth, .. } => depth,
    }
}
