use crate::constraint_lists::{expect_admitted, list_of, s27, setup, small_period};
use crate::same::{expect_same, made};
use cts_model::{Constraint, Lead};
use schedule::{leads, least_schedule};
use std::alloc::Global;
use std::process::Abort;

// The leads of the least schedule at a whole period, which is at these arrivals.
fn expect_leads(
    rt: &impl Abort,
    alloc: Global,
    constraints: &[Constraint],
    arrivals: &[i128],
    num: i128,
    expected: &[Lead],
) {
    let period = small_period(rt, num, 1);
    let list = list_of(rt, alloc, arrivals.len(), constraints);
    expect_admitted(rt, &list, arrivals, period);
    let schedule = made(rt, least_schedule(alloc, arrivals.len(), &list, period));
    let leads = made(rt, leads(alloc, arrivals.len(), &list, period, &schedule));
    expect_same(rt, leads.as_slice(), expected, &"leads");
}

// The lead by a tight constraint, so many from a register at 0.
fn tight(depth: u32, constraint: Constraint) -> Lead {
    Lead::Tight { depth, constraint }
}

#[test]
fn leads_from_a_register_at_0(rt: HostRuntime) {
    let expected = [tight(1, setup(1, 0, 15)), Lead::Zero, Lead::Zero];
    expect_leads(&rt, rt.alloc(), &s27(), &[2, 0, 0], 13, &expected)
}

// A chain that runs against the list.
#[test]
fn counts_the_constraints_of_a_chain(rt: HostRuntime) {
    let last = setup(1, 2, 7);
    let first = setup(0, 1, 7);
    let expected = [Lead::Zero, tight(1, first), tight(2, last)];
    expect_leads(&rt, rt.alloc(), &[last, first], &[0, 2, 4], 5, &expected)
}
