use crate::constraint_lists::{
    Row, constraints_of, expect_admitted, list_of, s27, setup, slow_ring, small_period,
};
use crate::same::{expect_same, made};
use cts_base::Listed;
use cts_model::{Constraint, Schedule};
use schedule::{least_schedule, least_schedule_in};
use std::alloc::Global;
use std::process::Abort;

// The schedule is at these arrivals over the denominator.
fn expect_at(rt: &impl Abort, schedule: &Schedule, den: i128, arrivals: &[i128]) {
    expect_same(rt, schedule.den, den, &"schedule.den");
    expect_same(rt, schedule.at.as_slice(), arrivals, &"schedule.at");
}

// The schedule is at these arrivals, also in a list that holds this entry before.
fn expect_schedule(
    rt: &impl Abort,
    alloc: Global,
    entry: i128,
    (num, den): (i128, i128),
    constraints: &[Constraint],
    arrivals: &[i128],
) {
    let period = small_period(rt, num, den);
    let list = list_of(rt, alloc, arrivals.len(), constraints);
    expect_admitted(rt, &list, arrivals, period);
    let schedule = made(rt, least_schedule(alloc, arrivals.len(), &list, period));
    expect_at(rt, &schedule, den, arrivals);
    let at = Listed::from_vec(made(rt, vec![in alloc; entry; arrivals.len()]));
    let schedule = least_schedule_in(at, &list, period);
    expect_at(rt, &schedule, den, arrivals);
}

// A period, the constraints, and the arrivals over the period's denominator.
const SCHEDULES: [((i128, i128), &[Row], &[i128]); 6] = [
    (
        (11, 2),
        &[
            (true, 0, 1, 7),
            (false, 1, 0, -7),
            (true, 1, 0, 4),
            (false, 0, 1, -4),
        ],
        &[0, 3],
    ),
    ((7, 1), &[], &[0, 0, 0]),
    // A hold constraint asks for its weight whatever the period is.
    ((0, 1), &[(false, 0, 1, 3)], &[0, 3]),
    ((10, 3), &[(false, 0, 1, 3)], &[0, 9]),
    // A chain that runs against the list.
    ((5, 1), &[(true, 1, 2, 7), (true, 0, 1, 7)], &[0, 2, 4]),
    // A cycle without slack.
    ((5, 1), &[(true, 0, 1, 6), (true, 1, 0, 4)], &[0, 1]),
];

#[test]
fn finds_the_least_schedule(rt: HostRuntime) {
    for (period, rows, arrivals) in &SCHEDULES {
        expect_schedule(
            &rt,
            rt.alloc(),
            7,
            *period,
            &constraints_of(&rt, rt.alloc(), rows),
            arrivals,
        );
    }
    expect_schedule(&rt, rt.alloc(), -3, (13, 1), &s27(), &[2, 0, 0])
}

// Whatever the list holds, the schedule is the same.
#[test]
fn overwrites_what_the_list_holds(rt: HostRuntime) {
    for entry in [i128::MAX, i128::MIN, 0, 1_000_000_000_000_000_000].as_slice() {
        let constraints = [setup(0, 1, 7), setup(1, 0, 4)];
        expect_schedule(&rt, rt.alloc(), *entry, (11, 2), &constraints, &[0, 3]);
    }
}

// A ring of 4,096 registers whose constraints are listed against it: each asks for 2 ticks more
// than the period, and the one that closes the ring for none.
#[test]
fn goes_round_against_the_list(rt: HostRuntime) {
    let alloc = rt.alloc();
    let mut constraints = Vec::new(alloc);
    let mut arrivals = Vec::new(alloc);
    made(&rt, constraints.push(setup(4095, 0, -8185)));
    for register in 0..4095u32 {
        made(
            &rt,
            constraints.push(setup(4094 - register, 4095 - register, 7)),
        );
    }
    for register in 0..4096u32 {
        made(&rt, arrivals.push(i128::from(2 * register)));
    }
    expect_schedule(&rt, alloc, -3, (5, 1), &constraints, &arrivals)
}

// At the period of the ring each register but the first comes 1/4096 tick after the next.
#[test]
fn goes_round_at_the_largest_denominator(rt: HostRuntime) {
    let alloc = rt.alloc();
    let mut arrivals = Vec::new(alloc);
    made(&rt, arrivals.push(0i128));
    for register in 1..4096u32 {
        made(&rt, arrivals.push(i128::from(4096 - register)));
    }
    let constraints = slow_ring(&rt, alloc);
    expect_schedule(&rt, alloc, 7, (8193, 4096), &constraints, &arrivals)
}
