//! Lists of constraints that the tests of several crates share, and periods that they admit.
ghost use Rattle.std.specs.Prelude.{◌≡◌, ◌<◌, ◌*ℤ◌, pos, length, nat_abs};
ghost use Rattle.cts_model.specs.Vocabulary.{AreSmallConstraints, IsSatisfied, IsSmallConstraint, count_of, IsSmallPeriod, arrival_of};
ghost use Rattle.schedule.specs.Schedules.{IsAdmittedBy};

use crate::constraint_tests::constraint;
use crate::same::made;
use cts_base::{Fraction, Listed};
use cts_model::Constraint;
use std::alloc::Global;
use std::process::Abort;

// A constraint: whether it is a setup constraint, its tail, its head and its weight.
pub(crate) type Row = (bool, u32, u32, i128);

// A setup constraint: its tail, its head and its weight.
pub(crate) fn setup(tail: u32, head: u32, weight: i128) -> Constraint {
    Constraint {
        setup: true,
        tail,
        head,
        weight,
    }
}

// A hold constraint.
pub(crate) fn hold(tail: u32, head: u32, weight: i128) -> Constraint {
    Constraint {
        setup: false,
        tail,
        head,
        weight,
    }
}

// The constraints of these rows.
pub(crate) fn constraints_of(rt: &impl Abort, alloc: Global, rows: &[Row]) -> Vec<Constraint> {
    let mut constraints = Vec::new(alloc);
    for row in rows {
        constraints.push(constraint(*row)).expect(rt, "memory");
    }
    constraints
}

// The constraints of s27.bench with one delay of each kind of gate, setup and hold time 1.
pub(crate) fn s27() -> [Constraint; 14] {
    [
        setup(0, 0, 7),
        hold(0, 0, -2),
        setup(0, 1, 5),
        hold(1, 0, -1),
        setup(1, 0, 15),
        hold(0, 1, -7),
        setup(1, 1, 13),
        hold(1, 1, -6),
        setup(2, 0, 14),
        hold(0, 2, -6),
        setup(2, 1, 12),
        hold(1, 2, -5),
        setup(2, 2, 7),
        hold(2, 2, -2),
    ]
}

// The constraints of 4,096 registers in a ring: each register and each way takes a tick, and the
// way from the first to the second register up to a tick more.
pub(crate) fn slow_ring(rt: &impl Abort, alloc: Global) -> Vec<Constraint> {
    let mut constraints = Vec::new(alloc);
    for register in 0..4096u32 {
        let next = (register + 1) % 4096;
        let slow = if register == 0 { 3 } else { 2 };
        made(rt, constraints.push(setup(register, next, slow)));
        made(rt, constraints.push(hold(next, register, -1)));
    }
    constraints
}

// The constraint, which is small.
fn small(rt: &impl Abort, registers: usize, constraint: Constraint) -> Constraint
    ensures { IsSmallConstraint registers result }
{
    assert!(rt; (constraint.tail as usize) < registers);
    assert!(rt; (constraint.head as usize) < registers);
    assert!(rt; constraint.weight < 100_000_000_000);
    assert!(rt; constraint.weight > -100_000_000_000);
    constraint
}

// A list of small constraints between so many registers.
pub(crate) fn list_of(
    rt: &impl Abort,
    alloc: Global,
    registers: usize,
    constraints: &[Constraint],
) -> Listed<Constraint>
    ensures { AreSmallConstraints registers result }
{
    assert!(rt; registers >= 1);
    assert!(rt; registers <= 4097);
    assert!(rt; constraints.len() <= 2_097_152);
    let mut list = Listed::new(alloc);
    for constraint in constraints {
        made(rt, list.push(small(rt, registers, *constraint)));
    }
    list
}

// A small period.
pub(crate) fn small_period(rt: &impl Abort, num: i128, den: i128) -> Fraction
    ensures { IsSmallPeriod result }
{
    assert!(rt; num >= 0);
    assert!(rt; num < 1_000_000);
    assert!(rt; den >= 1);
    assert!(rt; den <= 4097);
    let period = Fraction::of(num, den);
    assert!(rt; period.num() >= 0);
    period
}

// The arrivals satisfy the constraints at the period.
pub(crate) fn expect_admitted(
    rt: &impl Abort,
    constraints: &Listed<Constraint>,
    arrivals: &[i128],
    period: Fraction,
)
    requires { AreSmallConstraints (length arrivals.now) constraints.now }
    ensures { IsAdmittedBy constraints.now period }
{
    for constraint in constraints.as_slice() {
        expect_satisfied(rt, constraint, arrivals, period);
    }
}

// The arrivals satisfy the constraint at the period.
fn expect_satisfied(rt: &impl Abort, constraint: &Constraint, arrivals: &[i128], period: Fraction)
    requires tail { constraint.now.tail < length arrivals.now }
    requires head { constraint.now.head < length arrivals.now }
    ensures { IsSatisfied (nat_abs period.den) period.num (arrival_of arrivals.now)
        constraint.now }
{
    let asked = period
        .den()
        .checked_mul(constraint.weight)
        .expect(rt, "a small product");
    let due = due_of(constraint, period);
    let from = arrivals[constraint.tail as usize]
        .checked_add(asked)
        .expect(rt, "a small sum");
    let to = arrivals[constraint.head as usize]
        .checked_add(due)
        .expect(rt, "a small sum");
    assert!(rt; from <= to);
}

// How often the constraint counts the period, as a time.
fn due_of(constraint: &Constraint, period: Fraction) -> i128
    ensures { result ≡ (period.num *ℤ pos (count_of constraint.now)) }
{
    if constraint.setup { period.num() } else { 0 }
}
