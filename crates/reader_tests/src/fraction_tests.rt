ghost use Rattle.std.specs.Prelude.{◌^◌};
ghost use Rattle.cts_base.specs.Fractions.{IsBelow};

use crate::same::expect_same;
use cts_base::{Fraction, push_fraction};
use std::alloc::Global;
use std::process::Abort;

// What both parts of a fraction that is made stay below in size.
const LIMIT: i128 = 10_000_000_000_000_000_000_000_000_000_000_000_000;

// What the parts of fractions that are compared stay below in size.
const SMALL: i128 = 1_000_000_000_000_000_000;

// The fraction of two numbers that are small enough to compare it.
fn small(rt: &impl Abort, num: i128, den: i128) -> Fraction
    ensures num { IsBelow (10 ^ 18) result.num }
    ensures den { IsBelow (10 ^ 18) result.den }
{
    assert!(rt; -SMALL < num);
    assert!(rt; num < SMALL);
    assert!(rt; 1 <= den);
    assert!(rt; den < SMALL);
    Fraction::of(num, den)
}

fn expect_lowest_terms(rt: &impl Abort, (num, den): (i128, i128), wanted: (i128, i128)) {
    assert!(rt; -LIMIT < num);
    assert!(rt; num < LIMIT);
    assert!(rt; 1 <= den);
    assert!(rt; den < LIMIT);
    let fraction = Fraction::of(num, den);
    expect_same(rt, fraction.num(), wanted.0, &(num, den));
    expect_same(rt, fraction.den(), wanted.1, &(num, den));
}

#[test]
fn fractions_are_in_lowest_terms(rt: HostRuntime) {
    for (parts, wanted) in [
        ((6, 4), (3, 2)),
        ((-6, 4), (-3, 2)),
        ((0, 7), (0, 1)),
        ((8193, 4096), (8193, 4096)),
        ((12, 4), (3, 1)),
        ((LIMIT - 1, LIMIT - 1), (1, 1)),
        ((1 - LIMIT, LIMIT - 1), (-1, 1)),
        ((LIMIT - 1, 1), (LIMIT - 1, 1)),
    ]
    .as_slice()
    {
        expect_lowest_terms(&rt, *parts, *wanted);
    }
}

#[test]
fn fractions_of_one_value_are_equal(rt: HostRuntime) {
    expect_same(&rt, small(&rt, 6, 4), small(&rt, 9, 6), &"small");
    assert!(rt; small(&rt, 6, 4) != small(&rt, -6, 4));
}

fn expect_less(
    rt: &impl Abort,
    (num, den): (i128, i128),
    (other_num, other_den): (i128, i128),
    wanted: bool,
) {
    let fraction = small(rt, num, den);
    let other = small(rt, other_num, other_den);
    expect_same(
        rt,
        fraction.less(other),
        wanted,
        &(num, den, other_num, other_den),
    );
}

#[test]
fn fractions_are_compared(rt: HostRuntime) {
    for (parts, other, wanted) in [
        ((1, 2), (2, 3), true),
        ((2, 3), (1, 2), false),
        ((1, 2), (1, 2), false),
        ((2, 4), (1, 2), false),
        ((-1, 2), (1, 3), true),
        ((-1, 2), (-1, 3), true),
        ((0, 5), (0, 7), false),
        // the products differ by 1, at nearly 10^36
        ((SMALL - 3, SMALL - 2), (SMALL - 2, SMALL - 1), true),
        ((SMALL - 2, SMALL - 1), (SMALL - 3, SMALL - 2), false),
        ((1 - SMALL, 1), (SMALL - 1, 1), true),
    ]
    .as_slice()
    {
        expect_less(&rt, *parts, *other, *wanted);
    }
}

// The bytes after those that stand there; there is ample memory.
fn expect_spelled(rt: &impl Abort, alloc: Global, (num, den): (i128, i128), wanted: &str) {
    let mut out = Vec::from_slice(alloc, b"at ").expect(rt, "memory");
    expect_same(
        rt,
        push_fraction(&mut out, small(rt, num, den)),
        Ok(()),
        &"push_fraction",
    );
    expect_same(rt, out.as_slice(), wanted.as_bytes(), &(num, den));
}

#[test]
fn fractions_are_spelled(rt: HostRuntime) {
    for (parts, wanted) in [
        ((6, 4), "at 3/2"),
        ((-6, 4), "at -3/2"),
        ((0, 7), "at 0"),
        ((26, 2), "at 13"),
        ((-26, 2), "at -13"),
        ((1, SMALL - 1), "at 1/999999999999999999"),
    ]
    .as_slice()
    {
        expect_spelled(&rt, rt.alloc(), *parts, wanted);
    }
}
