use crate::constraint_lists::{Row, constraints_of};
use crate::constraint_tests::constraint;
use crate::corner_lists::expect_corners;
use crate::same::{expect_same, made};
use corners::combine;
use cts_base::Listed;
use cts_model::Constraint;
use std::alloc::Global;
use std::process::Abort;

// The lists of corners, which have these constraints.
fn lists_of(rt: &impl Abort, alloc: Global, corners: &[&[Row]]) -> Listed<Listed<Constraint>> {
    let mut lists = Listed::new(alloc);
    for rows in corners {
        let list = Listed::from_vec(constraints_of(rt, alloc, rows));
        lists.push(list).expect(rt, "memory");
    }
    lists
}

// Whether a list has these constraints in this order.
fn is_list(list: &Listed<Constraint>, rows: &[Row]) -> bool {
    let mut same = list.len() == rows.len();
    for (found, row) in list.as_slice().iter().zip(rows) {
        same = same && *found == constraint(*row);
    }
    same
}

fn expect_combined(
    rt: &impl Abort,
    alloc: Global,
    corners: &[&[Row]],
    rows: &[Row],
    numbers: &[u32],
) {
    let lists = lists_of(rt, alloc, corners);
    expect_corners(rt, lists.as_slice());
    let combined = made(rt, combine(alloc, &lists));
    assert!(rt; is_list(&combined.constraints, rows), "at {numbers:?}");
    expect_same(rt, combined.corner.as_slice(), numbers, &rows);
}

// Two registers in a ring, of 7 ticks and of 4.
const FAST_BACK: &[Row] = &[
    (true, 0, 1, 7),
    (false, 1, 0, -7),
    (true, 1, 0, 4),
    (false, 0, 1, -4),
];

// The same ring, of 2 ticks and of 8.
const SLOW_BACK: &[Row] = &[
    (true, 0, 1, 2),
    (false, 1, 0, -2),
    (true, 1, 0, 8),
    (false, 0, 1, -8),
];

// What both ask together.
const BOTH_WAYS: &[Row] = &[
    (true, 0, 1, 7),
    (false, 1, 0, -2),
    (true, 1, 0, 8),
    (false, 0, 1, -4),
];

// The lists, what they ask together, and the corner of each constraint.
const COMBINED: [(&[&[Row]], &[Row], &[u32]); 4] = [
    (&[FAST_BACK, SLOW_BACK], BOTH_WAYS, &[0, 1, 1, 0]),
    // The first corner with the greatest weight is named.
    (
        &[&[(true, 0, 1, 7)], &[(true, 0, 1, 8)], &[(true, 0, 1, 8)]],
        &[(true, 0, 1, 8)],
        &[1],
    ),
    (&[FAST_BACK], FAST_BACK, &[0, 0, 0, 0]),
    (&[&[], &[]], &[], &[]),
];

#[test]
fn combines_the_lists_of_corners(rt: HostRuntime) {
    for (corners, rows, numbers) in &COMBINED {
        expect_combined(&rt, rt.alloc(), corners, rows, numbers);
    }
}
