ghost use Rattle.std.specs.Prelude.{All};
ghost use Rattle.cts_model.specs.Vocabulary.{IsSmallPair};

use crate::same::{expect_same, made};
use constraints::constraints_of;
use cts_base::Listed;
use cts_model::{Constraint, PairDelay, Tech};
use std::alloc::Global;
use std::process::Abort;

// Two registers, and the least and the greatest delay between them.
type Row = (u32, u32, u32, u32);

fn pair(row: Row) -> PairDelay
    ensures { IsSmallPair result }
{
    PairDelay {
        from: row.0,
        to: row.1,
        least: i128::from(row.2),
        greatest: i128::from(row.3),
    }
}

fn listed(rt: &impl Abort, alloc: Global, rows: &[Row]) -> Listed<PairDelay>
    ensures { All IsSmallPair result }
{
    let mut pairs = Listed::new(alloc);
    for row in rows {
        made(rt, pairs.push(pair(*row)));
    }
    pairs
}

pub(crate) fn constraint(row: (bool, u32, u32, i128)) -> Constraint {
    Constraint {
        setup: row.0,
        tail: row.1,
        head: row.2,
        weight: row.3,
    }
}

// Of registers with setup 3 and hold 2.
fn expect_constraints(
    rt: &impl Abort,
    alloc: Global,
    rows: &[Row],
    wanted: &[(bool, u32, u32, i128)],
) {
    let mut tech = Tech::plain(alloc);
    tech.setup = 3;
    tech.hold = 2;
    let pairs = listed(rt, alloc, rows);
    let constraints = made(rt, constraints_of(alloc, &pairs, &tech));
    expect_same(rt, constraints.len(), wanted.len(), &rows);
    for (found, row) in constraints.as_slice().iter().zip(wanted) {
        expect_same(rt, *found, constraint(*row), &rows);
    }
}

// Pairs, and the constraints that they give.
const CONSTRAINTS: [(&[Row], &[(bool, u32, u32, i128)]); 3] = [
    (
        &[(0, 1, 1, 5), (1, 0, 2, 2)],
        &[
            (true, 0, 1, 8),
            (false, 1, 0, 1),
            (true, 1, 0, 5),
            (false, 0, 1, 0),
        ],
    ),
    // A register that launches to itself, later than the hold time.
    (&[(2, 2, 7, 9)], &[(true, 2, 2, 12), (false, 2, 2, -5)]),
    (&[], &[]),
];

#[test]
fn lists_the_constraints_of_pairs(rt: HostRuntime) {
    for (rows, wanted) in &CONSTRAINTS {
        expect_constraints(&rt, rt.alloc(), rows, wanted);
    }
}
