use crate::constraint_lists::{Row, constraints_of, hold, list_of, setup, slow_ring};
use crate::same::{expect_same, made};
use critical_cycle::{Period, least_period, least_period_in};
use cts_base::Listed;
use std::alloc::Global;
use std::process::Abort;

// What the answer says: `floor`, or a value and the places of its cycle, or `never` and the places.
fn text_of(rt: &impl Abort, alloc: Global, period: &Period) -> String {
    let mut text = String::new(alloc);
    let places = match period {
        Period::Floor => {
            made(rt, text.push_str("floor"));
            return text;
        }
        Period::Cycle { value, cycle } => {
            let value = made(rt, format!(in alloc; "{}/{}", value.num(), value.den()));
            made(rt, text.push_str(value.as_str()));
            cycle
        }
        Period::Never { cycle } => {
            made(rt, text.push_str("never"));
            cycle
        }
    };
    for place in places.as_slice() {
        let place = made(rt, format!(in alloc; " {place}"));
        made(rt, text.push_str(place.as_str()));
    }
    text
}

// What the answer says, also in lists that hold a value and places before.
fn expect_period(
    rt: &impl Abort,
    alloc: Global,
    (value, place): (i128, u32),
    registers: usize,
    floor: i128,
    rows: &[Row],
    wanted: &str,
) {
    let list = list_of(rt, alloc, registers, &constraints_of(rt, alloc, rows));
    assert!(rt; floor >= 0);
    assert!(rt; floor <= 1_000_000_000);
    let period = made(rt, least_period(alloc, registers, &list, floor));
    let text = text_of(rt, alloc, &period);
    expect_same(rt, text.as_str(), wanted, &(registers, floor, rows));
    let values = Listed::from_vec(made(rt, vec![in alloc; value; registers]));
    let parents = Listed::from_vec(made(rt, vec![in alloc; place; registers]));
    let cycle = Listed::from_vec(made(rt, vec![in alloc; place; registers]));
    let period = least_period_in(values, parents, cycle, &list, floor);
    let text = text_of(rt, alloc, &period);
    expect_same(rt, text.as_str(), wanted, &(value, place, rows));
}

// Two registers with a path of 7 ticks from the first to the second and one of 4 ticks back.
const THERE_AND_BACK: &[Row] = &[
    (true, 0, 1, 7),
    (false, 1, 0, -7),
    (true, 1, 0, 4),
    (false, 0, 1, -4),
];

// So many registers, a floor, the constraints, and what the answer says.
const PERIODS: [(usize, i128, &[Row], &str); 15] = [
    (2, 0, THERE_AND_BACK, "11/2 0 2"),
    (2, 6, THERE_AND_BACK, "floor"),
    (1, 7, &[], "floor"),
    (1, 3, &[(true, 0, 0, 5)], "5/1 0"),
    (1, 3, &[(false, 0, 0, 1)], "never 0"),
    // A hold cycle with sum 0 admits every period.
    (1, 0, &[(false, 0, 0, 0), (true, 0, 0, 4)], "4/1 1"),
    // Two cycles with one value: the first one is given.
    (
        4,
        0,
        &[
            (true, 0, 1, 6),
            (true, 1, 0, 4),
            (true, 2, 3, 5),
            (true, 3, 2, 5),
        ],
        "5/1 0 1",
    ),
    // A floor equal to the greatest value, and one above it.
    (2, 5, &[(true, 0, 1, 6), (true, 1, 0, 4)], "floor"),
    (2, 6, &[(true, 0, 1, 6), (true, 1, 0, 4)], "floor"),
    (2, 4, &[(true, 0, 1, 6), (true, 1, 0, 4)], "5/1 0 1"),
    // The cycle is given from its lowest tail on, wherever its constraints stand.
    (
        3,
        0,
        &[(true, 2, 0, 3), (true, 1, 2, 4), (true, 0, 1, 6)],
        "13/3 2 1 0",
    ),
    (
        2,
        0,
        &[
            (false, 0, 1, -3),
            (false, 1, 0, 3),
            (true, 0, 1, 8),
            (true, 1, 0, 1),
        ],
        "11/1 2 1",
    ),
    (2, 0, &[(false, 0, 1, -3), (false, 1, 0, 4)], "never 0 1"),
    (2, 0, &[(false, 1, 0, 0), (false, 0, 1, 1)], "never 1 0"),
    (
        3,
        9,
        &[(false, 1, 2, 1), (false, 2, 0, 1), (false, 0, 1, -1)],
        "never 2 0 1",
    ),
];

#[test]
fn finds_the_least_period(rt: HostRuntime) {
    for (registers, floor, rows, wanted) in &PERIODS {
        expect_period(&rt, rt.alloc(), (-3, 7), *registers, *floor, rows, wanted);
    }
}

// What the lists may hold before.
const ENTRIES: [(i128, u32); 4] = [(i128::MAX, u32::MAX), (i128::MIN, 0), (0, 1), (7, 4097)];

// Whatever the lists hold, the answer is the same.
#[test]
fn overwrites_what_the_lists_hold(rt: HostRuntime) {
    for entries in &ENTRIES {
        expect_period(&rt, rt.alloc(), *entries, 2, 0, THERE_AND_BACK, "11/2 0 2");
    }
}

// A ring of 4,096 registers with a tick more on its first way than on the others.
#[test]
fn finds_the_largest_denominator_in_place(rt: HostRuntime) {
    let alloc = rt.alloc();
    let list = list_of(&rt, alloc, 4096, slow_ring(&rt, alloc).as_slice());
    let values = Listed::from_vec(made(&rt, vec![in alloc; -3i128; 4096]));
    let parents = Listed::from_vec(made(&rt, vec![in alloc; 7u32; 4096]));
    let cycle = Listed::from_vec(made(&rt, vec![in alloc; 7u32; 4096]));
    let Period::Cycle { value, cycle } = least_period_in(values, parents, cycle, &list, 0) else {
        panic!(rt; "a cycle");
    };
    expect_same(&rt, (value.num(), value.den()), (8193, 4096), &"value");
    expect_same(&rt, cycle.len(), 4096, &"cycle.len");
    expect_same(&rt, cycle.get(4095).copied(), Some(8190), &"cycle.get");
}

// Setup constraints of the greatest weight round 4,097 registers, and hold constraints of the least
// weight the other way.
#[test]
fn goes_round_every_register(rt: HostRuntime) {
    let alloc = rt.alloc();
    let mut constraints = Vec::new(alloc);
    for register in 0..4097u32 {
        let next = (register + 1) % 4097;
        made(&rt, constraints.push(setup(register, next, 99_999_999_999)));
        made(&rt, constraints.push(hold(next, register, -99_999_999_999)));
    }
    let list = list_of(&rt, alloc, 4097, constraints.as_slice());
    let period = made(&rt, least_period(alloc, 4097, &list, 1_000_000_000));
    let Period::Cycle { value, cycle } = period else {
        panic!(rt; "a cycle");
    };
    expect_same(&rt, value.num(), 99_999_999_999, &"value.num");
    expect_same(&rt, value.den(), 1, &"value.den");
    expect_same(&rt, cycle.len(), 4097, &"cycle.len");
    expect_same(&rt, cycle.get(4096).copied(), Some(8192), &"cycle.get");
}
