use crate::same::expect_same;
use cts_model::{Point, Wire};
use wire_detours::wire;

// A wire of so many points.
fn drawn(used: u8, corners: [(i128, i128); 5]) -> Wire {
    Wire {
        corners: corners.map(|corner| Point {
            x: corner.0,
            y: corner.1,
        }),
        used,
    }
}

// No length is one point, and a length that is the distance has at most one bend.
#[test]
fn draws_the_shortest(rt: HostRuntime) {
    let place = wire(Point { x: 4, y: 6 }, Point { x: 4, y: 6 }, 0);
    expect_same(
        &rt,
        place,
        drawn(1, [(4, 6), (0, 0), (0, 0), (0, 0), (0, 0)]),
        &"place",
    );
    let upright = wire(Point { x: 0, y: 0 }, Point { x: 0, y: 8 }, 8);
    expect_same(
        &rt,
        upright,
        drawn(2, [(0, 0), (0, 8), (0, 0), (0, 0), (0, 0)]),
        &"upright",
    );
    let level = wire(Point { x: 6, y: 2 }, Point { x: -2, y: 2 }, 8);
    expect_same(
        &rt,
        level,
        drawn(2, [(6, 2), (-2, 2), (0, 0), (0, 0), (0, 0)]),
        &"level",
    );
    let bent = wire(Point { x: 0, y: 0 }, Point { x: 6, y: -2 }, 8);
    expect_same(
        &rt,
        bent,
        drawn(3, [(0, 0), (6, 0), (6, -2), (0, 0), (0, 0)]),
        &"bent",
    );
}

// The detour is 4 where 20 is to be drawn over a distance of 12, and so on.
#[test]
fn draws_detours(rt: HostRuntime) {
    let under = wire(Point { x: 2, y: 4 }, Point { x: 8, y: 10 }, 20);
    expect_same(
        &rt,
        under,
        drawn(4, [(2, 4), (2, 0), (8, 0), (8, 10), (0, 0)]),
        &"under",
    );
    let over = wire(Point { x: 0, y: 0 }, Point { x: -4, y: -4 }, 12);
    expect_same(
        &rt,
        over,
        drawn(4, [(0, 0), (0, 2), (-4, 2), (-4, -4), (0, 0)]),
        &"over",
    );
    // ends level with each other
    let level = wire(Point { x: 0, y: 0 }, Point { x: 8, y: 0 }, 16);
    expect_same(
        &rt,
        level,
        drawn(4, [(0, 0), (0, 4), (8, 4), (8, 0), (0, 0)]),
        &"level",
    );
    let beside = wire(Point { x: 10, y: -2 }, Point { x: 10, y: 6 }, 16);
    expect_same(
        &rt,
        beside,
        drawn(4, [(10, -2), (14, -2), (14, 6), (10, 6), (0, 0)]),
        &"beside",
    );
    // a quarter of 12 on each side
    let round = wire(Point { x: -2, y: -2 }, Point { x: -2, y: -2 }, 12);
    expect_same(
        &rt,
        round,
        drawn(5, [(-2, -2), (1, -2), (1, 1), (-2, 1), (-2, -2)]),
        &"round",
    );
}
