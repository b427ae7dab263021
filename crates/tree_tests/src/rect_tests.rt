use crate::same::expect_same;
use cts_model::{Point, Uv, manhattan, to_uv};
use tilted_rect::{Rect, to_point};

// The square with u and v from -8 to 8 is 16 away from the point with u 24 and v 4. With u and v
// from -16 to 16 it has the edge with u 16 and v from -4 to 12 in common with the square round that
// point, which has u from 16 to 32.
#[test]
fn squares_grow_until_they_touch(rt: HostRuntime) {
    let center = Rect::point(Uv { u: 0, v: 0 });
    let right = Rect::point(Uv { u: 24, v: 4 });
    let square = center.grown(8);
    expect_same(&rt, square.gap(right), 16, &"square.gap");
    expect_same(&rt, right.gap(square), 16, &"right.gap");
    assert!(rt; square.meet(right).is_none());
    expect_same(
        &rt,
        square.nearest(Uv { u: 40, v: 8 }),
        Uv { u: 8, v: 8 },
        &"square.nearest",
    );
    let wide = center.grown(16);
    let touching = right.grown(8);
    expect_same(&rt, wide.gap(touching), 0, &"wide.gap");
    assert!(rt;
        wide.meet(touching).is_some_and(|edge| {
            edge.ulo == 16 && edge.uhi == 16 && edge.vlo == -4 && edge.vhi == 12
        })
    );
    expect_same(
        &rt,
        wide.nearest(Uv { u: 40, v: 8 }),
        Uv { u: 16, v: 8 },
        &"wide.nearest",
    );
    expect_same(
        &rt,
        wide.nearest(Uv { u: 4, v: -40 }),
        Uv { u: 4, v: -16 },
        &"wide.nearest",
    );
    expect_same(
        &rt,
        wide.nearest(Uv { u: 4, v: 12 }),
        Uv { u: 4, v: 12 },
        &"wide.nearest",
    );
}

// The points with u from -8 to 8 and v from -8 to 8, and those with u from 0 to 8 and v from 12 to
// 20: the gap is that of v, and one step of 4 closes it.
#[test]
fn squares_apart_in_v_alone(rt: HostRuntime) {
    let low = Rect::point(Uv { u: 0, v: 0 }).grown(8);
    let high = Rect::point(Uv { u: 4, v: 16 }).grown(4);
    expect_same(&rt, low.gap(high), 4, &"low.gap");
    assert!(rt; low.meet(high).is_none());
    let wide = Rect::point(Uv { u: 4, v: 16 }).grown(8);
    expect_same(&rt, low.gap(wide), 0, &"low.gap");
    assert!(rt;
        low.meet(wide).is_some_and(|edge| {
            edge.ulo == -4 && edge.uhi == 8 && edge.vlo == 8 && edge.vhi == 8
        })
    );
}

#[test]
fn points_turn_and_turn_back(rt: HostRuntime) {
    expect_same(
        &rt,
        to_uv(Point { x: 14, y: -6 }),
        Uv { u: 8, v: 20 },
        &"to_uv",
    );
    expect_same(
        &rt,
        to_point(Uv { u: 8, v: 20 }),
        Point { x: 14, y: -6 },
        &"to_point",
    );
    expect_same(
        &rt,
        to_point(Uv { u: -4, v: 0 }),
        Point { x: -2, y: -2 },
        &"to_point",
    );
}

// The registers G5, G6 and G7 of a placement of s27, and its source.
#[test]
fn measures_distances(rt: HostRuntime) {
    let g5 = Point { x: 0, y: 0 };
    let g6 = Point { x: 4, y: 2 };
    let g7 = Point { x: 10, y: 0 };
    let source = Point { x: 5, y: 10 };
    expect_same(&rt, manhattan(g5, g6), 6, &"manhattan");
    expect_same(&rt, manhattan(g5, g7), 10, &"manhattan");
    expect_same(&rt, manhattan(g6, g7), 8, &"manhattan");
    expect_same(&rt, manhattan(g7, g6), 8, &"manhattan");
    expect_same(&rt, manhattan(source, g5), 15, &"manhattan");
    expect_same(&rt, manhattan(source, g6), 9, &"manhattan");
    expect_same(&rt, manhattan(source, g7), 15, &"manhattan");
}
