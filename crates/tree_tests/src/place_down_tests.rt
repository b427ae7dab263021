ghost use Rattle.std.specs.Prelude.{◌≡◌, ◌≤◌, pos, length, slice_get, IsSomeAnd};

use crate::same::{expect_same, made};
use crate::trees::{sink, sinks_of, topology_of};
use cts_base::Listed;
use cts_model::{Merge, Point, Show, Sink, Tree, Uv};
use merge_up::{Work, merge};
use place_down::place;
use std::alloc::Global;
use std::process::Abort;

// The tree over sinks at these rotated coordinates, with these offsets, and its shows.
fn placed(
    rt: &impl Abort,
    alloc: Global,
    places: &[(i128, i128, i128)],
    merges: &[(u32, u32)],
    source: (i128, i128),
) -> (Tree, Listed<Show>) {
    let sinks = sinks_of(rt, alloc, places);
    let topology = topology_of(rt, alloc, places.len(), merges);
    let (u, v) = source;
    let source = sink(rt, (u, v, 0)).at;
    let mut work = made(rt, Work::with_room(alloc, sinks.len()));
    merge(&mut work, &sinks, &topology);
    place(&mut work, &sinks, &topology, source);
    work.into_parts()
}

fn at(x: i128, y: i128) -> Point {
    Point { x, y }
}

// Sinks, their merges, and the place of the source.
type Given = (
    &'static [(i128, i128, i128)],
    &'static [(u32, u32)],
    (i128, i128),
);

fn expect_edges(
    rt: &impl Abort,
    alloc: Global,
    (places, merges, source): Given,
    lengths: &[i128],
    reach: i128,
    show: Show,
) {
    let (tree, shows) = placed(rt, alloc, places, merges, source);
    expect_same(rt, tree.length.as_slice(), lengths, &places);
    expect_same(
        rt,
        tree.reach.as_slice().last().copied(),
        Some(reach),
        &places,
    );
    expect_same(rt, shows.as_slice().last().copied(), Some(show), &places);
}

const EDGES: [(Given, &[i128], i128, Show); 6] = [
    (
        (
            &[(0, 0, 0), (80, 80, 0), (88, 88, 0)],
            &[(1, 2), (0, 3)],
            (0, 0),
        ),
        &[44, 4, 4, 40, 44],
        88,
        Show::Sink(2),
    ),
    // The root reaches as far as any sink is from the source.
    (
        (
            &[(0, 0, 0), (16, 16, 0), (32, 32, 0)],
            &[(0, 1), (2, 3)],
            (16, 16),
        ),
        &[8, 8, 16, 8, 0],
        16,
        Show::Root,
    ),
    // Further in u than in v.
    (
        (&[(0, 0, 0), (24, 8, 0)], &[(0, 1)], (0, 0)),
        &[12, 12, 12],
        24,
        Show::Sink(1),
    ),
    // A detour to the sink that is earlier.
    (
        (&[(0, 0, 0), (0, 0, -16)], &[(0, 1)], (0, 0)),
        &[0, 16, 0],
        0,
        Show::Root,
    ),
    // One sink's offset decides alone.
    (
        (&[(0, 0, -96), (16, 16, 0)], &[(0, 1)], (16, 16)),
        &[96, 0, 0],
        0,
        Show::Root,
    ),
    ((&[(0, 0, 0)], &[], (56, 56)), &[56], 56, Show::Sink(0)),
];

// The length of each edge, and how far the source reaches. Where both rotated coordinates of a sink
// are alike, they are x, and y is 0.
#[test]
fn measures_edges(rt: HostRuntime) {
    for (given, lengths, reach, show) in &EDGES {
        expect_edges(&rt, rt.alloc(), *given, lengths, *reach, *show);
    }
}

fn expect_places(
    rt: &impl Abort,
    alloc: Global,
    (places, merges, source): Given,
    wanted: &[(i128, i128)],
) {
    let (tree, _shows) = placed(rt, alloc, places, merges, source);
    expect_same(rt, tree.place.len(), wanted.len(), &(places, source));
    for (found, (x, y)) in tree.place.as_slice().iter().zip(wanted) {
        expect_same(rt, *found, at(*x, *y), &(places, source));
    }
}

const NODES: [(Given, &[(i128, i128)]); 4] = [
    (
        (
            &[(0, 0, 0), (80, 80, 0), (88, 88, 0)],
            &[(1, 2), (0, 3)],
            (0, 0),
        ),
        &[(0, 0), (80, 0), (88, 0), (84, 0), (44, 0), (0, 0)],
    ),
    (
        (&[(0, 0, 0), (24, 8, 0)], &[(0, 1)], (0, 0)),
        &[(0, 0), (16, 8), (6, 6), (0, 0)],
    ),
    // The nearest of the points that are as far from both sinks.
    (
        (&[(0, 0, 0), (16, 0, 0)], &[(0, 1)], (40, 24)),
        &[(0, 0), (8, 8), (8, 0), (32, 8)],
    ),
    // The source is between them in v.
    (
        (&[(0, 0, 0), (16, 0, 0)], &[(0, 1)], (0, -8)),
        &[(0, 0), (8, 8), (0, 8), (-4, 4)],
    ),
];

// Where sinks, merges and the source stand.
#[test]
fn places_nodes(rt: HostRuntime) {
    for (given, wanted) in &NODES {
        expect_places(&rt, rt.alloc(), *given, wanted);
    }
}

fn expect_shows(rt: &impl Abort, alloc: Global, (places, merges, source): Given, wanted: &[Show]) {
    let (_tree, shows) = placed(rt, alloc, places, merges, source);
    expect_same(rt, shows.as_slice(), wanted, &(places, source));
}

const SHOWS: [(Given, &[Show]); 5] = [
    // Further in u than in v.
    (
        (&[(0, 0, 0), (24, 8, 0)], &[(0, 1)], (0, 0)),
        &[Show::Pair(0, 1), Show::Sink(1)],
    ),
    // As far in u as in v: the sinks that are furthest to both sides.
    (
        (
            &[(0, 0, 0), (16, 16, 0), (32, 32, 0)],
            &[(0, 1), (2, 3)],
            (16, 16),
        ),
        &[Show::Pair(0, 1), Show::Pair(0, 2), Show::Root],
    ),
    // One sink's offset decides alone, that of the first and that of the second.
    (
        (&[(0, 0, 0), (0, 0, -16)], &[(0, 1)], (0, 0)),
        &[Show::Pair(0, 0), Show::Root],
    ),
    (
        (&[(0, 0, -96), (16, 16, 0)], &[(0, 1)], (16, 16)),
        &[Show::Pair(1, 1), Show::Root],
    ),
    ((&[(0, 0, 0)], &[], (56, 56)), &[Show::Sink(0)]),
];

// What shows each merge's reach in order, and then the source's.
#[test]
fn shows_each_reach(rt: HostRuntime) {
    for (given, wanted) in &SHOWS {
        expect_shows(&rt, rt.alloc(), *given, wanted);
    }
}

// Three sinks in a room for five.
#[test]
fn cuts_what_is_room(rt: HostRuntime) {
    let alloc = rt.alloc();
    let sinks = sinks_of(&rt, alloc, &[(0, 0, 0), (16, 16, 0), (32, 32, 0)]);
    let topology = topology_of(&rt, alloc, 3, &[(0, 1), (2, 3)]);
    let mut work = made(&rt, Work::with_room(alloc, 5));
    merge(&mut work, &sinks, &topology);
    place(&mut work, &sinks, &topology, sink(&rt, (16, 16, 0)).at);
    let (tree, shows) = work.into_parts();
    expect_same(
        &rt,
        tree.length.as_slice(),
        [8, 8, 16, 8, 0].as_slice(),
        &"tree.length",
    );
    expect_same(
        &rt,
        (tree.reach.len(), tree.place.len(), shows.len()),
        (6, 6, 3),
        &"tree",
    );
}

// A sink with the offset 0.
fn still(u: i128, v: i128) -> Sink
    ensures { result ≡ record { at = record { u = u; v = v }; offset = pos 0 } }
{
    Sink {
        at: Uv { u, v },
        offset: 0,
    }
}

// The two merges join the first two sinks, and the third to these.
fn expect_joined(rt: &impl Abort, merges: &[Merge])
    requires { 2 ≤ length merges.now }
    ensures lower { IsSomeAnd (slice_get merges.now 0)
        (λ merge. (merge.first ≡ 0) × (merge.second ≡ 1)) }
    ensures upper { IsSomeAnd (slice_get merges.now 1)
        (λ merge. (merge.first ≡ 2) × (merge.second ≡ 3)) }
{
    let lower = merges[0];
    assert!(rt; lower.first == 0);
    assert!(rt; lower.second == 1);
    let upper = merges[1];
    assert!(rt; upper.first == 2);
    assert!(rt; upper.second == 3);
}

// The third sink is set closer to the others, so that none of the three is furthest that was not.
#[test]
fn places_once_a_sink_is_set(rt: HostRuntime) {
    let alloc = rt.alloc();
    let topology = topology_of(&rt, alloc, 3, &[(0, 1), (2, 3)]);
    expect_joined(&rt, topology.merges.as_slice());
    let mut work = made(&rt, Work::with_room(alloc, 3));
    let before = [still(0, 16), still(80, -16), still(40, 16)];
    merge(&mut work, &before, &topology);
    expect_same(&rt, work.reach(4), 40, &"work.reach");
    work.set_sink(2, still(40, 8));
    let after = [still(0, 16), still(80, -16), still(40, 8)];
    place(&mut work, &after, &topology, Uv { u: 40, v: 40 });
    let (tree, shows) = work.into_parts();
    expect_same(
        &rt,
        tree.length.as_slice(),
        [40, 40, 40, 0, 16].as_slice(),
        &"tree.length",
    );
    expect_same(
        &rt,
        tree.place.as_slice(),
        [
            at(8, -8),
            at(32, 48),
            at(24, 16),
            at(32, 8),
            at(32, 8),
            at(40, 0),
        ]
        .as_slice(),
        &"tree.place",
    );
    expect_same(
        &rt,
        shows.as_slice(),
        [Show::Pair(0, 1), Show::Pair(0, 1), Show::Sink(1)].as_slice(),
        &"shows",
    );
}
