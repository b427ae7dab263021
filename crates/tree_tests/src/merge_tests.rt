ghost use Rattle.std.specs.Prelude.{◌≡◌, ◌≤◌, length, slice_get, slice_set, IsSomeAnd};

use crate::same::{expect_same, made};
use crate::trees::{sink, sinks_of, topology_of};
use cts_model::{Merge, Sink};
use merge_up::{Work, merge};
use std::alloc::Global;
use std::process::Abort;

// A room that has merged sinks at these rotated coordinates, with these offsets.
fn merged(
    rt: &impl Abort,
    alloc: Global,
    places: &[(i128, i128, i128)],
    merges: &[(u32, u32)],
) -> Work
    ensures { result.sinks ≡ length places.now }
{
    let sinks = sinks_of(rt, alloc, places);
    let topology = topology_of(rt, alloc, places.len(), merges);
    let mut work = made(rt, Work::with_room(alloc, sinks.len()));
    merge(&mut work, &sinks, &topology);
    work
}

// The reaches of its merges.
fn reaches_of(
    rt: &impl Abort,
    alloc: Global,
    places: &[(i128, i128, i128)],
    merges: &[(u32, u32)],
) -> Vec<i128> {
    assert!(rt; places.len() <= 4097);
    assert!(rt; places.len() == merges.len() + 1);
    let work = merged(rt, alloc, places, merges);
    let mut reaches = Vec::new(alloc);
    for place in 0..merges.len() {
        made(rt, reaches.push(work.reach((places.len() + place) as u32)));
    }
    reaches
}

fn expect_reaches(
    rt: &impl Abort,
    alloc: Global,
    places: &[(i128, i128, i128)],
    merges: &[(u32, u32)],
    wanted: &[i128],
) {
    let reaches = reaches_of(rt, alloc, places, merges);
    expect_same(rt, reaches.as_slice(), wanted, &places);
}

// Sinks on the line y = 0, where both rotated coordinates are x; their merges, and the reaches.
const REACHES: [(&[(i128, i128, i128)], &[(u32, u32)], &[i128]); 6] = [
    (&[(0, 0, 0)], &[], &[]),
    // All at one place.
    (
        &[(0, 0, 0), (0, 0, 0), (0, 0, 0), (0, 0, 0)],
        &[(0, 1), (2, 3), (4, 5)],
        &[0, 0, 0],
    ),
    // The sink with the greater offset is as far as the other.
    (&[(0, 0, 0), (0, 0, -16)], &[(0, 1)], &[0]),
    // One sink's offset decides alone.
    (&[(0, 0, -96), (16, 16, 0)], &[(0, 1)], &[0]),
    (
        &[(0, 0, 0), (80, 80, 0), (88, 88, 0)],
        &[(1, 2), (0, 3)],
        &[4, 44],
    ),
    (
        &[(0, 0, 0), (16, 16, 0), (32, 32, 0)],
        &[(0, 1), (2, 3)],
        &[8, 16],
    ),
];

#[test]
fn finds_reaches(rt: HostRuntime) {
    for (places, merges, wanted) in &REACHES {
        expect_reaches(&rt, rt.alloc(), places, merges, wanted);
    }
}

// The region of two sinks.
fn expect_region(
    rt: &impl Abort,
    alloc: Global,
    places: &[(i128, i128, i128)],
    (ulo, uhi, vlo, vhi): (i128, i128, i128, i128),
) {
    assert!(rt; places.len() == 2);
    let work = merged(rt, alloc, places, &[(0, 1)]);
    let region = work.region(2);
    expect_same(rt, (region.ulo, region.uhi), (ulo, uhi), &places);
    expect_same(rt, (region.vlo, region.vhi), (vlo, vhi), &places);
}

// Two sinks, and the region of both.
#[test]
fn finds_regions(rt: HostRuntime) {
    for (places, sides) in [
        // The one sink itself.
        ([(0, 0, -96), (16, 16, 0)], (16, 16, 16, 16)),
        // As far in u as in v, and further in u alone.
        ([(80, 80, 0), (88, 88, 0)], (84, 84, 84, 84)),
        ([(0, 0, 0), (16, 0, 0)], (8, 8, -8, 8)),
        ([(0, 0, 0), (16, 8, 0)], (8, 8, 0, 8)),
        // The sink with the greater offset is closer.
        ([(0, 0, 8), (16, 0, 0)], (4, 4, -4, 4)),
        ([(0, 8, 0), (0, -8, -8)], (-4, 4, 4, 4)),
    ]
    .as_slice()
    {
        expect_region(&rt, rt.alloc(), places, *sides);
    }
}

// Forty sinks, each twice as far out as the one before, and each merged with all that are closer.
#[test]
fn merges_a_chain(rt: HostRuntime) {
    let alloc = rt.alloc();
    let mut places = Vec::new(alloc);
    let mut merges = Vec::new(alloc);
    for k in 0..40u32 {
        made(&rt, places.push((8i128 << k, 8i128 << k, 0)));
    }
    made(&rt, merges.push((0, 1)));
    for k in 1..39u32 {
        made(&rt, merges.push((k + 1, 39 + k)));
    }
    let reaches = reaches_of(&rt, alloc, &places, &merges);
    for (place, reach) in [(0, 4), (1, 12), (9, 4_092), (38, 2_199_023_255_548)].as_slice() {
        let found = reaches.as_slice().get(*place).copied();
        expect_same(&rt, found, Some(*reach), place);
    }
}

// A room for five sinks merges three of them, and then all five.
#[test]
fn keeps_room(rt: HostRuntime) {
    let alloc = rt.alloc();
    let places = [
        (0, 0, 0),
        (16, 16, 0),
        (32, 32, 0),
        (48, 48, 0),
        (64, 64, 0),
    ];
    let three = sinks_of(&rt, alloc, &[(0, 0, 0), (16, 16, 0), (32, 32, 0)]);
    let five = sinks_of(&rt, alloc, &places);
    let of_three = topology_of(&rt, alloc, 3, &[(0, 1), (2, 3)]);
    let of_five = topology_of(&rt, alloc, 5, &[(0, 1), (2, 3), (5, 6), (4, 7)]);
    let mut work = made(&rt, Work::with_room(alloc, 5));
    merge(&mut work, &three, &of_three);
    expect_same(&rt, (work.reach(3), work.reach(4)), (8, 16), &"work");
    merge(&mut work, &five, &of_five);
    expect_same(&rt, (work.reach(7), work.reach(8)), (24, 32), &"work");
}

// The first sink moves to the second one's place.
#[test]
fn renews_what_is_above_a_moved_sink(rt: HostRuntime) {
    let alloc = rt.alloc();
    let moved = (8, 8, 0);
    let before = sinks_of(&rt, alloc, &[(0, 0, 0), moved, (24, 24, 0)]);
    let after = sinks_of(&rt, alloc, &[moved, moved, (24, 24, 0)]);
    let topology = topology_of(&rt, alloc, 3, &[(0, 1), (2, 3)]);
    let mut work = made(&rt, Work::with_room(alloc, 3));
    let started = work.renewals();
    merge(&mut work, &before, &topology);
    let merged = (work.renewals(), work.reach(3), work.reach(4));
    work.set_sink(0, sink(&rt, moved));
    let set = work.renewals();
    work.renew(&after, &topology, 3);
    work.renew(&after, &topology, 4);
    let renewed = (work.renewals(), work.reach(3), work.reach(4));
    expect_same(&rt, (started, set), (0, 2), &"work.renewals");
    expect_same(&rt, (merged, renewed), ((2, 4, 12), (4, 0, 8)), &"work");
}

// Moves the first sink.
fn move_first(sinks: &mut Vec<Sink>, moved: Sink)
    requires { 1 ≤ length sinks.old.items }
    ensures { sinks.new.items ≡ slice_set sinks.old.items 0 moved }
{
    sinks[0] = moved;
}

// The second merge joins the third and the fourth sink.
fn expect_second(rt: &impl Abort, merges: &[Merge])
    requires { 2 ≤ length merges.now }
    ensures { IsSomeAnd (slice_get merges.now 1)
        (λ merge. (merge.first ≡ 2) × (merge.second ≡ 3)) }
{
    let merge = merges[1];
    assert!(rt; merge.first == 2);
    assert!(rt; merge.second == 3);
}

// The first of four sinks moves to the second one's place: the merge of the others stays.
#[test]
fn counts_what_is_renewed(rt: HostRuntime) {
    let alloc = rt.alloc();
    let moved = sink(&rt, (8, 8, 0));
    let places = [(0, 0, 0), (8, 8, 0), (16, 16, 0), (24, 24, 0)];
    let mut sinks = sinks_of(&rt, alloc, &places);
    let topology = topology_of(&rt, alloc, 4, &[(0, 1), (2, 3), (4, 5)]);
    expect_second(&rt, topology.merges.as_slice());
    let mut work = made(&rt, Work::with_room(alloc, 4));
    merge(&mut work, &sinks, &topology);
    expect_same(&rt, work.renewals(), 3, &"work.renewals");
    move_first(&mut sinks, moved);
    work.set_sink(0, moved);
    work.renew(&sinks, &topology, 4);
    work.renew(&sinks, &topology, 6);
    assert!(rt; work.renewals() <= 5);
    expect_same(&rt, (work.reach(4), work.reach(6)), (0, 8), &"work");
}
