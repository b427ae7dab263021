ghost use Rattle.std.specs.Prelude.{◌^◌};
ghost use Rattle.cts_model.specs.Vocabulary.{IsBelow, IsMultipleOf, IsTreeSink};

use crate::same::{expect_same, made};
use cts_model::{Merge, Sink, Uv};
use std::alloc::Global;
use std::process::Abort;
use topology::greedy;

// What sinks differ in.
#[derive(Clone, Copy, Debug)]
enum Row {
    // They stand on the line y = 0, with no offset.
    Flat,
    // They stand on the line u = 0, with no offset.
    Diagonal,
    // They stand at one place, each with its own offset.
    Late,
    // Each 4,096 stand at one place, with no offset.
    Together,
    // Each 2,048 stand at one place, with no offset.
    Halves,
    // Each 2,048 stand at one place, each with its own offset.
    LateHalves,
}

// The rows whose sinks stand apart.
const APART: [Row; 2] = [Row::Flat, Row::Diagonal];

// The rows whose sinks stand at one place or two.
const AT_PLACES: [Row; 4] = [Row::Late, Row::Together, Row::Halves, Row::LateHalves];

// The sink with that offset so many times 8,388,608 steps along the line u = v.
fn far_along(place: u64, offset: i128) -> Sink
    requires below { IsBelow (10 ^ 31) offset }
    requires multiple { IsMultipleOf 8 offset }
    ensures { IsTreeSink result }
{
    let steps = 8 * (1_048_576 * i128::from(place));
    Sink {
        at: Uv { u: steps, v: steps },
        offset,
    }
}

// The sink so many times 8 steps along a row.
fn sink(row: Row, place: u64) -> Sink
    ensures { IsTreeSink result }
{
    let steps = 8 * i128::from(place);
    match row {
        Row::Flat => Sink {
            at: Uv { u: steps, v: steps },
            offset: 0,
        },
        Row::Diagonal => Sink {
            at: Uv { u: 0, v: steps },
            offset: 0,
        },
        Row::Late => Sink {
            at: Uv { u: 0, v: 0 },
            offset: steps,
        },
        Row::Together => far_along(place / 4096, 0),
        Row::Halves => far_along(place / 2048, 0),
        Row::LateHalves => far_along(place / 2048, steps),
    }
}

fn merge(pair: (u32, u32)) -> Merge {
    Merge {
        first: pair.0,
        second: pair.1,
    }
}

// The sinks at those places of a row are merged so.
fn assert_merged(rt: &impl Abort, alloc: Global, row: Row, places: &[u64], wanted: &[(u32, u32)]) {
    let mut sinks = Vec::new(alloc);
    for place in places {
        made(rt, sinks.push(sink(row, *place)));
    }
    assert!(rt; !sinks.is_empty());
    assert!(rt; sinks.len() <= 4097);
    let topology = made(rt, greedy(alloc, &sinks));
    expect_same(rt, topology.merges.len(), wanted.len(), &places);
    for (found, pair) in topology.merges.as_slice().iter().zip(wanted) {
        expect_same(rt, *found, merge(*pair), &places);
    }
}

// Sinks, and how they are merged.
const MERGED: [(&[u64], &[(u32, u32)]); 4] = [
    // Joining in the order of the sinks would begin with (0, 1).
    (&[0, 10, 11], &[(1, 2), (0, 3)]),
    // Of equally cheap pairs the lower numbers come first.
    (&[0, 1, 2, 3], &[(0, 1), (2, 3), (4, 5)]),
    (&[0], &[]),
    // All at one place.
    (&[5, 5, 5, 5], &[(0, 1), (2, 3), (4, 5)]),
];

#[test]
fn merges_the_cheapest_first(rt: HostRuntime) {
    for (places, wanted) in &MERGED {
        assert_merged(&rt, rt.alloc(), Row::Flat, places, wanted);
    }
}

// Forty sinks, each twice as far as the one before: the root of those so far is merged with the
// next.
#[test]
fn merges_a_row_that_doubles(rt: HostRuntime) {
    let alloc = rt.alloc();
    let mut places = Vec::new(alloc);
    let mut wanted = Vec::new(alloc);
    for sink in 0u32..40 {
        made(&rt, places.push(1u64 << sink));
    }
    made(&rt, wanted.push((0, 1)));
    for place in 1..39 {
        made(&rt, wanted.push((place + 1, 39 + place)));
    }
    assert_merged(&rt, alloc, Row::Flat, &places, &wanted)
}

// The sinks at those places of each row are merged so.
fn assert_rows(
    rt: &impl Abort,
    alloc: Global,
    rows: &[Row],
    places: &[u64],
    wanted: &[(u32, u32)],
) {
    for row in rows {
        assert_merged(rt, alloc, *row, places, wanted);
    }
}

// As many sinks as there may be of each row, one behind the other: each merge takes the next two
// nodes.
fn assert_even(rt: &impl Abort, alloc: Global, rows: &[Row]) {
    let mut places = Vec::new(alloc);
    let mut wanted = Vec::new(alloc);
    for sink in 0..4096 {
        made(rt, places.push(sink));
    }
    for place in 0..4095 {
        made(rt, wanted.push((2 * place, 2 * place + 1)));
    }
    assert_rows(rt, alloc, rows, &places, &wanted)
}

#[test]
fn merges_even_rows(rt: HostRuntime) {
    assert_even(&rt, rt.alloc(), &APART)
}

#[test]
fn merges_one_place_or_two(rt: HostRuntime) {
    assert_even(&rt, rt.alloc(), &AT_PLACES)
}

// The same behind a sink that is far away, which the last merge takes.
#[test]
fn merges_one_far_away_last(rt: HostRuntime) {
    let alloc = rt.alloc();
    let mut places = Vec::new(alloc);
    let mut wanted = Vec::new(alloc);
    made(&rt, places.push(1u64 << 60));
    for sink in 0..4096 {
        made(&rt, places.push(sink));
    }
    for place in 0..4095 {
        made(&rt, wanted.push((2 * place + 1, 2 * place + 2)));
    }
    made(&rt, wanted.push((0, 8191)));
    assert_rows(&rt, alloc, &AT_PLACES, &places, &wanted)
}
