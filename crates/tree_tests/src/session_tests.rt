ghost use Rattle.std.specs.Prelude.{◌≡◌, ◌<◌, ◌≤◌, ◌*◌, ◌-◌, length};

use crate::same::{expect_same, made};
use crate::trees::{sink, sinks_of, topology_of};
use move_session::Session;
use std::alloc::Global;
use std::process::Abort;

// Sinks at these rotated coordinates, with these offsets, their merges, and the place of the
// source.
type Given = (
    &'static [(i128, i128, i128)],
    &'static [(u32, u32)],
    (i128, i128),
);

// A register, and the rotated coordinates to which it goes.
type Move = (u32, i128, i128);

fn opened(
    rt: &impl Abort,
    alloc: Global,
    places: &[(i128, i128, i128)],
    merges: &[(u32, u32)],
    source: (i128, i128),
) -> Session
    ensures { length result.sinks ≡ length places.now }
{
    let sinks = sinks_of(rt, alloc, places);
    let topology = topology_of(rt, alloc, places.len(), merges);
    let (u, v) = source;
    let source = sink(rt, (u, v, 0)).at;
    made(rt, Session::open(alloc, &sinks, &topology, source))
}

fn move_to(rt: &impl Abort, session: &mut Session, sinks: usize, to: Move)
    requires { length session.old.sinks ≡ sinks }
    ensures { length session.new.sinks ≡ sinks }
{
    let (register, u, v) = to;
    assert!(rt; (register as usize) < sinks);
    session.move_sink(register, sink(rt, (u, v, 0)).at);
}

fn move_all(rt: &impl Abort, session: &mut Session, sinks: usize, moves: &[Move])
    requires { length session.old.sinks ≡ sinks }
    ensures { length session.new.sinks ≡ sinks }
{
    for to in moves {
        move_to(rt, session, sinks, *to);
    }
}

// A node's reach, its coordinates and the length of its edge.
type Node = (i128, i128, i128, i128);

fn node_of(session: &Session, node: u32) -> Node
    requires { node < 2 * length session.now.sinks - 1 }
{
    let place = session.place(node);
    (session.reach(node), place.x, place.y, session.length(node))
}

// Each node, and last the source, which has no edge.
fn nodes_of(rt: &impl Abort, alloc: Global, session: &Session, sinks: usize) -> Vec<Node>
    requires count { length session.now.sinks ≡ sinks }
    requires some { 1 ≤ sinks }
    requires few { sinks ≤ 4097 }
{
    let source = 2 * sinks - 1;
    let mut nodes = Vec::new(alloc);
    for node in 0..source {
        made(rt, nodes.push(node_of(session, node as u32)));
    }
    let source = source as u32;
    let place = session.place(source);
    made(rt, nodes.push((session.reach(source), place.x, place.y, 0)));
    nodes
}

// The nodes after moves.
fn moved_nodes(
    rt: &impl Abort,
    alloc: Global,
    (places, merges, source): Given,
    moves: &[Move],
) -> Vec<Node> {
    let sinks = places.len();
    assert!(rt; sinks >= 1);
    assert!(rt; sinks <= 4097);
    let mut session = opened(rt, alloc, places, merges, source);
    move_all(rt, &mut session, sinks, moves);
    nodes_of(rt, alloc, &session, sinks)
}

// Four sinks in a row, 8 grid steps apart, and the source at the first.
const ROW: Given = (
    &[(0, 0, 0), (8, 8, 0), (16, 16, 0), (24, 24, 0)],
    &[(0, 1), (2, 3), (4, 5)],
    (0, 0),
);

const ONE: Given = (&[(0, 0, 0)], &[], (56, 56));

// One sink is earlier, so that there are detours.
const EARLY: Given = (
    &[(0, 0, -16), (80, 8, 0), (16, 24, 8)],
    &[(0, 2), (1, 3)],
    (0, 40),
);

// Sinks and moves of them, how much wire there is then, and how often a merge was made.
const TOTALS: [(Given, &[Move], i128, u64); 8] = [
    (ROW, &[], 44, 3),
    // To the place of the next.
    (ROW, &[(0, 8, 8)], 36, 5),
    // To where it is.
    (ROW, &[(0, 0, 0)], 44, 5),
    // Far away, and back.
    (ROW, &[(0, 8_000_000, -16_000_000), (0, 0, 0)], 44, 7),
    // The last of several moves of one sink counts.
    (ROW, &[(0, 24, 8), (0, 80, 16), (0, 8, 8)], 36, 9),
    (ROW, &[(0, 8, 8), (3, 16, 16)], 20, 7),
    (ONE, &[], 56, 0),
    (ONE, &[(0, 56, 56)], 0, 0),
];

fn expect_total(
    rt: &impl Abort,
    alloc: Global,
    (places, merges, source): Given,
    moves: &[Move],
    total: i128,
    renewals: u64,
) {
    let mut session = opened(rt, alloc, places, merges, source);
    move_all(rt, &mut session, places.len(), moves);
    expect_same(
        rt,
        (session.total(), session.renewals()),
        (total, renewals),
        &(places, moves),
    );
}

#[test]
fn counts_wire_and_renewals(rt: HostRuntime) {
    for (given, moves, total, renewals) in &TOTALS {
        expect_total(&rt, rt.alloc(), *given, moves, *total, *renewals);
    }
}

const NEXT_ROW: Given = (
    &[(8, 8, 0), (8, 8, 0), (16, 16, 0), (24, 24, 0)],
    &[(0, 1), (2, 3), (4, 5)],
    (0, 0),
);

const FAR_ROW: Given = (
    &[(0, 0, 0), (0, -8, 0), (16, 16, 0), (-160, 0, 0)],
    &[(0, 1), (2, 3), (4, 5)],
    (0, 0),
);

const MOVED_EARLY: Given = (
    &[(64, -8, -16), (80, 8, 0), (0, 0, 8)],
    &[(0, 2), (1, 3)],
    (0, 40),
);

// Sinks, moves of them, and the same sinks where they stand then; offsets stay.
const ALIKE: [(Given, &[Move], Given); 4] = [
    (ROW, &[(0, 8, 8)], NEXT_ROW),
    (ROW, &[(3, -80, 800), (1, 0, -8), (3, -160, 0)], FAR_ROW),
    (EARLY, &[(0, 64, -8), (2, 0, 0)], MOVED_EARLY),
    (EARLY, &[(1, 0, 0), (1, 80, 8)], EARLY),
];

// What a session answers after moves is what one over the moved sinks answers.
fn expect_alike(rt: &impl Abort, alloc: Global, given: Given, moves: &[Move], moved: Given) {
    let found = moved_nodes(rt, alloc, given, moves);
    let wanted = moved_nodes(rt, alloc, moved, &[]);
    expect_same(rt, found.as_slice(), wanted.as_slice(), &moves);
}

#[test]
fn answers_as_if_opened_anew(rt: HostRuntime) {
    for (given, moves, moved) in &ALIKE {
        expect_alike(&rt, rt.alloc(), *given, moves, *moved);
    }
}

// The row after its first sink moved to the place of the next.
const MOVED_ROW: [Node; 8] = [
    (0, 8, 0, 0),
    (0, 8, 0, 0),
    (0, 16, 0, 4),
    (0, 24, 0, 4),
    (0, 8, 0, 8),
    (4, 20, 0, 4),
    (8, 16, 0, 16),
    (24, 0, 0, 0),
];

fn expect_nodes(rt: &impl Abort, alloc: Global, given: Given, moves: &[Move], wanted: &[Node]) {
    let found = moved_nodes(rt, alloc, given, moves);
    expect_same(rt, found.as_slice(), wanted, &moves);
}

#[test]
fn places_moved_row(rt: HostRuntime) {
    expect_nodes(&rt, rt.alloc(), ROW, &[(0, 8, 8)], &MOVED_ROW)
}

// Sinks of which each but the first two is joined to all those before it.
fn chain(rt: &impl Abort, alloc: Global, sinks: u32) -> Vec<(u32, u32)>
    requires some { 2 ≤ sinks }
    requires few { sinks ≤ 4097 }
{
    let mut merges = Vec::new(alloc);
    made(rt, merges.push((0, 1)));
    for sink in 2..sinks {
        made(rt, merges.push((sink, sinks + sink - 2)));
    }
    merges
}

fn places_of_chain(rt: &impl Abort, alloc: Global, sinks: u32) -> Vec<(i128, i128, i128)> {
    let mut places = Vec::new(alloc);
    for sink in 0..sinks {
        made(
            rt,
            places.push((8 * sink as i128, 16 * (sink % 5) as i128, 0)),
        );
    }
    places
}

// At the top of a chain one merge is renewed, and at its bottom all are.
fn expect_chain(rt: &impl Abort, alloc: Global, sinks: u32) {
    assert!(rt; sinks >= 2);
    assert!(rt; sinks <= 4097);
    let places = places_of_chain(rt, alloc, sinks);
    let merges = chain(rt, alloc, sinks);
    let mut session = opened(rt, alloc, &places, &merges, (0, 0));
    let made = session.renewals();
    move_to(rt, &mut session, places.len(), (sinks - 1, 80, 80));
    let at_top = session.renewals();
    move_to(rt, &mut session, places.len(), (0, 800, 80));
    let merges = (sinks - 1) as u64;
    expect_same(
        rt,
        (made, at_top, session.renewals()),
        (merges, merges + 1, 2 * merges + 1),
        &sinks,
    );
}

#[test]
fn renews_what_is_above(rt: HostRuntime) {
    for sinks in [2, 3, 4096].as_slice() {
        expect_chain(&rt, rt.alloc(), *sinks);
    }
}
