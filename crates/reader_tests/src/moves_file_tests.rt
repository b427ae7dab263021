use crate::same::{expect_same, made};
use bench_reader::read_bench;
use cts_base::{Listed, NumberFault};
use cts_model::{Point, with_host};
use move_session::{Move, MovesFault, read_moves};
use std::alloc::Global;
use std::process::Abort;

// Two registers, A and B.
const PAIR: &str = "A = DFF(B)\nB = DFF(A)\n";

fn to(register: u32, x: i128, y: i128) -> Move {
    let at = Point { x, y };
    Move { register, at }
}

// What a text denotes of the two registers.
fn read(rt: &impl Abort, alloc: Global, text: &str) -> Result<Listed<Move>, MovesFault> {
    assert!(rt; text.len() <= 16_777_216);
    let circuit = made(rt, read_bench(alloc, PAIR.as_bytes()));
    read_moves(alloc, text.as_bytes(), &circuit)
}

fn expect_moves(rt: &impl Abort, alloc: Global, text: &str, moves: &[Move]) {
    let found = made(rt, read(rt, alloc, text));
    expect_same(rt, found.as_slice(), moves, &text);
}

#[test]
fn reads_moves_in_order(rt: HostRuntime) {
    let alloc = rt.alloc();
    for text in ["", "\n", " \t\r\n# none\n"] {
        expect_moves(&rt, alloc, text, &[]);
    }
    let both = [to(0, 1_000_000, 2_000_000), to(0, -500_000, 1_000_000_000)];
    expect_moves(&rt, alloc, "A 1 2\r\nA -0.5 1e3#x", &both);
    let far = [
        to(1, 1_000_000_000_000_000, -1_000_000_000_000_000),
        to(0, 0, 1),
    ];
    expect_moves(&rt, alloc, "\tB  1e9 -1e9 \n\nA 0 0.000001", &far)
}

fn expect_fault(rt: &impl Abort, alloc: Global, text: &str, fault: MovesFault) {
    let found = read(rt, alloc, text).err();
    expect_same(rt, found, Some(fault), &text);
}

const FAULTS: [(&str, MovesFault); 13] = [
    // No three words.
    ("A 1", MovesFault::BadLine(1)),
    ("A 1 2 3", MovesFault::BadLine(1)),
    ("A 1 #2", MovesFault::BadLine(1)),
    ("A 1 2\n#c\nA", MovesFault::BadLine(3)),
    // The name is judged before the numbers, and x before y.
    ("C x y", MovesFault::UnknownRegister(1)),
    ("a 1 2", MovesFault::UnknownRegister(1)),
    ("(host) 1 2", MovesFault::UnknownRegister(1)),
    ("A x 1e99", MovesFault::BadNumber(1, NumberFault::NotNumber)),
    ("A 1e99 y", MovesFault::BadNumber(1, NumberFault::TooLarge)),
    ("A 1 y", MovesFault::BadNumber(1, NumberFault::NotNumber)),
    (
        "\n#c\nB 0.0000001 0",
        MovesFault::BadNumber(3, NumberFault::TooFine),
    ),
    (
        "B 0 1000000000.000001",
        MovesFault::BadNumber(1, NumberFault::TooLarge),
    ),
    // The first faulty line is named.
    ("A 0 0\nC 0 0\nA", MovesFault::UnknownRegister(2)),
];

#[test]
fn refuses_the_first_faulty_line(rt: HostRuntime) {
    for (text, fault) in &FAULTS {
        expect_fault(&rt, rt.alloc(), text, *fault);
    }
}

// As many moves of A as a text may have.
fn most_moves(rt: &impl Abort, alloc: Global) -> String {
    let mut text = String::new(alloc);
    for _move in 0..10_000u32 {
        made(rt, text.push_str("A 0 0\n"));
    }
    text
}

#[test]
fn takes_10_000_moves(rt: HostRuntime) {
    let alloc = rt.alloc();
    let mut text = most_moves(&rt, alloc);
    let moves = made(&rt, read(&rt, alloc, text.as_str()));
    expect_same(&rt, moves.len(), 10_000, &"all moves");
    // Blank lines count among lines, and a line's own faults are judged before that it is one more.
    made(&rt, text.push_str("\n"));
    for (last, fault) in [
        ("A 0 0", MovesFault::TooMany(10_002)),
        ("C 0 0", MovesFault::UnknownRegister(10_002)),
        ("A 0", MovesFault::BadLine(10_002)),
    ] {
        let more = made(&rt, format!(in alloc; "{text}{last}"));
        expect_fault(&rt, alloc, more.as_str(), fault);
    }
}

#[test]
fn moves_the_host(rt: HostRuntime) {
    let alloc = rt.alloc();
    let circuit = made(
        &rt,
        with_host(alloc, made(&rt, read_bench(alloc, PAIR.as_bytes()))),
    );
    let moves = made(&rt, read_moves(alloc, b"(host) 1 2", &circuit));
    expect_same(
        &rt,
        moves.as_slice(),
        &[to(2, 1_000_000, 2_000_000)],
        &"the host",
    );
}
