use crate::same::{expect_same, made};
use bench_reader::read_bench;
use cts_model::Circuit;
use gate_order::levels;
use std::alloc::Global;
use std::process::Abort;

// The circuit of a text, which is short enough for a file.
fn circuit_of(rt: &impl Abort, alloc: Global, text: &[u8]) -> Circuit {
    assert!(rt; text.len() <= 16_777_216);
    made(rt, read_bench(alloc, text))
}

fn expect_order(rt: &impl Abort, alloc: Global, text: &str, gates: &[u32]) {
    let circuit = circuit_of(rt, alloc, text.as_bytes());
    let order = made(rt, levels(alloc, &circuit));
    expect_same(rt, order.gates(), gates, &text);
}

const ORDERS: [(&str, &[u32]); 3] = [
    ("a = DFF(a)", &[]),
    // A gate whose inputs are a register and a primary input comes first, wherever it stands.
    (
        "a = DFF(g)\ng = AND(h, i)\nh = NOT(i)\ni = NOR(a, x)\nINPUT(x)",
        &[3, 2, 1],
    ),
    // Two inputs that are one signal.
    ("g = XOR(h, h)\nh = BUFF(a)\na = DFF(g)", &[1, 0]),
];

#[test]
fn orders_gates_after_those_that_they_read(rt: HostRuntime) {
    for (text, gates) in &ORDERS {
        expect_order(&rt, rt.alloc(), text, gates);
    }
}

// A register and a chain of inverters, each of which reads the one on the line after it.
fn chain(rt: &impl Abort, alloc: Global, length: u32) -> Vec<u8> {
    let mut text = made(rt, Vec::from_slice(alloc, b"g0 = DFF(g0)\n"));
    for gate in 0..length {
        let line = made(
            rt,
            format!(in alloc; "h{gate} = NOT(h{})\n", gate.saturating_add(1)),
        );
        made(rt, text.extend_from_slice(line.as_bytes()));
    }
    made(
        rt,
        text.extend_from_slice(made(rt, format!(in alloc; "h{length} = BUFF(g0)\n")).as_bytes()),
    );
    text
}

#[test]
fn orders_a_chain_of_60000_inverters(rt: HostRuntime) {
    let alloc = rt.alloc();
    let circuit = circuit_of(&rt, alloc, &chain(&rt, alloc, 60_000));
    let order = made(&rt, levels(alloc, &circuit));
    let gates = order.gates();
    expect_same(&rt, gates.len(), 60_001, &"gates.len");
    expect_same(&rt, gates.first().copied(), Some(60_001), &"gates.first");
    expect_same(&rt, gates.last().copied(), Some(1), &"gates.last");
}
