use crate::same::{expect_same, made};
use bench_reader::read_bench;
use cts_model::{FanIn, Kind, Tech, used_kinds, with_host};
use std::alloc::Global;
use std::process::Abort;

fn expect_pushed(rt: &impl Abort, fan_in: &mut FanIn, item: u32, wanted: &[u32]) {
    expect_same(rt, fan_in.push(item), Ok(()), &"fan_in.push");
    expect_same(rt, fan_in.as_slice(), wanted, &"fan_in");
}

fn expect_item(rt: &impl Abort, fan_in: &FanIn, at: usize, wanted: Option<u32>) {
    expect_same(rt, fan_in.get(at).copied(), wanted, &at);
}

#[test]
fn reads_more_signals_than_stand_in_the_value(rt: HostRuntime) {
    let mut fan_in = FanIn::new(rt.alloc());
    assert!(rt; fan_in.is_empty());
    expect_pushed(&rt, &mut fan_in, 9, &[9]);
    expect_pushed(&rt, &mut fan_in, 0, &[9, 0]);
    expect_pushed(&rt, &mut fan_in, 4, &[9, 0, 4]);
    expect_pushed(&rt, &mut fan_in, 4, &[9, 0, 4, 4]);
    expect_pushed(&rt, &mut fan_in, 2, &[9, 0, 4, 4, 2]);
    expect_same(&rt, fan_in.len(), 5, &"fan_in.len");
    assert!(rt; !fan_in.is_empty());
    expect_item(&rt, &fan_in, 0, Some(9));
    expect_item(&rt, &fan_in, 3, Some(4));
    expect_item(&rt, &fan_in, 4, Some(2));
    expect_item(&rt, &fan_in, 5, None);
}

#[test]
fn has_a_plain_table(rt: HostRuntime) {
    let table = Tech::plain(rt.alloc());
    expect_same(&rt, (table.wire_num, table.wire_den), (1, 1), &"table");
    assert!(rt; table.source.is_empty());
    expect_same(&rt, (table.setup, table.hold), (2, 1), &"table");
    expect_same(&rt, (table.least, table.greatest), (3, 3), &"table");
    expect_same(&rt, table.floor, 0, &"table.floor");
    for gate in &table.gates {
        assert!(rt; gate.given);
        expect_same(&rt, (gate.least, gate.greatest), (1, 1), &"gate");
        expect_same(
            &rt,
            (gate.least_per_input, gate.greatest_per_input),
            (0, 0),
            &"gate",
        );
    }
}

fn expect_host(rt: &impl Abort, alloc: Global, text: &str, outputs: &[u32], registers: &[u32]) {
    assert!(rt; text.len() <= 16_777_216);
    let circuit = made(
        rt,
        with_host(alloc, made(rt, read_bench(alloc, text.as_bytes()))),
    );
    let host = circuit.signals.as_slice().last().expect(rt, "a host");
    expect_same(rt, host.kind, Kind::Host, &text);
    expect_same(rt, host.name.as_slice(), b"(host)".as_slice(), &text);
    expect_same(rt, host.fan_in.as_slice(), outputs, &text);
    expect_same(rt, circuit.outputs.as_slice(), outputs, &text);
    expect_same(rt, circuit.registers.as_slice(), registers, &text);
}

// A netlist, what its host reads, and its registers with the host.
const HOSTED: [(&str, &[u32], &[u32]); 3] = [
    ("INPUT(x)\na = DFF(x)\n", &[], &[1, 2]),
    (
        "input( x )\r\nOUTPUT(b)\noutput(b)\na=dff(x)\nb = Dff ( a )",
        &[2],
        &[1, 2, 3],
    ),
    (
        "OUTPUT(g)\nOUTPUT(x)\nINPUT(x)\nOUTPUT(g)\ng = NOT(a)\na = DFF(g)",
        &[1, 0],
        &[2, 3],
    ),
];

// A netlist without outputs, and one whose outputs are mentioned out of order and twice.
#[test]
fn gives_a_circuit_the_host(rt: HostRuntime) {
    for (text, outputs, registers) in &HOSTED {
        expect_host(&rt, rt.alloc(), text, outputs, registers);
    }
}

fn expect_used(rt: &impl Abort, alloc: Global, text: &str, used: [bool; 8]) {
    assert!(rt; text.len() <= 16_777_216);
    let circuit = read_bench(alloc, text.as_bytes()).expect(rt, "a circuit");
    expect_same(rt, used_kinds(&circuit), used, &text);
}

#[test]
fn reports_which_kinds_are_used(rt: HostRuntime) {
    for (text, used) in [
        ("a = DFF(a)", [false; 8]),
        (
            "a = DFF(g)\ng = BUF(h)\nh = AND(a, i)\ni = XNOR(a, a)",
            [true, false, false, false, false, false, true, true],
        ),
        (
            "a = DFF(g)\ng = NAND(h, i)\nh = OR(a, j)\ni = NOR(a, a)\nj = NOT(k)\nk = XOR(a)",
            [false, true, true, true, true, true, false, false],
        ),
    ]
    .as_slice()
    {
        expect_used(&rt, rt.alloc(), text, *used);
    }
}
