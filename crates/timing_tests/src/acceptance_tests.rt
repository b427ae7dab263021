use crate::circuits::TO_OUTPUT;
use crate::same::expect_same;
use cts_engine::{Refusal, accept, accept_circuit};
use cts_model::{Point, Problem};
use std::alloc::Global;
use std::process::Abort;

// A table for a netlist whose gates are NOTs, without the host.
const TABLE: &str = "[wire]\ndelay = \"1/1\"\n[source]\nplace = \"CLK\"\n[register]\nsetup = 1
hold = 0\nleast = 1\ngreatest = 2\n[gate.NOT]\nleast = 1\ngreatest = 2\n";

// The same with the host, which stands at a node of its own.
const HOSTED: &str = "[wire]\ndelay = \"1/1\"\n[source]\nplace = \"CLK\"\n[register]\nsetup = 1
hold = 0\nleast = 1\ngreatest = 2\n[gate.NOT]\nleast = 1\ngreatest = 2\n[host]\nplace = \"PAD\"\n";

// The same without any gate.
const BARE: &str = "[wire]\ndelay = \"1/1\"\n[source]\nplace = \"CLK\"\n[register]\nsetup = 1
hold = 0\nleast = 1\ngreatest = 2\n";

const PLACES: &str = "UCLA pl 1.0\nA 1 2 : N\nCLK 3 4 : N\n";

// What three texts, each short enough for a file, tell.
fn denoted(
    rt: &impl Abort,
    alloc: Global,
    bench: &str,
    tech: &str,
    places: &str,
) -> Result<Problem, Refusal> {
    assert!(rt; bench.len() <= 16_777_216);
    assert!(rt; places.len() <= 16_777_216);
    accept(alloc, bench.as_bytes(), tech.as_bytes(), places.as_bytes())
}

fn expect_refusal(
    rt: &impl Abort,
    alloc: Global,
    bench: &str,
    tech: &str,
    places: &str,
    wanted: &str,
) {
    let refusal = denoted(rt, alloc, bench, tech, places)
        .err()
        .expect(rt, "a refusal");
    let found = format!(in alloc; "{refusal:?}").expect(rt, "memory");
    expect_same(rt, found.as_str(), wanted, &bench);
}

#[test]
fn refuses_the_first_faulty_text(rt: HostRuntime) {
    for (bench, tech, places, wanted) in [
        // Each text has a fault, and then each but the first, and then the last alone.
        ("A = DFF(", "wire", "A", "Bench(BadLine(1))"),
        (TO_OUTPUT, "wire", "A", "Tech(NotToml)"),
        (TO_OUTPUT, TABLE, "A", "Places(BadLine(1))"),
        ("INPUT(x)", TABLE, PLACES, "Bench(NoRegisters)"),
        // A table and a placement are judged by what the texts before them tell.
        (TO_OUTPUT, BARE, PLACES, "Tech(MissingKind(Not))"),
        (TO_OUTPUT, TABLE, "CLK 3 4 : N", "Places(NoPlace(0))"),
        (TO_OUTPUT, TABLE, "A 1 2 : N", "Places(NoSource)"),
        (TO_OUTPUT, HOSTED, PLACES, "Places(NoPlace(1))"),
    ]
    .as_slice()
    {
        expect_refusal(&rt, rt.alloc(), bench, tech, places, wanted);
    }
}

#[test]
fn accepts_three_texts(rt: HostRuntime) {
    let alloc = rt.alloc();
    let register = Point {
        x: 1_000_000,
        y: 2_000_000,
    };
    let source = Point {
        x: 3_000_000,
        y: 4_000_000,
    };
    let problem = denoted(&rt, alloc, TO_OUTPUT, TABLE, PLACES).expect(&rt, "a problem");
    expect_same(
        &rt,
        problem.circuit.registers.as_slice(),
        [1u32].as_slice(),
        &"problem.circuit.registers",
    );
    expect_same(
        &rt,
        (problem.tech.setup, problem.tech.greatest),
        (1, 2),
        &"problem",
    );
    expect_same(
        &rt,
        problem.places.registers.as_slice(),
        [register].as_slice(),
        &"problem.places.registers",
    );
    expect_same(&rt, problem.places.source, source, &"problem.places.source");
}

fn expect_registers(rt: &impl Abort, alloc: Global, tech: &str, registers: usize) {
    let denoted = accept_circuit(alloc, TO_OUTPUT.as_bytes(), tech.as_bytes()).expect(
        rt,
        "a circuit",
    );
    expect_same(rt, denoted.circuit.registers.len(), registers, &tech);
}

// The host comes last, where the table gives it a place.
#[test]
fn accepts_a_circuit_without_places(rt: HostRuntime) {
    expect_registers(&rt, rt.alloc(), TABLE, 1);
    expect_registers(&rt, rt.alloc(), HOSTED, 2);
}
