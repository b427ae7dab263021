use crate::same::{expect_same, made};
use bench_reader::{BenchFault, Which, read_bench};
use cts_model::{Circuit, Kind};
use std::alloc::Global;
use std::process::Abort;

fn read(rt: &impl Abort, alloc: Global, text: &[u8]) -> Result<Circuit, BenchFault> {
    assert!(rt; text.len() <= 16_777_216);
    read_bench(alloc, text)
}

fn circuit_of(rt: &impl Abort, alloc: Global, text: &str) -> Circuit {
    read(rt, alloc, text.as_bytes()).expect(rt, "a circuit")
}

fn fault_of(rt: &impl Abort, alloc: Global, text: &[u8]) -> BenchFault {
    read(rt, alloc, text).err().expect(rt, "a fault")
}

// The number of a fault, and its line if it has one.
fn denoted(fault: &BenchFault) -> (u8, u32) {
    match fault {
        BenchFault::BadLine(line) => (1, *line),
        BenchFault::UnknownKind(line) => (2, *line),
        BenchFault::WrongInputs(line) => (3, *line),
        BenchFault::SignalTwice(line) => (4, *line),
        BenchFault::TooLarge(line, _) => (5, *line),
        BenchFault::Undefined(line) => (6, *line),
        BenchFault::CombLoop(_) => (7, 0),
        BenchFault::NoRegisters => (8, 0),
        BenchFault::NoMemory => (9, 0),
    }
}

fn expect_signal(
    rt: &impl Abort,
    circuit: &Circuit,
    number: usize,
    name: &str,
    kind: Kind,
    fan_in: &[u32],
) {
    let signal = circuit.signals.get(number).expect(rt, "a signal");
    expect_same(rt, signal.name.as_slice(), name.as_bytes(), &"signal.name");
    expect_same(rt, signal.kind, kind, &"signal.kind");
    expect_same(rt, signal.fan_in.as_slice(), fan_in, &"signal.fan_in");
}

#[test]
fn reads_gates_and_registers(rt: HostRuntime) {
    let text =
        "INPUT(x)\nc = DFF(g)\ng = NaNd(c, x, c) # twice\nOUTPUT(g)\nh=Buf(g)\nk = XOR ( h )";
    let circuit = circuit_of(&rt, rt.alloc(), text);
    expect_signal(&rt, &circuit, 0, "x", Kind::Input, &[]);
    expect_signal(&rt, &circuit, 1, "c", Kind::Dff, &[2]);
    expect_signal(&rt, &circuit, 2, "g", Kind::Nand, &[1, 0, 1]);
    expect_signal(&rt, &circuit, 3, "h", Kind::Buff, &[2]);
    expect_signal(&rt, &circuit, 4, "k", Kind::Xor, &[3]);
    expect_same(&rt, circuit.signals.len(), 5, &"circuit.signals.len");
    expect_same(
        &rt,
        circuit.registers.as_slice(),
        [1].as_slice(),
        &"circuit.registers",
    );
    expect_same(
        &rt,
        circuit.outputs.as_slice(),
        [2].as_slice(),
        &"circuit.outputs",
    );
}

fn expect_numbers(rt: &impl Abort, alloc: Global, text: &str, registers: &[u32], outputs: &[u32]) {
    let circuit = circuit_of(rt, alloc, text);
    expect_same(rt, circuit.registers.as_slice(), registers, &text);
    expect_same(rt, circuit.outputs.as_slice(), outputs, &text);
}

// A netlist, its registers and its outputs.
const NUMBERED: [(&str, &[u32], &[u32]); 5] = [
    ("a = DFF(a)", &[0], &[]),
    (
        "OUTPUT(a)\r\n# all\r\n\r\nINPUT(x)\r\na = DFF(x) # x\r\n",
        &[1],
        &[1],
    ),
    (
        "OUTPUT(b)\nOUTPUT(x)\nOUTPUT(b)\na = DFF(x)\nINPUT(x)\nb = DFF(a)\nOUTPUT(a)",
        &[0, 2],
        &[2, 1, 0],
    ),
    (
        "OUTPUT = DFF(INPUT)\nINPUT(INPUT)\nOUTPUT(OUTPUT)",
        &[0],
        &[0],
    ),
    // Names with brackets, slashes and dots, and in UTF-8.
    (
        "INPUT(\u{e9})\nn[3]/q.0 = DFF(\u{e9})\nOUTPUT(n[3]/q.0)#)",
        &[1],
        &[1],
    ),
];

#[test]
fn numbers_registers_and_outputs(rt: HostRuntime) {
    for (text, registers, outputs) in &NUMBERED {
        expect_numbers(&rt, rt.alloc(), text, registers, outputs);
    }
}

fn expect_fault(rt: &impl Abort, alloc: Global, text: &str, number: u8, line: u32) {
    let fault = fault_of(rt, alloc, text.as_bytes());
    expect_same(rt, denoted(&fault), (number, line), &text);
}

#[test]
fn names_the_first_fault(rt: HostRuntime) {
    for (text, number, line) in [
        // Nothing of the format, or more than a form.
        ("INPUT", 1, 1),
        ("INPUT()", 1, 1),
        ("INPUT(x y)", 1, 1),
        ("INPUT(x, y)", 1, 1),
        ("INPUT(x)\r\r\n", 1, 1),
        ("INPUT(x\u{7f})", 1, 1),
        ("INOUT(x)", 1, 1),
        ("a = b", 1, 1),
        ("a DFF(x)", 1, 1),
        ("INPUT(x)\na = DFF(x", 1, 2),
        ("x = FOO(a,)", 1, 1),
        ("g = BUF(x) y", 1, 1),
        ("a = DFF(a) = b", 1, 1),
        // A form is judged before its kind, and the kind before its inputs.
        ("x = FOO()", 2, 1),
        ("x = INPUT(y)", 2, 1),
        ("a = DFFX(a)", 2, 1),
        ("a = DFF(a)\nb = FOO(a)", 2, 2),
        ("a = DFF()", 3, 1),
        ("a = DFF(a, a)", 3, 1),
        ("a = DFF(a)\ng = AND()", 3, 2),
        // A second definition comes after a wrong number of inputs.
        ("a = DFF(a)\na = NOT(a)", 4, 2),
        ("a = DFF(a)\na = NOT(a, a)", 3, 2),
        ("INPUT(x)\n\nINPUT(x)", 4, 3),
        // Lines are judged before names are looked up.
        ("a = DFF(y)\nb = DFF(a)\ng = NOT(a, a)", 3, 3),
        ("a = DFF(a)\ng = NOT(y)\nh = NOT(h)", 6, 2),
        ("a = DFF(a)\nOUTPUT(q)", 6, 2),
        ("a = DFF(INPUT)\nINPUT = AND(y, z)", 6, 2),
        // No register comes before a ring of gates.
        ("", 8, 0),
        ("# nothing\n\n", 8, 0),
        ("INPUT(x)\nOUTPUT(x)", 8, 0),
        ("INPUT(x)\nh = NOT(h)", 8, 0),
        ("a = DFF(a)\nh = NOT(h)", 7, 0),
    ]
    .as_slice()
    {
        expect_fault(&rt, rt.alloc(), text, *number, *line);
    }
}

// Each ring from its lowest gate on: the next one reads the one before.
fn expect_ring(rt: &impl Abort, alloc: Global, text: &str, wanted: [&str; 3]) {
    let BenchFault::CombLoop(names) = fault_of(rt, alloc, text.as_bytes()) else {
        assert!(rt; false, "no ring at {text:?}");
        return;
    };
    for (place, wanted) in wanted.iter().enumerate() {
        let name = names
            .get(place)
            .map_or(b"".as_slice(), |name| name.as_slice());
        expect_same(rt, name, wanted.as_bytes(), &text);
    }
}

#[test]
fn names_a_ring_of_gates(rt: HostRuntime) {
    for (text, wanted) in [
        ("a = DFF(a)\nh = NOT(h)", ["h", "", ""]),
        (
            "INPUT(x)\na = DFF(x)\ng = AND(x, h)\nh = NOT(g)",
            ["g", "h", ""],
        ),
        // The ring is read by a gate that isn't on it, and reads another.
        (
            "a = DFF(f)\nf = NOT(p)\np = AND(q, e)\nq = OR(a, r)\nr = BUFF(p)\ne = NOT(a)",
            ["p", "r", "q"],
        ),
    ]
    .as_slice()
    {
        expect_ring(&rt, rt.alloc(), text, *wanted);
    }
}

// A first line that names so many bytes, and what stands after it.
fn long_name(rt: &impl Abort, alloc: Global, length: usize, suffix: &str) -> Vec<u8> {
    let mut text = made(rt, Vec::from_slice(alloc, b"INPUT("));
    made(
        rt,
        text.extend_from_slice(&made(rt, vec![in alloc; b'x'; length])),
    );
    made(rt, text.extend_from_slice(suffix.as_bytes()));
    text
}

fn with_long_name(rt: &impl Abort, alloc: Global, length: usize) -> Result<Circuit, BenchFault> {
    let text = long_name(rt, alloc, length, ")\na = DFF(a)");
    read(rt, alloc, &text)
}

// A gate whose kind is a word of so many bytes.
fn long_kind(rt: &impl Abort, alloc: Global, length: usize) -> Vec<u8> {
    let mut text = made(rt, Vec::from_slice(alloc, b"a = "));
    made(
        rt,
        text.extend_from_slice(&made(rt, vec![in alloc; b'K'; length])),
    );
    made(rt, text.extend_from_slice(b"(a)"));
    text
}

#[test]
fn counts_the_bytes_of_names(rt: HostRuntime) {
    let most = with_long_name(&rt, rt.alloc(), 255).expect(&rt, "a circuit");
    let name = &most.signals.get(0).expect(&rt, "a signal").name;
    expect_same(&rt, name.len(), 255, &"name.len");
    let more = with_long_name(&rt, rt.alloc(), 256).err();
    assert!(rt; matches!(more, Some(BenchFault::TooLarge(1, Which::Name))));
    // A word for a kind may be as long as it likes: it is no kind.
    let text = long_kind(&rt, rt.alloc(), 256);
    let fault = fault_of(&rt, rt.alloc(), &text);
    assert!(rt; matches!(fault, BenchFault::UnknownKind(1)));
}
