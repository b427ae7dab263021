use crate::same::{expect_same, made};
use bench_reader::read_bench;
use cts_model::{Circuit, Merge, Topology, with_host};
use std::alloc::Global;
use std::process::Abort;
use topology_file::{TopologyFault, read_topology};

// Three registers and nothing else.
const THREE: &str = "G5 = DFF(G6)\nG6 = DFF(G7)\nG7 = DFF(G5)\n";

// One register.
const ONE: &str = "INPUT(x)\na = DFF(x)\n";

fn join(first: u32, second: u32) -> Merge {
    Merge { first, second }
}

// What a topology file denotes of the registers of a circuit.
fn read_for(
    rt: &impl Abort,
    alloc: Global,
    circuit: &Circuit,
    text: &str,
) -> Result<Topology, TopologyFault> {
    assert!(rt; text.len() <= 16_777_216);
    read_topology(alloc, text.as_bytes(), circuit)
}

// The same for those of a netlist.
fn read(
    rt: &impl Abort,
    alloc: Global,
    netlist: &str,
    text: &str,
) -> Result<Topology, TopologyFault> {
    assert!(rt; netlist.len() <= 16_777_216);
    let circuit = made(rt, read_bench(alloc, netlist.as_bytes()));
    read_for(rt, alloc, &circuit, text)
}

fn expect_merges(rt: &impl Abort, alloc: Global, netlist: &str, text: &str, merges: &[Merge]) {
    let topology = made(rt, read(rt, alloc, netlist, text));
    expect_same(rt, topology.merges.as_slice(), merges, &text);
}

#[test]
fn reads_topologies(rt: HostRuntime) {
    for (text, wanted) in [
        ("3 1 0\n4 2 3\n", [join(0, 1), join(2, 3)]),
        ("3 0 1\n4 3 2", [join(0, 1), join(2, 3)]),
        ("3 2 0\n4 1 3\n", [join(0, 2), join(1, 3)]),
        // Blanks, comments and blank lines, before, between and after.
        (
            "# first\r\n\t3\t1  2# and\r\n\n \t\r\n4 3 0 \r\n# last",
            [join(1, 2), join(0, 3)],
        ),
    ]
    .as_slice()
    {
        expect_merges(&rt, rt.alloc(), THREE, text, wanted.as_slice());
    }
}

fn expect_fault(rt: &impl Abort, alloc: Global, netlist: &str, text: &str, fault: TopologyFault) {
    let refused = read(rt, alloc, netlist, text).err();
    expect_same(rt, refused, Some(fault), &text);
}

// A text for three registers, and its fault.
const FAULTS: [(&str, TopologyFault); 23] = [
    // No three whole numbers without a sign.
    ("3 0", TopologyFault::BadLine(1)),
    ("3 0 1 2", TopologyFault::BadLine(1)),
    ("3 0 one", TopologyFault::BadLine(1)),
    ("3 0 01", TopologyFault::BadLine(1)),
    ("3 -0 1", TopologyFault::BadLine(1)),
    ("3 0 -1", TopologyFault::BadLine(1)),
    ("3 +0 1", TopologyFault::BadLine(1)),
    ("3 0 1/1", TopologyFault::BadLine(1)),
    // A carriage return that isn't part of a line's end is a byte of its word.
    ("3 0 1\r \n4 2 3", TopologyFault::BadLine(1)),
    // Another node than the one due.
    ("5 0 1", TopologyFault::BadLine(1)),
    ("03 0 1", TopologyFault::BadLine(1)),
    ("3 0 1\n\n3 2 3", TopologyFault::BadLine(3)),
    ("4294967299 0 1", TopologyFault::BadLine(1)),
    (
        "1000000000000000000000000000000000000000 0 1",
        TopologyFault::BadLine(1),
    ),
    // The form and the node that is due are judged before the nodes that are joined.
    ("4 1 1", TopologyFault::BadLine(1)),
    // A node that isn't made yet, however long its number is.
    ("3 0 3", TopologyFault::NotOpen(1)),
    ("3 4 0", TopologyFault::NotOpen(1)),
    ("3 0 4294967297", TopologyFault::NotOpen(1)),
    (
        "3 1000000000000000000000000000000000000000 1",
        TopologyFault::NotOpen(1),
    ),
    (
        "3 1000000000000000000000000000000000000000 1000000000000000000000000000000000000000",
        TopologyFault::NotOpen(1),
    ),
    // A node with itself, and one that is joined already.
    ("3 1 1", TopologyFault::NotOpen(1)),
    ("3 0 1\n4 0 2", TopologyFault::NotOpen(2)),
    ("3 0 1\n# then\n4 2 1\nx", TopologyFault::NotOpen(3)),
];

#[test]
fn refuses_the_first_faulty_line(rt: HostRuntime) {
    for (text, fault) in &FAULTS {
        expect_fault(&rt, rt.alloc(), THREE, text, *fault);
    }
}

// A netlist, a text that has too few lines or too many for it, and its fault.
const COUNTS: [(&str, &str, TopologyFault); 11] = [
    // Blank lines and comments count.
    (THREE, "", TopologyFault::Missing(1)),
    (THREE, "\n# none", TopologyFault::Missing(3)),
    (THREE, "3 0 1", TopologyFault::Missing(2)),
    (THREE, "3 0 1\n", TopologyFault::Missing(2)),
    (THREE, "3 0 1\n\n#", TopologyFault::Missing(4)),
    // That a line is one too many is judged before its form.
    (THREE, "3 0 1\n4 2 3\n5 4 2", TopologyFault::Extra(3)),
    (THREE, "3 0 1\n4 2 3\n\nmore", TopologyFault::Extra(4)),
    (
        THREE,
        "3 0 1\n4 2 3\n3 0 1 # again",
        TopologyFault::Extra(3),
    ),
    (ONE, "x", TopologyFault::Extra(1)),
    (ONE, "1 0 0", TopologyFault::Extra(1)),
    (ONE, "\n#\n1 0 0", TopologyFault::Extra(3)),
];

#[test]
fn ends_where_all_are_joined(rt: HostRuntime) {
    for (netlist, text, fault) in &COUNTS {
        expect_fault(&rt, rt.alloc(), netlist, text, *fault);
    }
    for text in ["", "\n", " \t\r\n# none\n"].as_slice() {
        expect_merges(&rt, rt.alloc(), ONE, text, &[]);
    }
}

// What a topology file denotes of three registers and the host.
fn read_hosted(rt: &impl Abort, alloc: Global, text: &str) -> Result<Topology, TopologyFault> {
    let circuit = made(rt, read_bench(alloc, THREE.as_bytes()));
    let circuit = made(rt, with_host(alloc, circuit));
    read_for(rt, alloc, &circuit, text)
}

#[test]
fn joins_the_host_too(rt: HostRuntime) {
    let topology = made(&rt, read_hosted(&rt, rt.alloc(), "4 3 0\n5 4 1\n6 5 2"));
    let wanted = [join(0, 3), join(1, 4), join(2, 5)];
    expect_same(
        &rt,
        topology.merges.as_slice(),
        wanted.as_slice(),
        &"merges",
    );
    let refused = read_hosted(&rt, rt.alloc(), "3 0 1").err();
    expect_same(&rt, refused, Some(TopologyFault::BadLine(1)), &"refused");
}
