//! Circuits with their delay tables, and reports of their trees.

use bench_reader::read_bench;
use cts_model::{Circuit, Tech, used_kinds};
use delay_tables::read_tech;
use std::alloc::{AllocError, Global};
use std::process::Abort;

/// A netlist, a delay table, and a report of a tree in version 2.
#[derive(Clone, Copy)]
pub(crate) struct Case {
    pub(crate) bench: &'static str,
    pub(crate) tech: &'static str,
    pub(crate) report: &'static str,
}

/// The benchmark circuit s27, whose slowest path has a register at both ends.
pub(crate) const S27: Case = Case {
    bench: "INPUT(G0)\nINPUT(G1)\nINPUT(G2)\nINPUT(G3)\nOUTPUT(G17)
G5 = DFF(G10)\nG6 = DFF(G11)\nG7 = DFF(G13)\nG14 = NOT(G0)\nG17 = NOT(G11)\nG8 = AND(G14, G6)
G15 = OR(G12, G8)\nG16 = OR(G3, G8)\nG9 = NAND(G16, G15)\nG10 = NOR(G14, G11)
G11 = NOR(G5, G9)\nG12 = NOR(G1, G7)\nG13 = NOR(G2, G12)\n",
    tech: "[wire]\ndelay = \"1/1\"\n[source]\nplace = \"CLK\"\n[register]
setup = 1\nhold = 1\nleast = 1\ngreatest = 2\n[gate.NOT]\nleast = 1\ngreatest = 2
[gate.NAND]\nleast = 1\ngreatest = 2\n[gate.NOR]\nleast = 1\ngreatest = 2\n[gate.AND]
least = 2\ngreatest = 3\n[gate.OR]\nleast = 2\ngreatest = 3\n",
    report: "cts 2\nperiod 13\ncycle 1\nsetup G6 G6 13\npath 5 G6 G8 G16 G9 G11\nregisters 3
G5 2 0 2\nG6 0 0 3\nG7 0 6 2\nlead 1 setup G6 G5 15\nlead 0\nlead 0\nmerges 2
3 0 1 2 pair G5 G6\n4 2 3 4 pair G5 G7\nsource 15 sink G7\nnodes 5\n0 0 0 4 2 4 0 0 0
1 4 2 2 2 4 0 4 2\n2 10 0 4 2 6 0 10 0\n3 4 0 2 2 6 0 4 0\n4 6 0 11 3 5 10 6 10 6 0
wire 23\n",
};

/// Two paths of 7 and 4 ticks between two registers: the period isn't whole, and a wire has a
/// detour.
pub(crate) const LOPSIDED: Case = Case {
    bench: "A = DFF(m)\nB = DFF(n)\nn = NOT(A)\nm = BUFF(B)\n",
    tech: "[wire]\ndelay = \"1/1\"\n[source]\nplace = \"CLK\"\n[register]\nsetup = 0\nhold = 0
least = 0\ngreatest = 0\n[gate.NOT]\nleast = 7\ngreatest = 7\n[gate.BUFF]\nleast = 4
greatest = 4\n",
    report: "cts 2\nperiod 11/2\ncycle 2\nsetup A B 7\npath 2 A n\nsetup B A 4\npath 2 B m
registers 2\nA 0 0 11/2\nB 3/2 0 11/2\nlead 0\nlead 1 setup A B 7\nmerges 1\n2 0 1 0 pair A A
source 0 root\nnodes 3\n0 0 0 0 1 0 0\n1 1 0 3/2 4 0 0 0 1/4 1 1/4 1 0\n2 0 0 0 1 0 0
wire 3/2\n",
};

/// Two registers that no path joins.
pub(crate) const PAIR: Case = Case {
    bench: "INPUT(x)\nA = DFF(x)\nB = DFF(x)\n",
    tech: "[wire]\ndelay = \"1/1\"\n[source]\nplace = \"CLK\"\n[register]\nsetup = 0\nhold = 0
least = 0\ngreatest = 0\n",
    report: "cts 2\nperiod 0\nfloor\nregisters 2\nA 0 - -\nB 0 - -\nlead 0\nlead 0\nmerges 1
2 0 1 3/2 pair A B\nsource 3 sink B\nnodes 3\n0 0 0 3/2 3 3/4 3/4 0 3/4 0 0
1 2 1 3/2 3 3/4 3/4 2 3/4 2 1\n2 3/4 3/4 3/2 3 0 0 3/4 0 3/4 3/4\nwire 9/2\n",
};

/// One register without a path, where the table has the floor 5.
pub(crate) const LONE: Case = Case {
    bench: "INPUT(x)\nA = DFF(x)\n",
    tech: "[wire]\ndelay = \"1/1\"\n[source]\nplace = \"CLK\"\n[register]\nsetup = 0\nhold = 0
least = 0\ngreatest = 0\n[period]\nfloor = 5\n",
    report: "cts 2\nperiod 5\nfloor\nregisters 1\nA 0 - -\nlead 0\nmerges 0\nsource 7 sink A
nodes 1\n0 3 4 7 3 0 0 3 0 3 4\nwire 7\n",
};

/// The circuit of a case, whose netlist is short enough for a file.
pub(crate) fn circuit_of(rt: &impl Abort, alloc: Global, case: &Case) -> Circuit {
    assert!(rt; case.bench.len() <= 16_777_216);
    read_bench(alloc, case.bench.as_bytes()).expect(rt, "a netlist")
}

/// The delay table of a case, for its circuit.
pub(crate) fn table_of(rt: &impl Abort, alloc: Global, case: &Case, circuit: &Circuit) -> Tech {
    read_tech(alloc, case.tech.as_bytes(), &used_kinds(circuit)).expect(rt, "a table")
}

/// A report of version 2 in version 1, which has neither paths nor leads.
pub(crate) fn first_version(alloc: Global, report: &str) -> Result<String, AllocError> {
    let mut first = String::from_str(alloc, "cts 1\n")?;
    for line in report.lines().skip(1) {
        if !line.starts_with("path ") && !line.starts_with("lead ") {
            first.push_str(line)?;
            first.push_str("\n")?;
        }
    }
    Ok(first)
}
