//! Circuits and delay tables that the tests of several crates share.

use crate::same::made;
use bench_reader::read_bench;
use cts_model::{Circuit, Tech, used_kinds, with_host};
use delay_tables::read_tech;
use std::alloc::Global;
use std::process::Abort;

// The benchmark s27 of ISCAS'89: registers G5, G6 and G7.
pub(crate) const S27: &str = "INPUT(G0)\nINPUT(G1)\nINPUT(G2)\nINPUT(G3)\nOUTPUT(G17)
G5 = DFF(G10)\nG6 = DFF(G11)\nG7 = DFF(G13)\nG14 = NOT(G0)\nG17 = NOT(G11)\nG8 = AND(G14, G6)
G15 = OR(G12, G8)\nG16 = OR(G3, G8)\nG9 = NAND(G16, G15)\nG10 = NOR(G14, G11)
G11 = NOR(G5, G9)\nG12 = NOR(G1, G7)\nG13 = NOR(G2, G12)\n";

// What a table for s27 says of its gates.
pub(crate) const S27_GATES: &str = "[gate.NOT]\nleast = 1\ngreatest = 2
[gate.NAND]\nleast = 1\ngreatest = 2\n[gate.NOR]\nleast = 1\ngreatest = 2
[gate.AND]\nleast = 2\ngreatest = 3\n[gate.OR]\nleast = 2\ngreatest = 3\n";

// A gate that reads a register at once and through another gate.
pub(crate) const TWO_WAYS: &str = "INPUT(x)\nA = DFF(x)\nB = DFF(z)\np = NOT(A)\nz = OR(A, p)";

pub(crate) const TWO_WAYS_GATES: &str = "[gate.NOT]\nleast = 3\ngreatest = 4
[gate.OR]\nleast = 1\ngreatest = 2";

// Two registers in a ring, one of whose two ways has a gate.
pub(crate) const RING: &str = "A = DFF(m)\nB = DFF(A)\nm = BUFF(B)";

// A netlist with a path from its input to a register and one from the register to its output.
pub(crate) const TO_OUTPUT: &str = "INPUT(x)\nOUTPUT(g)\nA = DFF(x)\ng = NOT(A)";

// The circuit of a text, which is short enough for a file, with the host or without.
pub(crate) fn circuit_of(rt: &impl Abort, alloc: Global, text: &str, host: bool) -> Circuit {
    assert!(rt; text.len() <= 16_777_216);
    let circuit = made(rt, read_bench(alloc, text.as_bytes()));
    if host {
        made(rt, with_host(alloc, circuit))
    } else {
        circuit
    }
}

// The setup and the hold time and the least and the greatest delay of registers.
pub(crate) type Registers = (u32, u32, u32, u32);

// A table of registers, with the text of its other sections after them.
pub(crate) fn table_of(
    rt: &impl Abort,
    alloc: Global,
    circuit: &Circuit,
    registers: Registers,
    rest: &str,
) -> Tech {
    let (setup, hold, least, greatest) = registers;
    let text = made(
        rt,
        format!(in alloc;
            "[wire]\ndelay = \"1/1\"\n[source]\nplace = \"CLK\"\n[register]\nsetup = {setup}
hold = {hold}\nleast = {least}\ngreatest = {greatest}\n{rest}"
        ),
    );
    made(rt, read_tech(alloc, text.as_bytes(), &used_kinds(circuit)))
}

// A gate that reads 1,024 registers, and so many registers that capture it.
pub(crate) fn wide(rt: &impl Abort, alloc: Global, capturing: u32) -> String {
    let mut text = made(rt, format!(in alloc; "g = OR(r0"));
    for register in 1..1024u32 {
        made(
            rt,
            text.push_str(made(rt, format!(in alloc; ", r{register}")).as_str()),
        );
    }
    made(rt, text.push_str(")\n"));
    for register in 0..capturing {
        made(
            rt,
            text.push_str(made(rt, format!(in alloc; "r{register} = DFF(g)\n")).as_str()),
        );
    }
    text
}
