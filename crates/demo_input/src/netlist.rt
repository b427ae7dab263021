//! The lines of the netlist.

ghost use Rattle.std.specs.Prelude.{◌≡◌, ◌≤◌, ◌<◌, ◌++◌, length, IfOk, OnOk};
ghost use Rattle.demo_input.specs.Lines.{ended, lines_for_each, ended_lines};
ghost use Rattle.demo_input.specs.NetlistLines.{buffer_line, first_gate_line, mixing_line, netlist_text, flip_flop_line, second_gate_line};

use crate::name::push_name;
use cts_base::{Listed, NoMemory};
use std::alloc::Global;

/// The text of the netlist.
#[tactic(auto, unfolding(crate::specs::NetlistLines::netlist_text))]
pub fn netlist(alloc: Global, registers: u32, seed: u32) -> Result<Listed<u8>, NoMemory>
    requires few { registers ≤ 1000 }
    requires seed { seed < 1000 }
    ensures value { IfOk result (λ text. text ≡ netlist_text registers seed) }
    ensures short { IfOk result (λ text. length text ≤ 100000) }
{
    let mut out = Vec::new(alloc);
    out.extend_from_slice(b"INPUT(x)\nOUTPUT(r0)\n")?;
    push_registers(&mut out, registers)?;
    push_first_gates(&mut out, registers, seed)?;
    push_second_gates(&mut out, registers)?;
    Ok(Listed::from_vec(out))
}

// Appends the line of each register.
fn push_registers(out: &mut Vec<u8>, registers: u32) -> Result<(), NoMemory>
    requires few { registers ≤ 1000 }
    ensures { OnOk result (out.new.items ≡ out.old.items
        ++ ended_lines (lines_for_each (flip_flop_line registers) registers)) }
{
    for register in 0..registers {
        push_register(out, registers, register)?;
    }
    Ok(())
}

// Appends the line of a register: it captures what the gates after the one before it give.
fn push_register(out: &mut Vec<u8>, registers: u32, register: u32) -> Result<(), NoMemory>
    requires few { registers ≤ 1000 }
    requires within { register < registers }
    ensures { OnOk result (out.new.items
        ≡ out.old.items ++ ended (flip_flop_line registers register)) }
{
    push_name(out, b"r", register)?;
    out.extend_from_slice(b" = DFF(")?;
    push_name(out, b"b", (register + registers - 1) % registers)?;
    out.extend_from_slice(b")\n")?;
    Ok(())
}

// Appends the line of each first gate.
fn push_first_gates(out: &mut Vec<u8>, registers: u32, seed: u32) -> Result<(), NoMemory>
    requires few { registers ≤ 1000 }
    requires seed { seed < 1000 }
    ensures { OnOk result (out.new.items ≡ out.old.items
        ++ ended_lines (lines_for_each (first_gate_line registers seed) registers)) }
{
    for register in 0..registers {
        push_first_gate(out, registers, seed, register)?;
    }
    Ok(())
}

// Appends the line of a register's first gate: it reads the register and one that the seed moves.
fn push_first_gate(
    out: &mut Vec<u8>,
    registers: u32,
    seed: u32,
    register: u32,
) -> Result<(), NoMemory>
    requires few { registers ≤ 1000 }
    requires seed { seed < 1000 }
    requires within { register < registers }
    ensures { OnOk result (out.new.items
        ≡ out.old.items ++ ended (first_gate_line registers seed register)) }
{
    push_name(out, b"a", register)?;
    out.extend_from_slice(b" = NAND(")?;
    push_name(out, b"r", register)?;
    out.extend_from_slice(b", ")?;
    push_name(out, b"r", (7 * register + seed) % registers)?;
    out.extend_from_slice(b")\n")?;
    Ok(())
}

// Appends the line of each second gate.
fn push_second_gates(out: &mut Vec<u8>, registers: u32) -> Result<(), NoMemory>
    ensures { OnOk result (out.new.items ≡ out.old.items
        ++ ended_lines (lines_for_each second_gate_line registers)) }
{
    for register in 0..registers {
        push_second_gate(out, register)?;
    }
    Ok(())
}

// Appends the line of a register's second gate: it reads the first.
fn push_second_gate(out: &mut Vec<u8>, register: u32) -> Result<(), NoMemory>
    ensures { OnOk result (out.new.items ≡ out.old.items ++ ended (second_gate_line register)) }
{
    match register % 4 {
        0 => push_mixing(out, b"XOR", register),
        1 => push_buffer(out, register),
        2 => push_mixing(out, b"OR", register),
        _ => push_mixing(out, b"AND", register),
    }
}

// Appends the line of a second gate that reads the primary input too.
fn push_mixing(out: &mut Vec<u8>, kind: &[u8], register: u32) -> Result<(), NoMemory>
    ensures { OnOk result (out.new.items ≡ out.old.items ++ ended (mixing_line kind.now register)) }
{
    push_name(out, b"b", register)?;
    out.extend_from_slice(b" = ")?;
    out.extend_from_slice(kind)?;
    out.push(b'(')?;
    push_name(out, b"a", register)?;
    out.extend_from_slice(b", x)\n")?;
    Ok(())
}

// Appends the line of a second gate that reads nothing else.
fn push_buffer(out: &mut Vec<u8>, register: u32) -> Result<(), NoMemory>
    ensures { OnOk result (out.new.items ≡ out.old.items ++ ended (buffer_line register)) }
{
    push_name(out, b"b", register)?;
    out.extend_from_slice(b" = BUFF(")?;
    push_name(out, b"a", register)?;
    out.extend_from_slice(b")\n")?;
    Ok(())
}
