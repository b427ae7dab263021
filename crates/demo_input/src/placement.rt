//! The lines of the placement.

ghost use Rattle.std.specs.Prelude.{◌≡◌, ◌≤◌, ◌<◌, ◌++◌, length, IfOk, OnOk};
ghost use Rattle.demo_input.specs.Lines.{ended, lines_for_each, ended_lines};
ghost use Rattle.demo_input.specs.PlacementLines.{place_line, placement_text};

use crate::name::{push_name, push_number};
use cts_base::{Listed, NoMemory};
use std::alloc::Global;

/// The text of the placement.
#[tactic(auto, unfolding(crate::specs::PlacementLines::placement_text))]
pub fn placement(alloc: Global, registers: u32, seed: u32) -> Result<Listed<u8>, NoMemory>
    requires few { registers ≤ 1000 }
    requires seed { seed < 1000 }
    ensures value { IfOk result (λ text. text ≡ placement_text registers seed) }
    ensures short { IfOk result (λ text. length text ≤ 100000) }
{
    let mut out = Vec::new(alloc);
    out.extend_from_slice(b"UCLA pl 1.0\n")?;
    push_places(&mut out, registers, seed)?;
    out.extend_from_slice(b"CLK 500 500 : N /FIXED\n")?;
    Ok(Listed::from_vec(out))
}

// Appends the line of each register.
fn push_places(out: &mut Vec<u8>, registers: u32, seed: u32) -> Result<(), NoMemory>
    requires few { registers ≤ 1000 }
    requires seed { seed < 1000 }
    ensures { OnOk result (out.new.items ≡ out.old.items
        ++ ended_lines (lines_for_each (place_line seed) registers)) }
{
    for register in 0..registers {
        push_place(out, seed, register)?;
    }
    Ok(())
}

// Appends the line of a register.
fn push_place(out: &mut Vec<u8>, seed: u32, register: u32) -> Result<(), NoMemory>
    requires seed { seed < 1000 }
    requires few { register < 1000 }
    ensures { OnOk result (out.new.items ≡ out.old.items ++ ended (place_line seed register)) }
{
    push_name(out, b"r", register)?;
    out.push(b' ')?;
    push_number(out, (37 * register + 11 * seed) % 1000)?;
    out.push(b' ')?;
    push_number(out, (91 * register + 17 * seed) % 1000)?;
    out.extend_from_slice(b" : N\n")?;
    Ok(())
}
