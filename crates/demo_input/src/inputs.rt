ghost use Rattle.std.specs.Prelude.{◌≡◌, ◌≤◌, ◌<◌, length, IfOk};
ghost use Rattle.demo_input.specs.NetlistLines.{netlist_text};
ghost use Rattle.demo_input.specs.TableLines.{table_text};
ghost use Rattle.demo_input.specs.PlacementLines.{placement_text};

use crate::netlist::netlist;
use crate::placement::placement;
use crate::table::table;
use crate::texts::Demo;
use cts_base::NoMemory;
use std::alloc::Global;

/// An input to try the program on: a netlist with so many registers, a delay table in ticks, and a
/// placement in length units. The seed moves which registers the gates read and where the registers
/// stand; the table is always the same.
///
/// # Errors
///
/// `NoMemory` where memory is refused.
pub fn demo(alloc: Global, registers: u32, seed: u32) -> Result<Demo, NoMemory>
    requires some { 2 ≤ registers }
    requires few { registers ≤ 1000 }
    requires seed { seed < 1000 }
    ensures bench { IfOk result (λ demo. demo.bench ≡ netlist_text registers seed) }
    ensures tech { IfOk result (λ demo. demo.tech ≡ table_text) }
    ensures pl { IfOk result (λ demo. demo.pl ≡ placement_text registers seed) }
    ensures short { IfOk result (λ demo. (length demo.bench ≤ 100000)
        × (length demo.tech ≤ 100000) × (length demo.pl ≤ 100000)) }
{
    let bench = netlist(alloc, registers, seed)?;
    let tech = table(alloc)?;
    let pl = placement(alloc, registers, seed)?;
    Ok(Demo { bench, tech, pl })
}
