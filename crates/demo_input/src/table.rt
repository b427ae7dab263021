//! The delay table.

ghost use Rattle.std.specs.Prelude.{◌≡◌, ◌≤◌, length, IfOk};
ghost use Rattle.demo_input.specs.TableLines.{table_text};

use cts_base::{Listed, NoMemory};
use std::alloc::Global;

/// The text of the delay table.
#[tactic(auto, unfolding(crate::specs::TableLines::table_text))]
pub fn table(alloc: Global) -> Result<Listed<u8>, NoMemory>
    ensures value { IfOk result (λ text. text ≡ table_text) }
    ensures short { IfOk result (λ text. length text ≤ 100000) }
{
    let text = b"[wire]\ndelay = \"1/10\"\n[source]\nplace = \"CLK\"\n\
[register]\nsetup = 1\nhold = 1\nleast = 1\ngreatest = 2\n\
[gate.NAND]\nleast = 2\ngreatest = 4\n[gate.XOR]\nleast = 3\ngreatest = 9\n\
[gate.BUFF]\nleast = 1\ngreatest = 2\n[gate.OR]\nleast = 2\ngreatest = 4\n\
[gate.AND]\nleast = 1\ngreatest = 3\n";
    Ok(Listed::from_vec(Vec::from_slice(alloc, text)?))
}
