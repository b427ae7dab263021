//! What the files of several corners tell: a circuit, and the delays of each corner.

ghost use Rattle.std.specs.Prelude.{◌≡◌, ◌≤◌, ◌∷◌, ℕ, List, length, map, string_bytes, IfOk};
ghost use Rattle.cts_program.specs.Vocabulary.{IsLoop, corner_files, AreUnread, IsStep, TellCorners};
ghost use Rattle.failure_lines.specs.declared.file_kind.FileKind.TheVariants as kinds;

use crate::reading::document::read_document;
use crate::reading::documents::{CornerTable, Netlist};
use cts_base::Listed;
use cts_engine::hosted;
use cts_io::Inputs;
use cts_model::{Circuit, Tech};
use failure_lines::Failure;
use std::alloc::Global;

/// A circuit, and the delays of each corner.
#[derive(Drop)]
pub struct Corners {
    pub circuit: Circuit,
    pub techs: Listed<Tech>,
}

/// What the netlist in a file denotes, with the delay table of each corner in a file of its own.
/// Each table is judged as it is read.
pub fn read_corners<I: Inputs>(
    alloc: Global,
    inputs: &mut I,
    bench: &str,
    tables: &[String],
) -> Result<Corners, Failure>
    requires some { 1 ≤ length tables.now }
    requires few { length tables.now ≤ 16 }
    ensures step { IsStep (I.holds inputs.old) (I.holds inputs.new) (I.faults inputs.old)
        (I.faults inputs.new)
        (λ told. TellCorners (I.holds inputs.old)
        ((kinds.Bench, bench.now) ∷ corner_files 1 (map string_bytes tables.now)) told.circuit
        told.techs)
        (AreUnread (I.holds inputs.old) (I.faults inputs.old) (I.faults inputs.new)
        ((kinds.Bench, bench.now) ∷ corner_files 1 (map string_bytes tables.now))) result }
    ensures count { IfOk result (λ told. length told.techs ≡ length tables.now) }
    ensures acyclic { IfOk result (λ told.
        (loop : List ℕ) → IsLoop told.circuit.signals loop → ⊥) }
{
    let bare = read_document(alloc, inputs, Netlist, bench)?;
    let mut techs = Listed::new(alloc);
    for place in 0..tables.len() {
        let table = CornerTable {
            number: place as u32 + 1,
            circuit: &bare,
            techs: techs.as_slice(),
        };
        let tech = read_document(alloc, inputs, table, tables[place].as_str())?;
        techs.push(tech)?;
    }
    let delays = techs.as_slice();
    let circuit = hosted(alloc, bare, &delays[0])?;
    Ok(Corners { circuit, techs })
}
