//! What the files of a command tell: a circuit and its delays.

ghost use Rattle.cts_program.specs.Vocabulary.{circuit_files, AreRead, AreServed, AreUnread, IsStep, timed};
ghost use Rattle.std.specs.Prelude.{IfOk};

use crate::reading::document::read_document;
use crate::reading::documents::{DelayTable, Netlist};
use cts_engine::Denoted;
use cts_io::Inputs;
use failure_lines::Failure;
use std::alloc::Global;

/// What the netlist in a file denotes, with the delays in another.
pub fn read_circuit<I: Inputs>(
    alloc: Global,
    inputs: &mut I,
    bench: &str,
    tech: &str,
) -> Result<Denoted, Failure>
    ensures step { IsStep (I.holds inputs.old) (I.holds inputs.new) (I.faults inputs.old)
        (I.faults inputs.new)
        (λ denoted. AreRead (I.holds inputs.old) (circuit_files bench.now tech.now)
        (timed denoted.circuit denoted.tech))
        (AreUnread (I.holds inputs.old) (I.faults inputs.old) (I.faults inputs.new)
        (circuit_files bench.now tech.now)) result }
    ensures served { IfOk result (λ denoted. AreServed denoted.circuit denoted.tech) }
{
    let circuit = read_document(alloc, inputs, Netlist, bench)?;
    read_document(alloc, inputs, DelayTable { circuit }, tech)
}
