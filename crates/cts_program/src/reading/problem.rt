//! What the files of a command tell: a problem.

ghost use Rattle.cts_program.specs.Vocabulary.{problem_files, AreRead, AreUnread, IsStep, placed};

use crate::reading::circuit::read_circuit;
use crate::reading::document::read_document;
use crate::reading::documents::Placement;
use cts_io::Inputs;
use cts_model::Problem;
use failure_lines::Failure;
use std::alloc::Global;

/// What the netlist in a file denotes, with the delays in another and the places in a third.
pub fn read_problem<I: Inputs>(
    alloc: Global,
    inputs: &mut I,
    bench: &str,
    tech: &str,
    pl: &str,
) -> Result<Problem, Failure>
    ensures { IsStep (I.holds inputs.old) (I.holds inputs.new) (I.faults inputs.old)
        (I.faults inputs.new)
        (λ problem. AreRead (I.holds inputs.old) (problem_files bench.now tech.now pl.now)
        (placed problem))
        (AreUnread (I.holds inputs.old) (I.faults inputs.old) (I.faults inputs.new)
        (problem_files bench.now tech.now pl.now)) result }
{
    let denoted = read_circuit(alloc, inputs, bench, tech)?;
    read_document(alloc, inputs, Placement { denoted }, pl)
}
