//! What each command answers that reads files: they are read in their order, and what they tell is
//! answered. It fails for the first file that can't be read or is refused, for what the files tell
//! together, or for want of memory.

ghost use Rattle.std.specs.Prelude.{◌≡◌, ◌≤◌, true, length};
ghost use Rattle.command_line.specs.declared.command.Command.TheVariants as commands;
ghost use Rattle.cts_program.specs.Vocabulary.{is_period, request_of, IsServed};

use crate::answers::{corners, embed, margin, period, schedule, synth, zero};
use crate::check::check;
use crate::moves::moves;
use crate::reading::{
    MovesOf, Netlist, ReportOf, TopologyOf, read_circuit, read_corners, read_document, read_problem,
};
use answer_texts::Answer;
use cts_engine::Denoted;
use cts_io::Inputs;
use cts_model::Tech;
use failure_lines::Failure;
use std::alloc::Global;

/// What `zero` answers, with the delay table in a file or the built-in one.
pub fn zero_command<I: Inputs>(
    alloc: Global,
    inputs: &mut I,
    bench: &str,
    tech: Option<&str>,
) -> Result<Answer, Failure>
    ensures { IsServed (I.holds inputs.old) (I.holds inputs.new) (I.faults inputs.old)
        (I.faults inputs.new) (request_of (commands.Zero bench.entry tech.entry)) result }
{
    match tech {
        None => {
            let circuit = read_document(alloc, inputs, Netlist, bench)?;
            let tech = Tech::plain(alloc);
            zero(alloc, &Denoted { circuit, tech })
        }
        Some(tech) => zero(alloc, &read_circuit(alloc, inputs, bench, tech)?),
    }
}

/// What `period` answers.
pub fn period_command<I: Inputs>(
    alloc: Global,
    inputs: &mut I,
    bench: &str,
    tech: &str,
) -> Result<Answer, Failure>
    ensures { IsServed (I.holds inputs.old) (I.holds inputs.new) (I.faults inputs.old)
        (I.faults inputs.new) (request_of (commands.Period bench.entry tech.entry)) result }
{
    period(alloc, &read_circuit(alloc, inputs, bench, tech)?)
}

/// What `schedule` answers.
pub fn schedule_command<I: Inputs>(
    alloc: Global,
    inputs: &mut I,
    bench: &str,
    tech: &str,
) -> Result<Answer, Failure>
    ensures { IsServed (I.holds inputs.old) (I.holds inputs.new) (I.faults inputs.old)
        (I.faults inputs.new) (request_of (commands.Schedule bench.entry tech.entry)) result }
{
    schedule(alloc, &read_circuit(alloc, inputs, bench, tech)?)
}

/// What `margin` answers at this period.
pub fn margin_command<I: Inputs>(
    alloc: Global,
    inputs: &mut I,
    bench: &str,
    tech: &str,
    period: &str,
) -> Result<Answer, Failure>
    requires { is_period period.now ≡ true }
    ensures { IsServed (I.holds inputs.old) (I.holds inputs.new) (I.faults inputs.old)
        (I.faults inputs.new) (request_of (commands.Margin bench.entry tech.entry period.entry))
        result }
{
    margin(alloc, &read_circuit(alloc, inputs, bench, tech)?, period)
}

/// What `synth` answers.
pub fn synth_command<I: Inputs>(
    alloc: Global,
    inputs: &mut I,
    bench: &str,
    tech: &str,
    pl: &str,
) -> Result<Answer, Failure>
    ensures { IsServed (I.holds inputs.old) (I.holds inputs.new) (I.faults inputs.old)
        (I.faults inputs.new) (request_of (commands.Synth bench.entry tech.entry pl.entry)) result }
{
    synth(alloc, &read_problem(alloc, inputs, bench, tech, pl)?)
}

/// What `check` answers to a report.
pub fn check_command<I: Inputs>(
    alloc: Global,
    inputs: &mut I,
    bench: &str,
    tech: &str,
    pl: &str,
    report: &str,
) -> Result<Answer, Failure>
    ensures { IsServed (I.holds inputs.old) (I.holds inputs.new) (I.faults inputs.old)
        (I.faults inputs.new) (request_of (commands.Check bench.entry tech.entry pl.entry
        report.entry)) result }
{
    let problem = read_problem(alloc, inputs, bench, tech, pl)?;
    let report = read_document(alloc, inputs, ReportOf { problem: &problem }, report)?;
    check(alloc, &problem, &report)
}

/// What `embed` answers for a topology.
pub fn embed_command<I: Inputs>(
    alloc: Global,
    inputs: &mut I,
    bench: &str,
    tech: &str,
    pl: &str,
    topology: &str,
) -> Result<Answer, Failure>
    ensures { IsServed (I.holds inputs.old) (I.holds inputs.new) (I.faults inputs.old)
        (I.faults inputs.new) (request_of (commands.Embed bench.entry tech.entry pl.entry
        topology.entry)) result }
{
    let problem = read_problem(alloc, inputs, bench, tech, pl)?;
    let topology = read_document(alloc, inputs, TopologyOf { problem: &problem }, topology)?;
    embed(alloc, &problem, &topology)
}

/// What `moves` answers for the moves in a file.
pub fn moves_command<I: Inputs>(
    alloc: Global,
    inputs: &mut I,
    bench: &str,
    tech: &str,
    pl: &str,
    file: &str,
) -> Result<Answer, Failure>
    ensures { IsServed (I.holds inputs.old) (I.holds inputs.new) (I.faults inputs.old)
        (I.faults inputs.new) (request_of (commands.Moves bench.entry tech.entry pl.entry
        file.entry)) result }
{
    let problem = read_problem(alloc, inputs, bench, tech, pl)?;
    let list = read_document(alloc, inputs, MovesOf { problem: &problem }, file)?;
    moves(alloc, &problem, &list)
}

/// What `corners` answers for these delay tables.
pub fn corners_command<I: Inputs>(
    alloc: Global,
    inputs: &mut I,
    bench: &str,
    tables: &[String],
) -> Result<Answer, Failure>
    requires some { 1 ≤ length tables.now }
    requires few { length tables.now ≤ 16 }
    ensures { IsServed (I.holds inputs.old) (I.holds inputs.new) (I.faults inputs.old)
        (I.faults inputs.new) (request_of (commands.Corners bench.entry tables.entry)) result }
{
    corners(alloc, &read_corners(alloc, inputs, bench, tables)?)
}
