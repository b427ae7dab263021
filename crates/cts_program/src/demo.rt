//! The command `demo`: a problem made from two numbers, its clock tree, and that the report of the
//! tree is shown.

ghost use Rattle.std.specs.Prelude.{◌≡◌, ◌≤◌, ◌<◌, ◌↔◌, ℕ, true, IsTrue, [], IfOk, IfErr};
ghost use Rattle.cts_program.specs.Vocabulary.{JoinsMoreThan, IsOfSize, IsWithinBounds, IsShown, IsVerdict, Failure, BeginsLowest, IsOutcome, IsShownOutcome, ending_status, numeral_value, is_number_within, problem_kinds, IsAnswer, IsRefusal, IsDemoText, demo_texts, Tell, RefusesFirst, request_of, FailsCircuit, OrMemory, nothing, placed};
ghost use Rattle.command_line.specs.declared.command.Command.TheVariants as commands;

use crate::reading::{DelayTable, Document, Netlist, Placement};
use answer_texts::{Answer, summary_text};
use cert_check::Verdict;
use cts_base::NoMemory;
use cts_engine::{Outcome, synthesize};
use cts_model::{Problem, Report};
use demo_input::Demo;
use failure_lines::Failure;
use std::alloc::Global;

/// The summary of the demonstration with this number of registers and this seed.
pub fn demo(alloc: Global, registers: &str, seed: &str) -> Result<Answer, Failure>
    requires registers { is_number_within 2 1000 registers.now ≡ true }
    requires seed { is_number_within 0 999 seed.now ≡ true }
    ensures ok { IfOk result (λ answer. IsAnswer (request_of (commands.Demo registers.entry
        seed.entry)) []
        (ending_status answer.ending) answer.text.items) }
    ensures cause { IfErr result
        (OrMemory (IsRefusal (request_of (commands.Demo registers.entry seed.entry)) [])) }
{
    let registers = number(registers);
    let problem = demo_problem(alloc, registers, number(seed))?;
    problem_answer(alloc, registers, &problem)
}

// The number that these digits stand for.
fn number(digits: &str) -> u32
    requires { (least greatest : ℕ) × (is_number_within least greatest digits.now ≡ true) }
    ensures { result ≡ numeral_value digits.now }
{
    match digits.parse::<u32>() {
        Ok(number) => number,
        Err(_) => unreachable!(),
    }
}

// The problem of a demonstration: what its texts tell. They are refused as files that held them
// would be.
fn demo_problem(alloc: Global, registers: u32, seed: u32) -> Result<Problem, Failure>
    requires some { 2 ≤ registers }
    requires few { registers ≤ 1000 }
    requires seed { seed < 1000 }
    ensures ok { IfOk result (λ problem.
        Tell problem_kinds nothing (demo_texts registers seed) (placed problem)) }
    ensures cause { IfErr result
        (OrMemory (RefusesFirst problem_kinds nothing (demo_texts registers seed))) }
{
    let Demo { bench, tech, pl } = demo_input::demo(alloc, registers, seed)?;
    let circuit = Netlist.read(alloc, bench.as_slice())?;
    let denoted = DelayTable { circuit }.read(alloc, tech.as_slice())?;
    Placement { denoted }.read(alloc, pl.as_slice())
}

// The answer for a problem with this number of registers.
fn problem_answer(alloc: Global, registers: u32, problem: &Problem) -> Result<Answer, Failure>
    ensures few { IfOk result (λ _. JoinsMoreThan problem.now.circuit 1048576 → ⊥) }
    ensures text { IfOk result (λ answer. IsDemoText registers problem.now
        (ending_status answer.ending) answer.text.items) }
    ensures cause { IfErr result (FailsCircuit problem.now.circuit) }
{
    let outcome = synthesize(alloc, problem)?;
    summed_up(alloc, registers, problem, &outcome)
}

// The answer for what the problem comes to.
fn summed_up(
    alloc: Global,
    registers: u32,
    problem: &Problem,
    outcome: &Outcome,
) -> Result<Answer, Failure>
    requires outcome { IsOutcome problem.now outcome.now }
    requires shown { IsShownOutcome problem.now outcome.now }
    requires lowest { BeginsLowest outcome.now }
    ensures text { IfOk result (λ answer. IsDemoText registers problem.now
        (ending_status answer.ending) answer.text.items) }
    ensures memory { IfErr result (λ failure. failure ≡ Failure.NoMemory) }
{
    match outcome {
        Outcome::Done(report) => {
            if !is_shown(alloc, problem, report)? {
                unreachable!();
            }
            let text = summary_text(alloc, registers, report)?;
            Ok(Answer::done(text))
        }
        Outcome::Never(cycle) => Ok(Answer::never(alloc, &problem.circuit, cycle.as_slice())?),
    }
}

// Whether the checker shows a report.
fn is_shown(alloc: Global, problem: &Problem, report: &Report) -> Result<bool, NoMemory>
    requires size { IsOfSize problem.now.circuit report.now }
    requires bounds { IsWithinBounds problem.now.tech report.now }
    ensures checked { IfOk result (λ shown. IsTrue shown
        → IsVerdict problem.now report.now Verdict.Shown) }
    ensures shown { IfOk result (λ shown. IsTrue shown ↔ IsShown problem.now report.now) }
{
    match cert_check::check(alloc, problem, report)? {
        Verdict::Shown => Ok(true),
        Verdict::Not(_) => Ok(false),
    }
}
