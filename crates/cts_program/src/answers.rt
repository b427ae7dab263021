//! What each command answers on the circuit or the problem that its files tell. It fails where
//! paths join too many pairs of registers, or for want of memory.

ghost use Rattle.std.specs.Prelude.{◌≡◌, ◌≤◌, ℕ, List, true, length, IfOk, IfErr};
ghost use Rattle.cts_program.specs.Vocabulary.{fraction_text, IsLoop, JoinsMoreThan, IsMarginPeriod, IsTopology, is_period, IsCornersText, ending_status, IsMarginText, IsPeriodText, IsScheduleText, IsSynthText, IsEmbedText, IsZeroText, FailsCircuit};

use crate::reading::Corners;
use answer_texts::{
    Answer, corners_answer, margin_text, period_answer, schedule_answer, tree_answer, zero_text,
};
use corners::corners_of;
use cts_base::{Fraction, read_fraction};
use cts_engine::{
    Denoted, margin_of, period_of, schedule_of, synthesize, synthesize_with, zero_of,
};
use cts_model::{Problem, Topology};
use failure_lines::Failure;
use std::alloc::Global;

/// The least period of a circuit at equal arrivals.
pub fn zero(alloc: Global, denoted: &Denoted) -> Result<Answer, Failure>
    requires { (loop : List ℕ) → IsLoop denoted.now.circuit.signals loop → ⊥ }
    ensures few { IfOk result (λ _. JoinsMoreThan denoted.now.circuit 1048576 → ⊥) }
    ensures text { IfOk result (λ answer. (ending_status answer.ending ≡ 0)
        × IsZeroText denoted.now.circuit denoted.now.tech answer.text.items) }
    ensures cause { IfErr result (FailsCircuit denoted.now.circuit) }
{
    let outcome = zero_of(alloc, &denoted.circuit, &denoted.tech)?;
    let text = zero_text(alloc, &denoted.circuit, &denoted.tech, &outcome)?;
    Ok(Answer::done(text))
}

/// The least period of a circuit, whenever the clock reaches each register.
pub fn period(alloc: Global, denoted: &Denoted) -> Result<Answer, Failure>
    requires { (loop : List ℕ) → IsLoop denoted.now.circuit.signals loop → ⊥ }
    ensures few { IfOk result (λ _. JoinsMoreThan denoted.now.circuit 1048576 → ⊥) }
    ensures text { IfOk result (λ answer. IsPeriodText denoted.now.circuit denoted.now.tech
        (ending_status answer.ending) answer.text.items) }
    ensures cause { IfErr result (FailsCircuit denoted.now.circuit) }
{
    let outcome = period_of(alloc, &denoted.circuit, &denoted.tech)?;
    let answer = period_answer(alloc, &denoted.circuit, &outcome)?;
    Ok(answer)
}

/// The least schedule of a circuit at its least period.
pub fn schedule(alloc: Global, denoted: &Denoted) -> Result<Answer, Failure>
    requires { (loop : List ℕ) → IsLoop denoted.now.circuit.signals loop → ⊥ }
    ensures few { IfOk result (λ _. JoinsMoreThan denoted.now.circuit 1048576 → ⊥) }
    ensures text { IfOk result (λ answer. IsScheduleText denoted.now.circuit denoted.now.tech
        (ending_status answer.ending) answer.text.items) }
    ensures cause { IfErr result (FailsCircuit denoted.now.circuit) }
{
    let outcome = schedule_of(alloc, &denoted.circuit, &denoted.tech)?;
    let answer = schedule_answer(alloc, &denoted.circuit, &outcome)?;
    Ok(answer)
}

/// The greatest margin of a circuit at the period that the word spells.
pub fn margin(alloc: Global, denoted: &Denoted, period: &str) -> Result<Answer, Failure>
    requires acyclic { (loop : List ℕ) → IsLoop denoted.now.circuit.signals loop → ⊥ }
    requires period { is_period period.now ≡ true }
    ensures few { IfOk result (λ _. JoinsMoreThan denoted.now.circuit 1048576 → ⊥) }
    ensures text { IfOk result (λ answer. (ending_status answer.ending ≡ 0)
        × IsMarginText denoted.now.circuit denoted.now.tech period.now answer.text.items) }
    ensures cause { IfErr result (FailsCircuit denoted.now.circuit) }
{
    let period = fraction(period);
    let outcome = margin_of(alloc, &denoted.circuit, &denoted.tech, period)?;
    let text = margin_text(alloc, &denoted.circuit, period, &outcome)?;
    Ok(Answer::done(text))
}

// The fraction that such a word spells.
fn fraction(word: &str) -> Fraction
    requires { is_period word.now ≡ true }
    ensures spelled { word.now ≡ fraction_text result.num result.den }
    ensures within { IsMarginPeriod result }
{
    match read_fraction(word.as_bytes()) {
        Ok(fraction) => fraction,
        Err(_) => unreachable!(),
    }
}

/// The clock tree of a problem.
pub fn synth(alloc: Global, problem: &Problem) -> Result<Answer, Failure>
    ensures few { IfOk result (λ _. JoinsMoreThan problem.now.circuit 1048576 → ⊥) }
    ensures text { IfOk result (λ answer.
        IsSynthText problem.now (ending_status answer.ending) answer.text.items) }
    ensures cause { IfErr result (FailsCircuit problem.now.circuit) }
{
    let outcome = synthesize(alloc, problem)?;
    let answer = tree_answer(alloc, problem, &outcome)?;
    Ok(answer)
}

/// The clock tree of a problem by this topology.
pub fn embed(alloc: Global, problem: &Problem, topology: &Topology) -> Result<Answer, Failure>
    requires { IsTopology (length problem.now.circuit.registers) topology.now.merges }
    ensures few { IfOk result (λ _. JoinsMoreThan problem.now.circuit 1048576 → ⊥) }
    ensures text { IfOk result (λ answer. IsEmbedText problem.now topology.now
        (ending_status answer.ending) answer.text.items) }
    ensures cause { IfErr result (FailsCircuit problem.now.circuit) }
{
    let outcome = synthesize_with(alloc, problem, topology)?;
    let answer = tree_answer(alloc, problem, &outcome)?;
    Ok(answer)
}

/// The least period and the least schedule of a circuit that serve the delay tables of all corners.
pub fn corners(alloc: Global, told: &Corners) -> Result<Answer, Failure>
    requires acyclic { (loop : List ℕ) → IsLoop told.now.circuit.signals loop → ⊥ }
    requires some { 1 ≤ length told.now.techs }
    requires corners { length told.now.techs ≤ 16 }
    ensures few { IfOk result (λ _. JoinsMoreThan told.now.circuit 1048576 → ⊥) }
    ensures text { IfOk result (λ answer. IsCornersText told.now.circuit told.now.techs
        (ending_status answer.ending) answer.text.items) }
    ensures cause { IfErr result (FailsCircuit told.now.circuit) }
{
    let outcome = corners_of(alloc, &told.circuit, &told.techs)?;
    let answer = corners_answer(alloc, &told.circuit, &outcome)?;
    Ok(answer)
}
