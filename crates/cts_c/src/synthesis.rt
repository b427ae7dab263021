//! `cts_synth`: the clock tree of a problem.

ghost use Rattle.std.specs.Prelude.{◌≡◌, ◌≢◌, ℕ, List, IfOk, IfErr};
ghost use Rattle.cts_c.specs.Vocabulary.{Problem, JoinsMoreThan, TellAll, IsHanded, IsTooLarge, IsNone, AreAllShort, RefusesTree, FailsFor, IsEnding, IsFailure, IsStatus, ending_status, IsAnswered, IsSynthText, IsTreeAnswer};

use crate::answer::hand_over;
use crate::failure::Failure;
use crate::texts::problem_of;
use answer_texts::{Answer, tree_answer};
use cts_engine::synthesize;
use cts_model::Problem;
use std::alloc::Global;

/// Writes what `cts synth` prints for a netlist, a delay table and a placement to the beginning of
/// `out`, and how many bytes it is to `size`. Gives the program's exit status.
#[unsafe(no_mangle)]
pub extern "C" fn cts_synth(
    alloc: Global,
    bench: &[u8],
    tech: &[u8],
    pl: &[u8],
    out: &mut [u8],
    size: &mut usize,
) -> u32
    // 0 and 1: the text of a clock tree, or of a cycle that forbids every period.
    ensures done { IsEnding result → (text : List ℕ)
        × IsTreeAnswer bench.now tech.now pl.now result text
        × IsHanded text out.old out.new size.new }

    // 5: the buffer is too small for the text, whose size is told.
    ensures small { result ≡ 5 → (text : List ℕ) × ((status : ℕ)
        × IsTreeAnswer bench.now tech.now pl.now status text
        × IsTooLarge text out.old out.new size.new) }

    // 3: exactly where a text is too long or has a fault, or paths join too many pairs of
    // registers, unless memory is refused, which is 6.
    ensures refused { result ≡ 3 → RefusesTree bench.now tech.now pl.now }
    ensures accepted { (problem : Problem) → AreAllShort bench.now tech.now pl.now
        → TellAll bench.now tech.now pl.now problem → (JoinsMoreThan problem.circuit 1048576 → ⊥)
        → result ≢ 3 }
    ensures long { (AreAllShort bench.now tech.now pl.now → ⊥) → IsFailure result }
    ensures none { IsFailure result → IsNone out.old out.new size.new }
    ensures statuses { IsStatus result }
{
    match answer_for(alloc, bench, tech, pl) {
        Ok(answer) => hand_over(&answer, out, size),
        Err(failure) => {
            *size = 0;
            failure.status()
        }
    }
}

// What is answered for three texts.
fn answer_for(alloc: Global, bench: &[u8], tech: &[u8], pl: &[u8]) -> Result<Answer, Failure>
    ensures short { IfOk result (λ _. AreAllShort bench.now tech.now pl.now) }
    ensures text { IfOk result (λ answer. IsTreeAnswer bench.now tech.now pl.now
        (ending_status answer.ending) answer.text.items) }
    ensures cause { IfErr result (FailsFor (RefusesTree bench.now tech.now pl.now)) }
    ensures accepted { (problem : Problem) → AreAllShort bench.now tech.now pl.now
        → TellAll bench.now tech.now pl.now problem → (JoinsMoreThan problem.circuit 1048576 → ⊥)
        → IfErr result (λ failure. failure ≡ Failure.NoMemory) }
{
    let problem = problem_of(alloc, bench, tech, pl)?;
    problem_answer(alloc, &problem)
}

// What is answered for a problem.
fn problem_answer(alloc: Global, problem: &Problem) -> Result<Answer, Failure>
    ensures answered { IfOk result (λ answer.
        IsAnswered problem.now.circuit problem.now.tech (ending_status answer.ending)) }
    ensures text { IfOk result (λ answer.
        IsSynthText problem.now (ending_status answer.ending) answer.text.items) }
    ensures cause { IfErr result (FailsFor (JoinsMoreThan problem.now.circuit 1048576)) }
{
    let outcome = synthesize(alloc, problem)?;
    let answer = tree_answer(alloc, problem, &outcome)?;
    Ok(answer)
}
