//! `cts_schedule`: the least schedule of a circuit at its least period.

ghost use Rattle.std.specs.Prelude.{◌≡◌, ◌≢◌, ℕ, List, IfOk, IfErr};
ghost use Rattle.cts_c.specs.Vocabulary.{Circuit, Tech, IsLoop, JoinsMoreThan, TellBoth, IsHanded, IsTooLarge, IsNone, AreBothShort, RefusesSchedule, FailsFor, IsAnswered, IsScheduleAnswer, IsScheduleText, IsEnding, IsFailure, IsStatus, ending_status};

use crate::answer::hand_over;
use crate::failure::Failure;
use crate::texts::circuit_of;
use answer_texts::{Answer, schedule_answer};
use cts_engine::schedule_of;
use cts_model::{Circuit, Tech};
use std::alloc::Global;

/// Writes what `cts schedule` prints for a netlist and a delay table to the beginning of `out`, and
/// how many bytes it is to `size`. Gives the program's exit status.
#[unsafe(no_mangle)]
pub extern "C" fn cts_schedule(
    alloc: Global,
    bench: &[u8],
    tech: &[u8],
    out: &mut [u8],
    size: &mut usize,
) -> u32
    // 0 and 1: the text of the least schedule, or of a cycle that forbids every period.
    ensures done { IsEnding result → (text : List ℕ)
        × IsScheduleAnswer bench.now tech.now result text
        × IsHanded text out.old out.new size.new }

    // 5: the buffer is too small for the text, whose size is told.
    ensures small { result ≡ 5 → (text : List ℕ) × ((status : ℕ)
        × IsScheduleAnswer bench.now tech.now status text
        × IsTooLarge text out.old out.new size.new) }

    // 3: exactly where a text is too long or has a fault, or paths join too many pairs of
    // registers, unless memory is refused, which is 6.
    ensures refused { result ≡ 3 → RefusesSchedule bench.now tech.now }
    ensures accepted { (circuit : Circuit) (delays : Tech) → AreBothShort bench.now tech.now
        → TellBoth bench.now tech.now circuit delays → (JoinsMoreThan circuit 1048576 → ⊥)
        → result ≢ 3 }
    ensures long { (AreBothShort bench.now tech.now → ⊥) → IsFailure result }
    ensures none { IsFailure result → IsNone out.old out.new size.new }
    ensures statuses { IsStatus result }
{
    match answer_for(alloc, bench, tech) {
        Ok(answer) => hand_over(&answer, out, size),
        Err(failure) => {
            *size = 0;
            failure.status()
        }
    }
}

// What is answered for two texts.
fn answer_for(alloc: Global, bench: &[u8], tech: &[u8]) -> Result<Answer, Failure>
    ensures short { IfOk result (λ _. AreBothShort bench.now tech.now) }
    ensures text { IfOk result (λ answer. IsScheduleAnswer bench.now tech.now
        (ending_status answer.ending) answer.text.items) }
    ensures cause { IfErr result (FailsFor (RefusesSchedule bench.now tech.now)) }
    ensures accepted { (circuit : Circuit) (delays : Tech) → AreBothShort bench.now tech.now
        → TellBoth bench.now tech.now circuit delays → (JoinsMoreThan circuit 1048576 → ⊥)
        → IfErr result (λ failure. failure ≡ Failure.NoMemory) }
{
    let denoted = circuit_of(alloc, bench, tech)?;
    circuit_answer(alloc, &denoted.circuit, &denoted.tech)
}

// What is answered for a circuit and its delays.
fn circuit_answer(alloc: Global, circuit: &Circuit, tech: &Tech) -> Result<Answer, Failure>
    requires { (loop : List ℕ) → IsLoop circuit.now.signals loop → ⊥ }
    ensures answered { IfOk result
        (λ answer. IsAnswered circuit.now tech.now (ending_status answer.ending)) }
    ensures text { IfOk result (λ answer. IsScheduleText circuit.now tech.now
        (ending_status answer.ending) answer.text.items) }
    ensures cause { IfErr result (FailsFor (JoinsMoreThan circuit.now 1048576)) }
{
    let outcome = schedule_of(alloc, circuit, tech)?;
    let answer = schedule_answer(alloc, circuit, &outcome)?;
    Ok(answer)
}
