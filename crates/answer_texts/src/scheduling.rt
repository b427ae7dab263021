//! The text of the command `schedule`: when the clock is to reach each register.

ghost use Rattle.std.specs.Prelude.{◌≡◌, IfOk};
ghost use Rattle.answer_texts.specs.Vocabulary.{Tech, text_of, period_outcome, HasSmallTimes, IsScheduleOutcome, ending_status, outcome_status, schedule_lines};

use crate::answer::Answer;
use crate::period::push_found;
use crate::registers::push_registers;
use cts_base::NoMemory;
use cts_model::Circuit;
use outcomes::ScheduleOutcome;
use std::alloc::Global;

/// The answer for the least schedule of a circuit, or for that no period will do.
pub fn schedule_answer(
    alloc: Global,
    circuit: &Circuit,
    outcome: &ScheduleOutcome,
) -> Result<Answer, NoMemory>
    requires outcome { (tech : Tech) × IsScheduleOutcome circuit.now tech outcome.now }
    requires small { HasSmallTimes outcome.now }
    ensures ending { IfOk result (λ answer.
        ending_status answer.ending ≡ outcome_status (period_outcome outcome.now)) }
    ensures text { IfOk result (λ answer.
        answer.text.items ≡ text_of (schedule_lines circuit.now outcome.now)) }
{
    match outcome {
        ScheduleOutcome::Found {
            zero,
            period,
            shown,
            schedule,
            slacks,
        } => {
            let mut text = Vec::new(alloc);
            push_found(&mut text, circuit, zero, *period, shown)?;
            push_registers(&mut text, circuit, schedule, slacks.as_slice())?;
            Ok(Answer::done(text))
        }
        ScheduleOutcome::Never { cycle } => Answer::never(alloc, circuit, cycle.as_slice()),
    }
}
