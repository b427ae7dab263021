//! The text of the command `period`: the least period that any arrivals allow.

ghost use Rattle.std.specs.Prelude.{◌≡◌, ◌++◌, OnOk, IfOk};
ghost use Rattle.answer_texts.specs.Vocabulary.{Tech, line_of, text_of, IsPeriodShow, IsPeriodOutcome, ending_status, zero_line, found_lines, period_lines, outcome_status};

use crate::answer::Answer;
use cts_base::{Fraction, NoMemory};
use cts_model::{Circuit, PeriodShow, ZeroSkew};
use outcomes::PeriodOutcome;
use report_text::{push_line, push_period, push_show, push_value};
use std::alloc::Global;

/// The answer for the least period that any arrivals allow, or for that there is none.
pub fn period_answer(
    alloc: Global,
    circuit: &Circuit,
    outcome: &PeriodOutcome,
) -> Result<Answer, NoMemory>
    requires { (tech : Tech) × IsPeriodOutcome circuit.now tech outcome.now }
    ensures ending { IfOk result (λ answer.
        ending_status answer.ending ≡ outcome_status outcome.now) }
    ensures text { IfOk result (λ answer.
        answer.text.items ≡ text_of (period_lines circuit.now outcome.now)) }
{
    match outcome {
        PeriodOutcome::Found {
            zero,
            period,
            shown,
        } => {
            let mut text = Vec::new(alloc);
            push_found(&mut text, circuit, zero, *period, shown)?;
            Ok(Answer::done(text))
        }
        PeriodOutcome::Never { cycle } => Answer::never(alloc, circuit, cycle.as_slice()),
    }
}

/// Appends the line for the least period at equal arrivals, in ticks.
pub fn push_zero(out: &mut Vec<u8>, outcome: &ZeroSkew) -> Result<(), NoMemory>
    ensures { OnOk result (out.new.items ≡ out.old.items ++ line_of (zero_line outcome.now)) }
{
    match outcome {
        ZeroSkew::Fails { .. } => push_line(out, b"zero", &[b"none"]),
        ZeroSkew::Floor { value } => push_value(out, b"zero", *value),
        ZeroSkew::Setup { value, .. } => push_value(out, b"zero", *value),
    }
}

/// Appends the lines of a least period, with and without skew, and of what shows the one with it.
pub fn push_found(
    out: &mut Vec<u8>,
    circuit: &Circuit,
    zero: &ZeroSkew,
    period: Fraction,
    shown: &PeriodShow,
) -> Result<(), NoMemory>
    requires { (tech : Tech) × IsPeriodShow circuit.now tech period shown.now }
    ensures { OnOk result (out.new.items
        ≡ out.old.items ++ text_of (found_lines circuit.now zero.now period shown.now)) }
{
    push_period(out, period)?;
    push_zero(out, zero)?;
    push_show(out, circuit, shown)
}
