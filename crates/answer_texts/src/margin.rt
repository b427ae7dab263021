//! The text of the command `margin`: what every setup and hold inequality has to spare at a period.

ghost use Rattle.std.specs.Prelude.{◌≡◌, ◌++◌, OnOk, IfOk};
ghost use Rattle.answer_texts.specs.Vocabulary.{Fraction, Tech, line_of, text_of, IsMarginOutcome, IsSmallOutcome, margin_line, margin_lines, spared_lines};

use crate::arrivals::{all_at_zero, push_arrivals};
use cts_base::{Fraction, NoMemory, push_fraction};
use cts_model::Circuit;
use outcomes::MarginOutcome;
use report_text::{push_cycle, push_line, push_period};
use std::alloc::Global;

/// The text for what is spared at a period.
pub fn margin_text(
    alloc: Global,
    circuit: &Circuit,
    period: Fraction,
    outcome: &MarginOutcome,
) -> Result<Vec<u8>, NoMemory>
    requires outcome { (tech : Tech) × IsMarginOutcome circuit.now tech period outcome.now }
    requires small { IsSmallOutcome outcome.now }
    ensures { IfOk result (λ text. text.items
        ≡ text_of (margin_lines circuit.now period outcome.now)) }
{
    let mut text = Vec::new(alloc);
    push_period(&mut text, period)?;
    push_spared(alloc, &mut text, circuit, outcome)?;
    Ok(text)
}

// Appends the lines for what is spared.
fn push_spared(
    alloc: Global,
    out: &mut Vec<u8>,
    circuit: &Circuit,
    outcome: &MarginOutcome,
) -> Result<(), NoMemory>
    requires outcome { (tech : Tech) × ((period : Fraction)
        × IsMarginOutcome circuit.now tech period outcome.now) }
    requires small { IsSmallOutcome outcome.now }
    ensures { OnOk result (out.new.items
        ≡ out.old.items ++ text_of (spared_lines circuit.now outcome.now)) }
{
    match outcome {
        MarginOutcome::Found {
            value,
            cycle,
            schedule,
        } => {
            push_margin(out, *value)?;
            push_cycle(out, circuit, cycle.as_slice())?;
            push_arrivals(out, circuit, schedule)
        }
        MarginOutcome::Unbounded => {
            push_line(out, b"margin", &[b"none"])?;
            let at_zero = all_at_zero(alloc, circuit.registers.len())?;
            push_arrivals(out, circuit, &at_zero)
        }
    }
}

// Appends the line for the greatest margin, in ticks.
fn push_margin(out: &mut Vec<u8>, value: Fraction) -> Result<(), NoMemory>
    ensures { OnOk result (out.new.items ≡ out.old.items ++ line_of (margin_line value)) }
{
    out.extend_from_slice(b"margin ")?;
    push_fraction(out, value)?;
    out.push(b'\n')?;
    Ok(())
}
