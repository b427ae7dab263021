//! The text of the command `zero`: the least period at equal arrivals.

ghost use Rattle.std.specs.Prelude.{◌≡◌, ◌++◌, OnOk, IfOk};
ghost use Rattle.answer_texts.specs.Vocabulary.{IsZeroSkew, HasSmallDelays, line_of, text_of, reason_line, zero_lines};

use crate::period::push_zero;
use cts_base::NoMemory;
use cts_model::{Circuit, Tech, ZeroSkew};
use report_text::{push_constraint, push_line};
use std::alloc::Global;

/// The text for the least period at equal arrivals.
pub fn zero_text(
    alloc: Global,
    circuit: &Circuit,
    tech: &Tech,
    outcome: &ZeroSkew,
) -> Result<Vec<u8>, NoMemory>
    requires least { IsZeroSkew circuit.now tech.now outcome.now }
    requires small { HasSmallDelays outcome.now }
    ensures { IfOk result (λ text. text.items ≡ text_of
        (zero_lines circuit.now tech.now outcome.now)) }
{
    let mut out = Vec::new(alloc);
    push_zero(&mut out, outcome)?;
    push_reason(&mut out, circuit, tech, outcome)?;
    Ok(out)
}

// Appends the line of what shows that no period is less.
fn push_reason(
    out: &mut Vec<u8>,
    circuit: &Circuit,
    tech: &Tech,
    outcome: &ZeroSkew,
) -> Result<(), NoMemory>
    requires least { IsZeroSkew circuit.now tech.now outcome.now }
    requires small { HasSmallDelays outcome.now }
    ensures { OnOk result (out.new.items ≡ out.old.items
        ++ line_of (reason_line circuit.now tech.now outcome.now)) }
{
    match outcome {
        ZeroSkew::Fails { pair } => {
            let weight = tech.hold - pair.least;
            push_constraint(out, b"hold", circuit, pair.from, pair.to, weight)
        }
        ZeroSkew::Floor { .. } => push_line(out, b"floor", &[]),
        ZeroSkew::Setup { pair, .. } => {
            let weight = pair.greatest + tech.setup;
            push_constraint(out, b"setup", circuit, pair.from, pair.to, weight)
        }
    }
}
