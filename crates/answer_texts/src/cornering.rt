//! The text of the command `corners`: when the clock is to reach each register at several corners.

ghost use Rattle.std.specs.Prelude.{◌≡◌, ◌<◌, ◌++◌, ◌∷◌, [], pos, All, List, length, OnOk, IfOk};
ghost use Rattle.answer_texts.specs.Vocabulary.{signed_decimal, Fraction, Tech, constraint_line, line_of, text_of, IsBetweenRegisters, IsCommonShow, HasSmallCommonTimes, IsCornersOutcome, ending_status, cornered_line, cornered_line_at, cornered_lines, common_show_lines, corners_lines, corners_status};

use crate::answer::{Answer, Ending};
use crate::arrivals::push_arrivals;
use corners::CornersOutcome;
use cts_base::NoMemory;
use cts_model::{Circuit, Constraint, PeriodShow};
use itoa::Buffer;
use report_text::{push_count, push_line, push_period};
use std::alloc::Global;

/// The answer for the least schedule that serves all corners, or for that no period will do.
pub fn corners_answer(
    alloc: Global,
    circuit: &Circuit,
    outcome: &CornersOutcome,
) -> Result<Answer, NoMemory>
    requires outcome { (techs : List Tech) × IsCornersOutcome circuit.now techs outcome.now }
    requires small { HasSmallCommonTimes outcome.now }
    ensures ending { IfOk result (λ answer.
        ending_status answer.ending ≡ corners_status outcome.now) }
    ensures text { IfOk result (λ answer.
        answer.text.items ≡ text_of (corners_lines circuit.now outcome.now)) }
{
    let mut text = Vec::new(alloc);
    match outcome {
        CornersOutcome::Found {
            period,
            shown,
            corner,
            schedule,
        } => {
            push_period(&mut text, *period)?;
            push_common_show(&mut text, circuit, shown, corner.as_slice())?;
            push_arrivals(&mut text, circuit, schedule)?;
            Ok(Answer::done(text))
        }
        CornersOutcome::Never { cycle, corner } => {
            push_line(&mut text, b"never", &[])?;
            push_numbered(&mut text, circuit, cycle.as_slice(), corner.as_slice())?;
            Ok(Answer {
                ending: Ending::Never,
                text,
            })
        }
    }
}

// Appends the lines of what shows that no period is less.
fn push_common_show(
    out: &mut Vec<u8>,
    circuit: &Circuit,
    shown: &PeriodShow,
    corners: &[u32],
) -> Result<(), NoMemory>
    requires { (techs : List Tech) × ((period : Fraction)
        × IsCommonShow circuit.now techs period shown.now corners.now) }
    ensures { OnOk result (out.new.items
        ≡ out.old.items ++ text_of (common_show_lines circuit.now shown.now corners.now)) }
{
    match shown {
        PeriodShow::Cycle(cycle) => push_numbered(out, circuit, cycle.as_slice(), corners),
        PeriodShow::Floor => push_line(out, b"floor", &[]),
    }
}

// Appends the lines of a cycle: how many constraints it has, and each of them with its corner.
fn push_numbered(
    out: &mut Vec<u8>,
    circuit: &Circuit,
    cycle: &[Constraint],
    corners: &[u32],
) -> Result<(), NoMemory>
    requires between { All (IsBetweenRegisters (length circuit.now.registers)) cycle.now }
    requires corners { length corners.now ≡ length cycle.now }
    ensures { OnOk result (out.new.items
        ≡ out.old.items ++ text_of (cornered_lines circuit.now cycle.now corners.now)) }
{
    push_count(out, b"cycle", cycle.len())?;
    for place in 0..cycle.len() {
        push_numbered_at(out, circuit, cycle, corners, place)?;
    }
    Ok(())
}

// Appends the line of the constraint at this place.
fn push_numbered_at(
    out: &mut Vec<u8>,
    circuit: &Circuit,
    cycle: &[Constraint],
    corners: &[u32],
    place: usize,
) -> Result<(), NoMemory>
    requires between { All (IsBetweenRegisters (length circuit.now.registers)) cycle.now }
    requires corners { length corners.now ≡ length cycle.now }
    requires within { place < length cycle.now }
    ensures { OnOk result (out.new.items ≡ out.old.items
        ++ line_of (cornered_line_at circuit.now cycle.now corners.now place)) }
{
    push_numbered_line(out, circuit, cycle[place], u64::from(corners[place]) + 1)
}

// Appends the line of a constraint and the number of its corner.
fn push_numbered_line(
    out: &mut Vec<u8>,
    circuit: &Circuit,
    constraint: Constraint,
    number: u64,
) -> Result<(), NoMemory>
    requires tail { constraint.tail < length circuit.now.registers }
    requires head { constraint.head < length circuit.now.registers }
    ensures { OnOk result (out.new.items
        ≡ out.old.items ++ line_of (cornered_line circuit.now constraint number)) }
{
    let Constraint {
        setup,
        tail,
        head,
        weight,
    } = constraint;
    if setup {
        push_requirement(out, b"setup", circuit, (tail, head), weight, number)
    } else {
        push_requirement(out, b"hold", circuit, (head, tail), weight, number)
    }
}

// Appends the line of a requirement between the registers that launch and capture, and a number.
fn push_requirement(
    out: &mut Vec<u8>,
    word: &[u8],
    circuit: &Circuit,
    ends: (u32, u32),
    weight: i128,
    number: u64,
) -> Result<(), NoMemory>
    requires launch { ends.0 < length circuit.now.registers }
    requires capture { ends.1 < length circuit.now.registers }
    ensures { OnOk result (out.new.items ≡ out.old.items ++ line_of
        (constraint_line word.now circuit.now ends.0 ends.1 weight
        ++ signed_decimal (pos number) ∷ [])) }
{
    let launch = circuit.register_name(ends.0 as usize);
    let capture = circuit.register_name(ends.1 as usize);
    let mut weight_buffer = Buffer::new();
    let mut number_buffer = Buffer::new();
    let weight = weight_buffer.format(weight).as_bytes();
    let number = number_buffer.format(number).as_bytes();
    push_line(out, word, &[launch, capture, weight, number])
}
