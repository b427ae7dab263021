//! The lines of a schedule alone: when the clock is to reach each register.

ghost use Rattle.std.specs.Prelude.{◌≡◌, ◌<◌, ◌++◌, length, OnOk, IfOk};
ghost use Rattle.answer_texts.specs.Vocabulary.{line_of, text_of, CanPrint, all_at_zero, arrival_line, arrival_lines};

use cts_base::{Listed, NoMemory, push_quotient};
use cts_model::{Circuit, Schedule};
use report_text::push_count;
use std::alloc::Global;

/// The schedule in which the clock reaches each of so many registers at 0.
pub fn all_at_zero(alloc: Global, registers: usize) -> Result<Schedule, NoMemory>
    ensures { IfOk result (λ schedule. schedule ≡ all_at_zero registers) }
{
    let at = Listed::from_vec(vec![in alloc; 0i128; registers]?);
    Ok(Schedule { den: 1, at })
}

/// Appends the lines of the registers: how many there are, and each of them in order with its
/// arrival in ticks.
pub fn push_arrivals(
    out: &mut Vec<u8>,
    circuit: &Circuit,
    schedule: &Schedule,
) -> Result<(), NoMemory>
    requires small { CanPrint schedule.now }
    requires registers { length schedule.now.at ≡ length circuit.now.registers }
    ensures { OnOk result (out.new.items
        ≡ out.old.items ++ text_of (arrival_lines circuit.now schedule.now)) }
{
    push_count(out, b"registers", schedule.at.len())?;
    for register in 0..schedule.at.len() {
        push_arrival(out, circuit, schedule, register)?;
    }
    Ok(())
}

// Appends the line of the register with that number.
fn push_arrival(
    out: &mut Vec<u8>,
    circuit: &Circuit,
    schedule: &Schedule,
    register: usize,
) -> Result<(), NoMemory>
    requires small { CanPrint schedule.now }
    requires within { register < length circuit.now.registers }
    requires registers { length schedule.now.at ≡ length circuit.now.registers }
    ensures { OnOk result (out.new.items
        ≡ out.old.items ++ line_of (arrival_line circuit.now schedule.now register)) }
{
    out.extend_from_slice(circuit.register_name(register))?;
    out.push(b' ')?;
    push_quotient(out, schedule.at.as_slice()[register], schedule.den)?;
    out.push(b'\n')?;
    Ok(())
}
