ghost use Rattle.std.specs.Prelude.{◌≡◌, ◌<◌, ◌++◌, length, OnOk};
ghost use Rattle.answer_texts.specs.Vocabulary.{line_of, text_of, IsSmallSchedule, scheduled_line_at, register_lines};

use cts_base::NoMemory;
use cts_model::{Circuit, Schedule, Slack};
use report_text::{push_count, push_register};

/// Appends the lines of the registers: how many there are, and each of them in order, with when the
/// clock reaches it and what it has to spare, in ticks.
pub fn push_registers(
    out: &mut Vec<u8>,
    circuit: &Circuit,
    schedule: &Schedule,
    slacks: &[Slack],
) -> Result<(), NoMemory>
    requires small { IsSmallSchedule schedule.now }
    requires registers { length schedule.now.at ≡ length circuit.now.registers }
    requires slacks { length slacks.now ≡ length circuit.now.registers }
    ensures { OnOk result (out.new.items
        ≡ out.old.items ++ text_of (register_lines circuit.now schedule.now slacks.now)) }
{
    push_count(out, b"registers", schedule.at.len())?;
    for register in 0..schedule.at.len() {
        push_register_at(out, circuit, schedule, slacks, register)?;
    }
    Ok(())
}

// Appends the line of the register with that number.
fn push_register_at(
    out: &mut Vec<u8>,
    circuit: &Circuit,
    schedule: &Schedule,
    slacks: &[Slack],
    register: usize,
) -> Result<(), NoMemory>
    requires small { IsSmallSchedule schedule.now }
    requires within { register < length circuit.now.registers }
    requires registers { length schedule.now.at ≡ length circuit.now.registers }
    requires slacks { length slacks.now ≡ length circuit.now.registers }
    ensures { OnOk result (out.new.items ≡ out.old.items
        ++ line_of (scheduled_line_at circuit.now schedule.now slacks.now register)) }
{
    push_register(out, circuit, schedule, slacks[register], register)
}
