//! Appending the lines for a period and what shows it.

ghost use Rattle.std.specs.Prelude.{◌≡◌, ◌++◌, length, All, OnOk};
ghost use Rattle.report_text.specs.Vocabulary.{line_of, text_of, period_line, cycle_lines, show_lines, IsBetweenRegisters, ShowsPeriodAmong};

use crate::line::{push_count, push_line, push_line_for};
use cts_base::{Fraction, NoMemory, push_fraction};
use cts_model::{Circuit, Constraint, PeriodShow};

/// Appends the line of a period in ticks.
///
/// # Errors
///
/// `NoMemory` where memory is refused; what the bytes are then is left open.
pub fn push_period(out: &mut Vec<u8>, period: Fraction) -> Result<(), NoMemory>
    ensures { OnOk result (out.new.items ≡ out.old.items ++ line_of (period_line period)) }
{
    out.extend_from_slice(b"period ")?;
    push_fraction(out, period)?;
    out.push(b'\n')?;
    Ok(())
}

/// Appends the lines of what shows that no period is less.
///
/// # Errors
///
/// `NoMemory` where memory is refused; what the bytes are then is left open.
pub fn push_show(out: &mut Vec<u8>, circuit: &Circuit, shown: &PeriodShow) -> Result<(), NoMemory>
    requires { ShowsPeriodAmong (length circuit.now.registers) shown.now }
    ensures { OnOk result (out.new.items
        ≡ out.old.items ++ text_of (show_lines circuit.now shown.now)) }
{
    match shown {
        PeriodShow::Cycle(cycle) => push_cycle(out, circuit, cycle.as_slice()),
        PeriodShow::Floor => push_line(out, b"floor", &[]),
    }
}

/// Appends the lines of a cycle: how many constraints it has, and each of them in order.
///
/// # Errors
///
/// `NoMemory` where memory is refused; what the bytes are then is left open.
pub fn push_cycle(
    out: &mut Vec<u8>,
    circuit: &Circuit,
    cycle: &[Constraint],
) -> Result<(), NoMemory>
    requires { All (IsBetweenRegisters (length circuit.now.registers)) cycle.now }
    ensures { OnOk result (out.new.items
        ≡ out.old.items ++ text_of (cycle_lines circuit.now cycle.now)) }
{
    push_count(out, b"cycle", cycle.len())?;
    for constraint in cycle {
        push_line_for(out, circuit, *constraint)?;
    }
    Ok(())
}
