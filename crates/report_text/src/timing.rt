//! Appending the lines of a report's timing: the period, the schedule, and what shows them.

ghost use Rattle.std.specs.Prelude.{◌≡◌, ◌<◌, ◌≤ℤ◌, ◌^◌, ℤ, pos, ◌++◌, ◌∷◌, [], length, map, All, OnOk};
ghost use Rattle.report_text.specs.Vocabulary.{Second, IsBelow, line_of, text_of, register_line, slack_text, LeadsAmong, version_line, path_line, period_show_lines, register_line_at, lead_line, lines_below, timing_lines, signal_name, arrival_of, suffix};

use crate::line::{push_count, push_line, push_line_for, push_number, push_word};
use crate::period::{push_period, push_show};
use crate::report::Printed;
use cts_base::{Fraction, NoMemory, push_fraction, push_quotient};
use cts_model::{Circuit, Lead, PeriodShow, Schedule, Slack, Version};

/// Appends the lines from the first to the leads.
pub fn push_timing(out: &mut Vec<u8>, printed: &Printed) -> Result<(), NoMemory>
    ensures { OnOk result (out.new.items ≡ out.old.items
        ++ text_of (timing_lines printed.now.circuit.now printed.now.report.now)) }
{
    let report = printed.report;
    push_version(out, report.version)?;
    push_period(out, report.period)?;
    push_show_of(out, printed)?;
    push_count(out, b"registers", report.schedule.at.len())?;
    push_registers(out, printed)?;
    push_leads(out, printed)
}

// Appends the first line.
fn push_version(out: &mut Vec<u8>, version: Version) -> Result<(), NoMemory>
    ensures { OnOk result (out.new.items ≡ out.old.items ++ line_of (version_line version)) }
{
    match version {
        Version::First => push_line(out, b"cts", &[b"1"]),
        Version::Second => push_line(out, b"cts", &[b"2"]),
    }
}

// Appends the lines of what shows the period, in the second version with paths.
fn push_show_of(out: &mut Vec<u8>, printed: &Printed) -> Result<(), NoMemory>
    ensures { OnOk result (out.new.items ≡ out.old.items ++ text_of
        (period_show_lines printed.now.report.now.version printed.now.circuit.now
        printed.now.report.now.shown printed.now.report.now.paths)) }
{
    let circuit = printed.circuit;
    let report = printed.report;
    match report.version {
        Version::First => push_show(out, circuit, &report.shown),
        Version::Second => match &report.shown {
            PeriodShow::Cycle(cycle) => {
                push_count(out, b"cycle", cycle.len())?;
                for place in 0..cycle.len() {
                    push_line_for(out, circuit, cycle.as_slice()[place])?;
                    push_path(out, circuit, report.paths.as_slice()[place].as_slice())?;
                }
                Ok(())
            }
            PeriodShow::Floor => push_line(out, b"floor", &[]),
        },
    }
}

// Appends the line of a path: its signals, or that it isn't printed.
fn push_path(out: &mut Vec<u8>, circuit: &Circuit, path: &[u32]) -> Result<(), NoMemory>
    requires { All (λ number. number < length circuit.now.signals) path.now }
    ensures { OnOk result (out.new.items
        ≡ out.old.items ++ line_of (path_line circuit.now path.now)) }
{
    if path.is_empty() {
        return push_line(out, b"path", &[b"-"]);
    }
    out.extend_from_slice(b"path")?;
    push_number(out, path.len())?;
    push_signals(out, circuit, path)?;
    out.push(b'\n')?;
    Ok(())
}

// Appends the names of signals after other words.
fn push_signals(out: &mut Vec<u8>, circuit: &Circuit, path: &[u32]) -> Result<(), NoMemory>
    requires { All (λ number. number < length circuit.now.signals) path.now }
    ensures { OnOk result (out.new.items
        ≡ out.old.items ++ suffix (map (signal_name circuit.now) path.now)) }
{
    for number in path {
        push_word(out, signal_name(circuit, *number as usize))?;
    }
    Ok(())
}

/// The bytes of a signal's name.
pub(crate) fn signal_name(circuit: &Circuit, number: usize) -> &[u8]
    requires { number < length circuit.now.signals }
    ensures { result.now ≡ signal_name circuit.now number }
{
    circuit.signals.as_slice()[number].name.as_slice()
}

// Appends the line of each register.
fn push_registers(out: &mut Vec<u8>, printed: &Printed) -> Result<(), NoMemory>
    ensures { OnOk result (out.new.items ≡ out.old.items ++ text_of
        (lines_below (register_line_at printed.now.circuit.now printed.now.report.now)
        (length printed.now.report.now.schedule.at))) }
{
    let report = printed.report;
    for register in 0..report.schedule.at.len() {
        let slack = report.slacks.as_slice()[register];
        push_register(out, printed.circuit, &report.schedule, slack, register)?;
    }
    Ok(())
}

/// Appends the line of a register: its arrival and its slacks, in ticks.
///
/// # Errors
///
/// `NoMemory` where memory is refused; what the bytes are then is left open.
pub fn push_register(
    out: &mut Vec<u8>,
    circuit: &Circuit,
    schedule: &Schedule,
    slack: Slack,
    register: usize,
) -> Result<(), NoMemory>
    requires within { register < length circuit.now.registers }
    requires arrives { register < length schedule.now.at }
    requires some_den { pos 1 ≤ℤ schedule.now.den }
    requires small_den { IsBelow (10 ^ 37) schedule.now.den }
    requires small { IsBelow (10 ^ 37) (arrival_of schedule.now.at register) }
    ensures { OnOk result (out.new.items ≡ out.old.items ++ line_of (register_line circuit.now
        schedule.now.den register (arrival_of schedule.now.at register) slack)) }
{
    out.extend_from_slice(circuit.register_name(register))?;
    out.push(b' ')?;
    push_quotient(out, schedule.at.as_slice()[register], schedule.den)?;
    push_slack(out, slack.setup)?;
    push_slack(out, slack.hold)?;
    out.push(b'\n')?;
    Ok(())
}

// Appends a slack in ticks after other words.
fn push_slack(out: &mut Vec<u8>, slack: Option<Fraction>) -> Result<(), NoMemory>
    ensures { OnOk result (out.new.items ≡ out.old.items ++ suffix (slack_text slack ∷ [])) }
{
    match slack {
        None => push_word(out, b"-"),
        Some(slack) => {
            out.push(b' ')?;
            push_fraction(out, slack)?;
            Ok(())
        }
    }
}

// Appends the line of each lead.
fn push_leads(out: &mut Vec<u8>, printed: &Printed) -> Result<(), NoMemory>
    ensures { OnOk result (out.new.items ≡ out.old.items
        ++ text_of (map (lead_line printed.now.circuit.now) printed.now.report.now.leads)) }
{
    for lead in printed.report.leads.as_slice() {
        push_lead(out, printed.circuit, *lead)?;
    }
    Ok(())
}

// Appends the line of a lead.
fn push_lead(out: &mut Vec<u8>, circuit: &Circuit, lead: Lead) -> Result<(), NoMemory>
    requires { LeadsAmong (length circuit.now.registers) lead }
    ensures { OnOk result (out.new.items
        ≡ out.old.items ++ line_of (lead_line circuit.now lead)) }
{
    match lead {
        Lead::Zero => push_line(out, b"lead", &[b"0"]),
        Lead::Tight { depth, constraint } => {
            out.extend_from_slice(b"lead")?;
            push_number(out, depth as usize)?;
            out.push(b' ')?;
            push_line_for(out, circuit, constraint)
        }
    }
}
