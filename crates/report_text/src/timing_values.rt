//! What the lines of a report's timing say.

ghost use Rattle.std.specs.Prelude.{◌≡◌, ◌<◌, IfOk, All, length, map, replicate, if◌then◌else◌};
ghost use Rattle.report_text.specs.Vocabulary.{IsBetweenRegisters, HasSmallWeight, signal_name, line_for, constraint_fields, ReadsForm, Takes, period_line, IsSmallPeriod, DenotesConstraint, DenotesPath, DenotesLead, DenotesTimed, version_line, period_shown_line, IsSmallCount};
ghost use Rattle.report_text.specs.LineFields as field;
ghost use Rattle.report_text.specs.LineForms as form;

use crate::reader::line::Line;
use crate::rules::Rules;
use crate::scan::Scan;
use cts_base::{Fraction, Listed, NoMemory};
use cts_model::{Constraint, Lead, Slack, Version};

impl Line for Version {
    ghost due = { λ number. form.Version };

    ghost says = { λ circuit scale number words version. words ≡ version_line version };

    fn read(_rules: &Rules, _number: u32, scan: &mut Scan) -> Result<Version, NoMemory> {
        scan.keyword(b"cts");
        Ok(scan.version())
    }
}

// The period in ticks.
impl Line for Fraction {
    ghost due = { λ number. form.Period };

    ghost says = { λ circuit scale number words period.
        (words ≡ period_line period) × IsSmallPeriod period };

    fn read(_rules: &Rules, _number: u32, scan: &mut Scan) -> Result<Fraction, NoMemory> {
        scan.keyword(b"period");
        Ok(scan.period())
    }
}

// How many constraints show the period, or `None` where the floor does.
impl Line for Option<u32> {
    ghost due = { λ number. form.Show };

    ghost says = { λ circuit scale number words count.
        (words ≡ period_shown_line count) × IsSmallCount count };

    fn read(_rules: &Rules, _number: u32, scan: &mut Scan) -> Result<Option<u32>, NoMemory> {
        if scan.has_word(0, b"floor") {
            scan.keyword(b"floor");
            return Ok(None);
        }
        scan.keyword(b"cycle");
        let count = scan.number(1, 9999);
        Ok(Some(count))
    }
}

impl Line for Constraint {
    ghost due = { λ number. form.Constraint };

    ghost says = { λ circuit scale number words constraint.
        DenotesConstraint circuit words constraint };

    fn read(rules: &Rules, _number: u32, scan: &mut Scan) -> Result<Constraint, NoMemory> {
        Ok(read_constraint(rules, scan))
    }
}

// Reads the words of a constraint.
fn read_constraint(rules: &Rules, scan: &mut Scan) -> Constraint
    ensures { Takes rules.now.circuit.now constraint_fields (line_for rules.now.circuit.now result)
        (IsBetweenRegisters (length rules.now.circuit.now.registers) result
        × HasSmallWeight result) scan.old scan.new }
{
    let setup = scan.kind();
    let launch = scan.register(rules);
    let capture = scan.register(rules);
    let weight = scan.weight();
    between(setup, launch, capture, weight)
}

// The constraint of that kind between two registers.
fn between(setup: bool, launch: u32, capture: u32, weight: i128) -> Constraint
    ensures { result ≡ record {
      setup = setup;
      tail = if setup then launch else capture;
      head = if setup then capture else launch;
      weight = weight;
    } }
{
    let (tail, head) = if setup {
        (launch, capture)
    } else {
        (capture, launch)
    };
    Constraint {
        setup,
        tail,
        head,
        weight,
    }
}

/// Reads the words of a path: its signals, none where it isn't printed.
pub(crate) fn path_of(rules: &Rules, scan: &mut Scan) -> Result<Listed<u32>, NoMemory>
    ensures { IfOk result (λ path. ReadsForm rules.now.circuit.now rules.now.scale form.Path
        (λ words. DenotesPath rules.now.circuit.now words path) scan.old scan.new) }
{
    let is_printed = !scan.has_word(1, b"-");
    let count = scan.len().saturating_sub(2);
    scan.keyword(b"path");
    if !is_printed {
        scan.keyword(b"-");
        return Ok(Listed::new(rules.alloc));
    }
    scan.counted(count, 65536);
    let signals = read_signals(rules, count, scan)?;
    Ok(signals)
}

// Reads the names of so many signals.
fn read_signals(rules: &Rules, count: usize, scan: &mut Scan) -> Result<Listed<u32>, NoMemory>
    ensures { IfOk result (λ signals. (length signals ≡ count)
        × Takes rules.now.circuit.now (replicate count field.Signal)
        (map (signal_name rules.now.circuit.now) signals)
        (All (λ number. number < length rules.now.circuit.now.signals) signals)
        scan.old scan.new) }
{
    let mut signals = Listed::new(rules.alloc);
    for _place in 0..count {
        signals.push(scan.signal(rules))?;
    }
    Ok(signals)
}

/// The line of a register.
#[derive(Clone, Copy, Debug, PartialEq, Eq)]
pub(crate) struct Timed {
    /// When the clock reaches it, in steps.
    pub arrival: i128,
    /// What it has to spare.
    pub slack: Slack,
}

impl Line for Timed {
    ghost due = { form.Register };

    ghost says = { DenotesTimed };

    fn read(rules: &Rules, number: u32, scan: &mut Scan) -> Result<Timed, NoMemory> {
        scan.named(rules, number);
        let arrival = scan.arrival(rules);
        let setup = scan.slack(rules);
        let hold = scan.slack(rules);
        Ok(Timed {
            arrival,
            slack: Slack { setup, hold },
        })
    }
}

impl Line for Lead {
    ghost due = { λ number. form.Lead };

    ghost says = { λ circuit scale number words lead. DenotesLead circuit words lead };

    fn read(rules: &Rules, _number: u32, scan: &mut Scan) -> Result<Lead, NoMemory> {
        let is_first = scan.has_word(1, b"0");
        scan.keyword(b"lead");
        if is_first {
            scan.keyword(b"0");
            return Ok(Lead::Zero);
        }
        let depth = scan.number(1, 9999);
        let constraint = read_constraint(rules, scan);
        Ok(Lead::Tight { depth, constraint })
    }
}
