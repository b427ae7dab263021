ghost use Rattle.std.specs.Prelude.{◌≡◌, ◌^◌, All, IfOk};
ghost use Rattle.report_text.specs.Vocabulary.{Tech, text_of, IsOfSize, IsWithinBounds, HasSmallLengths, IsBelow, IsSmallPeriod, report_lines, size_prop};

use crate::timing::push_timing;
use crate::tree::push_tree;
use cts_base::NoMemory;
use cts_model::{Circuit, Report};
use std::alloc::Global;

/// A report that is printed over its circuit: its lists are as long as the circuit has them, and
/// its times and lengths are within their bounds.
#[derive(Drop)]
pub(crate) struct Printed<'a> {
    pub circuit: &'a Circuit,
    pub report: &'a Report,
    ghost size: { IsOfSize circuit.now report.now } by { size_prop _ _ },
    ghost period: { IsSmallPeriod report.now.period },
    ghost den: { report.now.schedule.den ≡ report.now.period.den },
    ghost arrivals: { All (IsBelow (10 ^ 19)) report.now.schedule.at },
    ghost lengths: { HasSmallLengths report.now },
}

/// The text of a report over a circuit.
///
/// # Errors
///
/// `NoMemory` where memory is refused.
pub fn write_report(alloc: Global, report: &Report, circuit: &Circuit) -> Result<Vec<u8>, NoMemory>
    requires size { IsOfSize circuit.now report.now }
    requires bounds { (tech : Tech) × IsWithinBounds tech report.now }
    ensures spelled { IfOk result (λ text.
        text.items ≡ text_of (report_lines circuit.now report.now)) }
{
    let printed = Printed { circuit, report };
    let mut out = Vec::new(alloc);
    push_timing(&mut out, &printed)?;
    push_tree(&mut out, &printed)?;
    Ok(out)
}
