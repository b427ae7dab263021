//! The text of the command `demo`: the summary of a clock tree whose report is shown.

ghost use Rattle.std.specs.Prelude.{◌≡◌, IfOk};
ghost use Rattle.answer_texts.specs.Vocabulary.{Tech, IsWithinBounds, text_of, summary_lines};

use cts_base::NoMemory;
use cts_model::Report;
use report_text::{push_count, push_line, push_period, push_total};
use std::alloc::Global;

/// The summary of a report over this number of registers.
pub fn summary_text(alloc: Global, registers: u32, report: &Report) -> Result<Vec<u8>, NoMemory>
    requires { (tech : Tech) × IsWithinBounds tech report.now }
    ensures { IfOk result (λ text. text.items ≡ text_of (summary_lines registers report.now)) }
{
    let mut out = Vec::new(alloc);
    push_count(&mut out, b"registers", registers as usize)?;
    push_period(&mut out, report.period)?;
    push_total(&mut out, report)?;
    push_line(&mut out, b"shown", &[])?;
    Ok(out)
}
