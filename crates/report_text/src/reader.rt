//! Reading a report: its lines one after the other, each by the form that is due.

ghost use Rattle.std.specs.Prelude.{◌≡◌, ◌≢◌, ◌⊎◌, Some, Ok, Err, IfOk, IfErr};
ghost use Rattle.report_text.specs.Vocabulary.{Spells, HasFaultOrReport, HasFault, Report, NoMemory, ReportFault};

mod body;
mod heading;
pub(crate) mod line;
mod parts;
mod rows;

use crate::assembly::report_of;
use crate::fault::ReportFault;
use crate::reader::parts::read_parts;
use cts_model::{Circuit, Report, Tech};
use std::alloc::Global;

/// Reads the text of a report over a circuit, made for a delay table.
///
/// # Errors
///
/// The first fault of the text, or `NoMemory` where memory is refused.
pub fn read_report(
    alloc: Global,
    bytes: &[u8],
    circuit: &Circuit,
    tech: &Tech,
) -> Result<Report, ReportFault>
    ensures ok { IfOk result (Spells circuit.now tech.now bytes.now) }
    ensures fault { IfErr result (λ found. found ≢ NoMemory
        → HasFault circuit.now tech.now bytes.now (Some found)) }
    ensures read { (report : Report) → Spells circuit.now tech.now bytes.now report
        → (result ≡ Ok report) ⊎ (result ≡ Err NoMemory) }
    ensures faulty { (found : ReportFault)
        → HasFault circuit.now tech.now bytes.now (Some found)
        → (result ≡ Err found) ⊎ (result ≡ Err NoMemory) }
    // Each text has one of the two, so it is read, or refused with its fault, unless memory wants.
    ensures either { HasFaultOrReport circuit.now tech.now bytes.now }
{
    let parts = read_parts(alloc, bytes, circuit, tech)?;
    let report = report_of(alloc, tech, parts)?;
    Ok(report)
}
