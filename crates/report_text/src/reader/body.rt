//! The sections of a report after what shows its period.

ghost use Rattle.std.specs.Prelude.{◌≡◌, ◌<◌, ◌≤◌, IfOk, IfErr, length};
ghost use Rattle.report_text.specs.Vocabulary.{HasBody, forms_after, count_in, Stops};

use crate::cursor::Cursor;
use crate::fault::ReportFault;
use crate::reader::line::read;
use crate::reader::rows::{read_counted, read_rows};
use crate::rules::Rules;
use crate::sections::Body;
use cts_model::{Circuit, Version};

/// Reads all sections after what shows the period.
pub(crate) fn read_body(
    rules: &Rules,
    version: Version,
    cursor: &mut Cursor,
) -> Result<Body, ReportFault>
    requires line { cursor.old.line < 30000 }
    ensures ok { IfOk result (HasBody rules.now.circuit.now rules.now.scale version
        (length rules.now.circuit.now.registers) cursor.old cursor.new) }
    ensures fault { IfErr result (Stops rules.now.circuit.now rules.now.scale
        (forms_after version (length rules.now.circuit.now.registers)) cursor.old) }
{
    let count = registers_of(rules.circuit);
    let timings = read_counted(rules, b"registers", 0, count, cursor)?;
    let leads = read_rows(rules, 0, leads_in(version, count), cursor)?;
    let merged = read_counted(rules, b"merges", count, count - 1, cursor)?;
    let source = read(rules, 0, cursor)?;
    let placed = read_counted(rules, b"nodes", 0, 2 * count - 1, cursor)?;
    let total = read(rules, 0, cursor)?;
    Ok(Body {
        timings,
        leads,
        merged,
        source,
        placed,
        total,
    })
}

// How many leads a report over so many registers has.
fn leads_in(version: Version, count: u32) -> u32
    ensures value { result ≡ count_in version count }
    ensures few { result ≤ count }
{
    match version {
        Version::First => 0,
        Version::Second => count,
    }
}

// How many registers a circuit has, the host among them.
fn registers_of(circuit: &Circuit) -> u32
    ensures value { result ≡ length circuit.now.registers }
    ensures some { 1 ≤ result }
    ensures few { result ≤ 4097 }
{
    circuit.registers.len() as u32
}
