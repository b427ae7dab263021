//! The parts of a whole report.

ghost use Rattle.std.specs.Prelude.{◌≡◌, ◌≢◌, Some, IfOk, IfErr};
ghost use Rattle.report_text.specs.Vocabulary.{register_names, signal_names, HasParts, HasFault, NoMemory};

use crate::cursor::Cursor;
use crate::fault::ReportFault;
use crate::field::Scale;
use crate::reader::body::read_body;
use crate::reader::heading::{read_heading, read_shown};
use crate::rules::{Rules, signal_names};
use crate::sections::Parts;
use cts_model::{Circuit, Grid, Tech};
use name_set::{NameSet, register_names};
use std::alloc::Global;

/// Reads all lines of a report.
pub(crate) fn read_parts(
    alloc: Global,
    bytes: &[u8],
    circuit: &Circuit,
    tech: &Tech,
) -> Result<Parts, ReportFault>
    ensures ok { IfOk result (HasParts circuit.now tech.now bytes.now) }
    ensures fault { IfErr result (λ found. found ≢ NoMemory
        → HasFault circuit.now tech.now bytes.now (Some found)) }
{
    let registers = register_names(alloc, circuit)?;
    let signals = signal_names(alloc, circuit)?;
    read_by_names(alloc, bytes, circuit, tech, &registers, &signals)
}

// The same, where the names of the circuit are known.
fn read_by_names(
    alloc: Global,
    bytes: &[u8],
    circuit: &Circuit,
    tech: &Tech,
    registers: &NameSet,
    signals: &NameSet,
) -> Result<Parts, ReportFault>
    requires registered { registers.now ≡ register_names circuit.now }
    requires named { signals.now ≡ signal_names circuit.now }
    ensures ok { IfOk result (HasParts circuit.now tech.now bytes.now) }
    ensures fault { IfErr result (λ found. found ≢ NoMemory
        → HasFault circuit.now tech.now bytes.now (Some found)) }
{
    let rules = Rules {
        alloc,
        circuit,
        registers,
        signals,
        scale: Scale { den: 1, grid: 1 },
    };
    read_named(rules, bytes, tech)
}

// Reads all lines by rules that know the names of the circuit. One step makes a unit, until the
// period tells how many do.
fn read_named(rules: Rules, bytes: &[u8], tech: &Tech) -> Result<Parts, ReportFault>
    ensures ok { IfOk result (HasParts rules.entry.circuit.now tech.now bytes.now) }
    ensures fault { IfErr result (λ found. found ≢ NoMemory
        → HasFault rules.entry.circuit.now tech.now bytes.now (Some found)) }
{
    let mut cursor = Cursor::of(bytes);
    let heading = read_heading(&rules, &mut cursor)?;
    let rules = rules.on_grid(Grid {
        period: heading.period,
        tech,
    });
    let shown = read_shown(&rules, heading.version, heading.count, &mut cursor)?;
    let body = read_body(&rules, heading.version, &mut cursor)?;
    cursor.end()?;
    Ok(Parts {
        heading,
        shown,
        body,
    })
}
