//! The heading of a report, and what shows its period.

ghost use Rattle.std.specs.Prelude.{[], ◌∷◌, ◌<◌, Some, IfOk, IfErr, unwrap_or};
ghost use Rattle.report_text.specs.Vocabulary.{cycle_forms, HasHeading, HasShown, IsSmallCount, Stops, Scale};
ghost use Rattle.report_text.specs.LineForms as form;

use crate::cursor::Cursor;
use crate::fault::ReportFault;
use crate::reader::line::read;
use crate::reader::rows::{read_pathed, read_rows};
use crate::rules::Rules;
use crate::sections::{Heading, Shown};
use cts_base::{Fraction, Listed};
use cts_model::{PeriodShow, Version};

/// Reads the version, the period and what shows it. None of these lines has a number of steps, so
/// they are read alike by rules with any scale.
pub(crate) fn read_heading(rules: &Rules, cursor: &mut Cursor) -> Result<Heading, ReportFault>
    requires line { cursor.old.line < 100 }
    ensures ok { IfOk result (HasHeading rules.now.circuit.now cursor.old cursor.new) }
    ensures fault { IfErr result (λ fault. (scale : Scale)
        → Stops rules.now.circuit.now scale
        (form.Version ∷ form.Period ∷ form.Show ∷ []) cursor.old fault) }
{
    let version: Version = read(rules, 0, cursor)?;
    let period: Fraction = read(rules, 0, cursor)?;
    let count: Option<u32> = read(rules, 0, cursor)?;
    Ok(Heading {
        version,
        period,
        count,
    })
}

/// Reads the constraints of the cycle that shows the period, if one does, in the second version
/// with their paths.
pub(crate) fn read_shown(
    rules: &Rules,
    version: Version,
    count: Option<u32>,
    cursor: &mut Cursor,
) -> Result<Shown, ReportFault>
    requires line { cursor.old.line < 1000 }
    requires count { IsSmallCount count }
    ensures ok { IfOk result (HasShown rules.now.circuit.now rules.now.scale version count
        cursor.old cursor.new) }
    ensures fault { IfErr result (Stops rules.now.circuit.now rules.now.scale
        (cycle_forms version (unwrap_or count 0)) cursor.old) }
{
    let Some(count) = count else {
        return Ok(Shown {
            shown: PeriodShow::Floor,
            paths: Listed::new(rules.alloc),
        });
    };
    match version {
        Version::First => {
            let cycle = read_rows(rules, 0, count, cursor)?;
            Ok(Shown {
                shown: PeriodShow::Cycle(cycle),
                paths: Listed::new(rules.alloc),
            })
        }
        Version::Second => {
            let (cycle, paths) = read_pathed(rules, count, cursor)?;
            Ok(Shown {
                shown: PeriodShow::Cycle(cycle),
                paths,
            })
        }
    }
}
