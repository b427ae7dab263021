//! Lines of one form, one after the other.

ghost use Rattle.std.specs.Prelude.{◌<◌, ◌+◌, ◌*◌, ◌∷◌, IfOk, IfErr, map};
ghost use Rattle.report_text.specs.Vocabulary.{range_with_len, cycle_forms, Counted, HasPathed, HasRows, Stops, Second};
ghost use Rattle.report_text.specs.LineForms as form;

use crate::cursor::Cursor;
use crate::fault::ReportFault;
use crate::reader::line::{Line, read, read_count, read_path};
use crate::rules::Rules;
use cts_base::Listed;
use cts_model::Constraint;

/// Reads so many lines, after how many they are. The first has this number.
pub(crate) fn read_counted<L: Line>(
    rules: &Rules,
    word: &[u8],
    first: u32,
    count: u32,
    cursor: &mut Cursor,
) -> Result<Listed<L>, ReportFault>
    requires few { cursor.old.line + first + count < 900000 }
    ensures ok { IfOk result (Counted rules.now.circuit.now rules.now.scale word.now L.due
        (L.says rules.now.circuit.now rules.now.scale) first count cursor.old cursor.new) }
    ensures fault { IfErr result (Stops rules.now.circuit.now rules.now.scale
        (form.Count word.now count ∷ map L.due (range_with_len first count)) cursor.old) }
{
    read_count(rules, word, count, cursor)?;
    let rows = read_rows(rules, first, count, cursor)?;
    Ok(rows)
}

/// Reads so many lines. The first has this number.
pub(crate) fn read_rows<L: Line>(
    rules: &Rules,
    first: u32,
    count: u32,
    cursor: &mut Cursor,
) -> Result<Listed<L>, ReportFault>
    requires few { cursor.old.line + first + count < 1000000 }
    ensures ok { IfOk result (HasRows rules.now.circuit.now rules.now.scale L.due
        (L.says rules.now.circuit.now rules.now.scale) first count cursor.old cursor.new) }
    ensures fault { IfErr result (Stops rules.now.circuit.now rules.now.scale
        (map L.due (range_with_len first count)) cursor.old) }
{
    let mut rows = Listed::new(rules.alloc);
    for place in 0..count {
        let row = read(rules, first + place, cursor)?;
        rows.push(row)?;
    }
    Ok(rows)
}

/// Reads so many constraints of a cycle, each with its path.
pub(crate) fn read_pathed(
    rules: &Rules,
    count: u32,
    cursor: &mut Cursor,
) -> Result<(Listed<Constraint>, Listed<Listed<u32>>), ReportFault>
    requires few { cursor.old.line + 2 * count < 1000000 }
    ensures ok { IfOk result (HasPathed rules.now.circuit.now rules.now.scale count
        cursor.old cursor.new) }
    ensures fault { IfErr result (Stops rules.now.circuit.now rules.now.scale
        (cycle_forms Second count) cursor.old) }
{
    let mut cycle = Listed::new(rules.alloc);
    let mut paths = Listed::new(rules.alloc);
    for _place in 0..count {
        let constraint: Constraint = read(rules, 0, cursor)?;
        let path = read_path(rules, cursor)?;
        cycle.push(constraint)?;
        paths.push(path)?;
    }
    Ok((cycle, paths))
}
