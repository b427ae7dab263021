//! A line of a report that is read by the form that is due.

ghost use Rattle.std.specs.Prelude.{◌≡◌, ◌<◌, ℕ, length, IfOk, IfErr};
ghost use Rattle.report_text.specs.Vocabulary.{DenotesPath, Words, count_line, flaw_fault, unknown_on, UnknownRegister, ReadsForm, DenotesLine, ReadsLine, StopsLine, Circuit, LineForm, Scale};
ghost use Rattle.report_text.specs.LineForms as form;

use crate::cursor::Cursor;
use crate::fault::ReportFault;
use crate::field::Flaw;
use crate::rules::Rules;
use crate::scan::Scan;
use crate::timing_values::path_of;
use cts_base::{Listed, NoMemory};

/// What a line of a report says. Lines of one form may be numbered.
pub(crate) trait Line: Drop {
    /// The form of a line of that number. What it names are registers.
    ghost due: { ℕ → LineForm };

    /// The words of a line of that number say this.
    ghost says: { Circuit → Scale → ℕ → Words → Self → Type 0 };

    /// Reads the words of a line of that number, which has not been begun.
    fn read(rules: &Rules, number: u32, scan: &mut Scan) -> Result<Self, NoMemory>
        requires some { 0 < length scan.old.words }
        ensures read { IfOk result (λ line. ReadsForm rules.now.circuit.now rules.now.scale
            (due number) (λ words. says rules.now.circuit.now rules.now.scale number words line)
            scan.old scan.new) }
        ensures named { (line : ℕ) → unknown_on (due number) line ≡ UnknownRegister line };
}

/// Reads the line of a number, by the form that is due.
pub(crate) fn read<L: Line>(
    rules: &Rules,
    number: u32,
    cursor: &mut Cursor,
) -> Result<L, ReportFault>
    requires line { cursor.old.line < 1000000 }
    ensures ok { IfOk result (DenotesLine rules.now.circuit.now rules.now.scale (L.due number)
        (L.says rules.now.circuit.now rules.now.scale number) cursor.old cursor.new) }
    ensures fault { IfErr result (StopsLine rules.now.circuit.now rules.now.scale (L.due number)
        cursor.old) }
{
    let at = cursor.line();
    let words = cursor.next_words(rules.alloc)?;
    let mut scan = Scan::of(words.as_slice());
    let line = L::read(rules, number, &mut scan)?;
    match scan.end() {
        None => Ok(line),
        Some(flaw) => Err(fault_of(ReportFault::UnknownRegister(at), at, flaw)),
    }
}

/// Reads the line of a path: its signals, none where it isn't printed.
pub(crate) fn read_path(rules: &Rules, cursor: &mut Cursor) -> Result<Listed<u32>, ReportFault>
    requires line { cursor.old.line < 1000000 }
    ensures ok { IfOk result (DenotesLine rules.now.circuit.now rules.now.scale form.Path
        (DenotesPath rules.now.circuit.now) cursor.old cursor.new) }
    ensures fault { IfErr result (StopsLine rules.now.circuit.now rules.now.scale form.Path
        cursor.old) }
{
    let at = cursor.line();
    let words = cursor.next_words(rules.alloc)?;
    let mut scan = Scan::of(words.as_slice());
    let path = path_of(rules, &mut scan)?;
    match scan.end() {
        None => Ok(path),
        Some(flaw) => Err(fault_of(ReportFault::UnknownSignal(at), at, flaw)),
    }
}

/// Reads the line of a word and how many lines follow.
pub(crate) fn read_count(
    rules: &Rules,
    word: &[u8],
    count: u32,
    cursor: &mut Cursor,
) -> Result<(), ReportFault>
    requires line { cursor.old.line < 1000000 }
    ensures ok { IfOk result (λ _. ReadsLine rules.now.circuit.now rules.now.scale
        (form.Count word.now count) (count_line word.now count) cursor.old cursor.new) }
    ensures fault { IfErr result (StopsLine rules.now.circuit.now rules.now.scale
        (form.Count word.now count) cursor.old) }
{
    let at = cursor.line();
    let words = cursor.next_words(rules.alloc)?;
    let mut scan = Scan::of(words.as_slice());
    scan.keyword(word);
    scan.exactly(count);
    match scan.end() {
        None => Ok(()),
        Some(flaw) => Err(fault_of(ReportFault::UnknownRegister(at), at, flaw)),
    }
}

// The fault that a line has with a flaw, or with a name that is unknown.
fn fault_of(unknown: ReportFault, line: u32, flaw: Flaw) -> ReportFault
    ensures { (form : LineForm) → unknown ≡ unknown_on form line → result
        ≡ flaw_fault form line flaw }
{
    match flaw {
        Flaw::Form | Flaw::Unfit => ReportFault::BadLine(line),
        Flaw::Unknown => unknown,
        Flaw::Large => ReportFault::TooLarge(line),
    }
}
