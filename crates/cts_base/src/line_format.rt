ghost use Rattle.std.specs.Prelude.{◌≡◌, ◌≤◌, ◌+◌, ◌++◌, ◌∷◌, [], ℕ, List, Option, None, length, OnOk, IfOk, IfErr};
ghost use Rattle.cts_base.specs.Vocabulary.{lines_of, first_fault, IsFaultOf};

use crate::line_walk::Line;
use crate::text::lines;

/// A format whose texts are read line by line, each line after those before it: what is kept of the
/// lines so far.
pub trait LineFormat<'a> {
    /// Why a text is refused.
    type Fault: Drop;

    // Want of memory.
    ghost no_memory: { Self.Fault };

    // What is wrong with a line after the lines before it, if anything is, where this is the start.
    ghost fault_of: { (start : Self) → List (List ℕ) → List ℕ → Option Self.Fault };

    // This is what the start has become by the lines.
    ghost has_read: { (start : Self) → Self → List (List ℕ) → Type 0 };

    /// Reads the next line.
    fn read_line(&mut self, line: Line<'a>) -> Result<(), Self::Fault>
        ensures flawless { OnOk result ((start : Self) (earlier : List (List ℕ))
            → has_read start self.old earlier → line.entry.number ≡ length earlier + 1
            → (fault_of start earlier line.entry.text.now ≡ None)
            × has_read start self.new (earlier ++ line.entry.text.now ∷ [])) }
        ensures flawed { IfErr result (λ fault. (start : Self) (earlier : List (List ℕ))
            → has_read start self.old earlier → line.entry.number ≡ length earlier + 1
            → IsFaultOf no_memory (fault_of start earlier line.entry.text.now) fault) };
}

/// Reads the lines of a text of at most 16 MiB to the end, or to the first that is faulty. The
/// number that the next line would have is answered. It goes over the bytes once.
///
/// # Errors
///
/// The first fault of the text, or want of memory.
pub fn read_lines<'a, F: LineFormat<'a>>(format: &mut F, text: &'a [u8]) -> Result<u32, F::Fault>
    requires short { length text.now ≤ 16777216 }
    requires start { F.has_read format.old format.old [] }
    ensures flawless { OnOk result (first_fault (F.fault_of format.old) text.now ≡ None) }
    ensures read { OnOk result (F.has_read format.old format.new (lines_of text.now)) }
    ensures next { IfOk result (λ next. next ≡ length (lines_of text.now) + 1) }
    ensures flawed { IfErr result
        (IsFaultOf F.no_memory (first_fault (F.fault_of format.old) text.now)) }
{
    let mut next = 1;
    for line in lines(text) {
        format.read_line(line)?;
        next = line.number + 1;
    }
    Ok(next)
}
