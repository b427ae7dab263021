//! What is left of a text that is read line by line.

ghost use Rattle.std.specs.Prelude.{MatchBool, [], None, Some, if◌then◌else◌, ◌≡◌, ◌≢◌, ◌==◌, ℕ, List, map, position, IfOk, ◌<◌, length, IfErr};
ghost use Rattle.report_text.specs.Vocabulary.{Extra, is_line_feed, spaced_words, Left, TakesLine, BadLine, Missing};
ghost use Rattle.report_text.specs.declared.fault.ReportFault.TheVariants as faults;

use crate::fault::ReportFault;
use cts_base::NoMemory;
use std::alloc::Global;
use std::marker::Model;

/// What is left of a text, and the number of its first line.
#[derive(Drop)]
pub(crate) struct Cursor<'a> {
    line: u32,
    rest: &'a [u8],
}

impl<'a> Model for Cursor<'a> {
    ghost Value = { Left };

    ghost view = { λ cursor. record { line = cursor.line; text = cursor.rest.now } };
}

impl<'a> Cursor<'a> {
    /// All of a text, whose first line is line 1.
    pub(crate) fn of(text: &'a [u8]) -> Cursor<'a>
        ensures { result ≡ record { line = 1; text = text.now } }
    {
        Cursor {
            line: 1,
            rest: text,
        }
    }

    /// The number of the next line.
    pub(crate) fn line(&self) -> u32
        ensures { result ≡ self.now.line }
    {
        self.line
    }

    /// Nothing may be left.
    pub(crate) fn end(&self) -> Result<(), ReportFault>
        ensures ok { IfOk result (λ _. self.now.text ≡ []) }
        ensures fault { IfErr result (λ found. Some found
            ≡ (if length self.now.text == 0 then None else Some (Extra self.now.line))) }
    {
        if self.rest.is_empty() {
            Ok(())
        } else {
            Err(ReportFault::Extra(self.line))
        }
    }

    /// Takes the next line, and gives its words.
    pub(crate) fn next_words(&mut self, alloc: Global) -> Result<Vec<&'a [u8]>, ReportFault>
        requires { self.old.line < 1000000 }
        ensures ok { IfOk result (λ words. (line : List ℕ) × TakesLine self.old line self.new
            × (map (λ word. word.now) words.items ≡ spaced_words line)) }
        ensures fault { IfErr result (λ fault. fault ≢ faults.NoMemory
            → MatchBool (length self.old.text == 0) (fault ≡ Missing self.old.line)
            ((position is_line_feed self.old.text ≡ None) × (fault ≡ BadLine self.old.line))) }
    {
        if self.rest.is_empty() {
            return Err(ReportFault::Missing(self.line));
        }
        let Some(end) = first_line_feed(self.rest) else {
            return Err(ReportFault::BadLine(self.line));
        };
        let (line, rest) = self.rest.split_at(end);
        self.rest = rest.split_at(1).1;
        self.line += 1;
        Ok(words_of(alloc, line)?)
    }
}

fn first_line_feed(text: &[u8]) -> Option<usize>
    ensures { result ≡ position is_line_feed text.now }
{
    text.iter().position(|byte| *byte == b'\n')
}

// The words of a line.
fn words_of(alloc: Global, line: &[u8]) -> Result<Vec<&[u8]>, NoMemory>
    ensures { IfOk result (λ words. map (λ word. word.now) words.items ≡ spaced_words line.now) }
{
    Ok(line.split(|byte| *byte == b' ').collect(alloc)?)
}
