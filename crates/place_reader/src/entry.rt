ghost use Rattle.std.specs.Prelude.{◌≡◌, ◌≤◌, length, IfSome};
ghost use Rattle.place_reader.specs.Vocabulary.{option_map, entry_of_words, is_header, has_words, words_in, y_len, is_written, said_by};

use crate::tail::is_tail;
use cts_base::Line;

/// The line of a node: its name and its coordinates as they are written.
#[derive(Clone, Copy, Debug, PartialEq, Eq)]
pub(crate) struct Node<'a> {
    pub(crate) name: &'a [u8],
    pub(crate) x: &'a [u8],
    pub(crate) y: &'a [u8],
}

/// What a line of a placement is.
#[derive(Clone, Copy, Debug, PartialEq, Eq)]
pub(crate) enum Entry<'a> {
    /// Nothing but spaces, tabs and a comment.
    Blank,
    /// The header.
    Header,
    /// A node's line.
    Stands(Node<'a>),
}

impl<'a> Entry<'a> {
    /// Reads a line; `begun` says that an earlier one isn't blank. `None` says that it has no form
    /// of the format.
    pub(crate) fn of(begun: bool, line: Line<'a>) -> Option<Entry<'a>>
        ensures said { option_map said_by result
            ≡ entry_of_words begun (words_in line.entry.text.now) }
        ensures written { IfSome result
            (λ entry. is_written (said_by entry) ≡ has_words (words_in line.entry.text.now)) }
    {
        let mut words = line.words();
        let Some(name) = words.next() else {
            return Some(Entry::Blank);
        };
        let x = words.next()?;
        if !begun && is_header(name, x) {
            return Some(Entry::Header);
        }
        let word = words.next()?;
        let (y, part) = word.split_at(y_len(word));
        if y.is_empty() || !is_tail(part, words) {
            return None;
        }
        Some(Entry::Stands(Node { name, x, y }))
    }
}

fn is_header(first: &[u8], second: &[u8]) -> bool
    ensures { result ≡ is_header first.now second.now }
{
    first == b"UCLA".as_slice() && second == b"pl".as_slice()
}

// How many bytes of a word stand before its first colon.
fn y_len(word: &[u8]) -> usize
    ensures count { result ≡ y_len word.now }
    ensures within { result ≤ length word.now }
{
    word.iter().take_while(|byte| **byte != b':').count()
}
