ghost use Rattle.std.specs.Prelude.{◌≡◌, List, ℕ, ◌<◌, ◌∷◌, length, position};
ghost use Rattle.cts_base.specs.Vocabulary.{position_or_len, YieldsFirstRef, item_count, is_blank, is_not_blank, words_of};

use std::marker::Model;

/// The words of a line that are left, in order: slices of the line, each a longest run of bytes
/// other than space and tab.
#[derive(Drop)]
pub struct Words<'a> {
    rest: &'a [u8],
}

impl<'a> Model for Words<'a> {
    ghost Value = { List (List ℕ) };

    ghost view = { λ words. words_of words.rest.now };
}

impl<'a> Words<'a> {
    // All words of a line.
    pub(crate) fn of(line: &'a [u8]) -> Words<'a>
        ensures { result ≡ words_of line.now }
    {
        Words { rest: line }
    }
}

impl<'a> Iterator for Words<'a> {
    type Item = &'a [u8];

    ghost next_gives = { YieldsFirstRef (λ words. words) };

    ghost remaining = { item_count (λ words. words) };

    fn next(&mut self) -> Option<&'a [u8]> {
        self.rest = after_blanks(self.rest);
        if self.rest.is_empty() {
            return None;
        }
        let (word, rest) = first_word(self.rest);
        self.rest = rest;
        Some(word)
    }
}

// The line from its first byte other than space and tab on.
fn after_blanks(line: &[u8]) -> &[u8]
    ensures words { words_of result.now ≡ words_of line.now }
    ensures begins { position_or_len is_not_blank result.now ≡ 0 }
{
    match first_not_blank(line) {
        Some(start) => line.split_at(start).1,
        None => &[],
    }
}

// The word that a line begins with, and what follows it.
fn first_word(line: &[u8]) -> (&[u8], &[u8])
    requires some { 0 < length line.now }
    requires begins { position_or_len is_not_blank line.now ≡ 0 }
    ensures { words_of line.now ≡ result.0.now ∷ words_of result.1.now }
{
    match first_blank(line) {
        Some(end) => line.split_at(end),
        None => (line, &[]),
    }
}

fn first_blank(line: &[u8]) -> Option<usize>
    ensures { result ≡ position is_blank line.now }
{
    line.iter().position(|byte| is_blank(*byte))
}

fn first_not_blank(line: &[u8]) -> Option<usize>
    ensures { result ≡ position is_not_blank line.now }
{
    line.iter().position(|byte| !is_blank(*byte))
}

fn is_blank(byte: u8) -> bool
    ensures { result ≡ is_blank byte }
{
    byte == b' ' || byte == b'\t'
}
