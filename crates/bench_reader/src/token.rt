ghost use Rattle.std.specs.Prelude.{◌≡◌, ◌≤◌, ◌<◌, List, ◌∷◌, length};
ghost use Rattle.bench_reader.specs.Vocabulary.{prefix_len, YieldsFirstBy, YieldsFirstRef, item_count, is_blank, is_name_byte, tokens_of, mark_of, token_words, token_of};
ghost use Rattle.cts_model.specs.text.Tokens as format;

use std::marker::Model;

// Whether each byte is one of a name: a printable one other than `(`, `)`, `,`, `=` and `#`, or one
// above 127.
const NAME_BYTES: [bool; 256] = [
    false, false, false, false, false, false, false, false, false, false, false, false, false,
    false, false, false, false, false, false, false, false, false, false, false, false, false,
    false, false, false, false, false, false, false, true, true, false, true, true, true, true,
    false, false, true, true, false, true, true, true, true, true, true, true, true, true, true,
    true, true, true, true, true, true, false, true, true, true, true, true, true, true, true,
    true, true, true, true, true, true, true, true, true, true, true, true, true, true, true, true,
    true, true, true, true, true, true, true, true, true, true, true, true, true, true, true, true,
    true, true, true, true, true, true, true, true, true, true, true, true, true, true, true, true,
    true, true, true, true, true, true, true, true, true, false, true, true, true, true, true,
    true, true, true, true, true, true, true, true, true, true, true, true, true, true, true, true,
    true, true, true, true, true, true, true, true, true, true, true, true, true, true, true, true,
    true, true, true, true, true, true, true, true, true, true, true, true, true, true, true, true,
    true, true, true, true, true, true, true, true, true, true, true, true, true, true, true, true,
    true, true, true, true, true, true, true, true, true, true, true, true, true, true, true, true,
    true, true, true, true, true, true, true, true, true, true, true, true, true, true, true, true,
    true, true, true, true, true, true, true, true, true, true, true, true, true, true, true, true,
    true, true, true, true, true, true, true, true, true, true, true,
];

/// A token of a netlist's line.
#[derive(Clone, Copy)]
pub(crate) enum Token<'a> {
    /// A name or a word: a longest run of a name's bytes.
    Word(&'a [u8]),
    /// `(`.
    Open,
    /// `)`.
    Close,
    /// `,`.
    Comma,
    /// `=`.
    Equals,
    /// A byte that belongs nowhere.
    Stray,
}

/// The tokens of a line that are left, in order.
#[derive(Drop)]
pub(crate) struct Tokens<'a> {
    rest: &'a [u8],
}

impl<'a> Model for Tokens<'a> {
    ghost Value = { List format.Token };

    ghost view = { λ tokens. tokens_of tokens.rest.now };
}

impl<'a> Tokens<'a> {
    /// All tokens of a line.
    pub(crate) fn of(line: &'a [u8]) -> Tokens<'a>
        ensures { result ≡ tokens_of line.now }
    {
        Tokens { rest: line }
    }

    /// The bytes of the line that are left.
    pub(crate) fn rest(&self) -> &'a [u8]
        ensures { tokens_of result.now ≡ self.now }
    {
        self.rest
    }

    /// The next word that is left, whatever stands before it.
    pub(crate) fn next_word(&mut self) -> Option<&'a [u8]>
        ensures { YieldsFirstRef token_words self.old result self.new }
    {
        while let Some(token) = self.next() {
            if let Token::Word(word) = token {
                return Some(word);
            }
        }
        None
    }
}

impl<'a> Iterator for Tokens<'a> {
    type Item = Token<'a>;

    ghost next_gives = { YieldsFirstBy token_of (λ tokens. tokens) };

    ghost remaining = { item_count (λ tokens. tokens) };

    fn next(&mut self) -> Option<Token<'a>> {
        self.rest = after_blanks(self.rest);
        if self.rest.is_empty() {
            return None;
        }
        let (token, rest) = first_token(self.rest);
        self.rest = rest;
        Some(token)
    }
}

// The line from its first byte other than space and tab on.
fn after_blanks(line: &[u8]) -> &[u8]
    ensures tokens { tokens_of result.now ≡ tokens_of line.now }
    ensures begins { prefix_len is_blank result.now ≡ 0 }
{
    line.split_at(blank_count(line)).1
}

// The token that a line begins with, and what follows it.
fn first_token(line: &[u8]) -> (Token<'_>, &[u8])
    requires some { 0 < length line.now }
    requires begins { prefix_len is_blank line.now ≡ 0 }
    ensures { tokens_of line.now ≡ token_of result.0 ∷ tokens_of result.1.now }
{
    if is_name_byte(line[0]) {
        let (word, rest) = line.split_at(word_len(line));
        (Token::Word(word), rest)
    } else {
        (mark_of(line[0]), line.split_at(1).1)
    }
}

// How many spaces and tabs a line begins with.
fn blank_count(line: &[u8]) -> usize
    ensures count { result ≡ prefix_len is_blank line.now }
    ensures within { result ≤ length line.now }
{
    line.iter().take_while(|byte| is_blank(**byte)).count()
}

// How many bytes of a name a line begins with.
fn word_len(line: &[u8]) -> usize
    ensures count { result ≡ prefix_len is_name_byte line.now }
    ensures within { result ≤ length line.now }
{
    line.iter().take_while(|byte| is_name_byte(**byte)).count()
}

fn mark_of(byte: u8) -> Token<'static>
    ensures { token_of result ≡ mark_of byte }
{
    match byte {
        b'(' => Token::Open,
        b')' => Token::Close,
        b',' => Token::Comma,
        b'=' => Token::Equals,
        _ => Token::Stray,
    }
}

fn is_name_byte(byte: u8) -> bool
    ensures { result ≡ is_name_byte byte }
{
    NAME_BYTES[byte as usize]
}

fn is_blank(byte: u8) -> bool
    ensures { result ≡ is_blank byte }
{
    byte == b' ' || byte == b'\t'
}
