ghost use Rattle.std.specs.Prelude.{◌≡◌, ◌≤◌, ◌<◌, ◌+◌, ◌^◌, List, ℕ, Some, ◌∷◌, length, position, take, IfSome};
ghost use Rattle.cts_base.specs.Vocabulary.{enumerate_from, strip_carriage_return, YieldsFirstBy, item_count, is_line_feed, lines_of, numbered_lines, before_hash, words_of};

use crate::text::{before_comment, words};
use crate::word_walk::Words;
use memchr::{memchr, memchr2};
use std::marker::Model;

/// A line of a text.
#[derive(Clone, Copy, Debug, PartialEq, Eq)]
pub struct Line<'a> {
    /// Counted from 1.
    pub number: u32,
    /// The line without its end, a slice of the text.
    pub text: &'a [u8],
    /// The part of the line before its first `#`.
    pub content: &'a [u8],
    pub ghost cut: { content.now ≡ before_hash text.now },
}

impl<'a> Line<'a> {
    /// Walks the words of the line, its comment cut off. It takes no memory.
    pub fn words(self) -> Words<'a>
        ensures { result ≡ words_of (before_hash self.entry.text.now) }
    {
        words(self.content)
    }
}

/// The lines of a text that are left, in order, each after its number.
#[derive(Drop)]
pub struct Lines<'a> {
    number: u32,
    rest: &'a [u8],
}

impl<'a> Model for Lines<'a> {
    ghost Value = { List (ℕ × List ℕ) };

    ghost view = { λ lines. enumerate_from lines.number (lines_of lines.rest.now) };

    ghost invariant = { λ lines. lines.number + length lines.rest.now < 2 ^ 32 };
}

impl<'a> Lines<'a> {
    // All lines of a text.
    pub(crate) fn of(text: &'a [u8]) -> Lines<'a>
        requires { length text.now ≤ 16777216 }
        ensures { result ≡ numbered_lines text.now }
    {
        Lines {
            number: 1,
            rest: text,
        }
    }
}

impl<'a> Iterator for Lines<'a> {
    type Item = Line<'a>;

    ghost next_gives = { YieldsFirstBy (λ line. (line.number, line.text.now)) (λ lines. lines) };

    ghost remaining = { item_count (λ lines. lines) };

    fn next(&mut self) -> Option<Line<'a>> {
        if self.rest.is_empty() {
            return None;
        }
        let (line, rest) = first_line(self.number, self.rest);
        self.number += 1;
        self.rest = rest;
        Some(line)
    }
}

// The first line of a text that isn't empty, under this number, and what follows its end.
fn first_line(number: u32, text: &[u8]) -> (Line<'_>, &[u8])
    requires { 0 < length text.now }
    ensures number { result.0.number ≡ number }
    ensures line { lines_of text.now ≡ result.0.text.now ∷ lines_of result.1.now }
    ensures shorter { length result.1.now < length text.now }
{
    match plain_end(text) {
        Some(end) => {
            let (text, rest) = cut_at(text, end);
            let content = text;
            (
                Line {
                    number,
                    text,
                    content,
                },
                rest,
            )
        }
        None => {
            let (text, rest) = split_line(text);
            let content = before_comment(text);
            (
                Line {
                    number,
                    text,
                    content,
                },
                rest,
            )
        }
    }
}

// The first line of a text that isn't empty, and what follows its end.
fn split_line(text: &[u8]) -> (&[u8], &[u8])
    requires { 0 < length text.now }
    ensures line { lines_of text.now ≡ result.0.now ∷ lines_of result.1.now }
    ensures shorter { length result.1.now < length text.now }
{
    match first_line_feed(text) {
        Some(end) => cut_at(text, end),
        None => (without_carriage_return(text), &[]),
    }
}

// The line that the first line feed ends, and what follows it.
fn cut_at(text: &[u8], end: usize) -> (&[u8], &[u8])
    requires { position is_line_feed text.now ≡ Some end }
    ensures first { result.0.now ≡ strip_carriage_return (take end text.now) }
    ensures line { lines_of text.now ≡ result.0.now ∷ lines_of result.1.now }
    ensures shorter { length result.1.now < length text.now }
{
    let (line, rest) = text.split_at(end);
    (without_carriage_return(line), rest.split_at(1).1)
}

// Where a line feed ends the first line of a text, if no comment stands before it.
fn plain_end(text: &[u8]) -> Option<usize>
    ensures end { IfSome result (λ end. position is_line_feed text.now ≡ Some end) }
    ensures plain { IfSome result (λ end. let line = strip_carriage_return (take end text.now) in
        before_hash line ≡ line) }
{
    let end = memchr2(b'\n', b'#', text)?;
    if text[end] == b'\n' { Some(end) } else { None }
}

fn first_line_feed(text: &[u8]) -> Option<usize>
    ensures { result ≡ position is_line_feed text.now }
{
    memchr(b'\n', text)
}

fn without_carriage_return(line: &[u8]) -> &[u8]
    ensures { result.now ≡ strip_carriage_return line.now }
{
    line.strip_suffix(b"\r").unwrap_or(line)
}
