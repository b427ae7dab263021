ghost use Rattle.std.specs.Prelude.{◌≡◌, ◌<◌, ◌+◌, ◌^◌, ℕ, List, length};
ghost use Rattle.std.specs.Iterator.{YieldsFirstRef, item_count};
ghost use Rattle.std.specs.List.{list_all};
ghost use Rattle.std.specs.Option.{option_map};
ghost use Rattle.cts_model.specs.Vocabulary.{is_short, tokens_of, inputs_of, more_inputs_of};
ghost use Rattle.bench_reader.specs.Inputs.{token_words};
ghost use Rattle.bench_reader.specs.Tallies.{tally_of, with_names};

use crate::tally::Tally;
use crate::token::{Token, Tokens};
use std::marker::Model;

/// The names in parentheses that end a line, separated by commas. It takes no memory: each walk
/// reads them from the line again.
#[derive(Drop)]
pub(crate) struct InputList<'a> {
    // What stands after the opening parenthesis.
    text: &'a [u8],
    tally: Tally,
}

impl<'a> Model for InputList<'a> {
    ghost Value = { List (List ℕ) };

    ghost view = { λ inputs. token_words (tokens_of inputs.text.now) };

    ghost invariant = { λ inputs. inputs.tally ≡ tally_of (token_words (tokens_of
        inputs.text.now)) };
}

impl<'a> InputList<'a> {
    /// Reads the list after its opening parenthesis. `None` says that it has another form, or that
    /// the line goes on after it.
    pub(crate) fn of(tokens: Tokens<'a>) -> Option<InputList<'a>>
        ensures { result ≡ inputs_of tokens.entry }
    {
        let text = tokens.rest();
        let tally = tally(tokens)?;
        Some(InputList { text, tally })
    }

    /// The names in order.
    pub(crate) fn names(&self) -> Inputs<'a>
        ensures { result ≡ self.now }
    {
        Inputs::of(self.text)
    }

    /// How many names there are.
    pub(crate) fn len(&self) -> usize
        ensures { result ≡ length self.now }
    {
        self.tally.count
    }

    /// Whether no name is too long.
    pub(crate) fn are_short(&self) -> bool
        ensures { result ≡ list_all is_short self.now }
    {
        self.tally.are_short
    }
}

/// The names of a list that are left, in order: slices of the line.
#[derive(Drop)]
pub(crate) struct Inputs<'a> {
    tokens: Tokens<'a>,
}

impl<'a> Model for Inputs<'a> {
    ghost Value = { List (List ℕ) };

    ghost view = { λ inputs. token_words inputs.tokens };
}

impl<'a> Inputs<'a> {
    // All words of a text, whatever stands between them.
    fn of(text: &'a [u8]) -> Inputs<'a>
        ensures { result ≡ token_words (tokens_of text.now) }
    {
        Inputs {
            tokens: Tokens::of(text),
        }
    }
}

impl<'a> Iterator for Inputs<'a> {
    type Item = &'a [u8];

    ghost next_gives = { YieldsFirstRef (λ names. names) };

    ghost remaining = { item_count (λ names. names) };

    fn next(&mut self) -> Option<&'a [u8]> {
        self.tokens.next_word()
    }
}

// The tally of the names of a list after its opening parenthesis. `None` says that it has another
// form, or that the line goes on after it.
fn tally(mut tokens: Tokens) -> Option<Tally>
    requires { length tokens < 2 ^ 64 }
    ensures { result ≡ option_map tally_of (inputs_of tokens.entry) }
{
    let mut tally = Tally::new();
    match tokens.next()? {
        Token::Close if tokens.next().is_none() => Some(tally),
        Token::Word(name) => {
            tally.add(name);
            tally_more(tokens, tally)
        }
        _ => None,
    }
}

// The same after a name, with the tally of the names so far.
fn tally_more(mut tokens: Tokens, mut tally: Tally) -> Option<Tally>
    requires { tally.count + length tokens < 2 ^ 64 }
    ensures { result ≡ option_map (with_names tally) (more_inputs_of tokens.entry) }
{
    loop {
        match tokens.next()? {
            Token::Comma => {}
            Token::Close if tokens.next().is_none() => return Some(tally),
            _ => return None,
        }
        let Token::Word(name) = tokens.next()? else {
            return None;
        };
        tally.add(name);
    }
}
