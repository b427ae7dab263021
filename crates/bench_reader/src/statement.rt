ghost use Rattle.std.specs.Prelude.{◌≡◌, ◌≢◌, ◌↔◌, ℕ, List, [], ◌∷◌, IfSome, IsNone, IsTrue};
ghost use Rattle.bench_reader.specs.Vocabulary.{option_map, str_eq_ignore_ascii_case, list_all, is_short, statement_of, form_of, declaration_of, names_of, Word, Close, Equals, Blank, said_by};

use crate::input_list::InputList;
use crate::tally::is_short;
use crate::token::{Token, Tokens};
use cts_base::Line;

/// What a line of a netlist says.
#[derive(Drop)]
pub(crate) enum Statement<'a> {
    /// Nothing but spaces, tabs and a comment.
    Blank,
    /// A primary input.
    Input(&'a [u8]),
    /// A primary output is mentioned.
    Output(&'a [u8]),
    /// A gate or a register: its name, the word of its kind and the names that it reads.
    Assign {
        name: &'a [u8],
        word: &'a [u8],
        inputs: InputList<'a>,
    },
}

impl<'a> Statement<'a> {
    /// Reads a line. `None` says that it has no form of the format.
    pub(crate) fn of(line: Line<'a>) -> Option<Statement<'a>>
        ensures { option_map said_by result ≡ statement_of line.entry.text.now }
    {
        let mut tokens = Tokens::of(line.content);
        let Some(first) = tokens.next() else {
            return Some(Statement::Blank);
        };
        let Token::Word(word) = first else {
            return None;
        };
        match tokens.next()? {
            Token::Open => declaration(word, closed_name(&mut tokens)?),
            Token::Equals => assignment(word, tokens),
            _ => None,
        }
    }

    /// Whether the line says nothing.
    pub(crate) fn is_blank(&self) -> bool
        ensures { IsTrue result ↔ (said_by self.now ≡ Blank) }
    {
        matches!(self, Statement::Blank)
    }

    /// Whether no name on the line is too long.
    pub(crate) fn has_short_names(&self) -> bool
        ensures { result ≡ list_all is_short (names_of (said_by self.now)) }
    {
        match self {
            Statement::Blank => true,
            Statement::Input(name) => is_short(name),
            Statement::Output(name) => is_short(name),
            Statement::Assign { name, inputs, .. } => is_short(name) && inputs.are_short(),
        }
    }
}

// The statement that a word makes of the name in parentheses after it.
fn declaration<'a>(word: &'a [u8], name: &'a [u8]) -> Option<Statement<'a>>
    ensures { option_map said_by result ≡ declaration_of word.now name.now }
{
    if same_word(word, b"INPUT") {
        Some(Statement::Input(name))
    } else if same_word(word, b"OUTPUT") {
        Some(Statement::Output(name))
    } else {
        None
    }
}

// The statement that a name and the tokens after `=` make.
fn assignment<'a>(name: &'a [u8], mut tokens: Tokens<'a>) -> Option<Statement<'a>>
    ensures { option_map said_by result ≡ form_of (Word name.now ∷ Equals ∷ tokens.entry) }
{
    let Token::Word(word) = tokens.next()? else {
        return None;
    };
    let Token::Open = tokens.next()? else {
        return None;
    };
    let inputs = InputList::of(tokens)?;
    Some(Statement::Assign { name, word, inputs })
}

// The name that stands before a closing parenthesis and the end of the line.
fn closed_name<'a>(tokens: &mut Tokens<'a>) -> Option<&'a [u8]>
    ensures some { IfSome result (λ name. tokens.old ≡ Word name.now ∷ Close ∷ []) }
    ensures none { IsNone result → (name : List ℕ) → tokens.old ≢ Word name ∷ Close ∷ [] }
{
    let Token::Word(name) = tokens.next()? else {
        return None;
    };
    match tokens.next()? {
        Token::Close if tokens.next().is_none() => Some(name),
        _ => None,
    }
}

// Whether two words differ at most in ASCII case.
fn same_word(word: &[u8], other: &[u8]) -> bool
    ensures { result ≡ str_eq_ignore_ascii_case word.now other.now }
{
    word.eq_ignore_ascii_case(other)
}
