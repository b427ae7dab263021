//! The words of a refusal.

ghost use Rattle.std.specs.Prelude.{◌≡◌};
ghost use Rattle.failure_lines.specs.Vocabulary.{word_of, limit_word, number_word, words_text};

use crate::line::Line;
use crate::pieces::{Piece, put_each, put_number};
use bench_reader::Which;
use cts_base::{Listed, Name, NumberFault};
use cts_io::Sink;
use cts_model::Kind;

/// What the line of a refusal says after the number of the fault. Lines are counted from 1.
#[derive(Debug, Drop)]
pub enum Words {
    /// Nothing more.
    Nothing,
    /// The number of a line.
    Line(u32),
    /// The number of a line, and the limit that it passes.
    Limit(u32, Which),
    /// The number of a line, and what is wrong with a number in it.
    Number(u32, NumberFault),
    /// The name of a key, which may have any bytes.
    Key(Name),
    /// A kind of gates.
    Gate(Kind),
    /// The name of a register.
    Register(Name),
    /// The names of gates that read one another in a ring.
    Loop(Listed<Name>),
    /// A place of a cycle, or a node of a tree.
    Place(u32),
}

impl Piece for Words {
    ghost text = { words_text };

    fn put<E: Sink>(&self, line: &mut Line, err: &mut E) {
        match self {
            Words::Nothing => {}
            Words::Line(number) => put_number(b" line ", *number, b"", line, err),
            Words::Limit(number, which) => {
                put_number(b" line ", *number, limit_word(*which), line, err);
            }
            Words::Number(number, fault) => {
                put_number(b" line ", *number, number_word(*fault), line, err);
            }
            Words::Key(key) => {
                line.push(b' ', err);
                put_each(key.as_slice(), line, err);
            }
            Words::Gate(gate) => put_each(&[b" ", gate_word(*gate)], line, err),
            Words::Register(name) => name.put(line, err),
            Words::Loop(names) => put_each(names.as_slice(), line, err),
            Words::Place(place) => put_number(b" ", *place, b"", line, err),
        }
    }
}

// The limit that a line passes, after a space.
fn limit_word(which: Which) -> &'static [u8]
    ensures { result.now ≡ limit_word which }
{
    match which {
        Which::Name => b" name",
        Which::Signals => b" signals",
        Which::Registers => b" registers",
        Which::Inputs => b" inputs",
    }
}

// What is wrong with a number, after a space.
fn number_word(fault: NumberFault) -> &'static [u8]
    ensures { result.now ≡ number_word fault }
{
    match fault {
        NumberFault::NotNumber => b" 1",
        NumberFault::TooFine => b" 2",
        NumberFault::TooLarge => b" 3",
    }
}

// The word of a gate kind in a delay table.
fn gate_word(kind: Kind) -> &'static [u8]
    ensures { result.now ≡ word_of kind }
{
    match kind {
        Kind::And => b"AND",
        Kind::Nand => b"NAND",
        Kind::Or => b"OR",
        Kind::Nor => b"NOR",
        Kind::Not => b"NOT",
        Kind::Xor => b"XOR",
        Kind::Xnor => b"XNOR",
        Kind::Buff => b"BUFF",
        Kind::Input | Kind::Dff | Kind::Host => b"",
    }
}
