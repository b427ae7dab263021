//! The pieces of a line, which are put one after the other.

ghost use Rattle.std.specs.Prelude.{◌≡◌, ℕ, List, ◌++◌, ◌∷◌, [], decimal};
ghost use Rattle.failure_lines.specs.Vocabulary.{flat_map, printable_byte, Puts};

use crate::line::Line;
use cts_base::Name;
use cts_io::Sink;
use itoa::Buffer;

// A piece of a line: bytes as they are, a byte of a text that may have any, or a name, which stands
// after a space.
pub(crate) trait Piece {
    ghost text: { Self → List ℕ };

    fn put<E: Sink>(&self, line: &mut Line, err: &mut E)
        ensures { Puts (text self.now) (line.old, E.written err.old, E.faults err.old)
            (line.new, E.written err.new, E.faults err.new) };
}

impl<'a> Piece for &'a [u8] {
    ghost text = { λ piece. piece.now };

    fn put<E: Sink>(&self, line: &mut Line, err: &mut E) {
        for byte in *self {
            line.push(*byte, err);
        }
    }
}

impl Piece for u8 {
    ghost text = { λ byte. printable_byte byte ∷ [] };

    fn put<E: Sink>(&self, line: &mut Line, err: &mut E) {
        line.push(shown_byte(*self), err);
    }
}

impl Piece for Name {
    ghost text = { λ name. 32 ∷ name };

    fn put<E: Sink>(&self, line: &mut Line, err: &mut E) {
        put_each(&[b" ", self.as_slice()], line, err);
    }
}

// Puts pieces, one after the other.
pub(crate) fn put_each<P: Piece, E: Sink>(pieces: &[P], line: &mut Line, err: &mut E)
    ensures { Puts (flat_map P.text pieces.now) (line.old, E.written err.old, E.faults err.old)
        (line.new, E.written err.new, E.faults err.new) }
{
    for piece in pieces {
        piece.put(line, err);
    }
}

// Puts two pieces, one after the other.
pub(crate) fn put_both<P: Piece, Q: Piece, E: Sink>(
    first: &P,
    second: &Q,
    line: &mut Line,
    err: &mut E,
)
    ensures { Puts (P.text first.now ++ Q.text second.now)
        (line.old, E.written err.old, E.faults err.old)
        (line.new, E.written err.new, E.faults err.new) }
{
    first.put(line, err);
    second.put(line, err);
}

// Puts a number between other bytes.
pub(crate) fn put_number<E: Sink>(
    before: &[u8],
    number: u32,
    after: &[u8],
    line: &mut Line,
    err: &mut E,
)
    ensures { Puts (before.now ++ decimal number ++ after.now)
        (line.old, E.written err.old, E.faults err.old)
        (line.new, E.written err.new, E.faults err.new) }
{
    let mut buffer = Buffer::new();
    let number = buffer.format(number).as_bytes();
    put_each(&[before, number, after], line, err);
}

fn shown_byte(byte: u8) -> u8
    ensures { result ≡ printable_byte byte }
{
    match byte {
        b'!'..=b'~' => byte,
        _ => b'?',
    }
}
