//! Why a command isn't done, and the line that says so.

ghost use Rattle.std.specs.Prelude.{◌≡◌};
ghost use Rattle.failure_lines.specs.Failures.{status_of, reason_text, refused_text, failure_text, failure_line, Reports};
ghost use Rattle.failure_lines.specs.Line.{Puts};

use crate::file_kind::FileKind;
use crate::line::Line;
use crate::pieces::{Piece, put_both, put_each, put_number};
use crate::words::Words;
use cts_io::Sink;

/// Why a command isn't done.
#[derive(Debug, Drop)]
pub enum Failure {
    /// The words are no command.
    Usage,
    /// A file has more bytes than a file may have. A report that has isn't shown.
    TooLong(FileKind),
    /// What a file holds is refused: the number of its fault, and the words about it.
    Refused(FileKind, u32, Words),
    /// One of the first corner's table and this one's gives the host a place, and the other
    /// doesn't.
    CornerHost(u32),
    /// More than 1,048,576 pairs of registers are joined by paths.
    Pairs,
    /// The report doesn't show what it says: the number of the reason, and the words about it.
    Unshown(u32, Words),
    /// A file couldn't be read.
    ReadFault(FileKind),
    /// The output couldn't be written.
    WriteFault,
    /// Memory was refused.
    NoMemory,
}

const USAGE: &[u8] = b"usage: cts zero --bench F [--tech F] | cts period --bench F --tech F \
    | cts schedule --bench F --tech F | cts synth --bench F --tech F --pl F \
    | cts check --bench F --tech F --pl F --report F | cts demo --registers N --seed S \
    | cts margin --bench F --tech F --period P \
    | cts embed --bench F --tech F --pl F --topology F \
    | cts moves --bench F --tech F --pl F --moves F | cts corners --bench F T1 .. Tk";

const REASONS: [&[u8]; 15] = [
    b"",
    b" below floor",
    b" cycle broken",
    b" not of circuit",
    b" cycle value",
    b" schedule misses",
    b" tree shape",
    b" too short",
    b" wire sum",
    b" skew differs",
    b" unshown",
    b" total",
    b" slack differs",
    b" path broken",
    b" not least",
];

impl Failure {
    /// The program's exit status.
    pub fn status(&self) -> u8
        ensures { result ≡ status_of self.now }
    {
        match self {
            Failure::Usage => 2,
            Failure::TooLong(FileKind::Report) | Failure::Unshown(_, _) => 7,
            Failure::Refused(FileKind::Report, _, _) => 7,
            Failure::TooLong(_) | Failure::Refused(_, _, _) => 3,
            Failure::Pairs | Failure::CornerHost(_) => 3,
            Failure::ReadFault(_) => 4,
            Failure::WriteFault => 5,
            Failure::NoMemory => 6,
        }
    }

    /// Writes the line that says why, without memory: at once where it has at most 4,096 bytes, and
    /// else in pieces of so many. A sink that fails ends it: there is nowhere else to tell of that.
    pub fn report<E: Sink>(&self, err: &mut E)
        ensures { Reports (failure_line self.now)
            (E.written err.old) (E.faults err.old) (E.written err.new) (E.faults err.new) }
    {
        let mut line = Line::new();
        self.put(&mut line, err);
        line.push(b'\n', err);
        line.flush(err);
    }
}

impl Piece for Failure {
    ghost text = { failure_text };

    fn put<E: Sink>(&self, line: &mut Line, err: &mut E) {
        match self {
            Failure::Usage => USAGE.put(line, err),
            Failure::TooLong(kind) => put_both(kind, &b" long".as_slice(), line, err),
            Failure::Refused(kind, number, words) => {
                kind.put(line, err);
                put_number(b" ", *number, b"", line, err);
                words.put(line, err);
            }
            Failure::CornerHost(number) => {
                put_number(b"refused corner ", *number, b" host", line, err);
            }
            Failure::Pairs => b"refused pairs".as_slice().put(line, err),
            Failure::Unshown(number, words) => {
                put_number(b"not shown ", *number, reason_text(*number), line, err);
                words.put(line, err);
            }
            Failure::ReadFault(kind) => put_read_fault(*kind, line, err),
            Failure::WriteFault => b"write fault".as_slice().put(line, err),
            Failure::NoMemory => b"no memory".as_slice().put(line, err),
        }
    }
}

// What a line begins with that says that a file of this kind is refused.
impl Piece for FileKind {
    ghost text = { refused_text };

    fn put<E: Sink>(&self, line: &mut Line, err: &mut E) {
        match self {
            FileKind::Report => b"not shown report".as_slice().put(line, err),
            FileKind::Corner(number) => {
                put_number(b"refused corner ", *number, b" tech", line, err);
            }
            kind => put_each(&[b"refused ", kind.word()], line, err),
        }
    }
}

// Puts that a file of this kind couldn't be read.
fn put_read_fault<E: Sink>(kind: FileKind, line: &mut Line, err: &mut E)
    ensures { Puts (failure_text (Failure.ReadFault kind))
        (line.old, E.written err.old, E.faults err.old)
        (line.new, E.written err.new, E.faults err.new) }
{
    match kind {
        FileKind::Corner(number) => put_number(b"read fault corner ", number, b"", line, err),
        kind => put_each(&[b"read fault ", kind.word()], line, err),
    }
}

// What the reason of this number says, after a space.
fn reason_text(number: u32) -> &'static [u8]
    ensures { result.now ≡ reason_text number }
{
    match REASONS.as_slice().get(number as usize) {
        Some(text) => text,
        None => b"",
    }
}
