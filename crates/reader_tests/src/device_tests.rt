ghost use Rattle.std.specs.Prelude.{◌≤◌, IsOk, IsErrOf};

use crate::held_files::held_files;
use crate::same::expect_same;
use cts_io::{
    Failed, FileOpener, HostInputs, HostSink, Inputs, NeverFails, ReadWhole, StartFault, open_file,
    read_next, read_whole, write_prefix, write_whole,
};
use std::alloc::Global;
use std::io;
use std::io::{ErrorKind, Read, Write};
use std::process::Abort;

// What a call on a stream answers: so many bytes at most, or an error.
#[derive(Clone, Copy, Debug)]
enum Turn {
    Gives(usize),
    Errs(ErrorKind),
}

const INTERRUPTED: Turn = Turn::Errs(ErrorKind::Interrupted);

const BROKEN: Turn = Turn::Errs(ErrorKind::BrokenPipe);

const MEMORY: Turn = Turn::Errs(ErrorKind::OutOfMemory);

// The turn of a stream that gives all its bytes at once, and what it has.
const WHOLE: &[Turn] = &[Turn::Gives(9)];

const WORDS: &[u8] = b"abcdef";

// The turns of a stream, and how many of them are over. After the last one it gives nothing.
#[derive(Drop)]
struct Turns<'a> {
    turns: &'a [Turn],
    over: usize,
}

impl<'a> Turns<'a> {
    fn next_turn(&mut self) -> io::Result<usize> {
        let turn = self.turns.get(self.over).copied();
        self.over = self.over.saturating_add(1);
        match turn {
            Some(Turn::Gives(most)) => Ok(most),
            Some(Turn::Errs(kind)) => Err(io::Error::from(kind)),
            None => Ok(0),
        }
    }
}

#[derive(Drop)]
struct Reader<'a> {
    turns: Turns<'a>,
    bytes: &'a [u8],
}

impl<'a> Read for Reader<'a> {
    fn read(&mut self, into: &mut [u8]) -> io::Result<usize> {
        let most = self.turns.next_turn()?;
        let count = most.min(into.len()).min(self.bytes.len());
        into[..count].copy_from_slice(&self.bytes[..count]);
        self.bytes = &self.bytes[count..];
        Ok(count)
    }
}

// Each call that gives opens the stream of the name's bytes.
#[derive(Drop)]
struct Opener<'a> {
    turns: Turns<'a>,
}

impl<'a> FileOpener for Opener<'a> {
    type File = Reader<'a>;

    ghost opens = { λ _ _ _ _. Unit {0} };

    fn open_once(&mut self, _name: &str) -> io::Result<Reader<'a>> {
        let most = self.turns.next_turn()?;
        Ok(Reader {
            turns: Turns {
                turns: WHOLE,
                over: 0,
            },
            bytes: &WORDS[..most.min(WORDS.len())],
        })
    }
}

#[derive(Drop)]
struct Writer<'a> {
    turns: Turns<'a>,
    written: Vec<u8>,
}

impl<'a> Write for Writer<'a> {
    fn write(&mut self, piece: &[u8]) -> io::Result<usize> {
        let most = self.turns.next_turn()?;
        let count = most.min(piece.len());
        self.written.extend_from_slice(&piece[..count])?;
        Ok(count)
    }

    fn flush(&mut self) -> io::Result<()> {
        Ok(())
    }
}

fn writer_over<'a>(alloc: Global, turns: &'a [Turn]) -> Writer<'a> {
    Writer {
        turns: Turns { turns, over: 0 },
        written: Vec::new(alloc),
    }
}

// What the reads into a buffer of 4 bytes tell of "abcdef".
fn expect_reads(
    rt: &impl Abort,
    alloc: Global,
    turns: &[Turn],
    denoted: [Result<usize, Failed>; 3],
) {
    let mut stream = Reader {
        turns: Turns { turns, over: 0 },
        bytes: b"abcdef",
    };
    let mut seen = Vec::new(alloc);
    for want in &denoted {
        let mut buffer = [0u8; 4];
        let read = read_next(&mut stream, &mut buffer);
        expect_same(rt, read, *want, &turns);
        if let Ok(count) = read {
            seen.extend_from_slice(&buffer[..count])
                .expect(rt, "memory");
        }
    }
    assert!(rt; b"abcdef".starts_with(seen.as_slice()), "over {turns:?}");
}

// The turns of a stream, and what three reads tell.
const READS: [(&[Turn], [Result<usize, Failed>; 3]); 5] = [
    (&[Turn::Gives(9), Turn::Gives(9)], [Ok(4), Ok(2), Ok(0)]),
    (
        &[Turn::Gives(1), INTERRUPTED, INTERRUPTED, Turn::Gives(2)],
        [Ok(1), Ok(2), Ok(0)],
    ),
    // An error is no end, and what comes after it is still read.
    (
        &[Turn::Gives(3), BROKEN, Turn::Gives(2)],
        [Ok(3), Err(Failed), Ok(2)],
    ),
    (
        &[INTERRUPTED, BROKEN, BROKEN, INTERRUPTED, Turn::Gives(1)],
        [Err(Failed), Err(Failed), Ok(1)],
    ),
    (&[], [Ok(0), Ok(0), Ok(0)]),
];

#[test]
fn reads_what_a_stream_gives(rt: HostRuntime) {
    for (turns, denoted) in &READS {
        expect_reads(&rt, rt.alloc(), turns, *denoted);
    }
}

// A start over an opener: what it gives, and how many calls it made.
fn expect_opened(rt: &impl Abort, turns: &[Turn], denoted: Result<(), StartFault>, calls: usize) {
    let mut opener = Opener {
        turns: Turns { turns, over: 0 },
    };
    let opened = open_file(&mut opener, "a");
    expect_same(rt, opened.err(), denoted.err(), &turns);
    expect_same(rt, opener.turns.over, calls, &turns);
}

// A start of inputs over an opener, and what a take gives after it.
fn expect_started(rt: &impl Abort, turns: &[Turn], denoted: Result<(), StartFault>, given: usize) {
    let mut inputs = HostInputs::new(Opener {
        turns: Turns { turns, over: 0 },
    });
    let mut buffer = [0u8; 8];
    expect_same(rt, inputs.start("a"), denoted, &turns);
    expect_same(rt, inputs.take("a", &mut buffer), Ok(given), &turns);
}

// The turns of an opener, what a start gives, how many calls it made, and what a take gives.
const STARTS: [(&[Turn], Result<(), StartFault>, usize, usize); 6] = [
    (&[Turn::Gives(6), Turn::Gives(2)], Ok(()), 1, 6),
    (&[INTERRUPTED, INTERRUPTED, Turn::Gives(4)], Ok(()), 3, 4),
    (
        &[INTERRUPTED, BROKEN, Turn::Gives(6)],
        Err(StartFault::Failed),
        2,
        0,
    ),
    (&[BROKEN, Turn::Gives(6)], Err(StartFault::Failed), 1, 0),
    (&[MEMORY, Turn::Gives(6)], Err(StartFault::NoMemory), 1, 0),
    (&[INTERRUPTED, MEMORY], Err(StartFault::NoMemory), 2, 0),
];

#[test]
fn starts_what_an_opener_gives(rt: HostRuntime) {
    for (turns, denoted, calls, given) in &STARTS {
        expect_opened(&rt, turns, *denoted, *calls);
        expect_started(&rt, turns, *denoted, *given);
    }
}

fn expect_prefix(
    rt: &impl Abort,
    alloc: Global,
    piece: &str,
    turns: &[Turn],
    denoted: Result<usize, Failed>,
    written: &str,
    calls: usize,
) {
    let mut stream = writer_over(alloc, turns);
    let write = write_prefix(&mut stream, piece.as_bytes());
    expect_same(rt, write, denoted, &turns);
    expect_same(rt, stream.written.as_slice(), written.as_bytes(), &turns);
    expect_same(rt, stream.turns.over, calls, &turns);
}

// A write of a piece: what it gives, what is written, and how many calls it made.
const WRITES: [(&str, &[Turn], Result<usize, Failed>, &str, usize); 8] = [
    ("abcdef", &[Turn::Gives(9)], Ok(6), "abcdef", 1),
    ("abcdef", &[Turn::Gives(2), Turn::Gives(2)], Ok(2), "ab", 1),
    (
        "abcdef",
        &[Turn::Gives(0), Turn::Gives(2)],
        Err(Failed),
        "",
        1,
    ),
    ("abcdef", &[BROKEN, Turn::Gives(2)], Err(Failed), "", 1),
    ("abcdef", &[INTERRUPTED, Turn::Gives(3)], Ok(3), "abc", 2),
    ("abcdef", &[INTERRUPTED, BROKEN], Err(Failed), "", 2),
    ("abcdef", &[INTERRUPTED, Turn::Gives(0)], Err(Failed), "", 2),
    ("", &[BROKEN], Ok(0), "", 0),
];

#[test]
fn writes_what_a_stream_takes(rt: HostRuntime) {
    for (piece, turns, denoted, written, calls) in &WRITES {
        expect_prefix(&rt, rt.alloc(), piece, turns, *denoted, written, *calls);
    }
}

// The sink of the host over a stream: all of "abcdef", or what was taken before the fault.
fn expect_sunk(
    rt: &impl Abort,
    alloc: Global,
    turns: &[Turn],
    denoted: Result<(), Failed>,
    written: &str,
) {
    let mut stream = writer_over(alloc, turns);
    let all = write_whole(&mut HostSink::new(&mut stream), b"abcdef");
    expect_same(rt, all, denoted, &turns);
    expect_same(rt, stream.written.as_slice(), written.as_bytes(), &turns);
}

const SUNK: [(&[Turn], Result<(), Failed>, &str); 3] = [
    (
        &[Turn::Gives(2), INTERRUPTED, Turn::Gives(3), Turn::Gives(9)],
        Ok(()),
        "abcdef",
    ),
    (&[Turn::Gives(2), BROKEN, Turn::Gives(9)], Err(Failed), "ab"),
    (&[Turn::Gives(5), Turn::Gives(0)], Err(Failed), "abcde"),
];

#[test]
fn sinks_write_on_after_short_pieces(rt: HostRuntime) {
    for (turns, denoted, written) in &SUNK {
        expect_sunk(&rt, rt.alloc(), turns, *denoted, written);
    }
}

// Over inputs that never fail no read is a fault, by their contract alone.
fn read_held(
    alloc: Global,
    inputs: &mut NeverFails,
    name: &str,
    limit: usize,
) -> Result<Vec<u8>, ReadWhole>
    requires { limit ≤ 16777216 }
    ensures { ¬ IsErrOf result ReadWhole.Failed }
{
    read_whole(alloc, inputs, name, limit)
}

// The same of writes.
fn write_held(sink: &mut NeverFails, bytes: &[u8]) -> Result<(), Failed>
    ensures { IsOk result }
{
    write_whole(sink, bytes)
}

// A file is read and written without a fault.
fn expect_held(rt: &impl Abort, alloc: Global, held: &mut NeverFails, name: &str, text: &str) {
    let bytes = read_held(alloc, held, name, 11).expect(rt, "a file");
    expect_same(rt, bytes.as_slice(), text.as_bytes(), &name);
    expect_same(
        rt,
        write_held(held, bytes.as_slice()),
        Ok(()),
        &"write_held",
    );
}

#[test]
fn reads_and_writes_without_a_fault(rt: HostRuntime) {
    let files = [("a", "hello\nworld"), ("a", "last"), ("none", "")];
    let mut held = NeverFails::new(held_files(&rt, rt.alloc(), &files));
    expect_held(&rt, rt.alloc(), &mut held, "a", "hello\nworld");
    expect_held(&rt, rt.alloc(), &mut held, "missing", "");
    expect_held(&rt, rt.alloc(), &mut held, "none", "");
    expect_held(&rt, rt.alloc(), &mut held, "a", "hello\nworld");
    let longer = read_held(rt.alloc(), &mut held, "a", 10);
    expect_same(&rt, longer.err(), Some(ReadWhole::TooLong), &"longer");
}
