//! A line on its way to a sink, a buffer at a time.

ghost use Rattle.std.specs.Prelude.{◌≡◌, ◌≤◌, [], ◌∷◌, false, take};
ghost use Rattle.failure_lines.specs.Line.{LineState, Puts};

use cts_io::{Sink, write_whole};
use std::marker::Model;

// How many bytes of a line are held. A line that isn't longer is one write.
const ROOM: usize = 4096;

// A line: the bytes that aren't written yet, and whether the sink has failed. Nothing more is
// written then: there is nowhere to tell of that.
#[derive(Drop)]
pub(crate) struct Line {
    bytes: [u8; ROOM],
    len: usize,
    failed: bool,
}

impl Model for Line {
    ghost Value = { LineState };

    ghost view = { λ line. record { held = take line.len line.bytes; failed = line.failed } };

    ghost invariant = { λ line. line.len ≤ 4096 };
}

impl Line {
    // An empty line.
    pub(crate) fn new() -> Line
        ensures { result ≡ record { held = []; failed = false } }
    {
        Line {
            bytes: [0; ROOM],
            len: 0,
            failed: false,
        }
    }

    // Puts a byte at the end, after room is made for it.
    pub(crate) fn push<E: Sink>(&mut self, byte: u8, err: &mut E)
        ensures { Puts (byte ∷ []) (self.old, E.written err.old, E.faults err.old)
            (self.new, E.written err.new, E.faults err.new) }
    {
        if self.len == ROOM {
            self.flush(err);
        }
        self.bytes[self.len] = byte;
        self.len += 1;
    }

    // Writes what is held.
    pub(crate) fn flush<E: Sink>(&mut self, err: &mut E)
        ensures told { Puts [] (self.old, E.written err.old, E.faults err.old)
            (self.new, E.written err.new, E.faults err.new) }
        ensures empty { self.new.held ≡ [] }
    {
        if !self.failed {
            self.failed = write_whole(err, &self.bytes[..self.len]).is_err();
        }
        self.len = 0;
    }
}
