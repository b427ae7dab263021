// A sink in memory.
ghost use Rattle.std.specs.Prelude.{◌≡◌, ◌≤◌, ◌<◌, [], length, take, Some, is_err, IsOk, OnOk, OnErr, IfOk, vec_len, vec_capacity};
ghost use Rattle.cts_io.specs.Vocabulary.{Rose, appended, fresh_plan, SinkState, is_refused, accepted, after_write};

use crate::device::{Failed, Sink};
use crate::plan::Plan;
use cts_base::NoMemory;
use std::alloc::Global;
use std::marker::Model;

/// A sink that keeps in memory what is written, with the writes that fail.
#[derive(Debug, Drop)]
pub struct MemorySink {
    bytes: Vec<u8>,
    room: usize,
    plan: Plan,
    piece: usize,
}

impl Model for MemorySink {
    ghost Value = { SinkState };

    ghost view = { λ sink. record {
      bytes = sink.bytes.items;
      room = sink.room;
      plan = sink.plan;
      piece = sink.piece;
    } };

    ghost invariant = { λ sink. (1 ≤ sink.piece) × (vec_len sink.bytes ≤ sink.room)
        × (sink.room ≤ vec_capacity sink.bytes) };
}

impl MemorySink {
    /// An empty sink. It takes the memory for `room` bytes at once, and no later call takes any.
    /// `fails` has the numbers of the writes that fail: all writes are counted from 1, those of no
    /// bytes too, and each write after number 2^64 - 1 has that number too. A write takes at most
    /// `piece` bytes.
    ///
    /// # Errors
    ///
    /// There is no memory for `room` bytes.
    pub fn new(
        alloc: Global,
        room: usize,
        fails: Vec<u64>,
        piece: usize,
    ) -> Result<MemorySink, NoMemory>
        requires { 1 ≤ piece }
        ensures { IfOk result (λ sink. sink ≡ record {
          bytes = [];
          room = room;
          plan = fresh_plan fails.items;
          piece = piece;
        }) }
    {
        Ok(MemorySink {
            bytes: Vec::with_capacity(alloc, room)?,
            room,
            plan: Plan::new(fails),
            piece,
        })
    }

    /// What is written.
    pub fn bytes(&self) -> &[u8]
        ensures { result.now ≡ self.now.bytes }
    {
        self.bytes.as_slice()
    }
}

impl Sink for MemorySink {
    ghost written = { λ sink. Some sink.bytes };

    ghost faults = { λ sink. sink.plan.faults };

    fn write(&mut self, piece: &[u8]) -> Result<usize, Failed>
        ensures answer { is_err result ≡ is_refused self.old piece.now }
        ensures accepts { IfOk result (λ n. n ≡ accepted self.old piece.now) }
        ensures after { self.new ≡ after_write self.old piece.now }

        // The trait's clauses.
        ensures within { IfOk result (λ n. n ≤ length piece.now) }
        ensures some { 0 < length piece.now → IfOk result (λ n. 0 < n) }
        ensures none { length piece.now ≡ 0 → IsOk result }
        ensures ok { IfOk result (λ n. Some self.new.bytes ≡ appended (Some self.old.bytes)
            (take n piece.now)) }
        ensures err { OnErr result (Some self.new.bytes ≡ Some self.old.bytes) }
        ensures failed { OnErr result (Rose self.old.plan.faults self.new.plan.faults) }
        ensures count { self.old.plan.faults ≤ self.new.plan.faults }
        ensures stays { OnOk result (self.new.plan.faults ≡ self.old.plan.faults) }
    {
        let fails = self.plan.call_fails();
        let left = self.room - self.bytes.len();
        if !piece.is_empty() && (fails || left == 0) {
            self.plan.count_fault();
            return Err(Failed);
        }
        let count = self.piece.min(piece.len()).min(left);
        self.bytes.extend_from_slice(&piece[..count]).unwrap();
        Ok(count)
    }
}
