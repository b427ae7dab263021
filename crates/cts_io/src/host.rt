// Files and writers of the host. They tell none of their bytes.
ghost use Rattle.std.specs.Prelude.{◌≡◌, ◌≤◌, ◌<◌, ℕ, List, length, Option, Some, None, Ok, Err, is_some, IfSome, IsSomeAnd, IsNone, IsOk, OnOk, OnErr, IfOk, IfErr, IsErrOf};
ghost use Rattle.cts_io.specs.Vocabulary.{Rose, Takes, absent, AnswersOpen, AnswersRead, AnswersWrite, Tried, raised};

use crate::device::{Failed, Inputs, Sink, StartFault};
use crate::opener::{FileOpener, open_file};
use crate::stream::{ByteWriter, read_next, write_prefix};
use std::marker::Model;
use std::rt::{Stderr, Stdout};

/// Files of the host, each opened where it is started. Contracts see what opens them, the started
/// file and the count of the faults, which is the count of every name.
#[derive(Drop)]
pub struct HostInputs<O: FileOpener> {
    opener: O,
    // The started file; before any start, and after a refused one, nothing is left.
    file: Option<O::File>,
    faults: u64,
}

impl<O: FileOpener> Model for HostInputs<O> {
    ghost use Rattle.cts_io.specs.Host.{Opened};

    ghost Value = { Opened O O.File };

    ghost view = { λ inputs. record {
      opener = inputs.opener;
      stream = inputs.file;
      faults = inputs.faults;
    } };
}

impl<O: FileOpener> HostInputs<O> {
    /// The files that this opens, none of which is started.
    pub fn new(opener: O) -> HostInputs<O>
        ensures { result ≡ record { opener = opener; stream = None; faults = 0 } }
    {
        HostInputs {
            opener,
            file: None,
            faults: 0,
        }
    }
}

impl<O: FileOpener> Inputs for HostInputs<O> {
    ghost holds = { λ _ _. absent };

    ghost left = { λ _. absent };

    ghost faults = { λ inputs _. inputs.faults };

    fn start(&mut self, name: &str) -> Result<(), StartFault>
        // The started file is one that opening exactly this name answered.
        ensures opened { OnOk result (IsSomeAnd self.new.stream (λ file. Tried (O.opens name.now)
            AnswersOpen self.old.opener (Ok file) self.new.opener)) }
        ensures refused { IfErr result (λ fault. Tried (O.opens name.now)
            AnswersOpen self.old.opener (Err fault) self.new.opener) }
        ensures not_opened { OnErr result (self.new.stream ≡ None) }
        ensures counted { IsErrOf result StartFault.Failed
            → self.new.faults ≡ raised self.old.faults }

        // The trait's clauses, where nothing is said of the bytes.
        ensures ok { OnOk result (absent ≡ absent) }
        ensures failed { IsErrOf result StartFault.Failed → Rose self.old.faults self.new.faults }
        ensures files { (file : List ℕ) → absent ≡ absent }
        ensures counts { (file : List ℕ) → self.old.faults ≤ self.new.faults }
        ensures stays { ¬ IsErrOf result StartFault.Failed
            → (file : List ℕ) → self.new.faults ≡ self.old.faults }
    {
        self.file = None;
        match open_file(&mut self.opener, name) {
            Ok(file) => {
                self.file = Some(file);
                Ok(())
            }
            Err(StartFault::NoMemory) => Err(StartFault::NoMemory),
            Err(StartFault::Failed) => {
                self.faults = self.faults.saturating_add(1);
                Err(StartFault::Failed)
            }
        }
    }

    fn take(&mut self, name: &str, into: &mut [u8]) -> Result<usize, Failed>
        requires { 0 < length into.old }
        ensures denoted { IfSome self.old.stream (λ file. IfSome self.new.stream (λ now.
            Tried O.File.reads AnswersRead (file, into.old) result (now, into.new))) }
        ensures started { is_some self.new.stream ≡ is_some self.old.stream }
        ensures none { IsNone self.old.stream → result ≡ Ok 0 }
        ensures opener { self.new.opener ≡ self.old.opener }
        ensures counted { OnErr result (self.new.faults ≡ raised self.old.faults) }

        // The trait's clauses.
        ensures within { IfOk result (λ n. n ≤ length into.new) }
        ensures ok { IfOk result (λ n. (rest : List ℕ) → absent ≡ Some rest
            → Takes rest n into.new absent) }
        ensures failed { OnErr result (Rose self.old.faults self.new.faults) }
        ensures files { (file : List ℕ) → absent ≡ absent }
        ensures counts { (file : List ℕ) → self.old.faults ≤ self.new.faults }
        ensures stays { OnOk result ((file : List ℕ) → self.new.faults ≡ self.old.faults) }
    {
        let Some(file) = &mut self.file else {
            return Ok(0);
        };
        let read = read_next(file, into);
        if read.is_err() {
            self.faults = self.faults.saturating_add(1);
        }
        read
    }
}

/// A writer of the host, as standard output. Contracts see the
/// writer and the count of its faults. Each piece
/// goes to the writer at once, so a writer that keeps nothing back gives a fault at its own write.
#[derive(Debug, Drop)]
pub struct HostSink<W> {
    writer: W,
    faults: u64,
}

/// Standard output. Its type isn't that of standard error, so neither stands where the other is
/// meant.
pub type HostOut = HostSink<Stdout>;

/// Standard error.
pub type HostErr = HostSink<Stderr>;

impl<W> Model for HostSink<W> {
    ghost use Rattle.cts_io.specs.Host.{Counted};

    ghost Value = { Counted W };

    ghost view = { λ sink. record { stream = sink.writer; faults = sink.faults } };
}

impl<W> HostSink<W> {
    /// A sink over a writer, which has to keep no bytes back.
    pub fn new(writer: W) -> HostSink<W>
        ensures { result ≡ record { stream = writer; faults = 0 } }
    {
        HostSink { writer, faults: 0 }
    }
}

impl<W: ByteWriter> Sink for HostSink<W> {
    ghost written = { λ _. absent };

    ghost faults = { λ sink. sink.faults };

    fn write(&mut self, piece: &[u8]) -> Result<usize, Failed>
        ensures denoted { 0 < length piece.now → Tried (W.writes piece.now)
            AnswersWrite self.old.stream result self.new.stream }
        ensures nothing { length piece.now ≡ 0 → (result ≡ Ok 0) × (self.new ≡ self.old) }
        ensures counted { OnErr result (self.new.faults ≡ raised self.old.faults) }

        // The trait's clauses.
        ensures within { IfOk result (λ n. n ≤ length piece.now) }
        ensures some { 0 < length piece.now → IfOk result (λ n. 0 < n) }
        ensures none { length piece.now ≡ 0 → IsOk result }
        ensures failed { OnErr result (Rose self.old.faults self.new.faults) }
        ensures count { self.old.faults ≤ self.new.faults }
        ensures stays { OnOk result (self.new.faults ≡ self.old.faults) }
    {
        let written = write_prefix(&mut self.writer, piece);
        if written.is_err() {
            self.faults = self.faults.saturating_add(1);
        }
        written
    }
}
